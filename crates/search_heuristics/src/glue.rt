//! The glue of a clause (G. Audemard and L. Simon, "Predicting learnt clauses quality in modern SAT solvers", 2009).

use crate::table::{at, put};
use std::alloc::{AllocError, Global};

/// Counts different decision levels.
#[derive(Drop)]
pub struct GlueCounter {
    // by level, the number of the last count that met it
    seen: Vec<u64>,
    count: u64,
    glue: u64,
}

impl GlueCounter {
    /// No level.
    pub fn new(alloc: Global) -> GlueCounter {
        GlueCounter {
            seen: Vec::new(alloc),
            count: 0,
            glue: 0,
        }
    }

    /// Has the levels below the bound.
    pub fn reserve(&mut self, bound: usize) -> Result<(), AllocError> {
        if self.seen.len() < bound {
            self.seen.resize(bound, 0)?;
        }
        Ok(())
    }

    /// Begins a count.
    pub fn begin(&mut self) {
        self.count = self.count.wrapping_add(1);
        self.glue = 0;
    }

    /// Meets a level.
    pub fn meet(&mut self, level: u64) {
        if at(&self.seen, level) != self.count {
            put(&mut self.seen, level, self.count);
            self.glue = self.glue.wrapping_add(1);
        }
    }

    /// How many different levels this count has met.
    pub fn glue(&self) -> u64 {
        self.glue
    }
}
