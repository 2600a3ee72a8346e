//! Saved phases (K. Pipatsrisawat and A. Darwiche, "A lightweight component caching scheme for satisfiability solvers", 2007).

use std::alloc::{AllocError, Global};

/// The sign that each variable had last.
#[derive(Drop)]
pub struct Phases {
    positive: Vec<bool>,
}

impl Phases {
    /// No variable.
    pub fn new(alloc: Global) -> Phases {
        Phases {
            positive: Vec::new(alloc),
        }
    }

    /// Has the variables below the bound, the new ones negative.
    pub fn reserve(&mut self, bound: usize) -> Result<(), AllocError> {
        if self.positive.len() < bound {
            self.positive.resize(bound, false)?;
        }
        Ok(())
    }

    /// Keeps the sign of a variable that becomes open.
    pub fn save(&mut self, variable: u64, positive: bool) {
        let i = variable as usize;
        if i < self.positive.len() {
            self.positive[i] = positive;
        }
    }

    /// Whether the variable was positive last.
    pub fn is_positive(&self, variable: u64) -> bool {
        let i = variable as usize;
        i < self.positive.len() && self.positive[i]
    }
}
