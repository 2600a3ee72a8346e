//! Which clauses of lemmas a search has.

use cnf_base::{Clause, Lit};
use std::alloc::{AllocError, Global};
use std::collections::BTreeSet;

/// The clauses of lemmas that a search has, each as its literals in order. Two lemmas may have one clause.
#[derive(Drop)]
pub(crate) struct LemmaClauses {
    alloc: Global,
    clauses: BTreeSet<Vec<u64>>,
}

impl LemmaClauses {
    /// No clause; takes no memory.
    pub(crate) fn new(alloc: Global) -> LemmaClauses {
        LemmaClauses {
            alloc,
            clauses: BTreeSet::new(alloc),
        }
    }

    /// The search has this clause from here on; whether it is new, and not true in every assignment.
    pub(crate) fn add(&mut self, clause: &Clause) -> Result<bool, AllocError> {
        let mut codes = Vec::new(self.alloc);
        'literals: for literal in clause.literals() {
            if *literal == Lit::TRUE {
                return Ok(false);
            }
            codes.push(literal.code())?;
        }
        codes.sort()?;
        codes.dedup();
        Ok(self.clauses.insert(codes)?)
    }
}
