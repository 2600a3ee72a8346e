//! The check of a chain of hints, by which a clause follows from others by unit propagation.
//!
//! From the negation of the clause each hint but the last names a clause all of whose literals but
//! one are false, and makes that one true; the last names a clause that is false altogether. The
//! contract of [`follows`] says that it answers Ok exactly for chains, else the first fault in the
//! order of the hints, and that a clause with a chain is true wherever the named clauses are.
//! Contracts see [`Hints`] as the list of the names. The crate stands on `cnf_base`, whose
//! definitions of literal, clause and truth it uses.
#![tactic(auto)]

mod fault;
mod hints;
mod laws;
mod marks;
mod reading;
mod shape;

pub use fault::{ChainFault, FaultKind};
pub use hints::Hints;
pub use laws::{
    chains_are_sound, chains_have_no_fault, first_fault_is_one, more_clauses_keep_chains,
};
pub use marks::Marks;
pub use reading::{Clauses, follows};

#[cfg(test)]
mod tests;
