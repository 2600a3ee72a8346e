//! Learning from conflicts: the clause of the first unique implication point with the hints by which it follows, and the
//! clause that ends a search.
//!
//! The walk starts at the conflict and goes back over the trail. It replaces a literal by the other literals of the clause
//! that forced its opposite, and each clause that it meets is a hint; read backwards the hints are a chain, whichever
//! literals are replaced. At the level of the conflict it stops where one literal is left (J. P. Marques-Silva and K. A.
//! Sakallah, "GRASP: a search algorithm for propositional satisfiability", 1999), and below it replaces what is false at
//! level 0, and what follows from other literals of the clause alone, over as many reasons as it takes (N. Sörensson and A.
//! Biere, "Minimizing learned clauses", 2009).
//!
//! The contract of `learn` says that the clause follows by its hints, that each hint is used, that no held clause is a
//! subset of it, and to which level the search may go back so that the clause is unit there; that of `final_clause` that
//! the clause follows by its hints and has only opposites of given literals. It stands on `cdcl_core` for the trail and the
//! held clauses, and on `hint_chain` for chains.
#![tactic(auto)]

mod last;
mod learning;
mod marks;
mod minimizer;
mod units;
mod walk;

pub use last::{Clash, final_clause};
pub use learning::learn;
pub use units::unit_clause;

#[cfg(test)]
mod tests;
