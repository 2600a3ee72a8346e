//! The cubes of a check, searched one after the other with lemmas on functions and arrays.
//!
//! [`solve`] finds a clause of opposites of assumed literals, to which the cubes' clauses are joined,
//! an interpretation, or the diary of the lowest cube on which the budget was spent. The log gains
//! chains, equalities and lemmas; for want of memory it comes back. The crate stands on
//! `theory_search` and `cube_tree`.
#![tactic(auto)]

mod check;
mod outcome;
mod solving;
mod tried;

pub use check::TheoryCheck;
pub use outcome::Outcome;
pub use solving::solve;
