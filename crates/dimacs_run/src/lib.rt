//! Clauses of DIMACS and refutations of them by LRAT, over any sources and any sinks.
//!
//! [`refuting::refute`] reads a text of clauses piece by piece, and then a refutation of them, and
//! tells in one line that it is accepted, or the first fault of the two texts, the clauses' first.
//! Its contract says what is told, exactly, and that what is accepted is right: no assignment makes
//! all the clauses true. It says how much of both is read, and that a failure is answered only where
//! a source or the sink failed.
//!
//! [`solving::solve_clauses`] reads a text of clauses and searches them: it tells their first fault,
//! values under which each clause is true, or that there are none, behind a refutation that is
//! written while the search goes on and that the same checker accepts.
//!
//! The crate stands on `dimacs_front` for both texts, on `dimacs_search` for the search, on `smt_desk`
//! for sources and sinks, and on `smt_text`.
#![tactic(auto)]

pub mod failure;
pub mod finding;
mod reading;
pub mod refuting;
pub mod solving;
mod telling;
#[cfg(test)]
mod tests;
