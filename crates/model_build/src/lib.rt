//! From a closed table of accesses to an interpretation.
//!
//! [`build`] sets a value for each declaration that the terms of a table reach: those of the
//! assignment for Bools and words, the rows of its applications for a function, and the accesses of
//! the table for an array. It promises that then every term in which no witness stands has the
//! assignment's value, index width 1 and constant arrays included, and that what is set is well
//! sorted: of each such declaration a value of its sort or a table of its signature, and of no other
//! anything. The crate stands on the law of `access_tables` and the interpretations of `smt_values`;
//! the condition of `smt_eval` on interpretations follows.
#![tactic(auto)]

mod building;
mod draft;
mod entering;
mod filling;
pub mod laws;
#[cfg(test)]
mod tests;

pub use building::build;
