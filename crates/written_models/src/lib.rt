//! Written models: the values of the live declarations, as the record of a `sat` lists them.
//!
//! [`written_model`] takes an interpretation that is a model of the live assertions and the
//! assumptions, and lists each live declaration with its value there, one that the checker of proofs
//! accepts: what is set for a declaration is read at its sort or its signature, whatever it is. The
//! law says when an interpretation that a search found is such a model. The crate stands on
//! `script_state`, `smt_values` and the definitions of `accepted_proof`.
#![tactic(auto)]

mod arrays;
pub mod laws;
mod scalars;
pub mod set_values;
mod tables;
#[cfg(test)]
mod tests;
mod values;
mod written;

pub use set_values::SetValues;
pub use written::written_model;
