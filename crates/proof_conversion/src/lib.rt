//! Proofs of the first format, written in the second: the same lines, in front of which each part deletes what no line needs
//! from there on.
//!
//! [`converting::convert`] reads a proof by its lines, whatever they say: the header, and then parts of steps, each ended by a
//! record with the lines that it counts. Behind each part the lemmas and chains are deleted that no later line names as a hint,
//! in `unsat` or in a diary, and that no chain cites which a later diary puts. The crate stands on `proof_text`.
#![tactic(auto)]

pub mod converting;
mod deleting;
pub mod fault;
pub mod header;
pub mod kind;
mod needing;
mod scanning;
#[cfg(test)]
mod tests;
