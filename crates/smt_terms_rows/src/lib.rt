//! Worked nodes, and the sorts, terms and faults that `smt_terms` is to give.
//!
//! It is a crate of its own, since a crate with tests is proved twice.
#![tactic(auto)]

#[cfg(test)]
mod tests;
