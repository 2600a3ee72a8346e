//! Proofs of worked scripts, line by line, and what `proof_checker` is to say of each.
//!
//! It is a crate of its own, since a crate with tests is proved twice.
#![tactic(auto)]

#[cfg(test)]
mod deletion_tests;
#[cfg(test)]
mod lemma_tests;
#[cfg(test)]
mod rewrite_tests;
#[cfg(test)]
mod theory_tests;
