//! Worked lines of proof files, read and printed by `proof_text`.
//!
//! It is a crate of its own, since a crate with tests is proved twice.
#![tactic(auto)]

#[cfg(test)]
mod lemma_tests;
#[cfg(test)]
mod printing_tests;
#[cfg(test)]
mod tests;
