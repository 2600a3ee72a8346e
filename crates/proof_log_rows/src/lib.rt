//! Worked steps, pushed and tried one after another, and what `proof_log` is to say of each.
//!
//! It is a crate of its own, since a crate with tests is proved twice.
#![tactic(auto)]

#[cfg(test)]
mod lemma_board_tests;
#[cfg(test)]
mod tests;
