//! Worked checks by one worker and by several: a proved caller of `cube_workers`.
//!
//! The tests search the log of one assertion, that the square of a word of eight bits is a number, split by the word's lowest bits. A
//! square has a root or it has none, so the answer is known, and a model gives one. It is a crate of its own, since a crate with
//! tests is proved twice.
#![tactic(auto)]

#[cfg(test)]
mod square;
pub mod steps;
#[cfg(test)]
mod tests;
