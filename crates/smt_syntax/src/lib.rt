//! The commands of a script: S-expressions, their shapes, and the grammar of commands.
//!
//! [`command::read_command`] gives the command that the tokens of a chunk are, or the first of three faults: nested too
//! deep, no known command, malformed. A command names its terms and sorts by the tokens that they span. What a command
//! is, is defined over its S-expression; the code reads tokens from left to right with a stack of open lists, and is
//! proved to give the same. The walk and its stack machine are stated once for every grammar, so that crates above use
//! them for readers of their own. The crate stands on `smt_text`.
#![tactic(auto)]

pub mod command;
pub mod depth;
mod form;
mod judge;
pub mod parts;
mod shape;
pub mod span;
#[cfg(test)]
mod tests;
pub mod words;
