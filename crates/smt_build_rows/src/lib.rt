//! Worked commands, and the terms, sorts and faults that `smt_build` is to make of each.
//!
//! It is a crate of its own, since a crate with tests is proved twice.
#![tactic(auto)]

#[cfg(test)]
mod constant_array_tests;
#[cfg(test)]
mod definition_tests;
#[cfg(test)]
mod tests;
#[cfg(test)]
mod theory_tests;
