//! Worked scripts, command by command, and the responses that `script_state` is to give.
//!
//! It is a crate of its own, since a crate with tests is proved twice.
#![tactic(auto)]

#[cfg(test)]
mod asked_tests;
#[cfg(test)]
mod session_tests;
#[cfg(test)]
mod tests;
#[cfg(test)]
mod theory_tests;
#[cfg(test)]
mod worked;
