//! Scripts that are drawn by a seed, and the summary of the responses to one.
//!
//! A script declares as many words as its size says. Each is asserted to be a number that is drawn, and to be an element of one
//! array; then it is checked, and checked again with an assertion that cannot hold. [`script::drill_script`] writes it, and
//! [`summary::summary`] counts the verdicts that were answered. The contracts give both texts, byte for byte. In between the script
//! is read by [`given::Given`], which never fails, and the answers are kept by [`kept::Kept`], which fails for want of memory
//! alone. The crate stands on `smt_text` and `smt_desk`.
#![tactic(auto)]

pub mod given;
pub mod kept;
pub mod script;
pub mod summary;
#[cfg(test)]
mod tests;
