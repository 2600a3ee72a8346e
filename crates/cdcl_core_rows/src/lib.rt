//! Worked clauses and assignments, held, propagated and parked by `cdcl_core`.
//!
//! It is a crate of its own, since a crate with tests is proved twice.
#![tactic(auto)]

#[cfg(test)]
mod tests;
