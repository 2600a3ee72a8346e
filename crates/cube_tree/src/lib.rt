//! The cubes of a check, and the joining of the clauses that close them.
//!
//! Some variables split all assignments into cubes: a cube has a literal of each, and every assignment makes all literals
//! of exactly one cube true (`cubes_split_all`). A clause closes a cube where it has only opposites of the cube's literals
//! and of literals that the check assumes. From a clause that closes each cube `join` resolves, variable by variable, a
//! clause of opposites of assumed literals alone, and adds each resolvent to the log as a chain of hints. The crate stands
//! on `proof_log`, `hint_chain`, `smt_terms` and `cnf_base`.
#![tactic(auto)]

mod joining;
mod laws;
mod resolvent;
mod tree;

pub use joining::join;
pub use laws::cubes_split_all;
pub use tree::Tree;

#[cfg(test)]
mod tests;
