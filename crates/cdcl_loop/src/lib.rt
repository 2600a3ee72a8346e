//! The loop of a search by conflict-driven clause learning: an engine holds clauses over a trail, decides, propagates, learns from
//! conflicts, goes back, restarts, and drops clauses that it learnt.
//!
//! Its caller lists the variables of a check. Those that stood in late conflicts are decided first, and then the others in the order
//! of the list, by a cursor that goes back with the levels: where it comes to the end, each listed variable has a value.
//!
//! It searches under given literals, which it decides first, each at a level of its own up to the base level (N. Eén and N. Sörensson,
//! "Temporal induction by incremental SAT solving", 2003). The contracts say which clauses are held, how the trail moves, and which
//! literals are decided, so that a caller knows of each conflict whether it refutes the given literals, and of the end of the
//! decisions that each listed variable has a value. They say too what the engine counts of its work: conflicts, decisions and literals
//! of unit propagation ([`Effort`]). Nothing is promised of the choices: which variable is decided, when the search
//! restarts, and which clauses are the worse half.
//!
//! It knows of clauses only their names. What a clause is worth outside, as a line of a proof, is its caller's. It stands on
//! `cdcl_core` for the trail and the watches, on `cdcl_learn` for what is learnt, on `variable_list` for the list, and on
//! `search_heuristics` for the choices.
#![tactic(auto)]

mod agenda;
mod choices;
mod deciding;
mod effort;
mod engine;
mod fixing;
mod learning;
mod parking;

pub use effort::Effort;
pub use engine::Engine;

#[cfg(test)]
mod effort_tests;
#[cfg(test)]
mod fixing_tests;
#[cfg(test)]
mod parking_tests;
#[cfg(test)]
mod restart_tests;
#[cfg(test)]
mod tests;
