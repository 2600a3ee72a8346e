//! A search of DIMACS clauses that writes its refutation by LRAT.
//!
//! [`solving::solve`] finds values that make each clause true, or writes a refutation of them that a checker of LRAT accepts;
//! [`solving::solve_counting`] tells beside it how many conflicts, decisions and propagations that took.
//! [`writing::push_added`] writes the line that adds a learnt clause, and a checker that reads it goes on as if the clause had been
//! added ([`writing::added_lines_read_back`]). The crate stands on `cdcl_loop` for the search, on `dimacs_front` for the clauses and
//! what is said of a refutation, on `hint_chain` for chains, and on `smt_desk` for the sink.
#![tactic(auto)]

mod learning;
mod loading;
pub mod outcome;
mod rare;
pub mod solving;
#[cfg(test)]
mod tests;
pub mod writing;
