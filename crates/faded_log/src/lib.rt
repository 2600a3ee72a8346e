//! A log of steps from which chains can be forgotten.
//!
//! [`FadedLog`] has the steps and the clauses of a proof by their positions, as the log of `proof_log` has them, and takes what
//! is valid behind them. A chain that no later step needs can be forgotten: its clause and its hints are let go, its position
//! stays, and has the clause that variable 1 is true. All steps but the chains stand in a log of `proof_log`, which others that
//! look at no chain are given. The crate stands on `proof_log`, `hint_chain`, `smt_terms` and `cnf_base`.
#![tactic(auto)]

mod log;
mod rows;

pub use log::FadedLog;
