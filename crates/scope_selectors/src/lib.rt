//! The assertion levels of a session, and the cores of its checks.
//!
//! [`scopes::Scopes`] counts the levels that stand above the first and keeps the live assertions in
//! the order in which they were made, each with its term, its name and its level (SMT-LIB 2.6,
//! sections 4.1.4 and 4.2.7). The contracts say which assertions are live after each command, that
//! levels are refused exactly where too many would stand or more would go than are held, and which
//! named assertions are the core that a refuting clause tells. Numbers of assertions are never given
//! twice. The crate stands on the clauses of `cnf_base`, the texts of `smt_text` and the term numbers
//! of `smt_terms`.
#![tactic(auto)]

mod blame;
pub mod fault;
mod find;
pub mod laws;
pub mod live;
pub mod scopes;
#[cfg(test)]
mod tests;
