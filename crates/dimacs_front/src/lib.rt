//! DIMACS texts, which say clauses, and LRAT texts, which refute them.
//!
//! A [`cnf::CnfReader`] takes a text of clauses in pieces and gives them in one flat table, or the
//! first fault of the text with its line. An [`lrat::LratChecker`] takes a text beside these
//! clauses: each of its lines adds a clause, with hints by which it follows from those that are
//! held, or deletes some. The text is accepted exactly where each line is good and there is an
//! empty clause, else its first fault is told. What is accepted is right: no assignment makes all
//! the clauses true ([`lrat::refutations_are_right`]). However a text is cut into pieces, it is the
//! same text. The crate stands on `cnf_base`, `smt_text` and `plain_list`.
#![tactic(auto)]

pub mod cnf;
mod lines;
pub mod lrat;
mod marks;
pub mod number;
pub mod rows;
pub mod shape;
pub mod step;
pub mod stop;
mod table;
#[cfg(test)]
mod tests;
