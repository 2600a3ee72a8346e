//! Terms of the logic QF_AUFBV: sorts, operators, and the list of different nodes in which each term has its number.
//!
//! `Terms::make` gives equal numbers exactly for equal nodes, and tells the first fault of a node that is not well sorted.
//! `Bits` keeps which literals stand for a term's bits. The definitions in `specs/` say what a list of terms is, what
//! sort each term has, and what value it has under an interpretation of the declarations.
//! The crate stands on the words of `smt_words`, the literals of `cnf_base`, the lists of `plain_list`, and `indexmap`.
#![tactic(auto)]

pub mod apply;
pub mod bits;
pub mod fault;
pub mod laws;
pub mod list;
pub mod node;
pub mod operator;
pub mod rank;
pub mod scalar;
pub mod sort;
pub mod terms;
