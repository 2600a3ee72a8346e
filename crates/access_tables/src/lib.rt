//! Tables of accesses of arrays, and what follows from one that is closed.
//!
//! A [`Links`] tells to which terms a term leads where terms may have images and arrays witnesses,
//! for the walk of `term_reach`. An [`AccessTable`] has the accesses of arrays that some terms have
//! under an assignment. The definitions say when one is closed under all moves. The law
//! `closed_tables_give_models` promises of such a table that in an interpretation with its words
//! every term in which no witness stands has the assignment's value, and every array the table's
//! words, index width 1 and constant arrays included. The crate stands on the shapes and moves of
//! `theory_terms`.
#![tactic(auto)]

pub mod laws;
pub mod links;
pub mod table;
#[cfg(test)]
mod tests;
pub mod values;

pub use links::Links;
pub use table::AccessTable;
