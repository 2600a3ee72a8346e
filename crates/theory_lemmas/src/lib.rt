//! The clauses of lemmas on functions and arrays.
//!
//! `clause_of` gives the clause of a lemma: a literal for each of its atoms. It answers `Shape` exactly where the lemma's
//! terms, paths or bits are not those of one, and else the first equality that has no variable yet. The law
//! `lemma_clauses_are_sound` promises that the clause is true where variables mean what the terms are; further laws, that
//! more bits and variables leave it as it is, and of which variables it is.
//! The crate stands on the lemmas of `theory_terms`, the terms of `smt_terms` and the clauses of `cnf_base`.
#![tactic(auto)]

pub mod atoms;
pub mod clauses;
pub mod fault;
pub mod laws;
#[cfg(test)]
mod tests;
