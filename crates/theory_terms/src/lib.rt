//! Functions and arrays among terms: which terms apply, select, store and compare, the accesses of arrays and their
//! moves, and the lemmas on them.
//!
//! The definitions in `specs/` say of which atoms, statements on the values of terms, a lemma consists. The law
//! `lemmas_are_sound` promises that one of them is true in every interpretation; further laws, that what an atom says to
//! be true or false is a Bool, that the terms which a lemma names are held, that more terms change nothing of it, and
//! that arrays obey the axioms of ArraysEx. The crate stands on the terms of `smt_terms`.
#![tactic(auto)]

pub mod atom;
pub mod laws;
pub mod lemma;
pub mod shape;
