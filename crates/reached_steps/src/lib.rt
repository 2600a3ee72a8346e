//! Why a search over the steps of reached terms needs no other clauses.
//!
//! A search for an assignment holds the clauses of those steps alone that made the bits of the terms which its check
//! reaches, and of the selectors of their assertions. The laws of this crate say that it needs no more. The clauses of a
//! block are of variable 1, of the variables of its own gates and of those of its arguments' bits, and each has one of its
//! own gates (`blocks_stand_on_arguments`). So each clause of another step, but of a learnt chain, has a variable that stands
//! in no clause which the search holds (`reached_steps_are_separate`). With functions and arrays it holds the equalities of
//! reached terms too, and the lemmas over what it has variables for (`opening_steps_are_separate`). The crate stands on `cube_search`, whose definition of
//! separate positions it shows, `proof_log` and `bit_blast`, and on the crates that these stand on.
#![tactic(auto)]

mod laws;

pub use laws::{
    blocks_stand_on_arguments, opening_steps_are_apart, opening_steps_are_separate,
    reached_steps_are_separate, taken_steps_are_opening,
};
