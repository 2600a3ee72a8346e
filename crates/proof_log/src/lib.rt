//! The log of the steps of a proof.
//!
//! A step makes a term, gives a term bits, of its own or by a rewrite rule those of another term, gives an assertion a
//! selector, gives the equality of two terms a variable, or adds the clause of a lemma or a clause with a chain of hints.
//! The definitions in
//! `specs/` say which steps are valid, what they leave, and what each variable means under an interpretation of the
//! declarations. The laws say that every clause of every log is true in every interpretation, that the bits of a term
//! are those of its value, a term has the value of its image and a selector is the value of its assertion's term, that more
//! steps and more terms keep all this, and that an assignment under which the clauses of the steps of some terms are true
//! gives each of them the bits of its value. `Log::push` adds a step that is known to be valid, `Log::try_push` one that may
//! not be. The crate stands on `bit_blast`, `bv_rules`, `hint_chain`, `theory_lemmas`, `smt_terms` and `cnf_base`.
#![tactic(auto)]

pub mod board;
pub mod diary;
pub mod entry;
mod equals;
mod fault;
mod laws;
pub mod lemma_board;
mod log;
mod pairs;
mod places;
mod pushing;
mod selectors;
mod steps;
mod trying;

pub use equals::{EqualRow, Equals};
pub use fault::{Kept, PushError, StepFault, StepKind};
pub use laws::{
    images_are_images, images_are_linked, logs_are_ordered, logs_are_sound, more_steps_keep_logs,
    more_terms_keep_logs, more_terms_keep_stored_logs, satisfied_terms_have_values,
    stored_images_are_images, stored_logs_are_settled, valid_steps_stand,
};
pub use log::Log;
pub use pairs::Pairs;
