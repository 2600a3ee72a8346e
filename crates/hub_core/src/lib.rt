//! The hub: one log that many passes add to, and the cubes that they claim.
//!
//! A pass puts chains and lemmas, has the equalities of terms given variables, claims the next cube, and tells what became of
//! a cube that it claimed: a clause closes it, its budget is spent, or a model was found. `HubLaw` is the law of these
//! calls for `shared_history`: which of them are permitted after a history, which event and which reply each has. Its
//! theorem is on `HubLaw::every_run`: whatever passes did in whatever order, each clause of the whole log is true in every
//! interpretation, each variable was made by one step, hints are of earlier positions, a closed cube has its clause at its
//! position, and each claimed cube is still open, or closed, or spent, or a model was found. The crate stands on
//! `shared_history`, `proof_log`, `theory_lemmas` and `cube_tree`.
#![tactic(auto)]

mod acting;
mod events;
mod law;
mod laws;
mod state;

pub use events::{Call, Event, Reply};
pub use law::HubLaw;
pub use laws::{done_histories_tell_of_every_cube, every_history_is_sound};
pub use state::{CubeStage, HubState, Stages};

#[cfg(test)]
mod lemma_tests;
#[cfg(test)]
mod tests;
