//! Which positions of a log a search with functions and arrays holds from its beginning.
//!
//! [`TheorySteps`] is kept from check to check: it reads each step of the log once, and keeps the positions of equalities and of
//! lemmas and, for each variable, that of the step which made it. Its positions for a check are those that `reached_steps` shows to
//! be enough: of all steps of the reached terms, and of each lemma over their variables and those of their equalities. The crate
//! stands on `reached_steps`, whose definition it meets, on `scope_selectors`, `variable_list` and `proof_log`.
#![tactic(auto)]

mod holding;
mod laws;
mod next;
mod position_list;
mod theory_steps;

pub use laws::more_steps_keep_what_was_read;
pub use theory_steps::TheorySteps;
