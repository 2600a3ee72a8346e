//! The search of a check's cubes.
//!
//! A check is searched under each of its cubes. One worker takes the cubes in their order, over the log alone, and starts no
//! thread. What is found is a model, a clause of opposites of assumed literals alone, which the cubes' clauses are joined to,
//! or the lowest cube on which the budget was spent; for want of memory the log comes back with what it gained. Each search
//! that is kept goes over to the next check with what it learnt. Of several workers, no more than there are cubes, each has a
//! board over a pass of the hub: it claims cubes and tells what became of each, until none is left, in a thread of its own. What
//! they come to together follows from their closed history, whose steps are put into the log. The crate stands on `cube_search`,
//! `cube_tree`, `hub_board` and `proof_log`.
#![tactic(auto)]

mod alone;
mod check;
mod crew;
mod gate;
mod kept;
mod laws;
mod moving;
mod outcome;
mod putting;
mod solving;
mod sum;
mod threads;
mod tried;
mod worker;

pub use check::{Check, Settings};
pub use gate::{Gate, NoGate, PairGate, Point};
pub use kept::KeptSearch;
pub use laws::ended_workers_tell_of_every_cube;
pub use outcome::{Found, Lost, Outcome};
pub use putting::{positions_in, put_history};
pub use solving::solve;
pub use sum::Sum;
pub use worker::{Reached, work_cubes};
