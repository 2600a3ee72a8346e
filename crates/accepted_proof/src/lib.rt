//! What an accepted proof of a script is, and what stands beside an answer.
//!
//! The definitions in `specs/` say what the turns of a script are: each command with its answer, and for each check the
//! valid steps and the record that stand in the proof. They say what text the answers and the proof are, when a proof is
//! accepted, and what is right of answers in the words of SMT-LIB alone: a `sat` stands beside a model of the live
//! assertions under the assumptions, and where there is an `unsat` they have none. They say which assertions and
//! assumptions a refutation blames, into which cubes a check is split and when the diary of a cube shows that its budget
//! was spent, which an `unknown` stands beside, and what is judged of a proof line by line: its first bad line and the
//! rule of that, or that it has none. A command that ends the run is the last of a script's turns, and what stands in
//! the script behind it is not read. The laws say that accepted proofs are right, and so is what is printed of the check
//! that stands: a model and values are its record's, the assertions of a core have no model with those that have no name
//! and the assumptions, and assumptions that are printed have none with the live assertions. Definitions and values are printed here. A solver proves that what
//! it writes is accepted, a checker that it tells accepted proofs from others. The crate stands on `script_state`,
//! `cube_tree`, `proof_log` and `proof_text`, and on the crates that these stand on.
#![tactic(auto)]

mod judging;
mod laws;
mod printing;
#[cfg(test)]
mod printing_tests;
pub mod refusal;
mod values;

pub use judging::{
    accepted_proofs_are_judged, judged_fronts_are_accepted, judged_proofs_are_accepted,
    proofs_are_judged_one_way, the_rest_is_judged_as_the_whole,
};
pub use laws::{
    accepted_proofs_are_right, answers_are_right, answers_beside_proofs_are_right,
    scripts_are_read_one_way, split_variables_rise, what_is_printed_is_right,
};
pub use printing::{push_definition, push_meaning};
pub use values::interp_of;
