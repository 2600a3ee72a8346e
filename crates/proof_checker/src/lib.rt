//! The checker of proofs: it tells accepted proofs from others, and of these the first bad line and its rule.
//!
//! A [`checker::Checker`] is given the commands of a script and the lines of a proof as they come. It drives the state of
//! `script_state` for the commands, so that it passes over what a session refuses, tries each step against the log of
//! `faded_log`, keeps which places are deleted and forgets the chains there, evaluates the values of a model with `smt_eval`, looks up the selectors of a refutation, and reads the diary of
//! a cube with `diary_checker`. Its contracts say that it moves as the definitions of `accepted_proof` judge. A
//! [`checking::Checking`] reads the two texts, in whatever pieces they come, and its contracts say what is judged of the whole
//! texts: that the proof is accepted, or its first bad line. Behind a command that ends the run it reads no more of the script.
//! It shares nothing with search or session but `check_cubes`, which looks up the cubes of a check as they are defined.
#![tactic(auto)]

mod check_laws;
pub mod checker;
pub mod checking;
mod commands;
mod deletions;
mod diaries;
mod due;
mod headers;
mod inputs;
mod kept;
mod lines;
mod models;
mod named;
mod records;
mod refutations;
pub mod report;
mod searches;
mod steps;
mod values;
mod written;

pub use check_laws::{
    accepted_fronts_are_right, accepted_fronts_stay, accepted_proofs_pass,
    texts_are_judged_one_way, what_is_accepted_is_right,
};
