//! A session: the commands of a script in order, each with its response, and what the proof file gets for each check.
//!
//! A check makes the terms that watch its arrays, simplifies what these, its live assertions and its assumptions reach by the
//! rules of rewriting, and encodes what that needs; one worker or several search its cubes by bits alone, and what the proof file
//! needs for its record is written before it is answered. Where each cube is closed, the clauses that close them are
//! joined to a refutation; where the budget was spent on one and no other gave a model, the answer is `unknown`, with the diary of
//! the lowest such cube as record. Values of the bits are a model where no function and no array is reached; else a search goes on
//! with lemmas, at once where there is one worker. The searches of the workers are kept from check to check, and go over to what the next one
//! reaches. A model and the values of terms are printed from the record of the last check, and so are the names of a core and the
//! assumptions that a refutation rests on.
//! The terms whose values are asked for are forgotten once they are printed. The contract of [`session::Session::command`]
//! says what each command leaves and answers, which bytes the proof got, and whether the run ends. The crate stands on
//! `script_state` for what a command does, on `reached_images` for what terms become, on `proof_log` for the steps, on
//! `proof_file` for what of them is written, on `check_cubes`, `cube_tree`, `cube_workers` and `theory_cubes` for the verdict, on
//! `word_models` and `written_models` for models, and on `smt_eval` for values.
#![tactic(auto)]

mod check;
mod cores;
mod encoding;
mod finding;
mod given;
mod last;
mod lists;
mod planned;
mod preparing;
mod reach;
pub mod response;
mod searching;
mod selecting;
pub mod session;
pub mod settings;
mod taking;
mod texts;
mod values;
mod watching;
mod workspace;
