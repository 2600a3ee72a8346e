//! What the program does for the words that it takes, over any source and any sinks.
//!
//! [`running::run`] does what the words ask for. The contract of `run` says
//! that whatever was answered stands beside an accepted proof and is right: each `sat` has a written model, where there is an
//! `unsat` there is none, an `unknown` has the diary of a cube on which the budget of the words was spent, and models,
//! values, cores and assumptions that are printed are those of the check that stands. Of a check it says that what is told
//! was judged of both texts, and that what is accepted is right, whoever wrote it; the same of a refutation of clauses, which
//! leaves no assignment that makes them all true. Of a search of clauses it says that values which are told make each of them
//! true, and that where none do an accepted refutation was written. Of a conversion it says that what is written has the lines of the
//! proof that was read, in the second format, or that the first bad line is told. Of a script that is drawn it says the same as of one that is read, and that the summary of the answers is told. It says when each status comes, how much of each input is read, and that a
//! fault is told only where a count rose. The crate stands on `tool_words` for the words, on `smt_session` for the answers and their proof, on `smt_check`
//! for the check of a proof, on `dimacs_run` for that of a refutation and for the search of clauses, on `proof_conversion` for the conversion of a proof, on `drill_script` for the scripts that are drawn, on `proof_checker` and `accepted_proof` for the laws
//! that join them, and on `smt_text` and `smt_desk`.
#![tactic(auto)]

mod answering;
mod converting;
mod drilling;
mod refuting;
pub mod running;
mod scripts;
mod searching;
