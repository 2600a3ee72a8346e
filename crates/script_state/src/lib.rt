//! The deterministic part of a session: what each command of a script does to the declarations, the terms, the levels
//! and the standing check, and how it is answered.
//!
//! [`state::State::apply`] takes a chunk of the script. Its answer and the new state are those of the step that the
//! definitions in `specs/` give for what the chunk reads as; a refused command is told its first fault, in the order of
//! chunk, tokens, depth, form, and names, sorts and terms, and leaves the state as it was. A solver and a checker of proofs
//! drive the same state, so that a command is refused in both or in none. Every command is obeyed but those of other logics,
//! which are not supported: declarations and definitions of Bools, words, arrays and functions, assertions with their names,
//! checks with assumptions and without, levels ([`state::State`] keeps, for each, what stands once it ends), options and
//! information, `echo`, `get-model`, `get-value`, cores, unsat assumptions and `exit`. A line that a command says is part of
//! its answer; a model, values, names and assumptions that are to be printed, and `exit`, are answers of their own, which the
//! session prints and ends by. [`state::State::forget`] forgets the terms whose values were printed. A check is refused
//! exactly where the terms that it makes before all else, as `array_watches` has it, are more than may be held; where one is
//! begun they can be made, as the law `watches_of_checks_fit` says. [`state::State::into_parts`] lends the terms to a log
//! whose steps make terms. The crate stands on `smt_build`, `scope_selectors` and `array_watches`, and on the crates that
//! these stand on.
#![tactic(auto)]

pub mod answer;
mod asked;
mod assertions;
mod commands;
pub mod error_text;
mod information;
pub mod laws;
mod levels;
mod logic;
mod objecting;
pub mod options;
mod plain;
mod saying;
pub mod state;
mod watches;
mod whole;
mod word;
mod written;
