//! The text of a proof file: its lines, their printing, and the reader that gives them back.
//!
//! A [`line::Line`] is what one line says, with the numbers and values that are written there; `specs/Lines.antt` says
//! how each is printed, and no two are printed alike. [`header::write_header`], [`entry::write_entry`] and
//! [`record::write_record`] append the lines of a file's head, of a step and of a check's end, and their contracts say
//! which bytes, and that the lines of steps and records can be read. The crate stands on the terms of `smt_terms`, the
//! lemmas of `theory_terms`, the steps of `proof_log`, the values of `smt_values`, and the text of `smt_text`.
#![tactic(auto)]

pub mod entry;
pub mod file;
pub mod header;
mod keyword;
pub mod laws;
pub mod line;
pub mod list;
pub mod operator;
pub mod reader;
mod reading;
mod reading_lemmas;
mod reading_values;
pub mod record;
pub mod value;
mod words;
mod write;
