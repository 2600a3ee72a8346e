//! The reading of diaries, which decides line by line what may stand, and at the end whether a budget was spent.
//!
//! A diary says what a search held and put, line by line. `DiaryReader` takes its lines one after the other over the log
//! that it is about, from which places may have been deleted, which are not held at its start: `line` answers true exactly where the line may stand after those that were taken, and then it is one
//! of them; `is_spent` answers true exactly where they have spent a budget. What a diary is, and when it has spent its
//! budget, is defined in `proof_log`, and what deletions change of that in `proof_text`; `specs/Readers` says what the reader
//! keeps. What a diary holds at its start is kept for the next one as a `DiaryStart`, so that this one costs what was added
//! since, and not the log. A put is decided in a time that is linear
//! in the literals of its clause, of its hints' clauses and of the held clauses that are filed under one of its literals; a
//! clause that is given up is filed no more. The crate stands on `faded_log`, `proof_text`, `proof_log`, `hint_chain`, `smt_terms` and
//! `cnf_base`.
#![tactic(auto)]

mod conditions;
mod filing;
mod goodness;
mod literals;
pub mod positions;
mod reader;
mod start;
mod table;
mod uses;
mod watches;

pub use reader::DiaryReader;
pub use start::DiaryStart;

#[cfg(test)]
mod tests;
