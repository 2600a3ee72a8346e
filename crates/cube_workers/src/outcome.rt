//! What the search of a check's cubes comes to.

use crate::kept::KeptSearch;
use cnf_base::Pos;
use proof_log::Log;
use proof_log::diary::Diary;

/// What the search of the cubes found.
#[derive(Drop)]
pub enum Outcome {
    /// Under the values that the search has which found it, the clauses of the positions and the assumed literals are true.
    Sat,
    /// The first clause of the position has only opposites of assumed literals.
    Unsat(Pos),
    /// The lowest cube on which the budget was spent.
    Unknown(Diary),
}

/// What a check came to, and what is kept for the next one.
#[derive(Drop)]
pub struct Found {
    /// The log, with what the searches put.
    pub log: Log,
    /// As many searches as the settings allow workers. They rest beside the log.
    pub searches: Vec<KeptSearch>,
    pub outcome: Outcome,
    /// The place of a search; of a model, that of the search which found it.
    pub by: usize,
}

/// Want of memory.
#[derive(Drop)]
pub struct Lost {
    /// The log, with what the searches put before.
    pub log: Log,
    /// The searches that still rest beside the log.
    pub searches: Vec<KeptSearch>,
}
