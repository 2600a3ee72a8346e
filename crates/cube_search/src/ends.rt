//! How a search ends.

use cnf_base::Pos;
use proof_log::diary::Diary;

/// How a search ends.
#[derive(Debug, Drop)]
pub enum End {
    /// Clause 0 of this position has only opposites of given literals.
    Closed(Pos),
    /// Under the values that the search has now, the clauses of the opening positions and the given literals are true.
    Model,
    /// One more clause was put than the budget allows.
    Spent(Diary),
    /// Another search has found a model.
    Stopped,
}
