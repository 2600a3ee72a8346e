//! How a search with lemmas ends.

use cnf_base::Pos;
use proof_log::diary::Diary;
use smt_values::interp::Interp;

/// How a search with lemmas ends.
#[derive(Debug, Drop)]
pub enum End {
    /// Clause 0 of this position has only opposites of given literals.
    Closed(Pos),
    /// In this interpretation the live terms have the values of their bits, under an assignment that makes true the clauses of the
    /// opening positions and the given literals.
    Model(Interp),
    /// One more clause was put than the budget allows.
    Spent(Diary),
    /// Another search has found a model.
    Stopped,
}
