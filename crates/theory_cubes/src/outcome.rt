//! What the search of a check's cubes comes to.

use cnf_base::Pos;
use proof_log::diary::Diary;
use smt_values::interp::Interp;

/// What the search of the cubes found.
#[derive(Debug, Drop)]
pub enum Outcome {
    /// The first clause of the position has only opposites of assumed literals.
    Unsat(Pos),
    /// In this interpretation the live terms have the values of their bits, under an assignment
    /// that makes true the clauses of the positions and the assumed literals.
    Sat(Interp),
    /// The lowest cube on which the budget was spent.
    Unknown(Diary),
}
