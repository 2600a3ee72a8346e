//! A search by conflict-driven clause learning over a board, under given literals and a budget.
//!
//! The search holds the clauses of the positions that it is told, decides the given literals first (N. Eén and N. Sörensson,
//! "Temporal induction by incremental SAT solving", 2003), puts each clause that it learns on the board, and takes the clauses that
//! others put there. It ends with a clause of opposites of given literals, with a model of the clauses that it was told and the
//! given literals, with a diary that shows that its budget is spent, or because another search has found a model.
//!
//! Where a model is found in which lemmas on functions or arrays are false, their clauses and the equalities that these name are put
//! on the board, the search takes them by reading them, in the order of their positions (`Search::take_steps`), and goes on with the same
//! diary (`Search::resume`).
//!
//! It is kept from check to check. When it goes over to other positions it keeps the clauses that it had, and holds of them what the
//! new positions have, and of what it learnt what speaks of their variables alone; so it costs what is new in a check.
//!
//! The contract says for each of these ends what caused it. Nothing is promised of the choices: which variable is decided, when the
//! search restarts, and which clauses it drops. It stands on `cdcl_loop` for the search, and on `proof_log` for boards and diaries.
#![tactic(auto)]

mod added;
mod bring;
mod ends;
mod keeper;
mod laws;
mod learning;
mod news;
mod parking;
mod retarget;
mod run;
mod search;

pub use ends::End;
pub use laws::more_steps_keep_searches;
pub use search::Search;
