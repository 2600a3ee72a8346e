//! Literals, clauses and circuits of gates in conjunctive normal form.
//!
//! A literal is a variable with a sign, a clause a list of literals, and a circuit a row of gates
//! whose clauses say that each gate's variable has the gate's value (G. S. Tseitin, "On the
//! complexity of derivation in propositional calculus", 1968). The contracts say which clauses and
//! which variables each call makes, and that these clauses are true exactly where every gate has its
//! meaning. The crate stands on `std` alone, and the crates above share its definitions of truth.
#![tactic(auto)]

mod adder;
mod choice;
mod circuit;
mod clause;
mod gate;
mod laws;
mod lit;

pub use circuit::Circuit;
pub use clause::{Clause, ClauseId, Pos};
pub use gate::GateKind;
pub use laws::{agreement_keeps_truth, gains_mean, gates_are_determined, gates_mean};
pub use lit::Lit;

#[cfg(test)]
mod tests;
