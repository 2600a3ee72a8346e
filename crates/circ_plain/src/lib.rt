//! Circuits of signs, orders and shifts over rows of bits.
//!
//! A row of bits is a slice of literals, the lowest bit first. Each call adds the gates of one
//! operator of SMT-LIB's FixedSizeBitVectors to a circuit. Its contract says which gates these are,
//! as a function of the next variable, which bits are the result, and that in every assignment of
//! the circuit's clauses in which variable 1 is true they are the operator's number. Where memory is
//! wanting the circuit is as it was. The crate stands on the gates and adders of `cnf_base` and on the
//! number functions of `smt_words`.
#![tactic(auto)]

mod laws;
mod moves;
mod orders;
mod rows;
mod shifts;
mod signs;
#[cfg(test)]
mod tests;

pub use laws::{orders_are_ordered, shifts_are_ordered, signs_are_ordered};
pub use orders::{sle, slt, ule, ult};
pub use rows::sign;
pub use shifts::{ashr, lshr, shl};
pub use signs::{abs, neg, signed};
