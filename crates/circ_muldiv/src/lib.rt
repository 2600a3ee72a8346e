//! Circuits of products, quotients, remainders and moduli over rows of bits.
//!
//! A row of bits is a slice of literals, the lowest bit first. Each call adds the gates of one operator
//! of SMT-LIB's FixedSizeBitVectors or of its logic QF_BV to a circuit: long multiplication, restoring
//! long division, and the signed operators by the absolute values. Its contract says which gates these
//! are, as a function of the next variable, which bits are the result, and that in every assignment of
//! the circuit's clauses in which variable 1 is true they are the operator's number, for a divisor that
//! is 0 too. Where memory is wanting the circuit is as it was. The crate stands on the gates and adders
//! of `cnf_base`, on negation and absolute value of `circ_plain` and on the number functions of
//! `smt_words`.
#![tactic(auto)]

mod laws;
mod products;
mod quotients;
mod rows;
mod signed;
#[cfg(test)]
mod tests;

pub use laws::{
    bits_are_below, circuits_are_ordered, circuits_have_their_sizes, circuits_mean_their_numbers,
    sizes_are_small,
};
pub use products::mul;
pub use quotients::divide;
pub use signed::{sdiv, smod, srem};
