//! Bit-blasting: each term of a Bool or word sort as literals, by the circuit of its operator.
//!
//! `encode` appends a term's gates to a circuit and gives the literals of its bits. The contract says which gates and
//! which literals, by one table from operator to circuit. Two laws say what they mean: in every assignment that
//! satisfies the gates the bits of a term are the value that its operator gives of its arguments' values, and an
//! assignment of the variables so far goes on over the gates in exactly one way. The crate stands on the circuits of
//! cnf_base and the terms of smt_terms.
#![tactic(auto)]

mod assignment;
mod blasting;
mod laws;
mod rows;
#[cfg(test)]
mod tests;

pub use assignment::Assignment;
pub use blasting::encode;
pub use laws::{
    blocks_are_correct, blocks_are_ordered, blocks_are_small, blocks_exist,
    blocks_extend_assignments, clauses_fix_values,
};
