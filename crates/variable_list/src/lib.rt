//! A list of variables in which each stands once, in the order in which they came, so that work goes by the variables that are
//! listed and not by all that there are.
//!
//! It is a sparse set (P. Briggs and L. Torczon, "An efficient representation for sparse sets", 1993): a table by variable, whose
//! rows count only where the list leads back to them. To forget all variables does not visit the table.
//!
//! The contract of [`VariableList`] speaks of the list alone. The crate stands on `std`.
#![tactic(auto)]

mod list;
#[cfg(test)]
mod tests;

pub use list::VariableList;
