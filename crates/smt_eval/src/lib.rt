//! The values of terms under an interpretation of the declarations.
//!
//! `Values::of` goes over a list of terms once, the lowest number first, and computes each term's value from those of its
//! arguments. `values_of` computes the values of some terms from those of the terms that they reach alone, and `values_with`
//! does so in a table that its caller keeps. The contracts say that each is the value that the definition of `smt_terms`
//! gives the term. The crate stands on the values and interpretations of `smt_values`, and on `term_reach`.
#![tactic(auto)]

#[cfg(test)]
mod application_tests;
mod arrays;
pub mod asked;
mod evaluate;
#[cfg(test)]
mod tests;
pub mod values;

pub use asked::{values_of, values_with};
pub use values::Values;
