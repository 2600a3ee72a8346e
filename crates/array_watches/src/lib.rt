//! The terms that a check over arrays makes before all else.
//!
//! Arrays that are not equal differ at some index. A check names it: for each equality of arrays that its assertions reach it
//! makes the witness of the two sides, and the select of each side there (the extensionality axiom of ArraysEx, with a term in
//! place of "some index"). Where a constant array is reached, it makes words of its index width, so many that in each
//! interpretation one of them differs from every index, or that all words of the width are there. [`make_watches`] makes these
//! terms, in an order that follows from the terms and from what is asserted alone, or tells the limit and makes none;
//! [`count_watches`] tells how many they are. The law `watches_are_made` says what a check can rely on then, and
//! `words_need_no_watches` that nothing is made where no array is reached. The crate stands on the terms of `smt_terms`, the
//! shapes of `theory_terms` and the walk of `term_reach`.
#![tactic(auto)]

mod found;
mod indexes;
pub mod laws;
mod making;
pub mod watches;

pub use watches::{count_watches, make_watches};

#[cfg(test)]
mod tests;
