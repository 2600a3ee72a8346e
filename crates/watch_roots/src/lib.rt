//! The terms that a check over arrays gives bits beside those that it is about.
//!
//! An equality of arrays is false only where the selects of its sides at their witness differ, and a constant array is read at an
//! index that no other term names: so a search needs bits of these selects, and of the words among which such an index is found.
//! Nothing that is asserted reaches them through arguments. [`live_terms`] puts them before the terms of a check, those of the
//! lowest equality first; where no array is reached it gives the terms of the check alone. The crate stands on `array_watches`,
//! which makes these terms, on `theory_lemmas` and on the walk of `term_reach`.
#![tactic(auto)]

mod finding;
pub mod live;
#[cfg(test)]
mod tests;

pub use live::live_terms;
