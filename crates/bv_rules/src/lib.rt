//! The forty rules of rewriting: by which rule one term becomes another of the same value.
//!
//! `matches` tells exactly whether a rule takes one held term to another; the table of rules in `specs/Rules.antt` says
//! which. The law `rules_keep_evaluations` promises that both terms then have one value in every evaluation, also where
//! witnesses are any words, and `rules_keep_sorts` that they have one sort.
//! The crate stands on the terms of `smt_terms`.
#![tactic(auto)]

pub mod folding;
pub mod images;
pub mod laws;
pub mod matching;
pub mod others;
#[cfg(test)]
mod part_tests;
pub mod reading;
pub mod rule;
#[cfg(test)]
mod tests;
pub mod words;
