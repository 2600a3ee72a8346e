//! Which rule of rewriting applies to a term, and what the term becomes.
//!
//! `becomes` tells of a rule and a term exactly whether the rule applies, and the shape of what the term becomes: each term
//! of that shape and of the term's sort is what the rule makes. `find` gives the first rule that applies, by number. Neither
//! makes a term or looks at any but the term, its arguments and theirs. `make` makes the term of a shape, which has the sort
//! of what it stands for; it is refused for the limit of terms alone. `simplify` puts the last images of a term's arguments in
//! their places and follows the rules from there to a term that is kept, or to which none applies; it tells each use of a rule.
//! Which terms are kept is what the caller says; a difference is one (`stays_difference`) where a sum would lead no further.
//! The crate stands on the rules of `bv_rules` and the terms of `smt_terms`.
#![tactic(auto)]

pub mod finding;
pub mod kept;
pub mod laws;
pub mod making;
pub mod parts;
pub mod shape;
pub mod simplifying;
#[cfg(test)]
mod tests;
pub mod words;
