//! What the terms that a check reaches become, and in which order they get bits.
//!
//! A `Plan` is a list of steps, one for each term that is to get bits: those of its own operator,
//! or those of the term to which a rule of rewriting leads from it. Each stands behind the terms
//! whose bits it needs, so a log takes the steps in their order. `plan_terms` simplifies all that
//! some terms reach and that has no bits, arguments first, over the images that are known by then
//! (`Known`), and its contract says that what it gives is such a plan. Terms that have bits stay
//! what they are and are not looked into; any other Bool or word keeps its operator only where no
//! rule takes it further, or where there is no room or no place for what it becomes. `plan_each`
//! does the same for terms in an order that is given. `needed_terms` gives those steps of a plan
//! that some terms need, and no others: what nothing needs, as the other part of a choice that is
//! decided, gets no bits. The crate stands on the rules of `bv_rewrite` and on the walk of
//! `term_reach`.
#![tactic(auto)]

pub mod known;
pub mod needed;
pub mod plan;
pub mod planning;
#[cfg(test)]
mod tests;

pub use known::Known;
pub use needed::{Needed, needed_terms};
pub use plan::{Plan, Planned};
pub use planning::{plan_each, plan_terms};
