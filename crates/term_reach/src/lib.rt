//! Which terms some terms reach, for every room that asks it.
//!
//! A [`Next`] tells the terms to which a term leads: its [`Arguments`], or whatever stands for it. [`reach`] walks from some
//! terms, with a stack of its own, and its contract says that it gives exactly the terms that are reached, each once, behind
//! all to which it leads. It puts them into a [`Reached`], which also tells the place of each of them, and which its owner
//! keeps from walk to walk: so a walk costs what it reaches, however many terms were ever made. The crate stands on the terms
//! of `smt_terms`.
#![tactic(auto)]

pub mod next;
pub mod reached;
pub mod walk;

pub use next::{Arguments, Next};
pub use reached::Reached;
pub use walk::{reach, reach_by_arguments};
