//! A search with lemmas on demand for functions and arrays (R. Brummayer and A. Biere, "Lemmas on demand for the extensional theory of
//! arrays", 2009).
//!
//! A [`Theory`] is made once a search: what the live terms reach, made ready for walks, and the variables on which its values stand.
//! [`Theory::run`] stands in the place of `Search::run`: where the search finds a model, it walks over the accesses of arrays and the
//! applications of functions under its assignment. From a closed table it builds an interpretation, which is the answer. Else lemmas
//! are false under the assignment: their equalities get variables, their clauses are put, the search takes both by reading them, and
//! goes on with the same diary and the same budget.
//!
//! The contract says for each end what caused it. The crate stands on `cube_search` for the search, on `access_walk` for the walk and
//! on `model_build` for the interpretation.
#![tactic(auto)]

mod assigning;
mod clauses;
mod ends;
mod listing;
mod looking;
mod putting;
mod run;
mod taking;
mod theory;

pub use ends::End;
pub use theory::Theory;
