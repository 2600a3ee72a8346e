//! The interpretation that the values of a search's bits are, where no function and no array is reached.
//!
//! [`word_model`] gives each declared Bool and word whose leaf stands at one of a check's positions the value that its bits have.
//! Then every term that the check reaches has the value of its bits. No term is walked over: the work goes by the positions.
//! [`has_other_leaf`] tells whether one of these leaves is no such constant, so that there is no model by bits alone. The
//! crate stands on `opening_positions` and `reached_steps`, which say which positions a check holds, on `cube_search`, whose values
//! it reads, and on the interpretations of `smt_values`.
#![tactic(auto)]

mod model;
mod reaching;
mod values;

pub use model::word_model;
pub use reaching::has_other_leaf;
