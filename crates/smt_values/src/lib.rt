//! Values of terms as code holds them, and interpretations of declarations.
//!
//! A `Value` is a truth value, a word, an array or a table of a function. An array value is a default and the elements of
//! the held indexes, a table a default and rows. Their contracts say which array or function of the theory each of them
//! is. `Interp` gives declarations their values; one that was not set has false or zero, and so has every element or
//! value of an array or function that was not set. The crate stands on the words of `smt_words` and on the sorts and the
//! definition of a term's value of `smt_terms`.
#![tactic(auto)]

pub mod array;
pub mod interp;
pub mod laws;
mod order;
mod scalars;
pub mod table;
#[cfg(test)]
mod tests;
pub mod value;

pub use array::ArrayValue;
pub use interp::Interp;
pub use order::compare;
pub use table::{FunTable, Row, Scalars};
pub use value::Value;
