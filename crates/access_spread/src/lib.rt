//! Accesses that spread over edges between arrays.
//!
//! A [`Graph`] has edges between arrays under numbers, each with a [`Gate`], which accesses of some
//! indexes may pass. [`spread`] takes accesses where they start, each with the numbers of its index
//! and of the value there, and takes them over all edges that they may pass: one row for each array
//! and index, without recursion and without a map. A row that would give an array and index a
//! second value is refused and told. By a [`Lane`] an edge is left out for all accesses or for
//! some. Where none is left out and no row refused, the rows are closed. [`path_of`] tells the
//! edges by which a row came. The crate stands on `std` alone.
#![tactic(auto)]

mod graph;
mod lane;
mod path;
mod spreading;

pub use graph::{Edge, Fan, Gate, Graph};
pub use lane::Lane;
pub use path::path_of;
pub use spreading::{Link, Refusal, Row, Start, State, spread};
