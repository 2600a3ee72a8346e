//! Walks over all small terms of arrays, and what they answer.
//!
//! [`fitting`] looks at terms with bits of their own, and says where a walk may be called for;
//! [`bridge`] reaches them and builds interpretations, [`own`] holds their bits. The tests
//! enumerate terms over two arrays of index width 1 and element width 1, and all assignments of
//! their bits: where a walk answers a table, the built interpretation has the values of the bits,
//! and where it answers lemmas, they are false.
#![tactic(auto)]

pub mod bridge;
pub mod fitting;
pub mod own;
#[cfg(test)]
mod tests;
