//! What images bring to arrays: nothing that the arguments did not reach.
//!
//! A check makes its watches and its index words before it rewrites, by what its assertions reach
//! through arguments; a search then goes by images. The laws say that this is enough: rules of
//! rewriting bring no array, no equality of arrays and no constant array, and of each select that
//! they make the index is what an index of an earlier select becomes, so that both have the same
//! bits. The crate stands on the rules of `bv_rules`, the watches of `array_watches` and the steps
//! of `access_tables`.
#![tactic(auto)]

pub mod laws;
