//! A session that made its watches before it rewrote may be walked over.
//!
//! A walk asks for the bits of what it reaches, for the watches of equalities of arrays, and for
//! index words where a constant array is reached, one more than there are indexes of the width after
//! those that images make one. The law says that a session has all of it: the watches and the words
//! that it made before it rewrote last, since images bring no array, and each index that is reached
//! then is what one that was counted becomes. The crate stands on the laws of `array_images`, the
//! walk of `access_walk` and the logs of `proof_log`.
#![tactic(auto)]

pub mod laws;
