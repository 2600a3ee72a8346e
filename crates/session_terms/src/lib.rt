//! What the terms of a session have for walks over functions and arrays.
//!
//! Terms that got bits by plans stand in an order, each behind all on which its bits stand, arrays
//! among them. So Bools and words that terms with bits reach have bits, and no way leads back,
//! through the selects of equalities at their witness neither. Where a check made its watches and
//! gave bits to what is live, all that its roots reach with these has bits. The crate stands on the
//! plans of `reached_images`, the steps of `proof_log` and what `array_images` says of rewriting.
#![tactic(auto)]

pub mod laws;
