//! What becomes of an accepted proof that is converted.
//!
//! An accepted proof of the first format is never refused by `convert` of `proof_conversion`, and what it is converted to is an
//! accepted proof of the same script, with the same turns and within the same limits: so a checker tells the same verdicts of
//! both. What is deleted in front of a part are lemmas and chains that no line names from there on, and no chain cites that a
//! later diary puts; a diary that is spent is spent where less is held at its start. The crate stands on `accepted_proof` and
//! `proof_conversion`.
#![tactic(auto)]

mod laws;

pub use laws::{accepted_proofs_are_converted, converted_proofs_are_accepted};
