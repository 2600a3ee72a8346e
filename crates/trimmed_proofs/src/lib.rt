//! What becomes of accepted turns whose proof file is trimmed.
//!
//! The parts that a trimmed file of the second format has for turns that may follow one after the other may follow too, and their
//! commands, verdicts and answers are those of the turns. Each place of the file that is not deleted stands for one position of
//! the log, with the same clauses; what makes terms, bits and variables stands in both in the same order, so these are the same
//! of both. The crate stands on `proof_file` and `accepted_proof`.
#![tactic(auto)]

mod laws;

pub use laws::trimmed_proofs_are_accepted;
