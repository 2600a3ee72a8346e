//! A check of a script and its proof, both read in pieces.
//!
//! [`checking::check`] reads each of the two texts no further than `proof_checker` needs it, and tells on a sink the verdict of
//! each record as soon as it is accepted, and at the end what is judged. Its contract says that at the end the report is that of
//! both texts, whatever their pieces, and the status `Done` exactly where the proof is accepted; that what is told before a stop
//! are verdicts of records that are accepted, or a front of the report, and that the report of the whole texts begins so; how much
//! of each input is read; and that a fault is told only where a count rose. A [`status::Status`] is how a run ends, and
//! [`reading::read_piece`] reads one input within its limit: both are those of the whole program. The crate stands on
//! `proof_checker`, `accepted_proof` and `smt_desk`.
#![tactic(auto)]

pub mod checking;
pub mod reading;
pub mod status;
