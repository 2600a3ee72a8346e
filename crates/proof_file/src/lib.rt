//! Proof files that have what their records need.
#![tactic(auto)]

mod file;
mod laws;
mod needed;
mod noting;
mod places;
mod shown;
mod stale;
#[cfg(test)]
mod tests;
mod writing;

pub use file::ProofFile;
pub use laws::more_terms_keep_files;
