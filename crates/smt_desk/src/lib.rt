//! Where bytes come from and where they go: sources and sinks, in memory and in files, and a meter that counts bytes.
//!
//! A source or a sink counts its faults and may tell its bytes. A read or a write fails only where that count rose,
//! and what is told shows which bytes were given and taken. Those in memory tell their bytes and fail at the calls
//! that they are given; files tell nothing. A meter counts up to its limit, and tells what it held where more is asked of it. The crate
//! stands on std alone.
#![tactic(auto)]

pub mod files;
pub mod memory;
pub mod meter;
pub mod stream;
#[cfg(test)]
mod tests;
