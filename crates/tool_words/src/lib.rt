//! The words that the program takes.
//!
//! [`command_line::plan`] reads the words behind the program's name by `clap`: a command, the names of its files, how many workers
//! search, and within which limits. Its contract says that what is planned is what the words ask for, and that words are refused
//! exactly where `clap`'s own definition of simple commands refuses them. The crate stands on `clap`.
#![tactic(auto)]

pub mod command_line;
pub mod words;
