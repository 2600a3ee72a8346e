//! A small law, and passes that work on its history in threads: a proved caller of `shared_history`.
//!
//! A pool has topics and jobs. A call notes a topic, claims the next job, or finishes a job that the pass claimed.
//! `run` gives each task a pass of its own and a thread, merges the passes after the threads ended, and closes the
//! history. Its contract says what the events of each pass are in the whole history, whatever the order of turns was.
#![tactic(auto)]

mod law;
#[cfg(test)]
mod tests;
mod threads;
mod worker;

pub use law::{Call, Event, Pool, Reply, Tally};
pub use threads::run;
pub use worker::{Task, Worker};
