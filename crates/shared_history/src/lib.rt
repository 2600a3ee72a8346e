//! One history of events that several threads add to, under a ticket lock.
//!
//! A law says which calls there are, and the event, the reply and the state that a history makes of each. A history is
//! added to through passes, each with a number of its own and used by one thread at a time. The contracts hold for every
//! law. They say that there is one history, which only grows: what a pass has seen is a beginning of it, so an event
//! stays at its position, and the events of a pass's number are those of its own calls, each once, in order, in the
//! whole history too. They do not say who comes first, or that a turn ever comes.
//!
//! It stands on `atomic_table`: one word is the turn, one the next ticket, and one slot has the state and the entries.
//! The lock is the ticket lock of Mellor-Crummey and Scott, "Algorithms for Scalable Synchronization on Shared-Memory
//! Multiprocessors", 1991.
#![tactic(auto)]

mod entries;
mod hist;
mod law;
mod moves;
mod pass;
mod pieces;
mod turn;
mod view;

pub use hist::Hist;
pub use law::{Back, Law, NoMemory};
pub use pass::Pass;
pub use pieces::Pieces;
