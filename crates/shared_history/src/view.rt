//! What a pass knows, and what lies in the slot.

use crate::entries::Entries;
use crate::law::Law;
use atomic_table::Seat;
use std::collections::LinkedList;

/// Where a pass is with its turn: it has none, it has a ticket, or its turn came at this history.
pub enum Stage<E> {
    Idle,
    Waiting(u64),
    Turn(u64, LinkedList<E>),
}

/// What a pass knows. It stands in proofs alone: no value of it is made, so a number in it has no upper bound.
pub struct View<K, E> {
    /// The law of the history. A spent view has none.
    pub law: Option<K>,
    /// The pass was not merged into another.
    pub live: bool,
    pub number: u64,
    /// Of the first pass: how many were made, itself among them.
    pub made: u64,
    pub seen: LinkedList<E>,
    /// The pass's own events.
    pub mine: LinkedList<E>,
    /// The number and the events of each pass that was merged into this one, directly or not.
    pub ended: LinkedList<(u64, LinkedList<E>)>,
    /// What the pass had seen that was merged last.
    pub other: LinkedList<E>,
    pub stage: Stage<E>,
}

/// What lies in the slot.
#[derive(Drop)]
pub struct Locked<T, E> {
    pub state: T,
    pub entries: Entries<E>,
}

/// The seat of a pass in the table of its history.
pub(crate) type Place<L> = Seat<
    Option<Locked<<L as Law>::State, <L as Law>::Entry>>,
    View<L, <L as Law>::Entry>,
>;
