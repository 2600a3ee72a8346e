//! A board over the hub: where several searches put the clauses that they learn, and read what the others put.
//!
//! `ChainHub` is the law of a hub to which chains alone are put, as searches do that know no equalities and no lemmas.
//! `HubBoard` is a `Board` over a pass of its history. A put is one turn of the lock, and shows no clause that others put
//! before it; `sync` is one turn too: it reads what was put since. What the board has seen is a log of valid steps, which
//! begins with the one that the hub was opened over, and what it shows at a position that it knows is what stands there.
//! The board makes the other calls of its pass too: to claim a cube, and to tell what became of it. The crate stands on
//! `hub_core`, `shared_history` and `proof_log`.
#![tactic(auto)]

mod board;
mod chain_hub;
mod cubes;
mod table;

pub use board::HubBoard;
pub use chain_hub::ChainHub;

#[cfg(test)]
mod tests;
