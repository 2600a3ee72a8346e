//! What a search by conflict-driven clause learning chooses: the next variable and its sign, when it restarts, and which
//! learnt clauses it drops.
//!
//! The answers of a search are right whatever is chosen, so the calls have no clauses: they are safe, and they end. They
//! stand on `std` alone, and name a variable by its number, and a learnt clause by its place in a row.
#![tactic(auto)]

mod drops;
mod glue;
mod order;
mod phases;
mod restarts;
mod table;

pub use drops::{Learnt, drops_are_due, worse_half};
pub use glue::GlueCounter;
pub use order::VariableOrder;
pub use phases::Phases;
pub use restarts::Restarts;

#[cfg(test)]
mod tests;
