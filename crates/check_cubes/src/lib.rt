//! Cubes of a check as its script and its log have them: what a solver searches and a checker looks up.
//!
//! A check is about the terms that its live assertions and its assumptions reach. The bits of the declared names among these
//! split it into cubes, as `accepted_proof` defines it: [`cube_variables`] has their variables, as many as the [`Limits`] of
//! the proof's header allow, and [`cube_literals`] the literals of a cube over them. [`search`] tells whether the search of a
//! cube may start at a position of the log, and what it takes as true then: the literals of the cube, the selectors of the live
//! assertions and the bits of the assumptions. The contracts say that these are exactly the definitions of
//! `accepted_proof`, so that a solver and a checker that stand on this crate mean the same cubes. It stands on `accepted_proof`,
//! `script_state`, `cube_tree`, `term_reach` and `proof_log`, and on the crates that these stand on.
#![tactic(auto)]

mod cubes;
mod leaves;
mod limits;
mod searches;

pub use cubes::{cube_literals, cube_variables};
pub use limits::Limits;
pub use searches::{bit_of, search};

#[cfg(test)]
mod tests;
