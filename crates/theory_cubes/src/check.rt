//! What is searched.

use cnf_base::{Lit, Pos};
use cube_tree::Tree;
use smt_terms::node::TermId;

/// The clauses of the positions, under the literals of each cube of the tree and those that are
/// assumed.
#[derive(Clone, Copy)]
pub struct TheoryCheck<'t> {
    /// The terms whose values are asked for in a model: those of the live assertions, and of the
    /// assumptions.
    pub live: &'t [TermId],
    /// The positions whose clauses are searched.
    pub positions: &'t [Pos],
    pub tree: &'t Tree,
    pub assumed: &'t [Lit],
    /// How many clauses the search of a cube may learn.
    pub budget: u64,
}
