//! What is searched, and how.

ghost use Rattle.std.specs.Prelude.{◌≡◌, ◌^◌, min, length};

use cnf_base::{Lit, Pos};
use cube_tree::Tree;

/// How a check is searched.
#[derive(Clone, Copy, Debug, PartialEq, Eq)]
pub struct Settings {
    /// How many workers search its cubes, from 1 to 64.
    pub workers: u32,
    /// How many clauses the search of a cube may learn.
    pub budget: u64,
}

/// The clauses of the positions, under the literals of each cube of the tree and those that are assumed.
#[derive(Clone, Copy)]
pub struct Check<'t> {
    pub positions: &'t [Pos],
    pub tree: &'t Tree,
    pub assumed: &'t [Lit],
    pub settings: Settings,
}

impl Check<'_> {
    /// How many workers search it: as many as its settings allow, but no more than it has cubes.
    pub fn workers(&self) -> u32
        ensures { result ≡ min self.now.settings.workers (2 ^ length self.now.tree.now) }
    {
        self.settings.workers.min(self.tree.leaves())
    }
}
