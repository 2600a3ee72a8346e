//! What a search has done.

ghost use Rattle.std.specs.Prelude.{◌≡◌, ◌-◌, length};
ghost use Rattle.cdcl_core.specs.Search.{literals_of};
ghost use Rattle.cdcl_loop.specs.Counts.{no_effort, with_conflict, with_decision, with_propagations};

use cdcl_core::Trail;

/// How much an engine has done. A count that has come to 2^64 - 1 stays there.
#[derive(Clone, Copy, Debug, PartialEq, Eq)]
pub struct Effort {
    /// Conflicts from which a clause was learnt.
    pub conflicts: u64,
    /// Literals that were decided, also those that are given.
    pub decisions: u64,
    /// Literals that unit propagation made true.
    pub propagations: u64,
}

impl Effort {
    /// Nothing was done.
    pub fn none() -> Effort
        ensures { result ≡ no_effort }
    {
        Effort {
            conflicts: 0,
            decisions: 0,
            propagations: 0,
        }
    }

    /// Counts a conflict.
    pub(crate) fn count_conflict(&mut self)
        ensures { self.new ≡ with_conflict self.old }
    {
        self.conflicts = self.conflicts.saturating_add(1);
    }

    /// Counts a decision.
    pub(crate) fn count_decision(&mut self)
        ensures { self.new ≡ with_decision self.old }
    {
        self.decisions = self.decisions.saturating_add(1);
    }

    /// Counts the literals of the trail behind the first `before`, which unit propagation made true.
    pub(crate) fn count_behind(&mut self, before: usize, trail: &Trail)
        ensures { self.new
            ≡ with_propagations self.old (length (literals_of trail.now) - before) }
    {
        let literals = trail.literals().len().saturating_sub(before);
        self.propagations = self.propagations.saturating_add(literals as u64);
    }
}
