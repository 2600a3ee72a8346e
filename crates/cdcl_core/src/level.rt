//! The level to which a clause that comes in mid-search sends a search back.

ghost use Rattle.std.specs.Prelude.{ℕ, ◌+◌, ◌^◌, ◌<◌, ◌≤◌, IsTrue, ◌↔◌};
ghost use Rattle.cdcl_core.specs.Levels.{RestsBy};
ghost use Rattle.cdcl_core.specs.Search.{literals_of, level_of};
ghost use Rattle.cdcl_core.specs.Stamps.{IsTrueAt};
ghost use Rattle.cdcl_core.specs.State.{IsSettled};

use crate::add::{latest, rank_of};
use crate::trail::{Trail, stamp_of};
use crate::watches::Watches;
use cnf_base::Clause;

// Whether the literal of this code is true at the end of the level.
fn is_true_by(stamps: &[u32], code: usize, level: u64) -> bool
    requires { level + 1 < 2 ^ 64 }
    ensures { IsTrue result ↔ IsTrueAt stamps.now level code }
{
    let stamp = stamp_of(stamps, code);
    0 < stamp && stamp <= level + 1
}

impl Watches {
    /// The highest level, at most the present one, at which the clause may be added: at the end of no lower one is it false, or
    /// unit with its last literal open.
    pub fn level_for(&self, trail: &Trail, clause: &Clause) -> u64
        requires { IsSettled self.now trail.now }
        ensures present { result ≤ level_of trail.now }
        ensures rests { (j : ℕ) → j < result → RestsBy (literals_of trail.now) j clause.now }
        ensures highest { result < level_of trail.now
            → RestsBy (literals_of trail.now) result clause.now → ⊥ }
    {
        let stamps = trail.stamps.as_slice();
        let last = latest(clause.literals(), stamps, 0);
        let second = latest(clause.literals(), stamps, last);
        // at the end of this level each literal but the last one is false
        let unit = if second == 0 {
            0
        } else {
            rank_of(stamps, second) - 1
        };
        if trail.level <= unit {
            return trail.level;
        }
        if is_true_by(stamps, last, unit) {
            return trail.level;
        }
        unit
    }
}
