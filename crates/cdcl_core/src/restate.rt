//! Reasons that are changed for clauses of one literal.

ghost use Rattle.std.specs.Prelude.{◌≡◌, ◌<◌, [], ◌∷◌, Some, length, slice_set, slice_index_or};
ghost use Rattle.cdcl_core.specs.Search.{literals_of, level_of, rows_of, clause_of};
ghost use Rattle.cdcl_core.specs.State.{IsSettled, IsPropagated, no_row};

use crate::trail::{Trail, restate};
use crate::watches::Watches;
use cnf_base::ClauseId;

impl Watches {
    /// From now on the clause of this name, which has that literal alone, is said to have forced the literal at a place, one of
    /// level 0.
    pub fn restate(&self, trail: &mut Trail, place: usize, id: ClauseId)
        requires settled { IsSettled self.now trail.old }
        requires within { place < length (literals_of trail.old) }
        requires level { (slice_index_or (literals_of trail.old) place no_row).1 ≡ 0 }
        requires clause { clause_of self.now id
            ≡ Some ((slice_index_or (literals_of trail.old) place no_row).0 ∷ []) }
        ensures settled { IsSettled self.now trail.new }
        ensures literals { literals_of trail.new
            ≡ slice_set (literals_of trail.old) place
            (record {
              0 = (slice_index_or (literals_of trail.old) place no_row).0;
              1 = 0;
              2 = Some id;
            }) }
        ensures level { level_of trail.new ≡ level_of trail.old }
        ensures rows { rows_of trail.new ≡ rows_of trail.old }
        ensures propagated { IsPropagated self.now trail.old → IsPropagated self.now trail.new }
    {
        let Some(slot) = self.slot(id) else {
            return;
        };
        restate(trail, place, slot, self.ids[slot]);
    }
}
