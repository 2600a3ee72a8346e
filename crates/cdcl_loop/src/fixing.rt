//! Clauses of one literal for what was forced at level 0.

ghost use Rattle.std.specs.Prelude.{◌≡◌, ◌<◌, [], ◌∷◌, Some, None, length, slice_set, IfSome, IfOk, OnOk};
ghost use Rattle.cdcl_core.specs.Search.{literals_of, level_of, clause_of, held_of};
ghost use Rattle.cdcl_core.specs.State.{IsSettled};
ghost use Rattle.cdcl_learn.specs.Rows.{literal_at};
ghost use Rattle.cdcl_learn.specs.Units.{IsUnitAt};
ghost use Rattle.cdcl_loop.specs.Engines.{IsEngine, IsOnCourse, IsSameBut};

use crate::engine::Engine;
use cdcl_core::{Trail, Watches};
use cdcl_learn::unit_clause;
use cnf_base::{Clause, ClauseId, Pos};
use std::alloc::{AllocError, Global};

// The first place from the start on of which there is a clause of its literal alone that follows, with that clause and its hints.
fn find_unit(
    alloc: Global,
    watches: &Watches,
    trail: &Trail,
    start: usize,
) -> Result<Option<(usize, Clause, Vec<ClauseId>)>, AllocError>
    requires { IsSettled watches.now trail.now }
    ensures { IfOk result (λ o. IfSome o
        (λ r. IsUnitAt (clause_of watches.now) (literals_of trail.now) r.0 r.1 r.2.items)) }
{
    'places: for place in start..trail.literals().len() {
        if let Some((clause, hints)) = unit_clause(alloc, watches, trail, place)? {
            return Ok(Some((place, clause, hints)));
        }
    }
    Ok(None)
}

impl Engine {
    /// At level 0, the next place of which a longer clause forced the literal, and a clause of that alone with its hints.
    pub fn next_unit(&mut self) -> Result<Option<(usize, Clause, Vec<ClauseId>)>, AllocError>
        requires { IsEngine self.old }
        ensures same { self.new ≡ record self.old { choices = self.new.choices } }
        ensures unit { IfOk result (λ o. IfSome o (λ r. (level_of self.old.trail ≡ 0)
            × IsUnitAt (clause_of self.old.watches) (literals_of self.old.trail) r.0 r.1
            r.2.items)) }
    {
        if self.trail.level() != 0 {
            return Ok(None);
        }
        let start = self.choices.fixed();
        let found = find_unit(self.alloc, &self.watches, &self.trail, start)?;
        let end = match &found {
            Some(unit) => unit.0,
            None => self.trail.literals().len(),
        };
        self.choices.fix(end);
        Ok(found)
    }

    /// Holds the clause of the literal at a place alone as part 0 of this position, at level 0, and has it for the clause that
    /// forced the literal from now on.
    pub fn keep_unit(&mut self, clause: Clause, place: usize, at: Pos) -> Result<(), AllocError>
        requires engine { IsEngine self.old }
        requires level { level_of self.old.trail ≡ 0 }
        requires within { place < length (literals_of self.old.trail) }
        requires one { clause ≡ literal_at (literals_of self.old.trail) place ∷ [] }
        requires fresh { clause_of self.old.watches (record { pos = at; part = 0 }) ≡ None }
        ensures same { self.new
            ≡ record self.old { watches = self.new.watches; trail = self.new.trail } }
        ensures engine { OnOk result (IsEngine self.new) }
        ensures course { OnOk result (IsOnCourse self.old → IsOnCourse self.new) }
        ensures literals { OnOk result (literals_of self.new.trail
            ≡ slice_set (literals_of self.old.trail) place
            (record {
              0 = literal_at (literals_of self.old.trail) place;
              1 = 0;
              2 = Some (record { pos = at; part = 0 });
            })) }
        ensures level { OnOk result (level_of self.new.trail ≡ 0) }
        ensures kept { OnOk result (clause_of self.new.watches (record { pos = at; part = 0 })
            ≡ Some clause) }
        ensures held { OnOk result (held_of self.new.watches (record { pos = at; part = 0 })
            ≡ Some clause) }
        ensures others { IsSameBut (record { pos = at; part = 0 }) self.old.watches
            self.new.watches }
    {
        let id = ClauseId { pos: at, part: 0 };
        self.watches.add(&mut self.trail, id, clause)?;
        self.watches.restate(&mut self.trail, place, id);
        Ok(())
    }
}
