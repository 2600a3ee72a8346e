//! The clauses that an engine learns, takes and drops.

ghost use Rattle.std.specs.Prelude.{◌≡◌, ◌<◌, List, Some, None, true, Contains, filter, nat_le, IfOk, OnOk, MatchBool};
ghost use Rattle.cnf_base.specs.Literals.{Literal};
ghost use Rattle.hint_chain.specs.Chains.{IsChain};
ghost use Rattle.cdcl_core.specs.Levels.{RestsBy, IsAdded};
ghost use Rattle.cdcl_core.specs.Search.{literals_of, level_of, clause_of, held_of, IsConflict};
ghost use Rattle.cdcl_learn.specs.Puts.{IsClash, AreGiven, IsAgainst, IsGoodPut, IsUnitAfter, StandsIn};
ghost use Rattle.cdcl_loop.specs.Engines.{IsEngine, IsOnCourse, IsSameTask, IsSameBut, IsIdle};
ghost use Rattle.cdcl_loop.specs.Counts.{with_conflict};
ghost use Rattle.cdcl_loop.specs.Efforts.{effort_of};

use crate::engine::Engine;
use cdcl_learn::{Clash, final_clause, learn};
use cnf_base::{Clause, ClauseId, Pos};
use std::alloc::AllocError;

impl Engine {
    /// A clause with its hints that has only opposites of given literals, where no other literal was decided.
    pub fn final_clause(&self, clash: Clash) -> Result<(Clause, Vec<ClauseId>), AllocError>
        requires engine { IsEngine self.now }
        requires clash { IsClash self.now.watches self.now.trail clash }
        ensures chain { IfOk result (λ r. IsChain (clause_of self.now.watches) r.0 r.1.items) }
        ensures against { IfOk result (λ r. (given : List Literal)
            → AreGiven given (literals_of self.now.trail) clash → IsAgainst given r.0) }
    {
        final_clause(self.alloc, &self.watches, &self.trail, clash)
    }

    /// From a conflict above level 0, a clause with its hints, and the level to which the engine may go back so that the clause is unit
    /// there. The clause is weighed, and the next call is to be `keep` where the search goes on.
    pub fn learn(&mut self, conflict: ClauseId) -> Result<(Clause, Vec<ClauseId>, u64), AllocError>
        requires engine { IsEngine self.old }
        requires conflict { IsConflict self.old.watches self.old.trail conflict }
        requires above { 0 < level_of self.old.trail }
        ensures same { self.new ≡ record self.old { choices = self.new.choices } }
        ensures effort { OnOk result (effort_of self.new ≡ with_conflict (effort_of self.old)) }
        ensures chain { IfOk result (λ r. IsChain (clause_of self.old.watches) r.0 r.1.items) }
        ensures good { IfOk result
            (λ r. IsGoodPut (clause_of self.old.watches) (held_of self.old.watches)
            (literals_of self.old.trail) (level_of self.old.trail) r.0 r.1.items) }
        ensures among { IfOk result (λ r. (l : Literal) → Contains r.0 l
            → StandsIn (held_of self.old.watches) r.1.items l) }
        ensures lower { IfOk result (λ r. r.2 < level_of self.old.trail) }
        ensures unit { IfOk result (λ r. IsUnitAfter (literals_of self.old.trail) r.2 r.0) }
    {
        let (clause, hints, level) = learn(self.alloc, &self.watches, &self.trail, conflict)?;
        self.choices.weigh(
            &self.watches,
            &self.trail,
            clause.literals(),
            hints.as_slice(),
            self.trail.level(),
            self.base,
        )?;
        Ok((clause, hints, level))
    }

    /// Holds a learnt clause as part 0 of this position, at the level where it is unit: its last open literal is forced.
    pub fn keep(&mut self, clause: Clause, level: u64, at: Pos) -> Result<(), AllocError>
        requires engine { IsEngine self.old }
        requires lower { level < level_of self.old.trail }
        requires unit { IsUnitAfter (literals_of self.old.trail) level clause }
        requires fresh { clause_of self.old.watches (record { pos = at; part = 0 }) ≡ None }
        ensures task { IsSameTask self.old self.new }
        ensures effort { effort_of self.new ≡ effort_of self.old }
        ensures engine { OnOk result (IsEngine self.new) }
        ensures course { OnOk result (IsOnCourse self.old → IsOnCourse self.new) }
        ensures level { OnOk result (level_of self.new.trail ≡ level) }
        ensures literals { OnOk result
            (IsAdded (filter (λ r. nat_le r.1 level) (literals_of self.old.trail)) level
            (record { pos = at; part = 0 }) clause (literals_of self.new.trail)) }
        ensures kept { OnOk result (clause_of self.new.watches (record { pos = at; part = 0 })
            ≡ Some clause) }
        ensures held { OnOk result (held_of self.new.watches (record { pos = at; part = 0 })
            ≡ Some clause) }
        ensures others { IsSameBut (record { pos = at; part = 0 }) self.old.watches
            self.new.watches }
    {
        self.choices.name(at)?;
        self.go_back(level);
        self.watches
            .add(&mut self.trail, ClauseId { pos: at, part: 0 }, clause)?;
        Ok(())
    }

    /// Holds a clause that comes from elsewhere as part 0 of this position. It goes back only where the clause asks for it; where
    /// the clause is unit then, its last open literal is forced.
    pub fn admit(&mut self, clause: Clause, at: Pos) -> Result<(), AllocError>
        requires engine { IsEngine self.old }
        requires fresh { clause_of self.old.watches (record { pos = at; part = 0 }) ≡ None }
        ensures task { IsSameTask self.old self.new }
        ensures effort { effort_of self.new ≡ effort_of self.old }
        ensures engine { OnOk result (IsEngine self.new) }
        ensures course { OnOk result (IsOnCourse self.old → IsOnCourse self.new) }
        ensures literals { OnOk result
            (IsAdded (filter (λ r. nat_le r.1 (level_of self.new.trail))
            (literals_of self.old.trail)) (level_of self.new.trail) (record { pos = at; part = 0 })
            clause (literals_of self.new.trail)) }
        ensures level { OnOk result (level_of self.new.trail < level_of self.old.trail
            → RestsBy (literals_of self.old.trail) (level_of self.new.trail) clause → ⊥) }
        ensures kept { OnOk result (clause_of self.new.watches (record { pos = at; part = 0 })
            ≡ Some clause) }
        ensures held { OnOk result (held_of self.new.watches (record { pos = at; part = 0 })
            ≡ Some clause) }
        ensures others { IsSameBut (record { pos = at; part = 0 }) self.old.watches
            self.new.watches }
    {
        let level = self.watches.level_for(&self.trail, &clause);
        self.choices.take(at, clause.literals().len())?;
        self.go_back(level);
        self.watches
            .add(&mut self.trail, ClauseId { pos: at, part: 0 }, clause)?;
        Ok(())
    }

    /// Drops the clause of this name where it is kept and forced no literal of the trail, and tells whether it did.
    pub fn drop_idle(&mut self, id: ClauseId) -> bool
        requires engine { IsEngine self.old }
        ensures same { self.new ≡ record self.old { watches = self.new.watches } }
        ensures engine { IsEngine self.new }
        ensures dropped { MatchBool result (IsIdle self.old id
            × (clause_of self.new.watches id ≡ None)) ((IsIdle self.old id → ⊥)
            × (self.new ≡ self.old)) }
        ensures others { IsSameBut id self.old.watches self.new.watches }
    {
        let Some(_) = self.watches.clause(id) else {
            return false;
        };
        if self.watches.is_reason(&self.trail, id) {
            return false;
        }
        self.watches.drop_clause(&self.trail, id);
        true
    }

    /// Whether so many learnt clauses are held that some are to be dropped.
    pub fn drops_now(&self) -> bool {
        self.choices.drops_now()
    }

    /// The positions of the learnt clauses that are to be dropped; they are weighed no longer. It goes back to level 0 first, so that few
    /// of them force a literal.
    pub fn worst(&mut self) -> Result<Vec<Pos>, AllocError>
        requires engine { IsEngine self.old }
        ensures watches { self.new.watches ≡ self.old.watches }
        ensures task { IsSameTask self.old self.new }
        ensures effort { effort_of self.new ≡ effort_of self.old }
        ensures engine { IsEngine self.new }
        ensures level { level_of self.new.trail ≡ 0 }
        ensures course { IsOnCourse self.old → IsOnCourse self.new }
    {
        self.go_back(0);
        self.choices.worst()
    }
}
