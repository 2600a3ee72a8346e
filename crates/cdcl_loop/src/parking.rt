//! Clauses that an engine keeps and does not hold.

ghost use Rattle.std.specs.Prelude.{ℕ, ◌≡◌, ◌≢◌, Some, None, IsSome, OnOk, OnErr, MatchBool};
ghost use Rattle.cnf_base.specs.declared.clause.ClauseId.{ClauseId};
ghost use Rattle.cdcl_core.specs.Levels.{IsExtended};
ghost use Rattle.cdcl_core.specs.Search.{literals_of, level_of, clause_of, held_of};
ghost use Rattle.cdcl_loop.specs.Engines.{IsEngine, IsOnCourse, IsSameBut};
ghost use Rattle.cdcl_loop.specs.Efforts.{effort_of};

use crate::engine::Engine;
use cnf_base::{Clause, ClauseId};
use std::alloc::AllocError;

impl Engine {
    /// Whether a clause of this name is held.
    pub fn holds(&self, id: ClauseId) -> bool
        ensures { MatchBool result (IsSome (held_of self.now.watches id))
            (held_of self.now.watches id ≡ None) }
    {
        self.watches.holds(id)
    }

    /// Keeps a clause, which is not held before it is woken.
    pub fn store(&mut self, id: ClauseId, clause: Clause) -> Result<(), AllocError>
        requires engine { IsEngine self.old }
        requires fresh { clause_of self.old.watches id ≡ None }
        ensures same { self.new
            ≡ record self.old { watches = self.new.watches; trail = self.new.trail } }
        ensures engine { IsEngine self.new }
        ensures course { IsOnCourse self.old → IsOnCourse self.new }
        ensures literals { literals_of self.new.trail ≡ literals_of self.old.trail }
        ensures level { level_of self.new.trail ≡ level_of self.old.trail }
        ensures kept { OnOk result (clause_of self.new.watches id ≡ Some clause) }
        ensures not_kept { OnErr result (clause_of self.new.watches id ≡ None) }
        ensures parked { held_of self.new.watches id ≡ None }
        ensures others { IsSameBut id self.old.watches self.new.watches }
    {
        self.watches.store(&mut self.trail, id, clause)
    }

    /// Holds the clause that is kept under this name, where there is one, at level 0. It takes no memory.
    pub fn wake(&mut self, id: ClauseId)
        requires engine { IsEngine self.old }
        requires level { level_of self.old.trail ≡ 0 }
        ensures same { self.new
            ≡ record self.old
            { watches = self.new.watches; trail = self.new.trail; choices = self.new.choices } }
        ensures effort { effort_of self.new ≡ effort_of self.old }
        ensures engine { IsEngine self.new }
        ensures course { IsOnCourse self.old → IsOnCourse self.new }
        ensures literals { IsExtended (literals_of self.old.trail) 0 (literals_of self.new.trail) }
        ensures level { level_of self.new.trail ≡ 0 }
        ensures held { held_of self.new.watches id ≡ clause_of self.old.watches id }
        ensures kept { (q : ClauseId)
            → clause_of self.new.watches q ≡ clause_of self.old.watches q }
        ensures others { (q : ClauseId) → q ≢ id
            → held_of self.new.watches q ≡ held_of self.old.watches q }
    {
        self.watches.wake(&mut self.trail, id);
    }

    /// Holds the clause of this name no longer, and keeps it, at level 0. It takes no memory.
    pub fn park(&mut self, id: ClauseId)
        requires engine { IsEngine self.old }
        requires level { level_of self.old.trail ≡ 0 }
        ensures same { self.new ≡ record self.old { watches = self.new.watches } }
        ensures engine { IsEngine self.new }
        ensures parked { held_of self.new.watches id ≡ None }
        ensures kept { (q : ClauseId)
            → clause_of self.new.watches q ≡ clause_of self.old.watches q }
        ensures others { (q : ClauseId) → q ≢ id
            → held_of self.new.watches q ≡ held_of self.old.watches q }
    {
        self.watches.park(&self.trail, id);
    }

    /// Holds no clause any more, and keeps all, at level 0. It takes no memory.
    pub fn park_all(&mut self)
        requires engine { IsEngine self.old }
        requires level { level_of self.old.trail ≡ 0 }
        ensures same { self.new ≡ record self.old { watches = self.new.watches } }
        ensures engine { IsEngine self.new }
        ensures parked { (q : ClauseId) → held_of self.new.watches q ≡ None }
        ensures kept { (q : ClauseId)
            → clause_of self.new.watches q ≡ clause_of self.old.watches q }
    {
        self.watches.park_all(&self.trail);
    }
}
