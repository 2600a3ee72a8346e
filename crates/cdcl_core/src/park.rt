//! Clauses that are kept and not held: a search holds them again when it needs them.

ghost use Rattle.std.specs.Prelude.{ℕ, ◌≡◌, ◌≢◌, ◌+◌, ◌<◌, ◌≤◌, length, slice_set, Some, None, IsSome, OnOk, OnErr, MatchBool, Contains};
ghost use Rattle.cnf_base.specs.Literals.{Literal};
ghost use Rattle.cnf_base.specs.declared.clause.ClauseId.{ClauseId};
ghost use Rattle.cdcl_core.specs.Levels.{IsExtended};
ghost use Rattle.cdcl_core.specs.Search.{literals_of, level_of, rows_of, clause_of, held_of, IsKnown};
ghost use Rattle.cdcl_core.specs.Watched.{kind_at, is_held};
ghost use Rattle.cdcl_core.specs.State.{IsSettled, IsPropagated, IsEmptied, IsParkedFrom};

use crate::add::{bound_of, hold, name_slot, seat};
use crate::drop::{clear, give_up};
use crate::grow::free_slot;
use crate::lists::WatchLists;
use crate::propagate::is_satisfied;
use crate::trail::Trail;
use crate::watches::{Kind, Watches};
use cnf_base::{Clause, ClauseId};
use std::alloc::AllocError;

impl Watches {
    /// Whether a clause of this name is held.
    pub fn holds(&self, id: ClauseId) -> bool
        ensures { MatchBool result (IsSome (held_of self.now id)) (held_of self.now id ≡ None) }
    {
        let Some(slot) = self.slot(id) else {
            return false;
        };
        if slot >= self.kinds.len() {
            return false;
        }
        if slot >= self.clauses.len() {
            return false;
        }
        has_held(self.kinds[slot])
    }

    /// Keeps a clause, which is not held before it is woken.
    pub fn store(
        &mut self,
        trail: &mut Trail,
        id: ClauseId,
        clause: Clause,
    ) -> Result<(), AllocError>
        requires settled { IsSettled self.old trail.old }
        requires fresh { clause_of self.old id ≡ None }
        ensures settled { IsSettled self.new trail.new }
        ensures kept { OnOk result (clause_of self.new id ≡ Some clause) }
        ensures parked { OnOk result (held_of self.new id ≡ None) }
        ensures others { (q : ClauseId) → q ≢ id → clause_of self.new q ≡ clause_of self.old q }
        ensures others_held { (q : ClauseId) → q ≢ id → held_of self.new q ≡ held_of self.old q }
        ensures not_kept { OnErr result (clause_of self.new id ≡ None) }
        ensures literals { literals_of trail.new ≡ literals_of trail.old }
        ensures level { level_of trail.new ≡ level_of trail.old }
        ensures known { OnOk result ((l : Literal) → Contains clause l → IsKnown trail.new l) }
        ensures rows { rows_of trail.old ≤ rows_of trail.new }
        ensures propagated { IsPropagated self.old trail.old → IsPropagated self.new trail.new }
    {
        let bound = bound_of(clause.literals());
        self.reserve(trail, bound)?;
        let slot = free_slot(self, trail)?;
        name_slot(self, trail, slot, id)?;
        seat(self, slot, clause, Kind::Parked);
        Ok(())
    }

    /// Holds the clause that is kept under this name, where there is one, at level 0. Its last open literal is forced where it
    /// is unit. It takes no memory.
    pub fn wake(&mut self, trail: &mut Trail, id: ClauseId)
        requires settled { IsSettled self.old trail.old }
        requires level { level_of trail.old ≡ 0 }
        ensures settled { IsSettled self.new trail.new }
        ensures held { held_of self.new id ≡ clause_of self.old id }
        ensures kept { (q : ClauseId) → clause_of self.new q ≡ clause_of self.old q }
        ensures others { (q : ClauseId) → q ≢ id → held_of self.new q ≡ held_of self.old q }
        ensures literals { IsExtended (literals_of trail.old) 0 (literals_of trail.new) }
        ensures level { level_of trail.new ≡ 0 }
        ensures rows { rows_of trail.new ≡ rows_of trail.old }
    {
        let Some(slot) = self.slot(id) else {
            return;
        };
        let Kind::Parked = self.kinds[slot] else {
            return;
        };
        if is_satisfied(self.clauses[slot].literals(), trail.stamps.as_slice()) {
            set_kind(self, slot, Kind::Fixed);
            return;
        }
        let name = self.ids[slot];
        let clause = give_up(self, slot);
        hold(self, trail, slot, clause, name);
    }

    /// Holds the clause of this name no longer, and keeps it, at level 0. It takes no memory.
    pub fn park(&mut self, trail: &Trail, id: ClauseId)
        requires settled { IsSettled self.old trail.now }
        requires level { level_of trail.now ≡ 0 }
        ensures settled { IsSettled self.new trail.now }
        ensures parked { held_of self.new id ≡ None }
        ensures kept { (q : ClauseId) → clause_of self.new q ≡ clause_of self.old q }
        ensures others { (q : ClauseId) → q ≢ id → held_of self.new q ≡ held_of self.old q }
        ensures propagated { IsPropagated self.old trail.now → IsPropagated self.new trail.now }
    {
        let Some(slot) = self.slot(id) else {
            return;
        };
        clear(self, trail, slot);
        set_kind(self, slot, Kind::Parked);
    }

    /// Holds no clause any more, and keeps all, at level 0. It takes no memory.
    pub fn park_all(&mut self, trail: &Trail)
        requires settled { IsSettled self.old trail.now }
        requires level { level_of trail.now ≡ 0 }
        ensures settled { IsSettled self.new trail.now }
        ensures parked { (q : ClauseId) → held_of self.new q ≡ None }
        ensures kept { (q : ClauseId) → clause_of self.new q ≡ clause_of self.old q }
        ensures propagated { IsPropagated self.old trail.now → IsPropagated self.new trail.now }
    {
        empty_lists(&mut self.lists, trail.stamps.len());
        park_kinds(&mut self.kinds);
    }
}

// Gives a slot another kind.
fn set_kind(w: &mut Watches, slot: usize, kind: Kind)
    requires { slot < length w.old.kinds.items }
    ensures same { w.new ≡ record w.old { kinds = w.new.kinds } }
    ensures kinds { w.new.kinds.items ≡ slice_set w.old.kinds.items slot kind }
{
    w.kinds[slot] = kind;
}

// Empties the lists of the literals below this code.
fn empty_lists(lists: &mut WatchLists, count: usize)
    requires { count + 2 ≤ length lists.old.lists }
    ensures { IsEmptied lists.old lists.new count }
{
    for code in 2..count {
        lists.empty(code + 1);
    }
}

// Whether a slot of this kind has a clause that is held.
fn has_held(kind: Kind) -> bool
    ensures { result ≡ is_held kind }
{
    match kind {
        Kind::Fixed | Kind::Watched => true,
        Kind::Free | Kind::Parked => false,
    }
}

// The kind of a slot once nothing is held.
fn parked(kind: Kind) -> Kind
    ensures { IsParkedFrom kind result }
{
    match kind {
        Kind::Free => Kind::Free,
        _ => Kind::Parked,
    }
}

// Parks the clause of each slot.
fn park_kinds(kinds: &mut Vec<Kind>)
    ensures size { length kinds.new.items ≡ length kinds.old.items }
    ensures parked { (q : ℕ)
        → IsParkedFrom (kind_at kinds.old.items q) (kind_at kinds.new.items q) }
{
    for slot in 0..kinds.len() {
        kinds[slot] = parked(kinds[slot]);
    }
}
