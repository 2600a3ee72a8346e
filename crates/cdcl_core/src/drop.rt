//! Clauses that go.

ghost use Rattle.std.specs.Prelude.{ℕ, ◌≡◌, ◌≢◌, ◌+◌, ◌*◌, ◌<◌, ◌≤◌, [], ◌∷◌, length, slice_get, slice_set, slice_index_or, sum_by, Some, None, IsSome, MatchBool};
ghost use Rattle.cnf_base.specs.Literals.{Literal};
ghost use Rattle.cnf_base.specs.declared.clause.ClauseId.{ClauseId};
ghost use Rattle.cdcl_core.specs.Chains.{times};
ghost use Rattle.cdcl_core.specs.Levels.{IsReason};
ghost use Rattle.cdcl_core.specs.Search.{literals_of, clause_of, held_of};
ghost use Rattle.cdcl_core.specs.declared.watches.Kind.TheVariants.{Free, Watched};
ghost use Rattle.cdcl_core.specs.Watched.{kind_at};
ghost use Rattle.cdcl_core.specs.State.{IsConsistent, KeepsPlaces, IsSettled, IsPropagated, IsPlaced, IsCleared, HasForced};

use crate::lists::WatchLists;
use crate::trail::Trail;
use crate::watches::{Kind, Watches};
use cnf_base::{Clause, ClauseId, Lit};
use std::mem;

// Takes a place out of a list; list 0 is empty before and after.
fn take_out(lists: &mut WatchLists, list: usize, place: usize)
    requires list { list < length lists.old.lists }
    requires other { list ≢ 0 }
    requires named { 0 < place }
    requires lone { (i : ℕ) → i ≢ list → times place (slice_index_or lists.old.lists i []) ≡ 0 }
    requires idle { slice_index_or lists.old.lists 0 [] ≡ [] }
    ensures literals { lists.new.literals ≡ lists.old.literals }
    ensures size { length lists.new.lists ≡ length lists.old.lists }
    ensures idle { slice_index_or lists.new.lists 0 [] ≡ [] }
    ensures gone { (i : ℕ) → times place (slice_index_or lists.new.lists i []) ≡ 0 }
    ensures others { (i q : ℕ) → q ≢ place → times q (slice_index_or lists.new.lists i [])
        ≡ times q (slice_index_or lists.old.lists i []) }
{
    lists.exchange(0, list);
    'places: while lists.first(0) != 0 {
        if lists.first(0) == place {
            lists.pop_first(0);
        } else {
            lists.move_first(0, list);
        }
    }
}

// Takes the two places of a watched clause out of the lists of their literals.
fn unwatch(w: &mut Watches, t: &Trail, slot: usize)
    requires placed { IsPlaced w.old t.now }
    requires low { 1 ≤ slot }
    requires high { slot < length w.old.kinds.items }
    requires watched { kind_at w.old.kinds.items slot ≡ Watched }
    ensures same { w.new ≡ record w.old { lists = w.new.lists } }
    ensures cleared { IsCleared w.old.lists w.new.lists slot }
{
    let a = w.lists.literal(2 * slot);
    take_out(&mut w.lists, a + 1, 2 * slot);
    let b = w.lists.literal(2 * slot + 1);
    take_out(&mut w.lists, b + 1, 2 * slot + 1);
}

// Takes the places of a slot that is not free out of all lists.
pub(crate) fn clear(w: &mut Watches, t: &Trail, slot: usize)
    requires placed { IsPlaced w.old t.now }
    requires low { 1 ≤ slot }
    requires high { slot < length w.old.kinds.items }
    requires live { kind_at w.old.kinds.items slot ≢ Free }
    ensures same { w.new ≡ record w.old { lists = w.new.lists } }
    ensures cleared { IsCleared w.old.lists w.new.lists slot }
{
    if let Kind::Watched = w.kinds[slot] {
        unwatch(w, t, slot);
        return;
    }
}

// Takes the clause of a slot that is in no list out of it, and puts the slot in front of the free ones.
pub(crate) fn give_up(w: &mut Watches, slot: usize) -> Clause
    requires lists { 1 < length w.old.lists.lists }
    requires low { 1 ≤ slot }
    requires places { 2 * slot < length w.old.lists.literals }
    requires kinds { slot < length w.old.kinds.items }
    requires clauses { slot < length w.old.clauses.items }
    requires idle { sum_by (times (2 * slot)) w.old.lists.lists ≡ 0 }
    ensures clause { result ≡ slice_index_or w.old.clauses.items slot [] }
    ensures once { (q : ℕ) → sum_by (times q) w.new.lists.lists ≤ 1 }
    ensures kinds { w.new.kinds.items ≡ slice_set w.old.kinds.items slot Free }
    ensures clauses { w.new.clauses.items ≡ slice_set w.old.clauses.items slot [] }
    ensures ids { w.new.ids ≡ w.old.ids }
    ensures slots { w.new.slots ≡ w.old.slots }
    ensures calm { w.new.refuted ≡ w.old.refuted }
    ensures literals { w.new.lists.literals ≡ slice_set w.old.lists.literals (2 * slot) 0 }
    ensures lists { w.new.lists.lists
        ≡ slice_set w.old.lists.lists 1 ((2 * slot) ∷ slice_index_or w.old.lists.lists 1 []) }
{
    w.lists.set_literal(2 * slot, 0);
    w.lists.push_first(1, 2 * slot);
    w.kinds[slot] = Kind::Free;
    let empty = Clause::empty(w.alloc);
    mem::replace(&mut w.clauses[slot], empty)
}

// Whether the clause of this slot forced the literal.
fn has_forced(trail: &Trail, l: Lit, slot: usize) -> bool
    requires trail { IsConsistent trail.now }
    requires places { KeepsPlaces trail.now }
    requires reasons { trail.now.len ≤ length trail.now.reasons.items }
    ensures { MatchBool result (HasForced trail.now slot l) (HasForced trail.now slot l → ⊥) }
{
    match trail.place(l) {
        Some(place) => trail.reasons[place] == slot,
        None => false,
    }
}

impl Watches {
    /// Whether the clause of this name forced a literal of the trail.
    pub fn is_reason(&self, trail: &Trail, id: ClauseId) -> bool
        requires { IsSettled self.now trail.now }
        ensures { MatchBool result (IsReason (literals_of trail.now) id)
            (IsReason (literals_of trail.now) id → ⊥) }
    {
        let Some(slot) = self.slot(id) else {
            return false;
        };
        let clause = self.clauses[slot].literals();
        for l in clause {
            if has_forced(trail, *l, slot) {
                return true;
            }
        }
        false
    }

    /// Keeps the clause no longer.
    pub fn drop_clause(&mut self, trail: &Trail, id: ClauseId)
        requires settled { IsSettled self.old trail.now }
        requires kept { IsSome (clause_of self.old id) }
        requires free { (i : ℕ) (l : Literal) (level : ℕ)
            → slice_get (literals_of trail.now) i ≢ Some
            (record { 0 = l; 1 = level; 2 = Some id }) }
        ensures settled { IsSettled self.new trail.now }
        ensures gone { clause_of self.new id ≡ None }
        ensures others { (q : ClauseId) → q ≢ id → clause_of self.new q ≡ clause_of self.old q }
        ensures others_held { (q : ClauseId) → q ≢ id → held_of self.new q ≡ held_of self.old q }
        ensures propagated { IsPropagated self.old trail.now → IsPropagated self.new trail.now }
    {
        let Some(slot) = self.slots.remove(id) else {
            return;
        };
        clear(self, trail, slot);
        drop(give_up(self, slot));
    }
}
