//! Clauses that come, at any moment of a search.

ghost use Rattle.std.specs.Prelude.{ℕ, ◌≡◌, ◌≢◌, ◌+◌, ◌-◌, ◌*◌, ◌%◌, ◌^◌, ◌<◌, ◌≤◌, [], ◌∷◌, length, slice_set, slice_index, slice_index_or, sum_by, Some, None, IfOk, OnOk, OnErr, Contains};
ghost use Rattle.cnf_base.specs.Literals.{Literal};
ghost use Rattle.cnf_base.specs.declared.clause.ClauseId.{ClauseId};
ghost use Rattle.cdcl_core.specs.declared.watches.Kind.TheVariants.{Fixed, Watched};
ghost use Rattle.cdcl_core.specs.Chains.{first_of, rest_of, times};
ghost use Rattle.cdcl_core.specs.Levels.{RestsBy, IsAdded};
ghost use Rattle.cdcl_core.specs.Search.{literals_of, level_of, rows_of, clause_of, held_of, IsKnown};
ghost use Rattle.cdcl_core.specs.Slots.{slot_in, IsRenamed};
ghost use Rattle.cdcl_core.specs.Stamps.{neg as neg_of, codes, Has, rank};
ghost use Rattle.cnf_base.specs.Clauses.{no_id};
ghost use Rattle.cdcl_core.specs.State.{IsConsistent, IsSettled, IsPlaced, IsPropagated, IsWaiting, MayCome, Holds, HoldsSome};

use crate::grow::free_slot;
use crate::propagate::is_satisfied;
use crate::row::Name;
use crate::trail::{Trail, enqueue, neg, stamp_of};
use crate::watches::{Kind, Watches};
use cnf_base::{Clause, ClauseId, Lit};
use std::alloc::AllocError;

// How late the literal became false: the greatest number where it is not false.
#[inline(always)]
pub(crate) fn rank_of(stamps: &[u32], code: usize) -> u64
    ensures { result ≡ rank stamps.now code }
{
    let stamp = stamp_of(stamps, neg(code));
    if stamp == 0 { u64::MAX } else { stamp }
}

// Of the literals other than `except`, one that is not false, else one that became false last; 0 where there is none.
pub(crate) fn latest(clause: &[Lit], stamps: &[u32], except: usize) -> usize
    ensures none { result ≡ 0 → (l : ℕ) → Has (codes clause.now) l → l ≡ except }
    ensures has { result ≢ 0 → Has (codes clause.now) result }
    ensures other { result ≢ 0 → result ≢ except }
    ensures latest { (l : ℕ) → Has (codes clause.now) l → l ≢ except
        → rank stamps.now l ≤ rank stamps.now result }
{
    let mut found = 0;
    let mut highest = 0;
    for l in clause {
        let code = l.code() as usize;
        let own = rank_of(stamps, code);
        if code != except && highest < own {
            found = code;
            highest = own;
        }
    }
    found
}

// Goes back to the first literal of the present level, as if it had not been propagated.
fn rewind(t: &mut Trail)
    requires { IsConsistent t.old }
    ensures same { t.new ≡ record t.old { head = t.new.head } }
    ensures head { t.new.head ≤ t.old.head }
    ensures before { (i : ℕ) → i < t.new.head
        → slice_index t.old.stamps.items (slice_index t.old.codes.items i) ≤ t.old.level }
    ensures after { (i : ℕ) → t.new.head ≤ i → i < t.old.head
        → t.old.level < slice_index t.old.stamps.items (slice_index t.old.codes.items i) }
{
    let mut head = t.head;
    'back: while head > 0 {
        let code = t.codes[head - 1];
        if t.stamps[code as usize] as u64 <= t.level {
            break;
        }
        head -= 1;
    }
    t.head = head;
}

// Puts a clause of two different literals into a slot, which watches them.
fn hang(w: &mut Watches, slot: usize, clause: Clause, a: usize, b: usize)
    requires waiting { IsWaiting w.old slot }
    requires a { a + 1 < length w.old.lists.lists }
    requires b { b + 1 < length w.old.lists.lists }
    requires small_a { a + 1 < 2 ^ 64 }
    requires small_b { b + 1 < 2 ^ 64 }
    requires high_a { 2 ≤ a }
    requires high_b { 2 ≤ b }
    requires places { 2 * slot + 1 < length w.old.lists.literals }
    requires rows { slot < length w.old.clauses.items }
    requires idle { sum_by (times (2 * slot + 1)) w.old.lists.lists ≡ 0 }
    ensures holds { Holds w.old w.new slot Watched clause }
    ensures calm { w.new.refuted ≡ w.old.refuted }
    ensures literals { w.new.lists.literals
        ≡ slice_set (slice_set w.old.lists.literals (2 * slot) a) (2 * slot + 1) b }
    ensures lists { let moved = slice_set
        (slice_set w.old.lists.lists 1 (rest_of (slice_index_or w.old.lists.lists 1 []))) (a + 1)
        ((2 * slot) ∷ slice_index_or w.old.lists.lists (a + 1) []) in w.new.lists.lists
        ≡ slice_set moved (b + 1) ((2 * slot + 1) ∷ slice_index_or moved (b + 1) []) }
{
    w.lists.rewatch(2 * slot, a, 0);
    w.lists.set_literal(2 * slot + 1, b);
    w.lists.move_first(1, a + 1);
    w.lists.push_first(b + 1, 2 * slot + 1);
    w.clauses[slot] = clause;
    w.kinds[slot] = Kind::Watched;
}

// Puts a clause into a slot of this kind, which does not watch it.
pub(crate) fn seat(w: &mut Watches, slot: usize, clause: Clause, kind: Kind)
    requires waiting { IsWaiting w.old slot }
    requires lists { 1 < length w.old.lists.lists }
    requires rows { slot < length w.old.clauses.items }
    ensures holds { Holds w.old w.new slot kind clause }
    ensures calm { w.new.refuted ≡ w.old.refuted }
    ensures literals { w.new.lists.literals ≡ w.old.lists.literals }
    ensures lists { w.new.lists.lists
        ≡ slice_set w.old.lists.lists 1 (rest_of (slice_index_or w.old.lists.lists 1 [])) }
{
    w.lists.pop_first(1);
    w.clauses[slot] = clause;
    w.kinds[slot] = kind;
}

// Holds a clause of two or more different literals, of which `a` became false last, and `b` last but for it.
fn watch(w: &mut Watches, t: &mut Trail, slot: usize, clause: Clause, a: usize, b: usize, id: Name)
    requires placed { IsPlaced w.old t.old }
    requires waiting { IsWaiting w.old slot }
    requires may_come { MayCome t.old (codes clause) }
    requires name { slice_index_or w.old.ids.items slot no_id ≡ id }
    requires once { (q : ℕ) → sum_by (times q) w.old.lists.lists ≤ 1 }
    requires has_a { Has (codes clause) a }
    requires has_b { Has (codes clause) b }
    requires differ { b ≢ a }
    requires latest { (l : ℕ) → Has (codes clause) l
        → rank t.old.stamps.items l ≤ rank t.old.stamps.items a }
    requires second { (l : ℕ) → Has (codes clause) l → l ≢ a
        → rank t.old.stamps.items l ≤ rank t.old.stamps.items b }
    ensures placed { IsPlaced w.new t.new }
    ensures holds { Holds w.old w.new slot Watched clause }
    ensures level { t.new.level ≡ t.old.level }
    ensures rows { length t.new.stamps.items ≡ length t.old.stamps.items }
    ensures literals { IsAdded (literals_of t.old) (level_of t.old) id clause (literals_of t.new) }
    ensures propagated { RestsBy (literals_of t.old) (level_of t.old) clause
        → IsPropagated w.old t.old → IsPropagated w.new t.new }
{
    hang(w, slot, clause, a, b);
    if t.stamps[neg(b)] == 0 {
        return;
    }
    if t.stamps[neg(a)] != 0 {
        rewind(t);
        return;
    }
    if t.stamps[a] == 0 {
        enqueue(t, a, slot, Some(id));
    }
}

// Holds a clause of at most one literal, `a`, or 0 where there is none: its value is settled at level 0.
fn fix(w: &mut Watches, t: &mut Trail, slot: usize, clause: Clause, a: usize, id: Name)
    requires placed { IsPlaced w.old t.old }
    requires waiting { IsWaiting w.old slot }
    requires may_come { MayCome t.old (codes clause) }
    requires name { slice_index_or w.old.ids.items slot no_id ≡ id }
    requires once { (q : ℕ) → sum_by (times q) w.old.lists.lists ≤ 1 }
    requires lists { 1 < length w.old.lists.lists }
    requires has { a ≢ 0 → Has (codes clause) a }
    requires only { (l : ℕ) → Has (codes clause) l → l ≡ a }
    ensures placed { IsPlaced w.new t.new }
    ensures holds { Holds w.old w.new slot Fixed clause }
    ensures level { t.new.level ≡ t.old.level }
    ensures rows { length t.new.stamps.items ≡ length t.old.stamps.items }
    ensures literals { IsAdded (literals_of t.old) (level_of t.old) id clause (literals_of t.new) }
    ensures propagated { RestsBy (literals_of t.old) (level_of t.old) clause
        → IsPropagated w.old t.old → IsPropagated w.new t.new }
{
    seat(w, slot, clause, Kind::Fixed);
    if a == 0 {
        w.refuted = true;
        return;
    }
    if t.stamps[neg(a)] != 0 {
        w.refuted = true;
        return;
    }
    if t.stamps[a] == 0 {
        enqueue(t, a, slot, Some(id));
    }
}

// A bound of the variables of the clause.
pub(crate) fn bound_of(clause: &[Lit]) -> u64
    ensures some { 1 ≤ result }
    ensures named { (m : ℕ) → Has (codes clause.now) m → 2 ≤ m }
    ensures below { (m : ℕ) → Has (codes clause.now) m → m < 2 * result }
{
    let mut bound = 1;
    for l in clause {
        let code = l.code();
        if bound <= code / 2 {
            bound = code / 2 + 1;
        }
    }
    bound
}

// Puts a clause into the slot that waits for it, and watches it where it has two literals.
pub(crate) fn hold(w: &mut Watches, t: &mut Trail, slot: usize, clause: Clause, id: Name)
    requires placed { IsPlaced w.old t.old }
    requires waiting { IsWaiting w.old slot }
    requires may_come { MayCome t.old (codes clause) }
    requires name { slice_index_or w.old.ids.items slot no_id ≡ id }
    requires lists { 1 < length w.old.lists.lists }
    requires once { (q : ℕ) → sum_by (times q) w.old.lists.lists ≤ 1 }
    ensures placed { IsPlaced w.new t.new }
    ensures holds { HoldsSome w.old w.new slot clause }
    ensures level { t.new.level ≡ t.old.level }
    ensures rows { length t.new.stamps.items ≡ length t.old.stamps.items }
    ensures literals { IsAdded (literals_of t.old) (level_of t.old) id clause (literals_of t.new) }
    ensures propagated { RestsBy (literals_of t.old) (level_of t.old) clause
        → IsPropagated w.old t.old → IsPropagated w.new t.new }
{
    let a = latest(clause.literals(), t.stamps.as_slice(), 0);
    let b = latest(clause.literals(), t.stamps.as_slice(), a);
    if b == 0 {
        fix(w, t, slot, clause, a, id);
    } else {
        watch(w, t, slot, clause, a, b, id);
    }
}

// Puts a clause into the slot that waits for it: one that is true at level 0 stays true, and is not watched.
fn admit(w: &mut Watches, t: &mut Trail, slot: usize, clause: Clause, id: Name)
    requires placed { IsPlaced w.old t.old }
    requires waiting { IsWaiting w.old slot }
    requires may_come { MayCome t.old (codes clause) }
    requires name { slice_index_or w.old.ids.items slot no_id ≡ id }
    requires lists { 1 < length w.old.lists.lists }
    requires once { (q : ℕ) → sum_by (times q) w.old.lists.lists ≤ 1 }
    ensures placed { IsPlaced w.new t.new }
    ensures holds { HoldsSome w.old w.new slot clause }
    ensures level { t.new.level ≡ t.old.level }
    ensures rows { length t.new.stamps.items ≡ length t.old.stamps.items }
    ensures literals { IsAdded (literals_of t.old) (level_of t.old) id clause (literals_of t.new) }
    ensures propagated { RestsBy (literals_of t.old) (level_of t.old) clause
        → IsPropagated w.old t.old → IsPropagated w.new t.new }
{
    if is_satisfied(clause.literals(), t.stamps.as_slice()) {
        seat(w, slot, clause, Kind::Fixed);
    } else {
        hold(w, t, slot, clause, id);
    }
}

// Gives the slot its name, as it is kept.
pub(crate) fn name_slot(
    w: &mut Watches,
    t: &Trail,
    slot: usize,
    id: ClauseId,
) -> Result<Name, AllocError>
    requires settled { IsSettled w.old t.now }
    requires waiting { IsWaiting w.old slot }
    requires fresh { clause_of w.old id ≡ None }
    ensures lists { w.new.lists ≡ w.old.lists }
    ensures kinds { w.new.kinds ≡ w.old.kinds }
    ensures clauses { w.new.clauses ≡ w.old.clauses }
    ensures calm { w.new.refuted ≡ w.old.refuted }
    ensures name { IfOk result (λ name. name ≡ id) }
    ensures ids { OnOk result (w.new.ids.items ≡ slice_set w.old.ids.items slot id) }
    ensures named { OnOk result (IsRenamed w.old.slots w.new.slots id (Some slot)) }
    ensures placed { OnOk result (IsPlaced w.new t.now) }
    ensures err_ids { OnErr result (w.new.ids ≡ w.old.ids) }
    ensures err_slots { OnErr result ((q : ClauseId)
        → slot_in w.new.slots q ≡ slot_in w.old.slots q) }
{
    let Some(name) = Name::of(id) else {
        return Err(AllocError);
    };
    if let Err(_) = w.slots.insert(id, slot) {
        return Err(AllocError);
    }
    w.ids[slot] = name;
    Ok(name)
}

impl Watches {
    /// Holds one clause more, at any moment of a search at which no lower level ends with the clause false, or unit with its
    /// last literal open. Its last open literal is forced where it is unit.
    pub fn add(&mut self, trail: &mut Trail, id: ClauseId, clause: Clause) -> Result<(), AllocError>
        requires settled { IsSettled self.old trail.old }
        requires fresh { clause_of self.old id ≡ None }
        requires rests { (j : ℕ) → j < level_of trail.old
            → RestsBy (literals_of trail.old) j clause }
        ensures settled { IsSettled self.new trail.new }
        ensures kept { OnOk result (clause_of self.new id ≡ Some clause) }
        ensures held { OnOk result (held_of self.new id ≡ Some clause) }
        ensures others { (q : ClauseId) → q ≢ id → clause_of self.new q ≡ clause_of self.old q }
        ensures others_held { (q : ClauseId) → q ≢ id → held_of self.new q ≡ held_of self.old q }
        ensures not_kept { OnErr result (clause_of self.new id ≡ None) }
        ensures literals { OnOk result
            (IsAdded (literals_of trail.old) (level_of trail.old) id clause
            (literals_of trail.new)) }
        ensures same_literals { OnErr result (literals_of trail.new ≡ literals_of trail.old) }
        ensures level { level_of trail.new ≡ level_of trail.old }
        ensures known { OnOk result ((l : Literal) → Contains clause l → IsKnown trail.new l) }
        ensures rows { rows_of trail.old ≤ rows_of trail.new }
        ensures propagated { RestsBy (literals_of trail.old) (level_of trail.old) clause
            → IsPropagated self.old trail.old → IsPropagated self.new trail.new }
        ensures err_propagated { OnErr result (IsPropagated self.old trail.old
            → IsPropagated self.new trail.new) }
    {
        let bound = bound_of(clause.literals());
        self.reserve(trail, bound)?;
        let slot = free_slot(self, trail)?;
        let name = name_slot(self, trail, slot, id)?;
        admit(self, trail, slot, clause, name);
        Ok(())
    }
}
