//! Tables that grow: rows for literals, and slots for clauses.

ghost use Rattle.std.specs.Prelude.{ℕ, ◌≡◌, ◌+◌, ◌-◌, ◌*◌, ◌<◌, ◌≤◌, ◌++◌, List, [], length, vec_len, slice_index_or, sum_by, IfOk, OnOk, OnErr};
ghost use Rattle.cnf_base.specs.declared.clause.ClauseId.{ClauseId};
ghost use Rattle.cdcl_core.specs.Chains.{first_of, times};
ghost use Rattle.cdcl_core.specs.Search.{literals_of, level_of, rows_of, clause_of, held_of};
ghost use Rattle.cdcl_core.specs.State.{IsSettled, IsPropagated, IsWaiting, IsLonger, IsWider};

use crate::row::{Name, Row};
use crate::trail::Trail;
use crate::watches::{Kind, Watches};
use cnf_base::Clause;
use std::alloc::AllocError;

// Has at least `count` elements.
fn lengthen<T: Copy>(table: &mut Vec<T>, count: usize, filler: T) -> Result<(), AllocError>
    ensures longer { (more : List T) × (table.new.items ≡ table.old.items ++ more) }
    ensures enough { OnOk result (count ≤ vec_len table.new) }
    ensures exact { vec_len table.old ≤ count → vec_len table.new ≤ count }
    ensures same { count ≤ vec_len table.old → vec_len table.new ≡ vec_len table.old }
{
    if table.len() < count {
        table.resize(count, filler)?;
    }
    Ok(())
}

// Gives the trail tables for as many literals, of which at most every other one is true at a time.
fn lengthen_trail(t: &mut Trail, count: usize) -> Result<(), AllocError>
    requires { length t.old.stamps.items < count }
    ensures ok { OnOk result (IsLonger t.old t.new (count - length t.old.stamps.items)) }
    ensures err { OnErr result (IsLonger t.old t.new 0) }
    ensures codes { OnOk result (count ≤ 2 * length t.new.codes.items) }
    ensures reasons { length t.old.codes.items ≤ length t.old.reasons.items
        → length t.new.codes.items ≤ length t.new.reasons.items }
    ensures rows { OnOk result (count ≤ 2 * length t.new.rows.items) }
    ensures spots { OnOk result (count ≤ 2 * length t.new.spots.items) }
{
    let half = count / 2 + 1;
    lengthen(&mut t.rows, half, Row::new(2, 0, None))?;
    lengthen(&mut t.reasons, half, 0)?;
    lengthen(&mut t.codes, half, 0)?;
    lengthen(&mut t.spots, half, 0)?;
    t.stamps.resize(count, 0)?;
    Ok(())
}

impl Watches {
    /// Has rows for the literals of the variables below the bound.
    pub fn reserve(&mut self, trail: &mut Trail, variables: u64) -> Result<(), AllocError>
        requires { IsSettled self.old trail.old }
        ensures settled { IsSettled self.new trail.new }
        ensures rows { OnOk result (2 * variables ≤ rows_of trail.new) }
        ensures more { rows_of trail.old ≤ rows_of trail.new }
        ensures kept { (id : ClauseId) → clause_of self.new id ≡ clause_of self.old id }
        ensures held { (id : ClauseId) → held_of self.new id ≡ held_of self.old id }
        ensures literals { literals_of trail.new ≡ literals_of trail.old }
        ensures level { level_of trail.new ≡ level_of trail.old }
        ensures propagated { IsPropagated self.old trail.old → IsPropagated self.new trail.new }
    {
        if variables > 0x8000_0000 {
            return Err(AllocError);
        }
        let count = 2 * variables as usize;
        if trail.stamps.len() < count {
            self.lists.grow_lists(count + 2)?;
            lengthen_trail(trail, count)?;
        }
        Ok(())
    }
}

// Gives the tables by slot one more row.
fn widen(w: &mut Watches) -> Result<(), AllocError>
    requires rows { length w.old.kinds.items ≤ length w.old.ids.items }
    requires clauses { length w.old.kinds.items ≤ length w.old.clauses.items }
    ensures wider { IsWider w.old w.new }
    ensures clauses { OnOk result (length w.new.kinds.items < length w.new.clauses.items) }
    ensures ids { OnOk result (length w.new.kinds.items < length w.new.ids.items) }
    ensures places { OnOk result (2 * length w.new.kinds.items + 2 ≤ length w.new.lists.literals) }
{
    let slot = w.kinds.len();
    w.clauses.push(Clause::empty(w.alloc))?;
    w.ids.push(Name::FIRST)?;
    w.lists.grow_places(2 * slot + 2)?;
    Ok(())
}

// Puts a new slot into the list of free ones.
fn grow_slot(w: &mut Watches, t: &Trail) -> Result<(), AllocError>
    requires settled { IsSettled w.old t.now }
    requires lists { 1 < length w.old.lists.lists }
    ensures settled { IsSettled w.new t.now }
    ensures kept { (id : ClauseId) → clause_of w.new id ≡ clause_of w.old id }
    ensures held { (id : ClauseId) → held_of w.new id ≡ held_of w.old id }
    ensures pending { OnOk result (0 < first_of (slice_index_or w.new.lists.lists 1 [])) }
    ensures lists { 1 < length w.new.lists.lists }
    ensures calm { w.new.refuted ≡ w.old.refuted }
{
    widen(w)?;
    let slot = w.kinds.len();
    w.kinds.push(Kind::Free)?;
    w.lists.set_literal(2 * slot, 0);
    w.lists.push_first(1, 2 * slot);
    Ok(())
}

// A slot that waits for a clause.
pub(crate) fn free_slot(w: &mut Watches, t: &Trail) -> Result<usize, AllocError>
    requires settled { IsSettled w.old t.now }
    requires lists { 1 < length w.old.lists.lists }
    ensures settled { IsSettled w.new t.now }
    ensures kept { (id : ClauseId) → clause_of w.new id ≡ clause_of w.old id }
    ensures held { (id : ClauseId) → held_of w.new id ≡ held_of w.old id }
    ensures waiting { IfOk result (λ slot. IsWaiting w.new slot) }
    ensures once { OnOk result ((q : ℕ) → sum_by (times q) w.new.lists.lists ≤ 1) }
    ensures lists { 1 < length w.new.lists.lists }
    ensures calm { w.new.refuted ≡ w.old.refuted }
{
    let place = w.lists.first(1);
    if place != 0 {
        return Ok(place / 2);
    }
    grow_slot(w, t)?;
    let place = w.lists.first(1);
    Ok(place / 2)
}
