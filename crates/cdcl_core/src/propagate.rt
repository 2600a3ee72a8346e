//! Unit propagation by two watched literals (M. W. Moskewicz and others, "Chaff: engineering an efficient SAT solver", 2001).

ghost use Rattle.std.specs.Prelude.{ℕ, ◌≡◌, ◌≢◌, ◌+◌, ◌%◌, ◌<◌, ◌≤◌, length, slice_index, slice_index_or, [], false, IsTrue, IfNone, IfSome, MatchOption};
ghost use Rattle.cnf_base.specs.declared.clause.ClauseId.{ClauseId};
ghost use Rattle.cdcl_core.specs.Levels.{IsExtended};
ghost use Rattle.cdcl_core.specs.Search.{literals_of, level_of, rows_of, clause_of, held_of, IsAtRest, IsConflict};
ghost use Rattle.cdcl_core.specs.Chains.{first_of, rest_of};
ghost use Rattle.cdcl_core.specs.Stamps.{neg as neg_of, codes, Has, IsFalse, IsFalseBut, IsFreeIn};
ghost use Rattle.cdcl_core.specs.Watched.{kind_at, IsHeld};
ghost use Rattle.cdcl_core.specs.State.{IsSettled, IsVisiting, IsPropagated, IsFixed, IsGrown, all_codes};

use crate::trail::{Trail, enqueue, neg};
use crate::watches::{Kind, Watches};
use cnf_base::{ClauseId, Lit};

// Of the literals at these places of the clause the first that is not false and not the given one, and its place.
#[inline(always)]
fn scan_part(
    clause: &[Lit],
    stamps: &[u32],
    other: usize,
    start: usize,
    end: usize,
) -> Option<(usize, usize)>
    requires within { (l : ℕ) → Has (codes clause.now) l → l < length stamps.now }
    requires even { length stamps.now % 2 ≡ 0 }
    requires end { end ≤ length clause.now }
    ensures { MatchOption result ((i : ℕ) → start ≤ i → i < end
        → IsFalseBut stamps.now other (slice_index (codes clause.now) i))
        (λ found. IsFreeIn stamps.now (codes clause.now) other found.0) }
{
    for k in start..end {
        let code = clause[k].code() as usize;
        if code != other && stamps[neg(code)] == 0 {
            return Some((code, k));
        }
    }
    None
}

// A literal of the clause, other than the given one, that is not false, and its place: the search begins at `start`, and goes
// on with the literals before it.
#[inline(always)]
fn scan(clause: &[Lit], stamps: &[u32], other: usize, start: usize) -> Option<(usize, usize)>
    requires within { (l : ℕ) → Has (codes clause.now) l → l < length stamps.now }
    requires even { length stamps.now % 2 ≡ 0 }
    ensures { MatchOption result ((l : ℕ) → Has (codes clause.now) l
        → IsFalseBut stamps.now other l)
        (λ found. IsFreeIn stamps.now (codes clause.now) other found.0) }
{
    let start = if start < clause.len() { start } else { 0 };
    match scan_part(clause, stamps, other, start, clause.len()) {
        Some(found) => Some(found),
        None => scan_part(clause, stamps, other, 0, start),
    }
}

// Visits the first place of list 0: the place that is the first of list 0 now, and the slot of a false clause, or 0.
#[inline(always)]
fn step(w: &mut Watches, t: &mut Trail, p: usize, place: usize) -> (usize, usize)
    requires visiting { IsVisiting w.old t.old p 0 }
    requires pending { 0 < first_of (slice_index_or w.old.lists.lists 0 []) }
    requires first { place ≡ first_of (slice_index_or w.old.lists.lists 0 []) }
    ensures visiting { IsVisiting w.new t.new p result.1 }
    ensures next { result.0 ≡ first_of (slice_index_or w.new.lists.lists 0 []) }
    ensures shorter { slice_index_or w.new.lists.lists 0 []
        ≡ rest_of (slice_index_or w.old.lists.lists 0 []) }
    ensures same { w.new ≡ record w.old { lists = w.new.lists } }
    ensures head { t.new.head ≡ t.old.head }
    ensures level { t.new.level ≡ t.old.level }
    ensures size { length t.new.stamps.items ≡ length t.old.stamps.items }
    ensures grown { IsGrown t.old t.new }
{
    let mate = neg(place);
    let other = w.lists.literal(mate);
    if t.stamps[other] != 0 {
        return (w.lists.pass(0, p + 1, place), 0);
    }
    let slot = place / 2;
    let start = w.lists.start(place);
    let found = scan(
        w.clauses[slot].literals(),
        t.stamps.as_slice(),
        other,
        start,
    );
    match found {
        Some((literal, at)) => {
            w.lists.rewatch(place, literal, at);
            (w.lists.pass(0, literal + 1, place), 0)
        }
        None => {
            let next = w.lists.pass(0, p + 1, place);
            let against = neg(other);
            if t.stamps[against] != 0 {
                return (next, slot);
            }
            let name = w.ids[slot];
            enqueue(t, other, slot, Some(name));
            (next, 0)
        }
    }
}

// Visits the places that watch `p`, whose opposite is the next literal of the trail, up to one of a false clause: its slot,
// or 0.
#[inline(always)]
fn visit_some(w: &mut Watches, t: &mut Trail, p: usize) -> usize
    requires settled { IsSettled w.old t.old }
    requires within { p < length t.old.stamps.items }
    requires next { slice_index t.old.codes.items t.old.head ≡ neg_of p }
    requires more { t.old.head < t.old.len }
    ensures visiting { IsVisiting w.new t.new p result }
    ensures idle { result ≡ 0 → slice_index_or w.new.lists.lists 0 [] ≡ [] }
    ensures same { w.new ≡ record w.old { lists = w.new.lists } }
    ensures head { t.new.head ≡ t.old.head }
    ensures level { t.new.level ≡ t.old.level }
    ensures size { length t.new.stamps.items ≡ length t.old.stamps.items }
    ensures grown { IsGrown t.old t.new }
{
    w.lists.exchange(0, p + 1);
    let mut place = w.lists.first(0);
    'places: while place != 0 {
        let (next, stop) = step(w, t, p, place);
        if stop != 0 {
            return stop;
        }
        place = next;
    }
    0
}

// Puts the places that were not visited back.
fn put_back(w: &mut Watches, t: &Trail, p: usize, stop: usize)
    requires visiting { IsVisiting w.old t.now p stop }
    requires stopped { stop ≢ 0 }
    ensures visiting { IsVisiting w.new t.now p stop }
    ensures idle { slice_index_or w.new.lists.lists 0 [] ≡ [] }
    ensures same { w.new ≡ record w.old { lists = w.new.lists } }
{
    'places: while w.lists.first(0) != 0 {
        w.lists.move_first(0, p + 1);
    }
}

// Visits each place that watches `p`, whose opposite is the next literal of the trail, and gives the slot of a false clause, or 0.
#[inline(always)]
fn visit(w: &mut Watches, t: &mut Trail, p: usize) -> usize
    requires settled { IsSettled w.old t.old }
    requires within { p < length t.old.stamps.items }
    requires next { slice_index t.old.codes.items t.old.head ≡ neg_of p }
    requires more { t.old.head < t.old.len }
    ensures visiting { IsVisiting w.new t.new p result }
    ensures idle { slice_index_or w.new.lists.lists 0 [] ≡ [] }
    ensures same { w.new ≡ record w.old { lists = w.new.lists } }
    ensures head { t.new.head ≡ t.old.head }
    ensures level { t.new.level ≡ t.old.level }
    ensures size { length t.new.stamps.items ≡ length t.old.stamps.items }
    ensures grown { IsGrown t.old t.new }
{
    let stop = visit_some(w, t, p);
    if stop != 0 {
        put_back(w, t, p, stop);
    }
    stop
}

// Makes true what the held clauses force: the slot of a watched clause that is false, or 0 where there is nothing left to do.
fn empty_queue(w: &mut Watches, t: &mut Trail) -> usize
    requires { IsSettled w.old t.old }
    ensures settled { IsSettled w.new t.new }
    ensures done { result ≡ 0 → t.new.head ≡ t.new.len }
    ensures slot { result ≢ 0 → result < length w.new.kinds.items }
    ensures held { result ≢ 0 → IsHeld (kind_at w.new.kinds.items result) }
    ensures refuted { result ≢ 0
        → IsFalse t.new.stamps.items (slice_index_or (all_codes w.new.clauses.items) result []) }
    ensures same { w.new ≡ record w.old { lists = w.new.lists } }
    ensures level { t.new.level ≡ t.old.level }
    ensures size { length t.new.stamps.items ≡ length t.old.stamps.items }
    ensures grown { IsGrown t.old t.new }
{
    'queue: while t.head < t.len {
        let p = neg(t.codes[t.head] as usize);
        let stop = visit(w, t, p);
        if stop != 0 {
            return stop;
        }
        t.head += 1;
    }
    0
}

// Whether a literal of the clause is true at level 0.
pub(crate) fn is_satisfied(clause: &[Lit], stamps: &[u32]) -> bool
    requires within { (l : ℕ) → Has (codes clause.now) l → l < length stamps.now }
    ensures satisfied { IsTrue result → (l : ℕ)
        × (Has (codes clause.now) l × slice_index stamps.now l ≡ 1) }
    ensures not_satisfied { result ≡ false → (l : ℕ) → Has (codes clause.now) l
        → slice_index stamps.now l ≢ 1 }
{
    for l in clause {
        let code = l.code() as usize;
        if stamps[code] == 1 {
            return true;
        }
    }
    false
}

// The slot of a false clause among those that are held and not watched, or 0.
#[cold]
fn refuted_slot(w: &Watches, t: &Trail) -> usize
    requires { IsSettled w.now t.now }
    ensures slot { result ≢ 0 → result < length w.now.kinds.items }
    ensures held { result ≢ 0 → IsHeld (kind_at w.now.kinds.items result) }
    ensures refuted { result ≢ 0
        → IsFalse t.now.stamps.items (slice_index_or (all_codes w.now.clauses.items) result []) }
    ensures none { result ≡ 0
        → IsFixed w.now.kinds.items (all_codes w.now.clauses.items) t.now.stamps.items false }
{
    for slot in 1..w.kinds.len() {
        if let Kind::Fixed = w.kinds[slot] {
            if !is_satisfied(w.clauses[slot].literals(), t.stamps.as_slice()) {
                return slot;
            }
        }
    }
    0
}

impl Watches {
    /// Makes true what the held clauses force at the present level: the name of a held clause that is false, or None where
    /// nothing is left to do.
    pub fn propagate(&mut self, trail: &mut Trail) -> Option<ClauseId>
        requires { IsSettled self.old trail.old }
        ensures settled { IsSettled self.new trail.new }
        ensures propagated { IfNone result (IsPropagated self.new trail.new) }
        ensures rest { IfNone result (IsAtRest self.new trail.new) }
        ensures conflict { IfSome result (λ id. IsConflict self.new trail.new id) }
        ensures kept { (id : ClauseId) → clause_of self.new id ≡ clause_of self.old id }
        ensures held { (id : ClauseId) → held_of self.new id ≡ held_of self.old id }
        ensures level { level_of trail.new ≡ level_of trail.old }
        ensures literals { IsExtended (literals_of trail.old) (level_of trail.old)
            (literals_of trail.new) }
        ensures rows { rows_of trail.new ≡ rows_of trail.old }
    {
        if self.refuted {
            let slot = refuted_slot(self, trail);
            if slot != 0 {
                return Some(self.ids[slot].id());
            }
            self.refuted = false;
        }
        let slot = empty_queue(self, trail);
        if slot != 0 {
            return Some(self.ids[slot].id());
        }
        None
    }
}
