//! The trail: the literals that are true, in the order in which they became so.

ghost use Rattle.std.specs.Prelude.{ℕ, ◌≡◌, ◌+◌, ◌/◌, ◌^◌, ◌<◌, ◌≤◌, [], length, slice_set, slice_index, ltb, IsTrue, ◌↔◌, Some, MatchOption, MatchBool};
ghost use Rattle.cdcl_core.specs.Levels.{IsOpen, IsTrueBy, IsFalseBy, StandsAt};
ghost use Rattle.cdcl_core.specs.Search.{literals_of, level_of, IsKnown};
ghost use Rattle.cdcl_core.specs.State.{IsNew, IsConsistent, KeepsPlaces};
ghost use Rattle.cnf_base.specs.Literals.{literal_of, code_of};
ghost use Rattle.cdcl_core.specs.Stamps.{neg as neg_of};

use crate::row::{Name, Row};
use cnf_base::Lit;
use std::alloc::Global;

/// The true literals in order, each with its decision level and its reason.
#[derive(Drop)]
pub struct Trail {
    // by literal: 0 where it is not true, else one more than its level
    pub(crate) stamps: Vec<u32>,
    // the codes of the true literals in order: those before `head` were propagated
    pub(crate) codes: Vec<u32>,
    // the slot of the clause that forced each, 0 for a decided one
    pub(crate) reasons: Vec<usize>,
    pub(crate) rows: Vec<Row>,
    // by variable: the place of its literal while that is true
    pub(crate) spots: Vec<u32>,
    pub(crate) len: usize,
    pub(crate) head: usize,
    pub(crate) level: u64,
}

impl Trail {
    /// The trail on which no literal is true.
    pub fn new(alloc: Global) -> Trail
        ensures new { IsNew result }
        ensures literals { literals_of result ≡ [] }
    {
        Trail {
            stamps: Vec::new(alloc),
            codes: Vec::new(alloc),
            reasons: Vec::new(alloc),
            rows: Vec::new(alloc),
            spots: Vec::new(alloc),
            len: 0,
            head: 0,
            level: 0,
        }
    }

    /// The present decision level: the number of decided literals.
    pub fn level(&self) -> u64
        ensures { result ≡ level_of self.now }
    {
        self.level
    }

    /// The true literals in order, each with its decision level and its reason, None for a decided one.
    pub fn literals(&self) -> &[Row]
        ensures { result.now ≡ literals_of self.now }
    {
        let rows = self.rows.as_slice();
        let end = if self.len < rows.len() {
            self.len
        } else {
            rows.len()
        };
        &rows[..end]
    }

    /// Whether the literal has a row in the tables, as `decide` asks.
    pub fn knows(&self, l: Lit) -> bool
        ensures { IsTrue result ↔ IsKnown self.now l }
    {
        (l.code() as usize) < self.stamps.len()
    }

    /// Whether the literal has a stamp, which it has while it is true.
    pub fn is_true(&self, l: Lit) -> bool
        ensures { result ≡ ltb 0 (slice_index self.now.stamps.items (code_of l)) }
    {
        0 < stamp_of(self.stamps.as_slice(), l.code() as usize)
    }

    /// One more than the decision level at which the literal became true, 0 where it is not true.
    #[inline(always)]
    pub fn stamp(&self, l: Lit) -> u64
        ensures { result ≡ slice_index self.now.stamps.items (code_of l) }
    {
        stamp_of(self.stamps.as_slice(), l.code() as usize)
    }

    /// The place of a literal that is true, None where it is not.
    pub fn place(&self, l: Lit) -> Option<usize>
        requires trail { IsConsistent self.now }
        requires places { KeepsPlaces self.now }
        ensures { MatchOption result ((i : ℕ) → StandsAt (literals_of self.now) i l → ⊥)
            (λ i. StandsAt (literals_of self.now) i l) }
    {
        let code = l.code() as usize;
        if stamp_of(self.stamps.as_slice(), code) == 0 {
            return None;
        }
        Some(self.spots[code / 2] as usize)
    }

    /// Whether the literal is true, false (where its negation is true), or neither.
    pub fn value(&self, l: Lit) -> Option<bool>
        requires { IsConsistent self.now }
        ensures { MatchOption result (IsOpen (literals_of self.now) (level_of self.now) l)
            (λ b. MatchBool b (IsTrueBy (literals_of self.now) (level_of self.now) l)
            (IsFalseBy (literals_of self.now) (level_of self.now) l)) }
    {
        let code = l.code() as usize;
        if code < self.stamps.len() {
            if self.stamps[code] != 0 {
                return Some(true);
            }
            if self.stamps[neg(code)] != 0 {
                return Some(false);
            }
        }
        None
    }
}

/// The code of the opposite literal, or the other place of a clause.
#[inline(always)]
pub(crate) fn neg(code: usize) -> usize
    ensures { result ≡ neg_of code }
{
    if code % 2 == 0 { code + 1 } else { code - 1 }
}

// The stamp of a code, 0 where it has no row.
#[inline(always)]
pub(crate) fn stamp_of(stamps: &[u32], code: usize) -> u64
    ensures { result ≡ slice_index stamps.now code }
{
    if code < stamps.len() {
        stamps[code] as u64
    } else {
        0
    }
}

// Makes the literal of this code true at the present level.
#[inline(always)]
pub(crate) fn enqueue(t: &mut Trail, code: usize, slot: usize, reason: Option<Name>)
    requires codes { t.old.len < length t.old.codes.items }
    requires reasons { t.old.len < length t.old.reasons.items }
    requires rows { t.old.len < length t.old.rows.items }
    requires spots { code / 2 < length t.old.spots.items }
    requires within { code < length t.old.stamps.items }
    requires named { 2 ≤ code }
    requires few { length t.old.stamps.items ≤ 2 ^ 32 }
    requires short { t.old.len < 2 ^ 32 }
    requires level { t.old.level + 1 < 2 ^ 32 }
    ensures stamps { t.new.stamps.items ≡ slice_set t.old.stamps.items code (t.old.level + 1) }
    ensures codes { t.new.codes.items ≡ slice_set t.old.codes.items t.old.len code }
    ensures reasons { t.new.reasons.items ≡ slice_set t.old.reasons.items t.old.len slot }
    ensures rows { t.new.rows.items
        ≡ slice_set t.old.rows.items t.old.len
        (record { 0 = literal_of code; 1 = t.old.level; 2 = reason }) }
    ensures spots { t.new.spots.items ≡ slice_set t.old.spots.items (code / 2) t.old.len }
    ensures len { t.new.len ≡ t.old.len + 1 }
    ensures head { t.new.head ≡ t.old.head }
    ensures same_level { t.new.level ≡ t.old.level }
{
    t.stamps[code] = (t.level + 1) as u32;
    t.codes[t.len] = code as u32;
    t.reasons[t.len] = slot;
    t.rows[t.len] = Row::new(code, t.level, reason);
    t.spots[code / 2] = t.len as u32;
    t.len += 1;
}

// Says that the clause of this slot forced the literal at a place, as at level 0.
pub(crate) fn restate(t: &mut Trail, place: usize, slot: usize, reason: Name)
    requires codes { place < length t.old.codes.items }
    requires reasons { place < length t.old.reasons.items }
    requires rows { place < length t.old.rows.items }
    requires named { 2 ≤ slice_index t.old.codes.items place }
    ensures same { t.new ≡ record t.old { reasons = t.new.reasons; rows = t.new.rows } }
    ensures reasons { t.new.reasons.items ≡ slice_set t.old.reasons.items place slot }
    ensures rows { t.new.rows.items
        ≡ slice_set t.old.rows.items place
        (record { 0 = literal_of (slice_index t.old.codes.items place); 1 = 0; 2 = Some reason }) }
{
    t.reasons[place] = slot;
    t.rows[place] = Row::new(t.codes[place] as usize, 0, Some(reason));
}
