// The places that are deleted.

ghost use Rattle.std.specs.Prelude.{◌≡◌, true, false, ◌≤◌, ◌++◌, ◌∷◌, [], ℕ, List, Some, length, take, IfOk, OnOk, OnErr, MatchBool};
ghost use Rattle.std.specs.List.{list_any};
ghost use Rattle.proof_log.specs.declared.entry.Entry.{Entry as Step};
ghost use Rattle.proof_log.specs.Logs.{entry_at};
ghost use Rattle.proof_text.specs.Deletions.{AreDeletable, cites, is_deletable, is_deleted, place_of};
ghost use Rattle.proof_text.specs.Entries.{entry_line};
ghost use Rattle.diary_checker.specs.Tables.{bit_in};
ghost use Rattle.proof_checker.specs.Checkers.{hints_in};

use cnf_base::Pos;
use diary_checker::positions::Positions;
use faded_log::FadedLog;
use proof_log::diary::DiaryLine;
use proof_log::entry::Entry;
use proof_text::line::Line;
use proof_text::list::WrittenHint;
use std::alloc::{AllocError, Global};
use std::marker::Model;

/// The places that are deleted, in the order in which they were, with a bit for each.
#[derive(Drop)]
pub struct Deleted {
    places: Vec<u64>,
    bits: Positions,
}

impl Model for Deleted {
    ghost use Rattle.std.specs.Prelude.{◌≡◌, ℕ, List};
    ghost use Rattle.proof_text.specs.Deletions.{is_deleted};
    ghost use Rattle.diary_checker.specs.Tables.{bit_in};

    ghost Value = { List ℕ };

    ghost view = { λ d. d.places.items };

    ghost invariant = { λ d. (p : ℕ) → bit_in d.bits p ≡ is_deleted d.places.items p };
}

impl Deleted {
    /// Nothing is deleted.
    pub fn none(alloc: Global) -> Deleted
        ensures { result ≡ [] }
    {
        Deleted {
            places: Vec::new(alloc),
            bits: Positions::new(alloc),
        }
    }

    /// Whether the place is deleted.
    pub fn has(&self, place: u64) -> bool
        ensures { result ≡ is_deleted self.now place }
    {
        self.bits.has(place)
    }

    /// The same of all places.
    pub fn bits(&self) -> &Positions
        ensures { (p : ℕ) → bit_in result.now p ≡ is_deleted self.now p }
    {
        &self.bits
    }

    /// These places, in the order in which they were deleted.
    pub fn places(&self) -> &[u64]
        ensures { result.now ≡ self.now }
    {
        self.places.as_slice()
    }

    /// One place more is deleted.
    fn push(&mut self, place: u64) -> Result<(), AllocError>
        ensures ok { OnOk result (self.new ≡ self.old ++ place ∷ []) }
        ensures err { OnErr result (self.new ≡ self.old) }
    {
        let before = self.places.len();
        self.places.push(place)?;
        match self.bits.set(place, true) {
            Ok(()) => Ok(()),
            Err(_) => {
                self.places.truncate(before);
                Err(AllocError)
            }
        }
    }

    /// The first so many of the places.
    fn front(&self, alloc: Global, size: usize) -> Result<Deleted, AllocError>
        requires { size ≤ length self.now }
        ensures { IfOk result (λ d. d ≡ take size self.now) }
    {
        let mut front = Deleted::none(alloc);
        for place in &self.places[..size] {
            front.push(*place)?;
        }
        Ok(front)
    }
}

/// Whether a lemma or a chain stands at a place.
fn is_deletable(log: &FadedLog, at: Pos) -> bool
    ensures { result ≡ is_deletable (entry_at log.now.entries at) }
{
    match log.entry(at) {
        Some(Entry::Lemma(_)) => true,
        Some(Entry::Chain(_, _)) => true,
        _ => false,
    }
}

/// Whether a place is that of a lemma or a chain and not deleted.
fn can_be_deleted(log: &FadedLog, deleted: &Deleted, place: u64) -> bool
    ensures { MatchBool result
        ((is_deletable (entry_at log.now.entries place) ≡ true)
        × (is_deleted deleted.now place ≡ false))
        ((is_deletable (entry_at log.now.entries place) ≡ true)
        × (is_deleted deleted.now place ≡ false) → ⊥) }
{
    !deleted.has(place) && is_deletable(log, place)
}

/// Deletes places where each can be, and tells whether it is so. Where one cannot, the same places are deleted as before.
pub fn delete(
    alloc: Global,
    log: &FadedLog,
    deleted: &mut Deleted,
    places: &[u64],
) -> Result<bool, AllocError>
    ensures { IfOk result (λ done. MatchBool done
        (AreDeletable log.now.entries deleted.old places.now
        × (deleted.new ≡ deleted.old ++ places.now))
        ((AreDeletable log.now.entries deleted.old places.now → ⊥)
        × (deleted.new ≡ deleted.old))) }
{
    let before = deleted.places.len();
    for place in places {
        if !can_be_deleted(log, deleted, *place) {
            *deleted = deleted.front(alloc, before)?;
            return Ok(false);
        }
        deleted.push(*place)?;
    }
    Ok(true)
}

/// Whether a hint names a deleted place.
fn is_one_deleted(deleted: &Deleted, hints: &[WrittenHint]) -> bool
    ensures { result ≡ list_any (λ h. is_deleted deleted.now h.pos) hints.now }
{
    for hint in hints {
        if deleted.has(hint.pos) {
            return true;
        }
    }
    false
}

/// The hints that a line names.
fn hints_in(line: &Line) -> &[WrittenHint]
    ensures { result.now ≡ hints_in line.now }
{
    match line {
        Line::Chain { clause: _, hints } => hints.as_slice(),
        _ => &[],
    }
}

/// Whether the line is that of a chain that cites a deleted place.
pub fn cites_deleted(deleted: &Deleted, line: &Line) -> bool
    ensures { (e : Step) → entry_line e ≡ Some line.now → cites deleted.now e ≡ result }
{
    is_one_deleted(deleted, hints_in(line))
}

/// Whether the line of a diary names a deleted place.
pub fn names_deleted(deleted: &Deleted, line: DiaryLine) -> bool
    ensures { result ≡ is_deleted deleted.now (place_of line) }
{
    match line {
        DiaryLine::Take(at) | DiaryLine::Put(at) | DiaryLine::Drop(at) => deleted.has(at),
    }
}
