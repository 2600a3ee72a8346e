// What a record needs of a log and its file has not.

ghost use Rattle.std.specs.Prelude.{◌≡◌, ◌<◌, ◌^◌, ◌∷◌, [], Some, IfOk, OnOk, length, map, slice_get};
ghost use Rattle.variable_list.specs.Variables.{IsOnce};
ghost use Rattle.proof_log.specs.Logs.{entry_at};
ghost use Rattle.proof_text.specs.Deletions.{is_deletable, place_of};
ghost use Rattle.proof_file.specs.Needed.{AreNeeded};
ghost use Rattle.proof_file.specs.Finding.{AreFound, cited_by, hint_positions, named_by};
ghost use Rattle.proof_file.specs.Held.{file_in};

use crate::places::Places;
use cnf_base::Pos;
use proof_log::Log;
use proof_log::diary::DiaryLine;
use proof_log::entry::{Entry, Hints};
use proof_text::record::Record;
use std::alloc::{AllocError, Global};
use variable_list::VariableList;

/// Whether a step is a lemma or a chain.
fn is_deletable(entry: &Entry) -> bool
    ensures { result ≡ is_deletable (Some entry.now) }
{
    match entry {
        Entry::Node(_) => false,
        Entry::Leaf(_) => false,
        Entry::Encode(_) => false,
        Entry::Selector(_, _) => false,
        Entry::Chain(_, _) => true,
        Entry::Rewrite(_) => false,
        Entry::Equal(_, _) => false,
        Entry::Lemma(_) => true,
    }
}

/// Whether a lemma or a chain stands at a position.
pub(crate) fn is_derived(log: &Log, at: Pos) -> bool
    ensures { result ≡ is_deletable (entry_at log.now.entries at) }
{
    match log.entry(at) {
        Some(entry) => is_deletable(entry),
        None => false,
    }
}

/// The position that a line of a diary names.
fn position_of(line: DiaryLine) -> Pos
    ensures { result ≡ place_of line }
{
    match line {
        DiaryLine::Take(at) => at,
        DiaryLine::Put(at) => at,
        DiaryLine::Drop(at) => at,
    }
}

/// Finds a position, where it is wanted.
fn find_one(log: &Log, places: &Places, at: Pos, found: &mut VariableList) -> Result<(), AllocError>
    ensures { OnOk result
        (AreFound log.now.entries (file_in places.now).places (at ∷ []) found.old found.new) }
{
    if !is_derived(log, at) {
        return Ok(());
    }
    if !places.place_of(at).is_nowhere() {
        return Ok(());
    }
    if at >= 1 << 63 {
        return Err(AllocError);
    }
    found.add(at)?;
    Ok(())
}

/// Finds what is wanted of these hints.
fn find_hints(
    log: &Log,
    places: &Places,
    hints: &Hints,
    found: &mut VariableList,
) -> Result<(), AllocError>
    ensures { OnOk result (AreFound log.now.entries (file_in places.now).places
        (hint_positions hints.now) found.old found.new) }
{
    for k in 0..hints.len() {
        find_one(log, places, hints.hint(k).pos, found)?;
    }
    Ok(())
}

/// Finds what is wanted of these lines of a diary.
fn find_lines(
    log: &Log,
    places: &Places,
    lines: &[DiaryLine],
    found: &mut VariableList,
) -> Result<(), AllocError>
    ensures { OnOk result (AreFound log.now.entries (file_in places.now).places
        (map place_of lines.now) found.old found.new) }
{
    for line in lines {
        find_one(log, places, position_of(*line), found)?;
    }
    Ok(())
}

/// Finds what is wanted of what a record names.
fn find_named(
    log: &Log,
    places: &Places,
    shown: &Record,
    found: &mut VariableList,
) -> Result<(), AllocError>
    ensures { OnOk result (AreFound log.now.entries (file_in places.now).places
        (named_by shown.now) found.old found.new) }
{
    match shown {
        Record::Sat(_) => Ok(()),
        Record::Unsat(at) => find_one(log, places, *at, found),
        Record::Unknown(diary) => find_lines(log, places, diary.lines.as_slice(), found),
    }
}

/// Finds what is wanted of what a step is derived from.
fn find_chain(
    log: &Log,
    places: &Places,
    entry: &Entry,
    found: &mut VariableList,
) -> Result<(), AllocError>
    ensures { OnOk result (AreFound log.now.entries (file_in places.now).places
        (cited_by (Some entry.now)) found.old found.new) }
{
    match entry {
        Entry::Node(_) => Ok(()),
        Entry::Leaf(_) => Ok(()),
        Entry::Encode(_) => Ok(()),
        Entry::Selector(_, _) => Ok(()),
        Entry::Chain(_, hints) => find_hints(log, places, hints, found),
        Entry::Rewrite(_) => Ok(()),
        Entry::Equal(_, _) => Ok(()),
        Entry::Lemma(_) => Ok(()),
    }
}

/// The same of the step at a position.
fn find_cited(
    log: &Log,
    places: &Places,
    at: Pos,
    found: &mut VariableList,
) -> Result<(), AllocError>
    ensures { OnOk result (AreFound log.now.entries (file_in places.now).places
        (cited_by (entry_at log.now.entries at)) found.old found.new) }
{
    match log.entry(at) {
        Some(entry) => find_chain(log, places, entry, found),
        None => Ok(()),
    }
}

/// The position at an index of those that were found, if there is one.
fn found_at(found: &VariableList, index: usize) -> Option<Pos>
    ensures at { result ≡ slice_get found.now index }
    ensures few { length found.now < 2 ^ 64 }
    ensures once { IsOnce found.now }
{
    found.as_slice().get(index).copied()
}

/// The positions of what the record needs and the file has not, rising. The list is for the positions that are found; it may be a
/// used one.
pub(crate) fn needed_by(
    alloc: Global,
    log: &Log,
    places: &Places,
    shown: &Record,
    found: &mut VariableList,
) -> Result<Vec<Pos>, AllocError>
    ensures { IfOk result
        (λ ps. AreNeeded log.now.entries (file_in places.now).places shown.now ps.items) }
{
    found.clear();
    find_named(log, places, shown, found)?;
    let mut done = 0;
    'found: while let Some(at) = found_at(found, done) {
        find_cited(log, places, at, found)?;
        done += 1;
    }
    let mut order = Vec::from_slice(alloc, found.as_slice())?;
    order.sort_unstable();
    Ok(order)
}
