// The lines of a part in front of its record.

ghost use Rattle.std.specs.Prelude.{◌≡◌, ◌≤◌, ◌<◌, ◌-◌, ◌∷◌, ◌++◌, [], All, IfOk, OnOk, suc, drop, length, map, Some, IsSome, if◌then◌else◌};
ghost use Rattle.std.specs.List.{flat_map, AllByRecursion};
ghost use Rattle.std.specs.Fmt.{decimal};
ghost use Rattle.proof_text.specs.Lines.{line_text, IsLine, IsNumber};
ghost use Rattle.proof_text.specs.Entries.{entry_line};
ghost use Rattle.accepted_proof.specs.Turns.{item_lines};
ghost use Rattle.proof_file.specs.Places.{placed, placed_hint};
ghost use Rattle.proof_file.specs.Trimmed.{deletion, made_from};
ghost use Rattle.proof_file.specs.Files.{HasLine, AreStepsWritten, IsStepNoted, KeepsIndex, step_lines};
ghost use Rattle.proof_file.specs.Held.{file_in};

use crate::needed::is_derived;
use crate::places::{Place, Places};
use crate::stale::StaleChains;
use cnf_base::{ClauseId, Pos};
use proof_log::Log;
use proof_log::entry::{Entry, Hints};
use proof_text::entry::write_entry;
use smt_text::number::push_number;
use smt_text::text::Text;
use std::alloc::{AllocError, Global};

fn push_spaced(out: &mut Text, n: u64) -> Result<(), AllocError>
    ensures ok { OnOk result (out.new ≡ out.old ++ 32 ∷ decimal n) }
    ensures number { IsNumber n }
{
    out.push(b' ')?;
    push_number(out, n)
}

/// Appends the line that deletes these places, or nothing for none.
pub(crate) fn write_deletion(places: &[Place], out: &mut Text) -> Result<(), AllocError>
    ensures text { OnOk result
        (out.new ≡ out.old ++ flat_map line_text (flat_map item_lines (deletion places.now))) }
    ensures line { OnOk result
        (AllByRecursion IsLine (flat_map item_lines (deletion places.now))) }
{
    if places.is_empty() {
        return Ok(());
    }
    out.push(b'd')?;
    for place in places {
        push_spaced(out, place.number())?;
    }
    out.push(b'\n')
}

/// Puts a position behind others, where its step makes a term or a variable.
fn push_made(made: &mut Vec<Pos>, at: Pos, is_made: bool) -> Result<(), AllocError>
    ensures { OnOk result
        (made.new.items ≡ (if is_made then made.old.items ++ at ∷ [] else made.old.items)) }
{
    if is_made {
        made.push(at)?;
    }
    Ok(())
}

/// The positions from this one on of the steps that are neither lemmas nor chains.
pub(crate) fn made_positions(alloc: Global, log: &Log, from: Pos) -> Result<Vec<Pos>, AllocError>
    requires { 0 < from }
    ensures { IfOk result
        (λ v. v.items ≡ made_from from (drop (from - 1) log.now.entries)) }
{
    let mut made = Vec::new(alloc);
    for at in from..log.len() {
        push_made(&mut made, at, !is_derived(log, at))?;
    }
    Ok(made)
}

/// The hints by the places at which their positions stand.
fn placed_hints(alloc: Global, hints: &Hints, places: &Places) -> Result<Hints, AllocError>
    ensures { IfOk result (λ h. h ≡ map (placed_hint (file_in places.now).places) hints.now) }
{
    let mut placed = Vec::with_capacity(alloc, hints.len())?;
    for k in 0..hints.len() {
        let hint = hints.hint(k);
        placed.push(ClauseId {
            pos: places.place_of(hint.pos).number(),
            part: hint.part,
        })?;
    }
    Hints::of(alloc, placed.as_slice())
}

/// Appends the line of a step.
fn write_line(entry: &Entry, out: &mut Text) -> Result<(), AllocError>
    requires { IsSome (entry_line entry.now) }
    ensures text { OnOk result
        (out.new ≡ out.old ++ flat_map line_text (step_lines (entry.now ∷ []))) }
    ensures line { OnOk result (AllByRecursion IsLine (step_lines (entry.now ∷ []))) }
{
    write_entry(entry, out)?;
    Ok(())
}

/// Appends the line of a step, whose hints are told by places.
fn write_placed(
    alloc: Global,
    places: &Places,
    entry: &Entry,
    out: &mut Text,
) -> Result<(), AllocError>
    requires { IsSome (entry_line entry.now) }
    ensures text { OnOk result (out.new ≡ out.old ++ flat_map line_text
        (step_lines (placed (file_in places.now).places entry.now ∷ []))) }
    ensures line { OnOk result
        (AllByRecursion IsLine (step_lines (placed (file_in places.now).places entry.now ∷ []))) }
{
    match entry {
        Entry::Chain(clause, hints) => {
            let hints = placed_hints(alloc, hints, places)?;
            let clause = clause.copy(alloc)?;
            write_line(&Entry::Chain(clause, hints), out)
        }
        Entry::Node(_) => write_line(entry, out),
        Entry::Leaf(_) => write_line(entry, out),
        Entry::Encode(_) => write_line(entry, out),
        Entry::Selector(_, _) => write_line(entry, out),
        Entry::Rewrite(_) => write_line(entry, out),
        Entry::Equal(_, _) => write_line(entry, out),
        Entry::Lemma(_) => write_line(entry, out),
    }
}

/// Notes a step that gets a place, where it is a chain.
fn note(alloc: Global, at: Pos, entry: &Entry, chains: &mut StaleChains) -> Result<(), AllocError>
    ensures { OnOk result (IsStepNoted at entry.now chains.old chains.new) }
{
    match entry {
        Entry::Node(_) => Ok(()),
        Entry::Leaf(_) => Ok(()),
        Entry::Encode(_) => Ok(()),
        Entry::Selector(_, _) => Ok(()),
        Entry::Chain(clause, _) => chains.note(alloc, at, clause),
        Entry::Rewrite(_) => Ok(()),
        Entry::Equal(_, _) => Ok(()),
        Entry::Lemma(_) => Ok(()),
    }
}

/// Appends the step of a position.
fn write_step(
    alloc: Global,
    log: &Log,
    at: Pos,
    places: &mut Places,
    chains: &mut StaleChains,
    out: &mut Text,
) -> Result<(), AllocError>
    requires { HasLine log.now.entries at }
    ensures steps { OnOk result (AreStepsWritten log.now.entries
        (file_in places.old) (file_in places.new) (at ∷ []) out.old out.new) }
    ensures index { OnOk result (KeepsIndex log.now.entries
        (file_in places.old) (file_in places.new) chains.old chains.new) }
{
    match log.entry(at) {
        Some(entry) => {
            write_placed(alloc, places, entry, out)?;
            note(alloc, at, entry, chains)?;
            places.put(at)?;
            Ok(())
        }
        None => unreachable!(),
    }
}

/// Appends the steps of these positions, each by the places of those before it.
pub(crate) fn write_steps(
    alloc: Global,
    log: &Log,
    positions: &[Pos],
    places: &mut Places,
    chains: &mut StaleChains,
    out: &mut Text,
) -> Result<(), AllocError>
    requires { All (HasLine log.now.entries) positions.now }
    ensures steps { OnOk result (AreStepsWritten log.now.entries
        (file_in places.old) (file_in places.new) positions.now out.old out.new) }
    ensures index { OnOk result (KeepsIndex log.now.entries
        (file_in places.old) (file_in places.new) chains.old chains.new) }
{
    for at in positions {
        write_step(alloc, log, *at, places, chains, out)?;
    }
    Ok(())
}
