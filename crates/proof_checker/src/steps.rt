// The steps of checks.

ghost use Rattle.std.specs.Prelude.{◌≡◌, IfOk, OnErr, MatchBool};
ghost use Rattle.proof_log.specs.declared.entry.Entry.{Entry as Step};
ghost use Rattle.proof_log.specs.Logs.{state_of};
ghost use Rattle.proof_log.specs.Faults.{IsValid};
ghost use Rattle.faded_log.specs.Faded.{IsHeld};
ghost use Rattle.proof_text.specs.Lines.{IsLine};
ghost use Rattle.accepted_proof.specs.Turns.{IsOfScript};
ghost use Rattle.accepted_proof.specs.Judged.{IsStepOf};
ghost use Rattle.proof_checker.specs.Checkers.{IsTaken};

use crate::deletions::{Deleted, cites_deleted};
use crate::lines::entry_of;
use faded_log::FadedLog;
use proof_log::entry::Entry;
use proof_text::line::Line;
use script_state::state::State;
use std::alloc::{AllocError, Global};
use std::mem;

/// Adds a step where it is valid, and tells whether it is. For want of memory all is as before.
fn try_step(
    alloc: Global,
    state: &mut State,
    log: &mut FadedLog,
    entry: Entry,
) -> Result<bool, AllocError>
    requires held { IsHeld state.old.terms.nodes log.old }
    requires script { IsOfScript state.old entry }
    ensures ok { IfOk result (λ taken. MatchBool taken
        (IsValid state.old.terms (state_of state.old.terms.nodes log.old.entries) entry
        × IsTaken state.old log.old entry state.new log.new)
        ((IsValid state.old.terms (state_of state.old.terms.nodes log.old.entries) entry → ⊥)
        × (state.new ≡ state.old) × (log.new ≡ log.old))) }
    ensures err { OnErr result ((state.new ≡ state.old) × (log.new ≡ log.old)) }
{
    let (mut terms, rest) = mem::replace(state, State::new(alloc)).into_parts();
    let taken = log.try_push(alloc, &mut terms, entry);
    *state = State::from_parts(terms, rest);
    taken
}

/// Adds the step of a line where it is valid and cites no deleted place, and tells whether it is so. For want of memory all
/// is as before.
pub fn take_step(
    alloc: Global,
    state: &mut State,
    log: &mut FadedLog,
    deleted: &Deleted,
    line: &Line,
) -> Result<bool, AllocError>
    requires held { IsHeld state.old.terms.nodes log.old }
    requires written { IsLine line.now }
    ensures ok { IfOk result (λ taken. MatchBool taken
        ((e : Step) × IsStepOf state.old log.old.entries deleted.now line.now e
        × IsTaken state.old log.old e state.new log.new)
        (((e : Step) → IsStepOf state.old log.old.entries deleted.now line.now e → ⊥)
        × (state.new ≡ state.old) × (log.new ≡ log.old))) }
    ensures err { OnErr result ((state.new ≡ state.old) × (log.new ≡ log.old)) }
{
    if cites_deleted(deleted, line) {
        return Ok(false);
    }
    match entry_of(alloc, state, log, line)? {
        Some(entry) => try_step(alloc, state, log, entry),
        None => Ok(false),
    }
}
