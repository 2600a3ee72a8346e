// A check: its steps, its verdict, and its record.

ghost use Rattle.std.specs.Prelude.{◌≡◌, [], IfOk, OnOk, drop, length};
ghost use Rattle.script_state.specs.States.{WatchesFit};
ghost use Rattle.accepted_proof.specs.Turns.{verdict_of};
ghost use Rattle.proof_file.specs.Files.{IsFileOf, IsWrittenPart, file_of};
ghost use Rattle.smt_session.specs.Parts.{IsKept};
ghost use Rattle.smt_session.specs.Sessions.{IsChecked, AreSettings, limits_of};

use crate::finding::conclude;
use crate::preparing::{Prepared, prepare};
use crate::settings::Settings;
use crate::workspace::Workspace;
use cube_workers::Gate;
use proof_file::{ProofFile, more_terms_keep_files};
use proof_text::record::Record;
use script_state::answer::Verdict;
use script_state::state::State;
use smt_text::text::Text;
use std::alloc::{AllocError, Global};
use std::sync::Wait;
use std::thread::Threads;

/// The verdict that a record shows.
pub(crate) fn verdict_of(shown: &Record) -> Verdict
    ensures { result ≡ verdict_of shown.now }
{
    match shown {
        Record::Sat(_) => Verdict::Sat,
        Record::Unsat(_) => Verdict::Unsat,
        Record::Unknown(_) => Verdict::Unknown,
    }
}

/// Prepares a check, searches for its verdict, and gives the record that shows it. The search may wait.
fn check<R: Threads + Wait + Sync, G: Gate + Sync>(
    rt: &R,
    alloc: Global,
    state: &mut State,
    workspace: &mut Workspace,
    settings: Settings,
    gate: &G,
) -> Result<Record, AllocError>
    requires kept { IsKept state.old workspace.old }
    requires fits { WatchesFit state.old }
    requires settings { AreSettings settings }
    ensures checked { IfOk result (λ r. IsChecked (limits_of settings) state.old state.new
        workspace.old.log workspace.new.log r) }
    ensures kept { OnOk result (IsKept state.new workspace.new) }
{
    let prepared = prepare(alloc, state, workspace)?;
    let Prepared { steps, given } = prepared;
    conclude(
        rt,
        alloc,
        state,
        workspace,
        steps.as_slice(),
        given.as_slice(),
        settings,
        gate,
    )
}

/// Checks the live assertions under the assumptions within the limits: the record of the check, and what the proof file gets for it.
/// There is room for the terms that watch its arrays.
pub(crate) fn run_check<R: Threads + Wait + Sync, G: Gate + Sync>(
    rt: &R,
    alloc: Global,
    state: &mut State,
    workspace: &mut Workspace,
    file: &mut ProofFile,
    settings: Settings,
    gate: &G,
) -> Result<(Record, Text), AllocError>
    requires kept { IsKept state.old workspace.old }
    requires file { IsFileOf state.old.terms.nodes workspace.old.log.entries file.old }
    requires fits { WatchesFit state.old }
    requires settings { AreSettings settings }
    ensures kept { OnOk result (IsKept state.new workspace.new) }
    ensures file { OnOk result
        (IsFileOf state.new.terms.nodes workspace.new.log.entries file.new) }
    ensures checked { IfOk result
        (λ r. IsChecked (limits_of settings) state.old state.new workspace.old.log workspace.new.log
        r.0) }
    ensures part { IfOk result
        (λ r. IsWrittenPart state.old.terms.nodes state.old.scopes.live workspace.old.log.entries
        (drop (length workspace.old.log.entries) workspace.new.log.entries) r.0
        (file_of file.old) (file_of file.new) [] r.1) }
{
    more_terms_keep_files();
    let from = workspace.log.len();
    let shown = check(rt, alloc, state, workspace, settings, gate)?;
    let mut text = Text::new(alloc);
    file.write_part(
        alloc,
        state.terms(),
        &workspace.log,
        from,
        state.live(),
        &shown,
        &mut text,
    )?;
    Ok((shown, text))
}
