// Sessions.

ghost use Rattle.std.specs.Prelude.{◌≡◌, ◌≢◌, ◌≤◌, ℕ, List, [], Option, None, Err, IfOk, IfErr, OnOk, MatchBool, true, if◌then◌else◌};
ghost use Rattle.std.specs.Io.KnownBytes.{Appends};
ghost use Rattle.smt_desk.specs.Faults.{Rose};
ghost use Rattle.proof_text.specs.declared.record.Record.{Record as RecordValue};
ghost use Rattle.script_state.specs.States.{no_state, IsState, WatchesFit};
ghost use Rattle.script_state.specs.Steps.{forgotten};
ghost use Rattle.accepted_proof.specs.Searching.{Limits};
ghost use Rattle.proof_file.specs.Files.{IsFileOf, file_of};
ghost use Rattle.proof_file.specs.Places.{FileValue, no_file};
ghost use Rattle.proof_file.specs.Held.{file_in};
ghost use Rattle.smt_session.specs.Sessions.{AreHeld, IsAnswered, IsSession, AreSettings, Responds, asks_values, limits_of};
ghost use Rattle.smt_session.specs.Sessions.{CutsCheck, CutsTurn, Leaves, WritesFront};
ghost use Rattle.smt_session.specs.Parts.{AreParts, IsKept, seen_of};
ghost use Rattle.smt_session.specs.Tabled.{IsSortedRecord};

use crate::check::{run_check, verdict_of};
use crate::cores::{assumptions_text, core_text};
use crate::last::Last;
use crate::response::{Response, Stop};
use crate::settings::Settings;
use crate::texts::model_text;
use crate::values::values_text;
use crate::workspace::Workspace;
use cube_workers::Gate;
use opening_positions::TheorySteps;
use proof_file::{ProofFile, more_terms_keep_files};
use proof_log::Log;
use reached_images::Plan;
use script_state::answer::Answer;
use script_state::state::State;
use smt_desk::stream::{Sink, write_whole};
use smt_text::chunk::Chunk;
use smt_text::text::Text;
use std::alloc::{AllocError, Global};
use std::marker::Model;
use std::sync::Wait;
use std::thread::Threads;
use term_reach::Reached;

/// The state of a script's commands, the log of its checks, what of it stands in the proof file, the record of the last check, and how
/// each is searched.
#[derive(Drop)]
struct Parts {
    state: State,
    workspace: Workspace,
    file: ProofFile,
    last: Last,
    settings: Settings,
}

/// A session. Its parts are in one place, so that it costs a pointer to pass it on.
#[derive(Drop)]
pub struct Session {
    parts: Box<Parts>,
}

impl Model for Session {
    ghost use Rattle.smt_session.specs.Sessions.{SessionValue};
    ghost use Rattle.smt_session.specs.Parts.{AreParts, seen_of};

    ghost Value = { SessionValue };

    ghost view = { λ s. seen_of s.parts.value };

    ghost invariant = { λ s. AreParts s.parts.value };
}

/// Writes what the proof file gets for a check. The error is that the proof could not be written; then a front of them stands there.
fn write_lines<Q: Sink>(text: &Text, proof: &mut Q) -> Result<(), Stop>
    ensures ok { OnOk result (Appends (Q.written proof.old) (Q.written proof.new) text.now) }
    ensures cut { IfErr result (λ stop. (stop ≡ Stop.Failed)
        × WritesFront text.now (Q.written proof.old) (Q.written proof.new)) }
    ensures failed { result ≡ Err Stop.Failed → Rose (Q.faults proof.old) (Q.faults proof.new) }
    ensures later { Q.faults proof.old ≤ Q.faults proof.new }
{
    match write_whole(proof, text.as_slice()) {
        Ok(()) => Ok(()),
        Err(_) => Err(Stop::Failed),
    }
}

/// Checks the live assertions under the assumptions, and answers once what the proof file gets is written.
fn answer_check<R: Threads + Wait + Sync, Q: Sink, G: Gate + Sync>(
    rt: &R,
    alloc: Global,
    line: u64,
    state: &mut State,
    workspace: &mut Workspace,
    file: &mut ProofFile,
    last: &mut Last,
    settings: Settings,
    proof: &mut Q,
    gate: &G,
) -> Result<Response, Stop>
    requires kept { IsKept state.old workspace.old }
    requires file { IsFileOf state.old.terms.nodes workspace.old.log.entries file.old }
    requires fits { WatchesFit state.old }
    requires settings { AreSettings settings }
    ensures kept { OnOk result (IsKept state.new workspace.new) }
    ensures file { OnOk result
        (IsFileOf state.new.terms.nodes workspace.new.log.entries file.new) }
    ensures sorted { OnOk result (IsSortedRecord state.new.symbols.signatures last.new) }
    ensures response { IfOk result (λ r. Responds (limits_of settings) line Answer.Check
        state.old state.new workspace.old.log workspace.new.log
        (file_of file.old) (file_of file.new) last.old last.new r (Q.written proof.old) (Q.written proof.new)) }
    ensures cut { IfErr result (λ stop. Leaves stop
        (CutsCheck (limits_of settings) Answer.Check state.old workspace.old.log.entries
        (file_of file.old) (Q.written proof.old) (Q.written proof.new))
        (Q.written proof.old) (Q.written proof.new)) }
    ensures failed { result ≡ Err Stop.Failed → Rose (Q.faults proof.old) (Q.faults proof.new) }
    ensures later { Q.faults proof.old ≤ Q.faults proof.new }
{
    let (shown, text) = run_check(rt, alloc, state, workspace, file, settings, gate)?;
    let verdict = verdict_of(&shown);
    let response = Response::verdict(alloc, verdict)?;
    last.put(shown);
    write_lines(&text, proof)?;
    state.conclude(verdict);
    Ok(response)
}

/// Whether the values of terms are asked for.
fn asks_values(answer: &Answer) -> bool
    ensures { result ≡ asks_values answer.now }
{
    matches!(answer, Answer::Values(_))
}

/// Whether a check is asked for.
fn is_check(answer: &Answer) -> bool
    ensures { MatchBool result (answer.now ≡ Answer.Check) (answer.now ≢ Answer.Check) }
{
    matches!(answer, Answer::Check)
}

/// Forgets the terms from a number on, where values were asked for.
fn settle(state: &mut State, asked: bool, len: u32)
    requires { asked ≡ true → IsState (forgotten state.old len) }
    ensures { state.new ≡ (if asked then forgotten state.old len else state.old) }
{
    if asked {
        state.forget(len);
    }
}

/// The response to a command that asks for no check, where the last check has this record.
fn response_without_check(
    alloc: Global,
    line: u64,
    answer: Answer,
    last: &mut Last,
    state: &State,
    log: &Log,
    reached: &mut Reached,
) -> Result<Response, AllocError>
    requires session { IsSession state.now log.now }
    requires held { AreHeld state.now answer }
    requires sorted { IsSortedRecord state.now.symbols.signatures last.old }
    requires unchecked { answer ≢ Answer.Check }
    ensures response { IfOk result
        (λ r. (limits : Limits) (file : FileValue) (written : Option (List ℕ))
        → Responds limits line answer state.now state.now log.now log.now file file
        last.old last.old r written written) }
    ensures same { last.new ≡ last.old }
{
    let text = match answer {
        Answer::Done => return Response::done(alloc, state.options(), false),
        Answer::Refused(error) => return Response::refusal(alloc, line, error),
        Answer::Check => unreachable!(),
        Answer::Says(text) => return Response::line(text),
        Answer::Model => model_text(alloc, state, last)?,
        Answer::Values(asked) => values_text(alloc, state, last, asked.as_slice(), reached)?,
        Answer::Core => core_text(alloc, state, log, last)?,
        Answer::Assumptions => assumptions_text(alloc, state, log, last)?,
        Answer::Exit => return Response::done(alloc, state.options(), true),
    };
    Ok(Response::told(text))
}

/// Answers what the state says of the command on a line.
fn respond<R: Threads + Wait + Sync, Q: Sink, G: Gate + Sync>(
    rt: &R,
    alloc: Global,
    line: u64,
    answer: Answer,
    state: &mut State,
    workspace: &mut Workspace,
    file: &mut ProofFile,
    last: &mut Last,
    settings: Settings,
    proof: &mut Q,
    gate: &G,
) -> Result<Response, Stop>
    requires kept { IsKept state.old workspace.old }
    requires file { IsFileOf state.old.terms.nodes workspace.old.log.entries file.old }
    requires held { AreHeld state.old answer }
    requires fits { answer ≡ Answer.Check → WatchesFit state.old }
    requires sorted { IsSortedRecord state.old.symbols.signatures last.old }
    requires settings { AreSettings settings }
    ensures kept { OnOk result (IsKept state.new workspace.new) }
    ensures file { OnOk result
        (IsFileOf state.new.terms.nodes workspace.new.log.entries file.new) }
    ensures sorted { OnOk result (IsSortedRecord state.new.symbols.signatures last.new) }
    ensures still { asks_values answer ≡ true
        → OnOk result ((state.new ≡ state.old) × (workspace.new.log ≡ workspace.old.log)
        × (workspace.new.steps ≡ workspace.old.steps)) }
    ensures filed { asks_values answer ≡ true → OnOk result (file.new ≡ file.old) }
    ensures response { IfOk result (λ r. Responds (limits_of settings) line answer
        state.old state.new workspace.old.log workspace.new.log
        (file_of file.old) (file_of file.new) last.old last.new r (Q.written proof.old) (Q.written proof.new)) }
    ensures cut { IfErr result (λ stop. Leaves stop
        (CutsCheck (limits_of settings) answer state.old workspace.old.log.entries
        (file_of file.old) (Q.written proof.old) (Q.written proof.new))
        (Q.written proof.old) (Q.written proof.new)) }
    ensures failed { result ≡ Err Stop.Failed → Rose (Q.faults proof.old) (Q.faults proof.new) }
    ensures later { Q.faults proof.old ≤ Q.faults proof.new }
{
    if is_check(&answer) {
        drop(answer);
        return answer_check(
            rt, alloc, line, state, workspace, file, last, settings, proof, gate,
        );
    }
    let response = response_without_check(
        alloc,
        line,
        answer,
        last,
        state,
        &workspace.log,
        &mut workspace.reached,
    )?;
    Ok(response)
}

impl Parts {
    /// Does what a command says, and gives its response. After an error the parts are no session any more.
    fn command<R: Threads + Wait + Sync, Q: Sink, G: Gate + Sync>(
        &mut self,
        rt: &R,
        alloc: Global,
        chunk: &Chunk,
        proof: &mut Q,
        gate: &G,
    ) -> Result<Response, Stop>
        requires { AreParts self.old }
        ensures parts { OnOk result (AreParts self.new) }
        ensures answered { IfOk result
            (λ r. IsAnswered chunk.now (seen_of self.old) (seen_of self.new) r
            (Q.written proof.old) (Q.written proof.new)) }
        ensures cut { IfErr result (λ stop. Leaves stop
            (CutsTurn chunk.now (seen_of self.old) (Q.written proof.old) (Q.written proof.new))
            (Q.written proof.old) (Q.written proof.new)) }
        ensures failed { result ≡ Err Stop.Failed → Rose (Q.faults proof.old) (Q.faults proof.new) }
        ensures later { Q.faults proof.old ≤ Q.faults proof.new }
    {
        more_terms_keep_files();
        if self.state.assertions_made() == u32::MAX {
            return Err(Stop::NoMemory);
        }
        let len = self.state.terms().len();
        let Ok(answer) = self.state.apply(alloc, chunk) else {
            return Err(Stop::NoMemory)
        };
        let asked = asks_values(&answer);
        let response = respond(
            rt,
            alloc,
            chunk.line,
            answer,
            &mut self.state,
            &mut self.workspace,
            &mut self.file,
            &mut self.last,
            self.settings,
            proof,
            gate,
        )?;
        settle(&mut self.state, asked, len);
        Ok(response)
    }
}

impl Session {
    /// A session before its first command, each of whose checks is searched as these settings say. The one error is want of
    /// memory.
    pub fn new(alloc: Global, settings: Settings) -> Result<Session, AllocError>
        requires { AreSettings settings }
        ensures fresh { IfOk result (λ s. (s.state ≡ no_state) × (s.log.entries ≡ [])
            × (s.shown ≡ None) × (file_in s.file ≡ no_file)) }
        ensures limits { IfOk result (λ s. s.limits ≡ limits_of settings) }
    {
        let log = Log::new(alloc)?;
        let steps = TheorySteps::new(alloc)?;
        let file = ProofFile::new(alloc);
        let parts = Parts {
            state: State::new(alloc),
            workspace: Workspace {
                log,
                steps,
                searches: Vec::new(alloc),
                reached: Reached::new(alloc),
                plan: Plan::new(alloc),
            },
            file,
            last: Last::new(),
            settings,
        };
        let parts = Box::new(alloc, parts)?;
        Ok(Session { parts })
    }

    /// Does what a command says: gives the session behind it, and its response. A check's lines and record are written before
    /// the response is given. After an error there is no session any more; for want of numbers of assertions it is that of
    /// want of memory. Where a write failed, the proof has a front of the check's lines; for want of memory nothing is written.
    ///
    /// Where the settings name several workers, each searches cubes of a check in a thread of its own, and waits for the others'
    /// turns. What is promised is promised of a call that returns. The workers pass the gate at points of their work.
    pub fn command<R: Threads + Wait + Sync, Q: Sink, G: Gate + Sync>(
        self,
        rt: &R,
        alloc: Global,
        chunk: &Chunk,
        proof: &mut Q,
        gate: &G,
    ) -> Result<(Session, Response), Stop>
        ensures answered { IfOk result (λ r. IsAnswered chunk.now self r.0 r.1
            (Q.written proof.old) (Q.written proof.new)) }
        ensures cut { IfErr result (λ stop. Leaves stop
            (CutsTurn chunk.now self (Q.written proof.old) (Q.written proof.new))
            (Q.written proof.old) (Q.written proof.new)) }
        ensures failed { result ≡ Err Stop.Failed → Rose (Q.faults proof.old) (Q.faults proof.new) }
        ensures later { Q.faults proof.old ≤ Q.faults proof.new }
    {
        let Session { mut parts } = self;
        match parts.command(rt, alloc, chunk, proof, gate) {
            Ok(response) => Ok((Session { parts }, response)),
            Err(stop) => {
                drop(parts);
                Err(stop)
            }
        }
    }
}
