// A script and its proof, read in pieces and checked.

ghost use Rattle.std.specs.Prelude.{◌≡◌, ◌≢◌, ◌⊎◌, ◌<◌, ◌≤◌, ℕ, IfOk, IfErr, IfSome, MatchResult, OnErr, false, length, take};
ghost use Rattle.std.specs.Io.KnownBytes.{Appends};
ghost use Rattle.std.specs.List.{flat_map};
ghost use Rattle.smt_desk.specs.Faults.{Rose};
ghost use Rattle.smt_desk.specs.Meters.{room};
ghost use Rattle.accepted_proof.specs.Answers.{verdict_text};
ghost use Rattle.proof_checker.specs.Checked.{IsJudged};
ghost use Rattle.proof_checker.specs.Checkings.{verdicts_by};
ghost use Rattle.smt_check.specs.Runs.{AddsTo, IsLater, HasCause, counts};
ghost use Rattle.smt_check.specs.Checks.{StopsReading, TakesScript, TakesProof, ReadsBoth, ReadsForStatus, HasCheckCause, status_of, ToldOf, IsEndOfCheck, AreKnown, IsFrontOfCheck};

use crate::reading::{INPUT_LIMIT, read_piece};
use crate::status::Status;
use accepted_proof::refusal::Refusal;
use proof_checker::checking::{Checking, Judgement, Progress};
use proof_checker::report::{end_line, verdict_line};
use script_state::answer::Verdict;
use smt_desk::meter::Meter;
use smt_desk::stream::{Sink, Source, write_whole};
use std::alloc::Global;

/// Feeds the next piece of the script, whose bytes the meter counts, or its end.
fn read_script<S: Source>(
    checking: &mut Checking,
    buffer: &mut [u8],
    script: &mut S,
    meter: &mut Meter,
) -> Result<(), Status>
    requires room { 0 < length buffer.old }
    requires unended { checking.old.inputs.script_ended ≡ false }
    ensures ok { IfOk result
        (λ _. TakesScript checking.old checking.new (room meter.old) (room meter.new)
        (S.left script.old) (S.left script.new)) }
    ensures err { IfErr result
        (StopsReading (room meter.old) (S.left script.old) (S.left script.new)) }
    ensures later { S.faults script.old ≤ S.faults script.new }
    ensures cause { IfErr result
        (HasCause (counts (S.faults script.old) 0 0) (counts (S.faults script.new) 0 0)) }
{
    let size = read_piece(script, buffer, meter)?;
    if size == 0 {
        checking.end_script();
        return Ok(());
    }
    checking.feed_script(&buffer[..size])?;
    Ok(())
}

/// Feeds the next piece of the proof, whose bytes the meter counts, or its end.
fn read_proof<P: Source>(
    checking: &mut Checking,
    buffer: &mut [u8],
    proof: &mut P,
    meter: &mut Meter,
) -> Result<(), Status>
    requires room { 0 < length buffer.old }
    requires unended { checking.old.inputs.proof_ended ≡ false }
    ensures ok { IfOk result
        (λ _. TakesProof checking.old checking.new (room meter.old) (room meter.new)
        (P.left proof.old) (P.left proof.new)) }
    ensures err { IfErr result
        (StopsReading (room meter.old) (P.left proof.old) (P.left proof.new)) }
    ensures later { P.faults proof.old ≤ P.faults proof.new }
    ensures cause { IfErr result
        (HasCause (counts (P.faults proof.old) 0 0) (counts (P.faults proof.new) 0 0)) }
{
    let size = read_piece(proof, buffer, meter)?;
    if size == 0 {
        checking.end_proof();
        return Ok(());
    }
    checking.feed_proof(&buffer[..size])?;
    Ok(())
}

/// Tells the verdict of a record that is accepted.
fn tell<W: Sink>(answers: &mut W, verdict: Verdict) -> Result<(), Status>
    ensures bytes { MatchResult result
        (λ _. Appends (W.written answers.old) (W.written answers.new) (verdict_text verdict))
        (λ _. (n : ℕ) × (n < length (verdict_text verdict))
        × Appends (W.written answers.old) (W.written answers.new)
        (take n (verdict_text verdict))) }
    ensures status { IfErr result (λ s. s ≡ Status.WriteFault) }
    ensures later { W.faults answers.old ≤ W.faults answers.new }
    ensures cause { OnErr result (Rose (W.faults answers.old) (W.faults answers.new)) }
{
    match write_whole(answers, verdict_line(verdict)) {
        Ok(()) => Ok(()),
        Err(_) => Err(Status::WriteFault),
    }
}

/// Checks a script and its proof, which are read into the buffer piece by piece, each no further than the check needs it, and
/// tells the verdict of each record as soon as it is accepted. The error is the status of a run that ends before.
fn check_texts<S: Source, P: Source, W: Sink>(
    alloc: Global,
    buffer: &mut [u8],
    script: &mut S,
    proof: &mut P,
    answers: &mut W,
) -> Result<Judgement, Status>
    requires { 0 < length buffer.old }
    ensures judged { IfOk result
        (λ j. IfSome (S.left script.old)
        (λ text. IfSome (P.left proof.old)
        (λ lines. IsJudged text lines (verdicts_by j.checker) j.refusal))) }
    ensures known { IfOk result
        (λ j. IfSome (S.left script.old)
        (λ text. IfSome (P.left proof.old)
        (λ lines. AreKnown text lines (verdicts_by j.checker)))) }
    ensures told { IfOk result
        (λ j. Appends (W.written answers.old) (W.written answers.new)
        (flat_map verdict_text (verdicts_by j.checker))) }
    ensures front { ToldOf (S.left script.old) (P.left proof.old) (W.written answers.old)
        (W.written answers.new) IsFrontOfCheck }
    ensures answers { AddsTo (W.written answers.old) (W.written answers.new) }
    ensures read { ReadsBoth (S.left script.old) (S.left script.new) (P.left proof.old)
        (P.left proof.new) result }
    ensures later { IsLater
        (counts (S.faults script.old) (W.faults answers.old) (P.faults proof.old))
        (counts (S.faults script.new) (W.faults answers.new) (P.faults proof.new)) }
    ensures cause { IfErr result
        (HasCheckCause (counts (S.faults script.old) (W.faults answers.old) (P.faults proof.old))
        (counts (S.faults script.new) (W.faults answers.new) (P.faults proof.new))) }
{
    let mut checking = Checking::new(alloc);
    let mut script_meter = Meter::new(INPUT_LIMIT);
    let mut proof_meter = Meter::new(INPUT_LIMIT);
    'texts: loop {
        match checking.advance(alloc)? {
            Progress::Done(judgement) => return Ok(judgement),
            Progress::Shown(held, verdict) => {
                checking = held;
                match tell(answers, verdict) {
                    Ok(()) => {}
                    Err(status) => {
                        drop(checking);
                        return Err(status);
                    }
                }
            }
            Progress::Script(held) => {
                checking = held;
                match read_script(&mut checking, buffer, script, &mut script_meter) {
                    Ok(()) => {}
                    Err(status) => {
                        drop(checking);
                        return Err(status);
                    }
                }
            }
            Progress::Proof(held) => {
                checking = held;
                match read_proof(&mut checking, buffer, proof, &mut proof_meter) {
                    Ok(()) => {}
                    Err(status) => {
                        drop(checking);
                        return Err(status);
                    }
                }
            }
        }
    }
}

/// The status of a check that came to its end.
fn end_status(refusal: Option<Refusal>) -> Status
    ensures { result ≡ status_of refusal }
{
    match refusal {
        None => Status::Done,
        Some(_) => Status::Refused,
    }
}

/// Checks a script and its proof. The verdict of each record is told as soon as it is accepted, before more is read; at the end it
/// is told that the proof is accepted, or where and why it is refused.
pub fn check<S: Source, P: Source, W: Sink>(
    alloc: Global,
    buffer: &mut [u8],
    script: &mut S,
    proof: &mut P,
    answers: &mut W,
) -> Status
    requires { 0 < length buffer.old }
    ensures usage { result ≢ Status.Usage }
    ensures ended { (result ≡ Status.Done) ⊎ (result ≡ Status.Refused)
        → ToldOf (S.left script.old) (P.left proof.old) (W.written answers.old)
        (W.written answers.new) (IsEndOfCheck result) }
    ensures front { ToldOf (S.left script.old) (P.left proof.old) (W.written answers.old)
        (W.written answers.new) IsFrontOfCheck }
    ensures read { ReadsForStatus (S.left script.old) (S.left script.new) (P.left proof.old)
        (P.left proof.new) result }
    ensures answers { AddsTo (W.written answers.old) (W.written answers.new) }
    ensures later { IsLater
        (counts (S.faults script.old) (W.faults answers.old) (P.faults proof.old))
        (counts (S.faults script.new) (W.faults answers.new) (P.faults proof.new)) }
    ensures cause { HasCheckCause
        (counts (S.faults script.old) (W.faults answers.old) (P.faults proof.old))
        (counts (S.faults script.new) (W.faults answers.new) (P.faults proof.new)) result }
{
    let judgement = match check_texts(alloc, buffer, script, proof, answers) {
        Ok(judgement) => judgement,
        Err(status) => return status,
    };
    let line = match end_line(alloc, &judgement) {
        Ok(line) => line,
        Err(_) => {
            drop(judgement);
            return Status::NoMemory;
        }
    };
    let refusal = judgement.refusal;
    drop(judgement);
    match write_whole(answers, line.as_slice()) {
        Ok(()) => end_status(refusal),
        Err(_) => Status::WriteFault,
    }
}
