// A run of the program over any source and any sinks.

ghost use Rattle.std.specs.Prelude.{◌≡◌, ◌≢◌, ◌+◌, ◌++◌, ◌⊎◌, ◌≤◌, ℕ, List, IfErr, IfOk, OnOk, length, map};
ghost use Rattle.std.specs.Io.KnownBytes.{Appends};
ghost use Rattle.accepted_proof.specs.Searching.{Limits};
ghost use Rattle.proof_text.specs.declared.line.Format.TheVariants.{Two};
ghost use Rattle.accepted_proof.specs.Answers.{header_of};
ghost use Rattle.smt_session.specs.Sessions.{AreSettings, limits_of};
ghost use Rattle.tool_words.specs.declared.words.Command.{Command as Kind};
ghost use Rattle.tool_words.specs.Words.{IsTo, AreTaken};
ghost use Rattle.smt_run.specs.Asking.{settings_of, IsToSolveWithin, IsToDrillWithin};
ghost use Rattle.smt_run.specs.Drilling.{Drills};
ghost use Rattle.smt_check.specs.Runs.{AddsTo, ReadsBytes, ReadsWithin, IsLater, HasCause, counts, input_limit};
ghost use Rattle.smt_run.specs.Solving.{BeginsWith, StopsWriting, FailsToRead};
ghost use Rattle.smt_run.specs.Beside.{Told, IsBeside, IsAllAnswered, IsPrefix, IsAnsweredToRead, IsReadOut};
ghost use Rattle.smt_run.specs.Commands.{Stream, files, stream, IsEnd, IsNoProof, Solves, Checks, AddsToFiles};
ghost use Rattle.smt_run.specs.Refuting.{Refutes};
ghost use Rattle.smt_run.specs.Searching.{Searches};
ghost use Rattle.smt_run.specs.Converting.{Converts};
ghost use Rattle.smt_check.specs.Checks.{ReadsForStatus, HasCheckCause, ToldOf, IsEndOfCheck, IsFrontOfCheck, IsRightlyAccepted};

use crate::answering::end_status;
use crate::converting::convert_proof;
use crate::drilling::tell;
use crate::refuting::check_refutation;
use crate::scripts::answer_script;
use crate::searching::search_clauses;
use accepted_proof::{accepted_proofs_are_right, answers_are_right, what_is_printed_is_right};
use cube_workers::Gate;
use drill_script::given::Given;
use drill_script::kept::Kept;
use drill_script::script::drill_script;
use proof_checker::{accepted_proofs_pass, texts_are_judged_one_way, what_is_accepted_is_right};
use proof_conversion::header::{Numbers, push_header};
use smt_check::checking::check;
use smt_check::status::Status;
use smt_desk::stream::{Sink, Source, write_whole};
use smt_session::settings::Settings;
use smt_text::text::Text;
use std::alloc::{AllocError, Global};
use std::sync::Wait;
use std::thread::Threads;
use tool_words::command_line::plan;
use tool_words::words::{Command, Draw, Options, Unplanned};
use trimmed_proofs::trimmed_proofs_are_accepted;

/// How a session searches where the words ask for this.
fn settings_of(options: Options) -> Settings
    ensures { result ≡ settings_of options }
{
    Settings {
        workers: options.workers,
        cubes: options.cubes,
        budget: options.budget,
    }
}

/// Writes the first line of a proof, which has the limits of its checks.
fn open_proof<Q: Sink>(alloc: Global, settings: &Settings, proof: &mut Q) -> Result<(), Status>
    ensures ok { OnOk result
        (Appends (Q.written proof.old) (Q.written proof.new)
        (header_of Two (limits_of settings.now))) }
    ensures added { (bytes : List ℕ) × (rest : List ℕ)
        × Appends (Q.written proof.old) (Q.written proof.new) bytes
        × (header_of Two (limits_of settings.now) ≡ bytes ++ rest) }
    ensures later { IsLater (counts 0 0 (Q.faults proof.old)) (counts 0 0 (Q.faults proof.new)) }
    ensures stopped { IfErr result StopsWriting }
    ensures cause { IfErr result
        (HasCause (counts 0 0 (Q.faults proof.old)) (counts 0 0 (Q.faults proof.new))) }
{
    let mut text = Text::new(alloc);
    let numbers = Numbers {
        cubes: settings.cubes as u64,
        budget: settings.budget as u64,
    };
    push_header(numbers, &mut text)?;
    match write_whole(proof, text.as_slice()) {
        Ok(()) => Ok(()),
        Err(_) => Err(Status::WriteFault),
    }
}

/// How many bytes are asked for at most in one read.
pub(crate) const PIECE: usize = 1 << 16;

/// So many bytes.
pub(crate) fn zeros(alloc: Global, size: usize) -> Result<Vec<u8>, AllocError>
    ensures { IfOk result (λ v. length v.items ≡ size) }
{
    vec![in alloc; 0u8; size]
}

/// Writes the first line of a proof, and answers a script to its end, each check as the settings say.
fn solve<R: Threads + Wait + Sync, S: Source, W: Sink, Q: Sink, G: Gate + Sync>(
    rt: &R,
    alloc: Global,
    settings: Settings,
    script: &mut S,
    answers: &mut W,
    proof: &mut Q,
    gate: &G,
) -> Status
    requires settings { AreSettings settings }
    ensures usage { result ≢ Status.Usage }
    ensures beside { Told (S.left script.old) (W.written answers.old) (W.written answers.new)
        (Q.written proof.old) (Q.written proof.new) (IsBeside (limits_of settings)) }
    ensures whole { IsEnd result
        → Told (S.left script.old) (W.written answers.old) (W.written answers.new)
        (Q.written proof.old) (Q.written proof.new) (IsAllAnswered (limits_of settings) result) }
    ensures prefix { Told (S.left script.old) (W.written answers.old) (W.written answers.new)
        (Q.written proof.old) (Q.written proof.new)
        (λ text answered proved. IsPrefix (limits_of settings) text answered) }
    ensures answered { FailsToRead result
        → Told (S.left script.old) (W.written answers.old) (W.written answers.new)
        (Q.written proof.old) (Q.written proof.new)
        (IsAnsweredToRead (limits_of settings) result (S.left script.new)) }
    ensures at_end { IsEnd result → IsReadOut (S.left script.old) (S.left script.new) }
    ensures within { result ≢ Status.TooLong → ReadsWithin (S.left script.old) (S.left script.new) }
    ensures too_long { result ≡ Status.TooLong
        → ReadsBytes (input_limit + 1) (S.left script.old) (S.left script.new) }
    ensures answers { AddsTo (W.written answers.old) (W.written answers.new) }
    ensures proof { AddsTo (Q.written proof.old) (Q.written proof.new) }
    ensures header { result ≢ Status.WriteFault → result ≢ Status.NoMemory
        → BeginsWith (header_of Two (limits_of settings)) (Q.written proof.old)
        (Q.written proof.new) }
    ensures later { IsLater
        (counts (S.faults script.old) (W.faults answers.old) (Q.faults proof.old))
        (counts (S.faults script.new) (W.faults answers.new) (Q.faults proof.new)) }
    ensures cause { HasCause
        (counts (S.faults script.old) (W.faults answers.old) (Q.faults proof.old))
        (counts (S.faults script.new) (W.faults answers.new) (Q.faults proof.new)) result }
{
    answers_are_right();
    what_is_printed_is_right();
    trimmed_proofs_are_accepted();
    accepted_proofs_are_right();
    accepted_proofs_pass();
    match open_proof(alloc, &settings, proof) {
        Ok(()) => {}
        Err(status) => return status,
    }
    let mut buffer = match zeros(alloc, PIECE) {
        Ok(buffer) => buffer,
        Err(_) => return Status::NoMemory,
    };
    match answer_script(
        rt,
        alloc,
        settings,
        &mut buffer,
        script,
        answers,
        proof,
        gate,
    ) {
        Ok(refused) => end_status(refused),
        Err(status) => status,
    }
}

/// Draws a script and answers it to its end, each check as the settings say, and tells the summary of the answers.
fn drill<R: Threads + Wait + Sync, W: Sink, Q: Sink, G: Gate + Sync>(
    rt: &R,
    alloc: Global,
    settings: Settings,
    draw: Draw,
    answers: &mut W,
    proof: &mut Q,
    gate: &G,
) -> Status
    requires settings { AreSettings settings }
    requires size { draw.size ≤ 1000 }
    ensures usage { result ≢ Status.Usage }
    ensures drills { (script : Stream)
        → Drills (limits_of settings) draw.seed draw.size result
        (files script (stream (W.written answers.old) (W.faults answers.old))
        (stream (Q.written proof.old) (Q.faults proof.old)))
        (files script (stream (W.written answers.new) (W.faults answers.new))
        (stream (Q.written proof.new) (Q.faults proof.new))) }
    ensures answers { AddsTo (W.written answers.old) (W.written answers.new) }
    ensures proof { AddsTo (Q.written proof.old) (Q.written proof.new) }
    ensures later { IsLater (counts 0 (W.faults answers.old) (Q.faults proof.old))
        (counts 0 (W.faults answers.new) (Q.faults proof.new)) }
{
    let text = match drill_script(alloc, draw.seed, draw.size) {
        Ok(text) => text,
        Err(_) => return Status::NoMemory,
    };
    let mut given = Given::new(text.as_slice());
    let mut kept = Kept::new(alloc);
    let solved = solve(rt, alloc, settings, &mut given, &mut kept, proof, gate);
    tell(alloc, draw, solved, &kept, answers)
}

/// Checks a script and its proof, and tells what was found.
fn check_proof<S: Source, P: Source, W: Sink>(
    alloc: Global,
    script: &mut S,
    proof: &mut P,
    answers: &mut W,
) -> Status
    ensures usage { result ≢ Status.Usage }
    ensures ended { IsEnd result → ToldOf (S.left script.old) (P.left proof.old)
        (W.written answers.old) (W.written answers.new) (IsEndOfCheck result) }
    ensures right { result ≡ Status.Done → ToldOf (S.left script.old) (P.left proof.old)
        (W.written answers.old) (W.written answers.new) IsRightlyAccepted }
    ensures refused { result ≡ Status.Refused → ToldOf (S.left script.old) (P.left proof.old)
        (W.written answers.old) (W.written answers.new) IsNoProof }
    ensures front { ToldOf (S.left script.old) (P.left proof.old)
        (W.written answers.old) (W.written answers.new) IsFrontOfCheck }
    ensures read { ReadsForStatus (S.left script.old) (S.left script.new)
        (P.left proof.old) (P.left proof.new) result }
    ensures answers { AddsTo (W.written answers.old) (W.written answers.new) }
    ensures later { IsLater
        (counts (S.faults script.old) (W.faults answers.old) (P.faults proof.old))
        (counts (S.faults script.new) (W.faults answers.new) (P.faults proof.new)) }
    ensures cause { HasCheckCause
        (counts (S.faults script.old) (W.faults answers.old) (P.faults proof.old))
        (counts (S.faults script.new) (W.faults answers.new) (P.faults proof.new)) result }
{
    what_is_accepted_is_right();
    accepted_proofs_pass();
    texts_are_judged_one_way();
    let mut buffer = match zeros(alloc, PIECE) {
        Ok(buffer) => buffer,
        Err(_) => return Status::NoMemory,
    };
    check(alloc, &mut buffer, script, proof, answers)
}

/// Does what the words ask for. `solve` answers the script on `answers`, each check by as many workers and within the limits that
/// the words give, and writes its proof to `proof_out`, in the second format, what each check's record needs before its answer. `check` reads the script and the proof
/// `proof_in`, and tells on `answers` the verdict of each record as soon as it is accepted, and then what is judged of them.
/// `lrat` reads clauses in place of a script and then the refutation `proof_in`, and tells what is judged of them. `cnf` reads
/// clauses in place of a script and searches them, writes a refutation to `proof_out`, and tells what it found. `convert` reads
/// no script: it reads the proof `proof_in`, writes it in the second format to `proof_out`, and tells how many records it has.
/// `drill` reads nothing: it answers the script that it draws as `solve` does, and tells how many checks had each verdict, and the
/// last word.
///
/// Several workers are threads, which wait for each other's turns, and pass the gate at points of their work. Each clause is
/// promised of a call that returns, for any number of workers and however their turns fall.
pub fn run<R: Threads + Wait + Sync, S: Source, P: Source, W: Sink, Q: Sink, G: Gate + Sync>(
    rt: &R,
    alloc: Global,
    words: &[&str],
    script: &mut S,
    proof_in: &mut P,
    answers: &mut W,
    proof_out: &mut Q,
    gate: &G,
) -> Status
    // The words come first: where they are not taken, nothing is read or written. To read them takes memory.
    ensures usage { result ≡ Status.Usage → ¬ (AreTaken (map (λ w. w.now) words.now)) }
    ensures usage_always { ¬ (AreTaken (map (λ w. w.now) words.now)) → (result ≡ Status.Usage)
        ⊎ (result ≡ Status.NoMemory) }
    ensures untouched { result ≡ Status.Usage → (script.new ≡ script.old)
        × (proof_in.new ≡ proof_in.old)
        × (answers.new ≡ answers.old) × (proof_out.new ≡ proof_out.old) }
    // Words that are taken ask for one of the six commands.
    ensures asked { AreTaken (map (λ w. w.now) words.now)
        → (command : Kind) × IsTo command (map (λ w. w.now) words.now) }

    // `solve` reads no proof, answers the script, and writes a proof that is accepted.
    ensures solves { (limits : Limits) → IsToSolveWithin limits (map (λ w. w.now) words.now)
        → (proof_in.new ≡ proof_in.old)
        × Solves limits result
        (files (stream (S.left script.old) (S.faults script.old))
        (stream (W.written answers.old) (W.faults answers.old))
        (stream (Q.written proof_out.old) (Q.faults proof_out.old)))
        (files (stream (S.left script.new) (S.faults script.new))
        (stream (W.written answers.new) (W.faults answers.new))
        (stream (Q.written proof_out.new) (Q.faults proof_out.new))) }
    // `check` writes no proof, and judges the script and the proof that it reads.
    ensures checks { IsTo Kind.Check (map (λ w. w.now) words.now)
        → (proof_out.new ≡ proof_out.old)
        × Checks result
        (files (stream (S.left script.old) (S.faults script.old))
        (stream (W.written answers.old) (W.faults answers.old))
        (stream (P.left proof_in.old) (P.faults proof_in.old)))
        (files (stream (S.left script.new) (S.faults script.new))
        (stream (W.written answers.new) (W.faults answers.new))
        (stream (P.left proof_in.new) (P.faults proof_in.new))) }
    // `lrat` writes no proof, and judges the clauses and the refutation that it reads.
    ensures refutes { IsTo Kind.Lrat (map (λ w. w.now) words.now)
        → (proof_out.new ≡ proof_out.old)
        × Refutes result
        (files (stream (S.left script.old) (S.faults script.old))
        (stream (W.written answers.old) (W.faults answers.old))
        (stream (P.left proof_in.old) (P.faults proof_in.old)))
        (files (stream (S.left script.new) (S.faults script.new))
        (stream (W.written answers.new) (W.faults answers.new))
        (stream (P.left proof_in.new) (P.faults proof_in.new))) }
    // `cnf` reads no proof, searches the clauses that it reads, and writes a refutation.
    ensures searches { IsTo Kind.Cnf (map (λ w. w.now) words.now)
        → (proof_in.new ≡ proof_in.old)
        × Searches result
        (files (stream (S.left script.old) (S.faults script.old))
        (stream (W.written answers.old) (W.faults answers.old))
        (stream (Q.written proof_out.old) (Q.faults proof_out.old)))
        (files (stream (S.left script.new) (S.faults script.new))
        (stream (W.written answers.new) (W.faults answers.new))
        (stream (Q.written proof_out.new) (Q.faults proof_out.new))) }
    // `convert` reads no script, and writes the proof that it reads in the second format.
    ensures converts { IsTo Kind.Convert (map (λ w. w.now) words.now)
        → (script.new ≡ script.old)
        × Converts result
        (files (stream (P.left proof_in.old) (P.faults proof_in.old))
        (stream (W.written answers.old) (W.faults answers.old))
        (stream (Q.written proof_out.old) (Q.faults proof_out.old)))
        (files (stream (P.left proof_in.new) (P.faults proof_in.new))
        (stream (W.written answers.new) (W.faults answers.new))
        (stream (Q.written proof_out.new) (Q.faults proof_out.new))) }

    // `drill` reads nothing, answers the script that it draws, writes a proof that is accepted, and tells the summary.
    ensures drills { (limits : Limits) (seed size : ℕ)
        → IsToDrillWithin limits seed size (map (λ w. w.now) words.now)
        → ((script.new ≡ script.old) × (proof_in.new ≡ proof_in.old))
        × Drills limits seed size result
        (files (stream (S.left script.old) (S.faults script.old))
        (stream (W.written answers.old) (W.faults answers.old))
        (stream (Q.written proof_out.old) (Q.faults proof_out.old)))
        (files (stream (S.left script.new) (S.faults script.new))
        (stream (W.written answers.new) (W.faults answers.new))
        (stream (Q.written proof_out.new) (Q.faults proof_out.new))) }

    // Whatever the words ask for, what is written stays, and no count of faults falls.
    ensures stays { AddsToFiles
        (files (stream (S.left script.old) (S.faults script.old))
        (stream (W.written answers.old) (W.faults answers.old))
        (stream (Q.written proof_out.old) (Q.faults proof_out.old)))
        (files (stream (S.left script.new) (S.faults script.new))
        (stream (W.written answers.new) (W.faults answers.new))
        (stream (Q.written proof_out.new) (Q.faults proof_out.new))) }
    ensures later { P.faults proof_in.old ≤ P.faults proof_in.new }
{
    match plan(alloc, words) {
        Ok(plan) => match plan.command {
            Command::Solve => {
                let settings = settings_of(plan.options);
                solve(rt, alloc, settings, script, answers, proof_out, gate)
            }
            Command::Check => check_proof(alloc, script, proof_in, answers),
            Command::Lrat => check_refutation(alloc, script, proof_in, answers),
            Command::Cnf => search_clauses(alloc, script, answers, proof_out),
            Command::Convert => convert_proof(alloc, proof_in, answers, proof_out),
            Command::Drill => {
                let settings = settings_of(plan.options);
                drill(rt, alloc, settings, plan.draw, answers, proof_out, gate)
            }
        },
        Err(Unplanned::Usage) => Status::Usage,
        Err(Unplanned::NoMemory) => Status::NoMemory,
    }
}
