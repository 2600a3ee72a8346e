//! Runs in which a call fails: with which status they end, what they have answered by then, and that a check accepts what they
//! have proved of it.

use crate::check_tests::check;
use crate::worked::SOLVE;
use cube_workers::NoGate;
use smt_check::status::Status;
use smt_desk::memory::{MemSink, MemSource};
use smt_run::running::run;
use std::alloc::{AllocError, AllocGlobal, Global};
use std::process::Abort;
use std::sync::Wait;
use std::test::Fail;
use std::thread::Threads;

/// A script, in whose run each call fails in turn.
#[derive(Clone, Copy)]
struct Faulted {
    words: &'static [&'static str],
    script: &'static [u8],
    /// What may be answered where no call fails: the definitions leave a check over several cubes more than one answer.
    answers: &'static [&'static [u8]],
}

/// A name that is declared again behind a pop.
const DECLARED_AGAIN: Faulted = Faulted {
    words: SOLVE,
    script: b"(push 1) (declare-const x (_ BitVec 8)) (assert (distinct x x)) (check-sat) (pop 1) (declare-const x (_ BitVec 4)) (assert (= x #xf)) (check-sat) (get-value (x))\n",
    answers: &[b"unsat\nsat\n((x #b1111))\n"],
};

/// Each pair of values of two symbols is excluded: four cubes, which four workers search.
const FOUR_CUBES: Faulted = Faulted {
    words: &[
        "solve",
        "PROOF",
        "--workers",
        "4",
        "--cubes",
        "2",
        "--budget",
        "0",
    ],
    script: b"(declare-const p Bool)(declare-const q Bool)(assert (or p q))(assert (or p (not q)))(assert (or (not p) q))(assert (or (not p)(not q)))(check-sat)",
    answers: &[b"unsat\n", b"unknown\n"],
};

/// An assertion that is popped between two checks.
const POPPED: &[u8] =
    b"(declare-const p Bool) (assert p) (push 1) (assert (not p)) (check-sat) (pop 1) (check-sat)\n";

const CHECK: &[u8] = b"(check-sat)";

const VERDICTS: [&[u8]; 3] = [b"sat\n", b"unsat\n", b"unknown\n"];

/// The end of a run: its status, and what it answered and wrote.
#[derive(Drop)]
struct RunEnd {
    status: Status,
    answers: Vec<u8>,
    proof: Vec<u8>,
}

/// The end of a run in pieces of so many bytes, where these calls fail of the script, of the answers and of the proof.
fn run_end(
    rt: &(impl Threads + Wait + Sync + AllocGlobal),
    words: &[&str],
    script: &[u8],
    piece: usize,
    failing: [&[u64]; 3],
) -> RunEnd {
    let alloc = rt.alloc();
    let mut script = MemSource::new(script, piece.max(1), failing[0]);
    let mut unread = MemSource::new(b"", 1, &[]);
    let mut answers = MemSink::new(alloc, piece.max(1), failing[1]);
    let mut proof = MemSink::new(alloc, piece.max(1), failing[2]);
    let status = run(
        rt,
        alloc,
        words,
        &mut script,
        &mut unread,
        &mut answers,
        &mut proof,
        &NoGate,
    );
    RunEnd {
        status,
        answers: answers.into_bytes(),
        proof: proof.into_bytes(),
    }
}

/// What fails.
#[derive(Clone, Copy)]
enum Stream {
    Script,
    Answers,
    Proof,
}

impl Stream {
    fn text(self) -> &'static str {
        match self {
            Stream::Script => "the script",
            Stream::Answers => "the answers",
            Stream::Proof => "the proof",
        }
    }

    /// The status of a run in which a call of it failed.
    fn fault(self) -> Status {
        match self {
            Stream::Script => Status::ReadFault,
            Stream::Answers => Status::WriteFault,
            Stream::Proof => Status::WriteFault,
        }
    }
}

/// The end of a run in pieces of a byte, where the call of this number fails of the stream, counted from 0.
fn run_end_behind(
    rt: &(impl Threads + Wait + Sync + AllocGlobal),
    row: &Faulted,
    stream: Stream,
    call: u64,
) -> RunEnd {
    let calls = [call];
    let failing: [&[u64]; 3] = match stream {
        Stream::Script => [&calls, &[], &[]],
        Stream::Answers => [&[], &calls, &[]],
        Stream::Proof => [&[], &[], &calls],
    };
    run_end(rt, row.words, row.script, 1, failing)
}

/// The verdicts among the lines that are whole, and how many they are.
fn verdicts_of(alloc: Global, answers: &[u8]) -> Result<(Vec<u8>, usize), AllocError> {
    let mut verdicts: Vec<u8> = Vec::new(alloc);
    let mut line: Vec<u8> = Vec::new(alloc);
    let mut count = 0usize;
    for byte in answers {
        line.push(*byte)?;
        if *byte == b'\n' {
            if VERDICTS.iter().any(|verdict| *verdict == line.as_slice()) {
                verdicts.extend_from_slice(line.as_slice())?;
                count = count.saturating_add(1);
            }
            line.clear();
        }
    }
    Ok((verdicts, count))
}

/// The script up to the end of its check of this number, counted from 1.
fn script_cut(script: &[u8], checks: usize) -> &[u8] {
    let mut found = 0usize;
    for at in 0..script.len() {
        if script[at..].starts_with(CHECK) {
            found = found.saturating_add(1);
            if found == checks {
                let end = at.saturating_add(CHECK.len());
                return &script[..end.min(script.len())];
            }
        }
    }
    script
}

/// How many lines, fewer than ten, a record has behind this one, which begins it; `None` where the line begins none.
fn lines_behind(line: &[u8]) -> Option<u8> {
    if line.starts_with(b"unsat ") {
        return Some(0);
    }
    if line.starts_with(b"sat ") || line.starts_with(b"unknown ") {
        let mut last = 0u8;
        for byte in line {
            if *byte != b'\n' {
                last = (*byte).saturating_sub(b'0');
            }
        }
        return Some(last);
    }
    None
}

/// The proof up to the end of its record of this number, counted from 1.
fn proof_cut(alloc: Global, proof: &[u8], records: usize) -> Result<Vec<u8>, AllocError> {
    let mut cut: Vec<u8> = Vec::new(alloc);
    let mut line: Vec<u8> = Vec::new(alloc);
    let mut found = 0usize;
    let mut behind = 0u8;
    for byte in proof {
        if found == records && behind == 0 {
            return Ok(cut);
        }
        cut.push(*byte)?;
        line.push(*byte)?;
        if *byte == b'\n' {
            match lines_behind(line.as_slice()) {
                Some(lines) if behind == 0 => {
                    found = found.saturating_add(1);
                    behind = lines;
                }
                _ => behind = behind.saturating_sub(1),
            }
            line.clear();
        }
    }
    Ok(cut)
}

/// Whether a check of the script up to its last check whose answer is whole, and of the proof up to the record of that check,
/// accepts what was answered.
fn is_accepted(
    rt: &(impl Threads + Wait + Sync + AllocGlobal),
    script: &[u8],
    end: &RunEnd,
) -> Result<bool, AllocError> {
    let (verdicts, checks) = verdicts_of(rt.alloc(), end.answers.as_slice())?;
    if checks == 0 {
        return Ok(true);
    }
    let proof = proof_cut(rt.alloc(), end.proof.as_slice(), checks)?;
    let mut told = MemSink::new(rt.alloc(), 1000, &[]);
    let script = script_cut(script, checks);
    let status = check(rt, script, proof.as_slice(), 1000, &mut told);
    Ok(status == Status::Done && told.bytes().starts_with(verdicts.as_slice()))
}

/// Whether the answers are a front of what may be answered, and all of it where the run is `whole`.
fn may_be_answered(row: &Faulted, answers: &[u8], whole: bool) -> bool {
    for all in row.answers {
        if all.starts_with(answers) && (!whole || all.len() == answers.len()) {
            return true;
        }
    }
    false
}

/// Whether the call of this number was made, and failed. `None` where the run is none that meets this fault, and none that meets
/// no fault.
fn is_met(
    rt: &(impl Threads + Wait + Sync + AllocGlobal),
    row: &Faulted,
    stream: Stream,
    call: u64,
) -> Result<Option<bool>, AllocError> {
    let end = run_end_behind(rt, row, stream, call);
    let met = end.status == stream.fault();
    // A call gives or takes one byte, and the last one of the script tells its end.
    let counted = match stream {
        Stream::Script => met == (call <= row.script.len() as u64),
        Stream::Answers => is_counted(end.answers.len() as u64, call, met),
        Stream::Proof => is_counted(end.proof.len() as u64, call, met),
    };
    let ended = met || end.status == Status::Done;
    let answered = may_be_answered(row, end.answers.as_slice(), !met);
    let accepted = is_accepted(rt, row.script, &end)?;
    if counted && ended && answered && accepted {
        return Ok(Some(met));
    }
    Ok(None)
}

/// Whether so many bytes are written by single calls where the call of this number fails: as many as it says, and no more where
/// it was not made.
fn is_counted(written: u64, call: u64, met: bool) -> bool {
    written == call || (!met && written < call)
}

/// The number of the first call of the stream that is not met as it should be, while one after the other fails until one is not
/// made.
fn first_wrong(
    rt: &(impl Threads + Wait + Sync + AllocGlobal),
    row: &Faulted,
    stream: Stream,
) -> Result<Option<u64>, AllocError> {
    for call in 0..2000u64 {
        match is_met(rt, row, stream, call)? {
            Some(true) => {}
            Some(false) => return Ok(None),
            None => return Ok(Some(call)),
        }
    }
    Ok(Some(2000))
}

/// Each call of each stream is met as it should be.
fn fail_in_turn(
    rt: &(impl Threads + Wait + Sync + Abort + AllocGlobal),
    row: &Faulted,
) -> Result<(), Fail> {
    for stream in [Stream::Script, Stream::Answers, Stream::Proof] {
        if let Some(call) = first_wrong(rt, row, stream)? {
            let what = stream.text();
            panic!(rt; "{what}, call {call}");
        }
    }
    Ok(())
}

#[test]
fn each_call_of_a_session_fails_in_turn(rt: HostRuntime) -> Result<(), Fail> {
    fail_in_turn(&rt, &DECLARED_AGAIN)
}

#[test]
fn each_call_of_a_run_of_workers_fails_in_turn(rt: HostRuntime) -> Result<(), Fail> {
    fail_in_turn(&rt, &FOUR_CUBES)
}

#[test]
fn first_calls_fail(rt: HostRuntime) {
    // The first answer cannot be written: its record is in the proof.
    let end = run_end(&rt, SOLVE, POPPED, 1000, [&[], &[0], &[]]);
    assert!(rt; end.status == Status::WriteFault);
    assert!(rt; end.answers.is_empty());
    let mut told = MemSink::new(rt.alloc(), 1000, &[]);
    let script = script_cut(POPPED, 1);
    let status = check(&rt, script, end.proof.as_slice(), 1000, &mut told);
    assert!(rt; status == Status::Done);
    assert!(rt; told.bytes() == b"unsat\naccepted 1\n".as_slice());
    // A proof that is to be checked cannot be read: nothing is told.
    let mut told = MemSink::new(rt.alloc(), 1000, &[]);
    let status = run(
        &rt,
        rt.alloc(),
        &["check", "PROOF"],
        &mut MemSource::new(POPPED, 1000, &[]),
        &mut MemSource::new(end.proof.as_slice(), 1000, &[0]),
        &mut told,
        &mut MemSink::new(rt.alloc(), 1, &[]),
        &NoGate,
    );
    assert!(rt; status == Status::ReadFault);
    assert!(rt; told.bytes().is_empty());
}
