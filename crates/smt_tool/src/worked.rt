//! Worked runs of the program over texts in memory: tables of scripts and of what they are answered, and what walks them.
//!
//! A test function takes its proof some seconds, however little it holds, and a row of a table next to nothing. So there are few,
//! each of which walks many tables, and tells the table and the row that fails.

use cube_workers::NoGate;
use smt_check::status::Status;
use smt_desk::memory::{MemSink, MemSource};
use smt_run::running::run;
use std::alloc::{AllocError, AllocGlobal, Global};
use std::process::Abort;
use std::sync::Wait;
use std::test::Fail;
use std::thread::Threads;

/// The words that ask for a script to be solved within the limits that stand where none are said.
pub(crate) const SOLVE: &[&str] = &["solve", "PROOF"];

/// What stands before each of the commands that are told or taken, on line 1.
const DECLARED: &[u8] =
    b"(declare-const p Bool) (declare-const q Bool) (declare-const x (_ BitVec 8)) (declare-const w (_ BitVec 128)) (assert p)\n";

/// What stands behind each of them.
const CHECK: &[u8] = b"\n(check-sat)\n";

/// The parts, one behind the other.
pub(crate) fn joined(alloc: Global, parts: &[&[u8]]) -> Result<Vec<u8>, AllocError> {
    let mut out: Vec<u8> = Vec::new(alloc);
    for part in parts {
        out.extend_from_slice(part)?;
    }
    Ok(out)
}

/// How often the word stands in the bytes.
pub(crate) fn count(bytes: &[u8], word: &[u8]) -> usize {
    let mut found = 0usize;
    for at in 0..bytes.len() {
        if bytes[at..].starts_with(word) {
            found = found.saturating_add(1);
        }
    }
    found
}

/// The status, the answers and the proof of a script that is solved as the words ask.
pub(crate) fn solve(
    rt: &(impl Threads + Wait + Sync + AllocGlobal),
    words: &[&str],
    script: &[u8],
) -> (Status, Vec<u8>, Vec<u8>) {
    let alloc = rt.alloc();
    let mut source = MemSource::new(script, 4096, &[]);
    let mut unread = MemSource::new(b"", 1, &[]);
    let mut answers = MemSink::new(alloc, 100, &[]);
    let mut proof = MemSink::new(alloc, 100, &[]);
    let status = run(
        rt,
        alloc,
        words,
        &mut source,
        &mut unread,
        &mut answers,
        &mut proof,
        &NoGate,
    );
    (status, answers.into_bytes(), proof.into_bytes())
}

/// Whether a script that is solved as the words ask is answered so, with this status where one is said.
pub(crate) fn is_answered(
    rt: &(impl Threads + Wait + Sync + AllocGlobal),
    words: &[&str],
    script: &[u8],
    answers: &[u8],
    status: Option<Status>,
) -> bool {
    let (found, told, proof) = solve(rt, words, script);
    drop(proof);
    told.as_slice() == answers && (status.is_none() || status == Some(found))
}

/// The rows of a table.
#[derive(Clone, Copy)]
pub(crate) enum Rows {
    /// Commands that are told this error on line 2, and leave the session as it was.
    Told(&'static [u8], &'static [&'static [u8]]),
    /// Commands that are done.
    Taken(&'static [&'static [u8]]),
    /// Scripts, each with its answers.
    Answered(&'static [(&'static [u8], &'static [u8])]),
}

/// A table, with what its rows are.
#[derive(Clone, Copy)]
pub(crate) struct Table {
    pub(crate) what: &'static str,
    pub(crate) rows: Rows,
}

/// Whether a command is answered so between the declarations and a check.
fn is_answered_between(
    rt: &(impl Threads + Wait + Sync + AllocGlobal),
    command: &[u8],
    answers: &[u8],
    status: Status,
) -> Result<bool, AllocError> {
    let script = joined(rt.alloc(), &[DECLARED, command, CHECK])?;
    Ok(is_answered(rt, SOLVE, script.as_slice(), answers, Some(status)))
}

/// The number of the first of the commands that is not answered so, counted from 0.
fn first_other_command(
    rt: &(impl Threads + Wait + Sync + AllocGlobal),
    commands: &[&[u8]],
    answers: &[u8],
    status: Status,
) -> Result<Option<usize>, AllocError> {
    for at in 0..commands.len() {
        if !is_answered_between(rt, commands[at], answers, status)? {
            return Ok(Some(at));
        }
    }
    Ok(None)
}

/// The number of the first of the scripts that has other answers.
fn first_other_script(
    rt: &(impl Threads + Wait + Sync + AllocGlobal),
    scripts: &[(&[u8], &[u8])],
) -> Option<usize> {
    for at in 0..scripts.len() {
        if !is_answered(rt, SOLVE, scripts[at].0, scripts[at].1, None) {
            return Some(at);
        }
    }
    None
}

/// The number of the first row that does not hold.
fn first_wrong(
    rt: &(impl Threads + Wait + Sync + AllocGlobal),
    rows: Rows,
) -> Result<Option<usize>, AllocError> {
    match rows {
        Rows::Told(error, commands) => {
            let wanted = joined(rt.alloc(), &[b"(error \"line 2: ", error, b"\")\nsat\n"])?;
            first_other_command(rt, commands, wanted.as_slice(), Status::Refused)
        }
        Rows::Taken(commands) => first_other_command(rt, commands, b"sat\n", Status::Done),
        Rows::Answered(scripts) => Ok(first_other_script(rt, scripts)),
    }
}

/// Each row of each of the tables holds.
pub(crate) fn judge(
    rt: &(impl Threads + Wait + Sync + Abort + AllocGlobal),
    tables: &[Table],
) -> Result<(), Fail> {
    for table in tables {
        if let Some(row) = first_wrong(rt, table.rows)? {
            let what = table.what;
            panic!(rt; "{what}: row {row}");
        }
    }
    Ok(())
}
