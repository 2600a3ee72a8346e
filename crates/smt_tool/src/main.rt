//! Answers scripts of SMT-LIB 2.6 over truth values and words, writes the proof of each answer, and checks such proofs;
//! searches clauses of DIMACS, writes a refutation of them by LRAT, and checks such refutations; writes a proof of the first
//! format in the second; and draws scripts, answers them and sums up the answers.
//!
//! The program hands `run` of `smt_run`, which does what its words ask for, the script's file or standard input, standard output
//! and the proof file, and ends with the number of its status. The tests of sessions, of runs and of checks stand here, each a
//! table of scripts and of what they are answered: so the proofs of `smt_session`, `smt_check` and `smt_run` are checked once,
//! without them.
#![tactic(auto)]

#[cfg(test)]
mod change_tests;
#[cfg(test)]
mod check_tests;
#[cfg(test)]
mod clause_tests;
#[cfg(test)]
mod command_tests;
#[cfg(test)]
mod conversion_tests;
#[cfg(test)]
mod diary_tests;
#[cfg(test)]
mod error_tests;
#[cfg(test)]
mod fault_tests;
#[cfg(test)]
mod form_error_tests;
#[cfg(test)]
mod layer_tests;
#[cfg(test)]
mod limit_tests;
#[cfg(test)]
mod mode_error_tests;
#[cfg(test)]
mod name_error_tests;
#[cfg(test)]
mod named_tests;
#[cfg(test)]
mod odd_command_tests;
#[cfg(test)]
mod refutation_tests;
#[cfg(test)]
mod session_tests;
#[cfg(test)]
mod term_error_tests;
#[cfg(test)]
mod tests;
#[cfg(test)]
mod theory_tests;
#[cfg(test)]
mod word_tests;
#[cfg(test)]
mod worked;
#[cfg(test)]
mod worker_tests;

use cube_workers::NoGate;
use smt_check::reading::INPUT_LIMIT;
use smt_check::status::Status;
use smt_desk::files::{FileSink, FileSource, StandardInput, StandardOutput};
use smt_desk::stream::Source;
use smt_run::running::run;
use std::alloc::AllocGlobal;
use std::io::ErrorKind;
use std::process::ExitCode;
use std::rt::{Env, Files};
use std::sync::Wait;
use std::thread::Threads;
use std::{env, fs};
use tool_words::command_line::plan;
use tool_words::words::Unplanned;

// What is told where the words are not taken.
const USAGE: &str =
    "usage: smt_tool solve PROOF [SCRIPT] [--workers 1..64] [--cubes 0..10] [--budget 0..1000000000] | check PROOF [SCRIPT] | lrat PROOF [CNF] | cnf PROOF [CNF] | convert PROOF OUT | drill SEED SIZE PROOF [--workers 1..64] [--cubes 0..10] [--budget 0..1000000000]";

// The number of a status.
fn exit_code(status: Status) -> ExitCode {
    ExitCode::from(match status {
        Status::Done => 0,
        Status::Refused => 1,
        Status::Usage => 2,
        Status::ReadFault => 3,
        Status::WriteFault => 4,
        Status::NoMemory => 5,
        Status::TooLong => 6,
    })
}

// What ended a run without an answer.
#[derive(Clone, Copy)]
enum Cause {
    Usage,
    ProofUnread,
    ScriptUnread,
    ProofUnwritten,
    AnswersUnwritten,
    NoMemory,
    ProofTooLong,
    ScriptTooLong,
}

impl Cause {
    // What is told of it.
    fn text(self) -> &'static str {
        match self {
            Cause::Usage => USAGE,
            Cause::ProofUnread => "smt_tool: the proof cannot be read",
            Cause::ScriptUnread => "smt_tool: the script cannot be read",
            Cause::ProofUnwritten => "smt_tool: the proof cannot be written",
            Cause::AnswersUnwritten => "smt_tool: the answers cannot be written",
            Cause::NoMemory => "smt_tool: memory is wanting",
            Cause::ProofTooLong => "smt_tool: the proof is longer than 2^32 bytes",
            Cause::ScriptTooLong => "smt_tool: the script is longer than 2^32 bytes",
        }
    }
}

// How a run ended: its status, and where that is none of an answer, what ended it.
#[derive(Clone, Copy)]
struct Ending {
    status: Status,
    cause: Option<Cause>,
}

// What ended a run: a file that was read or written tells whether it was this one, and else it was the other.
fn blame<R: Files>(
    status: Status,
    proof: &FileSource<'_, R>,
    written: &FileSink<'_, R>,
) -> Option<Cause> {
    match status {
        Status::Done | Status::Refused => None,
        Status::Usage => Some(Cause::Usage),
        Status::ReadFault if proof.has_failed() => Some(Cause::ProofUnread),
        Status::ReadFault => Some(Cause::ScriptUnread),
        Status::WriteFault if written.has_failed() => Some(Cause::ProofUnwritten),
        Status::WriteFault => Some(Cause::AnswersUnwritten),
        Status::NoMemory => Some(Cause::NoMemory),
        Status::TooLong if proof.taken() > INPUT_LIMIT => Some(Cause::ProofTooLong),
        Status::TooLong => Some(Cause::ScriptTooLong),
    }
}

// Does what the words ask for, with this script, this proof file and this file that a proof is written into.
fn run_with<R: Files + Print + AllocGlobal + Threads + Wait + Sync, S: Source>(
    rt: &R,
    words: &[&str],
    script: &mut S,
    proof: &str,
    out: &str,
) -> Ending {
    let mut read = FileSource::new(rt, proof);
    let mut written = FileSink::new(rt, out);
    let mut answers = StandardOutput::new(rt);
    let status = run(
        rt,
        rt.alloc(),
        words,
        script,
        &mut read,
        &mut answers,
        &mut written,
        &NoGate,
    );
    let cause = blame(status, &read, &written);
    Ending { status, cause }
}

// Does what the words ask for: the script is read from its file, or where none is named from standard input. No file is
// opened before its first use.
fn run_words<R: Files + Input + Print + AllocGlobal + Threads + Wait + Sync>(
    rt: &R,
    words: &[&str],
) -> Result<Ending, Unplanned> {
    let plan = plan(rt.alloc(), words)?;
    Ok(match plan.script {
        Some(path) => {
            let mut script = FileSource::new(rt, path);
            run_with(rt, words, &mut script, plan.proof, plan.out)
        }
        None => {
            let mut script = StandardInput::new(rt);
            run_with(rt, words, &mut script, plan.proof, plan.out)
        }
    })
}

// The words behind the program's name. Bytes that are no text are none of the words that are taken.
fn given_words<R: Env + AllocGlobal>(rt: &R) -> Result<Vec<String>, Unplanned> {
    match env::args(rt) {
        Ok(words) => Ok(words.skip(1).collect(rt.alloc())?),
        Err(error) if error.kind() == ErrorKind::OutOfMemory => Err(Unplanned::NoMemory),
        Err(_) => Err(Unplanned::Usage),
    }
}

// Does what the words that the program is given ask for.
fn run_given<R: Env + Files + Input + Print + AllocGlobal + Threads + Wait + Sync>(
    rt: &R,
) -> Result<Ending, Unplanned> {
    let given = given_words(rt)?;
    let words: Vec<&str> = given.iter().map(|word| word.as_str()).collect(rt.alloc())?;
    run_words(rt, &words)
}

// The ending of a run that was not begun.
fn unplanned(why: Unplanned) -> Ending {
    match why {
        Unplanned::Usage => Ending {
            status: Status::Usage,
            cause: Some(Cause::Usage),
        },
        Unplanned::NoMemory => Ending {
            status: Status::NoMemory,
            cause: Some(Cause::NoMemory),
        },
    }
}

fn main(rt: HostRuntime) -> ExitCode {
    // The numbers of those of the three standard streams that are closed are taken, so that no file of a run gets one of them: a
    // folder opens, and can be neither read nor written.
    let taken = [fs::open(&rt, "/"), fs::open(&rt, "/"), fs::open(&rt, "/")];
    let ending = match run_given(&rt) {
        Ok(ending) => ending,
        Err(why) => unplanned(why),
    };
    if let Some(cause) = ending.cause {
        // Where standard error cannot be written, the status tells it alone.
        let text = cause.text();
        let _ = eprintln!(&rt; "{text}");
    }
    drop(taken);
    exit_code(ending.status)
}
