//! The public calls of the layers below the program, each made by itself.

ghost use Rattle.std.specs.Prelude.{IfSome};
ghost use Rattle.proof_text.specs.Lines.{IsLine};

use accepted_proof::refusal::{Refusal, RuleName};
use cube_workers::NoGate;
use proof_checker::checker::Checker;
use proof_text::line::Line;
use proof_text::reader::ProofReader;
use script_state::answer::Verdict;
use smt_check::checking::check;
use smt_check::status::Status;
use smt_desk::memory::{MemSink, MemSource};
use smt_session::session::Session;
use smt_session::settings::Settings;
use smt_text::chunk::Chunk;
use smt_text::framer::chunks;
use smt_text::text::Text;
use std::alloc::{AllocError, AllocGlobal, Global};
use std::sync::Wait;
use std::thread::Threads;

/// A symbol is asserted and checked.
const SCRIPT: &[u8] = b"(declare-const p Bool) (assert p) (check-sat)";

/// What a session adds to its proof at this check, in which the symbol is true.
const CHECK: &[u8] = b"f 0\ns 0\nsat 1\nv 0 true\n";

/// The same behind the first line of a proof.
const PROOF: &[u8] = b"smt_proof 1 cubes 0 budget 9\nf 0\ns 0\nsat 1\nv 0 true\n";

/// The commands of a script.
fn commands_of(alloc: Global, script: &[u8]) -> Result<Vec<Chunk>, AllocError> {
    let pieces = [Text::from_slice(alloc, script)?];
    chunks(alloc, &pieces)
}

/// Lets a session answer these commands, and tells whether it answered each.
fn answer_each(
    rt: &(impl Threads + Wait + Sync + AllocGlobal),
    session: Session,
    commands: &[Chunk],
    answers: &mut Vec<u8>,
    proof: &mut MemSink<'_>,
) -> bool {
    let mut session = session;
    for command in commands {
        let Ok((next, response)) = session.command(rt, rt.alloc(), command, proof, &NoGate) else {
            return false;
        };
        session = next;
        if answers.extend_from_slice(response.text.as_slice()).is_err() {
            drop(session);
            return false;
        }
    }
    drop(session);
    true
}

/// Lets a new session answer the script, and tells whether it answered each command.
fn answer_script(
    rt: &(impl Threads + Wait + Sync + AllocGlobal),
    answers: &mut Vec<u8>,
    proof: &mut MemSink<'_>,
) -> Result<bool, AllocError> {
    let alloc = rt.alloc();
    let settings = Settings {
        workers: 1,
        cubes: 0,
        budget: 9,
    };
    let commands = commands_of(alloc, SCRIPT)?;
    let session = Session::new(alloc, settings)?;
    Ok(answer_each(rt, session, commands.as_slice(), answers, proof))
}

#[test]
fn a_session_answers_command_by_command(rt: HostRuntime) {
    let mut answers = Vec::new(rt.alloc());
    let mut proof = MemSink::new(rt.alloc(), 100, &[]);
    let answered = answer_script(&rt, &mut answers, &mut proof);
    assert!(rt; answered == Ok(true));
    assert!(rt; answers.as_slice() == b"sat\n".as_slice());
    assert!(rt; proof.bytes() == CHECK);
}

/// The next line that the reader holds.
fn next_line(reader: &mut ProofReader) -> Option<Line>
    ensures { IfSome result IsLine }
{
    match reader.next() {
        Ok(Some(Ok(line))) => Some(line),
        _ => None,
    }
}

/// A checker behind the first line of a proof, where that is a header.
fn begun(alloc: Global, reader: &mut ProofReader) -> Option<Checker> {
    let first = Ok(next_line(reader)?);
    let checker = Checker::new(alloc, &first);
    drop(first);
    checker.ok()?.ok()
}

/// The checker behind these commands, where none comes while a record is owed.
fn commanded(alloc: Global, checker: Checker, commands: &[Chunk]) -> Option<Checker> {
    let mut checker = checker;
    for command in commands {
        if checker.owes() {
            drop(checker);
            return None;
        }
        checker = checker.command(alloc, command).ok()?.0;
    }
    Some(checker)
}

/// The checker behind the next line, and what it tells of it.
fn told_next(
    alloc: Global,
    checker: Checker,
    reader: &mut ProofReader,
) -> Option<(Checker, Result<(), Refusal>)> {
    let Some(line) = next_line(reader) else {
        drop(checker);
        return None;
    };
    let line = Ok(line);
    let answered = checker.line(alloc, &line);
    drop(line);
    answered.ok()
}

/// The checker behind so many lines, or the refusal of the first bad one.
fn told(
    alloc: Global,
    checker: Checker,
    reader: &mut ProofReader,
    count: u32,
) -> Option<Result<Checker, Refusal>> {
    let mut checker = checker;
    for _ in 0..count {
        let (next, answer) = told_next(alloc, checker, reader)?;
        if let Err(refusal) = answer {
            drop(next);
            return Some(Err(refusal));
        }
        checker = next;
    }
    Some(Ok(checker))
}

/// The refusal of a bad line, where the same is told of each of the two lines behind it.
fn told_again(alloc: Global, proof: &[u8]) -> Option<Refusal> {
    let commands = commands_of(alloc, SCRIPT).ok()?;
    let mut reader = ProofReader::new(alloc);
    reader.feed(proof).ok()?;
    let checker = begun(alloc, &mut reader)?;
    let checker = commanded(alloc, checker, commands.as_slice())?;
    let (checker, first) = told_next(alloc, checker, &mut reader)?;
    let (checker, second) = told_next(alloc, checker, &mut reader)?;
    let (checker, third) = told_next(alloc, checker, &mut reader)?;
    drop(checker);
    if second != first || third != first {
        return None;
    }
    first.err()
}

/// What is told of the end of a proof, whose text the reader holds, with these commands, after so many lines behind the header;
/// and whether the verdicts by then are that of one satisfiable check.
fn ended_behind(
    alloc: Global,
    reader: &mut ProofReader,
    commands: &[Chunk],
    count: u32,
) -> Option<(Result<(), Refusal>, bool)> {
    let checker = begun(alloc, reader)?;
    let checker = commanded(alloc, checker, commands)?;
    match told(alloc, checker, reader, count)? {
        Ok(checker) => {
            let (checker, answer) = checker.end();
            let is_sat = checker.verdicts() == [Verdict::Sat].as_slice();
            drop(checker);
            Some((answer, is_sat))
        }
        Err(refusal) => Some((Err(refusal), false)),
    }
}

/// The same of the proof's text and the commands of its script.
fn ended(alloc: Global, count: u32) -> Option<(Result<(), Refusal>, bool)> {
    let commands = commands_of(alloc, SCRIPT).ok()?;
    let mut reader = ProofReader::new(alloc);
    reader.feed(PROOF).ok()?;
    ended_behind(alloc, &mut reader, commands.as_slice(), count)
}

#[test]
fn a_checker_takes_commands_and_lines(rt: HostRuntime) {
    assert!(rt; ended(rt.alloc(), 4) == Some((Ok(()), true)));
    // A record that is cut.
    let cut = Refusal {
        line: 5,
        rule: RuleName::End,
    };
    assert!(rt; ended(rt.alloc(), 3) == Some((Err(cut), false)));
    // A selector of an assertion that is none, and lines behind it that would be good.
    let refused = Refusal {
        line: 2,
        rule: RuleName::Selector,
    };
    let proof = b"smt_proof 1 cubes 0 budget 9\ns 1\nf 0\ns 0\n";
    assert!(rt; told_again(rt.alloc(), proof) == Some(refused));
}

#[test]
fn two_texts_are_checked(rt: HostRuntime) {
    let mut script = MemSource::new(SCRIPT, 7, &[]);
    let mut proof = MemSource::new(PROOF, 5, &[]);
    let mut answers = MemSink::new(rt.alloc(), 3, &[]);
    let mut buffer = [0u8; 16];
    let status = check(
        rt.alloc(),
        &mut buffer,
        &mut script,
        &mut proof,
        &mut answers,
    );
    assert!(rt; status == Status::Done);
    assert!(rt; answers.bytes() == b"sat\naccepted 1\n".as_slice());
}
