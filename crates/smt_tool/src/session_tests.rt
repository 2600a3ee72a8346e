//! Levels, options, models, and the end of a run.

use crate::worked::{SOLVE, is_answered, joined};
use smt_check::status::Status;
use std::alloc::AllocGlobal;
use std::process::Abort;
use std::sync::Wait;
use std::test::Fail;
use std::thread::Threads;

/// What a script shows, its answers and its status.
const SESSIONS: [(&str, &[u8], &[u8], Status); 7] = [
    (
        "success is told where it is asked",
        b"(set-option :print-success true) (set-logic QF_BV) (echo \"a\"\"b\") (get-model) (pop 1) (push 1)\n",
        b"success\nsuccess\n\"a\"\"b\"\n(error \"line 1: no model stands\")\n(error \"line 1: level out of range\")\nsuccess\n",
        Status::Refused,
    ),
    (
        "a popped assertion is gone",
        b"(declare-const p Bool) (assert p) (push 1) (assert (not p)) (check-sat) (pop 1) (check-sat)\n",
        b"unsat\nsat\n",
        Status::Done,
    ),
    (
        "a name is declared again after a pop",
        b"(push 1) (declare-const x (_ BitVec 8)) (assert (distinct x x)) (check-sat) (pop 1) (declare-const x (_ BitVec 4)) (assert (= x #xf)) (check-sat) (get-model)\n",
        b"unsat\nsat\n(\n(define-fun x () (_ BitVec 4) #b1111)\n)\n",
        Status::Done,
    ),
    (
        "a model of the first check",
        b"(declare-const x (_ BitVec 8)) (declare-const y (_ BitVec 8)) (assert (= (bvadd x y) #x0f)) (assert (= (bvand x #xf0) (bvnot #x0f))) (assert (= y #x1f)) (check-sat) (get-model) (assert (= x y)) (check-sat)\n",
        b"sat\n(\n(define-fun x () (_ BitVec 8) #b11110000)\n(define-fun y () (_ BitVec 8) #b00011111)\n)\nunsat\n",
        Status::Done,
    ),
    (
        "a model names what is live",
        b"(declare-const |a b| Bool) (push 1) (declare-const q Bool) (assert (and |a b| q)) (check-sat) (pop 1) (declare-const r Bool) (assert (and |a b| (not r))) (check-sat) (get-model)\n",
        b"sat\nsat\n(\n(define-fun |a b| () Bool true)\n(define-fun r () Bool false)\n)\n",
        Status::Done,
    ),
    (
        "no model stands after a reset",
        b"(declare-const p Bool) (assert p) (check-sat) (reset)\n(get-model)\n",
        b"sat\n(error \"line 2: no model stands\")\n",
        Status::Refused,
    ),
    (
        "nothing is answered behind exit",
        b"(set-option :print-success true) (check-sat) (exit) (check-sat) (nope",
        b"success\nsat\nsuccess\n",
        Status::Done,
    ),
];

#[test]
fn sessions_are_answered(rt: HostRuntime) {
    for (what, script, answers, status) in &SESSIONS {
        let is_so = is_answered(&rt, SOLVE, script, answers, Some(*status));
        assert!(rt; is_so, "{what}");
    }
}

/// Commands, each with its answer where each stands on a line of its own.
const COMMANDS: [(&[u8], &[u8]); 20] = [
    (b"(set-option :print-success true)", b"success\n"),
    (b"(set-logic QF_BV)", b"success\n"),
    (b"(set-info :status sat)", b"success\n"),
    (b"(declare-const x (_ BitVec 4))", b"success\n"),
    (b"(declare-const |p q| Bool)", b"success\n"),
    (b"(define-fun two () (_ BitVec 4) #x2)", b"success\n"),
    (b"(assert (= x (bvadd two #x3)))", b"success\n"),
    (b"(push 1)", b"success\n"),
    (b"(assert (not (= x #x5)))", b"success\n"),
    (b"(check-sat)", b"unsat\n"),
    (b"(get-model)", b"(error \"line 11: no model stands\")\n"),
    (b"(pop 1)", b"success\n"),
    (b"(assert |p q|)", b"success\n"),
    (b"(check-sat)", b"sat\n"),
    (
        b"(get-model)",
        b"(\n(define-fun x () (_ BitVec 4) #b0101)\n(define-fun |p q| () Bool true)\n)\n",
    ),
    (b"(echo \"a\"\"b\")", b"\"a\"\"b\"\n"),
    (b"(get-option :print-success)", b"true\n"),
    (
        b"(get-info :assertion-stack-levels)",
        b"(:assertion-stack-levels 0)\n",
    ),
    (
        b"(declare-const x Bool)",
        b"(error \"line 19: symbol already declared\")\n",
    ),
    (b"(exit)", b"success\n"),
];

/// A name that is declared again behind a pop, the same.
const DECLARED_AGAIN: [(&[u8], &[u8]); 9] = [
    (b"(push 1)", b""),
    (b"(declare-const x (_ BitVec 8))", b""),
    (b"(assert (distinct x x))", b""),
    (b"(check-sat)", b"unsat\n"),
    (b"(pop 1)", b""),
    (b"(declare-const x (_ BitVec 4))", b""),
    (b"(assert (= x #xf))", b""),
    (b"(check-sat)", b"sat\n"),
    (b"(get-value (x))", b"((x #b1111))\n"),
];

/// Whether behind the lines that are answered so, a front of a command on this line is told to be unfinished.
fn is_cut(
    rt: &(impl Threads + Wait + Sync + AllocGlobal),
    lines: &[u8],
    answers: &[u8],
    front: &[u8],
    line: usize,
) -> Result<bool, Fail> {
    let alloc = rt.alloc();
    let script = joined(alloc, &[lines, front])?;
    let error = format!(in alloc; "(error \"line {line}: unfinished command\")\n")?;
    let wanted = joined(alloc, &[answers, error.as_bytes()])?;
    Ok(is_answered(rt, SOLVE, script.as_slice(), wanted.as_slice(), None))
}

/// Whether that holds of each front of the command.
fn are_cut(
    rt: &(impl Threads + Wait + Sync + AllocGlobal),
    lines: &[u8],
    answers: &[u8],
    command: &[u8],
    line: usize,
) -> Result<bool, Fail> {
    for end in 1..command.len() {
        if !is_cut(rt, lines, answers, &command[..end], line)? {
            return Ok(false);
        }
    }
    Ok(true)
}

/// The number of the first command of which a front, or the whole, is answered otherwise behind those before it, with such a gap
/// between two; counted from 0.
fn first_other(
    rt: &(impl Threads + Wait + Sync + AllocGlobal),
    commands: &[(&[u8], &[u8])],
    gap: u8,
) -> Result<Option<usize>, Fail> {
    let alloc = rt.alloc();
    let mut script: Vec<u8> = Vec::new(alloc);
    let mut answers: Vec<u8> = Vec::new(alloc);
    for (row, (command, told)) in commands.iter().enumerate() {
        let line = if gap == b'\n' {
            row.saturating_add(1)
        } else {
            1
        };
        // Behind a gap, and so inside no command, what stands before is answered.
        let is_so = is_answered(rt, SOLVE, script.as_slice(), answers.as_slice(), None);
        let are_cut = are_cut(rt, script.as_slice(), answers.as_slice(), command, line)?;
        if !is_so || !are_cut {
            return Ok(Some(row));
        }
        script.extend_from_slice(command)?;
        answers.extend_from_slice(told)?;
        if !is_answered(rt, SOLVE, script.as_slice(), answers.as_slice(), None) {
            return Ok(Some(row));
        }
        script.push(gap)?;
    }
    Ok(None)
}

/// Each front of each of the commands is answered as it should be.
fn judge_fronts(
    rt: &(impl Threads + Wait + Sync + Abort + AllocGlobal),
    commands: &[(&[u8], &[u8])],
    gap: u8,
) -> Result<(), Fail> {
    if let Some(row) = first_other(rt, commands, gap)? {
        panic!(rt; "command {row}, with byte {gap} between two");
    }
    Ok(())
}

#[test]
fn every_prefix_answers_its_whole_commands(rt: HostRuntime) -> Result<(), Fail> {
    judge_fronts(&rt, &COMMANDS, b'\n')?;
    judge_fronts(&rt, &DECLARED_AGAIN, b' ')
}
