//! Checks by several workers: what they answer, and that a check accepts what they prove.

use crate::check_tests::check;
use crate::worked::{joined, solve};
use cube_workers::PairGate;
use drill_script::script::drill_script;
use smt_check::status::Status;
use smt_desk::memory::{MemSink, MemSource};
use smt_run::running::run;
use std::alloc::{AllocError, AllocGlobal};
use std::sync::Wait;
use std::test::Fail;
use std::thread::Threads;

/// Each pair of values of two symbols is excluded.
const CLAUSES: &[u8] =
    b"(declare-const p Bool) (declare-const q Bool) (assert (or p q)) (assert (or p (not q))) (assert (or (not p) q)) (assert (or (not p) (not q))) (check-sat)";

/// What a script shows, its text, its answers, and how many checks it has.
const SEARCHED: [(&str, &[u8], &[u8], &[u8]); 4] = [
    ("each cube is closed", CLAUSES, b"unsat\n", b"1"),
    (
        "some cube has a model",
        b"(declare-const x (_ BitVec 8)) (assert (= (bvmul x x) #x11)) (check-sat)",
        b"sat\n",
        b"1",
    ),
    (
        "no square",
        b"(declare-const x (_ BitVec 8)) (assert (= (bvmul x x) #x0d)) (check-sat)",
        b"unsat\n",
        b"1",
    ),
    (
        "what workers learnt stands behind a pop and a name that is declared again",
        b"(declare-const x (_ BitVec 6)) (push 1) (declare-const y (_ BitVec 6)) (assert (= (bvmul x x) (bvadd y y #b000001))) (assert (= ((_ extract 0 0) x) #b0)) (check-sat) (pop 1) (declare-const y (_ BitVec 6)) (check-sat-assuming ((= (bvmul x x) #b001101))) (assert (= (bvmul x y) #b000001)) (check-sat) (push 1) (assert (= x #b000010)) (check-sat) (pop 1) (check-sat)",
        b"unsat\nunsat\nsat\nunsat\nsat\n",
        b"5",
    ),
];

/// Words that ask for so many workers, and so many variables that split a check.
const WAYS: [&[&str]; 9] = [
    &["solve", "PROOF", "--workers", "1", "--cubes", "2"],
    &["solve", "PROOF", "--workers", "2"],
    &["solve", "PROOF", "--workers", "2", "--cubes", "1"],
    &["solve", "PROOF", "--workers", "2", "--cubes", "3"],
    &["solve", "PROOF", "--workers", "3", "--cubes", "2"],
    &["solve", "PROOF", "--workers", "4", "--cubes", "4"],
    &["solve", "PROOF", "--workers", "8"],
    &["solve", "PROOF", "--workers", "8", "--cubes", "3"],
    &["solve", "PROOF", "--workers", "64", "--cubes", "1"],
];

/// Whether a check accepts the proof of so many records with these answers.
fn is_accepted(
    rt: &(impl Threads + Wait + Sync + AllocGlobal),
    script: &[u8],
    proof: &[u8],
    answers: &[u8],
    count: &[u8],
) -> Result<bool, AllocError> {
    let wanted = joined(rt.alloc(), &[answers, b"accepted ", count, b"\n"])?;
    let mut told = MemSink::new(rt.alloc(), 1000, &[]);
    let status = check(rt, script, proof, 1000, &mut told);
    Ok(status == Status::Done && told.bytes() == wanted.as_slice())
}

/// Whether the script is answered so as the words ask, and a check accepts the proof.
fn is_searched(
    rt: &(impl Threads + Wait + Sync + AllocGlobal),
    words: &[&str],
    script: &[u8],
    answers: &[u8],
    count: &[u8],
) -> Result<bool, AllocError> {
    let (status, told, proof) = solve(rt, words, script);
    if status != Status::Done || told.as_slice() != answers {
        return Ok(false);
    }
    is_accepted(rt, script, proof.as_slice(), answers, count)
}

#[test]
fn workers_answer_as_one_does(rt: HostRuntime) -> Result<(), Fail> {
    for (what, script, answers, count) in &SEARCHED {
        for (row, words) in WAYS.iter().enumerate() {
            let is_so = is_searched(&rt, words, script, answers, count)?;
            assert!(rt; is_so, "{what}: row {row}");
        }
    }
    Ok(())
}

#[test]
fn a_spent_cube_of_workers_is_accepted(rt: HostRuntime) -> Result<(), Fail> {
    for workers in ["1", "2", "5"] {
        let words = ["solve", "PROOF", "--budget", "0", "--workers", workers];
        let is_so = is_searched(&rt, &words, CLAUSES, b"unknown\n", b"1")?;
        assert!(rt; is_so, "{workers}");
    }
    Ok(())
}

/// Words that ask for two words drawn from 0, by so many workers.
const DRILLED: [&[&str]; 4] = [
    &["drill", "0", "2", "PROOF"],
    &["drill", "0", "2", "PROOF", "--workers", "2"],
    &["drill", "0", "2", "PROOF", "--workers", "3", "--cubes", "1"],
    &["drill", "0", "2", "PROOF", "--workers", "4", "--cubes", "2"],
];

/// Whether two drawn words are answered as these words ask, and a check accepts the proof.
fn is_drilled(
    rt: &(impl Threads + Wait + Sync + AllocGlobal),
    words: &[&str],
) -> Result<bool, AllocError> {
    let (status, told, proof) = solve(rt, words, b"(this script is not read");
    let summary = b"checks 4\nsat 2\nunsat 2\nunknown 0\nlast #x1a08ee11\n";
    if status != Status::Done || told.as_slice() != summary.as_slice() {
        return Ok(false);
    }
    let script = drill_script(rt.alloc(), 0, 2)?;
    let answers = b"sat\nunsat\nsat\nunsat\n";
    is_accepted(rt, script.as_slice(), proof.as_slice(), answers, b"4")
}

#[test]
fn a_drawn_script_is_answered_by_any_number_of_workers(rt: HostRuntime) -> Result<(), Fail> {
    for (row, words) in DRILLED.iter().enumerate() {
        let is_so = is_drilled(&rt, words)?;
        assert!(rt; is_so, "row {row}");
    }
    Ok(())
}

#[test]
fn two_workers_stand_at_their_first_cubes_at_one_time(rt: HostRuntime) {
    let gate = PairGate::new();
    let words = ["solve", "PROOF", "--workers", "2", "--cubes", "1"];
    let mut script = MemSource::new(CLAUSES, 100, &[]);
    let mut unread = MemSource::new(b"", 1, &[]);
    let mut answers = MemSink::new(rt.alloc(), 100, &[]);
    let mut proof = MemSink::new(rt.alloc(), 100, &[]);
    let status = run(
        &rt,
        rt.alloc(),
        &words,
        &mut script,
        &mut unread,
        &mut answers,
        &mut proof,
        &gate,
    );
    assert!(rt; status == Status::Done);
    assert!(rt; answers.bytes() == b"unsat\n".as_slice());
    assert!(rt; !gate.gave_up());
}
