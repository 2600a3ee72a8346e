//! Checks of a proof beside its script: what they answer, in whatever pieces both come, and how they end where a call fails.

use cube_workers::NoGate;
use smt_check::status::Status;
use smt_desk::memory::{MemSink, MemSource};
use smt_run::running::run;
use std::alloc::AllocGlobal;
use std::sync::Wait;
use std::thread::Threads;

const SCRIPT: &[u8] = b"(assert false) (check-sat)\n";

const PROOF: &[u8] = b"smt_proof 1 cubes 0 budget 100000\ne 0\ns 0\nc -2 0 0.0 2.0\nunsat 3\n";

/// The status and the answers of a check of both texts, which come in pieces of so many bytes.
pub(crate) fn check<'a>(
    rt: &(impl Threads + Wait + Sync + AllocGlobal),
    script: &'a [u8],
    proof: &'a [u8],
    piece: usize,
    answers: &mut MemSink<'a>,
) -> Status {
    let alloc = rt.alloc();
    let mut script = MemSource::new(script, piece.max(1), &[]);
    let mut proof = MemSource::new(proof, piece.max(1), &[]);
    let mut unwritten = MemSink::new(alloc, 1, &[]);
    run(
        rt,
        alloc,
        &["check", "PROOF"],
        &mut script,
        &mut proof,
        answers,
        &mut unwritten,
        &NoGate,
    )
}

/// What a script and a proof show, both texts, the status and the answers of their check.
const CHECKED: [(&str, &[u8], &[u8], Status, &[u8]); 8] = [
    (
        "an accepted refutation",
        SCRIPT,
        PROOF,
        Status::Done,
        b"unsat\naccepted 1\n",
    ),
    (
        "a hint left out of a chain",
        SCRIPT,
        b"smt_proof 1 cubes 0 budget 100000\ne 0\ns 0\nc -2 0 2.0\nunsat 3\n",
        Status::Refused,
        b"refused line 4 rule chain\n",
    ),
    (
        "a proof of another script",
        b"(check-sat)\n",
        PROOF,
        Status::Refused,
        b"refused line 2 rule encode\n",
    ),
    (
        "a proof cut before its record",
        SCRIPT,
        b"smt_proof 1 cubes 0 budget 100000\ne 0\ns 0\nc -2 0 0.0 2.0\n",
        Status::Refused,
        b"refused line 5 rule end\n",
    ),
    (
        "verdicts before a bad line are told",
        b"(assert false) (check-sat) (check-sat)\n",
        PROOF,
        Status::Refused,
        b"unsat\nrefused line 6 rule end\n",
    ),
    (
        "a script without a check",
        b"",
        b"smt_proof 1 cubes 0 budget 100000\n",
        Status::Done,
        b"accepted 0\n",
    ),
    (
        "nothing behind exit is a command",
        b"(assert false) (check-sat) (exit) (check-sat) (",
        PROOF,
        Status::Done,
        b"unsat\naccepted 1\n",
    ),
    (
        "no error of the script is told",
        b"(nope) (assert false) (assert nope) (check-sat) (pop 1)\n",
        PROOF,
        Status::Done,
        b"unsat\naccepted 1\n",
    ),
];

/// Whether both texts, which come in pieces of so many bytes, give this status and these answers.
fn is_checked(
    rt: &(impl Threads + Wait + Sync + AllocGlobal),
    script: &[u8],
    proof: &[u8],
    piece: usize,
    status: Status,
    wanted: &[u8],
) -> bool {
    let mut answers = MemSink::new(rt.alloc(), 3, &[]);
    check(rt, script, proof, piece, &mut answers) == status && answers.bytes() == wanted
}

#[test]
fn proofs_are_checked_in_whatever_pieces_they_come(rt: HostRuntime) {
    for (what, script, proof, status, wanted) in &CHECKED {
        for piece in [1, 7, 1000] {
            let is_so = is_checked(&rt, script, proof, piece, *status, wanted);
            assert!(rt; is_so, "{what}, pieces of {piece}");
        }
    }
}

/// Which calls fail: of the script, of the proof, of the answers.
type Failing = [&'static [u64]; 3];

/// Calls that fail, and the status of a check then.
const FAULTS: [(Failing, Status); 4] = [
    ([&[1], &[], &[]], Status::ReadFault),
    ([&[], &[2], &[]], Status::ReadFault),
    ([&[], &[], &[1]], Status::WriteFault),
    ([&[], &[], &[]], Status::Done),
];

/// The status of a check of both texts where these calls fail.
fn failing(
    rt: &(impl Threads + Wait + Sync + AllocGlobal),
    script: &[u8],
    proof: &[u8],
    calls: Failing,
) -> Status {
    let alloc = rt.alloc();
    run(
        rt,
        alloc,
        &["check", "PROOF"],
        &mut MemSource::new(script, 10, calls[0]),
        &mut MemSource::new(proof, 10, calls[1]),
        &mut MemSink::new(alloc, 3, calls[2]),
        &mut MemSink::new(alloc, 1, &[]),
        &NoGate,
    )
}

#[test]
fn faults_of_sources_and_sinks(rt: HostRuntime) {
    for (row, (calls, status)) in FAULTS.iter().enumerate() {
        assert!(rt; failing(&rt, SCRIPT, PROOF, *calls) == *status, "row {row}");
    }
    // A script is not read on behind `exit`.
    let header = b"smt_proof 1 cubes 0 budget 100000\n";
    let status = failing(&rt, b"(exit)    (check-sat)", header, [&[2], &[], &[]]);
    assert!(rt; status == Status::Done);
}
