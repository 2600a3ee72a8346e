//! Checks of refutations of clauses: what they answer, in whatever pieces both texts come, and how they end where a call fails.

use cube_workers::NoGate;
use smt_check::status::Status;
use smt_desk::memory::{MemSink, MemSource};
use smt_run::running::run;
use std::alloc::AllocGlobal;
use std::sync::Wait;
use std::thread::Threads;

const ONE: &[u8] = b"p cnf 1 2\n1 0\n-1 0\n";

const FOUR: &[u8] = b"p cnf 2 4\n1 2 0\n-1 2 0\n1 -2 0\n-1 -2 0\n";

/// What clauses and a refutation show, both texts, the status and the answers of their check.
const REFUTED: [(&str, &[u8], &[u8], Status, &[u8]); 8] = [
    (
        "an accepted refutation",
        ONE,
        b"3 0 1 2 0\n",
        Status::Done,
        b"accepted\n",
    ),
    (
        "a clause that is learnt",
        FOUR,
        b"5 2 0 1 2 0\n6 0 5 3 4 0",
        Status::Done,
        b"accepted\n",
    ),
    (
        "a hint left out",
        ONE,
        b"3 0 1 0\n",
        Status::Refused,
        b"refused line 1 rule chain\n",
    ),
    (
        "hints in the wrong order",
        FOUR,
        b"5 2 0 1 2 0\n6 0 3 5 4 0\n",
        Status::Refused,
        b"refused line 2 rule chain\n",
    ),
    (
        "an end before an empty clause",
        FOUR,
        b"5 2 0 1 2 0\n",
        Status::Refused,
        b"refused line 2 rule empty\n",
    ),
    (
        "a literal above the header",
        b"p cnf 1 1\n2 0\n",
        b"2 0 1 0\n",
        Status::Refused,
        b"refused line 2 rule literal\n",
    ),
    (
        "a fault of both texts",
        b"p cnf 1 2\n1 0\n",
        b"x",
        Status::Refused,
        b"refused line 2 rule count\n",
    ),
    (
        "an empty clause among the first",
        b"p cnf 0 1\n0\n",
        b"",
        Status::Done,
        b"accepted\n",
    ),
];

/// Which calls fail: of the clauses, of the refutation, of the answers.
type Failing = [&'static [u64]; 3];

/// The status of a check of both texts, which come in pieces of so many bytes, where these calls fail.
fn refute<'a>(
    rt: &(impl Threads + Wait + Sync + AllocGlobal),
    clauses: &[u8],
    refutation: &[u8],
    piece: usize,
    calls: Failing,
    answers: &mut MemSink<'a>,
) -> Status {
    let mut clauses = MemSource::new(clauses, piece.max(1), calls[0]);
    let mut refutation = MemSource::new(refutation, piece.max(1), calls[1]);
    let mut unwritten = MemSink::new(rt.alloc(), 1, &[]);
    run(
        rt,
        rt.alloc(),
        &["lrat", "PROOF"],
        &mut clauses,
        &mut refutation,
        answers,
        &mut unwritten,
        &NoGate,
    )
}

/// Whether both texts, which come in pieces of so many bytes, give this status and these answers.
fn is_refuted(
    rt: &(impl Threads + Wait + Sync + AllocGlobal),
    clauses: &[u8],
    refutation: &[u8],
    piece: usize,
    status: Status,
    wanted: &[u8],
) -> bool {
    let mut answers = MemSink::new(rt.alloc(), 3, &[]);
    let calls: Failing = [&[], &[], &[]];
    refute(rt, clauses, refutation, piece, calls, &mut answers) == status
        && answers.bytes() == wanted
}

#[test]
fn refutations_are_checked_in_whatever_pieces_they_come(rt: HostRuntime) {
    for (what, clauses, refutation, status, wanted) in &REFUTED {
        for piece in [1, 7, 1000] {
            let is_so = is_refuted(&rt, clauses, refutation, piece, *status, wanted);
            assert!(rt; is_so, "{what}, pieces of {piece}");
        }
    }
}

/// Calls that fail, the status of a check then, and what is told.
const FAULTS: [(Failing, Status, &[u8]); 4] = [
    ([&[1], &[], &[]], Status::ReadFault, b""),
    ([&[], &[1], &[]], Status::ReadFault, b""),
    ([&[], &[], &[1]], Status::WriteFault, b"acc"),
    ([&[], &[], &[]], Status::Done, b"accepted\n"),
];

/// Whether a check where these calls fail ends with this status, and tells this.
fn is_failing(
    rt: &(impl Threads + Wait + Sync + AllocGlobal),
    calls: Failing,
    status: Status,
    wanted: &[u8],
) -> bool {
    let mut answers = MemSink::new(rt.alloc(), 3, calls[2]);
    refute(rt, ONE, b"3 0 1 2 0\n", 10, calls, &mut answers) == status && answers.bytes() == wanted
}

#[test]
fn faults_of_clauses_refutation_and_answers(rt: HostRuntime) {
    for (row, (calls, status, wanted)) in FAULTS.iter().enumerate() {
        assert!(rt; is_failing(&rt, *calls, *status, wanted), "row {row}");
    }
}
