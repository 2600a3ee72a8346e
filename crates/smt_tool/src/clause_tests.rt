//! Searches of clauses: what they answer, in whatever pieces the clauses come, that `lrat` accepts what they write, and how they
//! end where a call fails.

use cube_workers::NoGate;
use smt_check::status::Status;
use smt_desk::memory::{MemSink, MemSource};
use smt_run::running::run;
use std::alloc::AllocGlobal;
use std::sync::Wait;
use std::thread::Threads;

/// Three pigeons in two holes.
const PIGEONS: &[u8] =
    b"p cnf 6 9\n1 2 0\n3 4 0\n5 6 0\n-1 -3 0\n-1 -5 0\n-3 -5 0\n-2 -4 0\n-2 -6 0\n-4 -6 0\n";

/// What clauses show, their text, the status and the answers of their search.
const SEARCHED: [(&str, &[u8], Status, &[u8]); 7] = [
    (
        "a clause and its negation",
        b"p cnf 1 2\n1 0\n-1 0\n",
        Status::Done,
        b"unsat\n",
    ),
    ("pigeons", PIGEONS, Status::Done, b"unsat\n"),
    (
        "values",
        b"p cnf 2 2\n1 2 0\n-1 0\n",
        Status::Done,
        b"sat\nv -1 2 0\n",
    ),
    (
        "no variables",
        b"c none\np cnf 0 0\n",
        Status::Done,
        b"sat\nv 0\n",
    ),
    (
        "a literal above the header",
        b"p cnf 1 1\n2 0\n",
        Status::Refused,
        b"refused line 2 rule literal\n",
    ),
    (
        "an end inside a clause",
        b"p cnf 1 1\n1",
        Status::Refused,
        b"refused line 2 rule unfinished\n",
    ),
    (
        "an empty text",
        b"",
        Status::Refused,
        b"refused line 1 rule header\n",
    ),
];

/// Which calls fail: of the clauses, of the answers, of the refutation.
type Failing = [&'static [u64]; 3];

/// The status of a search of the clauses, which come in pieces of so many bytes, where these calls of the clauses fail.
fn search<'a>(
    rt: &(impl Threads + Wait + Sync + AllocGlobal),
    clauses: &[u8],
    piece: usize,
    reads: &[u64],
    answers: &mut MemSink<'a>,
    refutation: &mut MemSink<'a>,
) -> Status {
    let mut clauses = MemSource::new(clauses, piece.max(1), reads);
    let mut unread = MemSource::new(b"no proof", 1, &[]);
    run(
        rt,
        rt.alloc(),
        &["cnf", "PROOF"],
        &mut clauses,
        &mut unread,
        answers,
        refutation,
        &NoGate,
    )
}

/// Whether `lrat` accepts a refutation of the clauses.
fn is_accepted(
    rt: &(impl Threads + Wait + Sync + AllocGlobal),
    clauses: &[u8],
    refutation: &[u8],
) -> bool {
    let alloc = rt.alloc();
    let mut clauses = MemSource::new(clauses, 1000, &[]);
    let mut refutation = MemSource::new(refutation, 1000, &[]);
    let mut answers = MemSink::new(alloc, 1000, &[]);
    let mut unwritten = MemSink::new(alloc, 1, &[]);
    run(
        rt,
        alloc,
        &["lrat", "PROOF"],
        &mut clauses,
        &mut refutation,
        &mut answers,
        &mut unwritten,
        &NoGate,
    ) == Status::Done
}

/// Whether the clauses, which come in pieces of so many bytes, give this status and these answers, and a refutation of them is
/// written exactly where they are told to have none.
fn is_searched(
    rt: &(impl Threads + Wait + Sync + AllocGlobal),
    clauses: &[u8],
    piece: usize,
    status: Status,
    wanted: &[u8],
) -> bool {
    let mut answers = MemSink::new(rt.alloc(), 3, &[]);
    let mut refutation = MemSink::new(rt.alloc(), 7, &[]);
    search(rt, clauses, piece, &[], &mut answers, &mut refutation) == status
        && answers.bytes() == wanted
        && (wanted == b"unsat\n".as_slice()) == is_accepted(rt, clauses, refutation.bytes())
}

#[test]
fn clauses_are_searched_in_whatever_pieces_they_come(rt: HostRuntime) {
    for (what, clauses, status, wanted) in &SEARCHED {
        for piece in [1, 7, 1000] {
            let is_so = is_searched(&rt, clauses, piece, *status, wanted);
            assert!(rt; is_so, "{what}, pieces of {piece}");
        }
    }
}

/// Calls that fail, the status of a search of the pigeons then, and what is told.
const FAULTS: [(Failing, Status, &[u8]); 4] = [
    ([&[1], &[], &[]], Status::ReadFault, b""),
    ([&[], &[1], &[]], Status::WriteFault, b"uns"),
    ([&[], &[], &[0]], Status::WriteFault, b""),
    ([&[], &[], &[]], Status::Done, b"unsat\n"),
];

/// Whether a search where these calls fail ends with this status, and tells this.
fn is_failing(
    rt: &(impl Threads + Wait + Sync + AllocGlobal),
    calls: Failing,
    status: Status,
    wanted: &[u8],
) -> bool {
    let mut answers = MemSink::new(rt.alloc(), 3, calls[1]);
    let mut refutation = MemSink::new(rt.alloc(), 7, calls[2]);
    search(rt, PIGEONS, 10, calls[0], &mut answers, &mut refutation) == status
        && answers.bytes() == wanted
}

#[test]
fn faults_of_a_search_of_clauses(rt: HostRuntime) {
    for (row, (calls, status, wanted)) in FAULTS.iter().enumerate() {
        assert!(rt; is_failing(&rt, *calls, *status, wanted), "row {row}");
    }
}
