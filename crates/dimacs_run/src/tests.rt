//! Worked texts that are searched, with ample memory.

use crate::failure::{SearchFailure, Unread};
use crate::refuting::refute;
use crate::solving::solve_clauses;
use smt_desk::memory::{MemSink, MemSource};
use std::alloc::Global;

const FOUR: &[u8] = b"p cnf 2 4\n1 2 0\n-1 2 0\n1 -2 0\n-1 -2 0\n";

// Three pigeons in two holes.
const PIGEONS: &[u8] =
    b"p cnf 6 9\n1 2 0\n3 4 0\n5 6 0\n-1 -3 0\n-1 -5 0\n-3 -5 0\n-2 -4 0\n-2 -6 0\n-4 -6 0\n";

// Texts, and what is told of them.
const SOLVED: [(&[u8], &[u8]); 10] = [
    (b"p cnf 0 0\n", b"sat\nv 0\n"),
    (b"p cnf 2 2\n1 2 0\n-1 0\n", b"sat\nv -1 2 0\n"),
    (
        b"c three\np cnf 3 4\n1 2 3 0\n-1 -2 0\n-3 0 -2\n0",
        b"sat\nv 1 -2 -3 0\n",
    ),
    (b"p cnf 0 1\n0\n", b"unsat\n"),
    (b"p cnf 1 2\n1 0\n-1 0\n", b"unsat\n"),
    (FOUR, b"unsat\n"),
    (PIGEONS, b"unsat\n"),
    (b"", b"refused line 1 rule header\n"),
    (b"p cnf 1 1\n2 0\n", b"refused line 2 rule literal\n"),
    (b"p cnf 1 2\n1 0\n", b"refused line 2 rule count\n"),
];

// Whether a checker accepts these lines as a refutation of the clauses.
fn is_accepted(alloc: Global, clauses: &[u8], lines: &[u8]) -> bool {
    let mut clauses = MemSource::new(clauses, 1000, &[]);
    let mut lines = MemSource::new(lines, 1000, &[]);
    let mut answers = MemSink::new(alloc, 1000, &[]);
    refute(alloc, &mut clauses, &mut lines, &mut answers).is_ok()
        && answers.bytes() == b"accepted\n".as_slice()
}

// Whether the clauses, which come in pieces of so many bytes, are found to be as is told here.
fn is_solved(alloc: Global, clauses: &[u8], piece: usize, wanted: &[u8]) -> bool {
    let mut source = MemSource::new(clauses, piece.max(1), &[]);
    let mut refutation = MemSink::new(alloc, 7, &[]);
    let mut answers = MemSink::new(alloc, 3, &[]);
    solve_clauses(alloc, &mut source, &mut refutation, &mut answers).is_ok()
        && answers.bytes() == wanted
        && (wanted == b"unsat\n".as_slice()) == is_accepted(alloc, clauses, refutation.bytes())
}

#[test]
fn clauses_are_searched_in_whatever_pieces_they_come(rt: HostRuntime) {
    for (clauses, wanted) in SOLVED {
        for piece in [1, 7, 1000] {
            assert!(rt; is_solved(rt.alloc(), clauses, piece, wanted));
        }
    }
}

// Which calls fail, of the clauses, the refutation and the answers, how the search of `FOUR` ends
// then, and what is told.
const FAULTS: [([&[u64]; 3], SearchFailure, &[u8]); 4] = [
    (
        [&[1], &[], &[]],
        SearchFailure::Clauses(Unread::Failed),
        b"",
    ),
    ([&[], &[0], &[]], SearchFailure::Refutation, b""),
    ([&[], &[1], &[1]], SearchFailure::Refutation, b""),
    ([&[], &[], &[1]], SearchFailure::Answers, b"uns"),
];

#[test]
fn a_call_that_fails_is_told(rt: HostRuntime) {
    for ([reads, lines, told], failure, wanted) in FAULTS {
        let mut source = MemSource::new(FOUR, 10, reads);
        let mut refutation = MemSink::new(rt.alloc(), 7, lines);
        let mut answers = MemSink::new(rt.alloc(), 3, told);
        match solve_clauses(rt.alloc(), &mut source, &mut refutation, &mut answers) {
            Ok(_) => assert!(rt; false),
            Err(found) => assert_eq!(rt; found, failure),
        }
        assert!(rt; answers.bytes() == wanted);
    }
}
