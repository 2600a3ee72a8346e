//! Worked texts, searched to their end, with ample memory.

ghost use Rattle.std.specs.Prelude.{◌≡◌, Ok, IfOk};
ghost use Rattle.dimacs_front.specs.Cnf.{cnf_of};

use crate::outcome::{Failure, Outcome};
use crate::solving::{read_clauses_have_their_variables, solve};
use dimacs_front::cnf::{Cnf, CnfFault, CnfReader};
use dimacs_front::lrat::LratChecker;
use dimacs_front::stop::Stop;
use smt_desk::memory::MemSink;
use smt_desk::stream::Sink;
use smt_text::number::push_number;
use smt_text::text::Text;
use std::alloc::{AllocError, Global};

// The clauses of a text.
fn read(alloc: Global, text: &[u8]) -> Result<Cnf, Stop<CnfFault>>
    ensures { IfOk result (λ cnf. cnf_of text.now ≡ Ok cnf) }
{
    let mut reader = CnfReader::new(alloc);
    match reader.feed(text) {
        Ok(()) => reader.finish(),
        Err(stop) => {
            drop(reader);
            Err(stop)
        }
    }
}

// Whether a checker accepts a refutation of the clauses of a text.
fn is_accepted(alloc: Global, text: &[u8], refutation: &[u8]) -> bool {
    let Ok(cnf) = read(alloc, text) else {
        return false;
    };
    let Ok(checker) = LratChecker::new(alloc, cnf) else {
        return false;
    };
    let mut checker = checker;
    checker.feed(refutation).is_ok() && checker.finish().is_ok()
}

// How the search of a text ends that has clauses.
fn solve_text<W: Sink>(
    alloc: Global,
    text: &[u8],
    sink: &mut W,
) -> Option<Result<Outcome, Failure>> {
    read_clauses_have_their_variables();
    let Ok(cnf) = read(alloc, text) else {
        return None;
    };
    Some(solve(alloc, cnf, sink))
}

// What is found of the clauses of a text: their values, or whether a checker accepts what was written.
fn search(alloc: Global, text: &[u8]) -> Result<Vec<bool>, bool> {
    let mut sink = MemSink::new(alloc, 7, &[]);
    match solve_text(alloc, text, &mut sink) {
        Some(Ok(Outcome::Satisfiable(values))) => Ok(values),
        Some(Ok(Outcome::Unsatisfiable)) => Err(is_accepted(alloc, text, sink.bytes())),
        _ => Err(false),
    }
}

// Texts whose clauses are all true under one row of values alone.
const SATISFIABLE: [(&[u8], &[bool]); 4] = [
    (b"p cnf 0 0\n", &[]),
    (b"p cnf 2 2\n1 2 0\n-1 0\n", &[false, true]),
    (
        b"p cnf 3 4\n1 2 3 0\n-1 -2 0\n-3 0\n-2 0\n",
        &[true, false, false],
    ),
    (
        b"p cnf 2 4\n1 1 -2 0\n2 -2 0\n2 1 2 0\n-1 2 0\n",
        &[true, true],
    ),
];

// Texts whose clauses no values make true: the last puts three pigeons into two holes.
const UNSATISFIABLE: [&[u8]; 5] = [
    b"p cnf 0 1\n0\n",
    b"p cnf 1 2\n1 0\n-1 0\n",
    b"p cnf 2 4\n1 2 0\n-1 2 0\n1 -2 0\n-1 -2 0\n",
    b"p cnf 3 5\n1 2 3 0\n-1 0\n2 -3 0\n-2 3 0\n-2 -3 0\n",
    b"p cnf 6 9\n1 2 0\n3 4 0\n5 6 0\n-1 -3 0\n-1 -5 0\n-3 -5 0\n-2 -4 0\n-2 -6 0\n-4 -6 0\n",
];

#[test]
fn a_search_finds_values(rt: HostRuntime) {
    for (text, values) in SATISFIABLE {
        match search(rt.alloc(), text) {
            Ok(found) => assert!(rt; found.as_slice() == values),
            Err(_) => assert!(rt; false),
        }
    }
}

#[test]
fn a_search_refutes(rt: HostRuntime) {
    for text in UNSATISFIABLE {
        match search(rt.alloc(), text) {
            Ok(_) => assert!(rt; false),
            Err(accepted) => assert!(rt; accepted),
        }
    }
}

#[test]
fn a_write_that_fails_is_told(rt: HostRuntime) {
    for (call, written) in [(0, 0), (1, 7)] {
        let failing = [call];
        let mut sink = MemSink::new(rt.alloc(), 7, &failing);
        match solve_text(rt.alloc(), UNSATISFIABLE[4], &mut sink) {
            Some(Err(failure)) => assert_eq!(rt; failure, Failure::Unwritten),
            _ => assert!(rt; false),
        }
        assert_eq!(rt; sink.bytes().len(), written);
    }
}

// A pigeon more than holes, and clauses beside them, all the same: so the numbers of learnt clauses begin 1500 below that
// at which all are watched.
const HOLES: u64 = 7;

const PIGEONS: u64 = 8;

const BESIDE: u64 = 63_832;

const CLAUSES: u64 = 64_036;

// A literal for a pigeon that sits in a hole.
fn push_sits(text: &mut Text, mark: &[u8], pigeon: u64, hole: u64) -> Result<(), AllocError> {
    text.push_slice(mark)?;
    push_number(
        text,
        pigeon
            .saturating_mul(HOLES)
            .saturating_add(hole)
            .saturating_add(1),
    )
}

// The clauses that no two pigeons sit in a hole.
fn push_apart(text: &mut Text, hole: u64) -> Result<(), AllocError> {
    'pigeons: for pigeon in 0..PIGEONS {
        'others: for other in 0..pigeon {
            push_sits(text, b"-", pigeon, hole)?;
            push_sits(text, b" -", other, hole)?;
            text.push_slice(b" 0\n")?;
        }
    }
    Ok(())
}

// The text of all these clauses.
fn pigeons_text(alloc: Global) -> Result<Text, AllocError> {
    let mut text = Text::from_slice(alloc, b"p cnf 57 ")?;
    push_number(&mut text, CLAUSES)?;
    text.push(b'\n')?;
    'beside: for _ in 0..BESIDE {
        text.push_slice(b"57 0\n")?;
    }
    'pigeons: for pigeon in 0..PIGEONS {
        'holes: for hole in 0..HOLES {
            push_sits(&mut text, b" ", pigeon, hole)?;
        }
        text.push_slice(b" 0\n")?;
    }
    'apart: for hole in 0..HOLES {
        push_apart(&mut text, hole)?;
    }
    Ok(text)
}

// How many lines a text has.
fn lines_of(text: &[u8]) -> u64 {
    let mut lines = 0u64;
    'bytes: for byte in text {
        if *byte == b'\n' {
            lines = lines.saturating_add(1);
        }
    }
    lines
}

// Above a thousand learnt clauses the worse half is parked, and at number 65,536 all are woken until one more is learnt.
#[test]
fn a_search_parks_and_wakes(rt: HostRuntime) {
    let Ok(text) = pigeons_text(rt.alloc()) else {
        return assert!(rt; false);
    };
    let mut sink = MemSink::new(rt.alloc(), 7, &[]);
    match solve_text(rt.alloc(), text.as_slice(), &mut sink) {
        Some(Ok(Outcome::Unsatisfiable)) => {
            assert!(rt; lines_of(sink.bytes()) > 65_536 - CLAUSES);
            assert!(rt; is_accepted(rt.alloc(), text.as_slice(), sink.bytes()));
        }
        _ => assert!(rt; false),
    }
}
