//! Worked texts, each in two pieces, cut at every place, with ample memory.

use crate::cnf::{Cnf, CnfFault, CnfKind, CnfReader};
use crate::lrat::{LratChecker, LratFault, LratKind};
use crate::stop::Stop;
use std::alloc::Global;

// The clauses of a text that comes in two pieces.
fn read(alloc: Global, text: &[u8], cut: usize) -> Result<Cnf, Stop<CnfFault>> {
    let (front, behind) = text.split_at(cut.min(text.len()));
    let mut reader = CnfReader::new(alloc);
    reader.feed(front)?;
    reader.feed(behind)?;
    reader.finish()
}

// What is judged of a text that comes in two pieces.
fn judge(alloc: Global, cnf: Cnf, text: &[u8], cut: usize) -> Result<(), Stop<LratFault>> {
    let (front, behind) = text.split_at(cut.min(text.len()));
    let mut checker = LratChecker::new(alloc, cnf)?;
    checker.feed(front)?;
    checker.feed(behind)?;
    checker.finish()
}

// How many variables and clauses a text has, or the line and the cause of its fault.
fn sizes(read: Result<Cnf, Stop<CnfFault>>) -> Result<(u32, usize), (u64, CnfKind)> {
    match read {
        Ok(cnf) => Ok((cnf.variables(), cnf.len())),
        Err(Stop::Fault(fault)) => Err((fault.line, fault.kind)),
        Err(Stop::NoMemory) => Err((0, CnfKind::Header)),
    }
}

// Nothing, or the line and the cause of a fault.
fn verdict(judged: Result<(), Stop<LratFault>>) -> Result<(), (u64, LratKind)> {
    match judged {
        Ok(()) => Ok(()),
        Err(Stop::Fault(fault)) => Err((fault.line, fault.kind)),
        Err(Stop::NoMemory) => Err((0, LratKind::Empty)),
    }
}

// Texts of clauses, with their sizes or their first fault.
const CLAUSES: [(&[u8], Result<(u32, usize), (u64, CnfKind)>); 15] = [
    (b"p cnf 1 2\n1 0\n-1 0\n", Ok((1, 2))),
    (
        b"c x\np  cnf 2 2\r\n1 -2\n\n0\t2 0\n%\n0 junk\n",
        Ok((2, 2)),
    ),
    (b"p cnf 1 1\n1 0", Ok((1, 1))),
    (b"p cnf 0 0\n", Ok((0, 0))),
    (b"", Err((1, CnfKind::Header))),
    (b"c only\n\n", Err((2, CnfKind::Header))),
    (b"p cnf 1\n", Err((1, CnfKind::Header))),
    (b"p cnf 1073741825 1\n", Err((1, CnfKind::Large))),
    (b"p cnf 2 1\n1 x 0\n", Err((2, CnfKind::Token))),
    (b"p cnf 1 1\n-0\n", Err((2, CnfKind::Token))),
    (b"p cnf 1 1\n2 0\n", Err((2, CnfKind::Literal))),
    (
        b"p cnf 1 1\n99999999999999999999 0\n",
        Err((2, CnfKind::Literal)),
    ),
    (b"p cnf 1 0\n1 0\n", Err((2, CnfKind::Count))),
    (b"p cnf 1 2\n1 0\n\n", Err((3, CnfKind::Count))),
    (b"p cnf 1 1\n1", Err((2, CnfKind::Unfinished))),
];

#[test]
fn a_text_has_clauses_or_a_first_fault(rt: HostRuntime) {
    for (text, found) in CLAUSES {
        for cut in 0..text.len() + 1 {
            assert_eq!(rt; sizes(read(rt.alloc(), text, cut)), found);
        }
    }
}

const ONE: &[u8] = b"p cnf 1 2\n1 0\n-1 0\n";

const FOUR: &[u8] = b"p cnf 2 4\n1 2 0\n-1 2 0\n1 -2 0\n-1 -2 0\n";

// Clauses, and what is judged of a text beside them.
const PROOFS: [(&[u8], &[u8], Result<(), (u64, LratKind)>); 17] = [
    (ONE, b"3 0 1 2 0\n", Ok(())),
    (ONE, b"c x\n\n3 1 0 1 0\n4 0 3 2 0", Ok(())),
    (ONE, b"4 d 9 0\n5 0 1 2 7 0\n", Ok(())),
    (FOUR, b"5 2 0 1 2 0\n6 0 5 3 4 0\n", Ok(())),
    (b"p cnf 0 1\n0\n", b"", Ok(())),
    (ONE, b"3 0 1 0\n", Err((1, LratKind::Chain))),
    (ONE, b"3 0 7 1 2 0\n", Err((1, LratKind::Chain))),
    (
        FOUR,
        b"5 2 0 1 2 0\n6 0 3 5 4 0\n",
        Err((2, LratKind::Chain)),
    ),
    (ONE, b"3 d 1 0\n4 0 1 2 0\n", Err((2, LratKind::Chain))),
    (ONE, b"2 0 1 2 0\n", Err((1, LratKind::Order))),
    (ONE, b"4 1 0 1 0\n3 0 1 2 0\n", Err((2, LratKind::Order))),
    (ONE, b"3 0 -1 2 0\n", Err((1, LratKind::Rat))),
    (ONE, b"3 0 1 2\n", Err((1, LratKind::Proof))),
    (ONE, b"3 2 0 1 0\n", Err((1, LratKind::Proof))),
    (ONE, b"3 d -1 0\n", Err((1, LratKind::Proof))),
    (ONE, b"", Err((1, LratKind::Empty))),
    (ONE, b"3 1 -1 0 0\n", Err((2, LratKind::Empty))),
];

#[test]
fn a_proof_is_accepted_or_has_a_first_fault(rt: HostRuntime) {
    for (clauses, text, found) in PROOFS {
        for cut in 0..text.len() + 1 {
            match read(rt.alloc(), clauses, cut) {
                Ok(cnf) => assert_eq!(rt; verdict(judge(rt.alloc(), cnf, text, cut)), found),
                Err(_) => assert!(rt; false),
            }
        }
    }
}
