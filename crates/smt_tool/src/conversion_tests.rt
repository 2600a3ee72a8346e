//! Conversions of proofs: what is written and told, in whatever pieces the proof comes, and how they end where a call fails.

use cube_workers::NoGate;
use smt_check::status::Status;
use smt_desk::memory::{MemSink, MemSource};
use smt_run::running::run;
use std::alloc::AllocGlobal;
use std::sync::Wait;
use std::thread::Threads;

/// A refutation that only its own record needs, behind which a check has a model.
const PROOF: &[u8] =
    b"smt_proof 1 cubes 0 budget 100000\ne 0\ns 0\nc -2 0 0.0 2.0\nunsat 3\nsat 0\n";

/// The same in the second format.
const CONVERTED: &[u8] =
    b"smt_proof 2 cubes 0 budget 100000\ne 0\ns 0\nc -2 0 0.0 2.0\nunsat 3\nd 3\nsat 0\n";

/// What a proof shows, its text, the status, and what is told and written of it.
const ROWS: [(&str, &[u8], Status, &[u8], &[u8]); 6] = [
    (
        "a refutation that is needed no more",
        PROOF,
        Status::Done,
        b"converted 2\n",
        CONVERTED,
    ),
    (
        "no records",
        b"smt_proof 1 cubes 3 budget 7\n",
        Status::Done,
        b"converted 0\n",
        b"smt_proof 2 cubes 3 budget 7\n",
    ),
    (
        "the second format",
        CONVERTED,
        Status::Refused,
        b"refused line 1 rule header\n",
        b"",
    ),
    (
        "an end inside a part",
        b"smt_proof 1 cubes 0 budget 7\ne 0\n",
        Status::Refused,
        b"refused line 3 rule end\n",
        b"",
    ),
    (
        "a last line without its end",
        b"smt_proof 1 cubes 0 budget 7\ne 0\nsat 0",
        Status::Refused,
        b"refused line 3 rule line\n",
        b"",
    ),
    (
        "nothing",
        b"",
        Status::Refused,
        b"refused line 1 rule header\n",
        b"",
    ),
];

/// Which calls fail: of the proof, of the answers, of what is written.
type Failing = [&'static [u64]; 3];

/// The status of a conversion of the proof, which comes in pieces of so many bytes, where these calls of the proof fail.
fn convert<'a>(
    rt: &(impl Threads + Wait + Sync + AllocGlobal),
    proof: &[u8],
    piece: usize,
    reads: &[u64],
    answers: &mut MemSink<'a>,
    out: &mut MemSink<'a>,
) -> Status {
    let mut unread = MemSource::new(b"no script", 1, &[]);
    let mut proof = MemSource::new(proof, piece.max(1), reads);
    run(
        rt,
        rt.alloc(),
        &["convert", "PROOF", "OUT"],
        &mut unread,
        &mut proof,
        answers,
        out,
        &NoGate,
    )
}

/// Whether a conversion of the proof, where these calls fail, has this status, and tells and writes this.
fn is_converted(
    rt: &(impl Threads + Wait + Sync + AllocGlobal),
    proof: &[u8],
    piece: usize,
    calls: Failing,
    status: Status,
    wanted: [&[u8]; 2],
) -> bool {
    let mut answers = MemSink::new(rt.alloc(), 3, calls[1]);
    let mut out = MemSink::new(rt.alloc(), 7, calls[2]);
    convert(rt, proof, piece, calls[0], &mut answers, &mut out) == status
        && answers.bytes() == wanted[0]
        && out.bytes() == wanted[1]
}

/// Calls that fail, the status of a conversion then, and what is told and written: the proof is read whole before anything is
/// written, and written whole before anything is told.
const FAULTS: [(Failing, Status, [&[u8]; 2]); 6] = [
    ([&[0], &[], &[]], Status::ReadFault, [b"", b""]),
    ([&[4], &[], &[]], Status::ReadFault, [b"", b""]),
    ([&[], &[], &[0]], Status::WriteFault, [b"", b""]),
    ([&[], &[], &[1]], Status::WriteFault, [b"", b"smt_pro"]),
    ([&[], &[0], &[]], Status::WriteFault, [b"", CONVERTED]),
    ([&[], &[1], &[]], Status::WriteFault, [b"con", CONVERTED]),
];

#[test]
fn proofs_are_converted_in_whatever_pieces_they_come(rt: HostRuntime) {
    for (what, proof, status, told, written) in &ROWS {
        for piece in [1, 7, 1000] {
            let wanted = [*told, *written];
            let is_so = is_converted(&rt, proof, piece, [&[], &[], &[]], *status, wanted);
            assert!(rt; is_so, "{what}, pieces of {piece}");
        }
    }
    for (row, (calls, status, wanted)) in FAULTS.iter().enumerate() {
        let is_so = is_converted(&rt, PROOF, 10, *calls, *status, *wanted);
        assert!(rt; is_so, "row {row} of the faults");
    }
}
