//! Runs of `solve`: what they answer and prove, and how they end where a call fails.

use crate::worked::{SOLVE, count};
use cube_workers::NoGate;
use smt_check::status::Status;
use smt_desk::memory::{MemSink, MemSource};
use smt_run::running::run;
use std::alloc::AllocGlobal;
use std::sync::Wait;
use std::thread::Threads;

const FIRST: &[u8] =
    b"(declare-const x (_ BitVec 8)) (declare-const y (_ BitVec 8)) (assert (= (bvadd x y) #x0f)) (assert (= (bvand x #xf0) (bvnot #x0f))) (assert (= y #x1f)) (check-sat) (assert (= x y)) (check-sat)\n";

// Terms: x, y, x + y, #x0f, the first equality, #xf0, the conjunction, the negation, the second equality, #x1f, the third. The
// negation is that of a literal, so it becomes #xf0, term 5, and the second equality becomes that of the conjunction with it, term 11.
const FIRST_CHECK: &[u8] =
    b"smt_proof 2 cubes 0 budget 100000\nf 0\nf 1\ne 2\ne 3\ne 4\ne 5\ne 6\nr 39 7 5\nt = 6 5\ne 11\nr 40 8 11\ne 9\ne 10\ns 0\ns 1\ns 2\nsat 2\nv 0 #b11110000\nv 1 #b00011111\n";

// Behind it the lines of the second check begin: the last equality, and its assertion.
const SECOND_CHECK: &[u8] =
    b"smt_proof 2 cubes 0 budget 100000\nf 0\nf 1\ne 2\ne 3\ne 4\ne 5\ne 6\nr 39 7 5\nt = 6 5\ne 11\nr 40 8 11\ne 9\ne 10\ns 0\ns 1\ns 2\nsat 2\nv 0 #b11110000\nv 1 #b00011111\ne 12\ns 3\n";

/// Which calls fail: of the script, of the answers, of the proof.
type Failing<'a> = [&'a [u64]; 3];

/// How many bytes a call moves: of the script, of the answers, of the proof.
type Pieces = [usize; 3];

/// The status, the answers and the proof of a script that comes in such pieces, where these calls fail.
fn solve_in(
    rt: &(impl Threads + Wait + Sync + AllocGlobal),
    script: &[u8],
    pieces: Pieces,
    failing: Failing<'_>,
) -> (Status, Vec<u8>, Vec<u8>) {
    let alloc = rt.alloc();
    let mut script = MemSource::new(script, pieces[0].max(1), failing[0]);
    let mut unread = MemSource::new(b"", 1, &[]);
    let mut answers = MemSink::new(alloc, pieces[1].max(1), failing[1]);
    let mut proof = MemSink::new(alloc, pieces[2].max(1), failing[2]);
    let status = run(
        rt,
        alloc,
        SOLVE,
        &mut script,
        &mut unread,
        &mut answers,
        &mut proof,
        &NoGate,
    );
    (status, answers.into_bytes(), proof.into_bytes())
}

/// What is written of a proof.
enum Written {
    /// These bytes.
    Whole(&'static [u8]),
    /// These first.
    Front(&'static [u8]),
}

/// A script, and how its run ends.
struct Run {
    what: &'static str,
    script: &'static [u8],
    pieces: Pieces,
    failing: Failing<'static>,
    status: Status,
    answers: &'static [u8],
    proof: Written,
}

const RUNS: [Run; 6] = [
    Run {
        what: "the first script",
        script: FIRST,
        pieces: [7, 1, 100],
        failing: [&[], &[], &[]],
        status: Status::Done,
        answers: b"sat\nunsat\n",
        proof: Written::Front(SECOND_CHECK),
    },
    Run {
        what: "a record stands before its answer",
        script: FIRST,
        pieces: [1000, 100, 100],
        failing: [&[], &[0], &[]],
        status: Status::WriteFault,
        answers: b"",
        proof: Written::Whole(FIRST_CHECK),
    },
    Run {
        what: "a command that is left out",
        script: b"\n(declare-sort S 0) (check-sat)\n",
        pieces: [5, 100, 100],
        failing: [&[], &[], &[]],
        status: Status::Refused,
        answers: b"(error \"line 2: not supported\")\nsat\n",
        proof: Written::Whole(b"smt_proof 2 cubes 0 budget 100000\nsat 0\n"),
    },
    Run {
        what: "an empty script",
        script: b"",
        pieces: [5, 100, 100],
        failing: [&[], &[], &[]],
        status: Status::Done,
        answers: b"",
        proof: Written::Whole(b"smt_proof 2 cubes 0 budget 100000\n"),
    },
    Run {
        what: "a read that fails leaves what was answered",
        script: b"(check-sat) (check-sat)",
        pieces: [11, 100, 100],
        failing: [&[1], &[], &[]],
        status: Status::ReadFault,
        answers: b"sat\n",
        proof: Written::Whole(b"smt_proof 2 cubes 0 budget 100000\nsat 0\n"),
    },
    Run {
        what: "a proof that fails at once",
        script: b"(check-sat)",
        pieces: [100, 100, 100],
        failing: [&[], &[], &[0]],
        status: Status::WriteFault,
        answers: b"",
        proof: Written::Whole(b""),
    },
];

fn is_written(proof: &[u8], wanted: &Written) -> bool {
    match wanted {
        Written::Whole(bytes) => proof == *bytes,
        Written::Front(bytes) => proof.starts_with(bytes),
    }
}

fn is_run(rt: &(impl Threads + Wait + Sync + AllocGlobal), row: &Run) -> bool {
    let (status, answers, proof) = solve_in(rt, row.script, row.pieces, row.failing);
    status == row.status
        && answers.as_slice() == row.answers
        && is_written(proof.as_slice(), &row.proof)
}

#[test]
fn scripts_are_run(rt: HostRuntime) {
    for row in &RUNS {
        let what = row.what;
        assert!(rt; is_run(&rt, row), "{what}");
    }
}

/// What a run of the first script answers and proves, its bytes one by one, where these calls fail.
fn run_bytewise(
    rt: &(impl Threads + Wait + Sync + AllocGlobal),
    failing: Failing<'_>,
) -> (Status, Vec<u8>, Vec<u8>) {
    solve_in(rt, FIRST, [1, 1, 50], failing)
}

/// Whether a run is whole where no call has failed, and else ends with this status and has written a front of it all, in which
/// each answer of a check has its record.
fn is_front(
    rt: &(impl Threads + Wait + Sync + AllocGlobal),
    failing: Failing<'_>,
    stopped: Option<Status>,
    all_answers: &[u8],
    all_proof: &[u8],
) -> bool {
    let (status, answers, proof) = run_bytewise(rt, failing);
    match stopped {
        None => {
            status == Status::Done
                && answers.as_slice() == all_answers
                && proof.as_slice() == all_proof
        }
        Some(stopped) => {
            status == stopped
                && all_answers.starts_with(&answers)
                && all_proof.starts_with(&proof)
                && count(&answers, b"\n") <= count(&proof, b"sat ")
        }
    }
}

/// The same where the call of this number fails of the script, of the answers or of the proof, numbered from 0.
fn is_front_behind(
    rt: &(impl Threads + Wait + Sync + AllocGlobal),
    stream: u8,
    call: u64,
    stopped: Option<Status>,
    all_answers: &[u8],
    all_proof: &[u8],
) -> bool {
    let calls = [call];
    let failing: Failing<'_> = match stream {
        0 => [&calls, &[], &[]],
        1 => [&[], &calls, &[]],
        _ => [&[], &[], &calls],
    };
    is_front(rt, failing, stopped, all_answers, all_proof)
}

/// The stream, how many calls a whole run makes of it, and the status where one of them fails.
const STREAMS: [(u8, u64, Status); 3] = [
    (0, 195, Status::ReadFault),
    (1, 10, Status::WriteFault),
    (2, 6, Status::WriteFault),
];

#[test]
fn each_call_of_each_stream_fails_in_turn(rt: HostRuntime) {
    let (_, answers, proof) = run_bytewise(&rt, [&[], &[], &[]]);
    for (stream, calls, stopped) in &STREAMS {
        for call in 0..=*calls {
            let stopped = if call < *calls { Some(*stopped) } else { None };
            let right = is_front_behind(&rt, *stream, call, stopped, &answers, &proof);
            assert!(rt; right, "stream {stream}, call {call}");
        }
    }
}
