//! Checks within limits: an `unknown` stands beside the diary of a cube on which the budget was spent.

use crate::change_tests::{Changes, Proved, judge_changes};
use crate::check_tests::check;
use crate::worked::{count, solve};
use smt_check::status::Status;
use smt_desk::memory::MemSink;
use std::alloc::AllocGlobal;
use std::sync::Wait;
use std::test::Fail;
use std::thread::Threads;

/// Four clauses of two symbols that no assignment satisfies, checked.
const CLAUSES: &[u8] =
    b"(declare-const p Bool) (declare-const q Bool) (assert (or p q)) (assert (or p (not q))) (assert (or (not p) q)) (assert (or (not p) (not q))) (check-sat)\n";

/// The same, and the reason of the answer is asked for.
const WITH_REASON: &[u8] =
    b"(declare-const p Bool) (declare-const q Bool) (assert (or p q)) (assert (or p (not q))) (assert (or (not p) q)) (assert (or (not p) (not q))) (check-sat) (get-info :reason-unknown)\n";

/// The first put on the only cube, which spends a budget of none: the first two assertions make the first symbol true.
const SPENT: Proved = Proved {
    script: CLAUSES,
    proof: b"smt_proof 1 cubes 0 budget 0\nf 0\nf 1\ne 2\ne 3\ne 4\ne 5\ne 6\ne 7\ns 0\ns 1\ns 2\ns 3\nc 2 -8 -9 0 9.0 10.0 3.2 5.2\nunknown 0 13 1\n+ 13\n",
};

/// A script that is answered within limits.
struct Limited {
    what: &'static str,
    words: &'static [&'static str],
    script: &'static [u8],
    answers: &'static [u8],
    /// How many puts stand in the proof.
    puts: usize,
    /// What a check of the proof tells, which accepts it.
    told: &'static [u8],
}

const LIMITED: [Limited; 4] = [
    Limited {
        what: "an unknown beside a spent diary",
        words: &["solve", "PROOF", "--budget", "0"],
        script: CLAUSES,
        answers: b"unknown\n",
        puts: 1,
        told: b"unknown\naccepted 1\n",
    },
    Limited {
        what: "the reason of an unknown",
        words: &["solve", "PROOF", "--budget", "0"],
        script: WITH_REASON,
        answers: b"unknown\n(:reason-unknown incomplete)\n",
        puts: 1,
        told: b"unknown\naccepted 1\n",
    },
    Limited {
        what: "a budget of one is enough",
        words: &["solve", "PROOF", "--budget", "1"],
        script: CLAUSES,
        answers: b"unsat\n",
        puts: 0,
        told: b"unsat\naccepted 1\n",
    },
    Limited {
        what: "two cubes need no budget",
        words: &["solve", "PROOF", "--cubes", "1", "--budget", "0"],
        script: CLAUSES,
        answers: b"unsat\n",
        puts: 0,
        told: b"unsat\naccepted 1\n",
    },
];

/// Whether a check accepts the proof, and tells this.
fn is_accepted(
    rt: &(impl Threads + Wait + Sync + AllocGlobal),
    script: &[u8],
    proof: &[u8],
    told: &[u8],
) -> bool {
    let mut answers = MemSink::new(rt.alloc(), 100, &[]);
    check(rt, script, proof, 100, &mut answers) == Status::Done && answers.bytes() == told
}

/// Whether the script is answered so, with so many puts in the proof, which a check accepts.
fn is_limited(rt: &(impl Threads + Wait + Sync + AllocGlobal), row: &Limited) -> bool {
    let (status, answers, proof) = solve(rt, row.words, row.script);
    status == Status::Done
        && answers.as_slice() == row.answers
        && count(&proof, b"\n+ ") == row.puts
        && is_accepted(rt, row.script, &proof, row.told)
}

#[test]
fn checks_within_limits(rt: HostRuntime) {
    for row in &LIMITED {
        let what = row.what;
        assert!(rt; is_limited(&rt, row), "{what}");
    }
}

const LIMITS_OF_THE_HEADER: Changes = Changes {
    of: SPENT,
    rows: "1 0 accepted smt_proof 1 cubes 0 budget 0|\n\
    1 16 diary smt_proof 1 cubes 0 budget 1|\n\
    1 16 diary smt_proof 1 cubes 1 budget 0|\n\
    1 16 diary smt_proof 1 cubes 0 budget 100000|",
};

const CUBES_AND_STARTS_OF_DIARIES: Changes = Changes {
    of: SPENT,
    rows: "15 0 accepted unknown 0 14 1|\n\
    15 15 diary unknown 1 13 1|\n\
    15 15 diary unknown 18446744073709551615 13 1|\n\
    15 15 diary unknown 0 12 1|\n\
    15 15 diary unknown 0 0 1|\n\
    15 15 diary unknown 0 15 1|\n\
    15 15 diary unknown 0 13 0|\n\
    15 15 line unknown 0 13|\n\
    15 15 line unknown 0 13 1 |\n\
    13 14 diary ",
};

const LINES_OF_DIARIES: Changes = Changes {
    of: SPENT,
    rows: "15 0 accepted unknown 0 13 2|= 3|\n\
    15 0 accepted unknown 0 13 2|= 0|\n\
    15 17 diary unknown 0 13 2|+ 13|\n\
    15 17 diary unknown 0 13 2|= 13|\n\
    15 17 end unknown 0 13 2|\n\
    15 16 diary unknown 0 13 2|- 13|\n\
    15 16 line unknown 0 13 2|e 0|\n\
    16 16 diary + 12|\n\
    16 16 diary + 14|\n\
    16 16 diary = 13|\n\
    16 16 diary - 13|\n\
    16 16 line +13|\n\
    16 16 line sat 2|\n\
    16 16 end \n\
    16 17 end + 13|+ 13|\n\
    14 14 line + 13|",
};

const PUTS_THAT_ARE_NOT_GOOD: Changes = Changes {
    of: SPENT,
    rows: "14 0 accepted c 2 -8 -9 0 10.0 9.0 3.2 5.2|\n\
    14 16 diary c 2 -8 -9 -10 0 9.0 10.0 3.2 5.2|\n\
    14 16 diary c 2 -2 0|\n\
    14 0 accepted c 2 -8 -9 0 9.0 10.0 9.0 3.2 5.2|\n\
    14 16 diary c 2 -8 -9 0 0.0 9.0 10.0 3.2 5.2|\n\
    14 16 diary c -8 -4 0 9.0|\n\
    14 16 diary c 2 -8 -9 8 0|\n\
    14 14 chain c 2 -8 0 9.0 10.0 3.2 5.2|",
};

#[test]
fn diaries_are_judged_by_their_rules(rt: HostRuntime) -> Result<(), Fail> {
    judge_changes(
        &rt,
        &[
            LIMITS_OF_THE_HEADER,
            CUBES_AND_STARTS_OF_DIARIES,
            LINES_OF_DIARIES,
            PUTS_THAT_ARE_NOT_GOOD,
        ],
    )
}
