//! Proofs with one line changed, and how a check of each ends.

use crate::check_tests::check;
use crate::worked::joined;
use smt_check::status::Status;
use smt_desk::memory::MemSink;
use std::alloc::{AllocError, AllocGlobal, Global};
use std::process::Abort;
use std::sync::Wait;
use std::test::Fail;
use std::thread::Threads;

/// A script with its proof.
#[derive(Clone, Copy)]
pub(crate) struct Proved {
    pub(crate) script: &'static [u8],
    pub(crate) proof: &'static [u8],
}

/// A false assertion, refuted.
const FALSE: Proved = Proved {
    script: b"(assert false) (check-sat)",
    proof: b"smt_proof 1 cubes 0 budget 100000\ne 0\ns 0\nc -2 0 0.0 2.0\nunsat 3\n",
};

/// A false assertion, refuted behind a term that the proof makes.
const WITH_TERM: Proved = Proved {
    script: b"(assert false) (check-sat)",
    proof: b"smt_proof 1 cubes 0 budget 100000\nt not 0\ne 0\ne 1\ns 0\nc -2 0 0.0 4.0\nunsat 5\n",
};

/// A symbol that is asserted and then denied.
const DENIED: Proved = Proved {
    script: b"(declare-const p Bool) (assert p) (check-sat) (assert (not p)) (check-sat)",
    proof: b"smt_proof 1 cubes 0 budget 100000\nf 0\ns 0\nsat 1\nv 0 true\ne 1\ns 1\nc -4 -3 0 2.0 4.0\nunsat 5\n",
};

/// Two words with a sum.
const WORDS: Proved = Proved {
    script: b"(declare-const x (_ BitVec 2)) (declare-const y (_ BitVec 2)) (assert (= (bvadd x y) #b01)) (check-sat)",
    proof: b"smt_proof 1 cubes 0 budget 100000\nf 0\nf 1\ne 2\ne 3\ne 4\ns 0\nsat 2\nv 0 #b00\nv 1 #b01\n",
};

/// Two literals that differ, checked twice, with a command between that is refused.
const TWICE: Proved = Proved {
    script: b"(assert (= (_ bv1 2) #b10)) (check-sat) (declare-sort S 0) (check-sat)",
    proof: b"smt_proof 1 cubes 0 budget 100000\ne 0\ne 1\ne 2\ns 0\nc -6 0 0.0 3.2 3.5 3.11 4.0\nunsat 5\nc -6 0 0.0 3.2 3.5 3.11 4.0\nunsat 6\n",
};

/// A false assertion in a level that is popped with its declaration, a model of what is asserted behind it, and a check behind
/// `exit`, which is not read.
const LEVELS: Proved = Proved {
    script: b"(declare-const p Bool) (push 1) (declare-const q Bool) (assert false) (check-sat) (pop 1) (declare-const r Bool) (assert p) (check-sat) (exit) (check-sat)",
    proof: b"smt_proof 1 cubes 0 budget 100000\ne 0\ns 0\nc -2 0 0.0 2.0\nunsat 3\nsat 2\nv 0 true\nv 2 false\n",
};

/// Two assumptions that cannot hold together, then one of them, and a check without. The term whose value is asked for is
/// none of the proof's.
const ASSUMED: Proved = Proved {
    script: b"(declare-const p Bool) (declare-const q Bool) (assert (or p q)) (check-sat-assuming ((not p) (not q))) (check-sat-assuming ((not p))) (get-value ((and p q))) (check-sat)",
    proof: b"smt_proof 1 cubes 0 budget 100000\nf 0\nf 1\ne 2\ne 3\ne 4\ns 0\nc -5 2 3 0 6.0 3.2\nunsat 7\nsat 2\nv 0 false\nv 1 true\nsat 2\nv 0 true\nv 1 false\n",
};

/// The proof with another text in place of a line, which is counted from 1. In the text a bar stands for each line feed.
fn with_line(alloc: Global, proof: &[u8], at: u64, to: &str) -> Result<Vec<u8>, AllocError> {
    let mut changed = Vec::new(alloc);
    let mut line = 1u64;
    if line == at {
        push_text(&mut changed, to)?;
    }
    for byte in proof {
        if line != at {
            changed.push(*byte)?;
        }
        if *byte == b'\n' {
            line = line.saturating_add(1);
            if line == at {
                push_text(&mut changed, to)?;
            }
        }
    }
    Ok(changed)
}

fn push_text(changed: &mut Vec<u8>, to: &str) -> Result<(), AllocError> {
    for byte in to.as_bytes() {
        changed.push(if *byte == b'|' { b'\n' } else { *byte })?;
    }
    Ok(())
}

/// How a check ends that refuses this line by this rule.
fn refused(alloc: Global, line: &str, name: &str) -> Result<Vec<u8>, AllocError> {
    joined(
        alloc,
        &[
            b"refused line ",
            line.as_bytes(),
            b" rule ",
            name.as_bytes(),
            b"\n",
        ],
    )
}

/// The parts of a row: the number of the line that is changed, the number of the line that is refused then, the rule of that or
/// `accepted`, and the text in the line's place.
fn parts(row: &str) -> Option<(u64, &str, &str, &str)> {
    let (at, rest) = row.split_once(' ')?;
    let (line, rest) = rest.split_once(' ')?;
    let (name, to) = rest.split_once(' ')?;
    let at = at.parse::<u64>().ok()?;
    Some((at, line, name, to))
}

/// Whether the proof is judged as the row says where the row's line is changed.
fn is_judged(
    rt: &(impl Threads + Wait + Sync + AllocGlobal),
    proved: &Proved,
    row: &str,
) -> Result<bool, AllocError> {
    let Some((at, line, name, to)) = parts(row) else {
        return Ok(false);
    };
    let alloc = rt.alloc();
    let changed = with_line(alloc, proved.proof, at, to)?;
    let mut answers = MemSink::new(alloc, 100, &[]);
    let status = check(rt, proved.script, changed.as_slice(), 100, &mut answers);
    if name == "accepted" {
        return Ok(status == Status::Done);
    }
    let wanted = refused(alloc, line, name)?;
    Ok(status == Status::Refused && answers.bytes().ends_with(wanted.as_slice()))
}

/// Changes of a proof, a row each.
#[derive(Clone, Copy)]
pub(crate) struct Changes {
    pub(crate) of: Proved,
    pub(crate) rows: &'static str,
}

/// Each change is judged as its row says.
pub(crate) fn judge_changes(
    rt: &(impl Threads + Wait + Sync + Abort + AllocGlobal),
    tables: &[Changes],
) -> Result<(), Fail> {
    for table in tables {
        for row in table.rows.lines() {
            assert!(rt; is_judged(rt, &table.of, row)?, "{row}");
        }
    }
    Ok(())
}

const BAD_HEADERS: Changes = Changes {
    of: FALSE,
    rows: "1 1 header smt_proof 3 cubes 0 budget 100000|\n\
    1 1 header smt_proof 1 cubes 11 budget 100000|\n\
    1 1 header smt_proof 1 cubes 0 budget 1000000001|\n\
    1 1 header smt_proof 1 cubes 00 budget 100000|\n\
    1 1 header smt_proof 1 cubes 0|\n\
    1 1 header smt_proof 1 cubes 0 budget 100000 |\n\
    1 1 header |\n\
    1 1 header \n\
    1 1 header e 0|\n\
    2 2 line smt_proof 1 cubes 0 budget 100000|",
};

const LINES_THAT_ARE_NONE_OF_A_PROOF: Changes = Changes {
    of: FALSE,
    rows: "2 2 line e|\n\
    2 2 line e 0 0|\n\
    2 2 line e 00|\n\
    2 2 line e 0 |\n\
    2 2 line  e 0|\n\
    2 2 line E 0|\n\
    2 2 line e -0|\n\
    2 2 line |\n\
    2 2 line v 0 true|\n\
    2 2 line t nope 0|\n\
    2 2 line t distinct 0 0|\n\
    2 2 line t zero_extend|\n\
    4 4 line c -2|\n\
    4 4 line c -2 0 0.0 2|\n\
    4 4 line c -0 0 0.0 2.0|\n\
    4 4 line c -02 0 0.0 2.0|\n\
    4 4 line c -2 0 0.0 2.0\r|\n\
    5 5 line unsat 3\n\
    5 5 line unsat|\n\
    5 5 line unknown 3|",
};

const STEPS_THAT_ARE_NOT_VALID: Changes = Changes {
    of: FALSE,
    rows: "2 2 selector \n\
    2 2 encode e 1|\n\
    2 2 encode e 4294967296|\n\
    2 3 encode e 0|e 0|\n\
    2 2 leaf f 0|\n\
    2 2 leaf f 1|\n\
    2 2 node t false|\n\
    2 3 selector t true|\n\
    2 2 selector s 0|\n\
    3 3 chain \n\
    3 3 selector s 1|\n\
    3 4 selector s 0|s 0|",
};

const CHAINS_THAT_ARE_NONE: Changes = Changes {
    of: FALSE,
    rows: "4 4 chain c -2 0 2.0|\n\
    4 4 chain c -2 0 0.0|\n\
    4 4 chain c -2 0|\n\
    4 4 chain c -2 0 0.0 2.1|\n\
    4 4 chain c -2 0 0.0 2.4294967296|\n\
    4 4 chain c -2 0 0.0 3.0|\n\
    4 4 chain c -3 0 0.0 2.0|\n\
    4 4 chain c -9223372036854775808 0 0.0 2.0|\n\
    4 4 chain c 2 0 0.0 2.0|\n\
    4 4 chain c 0 0.0 2.0|\n\
    4 4 chain c -2 2 0 0.0|\n\
    4 4 chain c -2 0 0.0 2.0 0.0|",
};

const RECORDS_THAT_SHOW_NOTHING: Changes = Changes {
    of: FALSE,
    rows: "2 2 unsat unsat 0|\n\
    2 2 unsat unsat 3|\n\
    2 2 sat sat 0|\n\
    2 2 sat sat 1|\n\
    4 4 unsat \n\
    4 5 unsat c -2 2 0|\n\
    5 5 unsat unsat 0|\n\
    5 5 unsat unsat 1|\n\
    5 5 unsat unsat 2|\n\
    5 5 unsat unsat 4|\n\
    5 5 sat sat 0|\n\
    5 5 end \n\
    5 6 end unsat 3|unsat 3|\n\
    5 6 end unsat 3|sat",
};

const TERMS_THAT_CANNOT_BE_MADE: Changes = Changes {
    of: WITH_TERM,
    rows: "2 2 node t not 1|\n\
    2 2 node t not 0 0|\n\
    2 2 node t bvnot 0|\n\
    2 2 node t zero_extend 0|\n\
    2 2 node t word 2 4|\n\
    2 2 node t word 0 0|\n\
    2 2 node t word 129 0|\n\
    2 2 node t apply 0|\n\
    2 3 node t not 0|t not 0|\n\
    2 3 encode \n\
    3 3 encode ",
};

const MODELS_AND_REFUTATIONS_OF_TWO_CHECKS: Changes = Changes {
    of: DENIED,
    rows: "2 2 encode e 0|\n\
    4 4 sat sat 0|\n\
    4 4 sat sat 2|\n\
    4 4 unsat unsat 2|\n\
    4 5 line sat 1|e 1|\n\
    5 5 line \n\
    5 5 sat v 0 false|\n\
    5 5 sat v 0 #b1|\n\
    5 5 sat v 1 true|\n\
    5 5 line v 0 1|\n\
    5 5 line sat 1|\n\
    5 6 line v 0 true|v 0 true|\n\
    6 6 selector \n\
    8 8 chain c -4 0 2.0 4.0|\n\
    8 8 chain c -3 0 2.0 4.0|\n\
    8 8 chain c -4 -3 0 2.0|\n\
    8 9 unsat c -4 -3 -2 0 2.0 4.0|\n\
    9 9 unsat unsat 2|\n\
    9 10 end sat 1|\n\
    9 10 sat sat 1|v 0 true|\n\
    9 10 sat sat 1|v 0 false|\n\
    9 9 end ",
};

const VALUES_OF_WORDS: Changes = Changes {
    of: WORDS,
    rows: "9 9 sat v 0 #b0|\n\
    9 9 sat v 0 #b000|\n\
    9 9 sat v 0 false|\n\
    9 9 line v 0 #b|\n\
    9 9 line v 0 #b02|\n\
    9 10 sat v 0 #b01|\n\
    9 9 sat v 1 #b01|\n\
    9 9 sat \n\
    10 10 sat v 1 #b10|\n\
    10 10 sat v 0 #b01|\n\
    10 10 end \n\
    10 11 end v 1 #b01|v 1 #b01|",
};

const LEVELS_AND_THE_END_OF_A_RUN: Changes = Changes {
    of: LEVELS,
    rows: "1 0 accepted smt_proof 1 cubes 0 budget 100000|\n\
    6 0 accepted f 1|s 1|sat 2|\n\
    6 6 selector s 0|\n\
    8 0 accepted v 2 true|\n\
    6 6 unsat unsat 3|\n\
    6 6 sat sat 1|\n\
    6 6 sat sat 3|\n\
    7 8 sat v 0 false|\n\
    8 8 sat v 1 false|\n\
    8 9 end v 2 false|unsat 3|\n\
    8 9 end v 2 false|sat 2|",
};

const ASSUMPTIONS_ARE_OF_THEIR_CHECK_ALONE: Changes = Changes {
    of: ASSUMED,
    rows: "1 0 accepted smt_proof 1 cubes 0 budget 100000|\n\
    5 5 encode e 0|\n\
    8 0 accepted c -5 2 3 0 3.2 6.0|\n\
    8 8 chain c -5 2 0 6.0 3.2|\n\
    8 9 unsat c -5 -1 2 3 0 6.0 3.2|\n\
    8 9 unsat c 4 2 3 0 3.2|\n\
    9 9 unsat unsat 3|\n\
    10 10 unsat unsat 7|\n\
    11 12 sat v 0 true|\n\
    13 13 unsat unsat 7|\n\
    13 13 encode e 5|\n\
    13 0 accepted t and 0 1|sat 2|\n\
    14 15 sat v 0 false|",
};

const OTHER_PROOFS_OF_THE_SAME_SCRIPTS_OF_FALSE: Changes = Changes {
    of: FALSE,
    rows: "1 0 accepted smt_proof 1 cubes 10 budget 0|\n\
    4 0 accepted c -2 0 2.0 0.0|\n\
    4 0 accepted c -2 -2 0 0.0 2.0|",
};

const OTHER_PROOFS_OF_THE_SAME_SCRIPTS_OF_WITH_TERM: Changes = Changes {
    of: WITH_TERM,
    rows: "2 0 accepted t word 2 3|\n\
    2 0 accepted t true|",
};

const OTHER_PROOFS_OF_THE_SAME_SCRIPTS_OF_DENIED: Changes = Changes {
    of: DENIED,
    rows: "8 0 accepted c -3 -4 0 4.0 2.0|",
};

const OTHER_PROOFS_OF_THE_SAME_SCRIPTS_OF_WORDS: Changes = Changes {
    of: WORDS,
    rows: "9 0 accepted v 0 #b00|",
};

const OTHER_PROOFS_OF_THE_SAME_SCRIPTS_OF_TWICE: Changes = Changes {
    of: TWICE,
    rows: "8 0 accepted c -6 0 5.0|\n\
    9 0 accepted unsat 5|",
};

#[test]
fn changes_are_judged_by_their_rules(rt: HostRuntime) -> Result<(), Fail> {
    judge_changes(
        &rt,
        &[
            BAD_HEADERS,
            LINES_THAT_ARE_NONE_OF_A_PROOF,
            STEPS_THAT_ARE_NOT_VALID,
            CHAINS_THAT_ARE_NONE,
            RECORDS_THAT_SHOW_NOTHING,
            TERMS_THAT_CANNOT_BE_MADE,
            MODELS_AND_REFUTATIONS_OF_TWO_CHECKS,
            VALUES_OF_WORDS,
            LEVELS_AND_THE_END_OF_A_RUN,
            ASSUMPTIONS_ARE_OF_THEIR_CHECK_ALONE,
            OTHER_PROOFS_OF_THE_SAME_SCRIPTS_OF_FALSE,
            OTHER_PROOFS_OF_THE_SAME_SCRIPTS_OF_WITH_TERM,
            OTHER_PROOFS_OF_THE_SAME_SCRIPTS_OF_DENIED,
            OTHER_PROOFS_OF_THE_SAME_SCRIPTS_OF_WORDS,
            OTHER_PROOFS_OF_THE_SAME_SCRIPTS_OF_TWICE,
        ],
    )
}
