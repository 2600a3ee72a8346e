//! Proofs of the second format beside their scripts: which are accepted, and of a changed proof the first bad line and its
//! rule.

use crate::lemma_tests::{Proof, walk};
use accepted_proof::refusal::RuleName::{Chain, Delete, Diary, End, Header, Line, Unsat};
use std::test::Fail;

/// The chain of the first check is deleted, and written again for the second, at position 4.
const WRITTEN_AGAIN: Proof = Proof {
    script: b"(assert false) (check-sat) (check-sat)",
    lines: &[
        b"smt_proof 2 cubes 0 budget 100000\n",
        b"e 0\n",
        b"s 0\n",
        b"c -2 0 0.0 2.0\n",
        b"unsat 3\n",
        b"d 3\n",
        b"c -2 0 0.0 2.0\n",
        b"unsat 4\n",
    ],
};

#[test]
fn deletions_are_judged(rt: HostRuntime) -> Result<(), Fail> {
    walk(
        &rt,
        &WRITTEN_AGAIN,
        &[
            (
                "the first format",
                1,
                b"smt_proof 1 cubes 0 budget 100000\n",
                Some((6, Line)),
            ),
            (
                "no format",
                1,
                b"smt_proof 3 cubes 0 budget 100000\n",
                Some((1, Header)),
            ),
            ("no deletion", 6, b"", None),
            ("the other chain", 8, b"d 4\nunsat 4\n", Some((9, Unsat))),
            ("a deleted refutation", 8, b"unsat 3\n", Some((8, Unsat))),
            ("a deleted hint", 7, b"c -2 0 3.0\n", Some((7, Chain))),
            ("entry 0", 6, b"d 0\n", Some((6, Delete))),
            ("a circuit", 6, b"d 1\n", Some((6, Delete))),
            ("a selector", 6, b"d 2\n", Some((6, Delete))),
            ("no entry", 6, b"d 4\n", Some((6, Delete))),
            ("a place twice", 6, b"d 3 3\n", Some((6, Delete))),
            ("a circuit behind it", 6, b"d 3 1\n", Some((6, Delete))),
            ("deleted before", 7, b"d 3\n", Some((7, Delete))),
            ("no place", 6, b"d\n", Some((6, Line))),
            (
                "behind the last record",
                8,
                b"unsat 4\nd 4\n",
                Some((9, End)),
            ),
        ],
    )
}

/// The same of a diary, whose search begins behind the first chain.
const NOTED_AGAIN: Proof = Proof {
    script: b"(declare-const p Bool) (declare-const q Bool) (assert (or p q)) (assert (or p (not q)))
        (assert (or (not p) q)) (assert (or (not p) (not q))) (check-sat)",
    lines: &[
        b"smt_proof 2 cubes 0 budget 0\n",
        b"f 0\nf 1\ne 2\ne 3\ne 4\ne 5\ne 6\ne 7\ns 0\ns 1\ns 2\ns 3\n",
        b"c 2 -8 -9 0 9.0 10.0 3.2 5.2\n",
        b"d 13\n",
        b"c 2 -8 -9 0 9.0 10.0 3.2 5.2\n",
        b"unknown 0 13 1\n",
        b"+ 14\n",
    ],
};

#[test]
fn diaries_name_nothing_that_was_deleted(rt: HostRuntime) -> Result<(), Fail> {
    walk(
        &rt,
        &NOTED_AGAIN,
        &[
            ("a deleted put", 7, b"+ 13\n", Some((18, Diary))),
            (
                "a deleted take",
                6,
                b"unknown 0 13 2\n= 13\n",
                Some((18, Diary)),
            ),
            ("a deletion in it", 7, b"d 14\n", Some((18, Line))),
            ("no deletion", 4, b"", None),
            ("no entry yet", 4, b"d 14\n", Some((15, Delete))),
        ],
    )
}
