//! Lines of rewriting beside their script: which are accepted, and of a changed proof the first bad
//! line and its rule.

use crate::lemma_tests::{Proof, walk};
use accepted_proof::refusal::RuleName::{Chain, Line, Rewrite};
use std::test::Fail;

/// A complement taken twice is left out. The terms are 0 x, 1 its complement, 2 that of 1, 3 (= 2 0)
/// and 4 (not 3), and the lines make 5, (= 0 0), and 6, true.
const COMPLEMENT: Proof = Proof {
    script: b"(declare-const x (_ BitVec 8)) (assert (distinct (bvnot (bvnot x)) x)) (check-sat)",
    lines: &[
        b"smt_proof 1 cubes 0 budget 100000\n",
        b"f 0\n",
        b"r 1 2 0\n",
        b"t = 0 0\n",
        b"t true\n",
        b"e 6\n",
        b"r 34 5 6\n",
        b"r 40 3 5\n",
        b"e 4\n",
        b"s 0\n",
        b"c -10 0 9.0 0.0\n",
        b"unsat 10\n",
    ],
};

#[test]
fn uses_of_rules_are_judged(rt: HostRuntime) -> Result<(), Fail> {
    walk(
        &rt,
        &COMPLEMENT,
        &[
            ("another rule", 3, b"r 2 2 0\n", Some((3, Rewrite))),
            ("rule 0", 3, b"r 0 2 0\n", Some((3, Rewrite))),
            ("rule 41", 3, b"r 41 2 0\n", Some((3, Rewrite))),
            (
                "a number of no rule that a byte would cut to one",
                3,
                b"r 257 2 0\n",
                Some((3, Rewrite)),
            ),
            ("a needless zero", 3, b"r 01 2 0\n", Some((3, Line))),
            ("one term", 3, b"r 1 2\n", Some((3, Line))),
            ("three terms", 3, b"r 1 2 0 0\n", Some((3, Line))),
            ("from no term", 3, b"r 1 5 0\n", Some((3, Rewrite))),
            ("to no term", 3, b"r 1 2 5\n", Some((3, Rewrite))),
            ("terms turned round", 3, b"r 1 0 2\n", Some((3, Rewrite))),
            ("another term", 3, b"r 1 2 1\n", Some((3, Rewrite))),
            ("a term that has bits", 4, b"r 1 2 0\n", Some((4, Rewrite))),
            ("a term without bits", 2, b"r 1 2 0\n", Some((2, Rewrite))),
            ("a term alone", 3, b"r 40 2 2\n", Some((3, Rewrite))),
            ("other sides", 7, b"r 34 3 6\n", Some((7, Rewrite))),
            ("no such image", 3, b"e 1\n", Some((8, Rewrite))),
            (
                "an image turned round",
                8,
                b"r 40 5 3\n",
                Some((8, Rewrite)),
            ),
            ("to the last at once", 8, b"r 40 3 6\n", Some((8, Rewrite))),
            ("no clause", 11, b"c -10 0 9.0 7.0\n", Some((11, Chain))),
        ],
    )
}
