//! Lines of equalities and lemmas beside their scripts: which are accepted, and of a changed proof the first bad line and
//! its rule.

use accepted_proof::refusal::Refusal;
use accepted_proof::refusal::RuleName::{self, Chain, Equal, Lemma, Line, Node};
use proof_checker::checking::{Checking, Progress};
use std::alloc::{AllocError, AllocGlobal, Global};
use std::process::Abort;
use std::test::Fail;

/// A script, and the lines of a proof of it.
pub(crate) struct Proof {
    pub script: &'static [u8],
    pub lines: &'static [&'static [u8]],
}

/// What is shown, a line that is changed, counted from 1, what stands there then, and the first bad line with its rule.
pub(crate) type Change = (&'static str, usize, &'static [u8], Option<(u64, RuleName)>);

/// Feeds the script, and the proof with this line in place of its own.
fn feed(
    checking: &mut Checking,
    proof: &Proof,
    changed: usize,
    by: &[u8],
) -> Result<(), AllocError> {
    checking.feed_script(proof.script)?;
    checking.end_script();
    for (number, line) in proof.lines.iter().enumerate() {
        let line = if number + 1 == changed { by } else { *line };
        checking.feed_proof(line)?;
    }
    checking.end_proof();
    Ok(())
}

/// Whether a proof with this line in place of its own is judged so.
fn is_judged(
    alloc: Global,
    proof: &Proof,
    changed: usize,
    by: &[u8],
    wanted: Option<Refusal>,
) -> Result<bool, AllocError> {
    let mut checking = Checking::new(alloc);
    if feed(&mut checking, proof, changed, by).is_err() {
        drop(checking);
        return Err(AllocError);
    }
    for _ in 0..3 {
        match checking.advance(alloc)? {
            Progress::Shown(next, _) => checking = next,
            Progress::Done(judgement) => {
                let refusal = judgement.refusal;
                drop(judgement);
                return Ok(refusal == wanted);
            }
            Progress::Script(held) | Progress::Proof(held) => {
                drop(held);
                return Ok(false);
            }
        }
    }
    drop(checking);
    Ok(false)
}

/// Checks a proof, and then each changed one.
pub(crate) fn walk(
    rt: &(impl Abort + AllocGlobal),
    proof: &Proof,
    changes: &[Change],
) -> Result<(), Fail> {
    let alloc = rt.alloc();
    let whole = is_judged(alloc, proof, 0, b"", None)?;
    assert!(rt; whole, "the proof as it is");
    for (what, number, line, wanted) in changes {
        let refusal = wanted.map(|(line, rule)| Refusal { line, rule });
        let is_so = is_judged(alloc, proof, *number, line, refusal)?;
        assert!(rt; is_so, "{what}");
    }
    Ok(())
}

/// What is stored at an index is selected there. The terms are 0 a, 1 i, 2 #b0, 3 the store, 4 the select, 5 #b1 and 6 the
/// equality.
const STORED: Proof = Proof {
    script: b"(declare-const a (Array (_ BitVec 1) (_ BitVec 1))) (declare-const i (_ BitVec 1))
        (assert (= (select (store a i #b0) i) #b1)) (check-sat)",
    lines: &[
        b"smt_proof 1 cubes 0 budget 100000\n",
        b"e 2\n",
        b"f 4\n",
        b"e 5\n",
        b"e 6\n",
        b"q 2 4\n",
        b"l a 3 / 4\n",
        b"s 0\n",
        b"c -7 0 7.0 0.0 4.5 4.3 6.0 5.5 5.3\n",
        b"unsat 8\n",
    ],
};

#[test]
fn accesses_of_one_array_are_judged(rt: HostRuntime) -> Result<(), Fail> {
    walk(
        &rt,
        &STORED,
        &[
            ("accesses turned round", 7, b"l a 4 / 3\n", None),
            ("a pair turned round", 6, b"q 4 2\n", Some((6, Equal))),
            ("a term and itself", 6, b"q 2 2\n", Some((6, Equal))),
            ("a pair of two sorts", 6, b"q 2 6\n", Some((6, Equal))),
            ("a term without bits", 6, b"q 1 2\n", Some((6, Equal))),
            ("a pair with an array", 6, b"q 0 3\n", Some((6, Equal))),
            ("a pair with no term", 6, b"q 2 7\n", Some((6, Equal))),
            ("a pair twice", 7, b"q 2 4\n", Some((7, Equal))),
            ("no equality of values", 6, b"l a 3 / 4\n", Some((6, Lemma))),
            ("no access", 7, b"l a 3 / 2\n", Some((7, Lemma))),
            ("no term", 7, b"l a 3 / 7\n", Some((7, Lemma))),
            ("two arrays", 7, b"l a 3 w 3 / 4\n", Some((7, Lemma))),
            ("a move of no term", 7, b"l a 3 w 7 / 4\n", Some((7, Lemma))),
            ("another move", 7, b"l a 3 t 3 / 4\n", Some((7, Lemma))),
            ("no applications", 7, b"l c 4 4\n", Some((7, Lemma))),
            ("a witness of words", 7, b"l w 6\n", Some((7, Lemma))),
            ("no such lemma", 7, b"l q 3 4\n", Some((7, Line))),
            ("another lemma", 7, b"l a 3 / 3\n", Some((9, Chain))),
            ("no second clause", 9, b"c -7 0 6.1\n", Some((9, Chain))),
        ],
    )
}

/// Equal arguments have equal values. The terms are 0 x, 1 #b1, 2 its equality with x, 3 (f x), 4 #b0, 5 their equality,
/// 6 (f #b1) and 7 its equality with #b1.
const CONGRUENT: Proof = Proof {
    script: b"(declare-fun f ((_ BitVec 1)) (_ BitVec 1)) (declare-const x (_ BitVec 1))
        (assert (= x #b1)) (assert (= (f x) #b0)) (assert (= (f #b1) #b1)) (check-sat)",
    lines: &[
        b"smt_proof 1 cubes 0 budget 100000\n",
        b"f 0\n",
        b"e 1\n",
        b"e 2\n",
        b"f 3\n",
        b"f 6\n",
        b"e 4\n",
        b"e 5\n",
        b"e 7\n",
        b"q 0 1\n",
        b"q 3 6\n",
        b"l c 3 6\n",
        b"s 0\n",
        b"s 1\n",
        b"s 2\n",
        b"c -15 -16 -17 0 12.0 13.0 14.0 0.0 3.5 3.3 7.5 7.2 8.5 8.3 9.1 9.6 11.0 10.5 10.3\n",
        b"unsat 15\n",
    ],
};

#[test]
fn applications_to_equal_arguments_are_judged(rt: HostRuntime) -> Result<(), Fail> {
    walk(
        &rt,
        &CONGRUENT,
        &[
            ("applications turned round", 12, b"l c 6 3\n", None),
            (
                "no equality of the values",
                11,
                b"l c 3 6\n",
                Some((11, Lemma)),
            ),
            ("no application", 12, b"l c 3 5\n", Some((12, Lemma))),
            ("no term", 12, b"l c 3 8\n", Some((12, Lemma))),
            (
                "an access of no array",
                12,
                b"l a 3 / 6\n",
                Some((12, Lemma)),
            ),
            ("one application", 12, b"l c 3 3\n", Some((16, Chain))),
        ],
    )
}

/// A constant array has its word at each index, over words alone: the terms are 0 x, 1 #b1, 2 its equality with x, 3 #b0
/// and 4 its equality with x, and the lines make 5, the constant array of x, 6, its select at #b1, and 7, a word of two bits.
const FILLED: Proof = Proof {
    script: b"(declare-const x (_ BitVec 1)) (assert (= x #b1)) (assert (= x #b0)) (check-sat)",
    lines: &[
        b"smt_proof 1 cubes 0 budget 100000\n",
        b"f 0\n",
        b"e 1\n",
        b"e 2\n",
        b"e 3\n",
        b"e 4\n",
        b"t const 1 0\n",
        b"t select 5 1\n",
        b"t word 2 1\n",
        b"f 6\n",
        b"q 0 6\n",
        b"l a 5@1 / 6\n",
        b"s 0\n",
        b"s 1\n",
        b"c -10 -11 0 12.0 0.0 3.5 3.3 11.0 10.5 10.2 13.0 5.5 5.2\n",
        b"unsat 14\n",
    ],
};

#[test]
fn accesses_of_constant_arrays_are_judged(rt: HostRuntime) -> Result<(), Fail> {
    walk(
        &rt,
        &FILLED,
        &[
            ("another width", 12, b"l a 5@7 / 6\n", Some((12, Lemma))),
            ("a Bool", 12, b"l a 5@2 / 6\n", Some((12, Lemma))),
            ("no term", 12, b"l a 5@8 / 6\n", Some((12, Lemma))),
            ("no constant array", 12, b"l a 1@1 / 6\n", Some((12, Lemma))),
            ("no array there", 12, b"l a 8@1 / 6\n", Some((12, Lemma))),
            (
                "no equality of indexes",
                12,
                b"l a 5@3 / 6\n",
                Some((12, Lemma)),
            ),
            ("no index", 12, b"l a 5 / 6\n", Some((12, Lemma))),
            ("other indexes", 7, b"t const 2 0\n", Some((8, Node))),
        ],
    )
}
