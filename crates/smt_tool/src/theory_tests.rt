//! Functions, arrays and constant arrays.

use crate::worked::is_answered;
use std::test::Fail;

/// By one worker, and by two who split a check.
const WORDS: [&[&str]; 2] = [
    &["solve", "PROOF"],
    &["solve", "PROOF", "--workers", "2", "--cubes", "2"],
];

/// What a script shows, and its answers.
const SCRIPTS: [(&str, &[u8], &[u8]); 8] = [
    (
        "what is stored is read back, and nothing else changes",
        b"(declare-const a (Array (_ BitVec 8) (_ BitVec 8))) (declare-const i (_ BitVec 8)) (declare-const j (_ BitVec 8)) (assert (distinct i j)) (push 1) (assert (distinct (select (store a i #x01) i) #x01)) (check-sat) (pop 1) (assert (distinct (select (store a i #x01) j) (select a j))) (check-sat)\n",
        b"unsat\nunsat\n",
    ),
    (
        "arrays with equal elements are equal",
        b"(declare-const a (Array (_ BitVec 1) (_ BitVec 8))) (declare-const b (Array (_ BitVec 1) (_ BitVec 8))) (assert (= (select a #b0) (select b #b0))) (assert (= (select a #b1) (select b #b1))) (assert (not (= a b))) (check-sat)\n",
        b"unsat\n",
    ),
    (
        "stores at two indexes commute",
        b"(declare-const a (Array (_ BitVec 4) (_ BitVec 4))) (declare-const i (_ BitVec 4)) (declare-const j (_ BitVec 4)) (assert (distinct i j)) (assert (distinct (store (store a i #x1) j #x2) (store (store a j #x2) i #x1))) (check-sat)\n",
        b"unsat\n",
    ),
    (
        "a function has one value for equal arguments",
        b"(declare-fun f ((_ BitVec 4) Bool) (_ BitVec 4)) (declare-const x (_ BitVec 4)) (declare-const y (_ BitVec 4)) (assert (= (bvadd x #x1) y)) (assert (distinct (f (bvsub y #x1) true) (f x true))) (check-sat)\n",
        b"unsat\n",
    ),
    (
        "an application of what is simplified",
        b"(declare-fun g (Bool) Bool) (declare-const x (_ BitVec 2)) (assert (g (= x x))) (check-sat) (get-value ((g true)))\n",
        b"sat\n(((g true) true))\n",
    ),
    (
        "four functions of one bit, and no fifth",
        b"(declare-const a (Array (_ BitVec 1) (_ BitVec 1))) (declare-const b (Array (_ BitVec 1) (_ BitVec 1))) (declare-const c (Array (_ BitVec 1) (_ BitVec 1))) (declare-const d (Array (_ BitVec 1) (_ BitVec 1))) (assert (distinct a b c d)) (check-sat) (declare-const e (Array (_ BitVec 1) (_ BitVec 1))) (assert (distinct a b c d e)) (check-sat)\n",
        b"sat\nunsat\n",
    ),
    (
        "a constant array of two elements by two stores",
        b"(declare-const i (_ BitVec 1)) (declare-const j (_ BitVec 1)) (assert (= (store (store ((as const (Array (_ BitVec 1) (_ BitVec 1))) #b0) i #b1) j #b1) ((as const (Array (_ BitVec 1) (_ BitVec 1))) #b1))) (check-sat) (get-value ((= i j)))\n",
        b"sat\n(((= i j) false))\n",
    ),
    (
        "one of four elements by two stores",
        b"(declare-const i (_ BitVec 2)) (declare-const j (_ BitVec 2)) (assert (= (store (store ((as const (Array (_ BitVec 2) (_ BitVec 1))) #b0) i #b1) j #b1) ((as const (Array (_ BitVec 2) (_ BitVec 1))) #b1))) (check-sat)\n",
        b"unsat\n",
    ),
];

#[test]
fn functions_and_arrays_are_answered(rt: HostRuntime) {
    for words in WORDS {
        for (what, script, answers) in &SCRIPTS {
            assert!(rt; is_answered(&rt, words, script, answers, None), "{what}");
        }
    }
}
