//! Answers to commands, models, spent cubes, and the end of a run.

use crate::worked::{SOLVE, is_answered};

/// All four clauses over two names.
const TWO_NAMES: &[u8] =
    b"(declare-const p Bool) (declare-const q Bool) (assert (or p q)) (assert (or p (not q))) (assert (or (not p) q)) (assert (or (not p) (not q))) (check-sat) (get-info :reason-unknown)";

/// What a script shows, the words by which it is solved, and its answers.
const COMMANDS: [(&str, &[&str], &[u8], &[u8]); 11] = [
    (
        "success is told where the option says so",
        SOLVE,
        b"(set-logic QF_BV) (set-option :print-success true) (push) (exit) (pop)",
        b"success\nsuccess\nsuccess\n",
    ),
    (
        "lines are said",
        SOLVE,
        b"(echo \"a\"\"b\") (push 2) (get-info :assertion-stack-levels) (get-proof)",
        b"\"a\"\"b\"\n(:assertion-stack-levels 2)\nunsupported\n",
    ),
    (
        "a popped assertion is not searched",
        SOLVE,
        b"(declare-const p Bool) (assert p) (push 1) (assert (not p)) (check-sat) (pop 1) (check-sat)",
        b"unsat\nsat\n",
    ),
    (
        "a model is that of the last check",
        SOLVE,
        b"(declare-const |a b| Bool) (push) (assert |a b|) (check-sat) (pop) (declare-const x (_ BitVec 3)) (assert (= x #b101)) (assert (not |a b|)) (check-sat) (get-model)",
        b"sat\nsat\n(\n(define-fun |a b| () Bool false)\n(define-fun x () (_ BitVec 3) #b101)\n)\n",
    ),
    (
        "no model stands after a reset",
        SOLVE,
        b"(check-sat) (reset)\n(get-model)",
        b"sat\n(error \"line 2: no model stands\")\n",
    ),
    (
        "assumptions hold for their check alone",
        SOLVE,
        b"(declare-const p Bool) (check-sat-assuming (p (not   p))) (get-unsat-assumptions) (check-sat)\n(get-unsat-assumptions)",
        b"unsat\n(p (not p))\nsat\n(error \"line 2: no refutation stands\")\n",
    ),
    (
        "a core has the names in the order of assertion",
        SOLVE,
        b"(declare-const p Bool) (declare-const q Bool) (assert (! (=> p q) :named c)) (assert (! p :named |b d|)) (assert (! (not q) :named a)) (check-sat)\n(get-value (p))\n(get-unsat-core)",
        b"unsat\n(error \"line 2: no model stands\")\n(c |b d| a)\n",
    ),
    (
        "values are told of terms that no check reached",
        SOLVE,
        b"(declare-const x (_ BitVec 8)) (assert (= x #b00000101)) (check-sat) (get-value (x (bvadd x x))) (get-value ((bvult x x)))",
        b"sat\n((x #b00000101) ((bvadd x x) #b00001010))\n(((bvult x x) false))\n",
    ),
    (
        "without a budget the answer is not known",
        &["solve", "PROOF", "--cubes", "0", "--budget", "0"],
        TWO_NAMES,
        b"unknown\n(:reason-unknown incomplete)\n",
    ),
    (
        "closed cubes are joined to a refutation",
        &["solve", "PROOF", "--cubes", "1", "--budget", "0"],
        TWO_NAMES,
        b"unsat\n(error \"line 1: no unknown answer stands\")\n",
    ),
    (
        "a spent cube does not stop the later ones",
        &["solve", "PROOF", "--cubes", "1", "--budget", "0"],
        b"(declare-const p Bool) (declare-const q Bool) (declare-const r Bool) (assert (=> p (or q r))) (assert (=> p (or q (not r)))) (assert (=> p (or (not q) r))) (assert (=> p (or (not q) (not r)))) (check-sat) (get-value (p))",
        b"sat\n((p false))\n",
    ),
];

#[test]
fn commands_are_answered(rt: HostRuntime) {
    for (what, words, script, answers) in &COMMANDS {
        assert!(rt; is_answered(&rt, words, script, answers, None), "{what}");
    }
}
