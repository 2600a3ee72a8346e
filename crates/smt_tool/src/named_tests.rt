//! Names of terms, assumptions, values and cores: their errors and their answers.

use crate::worked::{Rows, Table, judge};
use std::test::Fail;

const NAMES_THAT_CANNOT_BE_GIVEN: Table = Table {
    what: "names that cannot be given: symbol already declared",
    rows: Rows::Told(
        b"symbol already declared",
        &[
            b"(assert (! p :named p))",
            b"(assert (! p :named |q|))",
            b"(assert (! p :named a :named a))",
            b"(assert (and (! p :named a) (! q :named a)))",
            b"(assert (! p :named a))(assert (! q :named a))",
            b"(assert (! p :named a))(declare-const a Bool)",
            b"(assert (! p :named a))(define-fun a () Bool q)",
            b"(define-fun f ((a Bool)) Bool a)(assert (! p :named f))",
            b"(assert (! p :named a))(push 1)(assert (! q :named a))",
        ],
    ),
};

const RESERVED_NAMES: Table = Table {
    what: "names that cannot be given: reserved symbol",
    rows: Rows::Told(
        b"reserved symbol",
        &[
            b"(assert (! p :named let))",
            b"(assert (! p :named |let|))",
            b"(assert (! p :named and))",
            b"(assert (! p :named check-sat))",
            b"(assert (! p :named exists))",
        ],
    ),
};

const FAULTS_BESIDE_NAMES: Table = Table {
    what: "faults beside names",
    rows: Rows::Told(
        b"unknown symbol",
        &[
            b"(assert a)(assert (! p :named a))",
            b"(assert (and a (! p :named a)))",
            b"(assert (! nope :named let))",
            b"(push 1)(assert (! p :named a))(pop 1)(assert a)",
        ],
    ),
};

const NAMES_THAT_ARE_GIVEN: Table = Table {
    what: "names that are given",
    rows: Rows::Taken(&[
        b"(assert (! p :named a))(assert a)",
        b"(assert (! p :named |a b|))(assert |a b|)",
        b"(assert (and (! p :named a) a))",
        b"(assert (! p :named a :named b))(assert (= a b))",
        b"(assert (= (! x :named a) a))(assert (= a x))",
        b"(assert (let ((a p)) (! a :named a)))(assert (= a p))",
        b"(assert (let ((b x)) (= (! (bvadd b b) :named c) c)))(assert (= c (bvadd x x)))",
        b"(assert (! p :a :named a :b 5))(assert a)",
        b"(push 1)(assert (! p :named a))(pop 1)(assert (! p :named a))",
        b"(push 1)(assert (! p :named a))(reset-assertions)(declare-const a Bool)",
    ]),
};

const TERMS_THAT_CANNOT_BE_ASKED_FOR: Table = Table {
    what: "terms that cannot be asked for: unknown symbol",
    rows: Rows::Told(
        b"unknown symbol",
        &[
            b"(check-sat-assuming (nope))",
            b"(check-sat-assuming (p nope x))",
            b"(get-value (nope))",
            b"(set-option :produce-models false)(get-value (p nope))",
        ],
    ),
};

const ASKED_TERMS_OF_WRONG_SORTS: Table = Table {
    what: "terms that cannot be asked for: wrong number or sorts of arguments",
    rows: Rows::Told(
        b"wrong number or sorts of arguments",
        &[
            b"(check-sat-assuming (x))",
            b"(check-sat-assuming (x nope))",
            b"(check-sat-assuming (p (and q x)))",
            b"(get-value ((bvadd x p)))",
        ],
    ),
};

const ASKED_TERMS_THAT_ARE_NOT_SUPPORTED: Table = Table {
    what: "terms that cannot be asked for: not supported",
    rows: Rows::Told(
        b"not supported",
        &[
            b"(check-sat-assuming ((! p :named a)))",
            b"(get-value ((! p :named a)))",
            b"(get-value (x 5))",
        ],
    ),
};

const REFUTATIONS_THAT_DO_NOT_STAND: Table = Table {
    what: "refutations that do not stand",
    rows: Rows::Answered(&[
        (
            b"(check-sat) (get-unsat-core)",
            b"sat\n(error \"line 1: no refutation stands\")\n",
        ),
        (
            b"(assert false) (check-sat) (get-unsat-assumptions)",
            b"unsat\n(error \"line 1: no refutation stands\")\n",
        ),
        (
            b"(assert false) (check-sat) (get-value (true))",
            b"unsat\n(error \"line 1: no model stands\")\n",
        ),
        (
            b"(check-sat-assuming (false)) (push 1) (get-unsat-assumptions)",
            b"unsat\n(error \"line 1: no refutation stands\")\n",
        ),
        (
            b"(check-sat-assuming (false)) (check-sat) (get-unsat-core)",
            b"unsat\nsat\n(error \"line 1: no refutation stands\")\n",
        ),
    ]),
};

const CORES: Table = Table {
    what: "cores",
    rows: Rows::Answered(&[
        (
            b"(declare-const p Bool) (declare-const q Bool) (assert (! (= p q) :named a)) (assert (! p :named b)) (assert (! (not q) :named c)) (check-sat) (get-unsat-core)",
            b"unsat\n(a b c)\n",
        ),
        (
            b"(declare-const x (_ BitVec 4)) (declare-const y (_ BitVec 4)) (declare-const z (_ BitVec 4)) (assert (! (bvult x y) :named a)) (assert (! (bvult y z) :named b)) (assert (! (bvult z x) :named c)) (check-sat) (get-unsat-core)",
            b"unsat\n(a b c)\n",
        ),
        // An assertion within a level that is gone is in no core, nor is one without a name.
        (
            b"(declare-const p Bool) (push 1) (assert (! p :named a)) (pop 1) (assert p) (assert (! (not p) :named |b c|)) (check-sat) (get-unsat-core)",
            b"unsat\n(|b c|)\n",
        ),
        // A name within the term names no assertion; of two the first does.
        (
            b"(declare-const p Bool) (assert (not (! p :named a))) (assert (! p :named b :named c)) (check-sat) (get-unsat-core)",
            b"unsat\n(b)\n",
        ),
    ]),
};

const ASSUMPTIONS: Table = Table {
    what: "assumptions",
    rows: Rows::Answered(&[
        (
            b"(declare-const p Bool) (check-sat-assuming (p (not p))) (get-unsat-assumptions) (check-sat)",
            b"unsat\n(p (not p))\nsat\n",
        ),
        (
            b"(declare-const p Bool) (declare-const q Bool) (assert (not p)) (check-sat-assuming (q |p| p)) (get-unsat-assumptions)",
            b"unsat\n(|p| p)\n",
        ),
        (b"(check-sat-assuming ())", b"sat\n"),
        (
            b"(declare-const p Bool) (check-sat-assuming (p)) (get-model)",
            b"sat\n(\n(define-fun p () Bool true)\n)\n",
        ),
    ]),
};

const VALUES_OF_TERMS: Table = Table {
    what: "values of terms",
    rows: Rows::Answered(&[
        (
            b"(declare-const x (_ BitVec 8)) (assert (= x #x05)) (check-sat) (get-value (x (bvadd x x)))",
            b"sat\n((x #b00000101) ((bvadd x x) #b00001010))\n",
        ),
        (
            b"(check-sat) (get-value ((bvsdiv #x80 #xff) (bvsrem #xf9 #x03) (bvashr #x80 #x09) ((_ rotate_left 9) #x81)))",
            b"sat\n(((bvsdiv #x80 #xff) #b10000000) ((bvsrem #xf9 #x03) #b11111111) ((bvashr #x80 #x09) #b11111111) (((_ rotate_left 9) #x81) #b00000011))\n",
        ),
        (
            b"(check-sat) (get-value ( |true| #xAb\t( not ; a comment\n false ) (let ((|nn| true)) nn)))",
            b"sat\n((|true| true) (#xAb #b10101011) ((not false) true) ((let ((|nn| true)) nn) true))\n",
        ),
        // The terms are forgotten, so the next ones have the same numbers.
        (
            b"(declare-const x (_ BitVec 4)) (assert (= x #x5)) (check-sat) (get-value ((bvnot x))) (get-value ((bvneg x) (bvnot x))) (assert (= (bvneg x) #xb)) (check-sat)",
            b"sat\n(((bvnot x) #b1010))\n(((bvneg x) #b1011) ((bvnot x) #b1010))\nsat\n",
        ),
    ]),
};

const WORDS_AT_THEIR_EDGES: Table = Table {
    what: "words at their edges",
    rows: Rows::Answered(&[
        (
            b"(declare-const x (_ BitVec 8)) (assert (distinct (bvudiv x #x00) #xff)) (check-sat)",
            b"unsat\n",
        ),
        (
            b"(declare-const x (_ BitVec 4)) (assert (not (= (bvurem x #x0) x))) (check-sat)",
            b"unsat\n",
        ),
        (
            b"(declare-const x (_ BitVec 8)) (assert (= x #x07)) (check-sat) (get-value ((bvudiv x #x00) (bvurem x #x00)))",
            b"sat\n(((bvudiv x #x00) #b11111111) ((bvurem x #x00) #b00000111))\n",
        ),
        (
            b"(declare-const y (_ BitVec 8)) (assert (= y (bvsmod #xf9 #x03))) (check-sat) (get-value (y))",
            b"sat\n((y #b00000010))\n",
        ),
        (
            b"(declare-const x (_ BitVec 128)) (assert (= x (_ bv340282366920938463463374607431768211455 128))) (check-sat) (get-value (((_ extract 127 120) x)))",
            b"sat\n((((_ extract 127 120) x) #b11111111))\n",
        ),
        (
            b"(declare-const x (_ BitVec 128)) (assert (= (concat x #b0) (concat x #b0))) (check-sat)",
            b"(error \"line 1: width out of range\")\nsat\n",
        ),
        (
            b"(push 1) (declare-const x (_ BitVec 8)) (assert (distinct x x)) (check-sat) (pop 1) (declare-const x (_ BitVec 4)) (assert (= x #xf)) (check-sat) (get-value (x))",
            b"unsat\nsat\n((x #b1111))\n",
        ),
    ]),
};

#[test]
fn names_of_terms_assumptions_values_and_cores(rt: HostRuntime) -> Result<(), Fail> {
    judge(
        &rt,
        &[
            NAMES_THAT_CANNOT_BE_GIVEN,
            RESERVED_NAMES,
            FAULTS_BESIDE_NAMES,
            NAMES_THAT_ARE_GIVEN,
            TERMS_THAT_CANNOT_BE_ASKED_FOR,
            ASKED_TERMS_OF_WRONG_SORTS,
            ASKED_TERMS_THAT_ARE_NOT_SUPPORTED,
            REFUTATIONS_THAT_DO_NOT_STAND,
            CORES,
            ASSUMPTIONS,
            VALUES_OF_TERMS,
            WORDS_AT_THEIR_EDGES,
        ],
    )
}
