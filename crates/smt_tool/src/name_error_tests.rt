//! The errors of names, and of sorts.

use crate::worked::{Rows, Table, judge};
use std::test::Fail;

const AN_UNKNOWN_SYMBOL: Table = Table {
    what: "an unknown symbol",
    rows: Rows::Told(
        b"unknown symbol",
        &[
            b"(assert nope)",
            b"(assert P)",
            b"(assert (nope p))",
            b"(assert |let|)",
            b"(assert |assert|)",
            b"(assert |p |)",
            b"(assert .5)",
            b"(assert (and nope (bvadd x p)))",
            b"(assert (and (bvadd x nope) p))",
            b"(assert ((_ nope 1) x))",
            b"(assert ((_ |let| 1) x))",
            b"(assert bv1)",
            b"(assert Bool)",
            b"(assert (let ((a nope) (a p)) a))",
            b"(assert (let ((a p) (b a)) b))",
            b"(assert (let ((a p)) (let ((b a)) (and a b c))))",
            b"(assert (and (let ((a p)) a) a))",
            b"(assert (! nope :a 5))",
            b"(define-fun f () Bool nope)",
            b"(define-fun f () Bool f)",
            b"(define-fun f () (_ BitVec 8) nope)",
            b"(define-fun f ((a Bool)) Bool b)",
            b"(define-fun f ((a Bool)) Bool (f a))",
            b"(define-fun f ((a Bool)) Bool a)(assert a)",
            b"(define-sort s () Bool)(assert s)",
            b"(push 1)(declare-const r Bool)(pop 1)(assert r)",
            b"(push 1)(define-fun f ((a Bool)) Bool a)(pop 1)(assert (f p))",
        ],
    ),
};

const AN_UNKNOWN_SORT: Table = Table {
    what: "an unknown sort",
    rows: Rows::Told(
        b"unknown symbol",
        &[
            b"(declare-const r Int)",
            b"(declare-const r Real)",
            b"(declare-const r String)",
            b"(declare-const r Array)",
            b"(declare-const r BitVec)",
            b"(declare-const r bool)",
            b"(declare-const r p)",
            b"(declare-const r |let|)",
            b"(declare-const r bvadd)",
            b"(declare-fun r () Int)",
            b"(define-sort s () s)",
            b"(define-sort s () nope)",
            b"(define-fun f () Int p)",
            b"(define-fun f ((a Bool)) Int nope)",
            b"(define-fun f ((a Int) (b (_ BitVec 0))) Bool p)",
            b"(define-fun f ((b nope) (a (Array (_ BitVec 4) (_ BitVec 4)))) Bool p)",
            b"(push 1)(define-sort s () Bool)(pop 1)(declare-const r s)",
        ],
    ),
};

const A_NAME_THAT_IS_DECLARED: Table = Table {
    what: "a name that is declared",
    rows: Rows::Told(
        b"symbol already declared",
        &[
            b"(declare-const p Bool)",
            b"(declare-const |p| Bool)",
            b"(declare-const p (_ BitVec 4))",
            b"(declare-const p Int)",
            b"(declare-const p (_ BitVec 0))",
            b"(push 1)(declare-const p Bool)",
            b"(assert (let ((a p) (a p)) a))",
            b"(assert (let ((a p) (|a| p)) a))",
            b"(assert (let ((a p) (a nope)) a))",
            b"(declare-fun p () Bool)",
            b"(declare-fun p (Bool) Bool)",
            b"(define-fun p () Bool q)",
            b"(define-fun p () Int nope)",
            b"(define-fun p ((a nope)) Bool a)",
            b"(define-fun f () Bool p)(define-fun f () Bool p)",
            b"(define-fun f () Bool p)(declare-const f Bool)",
            b"(define-fun f ((a Bool)) Bool a)(declare-const f Bool)",
            b"(define-fun f ((a Bool)) Bool a)(define-fun f () Bool p)",
            b"(define-fun f ((a Bool) (a Bool)) Bool a)",
            b"(define-fun f ((a Bool) (a nope)) Bool a)",
            b"(define-sort s () Bool)(define-sort s () Int)",
            b"(define-sort s () Bool)(push 1)(define-sort s () Bool)",
        ],
    ),
};

const A_NAME_THAT_IS_RESERVED: Table = Table {
    what: "a name that is reserved",
    rows: Rows::Told(
        b"reserved symbol",
        &[
            b"(declare-const let Bool)",
            b"(declare-const |let| Bool)",
            b"(declare-const forall Bool)",
            b"(declare-const exists Bool)",
            b"(declare-const match Bool)",
            b"(declare-const as Bool)",
            b"(declare-const par Bool)",
            b"(declare-const ! Bool)",
            b"(declare-const _ Bool)",
            b"(declare-const BINARY Bool)",
            b"(declare-const DECIMAL Bool)",
            b"(declare-const HEXADECIMAL Bool)",
            b"(declare-const NUMERAL Bool)",
            b"(declare-const |STRING| Bool)",
            b"(declare-const assert Bool)",
            b"(declare-const |check-sat| Bool)",
            b"(declare-const get-value Bool)",
            b"(declare-const declare-datatypes Bool)",
            b"(declare-const distinct Bool)",
            b"(declare-const |bvadd| Bool)",
            b"(declare-const extract Bool)",
            b"(declare-const store Bool)",
            b"(declare-const true Int)",
            b"(declare-const and (_ BitVec 0))",
            b"(assert (let ((and p)) p))",
            b"(assert (let ((|let| nope)) p))",
            b"(assert (let ((and p) (and p)) p))",
            b"(assert (let ((a p) (assert p)) a))",
            b"(declare-fun and () Bool)",
            b"(declare-fun and (nope) Bool)",
            b"(define-fun and () Bool nope)",
            b"(define-fun |let| () Bool p)",
            b"(define-fun f ((let Bool)) Bool p)",
            b"(define-fun f ((a Bool) (|and| nope)) Bool p)",
            b"(define-sort Bool () Bool)",
            b"(define-sort BitVec () Int)",
            b"(define-sort |Array| () Bool)",
            b"(define-sort bvadd () Bool)",
            b"(define-sort let () Bool)",
        ],
    ),
};

const NAMES_AND_SORTS_THAT_ARE_TAKEN: Table = Table {
    what: "names and sorts that are taken",
    rows: Rows::Taken(&[
        b"(declare-const word Bool)(declare-const apply Bool)(declare-const const Bool)(assert (and word apply const))",
        b"(declare-const witness Bool)(declare-const Param Bool)(assert (and witness Param))",
        b"(declare-const bv1 Bool)(declare-const Bool Bool)(declare-const Int |Bool|)(assert (and bv1 Bool Int))",
        b"(declare-fun r () Bool)(assert (= r p))",
        b"(define-sort p () Bool)(declare-const r p)(assert r)",
        b"(define-sort s () Bool)(declare-const s s)(assert s)",
        b"(define-sort word () (_ BitVec 8))(declare-const r word)(assert (= r x))",
        b"(define-sort s () (_ BitVec 8))(define-sort u () s)(declare-const r u)(assert (= r x))",
        b"(push 1)(declare-const r Bool)(pop 1)(declare-const r (_ BitVec 8))(assert (= r x))",
        b"(push 1)(define-sort s () Bool)(pop 1)(define-sort s () (_ BitVec 8))(declare-const r s)(assert (= r x))",
    ]),
};

const A_WIDTH_OUT_OF_RANGE: Table = Table {
    what: "a width out of range",
    rows: Rows::Told(
        b"width out of range",
        &[
            b"(declare-const r (_ BitVec 0))",
            b"(declare-const r (_ BitVec 129))",
            b"(declare-const r (_ BitVec 340282366920938463463374607431768211457))",
            b"(declare-fun r () (_ BitVec 129))",
            b"(define-sort s () (_ BitVec 0))",
            b"(define-sort s () (_ BitVec 18446744073709551617))",
            b"(define-fun f () (_ BitVec 0) nope)",
            b"(define-fun f ((a (_ BitVec 0)) (b nope)) Bool p)",
            b"(define-fun f ((a Bool)) (_ BitVec 129) nope)",
            b"(assert (= x (_ bv1 0)))",
            b"(assert (= x (_ bv1 129)))",
            b"(assert (= x (_ bv1 340282366920938463463374607431768211457)))",
            b"(assert (= x (_ bv340282366920938463463374607431768211456 129)))",
            b"(assert (= (concat w #b0) x))",
            b"(assert (= (concat w #b0) nope))",
            b"(assert (= x ((_ zero_extend 121) x)))",
            b"(assert (= x ((_ sign_extend 18446744073709551616) x)))",
            b"(assert (= x ((_ repeat 0) x)))",
            b"(assert (= x ((_ repeat 17) x)))",
        ],
    ),
};

#[test]
fn names_and_sorts(rt: HostRuntime) -> Result<(), Fail> {
    judge(
        &rt,
        &[
            AN_UNKNOWN_SYMBOL,
            AN_UNKNOWN_SORT,
            A_NAME_THAT_IS_DECLARED,
            A_NAME_THAT_IS_RESERVED,
            NAMES_AND_SORTS_THAT_ARE_TAKEN,
            A_WIDTH_OUT_OF_RANGE,
        ],
    )
}
