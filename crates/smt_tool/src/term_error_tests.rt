//! The errors of terms.

use crate::worked::{Rows, Table, judge};
use std::test::Fail;

const WRONG_ARGUMENTS: Table = Table {
    what: "wrong arguments",
    rows: Rows::Told(
        b"wrong number or sorts of arguments",
        &[
            b"(assert x)",
            b"(assert (bvadd x x))",
            b"(assert (bvadd x))",
            b"(assert (concat x))",
            b"(assert (and p))",
            b"(assert (=> p))",
            b"(assert (= p))",
            b"(assert (distinct p))",
            b"(assert (not p q))",
            b"(assert (and p x))",
            b"(assert (= p x))",
            b"(assert (= x #x1))",
            b"(assert (= x x #x1))",
            b"(assert (distinct x x p))",
            b"(assert (ite p q))",
            b"(assert (ite p q x))",
            b"(assert (ite x p q))",
            b"(assert (ite p q q q))",
            b"(assert (= x (bvsub x x x)))",
            b"(assert (= x (bvudiv x x x)))",
            b"(assert (bvult x x x))",
            b"(assert (bvult x w))",
            b"(assert (= x (bvneg x x)))",
            b"(assert (p q))",
            b"(assert (true p))",
            b"(assert and)",
            b"(assert (and (bvadd x p) nope))",
            b"(assert (= x (concat w p)))",
            b"(assert (= x (concat w w p)))",
            b"(assert (let ((a p)) (a p)))",
            b"(assert (let ((a p)) ((_ a 1) p)))",
            b"(assert (let ((a x)) a))",
            b"(assert (let ((p x)) p))",
            b"(assert (! x :a))",
        ],
    ),
};

const WRONG_INDICES: Table = Table {
    what: "wrong indices",
    rows: Rows::Told(
        b"wrong number or sorts of arguments",
        &[
            b"(assert (extract x))",
            b"(assert extract)",
            b"(assert (= x ((_ extract 3) x)))",
            b"(assert (= x ((_ extract 3 2 1) x)))",
            b"(assert (= x ((_ extract 8 0) x)))",
            b"(assert (= x ((_ extract 0 1) x)))",
            b"(assert (= x ((_ extract 7 0) x x)))",
            b"(assert (= x ((_ extract 18446744073709551616 0) x)))",
            b"(assert (= x ((_ rotate_left 1 2) x)))",
            b"(assert (= x ((_ repeat 2) p)))",
            b"(assert (= x ((_ zero_extend 121) p)))",
            b"(assert (= x ((_ bvadd 1) x x)))",
            b"(assert (= x ((_ x 1) x)))",
            b"(define-fun f ((a Bool)) Bool ((_ a 1) p))",
        ],
    ),
};

const WRONG_BODIES_AND_USES_OF_DEFINITIONS: Table = Table {
    what: "wrong bodies and uses of definitions",
    rows: Rows::Told(
        b"wrong number or sorts of arguments",
        &[
            b"(define-fun f () Bool x)",
            b"(define-fun f () (_ BitVec 7) x)",
            b"(define-fun f ((a Bool)) (_ BitVec 8) a)",
            b"(define-fun f ((a (_ BitVec 8))) Bool (not a))",
            b"(define-fun f ((a (_ BitVec 8))) Bool (and (bvult a x p) nope))",
            b"(define-fun f ((a Bool)) Bool (a p))",
            b"(define-fun f () Bool p)(assert (f p))",
            b"(define-fun f () Bool p)(assert ((_ f 1) p))",
            b"(define-fun f () (_ BitVec 8) x)(assert f)",
            b"(define-fun f ((a Bool)) Bool a)(assert f)",
            b"(define-fun f ((a Bool)) Bool a)(assert (f x))",
            b"(define-fun f ((a Bool)) Bool a)(assert (f p p))",
            b"(define-fun f ((a Bool)) Bool a)(assert ((_ f 1) p))",
            b"(define-fun f ((a Bool) (b (_ BitVec 8))) Bool a)(assert (f p))",
            b"(define-fun f ((a Bool) (b (_ BitVec 8))) Bool a)(assert (f x p))",
            b"(define-fun f ((a Bool)) (_ BitVec 8) x)(assert (f p))",
        ],
    ),
};

const A_LITERAL_TOO_WIDE: Table = Table {
    what: "a literal too wide",
    rows: Rows::Told(
        b"literal too wide",
        &[
            b"(assert (= x (_ bv256 8)))",
            b"(assert (= x (_ bv340282366920938463463374607431768211456 8)))",
            b"(assert (= w (_ bv340282366920938463463374607431768211456 128)))",
            b"(assert (= w #x000000000000000000000000000000000))",
            b"(assert (= w #b000000000000000000000000000000000000000000000000000000000000000000000000000000000000000000000000000000000000000000000000000000000))",
            b"(assert (= (_ bv256 8) nope))",
        ],
    ),
};

const TERMS_THAT_ARE_TAKEN: Table = Table {
    what: "terms that are taken",
    rows: Rows::Taken(&[
        b"(assert (let ((x p)) x))",
        b"(assert (let ((p q) (q p)) (= p q)))",
        b"(assert (let ((a p)) (let ((a x)) (= a x))))",
        b"(assert (! p :a (let () q) :b 5 :c))",
        b"(assert (! p :a :b (c) :d))",
        b"(assert (! (! p :a) :a))",
        b"(assert (= p p p))",
        b"(assert (=> p q (not p) p))",
        b"(assert (distinct #b00 #b01 #b10 #b11))",
        b"(assert (= (bvadd x x x) (bvmul x #x03)))",
        b"(assert (= w (_ bv340282366920938463463374607431768211455 128)))",
        b"(assert (= x ((_ rotate_left 340282366920938463463374607431768211456) x)))",
        b"(assert (= x ((_ rotate_right 18446744073709551616) x)))",
        b"(assert (= (concat #b0 #b1 #b1) #b011))",
    ]),
};

const DEFINITIONS_THAT_ARE_TAKEN: Table = Table {
    what: "definitions that are taken",
    rows: Rows::Taken(&[
        b"(define-fun f () Bool p)(assert f)(assert (let ((f x)) (= f x)))",
        b"(define-fun f () (_ BitVec 8) (bvadd x #x01))(declare-fun r () (_ BitVec 8))(assert (= r f))",
        b"(define-fun f ((a Bool)) Bool (not a))(assert (f (f p)))",
        b"(define-fun f ((a Bool) (b (_ BitVec 8))) (_ BitVec 8) (ite a b x))(assert (= (f p x) x))",
        b"(define-fun f ((a Bool) (b Bool)) Bool a)(define-fun g ((b Bool)) Bool (f b b))(assert (g p))",
        b"(define-fun f ((x Bool)) Bool (and x p))(assert (f p))",
        b"(define-fun f ((f Bool)) Bool f)(assert (f p))",
        b"(define-fun f ((a Bool)) Bool (let ((a x)) (= a x)))(assert (f p))",
        b"(define-fun f ((true1 Bool)) Bool true1)(assert (|f| p))",
        b"(define-sort W () (_ BitVec 8))(define-fun inc ((v W)) W (bvadd v #x01))(assert (= (inc #x04) #x05))",
    ]),
};

#[test]
fn terms(rt: HostRuntime) -> Result<(), Fail> {
    judge(
        &rt,
        &[
            WRONG_ARGUMENTS,
            WRONG_INDICES,
            WRONG_BODIES_AND_USES_OF_DEFINITIONS,
            A_LITERAL_TOO_WIDE,
            TERMS_THAT_ARE_TAKEN,
            DEFINITIONS_THAT_ARE_TAKEN,
        ],
    )
}
