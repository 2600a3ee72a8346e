//! Odd commands: whole terms and heads that begin with an underscore, quantifiers, `match` and `as` wherever a term, a head
//! or a sort is wanted, and which of several faults is told.

use crate::worked::{Rows, Table, judge};
use std::test::Fail;

const A_WHOLE_TERM_OF_NO_WORD: Table = Table {
    what: "a whole term behind an underscore that is no word",
    rows: Rows::Told(
        b"malformed command",
        &[
            b"(assert (_ extract 3 0))",
            b"(assert (= x (_ extract 7 0)))",
            b"(assert (_ foo 3))",
            b"(assert (_ foo))",
            b"(assert (_))",
            b"(assert (_ 8))",
            b"(assert (_ BitVec 2))",
            b"(assert (_ bv1 8 8))",
            b"(assert (_ bv 8))",
            b"(assert (_ bv01 8))",
            b"(assert (_ bv00 8))",
            b"(assert (_ bv1 p))",
            b"(assert (_ bv1))",
            b"(assert (_ bv1 8 p))",
            b"(assert (_ bv1 (8)))",
            b"(assert (_ (bv1) 8))",
            b"(assert (_ bv-1 8))",
            b"(assert (_ bv+1 8))",
            b"(assert (_ bv1.0 8))",
            b"(assert (_ bv1a 8))",
            b"(assert (_ bvx 8))",
            b"(assert (_ Bv1 8))",
            b"(assert (_ BV1 8))",
            b"(assert (_ p 0))",
            b"(assert (_ x 3))",
            b"(assert (_ true 1))",
            b"(assert (_ bvadd 3))",
            b"(assert (_ repeat 2))",
            b"(assert (_ const 8))",
            b"(assert (_ \"bv1\" 8))",
            b"(assert (_ :bv1 8))",
            b"(assert (_ #b1 8))",
            b"(assert (_ 1 8))",
            b"(assert (_ let 8))",
            b"(assert (_ as 8))",
            b"(assert (_ _ 8))",
            b"(assert (_ ! 8))",
            b"(assert (_ forall 8))",
            b"(assert (_ assert 8))",
            b"(assert (_ |let| 8))",
            b"(assert (_ |bv 1| 8))",
            b"(assert (_ || 8))",
            b"(assert (_ bv1 #x08))",
            b"(assert (_ bv1 \"8\"))",
            b"(assert (_ bv1 :k))",
            b"(assert (_ bv1 8.0))",
            b"(assert (and p (_ foo 3)))",
            b"(assert (and nope (_ foo 3)))",
            b"(assert (let ((a (_ foo 3))) p))",
            b"(assert (let ((a p)) (_ foo 3)))",
            b"(assert (! (_ foo 3) :named n))",
            b"(assert ((_ extract 7 0) (_ x 8)))",
            b"(check-sat-assuming ((_ foo 3)))",
            b"(get-value ((_ foo 3)))",
            b"(define-fun r () (_ BitVec 8) (_ bv1 8 8))",
        ],
    ),
};

const A_WORD: Table = Table {
    what: "a word",
    rows: Rows::Taken(&[
        b"(assert (bvule (_ bv0 8) x))",
        b"(assert (bvule x (_ |bv255| 8)))",
        b"(assert (bvule w (_ bv340282366920938463463374607431768211455 128)))",
        b"(assert (let ((bv1 x)) (= bv1 x)))",
        b"(define-fun bv3 () (_ BitVec 8) (_ bv3 8))",
    ]),
};

const A_WORD_OF_NO_WIDTH: Table = Table {
    what: "a word of no width",
    rows: Rows::Told(
        b"width out of range",
        &[
            b"(assert (= x (_ bv1 0)))",
            b"(assert (= x (_ bv1 129)))",
            b"(assert (= x (_ bv99999 0)))",
            b"(assert (= x (_ bv1 99999999999999999999999)))",
            b"(assert ((_ repeat 0) x))",
            b"(assert ((_ repeat 17) x))",
            b"(assert ((_ zero_extend 121) x))",
            b"(assert ((_ sign_extend 18446744073709551616) x))",
        ],
    ),
};

const A_WORD_THAT_IS_TOO_WIDE: Table = Table {
    what: "a word that is too wide",
    rows: Rows::Told(
        b"literal too wide",
        &[
            b"(assert (= x (_ bv256 8)))",
            b"(assert (= w (_ bv340282366920938463463374607431768211456 128)))",
            b"(assert (= (_ bv256 8) exists))",
        ],
    ),
};

const A_HEAD_THAT_NOTHING_IS: Table = Table {
    what: "a head that nothing is",
    rows: Rows::Told(
        b"unknown symbol",
        &[
            b"(assert ((_ bv3 8) x))",
            b"(assert ((_ bv3 8 8) x))",
            b"(assert ((_ bv01 8) x))",
            b"(assert ((_ bv 8) x))",
            b"(assert (bv3 x))",
            b"(assert bv3)",
            b"(assert ((_ foo 3) x))",
            b"(assert ((_ foo 3 4 5) x))",
            b"(assert ((_ |foo| 3) x))",
            b"(assert ((_ BitVec 8) x))",
            b"(assert ((_ Bool 1) p))",
            b"(assert ((_ const 1) x))",
            b"(assert ((_ apply 1) p))",
            b"(assert ((_ word 1) x))",
            b"(assert ((_ |forall| 1) p))",
            b"(assert |forall|)",
            b"(assert (|as| p Bool))",
            b"(assert (|_| bv1 x))",
            b"(assert (|match| p))",
            b"(declare-const r |match|)",
            b"(assert (and nope forall))",
            b"(assert (= nope (forall)))",
            b"(assert (let ((a nope) (b forall)) p))",
            b"(define-fun r ((a nope) (b forall)) Bool p)",
        ],
    ),
};

const A_KNOWN_HEAD_WITH_OTHER_INDICES: Table = Table {
    what: "a known head with other indices or arguments",
    rows: Rows::Told(
        b"wrong number or sorts of arguments",
        &[
            b"(assert ((_ bvadd 1) x x))",
            b"(assert ((_ and 1) p q))",
            b"(assert ((_ true 1) p))",
            b"(assert ((_ ite 1) p q q))",
            b"(assert ((_ = 1) p q))",
            b"(assert ((_ distinct 1) p q))",
            b"(assert ((_ p 1) x))",
            b"(assert ((_ x 1 2) x))",
            b"(assert (extract x))",
            b"(assert (zero_extend x))",
            b"(assert ((_ extract 3) x))",
            b"(assert ((_ extract 7 0 0) x))",
            b"(assert ((_ extract 7 0) x x))",
            b"(assert ((_ extract 0 7) x))",
            b"(assert ((_ extract 8 0) x))",
            b"(assert ((_ extract 7 0) p))",
            b"(assert ((_ zero_extend 1 1) x))",
            b"(assert ((_ sign_extend 1) p))",
            b"(assert ((_ rotate_left 1 1) x))",
            b"(assert (_ bv1 8))",
            b"(assert (= x (_ bv1 7)))",
            b"(assert (= (bvadd x p) match))",
        ],
    ),
};

const A_MALFORMED_HEAD: Table = Table {
    what: "a malformed head",
    rows: Rows::Told(
        b"malformed command",
        &[
            b"(assert ((_ let 1) x))",
            b"(assert ((_ as 1) x))",
            b"(assert ((_ forall 1) x))",
            b"(assert ((_ _ 1) x))",
            b"(assert ((_ ! 1) p))",
            b"(assert ((_ assert 1) p))",
            b"(assert ((_ par 1) p))",
            b"(assert ((_) x))",
            b"(assert ((_ extract) x))",
            b"(assert ((_ extract x 0) x))",
            b"(assert ((_ extract #b1 0) x))",
            b"(assert ((_ extract \"1\" 0) x))",
            b"(assert ((_ extract (7) 0) x))",
            b"(assert ((_ (extract) 7 0) x))",
            b"(assert ((_ 1 1) x))",
            b"(assert ((_ \"f\" 1) x))",
            b"(assert ((_ :k 1) x))",
            b"(assert ((_ bv3) x))",
            b"(assert ((_ bv3 p) x))",
            b"(assert ((_ extract 7 0)))",
            b"(assert (((_ extract 7 0)) x))",
            b"(assert (((_ extract 7 0) x) x))",
            b"(assert (((forall x)) p))",
            b"(assert ((! p) q))",
            b"(assert ((let ((a p)) a) q))",
            b"(assert ((5) q))",
            b"(assert (() q))",
            b"(assert ((()) q))",
            b"(assert ((assert) p))",
            b"(assert ((:k) p))",
            b"(assert (|!| p :named a))",
            b"(assert (= forall let))",
            b"(assert (forall ((a Bool)) a) q)",
            b"(declare-const r (let))",
            b"(declare-const r (Bool))",
            b"(declare-const r (|Bool|))",
            b"(declare-const r (_ forall 8))",
            b"(declare-const r ((forall) x))",
        ],
    ),
};

const A_TERM_THAT_IS_LEFT_OUT: Table = Table {
    what: "a term that is left out",
    rows: Rows::Told(
        b"not supported",
        &[
            b"(assert forall)",
            b"(assert exists)",
            b"(assert match)",
            b"(assert as)",
            b"(assert (forall))",
            b"(assert (exists ()))",
            b"(assert (match))",
            b"(assert (as))",
            b"(assert (forall ((a Bool)) a))",
            b"(assert (exists ((a Bool)) a))",
            b"(assert (match p ((a a))))",
            b"(assert (as p Bool))",
            b"(assert (forall let))",
            b"(assert (exists () ()))",
            b"(assert (as :k \"s\" 5 (_ _)))",
            b"(assert (not exists))",
            b"(assert (and p match))",
            b"(assert (and forall nope))",
            b"(assert (= exists (_ bv256 8)))",
            b"(assert (bvadd x p match))",
            b"(assert (let ((a (forall ((b Bool)) b))) a))",
            b"(assert (let ((a p)) (exists ((b Bool)) a)))",
            b"(assert (! (forall ((a Bool)) a) :named n))",
            b"(assert (= x (as x (_ BitVec 8))))",
            b"(assert (ite (match p) p nope))",
            b"(assert 5)",
            b"(assert 5.0)",
            b"(assert \"s\")",
            b"(assert (= x 5))",
            b"(assert (and 0 nope))",
            b"(check-sat-assuming (forall))",
            b"(check-sat-assuming ((exists () ())))",
            b"(get-value (as))",
            b"(get-value (x (as x Bool)))",
        ],
    ),
};

const A_HEAD_THAT_IS_LEFT_OUT: Table = Table {
    what: "a head that is left out",
    rows: Rows::Told(
        b"not supported",
        &[
            b"(assert ((forall x) p))",
            b"(assert ((exists x) p))",
            b"(assert ((match x) p))",
            b"(assert ((as f Bool) p))",
            b"(assert ((as p Bool)))",
            b"(assert ((forall)))",
            b"(assert ((match)))",
            b"(assert ((as)))",
            b"(assert ((forall x) let))",
            b"(assert ((exists () ()) (let) _))",
            b"(assert ((match 5) :k))",
            b"(assert ((as x Bool) let))",
            b"(assert ((as const) let))",
            b"(assert ((as const () ()) let))",
            b"(assert ((as (const) Bool) let))",
            b"(assert ((as \"const\" Bool) let))",
            b"(assert ((as :const Bool) let))",
            b"(assert (and ((forall x) nope) nope))",
            b"(get-value (((forall x) p)))",
        ],
    ),
};

const A_CONSTANT_ARRAY_ALONE: Table = Table {
    what: "a constant array without its parentheses",
    rows: Rows::Told(
        b"not supported",
        &[
            b"(assert (as const (Array (_ BitVec 8) (_ BitVec 8))))",
            b"(assert (as const))",
        ],
    ),
};

const A_CONSTANT_ARRAY_OF_WRONG_ARGUMENTS: Table = Table {
    what: "a constant array of wrong arguments, or in the place of a truth value",
    rows: Rows::Told(
        b"wrong number or sorts of arguments",
        &[
            b"(assert ((as const (Array (_ BitVec 8) (_ BitVec 8))) x))",
            b"(assert ((as const (Array (_ BitVec 8) (_ BitVec 8)))))",
            b"(assert ((as const Bool) p))",
        ],
    ),
};

const A_CONSTANT_ARRAY_OF_AN_UNKNOWN_SYMBOL: Table = Table {
    what: "a constant array of an unknown symbol",
    rows: Rows::Told(
        b"unknown symbol",
        &[b"(assert ((as |const| (Array (_ BitVec 8) (_ BitVec 8))) nope))"],
    ),
};

const A_CONSTANT_ARRAY_WITHOUT_A_MODEL: Table = Table {
    what: "the value of a constant array where no model stands",
    rows: Rows::Told(
        b"no model stands",
        &[b"(get-value (((as const (Array (_ BitVec 8) (_ BitVec 8))) x)))"],
    ),
};

const A_CONSTANT_ARRAY_OF_A_MALFORMED_TERM: Table = Table {
    what: "a constant array of a malformed term",
    rows: Rows::Told(
        b"malformed command",
        &[
            b"(assert ((as const (Array (_ BitVec 8) (_ BitVec 8))) let))",
            b"(assert ((as const (Array (_ BitVec 8) (_ BitVec 8))) (_ x 8)))",
            b"(assert ((as |const| Bool) ()))",
            b"(assert ((as const Bool) forall (p)))",
        ],
    ),
};

const A_SORT_THAT_IS_LEFT_OUT: Table = Table {
    what: "a sort that is left out",
    rows: Rows::Told(
        b"not supported",
        &[
            b"(declare-const r forall)",
            b"(declare-const r exists)",
            b"(declare-const r match)",
            b"(declare-const r as)",
            b"(declare-const r (forall x))",
            b"(declare-const r (exists))",
            b"(declare-const r (match () ()))",
            b"(declare-const r (as Bool))",
            b"(declare-const r (as Bool Bool))",
            b"(declare-fun r () (forall))",
            b"(declare-fun r ((as Bool)) Bool)",
            b"(define-sort S () exists)",
            b"(define-sort S () (match))",
            b"(define-fun r () as p)",
            b"(define-fun r ((a (forall))) Bool p)",
            b"(define-fun r ((b forall) (a nope)) Bool p)",
            b"(define-fun r () (exists) nope)",
        ],
    ),
};

const A_NAME_THAT_IS_RESERVED: Table = Table {
    what: "a name that is reserved",
    rows: Rows::Told(
        b"reserved symbol",
        &[
            b"(declare-const forall Bool)",
            b"(declare-const as Bool)",
            b"(declare-const _ Bool)",
            b"(declare-const let forall)",
            b"(declare-fun |exists| () Bool)",
            b"(define-fun as () Bool p)",
            b"(define-fun r ((match Bool)) Bool p)",
            b"(define-sort forall () Bool)",
            b"(assert (let ((forall p)) p))",
            b"(assert (let ((as match)) p))",
            b"(assert (! p :named exists))",
        ],
    ),
};

const A_NAME_THAT_IS_TAKEN: Table = Table {
    what: "a name that is taken before a sort that is left out",
    rows: Rows::Told(
        b"symbol already declared",
        &[
            b"(declare-const p forall)",
            b"(define-fun x () (exists) nope)",
        ],
    ),
};

#[test]
fn odd_commands_are_told_as_what_they_are(rt: HostRuntime) -> Result<(), Fail> {
    judge(
        &rt,
        &[
            A_WHOLE_TERM_OF_NO_WORD,
            A_WORD,
            A_WORD_OF_NO_WIDTH,
            A_WORD_THAT_IS_TOO_WIDE,
            A_HEAD_THAT_NOTHING_IS,
            A_KNOWN_HEAD_WITH_OTHER_INDICES,
            A_MALFORMED_HEAD,
            A_TERM_THAT_IS_LEFT_OUT,
            A_HEAD_THAT_IS_LEFT_OUT,
            A_CONSTANT_ARRAY_ALONE,
            A_CONSTANT_ARRAY_OF_WRONG_ARGUMENTS,
            A_CONSTANT_ARRAY_OF_AN_UNKNOWN_SYMBOL,
            A_CONSTANT_ARRAY_WITHOUT_A_MODEL,
            A_CONSTANT_ARRAY_OF_A_MALFORMED_TERM,
            A_SORT_THAT_IS_LEFT_OUT,
            A_NAME_THAT_IS_RESERVED,
            A_NAME_THAT_IS_TAKEN,
        ],
    )
}
