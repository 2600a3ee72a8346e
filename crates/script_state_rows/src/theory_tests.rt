//! Functions and arrays.

use crate::worked::{Seen, Step, Told, walk, walk_within};
use script_state::answer::Verdict;
use script_state::error_text::ErrorText;
use std::test::Fail;

const F: &[u8] = b"(declare-fun f ((_ BitVec 1)) Bool)";

const A: &[u8] = b"(declare-const a (Array (_ BitVec 1) (_ BitVec 1)))";

const B: &[u8] = b"(declare-const b (Array (_ BitVec 1) (_ BitVec 1)))";

#[test]
fn functions_and_arrays_are_asserted_and_asked(rt: HostRuntime) -> Result<(), Fail> {
    walk(
        &rt,
        &[
            Step::Command(F, Told::Done),
            Step::Command(A, Told::Done),
            Step::Command(b"(assert (f (select a #b0)))", Told::Done),
            Step::See(Seen::Counts(2, 1, 4)),
            Step::Command(
                b"(assert (select a #b0))",
                Told::Refused(ErrorText::WrongArguments),
            ),
            Step::Command(
                b"(check-sat-assuming ((= a (store a #b0 #b1))))",
                Told::Check,
            ),
            Step::Verdict(Verdict::Sat),
            Step::See(Seen::Standing(Some(Verdict::Sat))),
            Step::Command(
                b"(define-sort B () (Array (_ BitVec 1) (_ BitVec 1)))",
                Told::Done,
            ),
            Step::Command(b"(define-fun b () B (store a #b1 #b1))", Told::Done),
            Step::Command(b"(assert (distinct a b))", Told::Done),
        ],
    )
}

#[test]
fn constant_arrays_are_defined_and_asked(rt: HostRuntime) -> Result<(), Fail> {
    walk(
        &rt,
        &[
            Step::Command(A, Told::Done),
            Step::Command(
                b"(define-sort S () (Array (_ BitVec 1) (_ BitVec 1)))",
                Told::Done,
            ),
            Step::Command(b"(define-fun k () S ((as const S) #b1))", Told::Done),
            Step::See(Seen::Counts(1, 0, 2)),
            // A use of the definition makes the constant array anew, over the argument.
            Step::Command(
                b"(define-fun at ((v (_ BitVec 1)) (j (_ BitVec 1))) (_ BitVec 1) (select ((as const S) v) j))",
                Told::Done,
            ),
            Step::See(Seen::Counts(1, 0, 6)),
            Step::Command(b"(assert (= (at #b0 #b1) #b0))", Told::Done),
            Step::See(Seen::Asserted(&[9])),
            Step::Command(
                b"(assert (! (= a k ((as const S) #b1)) :named n))",
                Told::Done,
            ),
            Step::See(Seen::Counts(1, 2, 14)),
            Step::Command(
                b"(assert ((as const S) #b1))",
                Told::Refused(ErrorText::WrongArguments),
            ),
            Step::Command(
                b"(assert (= a ((as const S) a)))",
                Told::Refused(ErrorText::WrongArguments),
            ),
            Step::Command(
                b"(assert (= a (as const S)))",
                Told::Refused(ErrorText::NotSupported),
            ),
            Step::Command(
                b"(assert (= a ((as const T) #b1)))",
                Told::Refused(ErrorText::UnknownSymbol),
            ),
            Step::See(Seen::Counts(1, 2, 14)),
            Step::Command(b"(check-sat)", Told::Check),
            Step::Verdict(Verdict::Sat),
            Step::Command(
                b"(get-value (((as const S) #b1) (select ((as  const S) #b0) #b1)))",
                Told::Values(&[
                    (1, b"((as const S) #b1)"),
                    (8, b"(select ((as const S) #b0) #b1)"),
                ]),
            ),
        ],
    )
}

/// With room for so many terms, a check is answered so once a term is asserted, and then so many terms are held.
struct Room {
    limit: u32,
    asserted: &'static [u8],
    check: &'static [u8],
    told: Told,
    terms: u32,
}

const ROOMS: [Room; 12] = [
    // The arrays and the equality; then the witness, and a select of each side there.
    Room {
        limit: 5,
        asserted: b"(assert (= a b))",
        check: b"(check-sat)",
        told: Told::Refused(ErrorText::TooManyTerms),
        terms: 3,
    },
    Room {
        limit: 6,
        asserted: b"(assert (= a b))",
        check: b"(check-sat)",
        told: Told::Check,
        terms: 3,
    },
    // An equality that is assumed is watched too, and where that is refused its terms are forgotten.
    Room {
        limit: 6,
        asserted: b"(assert true)",
        check: b"(check-sat-assuming ((= a b)))",
        told: Told::Refused(ErrorText::TooManyTerms),
        terms: 1,
    },
    Room {
        limit: 7,
        asserted: b"(assert true)",
        check: b"(check-sat-assuming ((= a b)))",
        told: Told::Check,
        terms: 4,
    },
    // No equality of arrays is reached, and nothing is made.
    Room {
        limit: 5,
        asserted: b"(assert (= (select a #b0) #b1))",
        check: b"(check-sat)",
        told: Told::Check,
        terms: 5,
    },
    Room {
        limit: 1,
        asserted: b"(assert true)",
        check: b"(check-sat)",
        told: Told::Check,
        terms: 1,
    },
    // Each equality has its own witness.
    Room {
        limit: 11,
        asserted: b"(assert (and (= a b) (not (= b a))))",
        check: b"(check-sat)",
        told: Told::Refused(ErrorText::TooManyTerms),
        terms: 6,
    },
    Room {
        limit: 12,
        asserted: b"(assert (and (= a b) (not (= b a))))",
        check: b"(check-sat)",
        told: Told::Check,
        terms: 6,
    },
    // The equality is watched, and then the words 0 and 1 are made, of which one is held.
    Room {
        limit: 7,
        asserted: b"(assert (= a ((as const (Array (_ BitVec 1) (_ BitVec 1))) #b0)))",
        check: b"(check-sat)",
        told: Told::Refused(ErrorText::TooManyTerms),
        terms: 4,
    },
    Room {
        limit: 8,
        asserted: b"(assert (= a ((as const (Array (_ BitVec 1) (_ BitVec 1))) #b0)))",
        check: b"(check-sat)",
        told: Told::Check,
        terms: 4,
    },
    // One index of two bits, so two words of two bits.
    Room {
        limit: 7,
        asserted: b"(assert (= #b1 (select ((as const (Array (_ BitVec 2) (_ BitVec 1))) #b0) #b11)))",
        check: b"(check-sat)",
        told: Told::Refused(ErrorText::TooManyTerms),
        terms: 6,
    },
    Room {
        limit: 8,
        asserted: b"(assert (= #b1 (select ((as const (Array (_ BitVec 2) (_ BitVec 1))) #b0) #b11)))",
        check: b"(check-sat)",
        told: Told::Check,
        terms: 6,
    },
];

#[test]
fn checks_have_room_for_what_they_make_first(rt: HostRuntime) -> Result<(), Fail> {
    for room in &ROOMS {
        walk_within(
            &rt,
            room.limit,
            &[
                Step::Command(A, Told::Done),
                Step::Command(B, Told::Done),
                Step::Command(room.asserted, Told::Done),
                Step::Verdict(Verdict::Sat),
                Step::Command(room.check, room.told),
                Step::See(Seen::Counts(2, 1, room.terms)),
            ],
        )?;
    }
    Ok(())
}
