//! Lines of rewriting, of equalities and of lemmas, and the values of arrays and functions: what is
//! read of them, and what is not.

use crate::tests::{Next, Shown, Step, walk};
use proof_text::list::{Letter, WrittenMove, WrittenStart};
use std::test::Fail;

/// The moves of a long access.
const MOVES: &[WrittenMove] = &[
    WrittenMove {
        letter: Letter::Store,
        term: 3,
    },
    WrittenMove {
        letter: Letter::Then,
        term: 8,
    },
    WrittenMove {
        letter: Letter::Else,
        term: 9,
    },
    WrittenMove {
        letter: Letter::Sides,
        term: 10,
    },
];

#[test]
fn equalities_and_lemmas_are_read(rt: HostRuntime) -> Result<(), Fail> {
    walk(
        &rt,
        &[
            Step::Line(b"q 2 4\n", Next::Equal(2, 4)),
            Step::Line(b"l c 5 3\n", Next::Congruence(5, 3)),
            Step::Line(b"l w 7\n", Next::Witness(7)),
            Step::Line(
                b"l a 3 w 3 t 8 e 9 q 10 / 2@4\n",
                Next::Accesses(
                    (WrittenStart::Term(3), MOVES),
                    (WrittenStart::Const(2, 4), &[]),
                ),
            ),
            Step::Line(
                b"l a 0@18446744073709551615 / 3 w 3 t 8 e 9 q 10\n",
                Next::Accesses(
                    (WrittenStart::Const(0, u64::MAX), &[]),
                    (WrittenStart::Term(3), MOVES),
                ),
            ),
            Step::Line(b"t const 4 0\n", Next::Filled(4, &[0])),
        ],
    )
}

#[test]
fn uses_of_rules_are_three_numbers(rt: HostRuntime) -> Result<(), Fail> {
    walk(
        &rt,
        &[
            Step::Line(b"r 40 3 5\n", Next::Rewrite(40, 3, 5)),
            // Whether a rule has the number is no matter of the form.
            Step::Line(b"r 0 2 0\n", Next::Rewrite(0, 2, 0)),
            Step::Line(
                b"r 18446744073709551615 0 41\n",
                Next::Rewrite(u64::MAX, 0, 41),
            ),
            Step::Line(b"r\n", Next::Fault(4)),
            Step::Line(b"r 1 2\n", Next::Fault(5)),
            Step::Line(b"r 1 2 0 0\n", Next::Fault(6)),
            Step::Line(b"r 01 2 0\n", Next::Fault(7)),
            Step::Line(b"r 1 02 0\n", Next::Fault(8)),
            Step::Line(b"r 1 2 00\n", Next::Fault(9)),
            Step::Line(b"r -1 2 0\n", Next::Fault(10)),
            Step::Line(b"r 18446744073709551616 2 0\n", Next::Fault(11)),
        ],
    )
}

#[test]
fn arrays_and_functions_are_read(rt: HostRuntime) -> Result<(), Fail> {
    walk(
        &rt,
        &[
            Step::Line(b"v 0 a #b01\n", Next::Array(&[false, true], &[])),
            Step::Line(
                b"v 0 a #b0 #b01 #b1 #b10 #b0\n",
                Next::Array(
                    &[false],
                    &[(&[false, true], &[true]), (&[true, false], &[false])],
                ),
            ),
            Step::Line(
                b"v 0 f #b0 #b0 #b1\n",
                Next::Table(
                    Shown::Word(&[false]),
                    &[Shown::Word(&[false]), Shown::Word(&[true])],
                ),
            ),
            Step::Line(
                b"v 0 f true #b10 false\n",
                Next::Table(
                    Shown::Bool(true),
                    &[Shown::Word(&[true, false]), Shown::Bool(false)],
                ),
            ),
            // How many arguments a row has is not written.
            Step::Line(
                b"v 0 f #b1 true\n",
                Next::Table(Shown::Word(&[true]), &[Shown::Bool(true)]),
            ),
        ],
    )
}

#[test]
fn no_line_of_a_lemma_has_another_form(rt: HostRuntime) -> Result<(), Fail> {
    walk(
        &rt,
        &[
            Step::Line(b"q 1\n", Next::Fault(1)),
            Step::Line(b"q 1 2 3\n", Next::Fault(2)),
            Step::Line(b"l\n", Next::Fault(3)),
            Step::Line(b"l x 1\n", Next::Fault(4)),
            Step::Line(b"l c 1\n", Next::Fault(5)),
            Step::Line(b"l w 1 2\n", Next::Fault(6)),
            // One access.
            Step::Line(b"l a 1 w 2\n", Next::Fault(7)),
            // Three.
            Step::Line(b"l a 1 / 2 / 3\n", Next::Fault(8)),
            // A letter without a term, before the second access and at the end.
            Step::Line(b"l a 1 w / 2\n", Next::Fault(9)),
            Step::Line(b"l a 1 / 2 w\n", Next::Fault(10)),
            // No letter.
            Step::Line(b"l a 1 x 2 / 2\n", Next::Fault(11)),
            // No start.
            Step::Line(b"l a / 2\n", Next::Fault(12)),
            // No array, no index, two indexes.
            Step::Line(b"l a @2 / 2\n", Next::Fault(13)),
            Step::Line(b"l a 1@ / 2\n", Next::Fault(14)),
            Step::Line(b"l a 1@2@3 / 2\n", Next::Fault(15)),
            // No width.
            Step::Line(b"t const\n", Next::Fault(16)),
        ],
    )
}

#[test]
fn no_value_has_another_form(rt: HostRuntime) -> Result<(), Fail> {
    walk(
        &rt,
        &[
            // No default.
            Step::Line(b"v 0 a\n", Next::Fault(1)),
            Step::Line(b"v 0 f\n", Next::Fault(2)),
            // An index without an element.
            Step::Line(b"v 0 a #b1 #b0\n", Next::Fault(3)),
            // A truth value in an array.
            Step::Line(b"v 0 a true\n", Next::Fault(4)),
            Step::Line(b"v 0 a #b1 #b0 true\n", Next::Fault(5)),
            // A word without a digit.
            Step::Line(b"v 0 f #b1 #b\n", Next::Fault(6)),
            Step::Line(b"v 0 f 1\n", Next::Fault(7)),
            // Two values.
            Step::Line(b"v 0 #b1 #b0\n", Next::Fault(8)),
            // None.
            Step::Line(b"v 0\n", Next::Fault(9)),
        ],
    )
}
