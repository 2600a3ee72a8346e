use crate::worked::{Seen, Step, Told, walk};
use script_state::answer::Verdict;
use script_state::error_text::ErrorText;
use smt_text::chunk::ChunkKind;
use std::test::Fail;

#[test]
fn the_first_script_is_done(rt: HostRuntime) -> Result<(), Fail> {
    walk(
        &rt,
        &[
            Step::Command(b"(declare-const x (_ BitVec 8))", Told::Done),
            Step::Command(b"(declare-const y (_ BitVec 8))", Told::Done),
            Step::Command(b"(assert (= (bvadd x y) #x0f))", Told::Done),
            Step::Command(b"(assert (= (bvand x #xf0) (bvnot #x0f)))", Told::Done),
            Step::Command(b"(assert (= y #x1f))", Told::Done),
            Step::Command(b"(check-sat)", Told::Check),
            Step::Command(b"(assert (= x y))", Told::Done),
            Step::Command(b"(check-sat)", Told::Check),
            // x, y, their sum, #x0f, the equality; #xf0, the conjunction, the negation, the equality; #x1f, the equality; x = y
            Step::See(Seen::Counts(2, 4, 12)),
            Step::See(Seen::Asserted(&[4, 8, 10, 11])),
        ],
    )
}

#[test]
fn what_is_refused_is_told_its_first_fault_and_forgotten(rt: HostRuntime) -> Result<(), Fail> {
    walk(
        &rt,
        &[
            Step::Command(b"(declare-const x (_ BitVec 8))", Told::Done),
            Step::Command(b"(assert (= x #x01))", Told::Done),
            Step::Verdict(Verdict::Sat),
            Step::Command(
                b"(assert (= x #b2) (= x y))",
                Told::Refused(ErrorText::BadToken),
            ),
            Step::Command(b"(5)", Told::Refused(ErrorText::UnknownCommand)),
            Step::Command(b"()", Told::Refused(ErrorText::UnknownCommand)),
            Step::Command(b"(assert)", Told::Refused(ErrorText::MalformedCommand)),
            Step::Command(
                b"(assert (and nope (let () p)))",
                Told::Refused(ErrorText::MalformedCommand),
            ),
            Step::Command(
                b"(declare-const z (_ BitVec 8) 1)",
                Told::Refused(ErrorText::MalformedCommand),
            ),
            Step::Command(b"(check-sat x)", Told::Refused(ErrorText::MalformedCommand)),
            Step::Command(
                b"(assert (= (bvadd x #x03) nope))",
                Told::Refused(ErrorText::UnknownSymbol),
            ),
            Step::Command(
                b"(declare-const x (_ BitVec 8))",
                Told::Refused(ErrorText::AlreadyDeclared),
            ),
            Step::Command(
                b"(declare-const bvadd (_ BitVec 8))",
                Told::Refused(ErrorText::ReservedSymbol),
            ),
            Step::Command(
                b"(declare-const |check-sat| (_ BitVec 8))",
                Told::Refused(ErrorText::ReservedSymbol),
            ),
            Step::Command(
                b"(declare-const let (_ BitVec 8))",
                Told::Refused(ErrorText::ReservedSymbol),
            ),
            Step::Command(
                b"(assert (bvadd x #x02))",
                Told::Refused(ErrorText::WrongArguments),
            ),
            Step::Command(b"(assert x)", Told::Refused(ErrorText::WrongArguments)),
            Step::Command(
                b"(assert (= x #x005))",
                Told::Refused(ErrorText::WrongArguments),
            ),
            Step::Command(
                b"(assert (= (bvnot (bvadd x #x04)) (bvand x)))",
                Told::Refused(ErrorText::WrongArguments),
            ),
            Step::Command(
                b"(declare-const z (_ BitVec 0))",
                Told::Refused(ErrorText::WidthOutOfRange),
            ),
            Step::Command(
                b"(declare-const z (_ BitVec 129))",
                Told::Refused(ErrorText::WidthOutOfRange),
            ),
            Step::Command(
                b"(assert (= x (_ bv256 8)))",
                Told::Refused(ErrorText::LiteralTooWide),
            ),
            Step::Command(
                b"(declare-sort S 0)",
                Told::Refused(ErrorText::NotSupported),
            ),
            Step::Command(b"(assert (= 5 x))", Told::Refused(ErrorText::NotSupported)),
            Step::Command(
                b"(set-logic QF_LIA)",
                Told::Refused(ErrorText::UnknownLogic),
            ),
        ],
    )
}

#[test]
fn text_that_is_no_command_is_refused(rt: HostRuntime) -> Result<(), Fail> {
    walk(
        &rt,
        &[
            Step::Text(
                ChunkKind::Unfinished,
                b"(check-sat",
                Told::Refused(ErrorText::UnfinishedCommand),
            ),
            Step::Text(
                ChunkKind::Unfinished,
                b"(assert #b2",
                Told::Refused(ErrorText::UnfinishedCommand),
            ),
            Step::Text(
                ChunkKind::Stray,
                b"check-sat",
                Told::Refused(ErrorText::TextOutsideCommand),
            ),
            Step::Command(
                b"(check-sat) (check-sat)",
                Told::Refused(ErrorText::MalformedCommand),
            ),
        ],
    )
}

#[test]
fn a_check_stands_until_the_next_accepted_command(rt: HostRuntime) -> Result<(), Fail> {
    walk(
        &rt,
        &[
            Step::Command(b"(declare-const x (_ BitVec 1))", Told::Done),
            Step::Command(b"(check-sat)", Told::Check),
            Step::Verdict(Verdict::Sat),
            Step::Command(b"(assert x)", Told::Refused(ErrorText::WrongArguments)),
            Step::See(Seen::Standing(Some(Verdict::Sat))),
            Step::Command(b"(assert (= x #b1))", Told::Done),
            Step::See(Seen::Standing(None)),
        ],
    )
}

#[test]
fn widths_are_1_to_128(rt: HostRuntime) -> Result<(), Fail> {
    walk(
        &rt,
        &[
            Step::Command(b"(declare-const a (_ BitVec 1))", Told::Done),
            Step::Command(b"(declare-const b (_ BitVec 128))", Told::Done),
            Step::Command(
                b"(assert (= a b))",
                Told::Refused(ErrorText::WrongArguments),
            ),
            Step::See(Seen::Counts(2, 0, 0)),
        ],
    )
}

#[test]
fn truths_are_declared_and_compared(rt: HostRuntime) -> Result<(), Fail> {
    walk(
        &rt,
        &[
            Step::Command(b"(declare-const p Bool)", Told::Done),
            Step::Command(b"(assert p)", Told::Done),
            Step::Command(b"(assert (= p true p))", Told::Done),
            // p; true, the two equalities, both
            Step::See(Seen::Counts(1, 2, 5)),
        ],
    )
}

#[test]
fn logics_and_infos_change_nothing(rt: HostRuntime) -> Result<(), Fail> {
    walk(
        &rt,
        &[
            Step::Verdict(Verdict::Unsat),
            Step::Command(b"(set-logic QF_BV)", Told::Done),
            Step::Command(b"(set-logic QF_UFBV)", Told::Done),
            Step::Command(b"(set-logic QF_ABV)", Told::Done),
            Step::Command(b"(set-logic |QF_AUFBV|)", Told::Done),
            Step::Command(b"(set-logic ALL)", Told::Done),
            Step::Command(b"(set-info :status)", Told::Done),
            Step::Command(b"(set-info :source |a text|)", Told::Done),
            Step::See(Seen::Standing(Some(Verdict::Unsat))),
        ],
    )
}

#[test]
fn texts_of_errors(rt: HostRuntime) {
    assert_eq!(rt; ErrorText::NotSupported.text(), b"not supported".as_slice());
    assert_eq!(rt;
        ErrorText::WrongArguments.text(),
        b"wrong number or sorts of arguments".as_slice()
    );
}
