use crate::worked::{AskedRows, Seen, Step, Told, walk};
use script_state::answer::Verdict;
use script_state::error_text::ErrorText;
use std::test::Fail;

const ASSUMED: AskedRows = &[(0, b"p"), (1, b"(not |p|)")];

const VALUES: AskedRows = &[(1, b"(bvadd x x)"), (2, b"#x0A")];

#[test]
fn the_first_name_is_that_of_the_assertion(rt: HostRuntime) -> Result<(), Fail> {
    walk(
        &rt,
        &[
            Step::Command(b"(declare-const p Bool)", Told::Done),
            Step::Command(
                b"(assert (! (or p (! p :named in)) :named |a b| :named again))",
                Told::Done,
            ),
            Step::Command(b"(assert (and in |a b| again))", Told::Done),
            Step::See(Seen::FirstName(b"a b")),
            // p, the disjunction; the two conjunctions
            Step::See(Seen::Counts(1, 2, 4)),
            Step::Command(
                b"(assert (! p :named in))",
                Told::Refused(ErrorText::AlreadyDeclared),
            ),
            Step::Command(
                b"(assert (! (bvnot #b1) :named word))",
                Told::Refused(ErrorText::WrongArguments),
            ),
            Step::Command(
                b"(assert (= word #b1))",
                Told::Refused(ErrorText::UnknownSymbol),
            ),
        ],
    )
}

#[test]
fn assumptions_are_plain_bools(rt: HostRuntime) -> Result<(), Fail> {
    walk(
        &rt,
        &[
            Step::Command(b"(declare-const p Bool)", Told::Done),
            Step::Command(b"(declare-const x (_ BitVec 8))", Told::Done),
            Step::Command(b"(check-sat-assuming (p (not  |p| )))", Told::Check),
            Step::See(Seen::Assumed(ASSUMED)),
            Step::Verdict(Verdict::Unsat),
            Step::Command(
                b"(check-sat-assuming (p x nope))",
                Told::Refused(ErrorText::WrongArguments),
            ),
            Step::Command(
                b"(check-sat-assuming (nope x))",
                Told::Refused(ErrorText::UnknownSymbol),
            ),
            Step::Command(
                b"(check-sat-assuming ((! p :named n)))",
                Told::Refused(ErrorText::NotSupported),
            ),
            Step::See(Seen::Assumed(ASSUMED)),
        ],
    )
}

#[test]
fn refutations_are_told_of_a_standing_unsat(rt: HostRuntime) -> Result<(), Fail> {
    walk(
        &rt,
        &[
            Step::Command(b"(check-sat-assuming (false))", Told::Check),
            Step::Verdict(Verdict::Unsat),
            Step::Command(b"(get-unsat-core)", Told::Core),
            Step::Command(b"(get-unsat-assumptions)", Told::Assumptions),
            Step::Command(b"(check-sat)", Told::Check),
            Step::Verdict(Verdict::Unsat),
            Step::Command(b"(get-unsat-core)", Told::Core),
            Step::Command(
                b"(get-unsat-assumptions)",
                Told::Refused(ErrorText::NoRefutation),
            ),
            Step::Command(b"(set-option :produce-unsat-cores false)", Told::Done),
            Step::Command(b"(get-unsat-core)", Told::Refused(ErrorText::OptionOff)),
        ],
    )
}

#[test]
fn values_are_asked_of_a_standing_sat(rt: HostRuntime) -> Result<(), Fail> {
    walk(
        &rt,
        &[
            Step::Command(b"(declare-const x (_ BitVec 8))", Told::Done),
            Step::Command(b"(get-value (x))", Told::Refused(ErrorText::NoModel)),
            Step::Verdict(Verdict::Sat),
            Step::Command(b"(get-value ((bvadd x  x) #x0A))", Told::Values(VALUES)),
            Step::Command(b"(set-option :produce-models false)", Told::Done),
            Step::Command(
                b"(get-value (nope))",
                Told::Refused(ErrorText::UnknownSymbol),
            ),
            Step::Command(b"(get-value (x))", Told::Refused(ErrorText::OptionOff)),
        ],
    )
}
