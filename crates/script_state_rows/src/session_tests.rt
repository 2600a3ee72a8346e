use crate::worked::{Seen, Step, Told, walk};
use script_state::answer::Verdict;
use script_state::error_text::ErrorText;
use script_state::options::Options;
use std::test::Fail;

const FIRST: Options = Options {
    print_success: false,
    produce_models: true,
    produce_unsat_cores: true,
    produce_unsat_assumptions: true,
};

const PRINTING: Options = Options {
    print_success: true,
    produce_models: true,
    produce_unsat_cores: true,
    produce_unsat_assumptions: true,
};

const NO_MODELS: Options = Options {
    print_success: false,
    produce_models: false,
    produce_unsat_cores: true,
    produce_unsat_assumptions: true,
};

#[test]
fn options_are_told_as_they_are_set(rt: HostRuntime) -> Result<(), Fail> {
    walk(
        &rt,
        &[
            Step::Command(b"(get-option :print-success)", Told::Says(b"false")),
            Step::Command(b"(get-option :produce-models)", Told::Says(b"true")),
            Step::Command(b"(set-option :print-success true)", Told::Done),
            Step::Command(b"(set-option :produce-unsat-cores false)", Told::Done),
            Step::Command(b"(get-option :print-success)", Told::Says(b"true")),
            Step::Command(b"(get-option :produce-unsat-cores)", Told::Says(b"false")),
            Step::Command(
                b"(get-option :produce-unsat-assumptions)",
                Told::Says(b"true"),
            ),
        ],
    )
}

#[test]
fn an_option_leaves_the_others_and_the_standing_check(rt: HostRuntime) -> Result<(), Fail> {
    walk(
        &rt,
        &[
            Step::Verdict(Verdict::Sat),
            Step::Command(b"(set-option :produce-models false)", Told::Done),
            Step::See(Seen::Options(NO_MODELS)),
            Step::See(Seen::Standing(Some(Verdict::Sat))),
        ],
    )
}

#[test]
fn other_options_and_values_are_not_taken(rt: HostRuntime) -> Result<(), Fail> {
    walk(
        &rt,
        &[
            Step::Command(b"(set-option :random-seed 5)", Told::Says(b"unsupported")),
            Step::Command(b"(set-option :verbosity)", Told::Says(b"unsupported")),
            Step::Command(b"(get-option :random-seed)", Told::Says(b"unsupported")),
            Step::Command(
                b"(set-option :print-success 1)",
                Told::Refused(ErrorText::MalformedCommand),
            ),
            Step::Command(
                b"(set-option :print-success)",
                Told::Refused(ErrorText::MalformedCommand),
            ),
        ],
    )
}

#[test]
fn information_is_told(rt: HostRuntime) -> Result<(), Fail> {
    walk(
        &rt,
        &[
            Step::Command(b"(push 12)", Told::Done),
            Step::Command(b"(get-info :name)", Told::Says(b"(:name \"smt_tool\")")),
            Step::Command(b"(get-info :version)", Told::Says(b"(:version \"1\")")),
            Step::Command(
                b"(get-info :error-behavior)",
                Told::Says(b"(:error-behavior continued-execution)"),
            ),
            Step::Command(
                b"(get-info :assertion-stack-levels)",
                Told::Says(b"(:assertion-stack-levels 12)"),
            ),
            Step::Command(b"(get-info :authors)", Told::Says(b"unsupported")),
        ],
    )
}

#[test]
fn an_unknown_answer_has_a_reason(rt: HostRuntime) -> Result<(), Fail> {
    walk(
        &rt,
        &[
            Step::Verdict(Verdict::Sat),
            Step::Command(
                b"(get-info :reason-unknown)",
                Told::Refused(ErrorText::NoUnknownAnswer),
            ),
            Step::Verdict(Verdict::Unknown),
            Step::Command(
                b"(get-info :reason-unknown)",
                Told::Says(b"(:reason-unknown incomplete)"),
            ),
        ],
    )
}

#[test]
fn levels_end_with_what_stands_in_them(rt: HostRuntime) -> Result<(), Fail> {
    walk(
        &rt,
        &[
            Step::Command(b"(declare-const p Bool)", Told::Done),
            Step::Command(b"(push)", Told::Done),
            Step::Command(b"(declare-const q Bool)", Told::Done),
            Step::Command(b"(define-fun both () Bool (and p q))", Told::Done),
            Step::Command(b"(assert both)", Told::Done),
            Step::Command(b"(push 2)", Told::Done),
            Step::Command(b"(assert p)", Told::Done),
            Step::Command(b"(pop 2)", Told::Done),
            // p, q, the conjunction
            Step::See(Seen::Counts(2, 1, 3)),
            Step::Command(b"(pop)", Told::Done),
            Step::See(Seen::Counts(1, 0, 3)),
            Step::Command(b"(assert q)", Told::Refused(ErrorText::UnknownSymbol)),
            Step::Command(b"(assert both)", Told::Refused(ErrorText::UnknownSymbol)),
        ],
    )
}

#[test]
fn a_name_is_declared_anew_under_the_next_number(rt: HostRuntime) -> Result<(), Fail> {
    walk(
        &rt,
        &[
            Step::Command(b"(push 1)", Told::Done),
            Step::Command(b"(declare-const x Bool)", Told::Done),
            Step::Command(b"(pop 1)", Told::Done),
            Step::Command(b"(declare-const x (_ BitVec 8))", Told::Done),
            Step::See(Seen::Declared(&[1])),
        ],
    )
}

#[test]
fn levels_out_of_range_are_refused(rt: HostRuntime) -> Result<(), Fail> {
    walk(
        &rt,
        &[
            Step::Command(b"(push 2)", Told::Done),
            Step::Command(b"(push 0)", Told::Done),
            Step::Verdict(Verdict::Unsat),
            Step::Command(b"(pop 3)", Told::Refused(ErrorText::LevelOutOfRange)),
            Step::Command(b"(push 999999)", Told::Refused(ErrorText::LevelOutOfRange)),
            Step::Command(
                b"(push 18446744073709551616)",
                Told::Refused(ErrorText::LevelOutOfRange),
            ),
            Step::Command(
                b"(pop 340282366920938463463374607431768211458)",
                Told::Refused(ErrorText::LevelOutOfRange),
            ),
            Step::Command(b"(pop x)", Told::Refused(ErrorText::MalformedCommand)),
            Step::Command(b"(pop 2)", Told::Done),
            Step::See(Seen::Standing(None)),
        ],
    )
}

#[test]
fn a_reset_sets_the_options_back(rt: HostRuntime) -> Result<(), Fail> {
    walk(
        &rt,
        &[
            Step::Command(b"(set-option :print-success true)", Told::Done),
            Step::Command(b"(declare-const p Bool)", Told::Done),
            Step::Command(b"(push 3)", Told::Done),
            Step::Command(b"(assert p)", Told::Done),
            Step::Command(b"(reset-assertions)", Told::Done),
            Step::See(Seen::Counts(0, 0, 1)),
            Step::See(Seen::Levels(0)),
            Step::See(Seen::Options(PRINTING)),
            Step::Command(b"(reset)", Told::Done),
            Step::See(Seen::Options(FIRST)),
            Step::See(Seen::AssertionsMade(1)),
        ],
    )
}

#[test]
fn models_are_of_a_standing_check(rt: HostRuntime) -> Result<(), Fail> {
    walk(
        &rt,
        &[
            Step::Command(b"(get-model)", Told::Refused(ErrorText::NoModel)),
            Step::Verdict(Verdict::Sat),
            Step::Command(b"(get-model)", Told::Model),
            Step::Command(b"(set-option :produce-models false)", Told::Done),
            Step::Command(b"(get-model)", Told::Refused(ErrorText::OptionOff)),
            Step::Command(b"(push 1)", Told::Done),
            Step::Command(b"(get-model)", Told::Refused(ErrorText::OptionOff)),
            Step::Command(b"(set-option :produce-models true)", Told::Done),
            Step::Command(b"(get-model)", Told::Refused(ErrorText::NoModel)),
            Step::Verdict(Verdict::Unsat),
            Step::Command(b"(get-model)", Told::Refused(ErrorText::NoModel)),
        ],
    )
}

#[test]
fn lines_are_said(rt: HostRuntime) -> Result<(), Fail> {
    walk(
        &rt,
        &[
            Step::Command(
                b"(echo \"say \"\"so\"\" twice\")",
                Told::Says(b"\"say \"\"so\"\" twice\""),
            ),
            Step::Command(b"(echo \"\")", Told::Says(b"\"\"")),
            Step::Command(b"(get-assertions)", Told::Says(b"unsupported")),
            Step::Command(b"(get-assignment)", Told::Says(b"unsupported")),
            Step::Command(b"(get-proof)", Told::Says(b"unsupported")),
        ],
    )
}

#[test]
fn exit_is_an_answer_of_its_own(rt: HostRuntime) -> Result<(), Fail> {
    walk(
        &rt,
        &[
            Step::Command(b"(exit)", Told::Exit),
            Step::Command(b"(exit now)", Told::Refused(ErrorText::MalformedCommand)),
        ],
    )
}
