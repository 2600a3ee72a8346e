//! The errors of levels, of options that are off, and of checks that do not stand.

use crate::worked::{Rows, Table, judge};
use std::test::Fail;

const A_LEVEL_OUT_OF_RANGE: Table = Table {
    what: "a level out of range",
    rows: Rows::Told(
        b"level out of range",
        &[
            b"(pop)",
            b"(pop 1)",
            b"(push 1)(pop 2)",
            b"(push 1)(pop)(pop)",
            b"(push 2)(reset-assertions)(pop 1)",
            b"(push 1000001)",
            b"(push 1000000)(push)",
            b"(push 18446744073709551616)",
            b"(push 340282366920938463463374607431768211456)",
            b"(push 1)(pop 340282366920938463463374607431768211457)",
        ],
    ),
};

const LEVELS_THAT_ARE_TAKEN: Table = Table {
    what: "levels that are taken",
    rows: Rows::Taken(&[
        b"(push)(pop)",
        b"(push 0)(pop 0)",
        b"(push 2)(pop)(pop 1)",
        b"(push 1000000)(pop 1000000)",
        b"(push 1)(assert (not p))(pop 1)",
    ]),
};

const NO_MODEL_STANDS: Table = Table {
    what: "no model stands",
    rows: Rows::Told(
        b"no model stands",
        &[
            b"(get-model)",
            b"(get-value (p))",
            b"(get-value ((bvadd x x) p))",
        ],
    ),
};

const NO_REFUTATION_STANDS: Table = Table {
    what: "no refutation stands",
    rows: Rows::Told(
        b"no refutation stands",
        &[b"(get-unsat-core)", b"(get-unsat-assumptions)"],
    ),
};

const AN_OPTION_IS_OFF: Table = Table {
    what: "an option is off",
    rows: Rows::Told(
        b"option is off",
        &[
            b"(set-option :produce-models false)(get-model)",
            b"(set-option :produce-models false)(get-value (p))",
            b"(set-option :produce-unsat-cores false)(get-unsat-core)",
            b"(set-option :produce-unsat-assumptions false)(get-unsat-assumptions)",
        ],
    ),
};

const NO_UNKNOWN_ANSWER_STANDS: Table = Table {
    what: "no unknown answer stands",
    rows: Rows::Told(
        b"no unknown answer stands",
        &[b"(get-info :reason-unknown)"],
    ),
};

const GONE: &[u8] = b"sat\n(error \"line 1: no model stands\")\n";

const A_CHECK_STANDS_UNTIL_THE_SESSION_CHANGES: Table = Table {
    what: "a check stands until the session changes",
    rows: Rows::Answered(&[
        (b"(check-sat) (assert true) (get-model)", GONE),
        (b"(check-sat) (declare-const p Bool) (get-model)", GONE),
        (b"(check-sat) (declare-fun p () Bool) (get-model)", GONE),
        (b"(check-sat) (define-fun f () Bool true) (get-model)", GONE),
        (b"(check-sat) (define-sort s () Bool) (get-model)", GONE),
        (b"(check-sat) (push 0) (get-model)", GONE),
        (b"(push 1) (check-sat) (pop 1) (get-model)", GONE),
        (b"(check-sat) (reset) (get-model)", GONE),
        (b"(check-sat) (reset-assertions) (get-model)", GONE),
        (
            b"(check-sat) (assert false) (check-sat) (get-model)",
            b"sat\nunsat\n(error \"line 1: no model stands\")\n",
        ),
    ]),
};

const STANDS: &[u8] = b"sat\n(\n)\n";

const A_CHECK_STANDS_BEHIND_OTHER_COMMANDS: Table = Table {
    what: "a check stands behind other commands",
    rows: Rows::Answered(&[
        (b"(check-sat) (get-model)", STANDS),
        (b"(check-sat) (set-logic ALL) (get-model)", STANDS),
        (b"(check-sat) (set-info :a) (get-model)", STANDS),
        (
            b"(check-sat) (set-option :produce-models true) (get-model)",
            STANDS,
        ),
        (b"(check-sat) (get-model) (get-model)", b"sat\n(\n)\n(\n)\n"),
        (
            b"(check-sat) (echo \"a\") (get-model)",
            b"sat\n\"a\"\n(\n)\n",
        ),
        (
            b"(check-sat) (assert nope) (get-model)",
            b"sat\n(error \"line 1: unknown symbol\")\n(\n)\n",
        ),
        (
            b"(check-sat) (pop 1) (get-model)",
            b"sat\n(error \"line 1: level out of range\")\n(\n)\n",
        ),
    ]),
};

const WHAT_IS_UNSUPPORTED_AND_WHAT_IS_TOLD_OF_SUCCESS: Table = Table {
    what: "what is unsupported and what is told of success",
    rows: Rows::Answered(&[
        (b"(set-option :unknown)", b"unsupported\n"),
        (b"(set-option :unknown 5)", b"unsupported\n"),
        (b"(get-option :unknown)", b"unsupported\n"),
        (b"(get-info :unknown)", b"unsupported\n"),
        (b"(get-assertions)", b"unsupported\n"),
        (b"(get-assignment)", b"unsupported\n"),
        (b"(get-proof)", b"unsupported\n"),
        (
            b"(set-option :print-success true) (set-option :unknown)",
            b"success\nunsupported\n",
        ),
        (
            b"(set-option :print-success true) (set-option :print-success false)",
            b"success\n",
        ),
        (
            b"(set-option :print-success true) (reset) (push 1)",
            b"success\n",
        ),
        (
            b"(set-option :print-success true) (reset-assertions)",
            b"success\nsuccess\n",
        ),
        (
            b"(set-option :print-success true) (exit)",
            b"success\nsuccess\n",
        ),
    ]),
};

#[test]
fn levels_options_and_what_stands(rt: HostRuntime) -> Result<(), Fail> {
    judge(
        &rt,
        &[
            A_LEVEL_OUT_OF_RANGE,
            LEVELS_THAT_ARE_TAKEN,
            NO_MODEL_STANDS,
            NO_REFUTATION_STANDS,
            AN_OPTION_IS_OFF,
            NO_UNKNOWN_ANSWER_STANDS,
            A_CHECK_STANDS_UNTIL_THE_SESSION_CHANGES,
            A_CHECK_STANDS_BEHIND_OTHER_COMMANDS,
            WHAT_IS_UNSUPPORTED_AND_WHAT_IS_TOLD_OF_SUCCESS,
        ],
    )
}
