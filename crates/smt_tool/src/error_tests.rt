//! The error that each fault of a script's text, tokens and commands is told as.

use crate::worked::{Rows, SOLVE, Table, is_answered, judge};
use std::alloc::{AllocError, Global};
use std::test::Fail;

const WANTED: &[u8] = b"(error \"line 1: unfinished command\")\n";

const A_COMMAND_THAT_THE_END_CUTS_OFF: Table = Table {
    what: "a command that the end cuts off",
    rows: Rows::Answered(&[
        (b"(", WANTED),
        (b"(check-sat", WANTED),
        (b"(assert #b2", WANTED),
        (b"(nope (", WANTED),
        (b"(declare-sort", WANTED),
        (b"(set-info :a \"(check-sat)", WANTED),
        (b"(set-info :a |(check-sat)", WANTED),
        (b"(echo \"a\"\")", WANTED),
        (b"(check-sat ;)", WANTED),
        (b"(check-sat ;\r)", WANTED),
    ]),
};

const TEXT_OUTSIDE_A_COMMAND: Table = Table {
    what: "text outside a command",
    rows: Rows::Told(
        b"text outside a command",
        &[
            b")",
            b"check-sat",
            b"check-sat;(nope)",
            b"#b2",
            b"\"text\"",
            b"|a\\b|",
            b"|a",
            b":a",
            b"\x00",
            b"\x7f",
            b"\xc3\xa9",
        ],
    ),
};

const LINES_AND_PIECES_OF_STRAY_TEXT: Table = Table {
    what: "lines and pieces of stray text",
    rows: Rows::Answered(&[
        (
            b"))",
            b"(error \"line 1: text outside a command\")\n(error \"line 1: text outside a command\")\n",
        ),
        (
            b"\"a b\"\n",
            b"(error \"line 1: text outside a command\")\n(error \"line 1: text outside a command\")\n",
        ),
        (
            b"a\tb\rc",
            b"(error \"line 1: text outside a command\")\n(error \"line 1: text outside a command\")\n(error \"line 1: text outside a command\")\n",
        ),
        (
            b"\"a(nope)b\"",
            b"(error \"line 1: text outside a command\")\n(error \"line 1: unknown command\")\n(error \"line 1: text outside a command\")\n",
        ),
        (b"\r\r(nope)", b"(error \"line 1: unknown command\")\n"),
        (b"\n\n(\n(nope))", b"(error \"line 3: unknown command\")\n"),
        (
            b"; a\r(nope)\n(nope)",
            b"(error \"line 2: unknown command\")\n",
        ),
        (
            b"(set-info :a \"\n\n\") (nope)",
            b"(error \"line 3: unknown command\")\n",
        ),
        (
            b"(set-info :a |\n|) (nope)",
            b"(error \"line 2: unknown command\")\n",
        ),
    ]),
};

const A_BAD_TOKEN: Table = Table {
    what: "a bad token",
    rows: Rows::Told(
        b"bad token",
        &[
            b"(assert 1a)",
            b"(assert 00)",
            b"(assert 007)",
            b"(assert 1.)",
            b"(assert 1.5.2)",
            b"(assert 0x1)",
            b"(assert #b2)",
            b"(assert #b1a)",
            b"(assert #b)",
            b"(assert #)",
            b"(assert #x)",
            b"(assert #xg)",
            b"(set-info :)",
            b"(assert |a\\b|)",
            b"(assert a\\b)",
            b"(assert a'b)",
            b"(assert a,b)",
            b"(assert [p])",
            b"(assert {p})",
            b"(assert `p)",
            b"(assert \x00p)",
            b"(assert \x01p)",
            b"(assert p\x08)",
            b"(assert \x0bp)",
            b"(assert \x0cp)",
            b"(assert \x0e)",
            b"(assert \x1f)",
            b"(assert \x7f)",
            b"(assert \xc3\xa9)",
            b"(nope 00)",
            b"(declare-sort 00)",
            b"(define-funs-rec |a\\b|)",
            b"(assert 00 (let () p))",
            b"(assert (nope #b2))",
        ],
    ),
};

const TEXTS_THAT_ARE_TAKEN: Table = Table {
    what: "texts that are taken",
    rows: Rows::Taken(&[
        b"(set-info :0a p)",
        b"(set-info :a \"\x00\x1f\x7f\xff\")",
        b"(set-info :a|\x01|)",
        b"(set-info :a\"b\")",
        b"(set-info :a \"b\"\"c\")",
        b"(set-info :a (:b (\"c\" 5 1.5 #b1 |e|) let))",
        b"(assert |p|)",
        b"(assert|p|)",
        b"\r(assert\tp\r)\r",
        b"; a comment \x01 \xff \r (assert\n(assert p)",
        b"(assert p);(nope)",
        b"(assert (|and| p q))",
        b"(assert (= x #xAb))",
        b"(assert (= x #xaB))",
        b"(declare-const |a (b| Bool)(assert |a (b|)",
        b"(declare-const |\x00\x08\x0b\x0c\x0e\x1f\x7f\xff| Bool)",
        b"(declare-const || Bool)(assert ||)",
        b"(declare-const ~!@$%^&*_-+=<>.?/0a Bool)(assert |~!@$%^&*_-+=<>.?/0a|)",
        b"(declare-const Assert Bool)(declare-const AND Bool)(assert (or Assert AND))",
    ]),
};

const AN_UNKNOWN_COMMAND: Table = Table {
    what: "an unknown command",
    rows: Rows::Told(
        b"unknown command",
        &[
            b"()",
            b"(5)",
            b"(())",
            b"(\"check-sat\")",
            b"(nope)",
            b"(CHECK-SAT)",
            b"(nope (let () p))",
            b"(|assert| p)",
            b"(|check-sat|)",
            b"((check-sat))",
            b"(:assert p)",
            b"(let)",
            b"(and p q)",
        ],
    ),
};

const AN_UNKNOWN_LOGIC: Table = Table {
    what: "an unknown logic",
    rows: Rows::Told(
        b"unknown logic",
        &[
            b"(set-logic QF_LIA)",
            b"(set-logic qf_bv)",
            b"(set-logic QF_BV2)",
            b"(set-logic ||)",
            b"(set-logic |let|)",
        ],
    ),
};

const LOGICS_AND_ATTRIBUTES_THAT_ARE_TAKEN: Table = Table {
    what: "logics and attributes that are taken",
    rows: Rows::Taken(&[
        b"(set-logic QF_BV)",
        b"(set-logic QF_UFBV)",
        b"(set-logic QF_ABV)",
        b"(set-logic |QF_AUFBV|)",
        b"(set-logic ALL)(set-logic QF_BV)",
        b"(set-info :status sat)",
        b"(set-info :status)",
        b"(set-info :notes (let () p))",
        b"(set-option :produce-models |true|)",
    ]),
};

#[test]
fn texts_tokens_and_commands(rt: HostRuntime) -> Result<(), Fail> {
    judge(
        &rt,
        &[
            A_COMMAND_THAT_THE_END_CUTS_OFF,
            TEXT_OUTSIDE_A_COMMAND,
            LINES_AND_PIECES_OF_STRAY_TEXT,
            A_BAD_TOKEN,
            TEXTS_THAT_ARE_TAKEN,
            AN_UNKNOWN_COMMAND,
            AN_UNKNOWN_LOGIC,
            LOGICS_AND_ATTRIBUTES_THAT_ARE_TAKEN,
        ],
    )
}

/// Texts before and behind parentheses of a depth, each with the error on line 1.
const DEEP: [(&[u8], usize, &[u8], &[u8]); 4] = [
    (
        b"",
        1_000_000,
        b"",
        b"(error \"line 1: unknown command\")\n",
    ),
    (
        b"",
        1_000_001,
        b"",
        b"(error \"line 1: nesting too deep\")\n",
    ),
    (
        b"(declare-sort ",
        1_000_000,
        b")",
        b"(error \"line 1: nesting too deep\")\n",
    ),
    (
        b"(assert ",
        1_000_000,
        b" 00)",
        b"(error \"line 1: bad token\")\n",
    ),
];

/// Parentheses, as many as are opened, and then as many that close, between these texts.
fn nested(alloc: Global, text: &[u8], depth: usize, behind: &[u8]) -> Result<Vec<u8>, AllocError> {
    let mut script: Vec<u8> = Vec::new(alloc);
    script.extend_from_slice(text)?;
    for _ in 0..depth {
        script.push(b'(')?;
    }
    for _ in 0..depth {
        script.push(b')')?;
    }
    script.extend_from_slice(behind)?;
    Ok(script)
}

#[test]
fn a_million_parentheses_may_be_open(rt: HostRuntime) -> Result<(), Fail> {
    for (row, (text, depth, behind, wanted)) in DEEP.iter().enumerate() {
        let script = nested(rt.alloc(), text, *depth, behind)?;
        let is_told = is_answered(&rt, SOLVE, script.as_slice(), wanted, None);
        assert!(rt; is_told, "row {row}");
    }
    Ok(())
}
