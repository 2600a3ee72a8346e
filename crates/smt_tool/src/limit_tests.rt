//! The error that a command is told where no more terms may be made. A script would have to make 2^24 terms first, so here
//! commands are done in a state that has room for few.

ghost use Rattle.std.specs.Prelude.{◌≤◌, ◌^◌};

use script_state::answer::Answer;
use script_state::state::State;
use smt_terms::terms::Terms;
use smt_text::chunk::Chunk;
use smt_text::framer::chunks;
use smt_text::text::Text;
use std::alloc::{AllocError, Global};
use std::process::Abort;
use std::test::Fail;

/// Nothing is declared and nothing asserted, and there is room for so many terms.
fn state_within(alloc: Global, limit: u32) -> State
    requires { limit ≤ 2 ^ 24 }
{
    let (_, rest) = State::new(alloc).into_parts();
    State::from_parts(Terms::with_limit(alloc, limit), rest)
}

/// The text of the error that an answer tells; no bytes where it is none.
fn error_of(answer: &Answer) -> &'static [u8] {
    match answer {
        Answer::Refused(error) => error.text(),
        _ => b"",
    }
}

/// What a state tells of the last of these commands; `None` where it has made a thousand assertions.
fn told_last(
    alloc: Global,
    state: &mut State,
    commands: &[Chunk],
) -> Result<Option<&'static [u8]>, AllocError> {
    let mut told: &'static [u8] = b"";
    for command in commands {
        if state.assertions_made() >= 1000 {
            return Ok(None);
        }
        let answer = state.apply(alloc, command)?;
        told = error_of(&answer);
        drop(answer);
    }
    Ok(Some(told))
}

/// What the last command of the script is told where there is room for so many terms.
fn last_error(alloc: Global, limit: u32, script: &[u8]) -> Result<Option<&'static [u8]>, AllocError>
    requires { limit ≤ 2 ^ 24 }
{
    let pieces = [Text::from_slice(alloc, script)?];
    let commands = chunks(alloc, &pieces)?;
    let mut state = state_within(alloc, limit);
    let told = told_last(alloc, &mut state, commands.as_slice());
    drop(state);
    told
}

/// Scripts whose last commands are told this, each with how many terms there is room for.
struct Table {
    what: &'static str,
    error: &'static [u8],
    rows: &'static [(u32, &'static [u8])],
}

/// The last command of each script is told so.
fn tell(rt: &(impl Abort + AllocGlobal), table: &Table) -> Result<(), Fail> {
    let what = table.what;
    for (row, (limit, script)) in table.rows.iter().enumerate() {
        assert!(rt; *limit <= 16);
        let told = last_error(rt.alloc(), *limit, script)?;
        assert!(rt; told == Some(table.error), "{what}: row {row}");
    }
    Ok(())
}

const TABLES: [Table; 6] = [
    Table {
        what: "too many terms",
        error: b"too many terms",
        rows: &[
            (0, b"(assert true)"),
            (0, b"(declare-const p Bool)(assert p)"),
            (0, b"(declare-const p Bool)(assert (and p nope))"),
            (0, b"(declare-const x (_ BitVec 8))(assert x)"),
            (1, b"(assert true)(assert false)"),
            (1, b"(assert (not true))"),
            (2, b"(assert (and true false))"),
            (3, b"(assert (distinct #b0 #b1))"),
            (5, b"(assert (= #b0 #b1 #b1))(assert (distinct #b1 #b0))"),
            (0, b"(define-fun f ((a Bool)) Bool a)"),
            (
                2,
                b"(define-fun f ((a Bool)) Bool (not a))(define-fun g ((a Bool) (b Bool)) Bool b)",
            ),
            (
                3,
                b"(define-fun f ((a Bool)) Bool (not a))(assert (f true))",
            ),
            (
                4,
                b"(define-fun f ((a Bool)) Bool (not (not a)))(assert (f true))",
            ),
        ],
    },
    Table {
        what: "as many terms as there is room for",
        error: b"",
        rows: &[
            (
                0,
                b"(declare-const p Bool)(define-sort s () Bool)(push 1)(check-sat)",
            ),
            (1, b"(assert true)(assert true)"),
            (2, b"(assert (not true))"),
            (2, b"(assert (and true false))(assert (not true))"),
            (3, b"(assert (and true false))"),
            (4, b"(assert (distinct #b0 #b1))"),
            // An equality of three: the literals, two equalities of neighbours, and what joins them.
            (5, b"(assert (= #b0 #b1 #b1))"),
            // A parameter is a term where it is used, by its place and sort, which definitions share.
            (
                1,
                b"(define-fun f ((a Bool) (b Bool)) Bool a)(define-fun g ((c Bool)) Bool c)",
            ),
            (1, b"(define-fun f ((a Bool)) Bool true)(assert (f true))"),
            (
                4,
                b"(define-fun f ((a Bool)) Bool (not a))(assert (f true))",
            ),
            // A use makes what the body reaches: here the conjunction is not made again.
            (
                5,
                b"(define-fun f ((a Bool)) Bool (let ((b (and a true))) (not a)))(assert (f true))",
            ),
            // A use of a definition without parameters makes no term.
            (2, b"(define-fun f () Bool (not true))(assert f)(assert f)"),
        ],
    },
    Table {
        what: "faults before that of the limit",
        error: b"unknown symbol",
        rows: &[
            (0, b"(assert (and nope true))"),
            (1, b"(assert (and true nope))"),
        ],
    },
    Table {
        what: "faults before that of the limit",
        error: b"wrong number or sorts of arguments",
        rows: &[
            (2, b"(assert (and true #b1))"),
            (1, b"(assert #b1)"),
            (1, b"(assert (not true true))"),
        ],
    },
    Table {
        what: "faults before that of the limit",
        error: b"width out of range",
        rows: &[(1, b"(assert (= ((_ repeat 129) #b1) #b1))")],
    },
    Table {
        what: "faults before that of the limit",
        error: b"literal too wide",
        rows: &[(0, b"(assert (= (_ bv2 1) #b1))")],
    },
];

#[test]
fn as_many_terms_are_made_as_there_is_room_for(rt: HostRuntime) -> Result<(), Fail> {
    for table in &TABLES {
        tell(&rt, table)?;
    }
    Ok(())
}
