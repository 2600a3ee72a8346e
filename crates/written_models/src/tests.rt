//! Records of small scripts, with values that are set at the declared sorts and at others.

ghost use Rattle.std.specs.Prelude.{◌≡◌, ◌<◌, true};
ghost use Rattle.smt_words.specs.Words.{word};
ghost use Rattle.smt_terms.specs.Values.{Interpretation};
ghost use Rattle.smt_values.specs.Arrays.{IsOfWidth};
ghost use Rattle.accepted_proof.specs.Models.{IsModel};

use crate::written::written_model;
use proof_text::record::{Record, write_record};
use script_state::state::State;
use smt_terms::scalar::Scalar;
use smt_text::chunk::{Chunk, ChunkKind};
use smt_text::text::Text;
use smt_values::{ArrayValue, FunTable, Interp, Scalars, Value};
use smt_words::Word;
use std::alloc::{AllocError, Global};
use std::test::Fail;

/// A word of two bits.
fn two(value: u128) -> Word
    requires { value < 4 }
    ensures word { result ≡ word 2 value }
    ensures width { IsOfWidth 2 result }
{
    Word::new(2, value).unwrap()
}

/// A word of three bits.
fn three(value: u128) -> Word
    requires { value < 8 }
    ensures word { result ≡ word 3 value }
    ensures width { IsOfWidth 3 result }
{
    Word::new(3, value).unwrap()
}

/// A function with a row of two arguments and one of one, an array and a word.
fn found(alloc: Global) -> Result<Interp, AllocError> {
    let mut table = FunTable::constant(alloc, Scalar::Word(three(1)));
    let both = [Scalar::Word(two(2)), Scalar::Bool(true)];
    table.set(Scalars::of(alloc, &both)?, Scalar::Word(three(5)))?;
    let one = [Scalar::Bool(true)];
    table.set(Scalars::of(alloc, &one)?, Scalar::Bool(true))?;
    let mut array = ArrayValue::constant(alloc, 2, three(0));
    array.set(two(2), three(7))?;
    let mut interp = Interp::new(alloc);
    interp.set(0, Value::Fun(table))?;
    interp.set(1, Value::Array(array))?;
    interp.set(2, Value::Word(two(3)))?;
    Ok(interp)
}

/// Whether nothing is asserted and nothing assumed.
fn is_bare(state: &State) -> bool
    ensures { result ≡ true → (M : Interpretation) → IsModel state.now M }
{
    if !state.live().is_empty() {
        return false;
    }
    state.assumptions().is_empty()
}

/// Declares so.
fn declare(alloc: Global, state: &mut State, text: &[u8]) -> Result<(), AllocError> {
    if state.assertions_made() > 1000 {
        return Err(AllocError);
    }
    let text = Text::from_slice(alloc, text)?;
    let chunk = Chunk {
        line: 1,
        kind: ChunkKind::Balanced,
        text,
    };
    state.apply(alloc, &chunk)?;
    Ok(())
}

/// The record over what is declared.
fn record(alloc: Global, state: &State, found: &Interp) -> Result<Text, AllocError> {
    if !is_bare(state) {
        return Err(AllocError);
    }
    let values = written_model(alloc, state, found)?;
    let shown = Record::Sat(values);
    let mut out = Text::new(alloc);
    write_record(&shown, &mut out)?;
    Ok(out)
}

/// The record over these declarations.
fn record_over(
    alloc: Global,
    state: &mut State,
    declared: &[&[u8]],
    found: &Interp,
) -> Result<Text, AllocError> {
    for text in declared {
        declare(alloc, state, text)?;
    }
    record(alloc, state, found)
}

struct Case {
    declared: &'static [&'static [u8]],
    record: &'static [u8],
}

const CASES: [Case; 2] = [
    Case {
        declared: &[
            b"(declare-fun f ((_ BitVec 2) Bool) (_ BitVec 3))",
            b"(declare-const a (Array (_ BitVec 2) (_ BitVec 3)))",
            b"(declare-const x (_ BitVec 2))",
        ],
        record: b"sat 3\nv 0 f #b001 #b10 true #b101\nv 1 a #b000 #b10 #b111\nv 2 #b11\n",
    },
    Case {
        declared: &[
            b"(declare-const x (_ BitVec 4))",
            b"(declare-const a (Array (_ BitVec 1) (_ BitVec 2)))",
            b"(declare-fun g (Bool) Bool)",
            b"(declare-const p Bool)",
        ],
        record: b"sat 4\nv 0 #b0000\nv 1 a #b00\nv 2 f false\nv 3 false\n",
    },
];

#[test]
fn each_declaration_has_what_is_set_as_it_reads(rt: HostRuntime) -> Result<(), Fail> {
    let interp = found(rt.alloc())?;
    for case in &CASES {
        let mut state = State::new(rt.alloc());
        let text = record_over(rt.alloc(), &mut state, case.declared, &interp);
        drop(state);
        assert!(rt; text?.as_slice() == case.record);
    }
    Ok(())
}
