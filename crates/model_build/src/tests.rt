//! Drafts of interpretations, with ample memory.

ghost use Rattle.std.specs.Prelude.{◌≡◌, ◌<◌};
ghost use Rattle.smt_words.specs.Words.{word};
ghost use Rattle.smt_values.specs.Arrays.{IsOfWidth};

use crate::draft::Draft;
use smt_terms::scalar::Scalar;
use smt_terms::sort::Sort;
use smt_values::array::ArrayValue;
use smt_values::table::Scalars;
use smt_values::value::Value;
use smt_words::Word;
use std::test::Fail;

fn byte(value: u128) -> Word
    requires { value < 256 }
    ensures word { result ≡ word 8 value }
    ensures width { IsOfWidth 8 result }
{
    Word::new(8, value).unwrap()
}

#[test]
fn a_draft_gives_what_was_set(rt: HostRuntime) -> Result<(), Fail> {
    let alloc = rt.alloc();
    let mut draft = Draft::new(alloc);
    let one = [Scalar::Word(byte(1)), Scalar::Bool(true)];
    let two = [Scalar::Word(byte(2)), Scalar::Bool(true)];
    draft.set(3, Value::Bool(true))?;
    let other = [Scalar::Word(byte(3)), Scalar::Bool(true)];
    let default = Scalar::Word(byte(4));
    let five = Scalar::Word(byte(5));
    let six = Scalar::Word(byte(6));
    draft.add_row(alloc, 1, default, Scalars::of(alloc, &two)?, six)?;
    draft.add_row(alloc, 1, default, Scalars::of(alloc, &one)?, five)?;
    draft.enter(2, byte(1), byte(9))?;
    let interp = draft.finish(alloc)?;
    assert!(rt; matches!(interp.value(3), Some(Value::Bool(true))));
    assert!(rt; interp.value(0).is_none() && interp.value(2).is_none());
    assert!(rt; interp.call(1, Sort::Word(8), &one) == five);
    assert!(rt; interp.call(1, Sort::Word(8), &two) == six);
    assert!(rt; interp.call(1, Sort::Word(8), &other) == default);
    Ok(())
}

#[test]
fn an_array_of_a_draft_gets_elements(rt: HostRuntime) -> Result<(), Fail> {
    let alloc = rt.alloc();
    let mut draft = Draft::new(alloc);
    draft.set(0, Value::Array(ArrayValue::constant(alloc, 8, byte(7))))?;
    draft.enter(0, byte(1), byte(9))?;
    let interp = draft.finish(alloc)?;
    let Some(Value::Array(array)) = interp.value(0) else {
        return Err("no array is set".into());
    };
    assert!(rt; array.at(byte(1)) == byte(9) && array.at(byte(2)) == byte(7));
    Ok(())
}
