//! Printed definitions and values. z3 reads the definitions back as the same values.

ghost use Rattle.std.specs.Prelude.{◌≡◌, ◌<◌};
ghost use Rattle.smt_words.specs.Words.{word};
ghost use Rattle.smt_values.specs.Arrays.{IsOfWidth};

use crate::printing::{push_definition, push_meaning};
use smt_terms::list::Sorts;
use smt_terms::scalar::Scalar;
use smt_terms::sort::{Signature, Sort};
use smt_text::text::Text;
use smt_values::{ArrayValue, FunTable, Scalars, Value};
use smt_words::Word;
use std::alloc::{AllocError, Global};
use std::test::Fail;

fn bit(value: u128) -> Word
    requires { value < 2 }
    ensures word { result ≡ word 1 value }
    ensures width { IsOfWidth 1 result }
{
    Word::new(1, value).unwrap()
}

fn pair(value: u128) -> Word
    requires { value < 4 }
    ensures word { result ≡ word 2 value }
    ensures width { IsOfWidth 2 result }
{
    Word::new(2, value).unwrap()
}

/// The line of a definition.
fn defined(
    alloc: Global,
    name: &[u8],
    args: &[Sort],
    sort: Sort,
    value: Value,
) -> Result<Text, AllocError> {
    let signature = Signature {
        args: Sorts::of(alloc, args)?,
        value: sort,
    };
    let mut out = Text::new(alloc);
    push_definition(name, &signature, &value, &mut out)?;
    Ok(out)
}

/// The function that turns a bit.
fn turned(alloc: Global) -> Result<Value, AllocError> {
    let mut table = FunTable::constant(alloc, Scalar::Word(bit(0)));
    let args = Scalars::of(alloc, &[Scalar::Word(bit(0))])?;
    table.set(args, Scalar::Word(bit(1)))?;
    Ok(Value::Fun(table))
}

#[test]
fn a_row_of_one_argument_is_an_equality(rt: HostRuntime) -> Result<(), Fail> {
    let value = turned(rt.alloc())?;
    let line = defined(rt.alloc(), b"f", &[Sort::Word(1)], Sort::Word(1), value)?;
    let wanted: &[u8] =
        b"(define-fun f ((x!0 (_ BitVec 1))) (_ BitVec 1) (ite (= x!0 #b0) #b1 #b0))\n";
    assert!(rt; line.as_slice() == wanted);
    Ok(())
}

/// A function of a word and a truth value, with two rows.
fn chosen(alloc: Global) -> Result<Value, AllocError> {
    let mut table = FunTable::constant(alloc, Scalar::Word(pair(0)));
    let one = Scalars::of(alloc, &[Scalar::Word(pair(1)), Scalar::Bool(true)])?;
    table.set(one, Scalar::Word(pair(2)))?;
    let other = Scalars::of(alloc, &[Scalar::Word(pair(1)), Scalar::Bool(false)])?;
    table.set(other, Scalar::Word(pair(3)))?;
    Ok(Value::Fun(table))
}

#[test]
fn rows_rise_from_the_outside(rt: HostRuntime) -> Result<(), Fail> {
    let value = chosen(rt.alloc())?;
    let line = defined(
        rt.alloc(),
        b"g",
        &[Sort::Word(2), Sort::Bool],
        Sort::Word(2),
        value,
    )?;
    let wanted: &[u8] = b"(define-fun g ((x!0 (_ BitVec 2)) (x!1 Bool)) (_ BitVec 2) \
(ite (and (= x!0 #b01) (= x!1 false)) #b11 (ite (and (= x!0 #b01) (= x!1 true)) #b10 #b00)))\n";
    assert!(rt; line.as_slice() == wanted);
    Ok(())
}

/// An array with three held entries, of which one is the default.
fn held(alloc: Global) -> Result<Value, AllocError> {
    let mut array = ArrayValue::constant(alloc, 2, bit(0));
    array.set(pair(2), bit(1))?;
    array.set(pair(0), bit(1))?;
    array.set(pair(1), bit(0))?;
    Ok(Value::Array(array))
}

#[test]
fn stores_rise_from_the_inside(rt: HostRuntime) -> Result<(), Fail> {
    let value = held(rt.alloc())?;
    let line = defined(rt.alloc(), b"a", &[], Sort::Array(2, 1), value)?;
    let wanted: &[u8] = b"(define-fun a () (Array (_ BitVec 2) (_ BitVec 1)) \
(store (store ((as const (Array (_ BitVec 2) (_ BitVec 1))) #b0) #b00 #b1) #b10 #b1))\n";
    assert!(rt; line.as_slice() == wanted);
    Ok(())
}

#[test]
fn the_value_of_a_term_is_printed_alone(rt: HostRuntime) -> Result<(), Fail> {
    let mut out = Text::new(rt.alloc());
    push_meaning(&Value::Bool(true), &mut out)?;
    out.push(b' ')?;
    push_meaning(&Value::Word(pair(2)), &mut out)?;
    out.push(b' ')?;
    let zeros = Value::Array(ArrayValue::constant(rt.alloc(), 1, bit(0)));
    push_meaning(&zeros, &mut out)?;
    let wanted: &[u8] = b"true #b10 ((as const (Array (_ BitVec 1) (_ BitVec 1))) #b0)";
    assert!(rt; out.as_slice() == wanted);
    Ok(())
}
