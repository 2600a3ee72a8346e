//! Calls with ample memory.

ghost use Rattle.std.specs.Prelude.{◌≡◌, ◌<◌};
ghost use Rattle.smt_words.specs.Words.{word};
ghost use Rattle.smt_values.specs.Arrays.{IsOfWidth};

use crate::array::ArrayValue;
use crate::interp::Interp;
use crate::table::{FunTable, Scalars};
use crate::value::Value;
use smt_terms::list::Sorts;
use smt_terms::scalar::Scalar;
use smt_terms::sort::{Signature, Sort};
use smt_words::Word;
use std::test::Fail;

fn byte(value: u128) -> Word
    requires { value < 256 }
    ensures word { result ≡ word 8 value }
    ensures width { IsOfWidth 8 result }
{
    Word::new(8, value).unwrap()
}

fn bit(value: u128) -> Word
    requires { value < 2 }
    ensures word { result ≡ word 1 value }
    ensures width { IsOfWidth 1 result }
{
    Word::new(1, value).unwrap()
}

#[test]
fn a_default_that_is_never_reached_makes_no_difference(rt: HostRuntime) -> Result<(), Fail> {
    let mut a = ArrayValue::constant(rt.alloc(), 1, byte(7));
    let mut b = ArrayValue::constant(rt.alloc(), 1, byte(9));
    assert!(rt; a.difference(&b) == Some(bit(0)));
    a.set(bit(0), byte(3))?;
    b.set(bit(0), byte(3))?;
    assert!(rt; a.difference(&b) == Some(bit(1)));
    a.set(bit(1), byte(4))?;
    assert!(rt; !a.equal(&b));
    b.set(bit(1), byte(4))?;
    assert!(rt; a.equal(&b));
    b.set(bit(0), byte(5))?;
    assert!(rt; b.at(bit(0)) == byte(5) && b.at(bit(1)) == byte(4));
    assert!(rt; a.difference(&b) == Some(bit(0)));
    assert!(rt; b.entries().len() == 2 && b.index_width() == 1 && b.default() == byte(9));
    Ok(())
}

#[test]
fn a_declaration_without_a_value_is_false_or_zero(rt: HostRuntime) -> Result<(), Fail> {
    let mut interp = Interp::new(rt.alloc());
    interp.set(3, Value::Word(byte(200)))?;
    let plain = Signature {
        args: Sorts::none(rt.alloc()),
        value: Sort::Word(8),
    };
    let set = interp.get(rt.alloc(), 3, &plain)?;
    assert!(rt; matches!(&set, Value::Word(word) if *word == byte(200)));
    let unset = interp.get(rt.alloc(), 2, &plain)?;
    assert!(rt; matches!(&unset, Value::Word(word) if *word == byte(0)));
    let past = interp.get(rt.alloc(), 4, &plain)?;
    assert!(rt; matches!(&past, Value::Word(word) if *word == byte(0)));
    Ok(())
}

#[test]
fn a_table_gives_its_rows_and_elsewhere_its_default(rt: HostRuntime) -> Result<(), Fail> {
    let mut table = FunTable::constant(rt.alloc(), Scalar::Bool(false));
    let args = [Scalar::Word(byte(1)), Scalar::Bool(true)];
    table.set(Scalars::of(rt.alloc(), &args)?, Scalar::Bool(true))?;
    assert!(rt; table.at(&args) == Scalar::Bool(true));
    assert!(rt; table.at(&[Scalar::Word(byte(1)), Scalar::Bool(false)]) == Scalar::Bool(false));
    assert!(rt; table.default() == Scalar::Bool(false) && table.rows().len() == 1);
    let mut interp = Interp::new(rt.alloc());
    interp.set(0, Value::Fun(table))?;
    assert!(rt; interp.call(0, Sort::Bool, &args) == Scalar::Bool(true));
    assert!(rt; interp.call(1, Sort::Word(8), &args) == Scalar::Word(byte(0)));
    Ok(())
}
