// What the operators give for arguments of which one is an array.

ghost use Rattle.std.specs.Prelude.{◌≡◌, ◌<◌, ◌^◌, ◌==◌, not, true, false, [], ◌∷◌, map, length, IfOk, IsOk};
ghost use Rattle.std.specs.List.{AllByRecursion, list_any};
ghost use Rattle.smt_terms.specs.declared.node.Op.TheVariants.{Plain, ConstantArray};
ghost use Rattle.smt_terms.specs.declared.operator.Operator.TheVariants as plain;
ghost use Rattle.smt_terms.specs.Terms.{op_rank};
ghost use Rattle.smt_words.specs.Words.{word};
ghost use Rattle.smt_terms.specs.Values.{Interpretation, VWord, first_below, store_of};
ghost use Rattle.smt_values.specs.Arrays.{IsOfWidth, array_value, element_at};
ghost use Rattle.smt_values.specs.Held.{meaning};
ghost use Rattle.smt_eval.specs.Evaluated.{is_table, holds_array, given, AreTaken, IsGiven};

use smt_terms::node::TermId;
use smt_terms::operator::Operator;
use smt_values::array::ArrayValue;
use smt_values::value::Value;
use smt_words::Word;
use std::alloc::{AllocError, Global};

/// What an operator gives for arguments of which one is an array.
pub fn with_arrays(
    operator: Operator,
    values: &[Value],
    args: &[TermId],
) -> Result<Value, AllocError>
    requires within { AllByRecursion (λ a. a < length values.now) args.now }
    requires taken { AreTaken (Plain operator) (given values.now args.now) }
    requires array { list_any holds_array (given values.now args.now) ≡ true }
    ensures { IfOk result (λ v. (M : Interpretation)
        → IsGiven M (Plain operator) (given values.now args.now) v) }
{
    match args {
        [] => Ok(Value::Bool(false)),
        [_] => Ok(Value::Bool(false)),
        [a, b] => Ok(of_two(operator, &values[*a as usize], &values[*b as usize])),
        [a, b, c] => of_three(
            operator,
            &values[*a as usize],
            &values[*b as usize],
            &values[*c as usize],
        ),
        _ => Ok(Value::Bool(false)),
    }
}

/// The array that has this argument at each index.
pub fn everywhere(alloc: Global, width: u64, values: &[Value], args: &[TermId]) -> Value
    requires within { AllByRecursion (λ a. a < length values.now) args.now }
    requires taken { AreTaken (ConstantArray width) (given values.now args.now) }
    ensures { (M : Interpretation)
        → IsGiven M (ConstantArray width) (given values.now args.now) result }
{
    match args {
        [element] => everywhere_this(alloc, width, &values[*element as usize]),
        _ => Value::Bool(false),
    }
}

fn everywhere_this(alloc: Global, width: u64, element: &Value) -> Value
    requires taken { AreTaken (ConstantArray width) (element.now ∷ []) }
    ensures { (M : Interpretation) → IsGiven M (ConstantArray width) (element.now ∷ []) result }
{
    match element {
        Value::Word(word) => Value::Array(ArrayValue::constant(alloc, width as u32, *word)),
        _ => Value::Bool(false),
    }
}

fn of_two(operator: Operator, a: &Value, b: &Value) -> Value
    requires taken { AreTaken (Plain operator) (a.now ∷ b.now ∷ []) }
    requires array { list_any holds_array (a.now ∷ b.now ∷ []) ≡ true }
    ensures { (M : Interpretation) → IsGiven M (Plain operator) (a.now ∷ b.now ∷ []) result }
{
    match operator {
        Operator::Equal => equality(a, b),
        Operator::Select => selection(a, b),
        Operator::Witness => witness(a, b),
        _ => Value::Bool(false),
    }
}

fn equality(a: &Value, b: &Value) -> Value
    requires taken { AreTaken (Plain plain.Equal) (a.now ∷ b.now ∷ []) }
    requires array { list_any holds_array (a.now ∷ b.now ∷ []) ≡ true }
    ensures { (M : Interpretation) → IsGiven M (Plain plain.Equal) (a.now ∷ b.now ∷ []) result }
{
    match a {
        Value::Array(array) => match b {
            Value::Array(other) => Value::Bool(array.equal(other)),
            _ => Value::Bool(false),
        },
        _ => Value::Bool(false),
    }
}

fn selection(a: &Value, b: &Value) -> Value
    requires taken { AreTaken (Plain plain.Select) (a.now ∷ b.now ∷ []) }
    ensures { (M : Interpretation) → IsGiven M (Plain plain.Select) (a.now ∷ b.now ∷ []) result }
{
    match a {
        Value::Array(array) => match b {
            Value::Word(index) => Value::Word(array.at(*index)),
            _ => Value::Bool(false),
        },
        _ => Value::Bool(false),
    }
}

fn witness(a: &Value, b: &Value) -> Value
    requires taken { AreTaken (Plain plain.Witness) (a.now ∷ b.now ∷ []) }
    ensures { (M : Interpretation) → IsGiven M (Plain plain.Witness) (a.now ∷ b.now ∷ []) result }
{
    match a {
        Value::Array(array) => match b {
            Value::Array(other) => Value::Word(least_difference(array, other)),
            _ => Value::Bool(false),
        },
        _ => Value::Bool(false),
    }
}

/// The index 0 of an array.
fn least_index(array: &ArrayValue) -> Word
    ensures { result ≡ word array.now.index 0 }
{
    Word::new(array.index_width(), 0).unwrap()
}

/// The least index at which two arrays of one sort differ, or 0.
fn least_difference(a: &ArrayValue, b: &ArrayValue) -> Word
    requires index { b.now.index ≡ a.now.index }
    requires element { b.now.default.width ≡ a.now.default.width }
    ensures { result
        ≡ word a.now.index
        (first_below (λ i. not (element_at a.now i == element_at b.now i)) (2 ^ a.now.index)) }
{
    match a.difference(b) {
        Some(index) => index,
        None => least_index(a),
    }
}

fn of_three(operator: Operator, a: &Value, b: &Value, c: &Value) -> Result<Value, AllocError>
    requires taken { AreTaken (Plain operator) (a.now ∷ b.now ∷ c.now ∷ []) }
    requires array { list_any holds_array (a.now ∷ b.now ∷ c.now ∷ []) ≡ true }
    ensures { IfOk result (λ v. (M : Interpretation)
        → IsGiven M (Plain operator) (a.now ∷ b.now ∷ c.now ∷ []) v) }
{
    match operator {
        Operator::Ite => choice(a, b, c),
        Operator::Store => storing(a, b, c),
        _ => Ok(Value::Bool(false)),
    }
}

fn choice(a: &Value, b: &Value, c: &Value) -> Result<Value, AllocError>
    requires taken { AreTaken (Plain plain.Ite) (a.now ∷ b.now ∷ c.now ∷ []) }
    ensures { IfOk result (λ v. (M : Interpretation)
        → IsGiven M (Plain plain.Ite) (a.now ∷ b.now ∷ c.now ∷ []) v) }
{
    match a {
        Value::Bool(holds) => { if *holds { b.copy() } else { c.copy() } }
        _ => Ok(Value::Bool(false)),
    }
}

fn storing(a: &Value, b: &Value, c: &Value) -> Result<Value, AllocError>
    requires taken { AreTaken (Plain plain.Store) (a.now ∷ b.now ∷ c.now ∷ []) }
    ensures { IfOk result (λ v. (M : Interpretation)
        → IsGiven M (Plain plain.Store) (a.now ∷ b.now ∷ c.now ∷ []) v) }
{
    match a {
        Value::Array(array) => match b {
            Value::Word(index) => match c {
                Value::Word(element) => stored(array, *index, *element),
                _ => Ok(Value::Bool(false)),
            },
            _ => Ok(Value::Bool(false)),
        },
        _ => Ok(Value::Bool(false)),
    }
}

/// An array with one element changed.
fn stored(array: &ArrayValue, index: Word, element: Word) -> Result<Value, AllocError>
    requires index { IsOfWidth array.now.index index }
    requires element { IsOfWidth array.now.default.width element }
    ensures plain { IfOk result (λ v. is_table v ≡ false) }
    ensures meaning { IfOk result
        (λ v. meaning v
        ≡ store_of (array_value array.now) (VWord index.width index.value)
        (VWord element.width element.value)) }
{
    let mut changed = array.copy()?;
    changed.set(index, element)?;
    Ok(Value::Array(changed))
}
