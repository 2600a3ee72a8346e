// The value of a term from those of its arguments.

ghost use Rattle.std.specs.Prelude.{◌≡◌, ◌<◌, true, false, map, length, IfOk, MatchBool, MatchOption, IsOk};
ghost use Rattle.std.specs.List.{AllByRecursion, list_any};
ghost use Rattle.smt_terms.specs.declared.operator.Operator.{Operator};
ghost use Rattle.smt_terms.specs.declared.node.Op.TheVariants.{Plain, Apply};
ghost use Rattle.smt_terms.specs.Scalars.{scalar_sort, is_fixed};
ghost use Rattle.smt_terms.specs.Terms.{op_rank};
ghost use Rattle.smt_terms.specs.Values.{Interpretation};
ghost use Rattle.smt_values.specs.Held.{value_of, interpretation_of};
ghost use Rattle.smt_eval.specs.Evaluated.{IsSuited, is_table, holds_array, IsTyped, given, AreTaken, IsGiven};

use crate::arrays::{everywhere, with_arrays};
use smt_terms::apply::apply;
use smt_terms::node::{Op, TermId};
use smt_terms::operator::Operator;
use smt_terms::scalar::Scalar;
use smt_terms::sort::{DeclId, Signature};
use smt_values::interp::Interp;
use smt_values::value::Value;
use std::alloc::{AllocError, Global};

/// A value that is no array, and no table.
fn scalar_of(value: &Value) -> Option<Scalar>
    requires { is_table value.now ≡ false }
    ensures { MatchOption result (holds_array value.now ≡ true) (λ s. value.now ≡ value_of s) }
{
    match value {
        Value::Bool(holds) => Some(Scalar::Bool(*holds)),
        Value::Word(word) => Some(Scalar::Word(*word)),
        Value::Array(_) | Value::Fun(_) => None,
    }
}

/// Puts the values of the arguments into a list; false where one of them is an array.
fn gather(values: &[Value], args: &[TermId], scalars: &mut Vec<Scalar>) -> Result<bool, AllocError>
    requires within { AllByRecursion (λ a. a < length values.now) args.now }
    requires typed { AllByRecursion IsTyped (given values.now args.now) }
    ensures { IfOk result
        (λ plain. MatchBool plain (map value_of scalars.new.items ≡ given values.now args.now)
        (list_any holds_array (given values.now args.now) ≡ true)) }
{
    scalars.clear();
    for term in args {
        match scalar_of(&values[*term as usize]) {
            Some(scalar) => scalars.push(scalar)?,
            None => return Ok(false),
        }
    }
    Ok(true)
}

/// What an operator of the theories or a literal gives for truth values and words.
fn fixed(op: &Op, scalars: &[Scalar]) -> Value
    requires fixed { is_fixed op.now ≡ true }
    requires rank { IsOk (op_rank op.now (map scalar_sort scalars.now)) }
    ensures { (M : Interpretation) → IsGiven M op.now (map value_of scalars.now) result }
{
    match apply(op, scalars) {
        Some(scalar) => Value::from(scalar),
        None => Value::Bool(false),
    }
}

/// The value of a declared function for these arguments.
fn called(
    declaration: DeclId,
    signature: &Signature,
    args: &[TermId],
    values: &[Value],
    interp: &Interp,
    scalars: &mut Vec<Scalar>,
) -> Result<Value, AllocError>
    requires within { AllByRecursion (λ a. a < length values.now) args.now }
    requires taken { AreTaken (Apply declaration signature.now) (given values.now args.now) }
    ensures { IfOk result
        (λ v. IsGiven (interpretation_of interp.now) (Apply declaration signature.now)
        (given values.now args.now) v) }
{
    if gather(values, args, scalars)? {
        let scalar = interp.call(declaration, signature.value, scalars.as_slice());
        Ok(Value::from(scalar))
    } else {
        Ok(Value::Bool(false))
    }
}

/// What an operator without an index gives for these arguments.
fn theory(
    operator: Operator,
    args: &[TermId],
    values: &[Value],
    scalars: &mut Vec<Scalar>,
) -> Result<Value, AllocError>
    requires within { AllByRecursion (λ a. a < length values.now) args.now }
    requires taken { AreTaken (Plain operator) (given values.now args.now) }
    ensures { IfOk result (λ v. (M : Interpretation)
        → IsGiven M (Plain operator) (given values.now args.now) v) }
{
    if gather(values, args, scalars)? {
        let op = Op::Plain(operator);
        Ok(fixed(&op, scalars.as_slice()))
    } else {
        with_arrays(operator, values, args)
    }
}

/// What a literal or an operator with an index gives for these arguments.
fn indexed(
    op: &Op,
    args: &[TermId],
    values: &[Value],
    scalars: &mut Vec<Scalar>,
) -> Result<Value, AllocError>
    requires fixed { is_fixed op.now ≡ true }
    requires index { (o : Operator) → op.now ≡ Plain o → ⊥ }
    requires within { AllByRecursion (λ a. a < length values.now) args.now }
    requires taken { AreTaken op.now (given values.now args.now) }
    ensures { IfOk result (λ v. (M : Interpretation)
        → IsGiven M op.now (given values.now args.now) v) }
{
    if gather(values, args, scalars)? {
        Ok(fixed(op, scalars.as_slice()))
    } else {
        Ok(Value::Bool(false))
    }
}

/// The value of a term of this operator and these arguments, over the values of the terms before it.
pub fn evaluate(
    alloc: Global,
    op: &Op,
    args: &[TermId],
    values: &[Value],
    interp: &Interp,
    scalars: &mut Vec<Scalar>,
) -> Result<Value, AllocError>
    requires within { AllByRecursion (λ a. a < length values.now) args.now }
    requires taken { AreTaken op.now (given values.now args.now) }
    requires suited { IsSuited op.now interp.now }
    ensures { IfOk result
        (λ v. IsGiven (interpretation_of interp.now) op.now (given values.now args.now) v) }
{
    match op {
        Op::Constant { declaration, sort } => interp.constant(alloc, *declaration, *sort),
        Op::Param { sort, .. } => Ok(Value::default(alloc, *sort)),
        Op::Apply {
            declaration,
            signature,
        } => called(*declaration, signature, args, values, interp, scalars),
        Op::Plain(operator) => theory(*operator, args, values, scalars),
        Op::ConstantArray(width) => Ok(everywhere(alloc, *width, values, args)),
        _ => indexed(op, args, values, scalars),
    }
}
