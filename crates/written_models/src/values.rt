//! Values read at the signatures of declarations.

ghost use Rattle.std.specs.Prelude.{◌≡◌, [], true, IfOk};
ghost use Rattle.std.specs.Option.{option_copied};
ghost use Rattle.smt_terms.specs.Ranks.{is_plain};
ghost use Rattle.smt_terms.specs.Scalars.{scalar_value};
ghost use Rattle.smt_terms.specs.Terms.{IsSort};
ghost use Rattle.smt_terms.specs.Values.{read_at};
ghost use Rattle.smt_terms.specs.declared.sort.Sort.{Sort as Of};
ghost use Rattle.smt_values.specs.Held.{meaning, constant_of};
ghost use Rattle.accepted_proof.specs.Models.{IsOfKind};
ghost use Rattle.written_models.specs.Alike.{AreAlike};
ghost use Rattle.written_models.specs.Reading.{IsDeclarable, IsTableReading, IsReading};

use crate::arrays::array_at;
use crate::scalars::scalar_at;
use crate::tables::table_at;
use smt_terms::scalar::Scalar;
use smt_terms::sort::{Signature, Sort};
use smt_values::{FunTable, Value};
use std::alloc::{AllocError, Global};

/// The truth value or the word that a value is; false where it is neither.
fn scalar_in(value: Option<&Value>) -> Scalar
    ensures { (s : Of) → is_plain s ≡ true
        → read_at s (scalar_value result) ≡ read_at s (constant_of (option_copied value.entry)) }
{
    match value {
        Some(Value::Bool(holds)) => Scalar::Bool(*holds),
        Some(Value::Word(word)) => Scalar::Word(*word),
        _ => Scalar::Bool(false),
    }
}

/// The value of a constant of this sort where this value, or none, is set for it.
fn constant_at(alloc: Global, sort: Sort, value: Option<&Value>) -> Result<Value, AllocError>
    requires sort { IsSort sort }
    ensures kind { IfOk result (λ v. IsOfKind sort v) }
    ensures alike { IfOk result
        (λ v. AreAlike sort (read_at sort (constant_of (option_copied value.entry))) (meaning v)) }
{
    match sort {
        Sort::Array(index, element) => match value {
            Some(Value::Array(array)) => {
                Ok(Value::Array(array_at(alloc, index, element, array)?))
            }
            _ => Ok(Value::default(alloc, sort)),
        },
        _ => Ok(Value::from(scalar_at(sort, scalar_in(value)))),
    }
}

/// The table of a function of this signature where this value, or none, is set for it.
fn function_at(
    alloc: Global,
    signature: &Signature,
    value: Option<&Value>,
) -> Result<FunTable, AllocError>
    requires declarable { IsDeclarable signature.now }
    requires function { signature.now.args ≡ [] → ⊥ }
    ensures { IfOk result
        (λ t. IsTableReading signature.now (option_copied value.entry) t) }
{
    let default = scalar_at(signature.value, Scalar::Bool(false));
    match value {
        Some(set) => match set {
            Value::Fun(table) => table_at(alloc, signature, table),
            _ => Ok(FunTable::constant(alloc, default)),
        },
        None => Ok(FunTable::constant(alloc, default)),
    }
}

/// The value that is written for a declaration of this signature where this value, or none, is set
/// for it: that of a constant, or the table of a function.
pub(crate) fn value_at(
    alloc: Global,
    signature: &Signature,
    value: Option<&Value>,
) -> Result<Value, AllocError>
    requires { IsDeclarable signature.now }
    ensures { IfOk result (λ v. IsReading signature.now (option_copied value.entry) v) }
{
    if signature.args.as_slice().is_empty() {
        return constant_at(alloc, signature.value, value);
    }
    let table = function_at(alloc, signature, value)?;
    Ok(Value::Fun(table))
}
