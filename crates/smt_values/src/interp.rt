// Interpretations of declarations.

ghost use Rattle.std.specs.Prelude.{◌≡◌, ◌==◌, ◌<◌, ℕ, [], map, length, None, Some, if◌then◌else◌, true, ◌⊎◌, slice_index_or, option_copied, IfOk, OnOk, OnErr};
ghost use Rattle.smt_terms.specs.Ranks.{is_plain};
ghost use Rattle.smt_terms.specs.Terms.{IsSort};
ghost use Rattle.smt_terms.specs.Scalars.{scalar_value};
ghost use Rattle.smt_terms.specs.Values.{read_at};
ghost use Rattle.smt_values.specs.Held.{meaning, set_for, interpretation_of, Suits, IsOfSort, IsFunction};

use crate::scalars::read_scalar;
use crate::table::FunTable;
use crate::value::{Value, word_from};
use smt_terms::scalar::Scalar;
use smt_terms::sort::{DeclId, Signature, Sort};
use std::alloc::{AllocError, Global};
use std::marker::Model;

/// Values of declarations, by their numbers.
#[derive(Debug, Drop)]
pub struct Interp {
    values: Vec<Option<Value>>,
}

impl Model for Interp {
    ghost use Rattle.std.specs.Prelude.{List, Option};
    ghost use Rattle.smt_values.specs.declared.value.Value as held;

    ghost Value = { List (Option held.Value) };

    ghost view = { λ m. m.values.items };
}

/// Makes room for the value of a declaration.
fn grow(values: &mut Vec<Option<Value>>, declaration: DeclId) -> Result<(), AllocError>
    ensures same { (d : ℕ) → set_for values.new.items d ≡ set_for values.old.items d }
    ensures ok { OnOk result (declaration < length values.new.items) }
{
    let wanted = declaration as usize + 1;
    while values.len() < wanted {
        values.push(None)?;
    }
    Ok(())
}

/// A value read at a sort.
fn read(alloc: Global, sort: Sort, value: &Value) -> Result<Value, AllocError>
    requires sort { IsSort sort }
    requires suits { Suits sort (Some value.now) }
    ensures meaning { IfOk result (λ v. meaning v ≡ read_at sort (meaning value.now)) }
    ensures sort { IfOk result (λ v. IsOfSort sort v) }
{
    match sort {
        Sort::Bool => match value {
            Value::Bool(holds) => Ok(Value::Bool(*holds)),
            _ => Ok(Value::default(alloc, sort)),
        },
        Sort::Word(width) => match value {
            Value::Word(word) => Ok(Value::Word(word_from(width, word.value()))),
            _ => Ok(Value::default(alloc, sort)),
        },
        Sort::Array(..) => match value {
            Value::Array(array) => Ok(Value::Array(array.copy()?)),
            _ => Ok(Value::default(alloc, sort)),
        },
    }
}

impl Interp {
    /// No declaration has a value yet.
    pub fn new(alloc: Global) -> Interp
        ensures { result ≡ [] }
    {
        Interp {
            values: Vec::new(alloc),
        }
    }

    /// Gives a declaration a value, in the place of any that it had.
    pub fn set(&mut self, declaration: DeclId, value: Value) -> Result<(), AllocError>
        ensures ok { OnOk result ((d : ℕ)
            → set_for self.new d ≡ (if d == declaration then Some value else set_for self.old d)) }
        ensures err { OnErr result ((d : ℕ) → set_for self.new d ≡ set_for self.old d) }
    {
        grow(&mut self.values, declaration)?;
        self.values[declaration as usize] = Some(value);
        Ok(())
    }

    /// The value that was set for a declaration; takes no memory.
    pub fn value(&self, declaration: DeclId) -> Option<&Value>
        ensures { option_copied result ≡ set_for self.now declaration }
    {
        match self.values.get(declaration as usize) {
            Some(Some(value)) => Some(value),
            _ => None,
        }
    }

    /// The value of a declared constant of this sort.
    pub fn constant(
        &self,
        alloc: Global,
        declaration: DeclId,
        sort: Sort,
    ) -> Result<Value, AllocError>
        requires sort { IsSort sort }
        requires suits { Suits sort (set_for self.now declaration) }
        ensures meaning { IfOk result
            (λ v. meaning v ≡ read_at sort ((interpretation_of self.now).constants declaration)) }
        ensures sort { IfOk result (λ v. IsOfSort sort v) }
    {
        match self.value(declaration) {
            None => Ok(Value::default(alloc, sort)),
            Some(value) => read(alloc, sort, value),
        }
    }

    /// The value of a declared function of values of this sort, for these arguments; takes no memory.
    pub fn call(&self, declaration: DeclId, sort: Sort, args: &[Scalar]) -> Scalar
        requires sort { IsSort sort }
        requires plain { is_plain sort ≡ true }
        ensures { scalar_value result
            ≡ read_at sort
            ((interpretation_of self.now).functions declaration (map scalar_value args.now)) }
    {
        let given = match self.value(declaration) {
            Some(Value::Fun(table)) => table.at(args),
            _ => Scalar::Bool(false),
        };
        read_scalar(sort, given)
    }

    /// The value of a declaration of this signature: that of a constant, or the table of a function.
    pub fn get(
        &self,
        alloc: Global,
        declaration: DeclId,
        signature: &Signature,
    ) -> Result<Value, AllocError>
        requires sort { IsSort signature.now.value }
        requires plain { is_plain signature.now.value ≡ true ⊎ (signature.now.args ≡ []) }
        requires suits { Suits signature.now.value (set_for self.now declaration) }
        ensures meaning { signature.now.args ≡ []
            → IfOk result
            (λ v. meaning v
            ≡ read_at signature.now.value ((interpretation_of self.now).constants declaration)) }
        ensures sort { signature.now.args ≡ [] → IfOk result (λ v. IsOfSort signature.now.value v) }
        ensures function { ¬ (signature.now.args ≡ [])
            → IfOk result
            (λ v. IsFunction
            (λ vs. read_at signature.now.value
            ((interpretation_of self.now).functions declaration vs)) v) }
    {
        if signature.args.as_slice().is_empty() {
            return self.constant(alloc, declaration, signature.value);
        }
        match self.value(declaration) {
            Some(Value::Fun(table)) => Ok(Value::Fun(table.read(alloc, signature.value)?)),
            _ => {
                let default = read_scalar(signature.value, Scalar::Bool(false));
                Ok(Value::Fun(FunTable::constant(alloc, default)))
            }
        }
    }
}
