// Drafts of interpretations.

ghost use Rattle.std.specs.Prelude.{◌≡◌, ◌<◌, ◌≤◌, ◌^◌, ◌+◌, [], ℕ, Some, length, IfOk, OnOk};
ghost use Rattle.smt_values.specs.Held.{set_for};
ghost use Rattle.model_build.specs.Drafts.{Sets, Takes, entered_in, table_of, rowed_in};

use smt_terms::scalar::Scalar;
use smt_terms::sort::DeclId;
use smt_values::interp::Interp;
use smt_values::table::{FunTable, Scalars};
use smt_values::value::Value;
use smt_words::Word;
use std::alloc::{AllocError, Global};
use std::marker::Model;
use std::mem;

/// Values of declarations by their numbers, which grow.
#[derive(Drop)]
pub(crate) struct Draft {
    values: Vec<Option<Value>>,
}

impl Model for Draft {
    ghost use Rattle.std.specs.Prelude.{List, Option, ◌≤◌, ◌^◌, length};
    ghost use Rattle.smt_values.specs.declared.value.Value as held;

    ghost Value = { List (Option held.Value) };

    ghost view = { λ d. d.values.items };

    ghost invariant = { λ d. length d.values.items ≤ 2 ^ 32 };
}

/// Makes room for the value of a declaration.
fn grow(values: &mut Vec<Option<Value>>, declaration: DeclId) -> Result<(), AllocError>
    requires few { length values.old.items ≤ 2 ^ 32 }
    ensures same { (d : ℕ) → set_for values.new.items d ≡ set_for values.old.items d }
    ensures ok { OnOk result (declaration < length values.new.items) }
    ensures few { length values.new.items ≤ 2 ^ 32 }
{
    let wanted = declaration as usize + 1;
    while values.len() < wanted {
        values.push(None)?;
    }
    Ok(())
}

/// An array with one element more.
fn entered(value: Option<Value>, index: Word, element: Word) -> Result<Option<Value>, AllocError>
    requires { Takes index element value }
    ensures { IfOk result (λ v. v ≡ entered_in index element value) }
{
    match value {
        Some(Value::Array(array)) => {
            let mut changed = array;
            changed.set(index, element)?;
            Ok(Some(Value::Array(changed)))
        }
        other => Ok(other),
    }
}

/// A table, or one that has this value everywhere.
fn table_in(alloc: Global, value: Option<Value>, default: Scalar) -> FunTable
    ensures { result ≡ table_of default value }
{
    match value {
        Some(Value::Fun(table)) => table,
        Some(Value::Array(_array)) => FunTable::constant(alloc, default),
        Some(Value::Bool(_)) => FunTable::constant(alloc, default),
        Some(Value::Word(_)) => FunTable::constant(alloc, default),
        None => FunTable::constant(alloc, default),
    }
}

/// A table with one row more.
fn rowed(
    alloc: Global,
    value: Option<Value>,
    default: Scalar,
    args: Scalars,
    given: Scalar,
) -> Result<Option<Value>, AllocError>
    ensures { IfOk result (λ v. v ≡ rowed_in default args given value) }
{
    let mut table = table_in(alloc, value, default);
    table.set(args, given)?;
    Ok(Some(Value::Fun(table)))
}

impl Draft {
    /// No declaration has a value yet.
    pub(crate) fn new(alloc: Global) -> Draft
        ensures { result ≡ [] }
    {
        Draft {
            values: Vec::new(alloc),
        }
    }

    /// Gives a declaration a value.
    pub(crate) fn set(&mut self, declaration: DeclId, value: Value) -> Result<(), AllocError>
        ensures { OnOk result (Sets declaration (λ o. Some value) self.old self.new) }
    {
        grow(&mut self.values, declaration)?;
        self.values[declaration as usize] = Some(value);
        Ok(())
    }

    /// Gives the array of a declaration an element.
    pub(crate) fn enter(
        &mut self,
        declaration: DeclId,
        index: Word,
        element: Word,
    ) -> Result<(), AllocError>
        requires { Takes index element (set_for self.old declaration) }
        ensures { OnOk result (Sets declaration (entered_in index element) self.old self.new) }
    {
        grow(&mut self.values, declaration)?;
        let old = mem::replace(&mut self.values[declaration as usize], None);
        let new = entered(old, index, element)?;
        self.values[declaration as usize] = new;
        Ok(())
    }

    /// Gives the function of a declaration a value for these arguments; where it has no row yet, this
    /// default for all others.
    pub(crate) fn add_row(
        &mut self,
        alloc: Global,
        declaration: DeclId,
        default: Scalar,
        args: Scalars,
        value: Scalar,
    ) -> Result<(), AllocError>
        ensures { OnOk result (Sets declaration (rowed_in default args value) self.old self.new) }
    {
        grow(&mut self.values, declaration)?;
        let old = mem::replace(&mut self.values[declaration as usize], None);
        let new = rowed(alloc, old, default, args, value)?;
        self.values[declaration as usize] = new;
        Ok(())
    }

    /// The interpretation with these values.
    pub(crate) fn finish(self, alloc: Global) -> Result<Interp, AllocError>
        ensures { IfOk result (λ m. (d : ℕ) → set_for m d ≡ set_for self d) }
    {
        let mut interp = Interp::new(alloc);
        let mut values = self.values;
        while let Some(last) = values.pop() {
            let declaration = values.len() as DeclId;
            if let Some(value) = last {
                interp.set(declaration, value)?;
            }
        }
        Ok(interp)
    }
}
