//! What is set for declarations.

ghost use Rattle.std.specs.Prelude.{◌≡◌, ℕ, Option};
ghost use Rattle.std.specs.Option.{option_copied};
ghost use Rattle.smt_values.specs.declared.value.Value.{Value as Held};

use smt_terms::sort::DeclId;
use smt_values::{Interp, Value};
use std::alloc::Global;
use std::collections::BTreeMap;

/// What tells the values that are set for declarations.
pub trait SetValues {
    ghost set_for: { Self → ℕ → Option Held };

    /// The value that is set for a declaration; takes no memory.
    fn value_for(&self, declaration: DeclId) -> Option<&Value>
        ensures { option_copied result ≡ set_for self.now declaration };
}

/// A table of all declarations.
impl SetValues for Interp {
    ghost use Rattle.smt_values.specs.Held as held;

    ghost set_for = { held.set_for };

    fn value_for(&self, declaration: DeclId) -> Option<&Value> {
        self.value(declaration)
    }
}

/// A map with those that have a value alone.
impl SetValues for BTreeMap<DeclId, Value, Global> {
    ghost use Rattle.std.specs.Ordering.{nat_cmp};
    ghost use Rattle.std.specs.BTreeMap.{get};

    ghost set_for = { get nat_cmp };

    fn value_for(&self, declaration: DeclId) -> Option<&Value> {
        self.get(&declaration)
    }
}
