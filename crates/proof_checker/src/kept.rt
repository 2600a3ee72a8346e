// An interpretation whose table is kept from record to record.

ghost use Rattle.std.specs.Prelude.{ℕ, IfOk};
ghost use Rattle.smt_values.specs.Held.{set_for};
ghost use Rattle.accepted_proof.specs.Models.{value_for};
ghost use Rattle.proof_checker.specs.Blanks.{MeansSame};

use smt_terms::sort::DeclId;
use smt_values::{Interp, Value};
use std::alloc::{AllocError, Global};
use std::marker::Model;

/// A table of values of declarations. Between two records each declaration has none there, or false: so a record costs the
/// declarations that it gives values, however many were ever made.
#[derive(Drop)]
pub struct KeptInterp {
    interp: Interp,
}

impl Model for KeptInterp {
    ghost use Rattle.std.specs.Prelude.{ℕ};
    ghost use Rattle.smt_values.specs.Held.{set_for};
    ghost use Rattle.proof_checker.specs.Blanks.{IsBlank};

    ghost Value = { Unit {0} };

    ghost view = { λ _. tt };

    ghost invariant = { λ k. (d : ℕ) → IsBlank (set_for k.interp d) };
}

impl KeptInterp {
    /// No declaration has a value; takes no memory.
    pub fn new(alloc: Global) -> KeptInterp {
        KeptInterp {
            interp: Interp::new(alloc),
        }
    }

    /// The interpretation that these values give.
    pub fn filled(self, values: &[(DeclId, Value)]) -> Result<Interp, AllocError>
        ensures { IfOk result (λ m. (d : ℕ) → MeansSame (set_for m d) (value_for values.now d)) }
    {
        let mut interp = self.interp;
        for done in 0..values.len() {
            let place = values.len() - 1 - done;
            let value = &values[place];
            interp.set(value.0, value.1.copy()?)?;
        }
        Ok(interp)
    }

    /// The table again, without these values.
    pub fn emptied(interp: Interp, values: &[(DeclId, Value)]) -> Result<KeptInterp, AllocError>
        requires { (d : ℕ) → MeansSame (set_for interp d) (value_for values.now d) }
    {
        let mut interp = interp;
        for value in values {
            interp.set(value.0, Value::Bool(false))?;
        }
        Ok(KeptInterp { interp })
    }
}
