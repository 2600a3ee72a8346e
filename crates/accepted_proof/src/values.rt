// Interpretations by the values of declarations.

ghost use Rattle.std.specs.Prelude.{◌≡◌, ℕ, IfOk};
ghost use Rattle.smt_values.specs.Held.{set_for};
ghost use Rattle.accepted_proof.specs.Models.{value_for};

use smt_terms::sort::DeclId;
use smt_values::{Interp, Value};
use std::alloc::{AllocError, Global};

/// The interpretation that the values of declarations give; a declaration without one has false or zero.
pub fn interp_of(alloc: Global, values: &[(DeclId, Value)]) -> Result<Interp, AllocError>
    ensures { IfOk result (λ m. (d : ℕ) → set_for m d ≡ value_for values.now d) }
{
    let mut interp = Interp::new(alloc);
    for done in 0..values.len() {
        let place = values.len() - 1 - done;
        let value = &values[place];
        interp.set(value.0, value.1.copy()?)?;
    }
    Ok(interp)
}
