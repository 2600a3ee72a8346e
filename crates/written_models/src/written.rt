//! The values of the live declarations, by what is set for them.

ghost use Rattle.std.specs.Prelude.{IfOk};
ghost use Rattle.script_state.specs.States.{IsState};
ghost use Rattle.proof_text.specs.Records.{AreWritten};
ghost use Rattle.proof_text.specs.declared.record.Record.TheVariants.{Sat};
ghost use Rattle.accepted_proof.specs.Models.{IsModel, IsWrittenModel};
ghost use Rattle.written_models.specs.Written.{interpretation_by, AreReadings};

use crate::set_values::SetValues;
use crate::values::value_at;
use proof_text::record::DeclaredValues;
use script_state::state::State;
use smt_terms::sort::DeclId;
use smt_values::Value;
use std::alloc::{AllocError, Global};

/// The live declarations, each with its value.
fn values<S: SetValues>(
    alloc: Global,
    state: &State,
    found: &S,
) -> Result<Vec<(DeclId, Value)>, AllocError>
    ensures state { IsState state.now }
    ensures values { IfOk result
        (λ items. AreReadings state.now.symbols.signatures (S.set_for found.now)
        state.now.symbols.live
        items.items) }
{
    let _terms = state.terms();
    let mut items = Vec::new(alloc);
    for live in state.declared() {
        let signature = state.signature(live.declaration).unwrap();
        let value = value_at(alloc, signature, found.value_for(live.declaration))?;
        items.push((live.declaration, value))?;
    }
    Ok(items)
}

/// The record of a `sat` where an interpretation is a model of the live assertions and the
/// assumptions: each live declaration with its value there, or false, zero, or the array or the
/// table of these where none is set for it.
pub fn written_model<S: SetValues>(
    alloc: Global,
    state: &State,
    found: &S,
) -> Result<DeclaredValues, AllocError>
    requires { IsModel state.now (interpretation_by (S.set_for found.now)) }
    ensures { IfOk result (λ items. AreWritten (Sat items) × IsWrittenModel state.now items) }
{
    let items = values(alloc, state, found)?;
    Ok(DeclaredValues::from_vec(items))
}
