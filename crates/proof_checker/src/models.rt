// Models.

ghost use Rattle.std.specs.Prelude.{◌≡◌, IfOk, MatchBool, MatchOption};
ghost use Rattle.std.specs.List.{list_all};
ghost use Rattle.smt_terms.specs.Values.{is_true};
ghost use Rattle.smt_values.specs.declared.value.Value.{Value as Held};
ghost use Rattle.smt_values.specs.Held.{meaning};
ghost use Rattle.smt_build.specs.declared.symbols.LiveName.{LiveName as Name};
ghost use Rattle.accepted_proof.specs.Models.{interpretation_of, IsModel};
ghost use Rattle.accepted_proof.specs.Judged.{IsValueOf};
ghost use Rattle.proof_checker.specs.Checkers.{AreOfSignatures};

use crate::kept::KeptInterp;
use crate::written::value_of;
use proof_text::line::WrittenValue;
use script_state::state::State;
use smt_eval::values_with;
use smt_terms::sort::DeclId;
use smt_values::Value;
use std::alloc::{AllocError, Global};
use term_reach::Reached;

/// Whether a value is true.
fn is_true(value: &Value) -> bool
    ensures { result ≡ is_true (meaning value.now) }
{
    match value {
        Value::Bool(holds) => *holds,
        Value::Word(_) => false,
        Value::Array(_) => false,
        Value::Fun(_) => false,
    }
}

/// Whether each of these values is true.
fn are_true(values: &[Value]) -> bool
    ensures { result ≡ list_all (λ v. is_true (meaning v)) values.now }
{
    for value in values {
        if !is_true(value) {
            return false;
        }
    }
    true
}

/// Whether each live assertion and each assumption is true under the values. Terms that they do not reach are passed over;
/// what they reach stands in `reached` then, and what it had before is forgotten. The table of values is given back.
pub fn is_model(
    alloc: Global,
    state: &State,
    values: &[(DeclId, Value)],
    reached: &mut Reached,
    kept: KeptInterp,
) -> Result<(bool, KeptInterp), AllocError>
    requires { AreOfSignatures state.now.symbols.signatures values.now }
    ensures { IfOk result (λ r. MatchBool r.0
        (IsModel state.now (interpretation_of values.now))
        (IsModel state.now (interpretation_of values.now) → ⊥)) }
{
    let interp = kept.filled(values)?;
    let asked = state.roots(alloc)?;
    let found = values_with(alloc, state.terms(), &interp, asked.as_slice(), reached)?;
    let truths = found.as_slice();
    let holds = are_true(truths);
    let kept = KeptInterp::emptied(interp, values)?;
    Ok((holds, kept))
}

/// The value that is written for a declaration, where it is the next one.
pub fn declared_value(
    alloc: Global,
    state: &State,
    next: DeclId,
    declaration: u64,
    written: &WrittenValue,
) -> Result<Option<Value>, AllocError>
    ensures { IfOk result (λ o. MatchOption o
        ((name : Name) (v : Held) → name.declaration ≡ next
        → IsValueOf state.now name declaration written.now v → ⊥)
        (λ v. (name : Name) → name.declaration ≡ next
        → IsValueOf state.now name declaration written.now v)) }
{
    if declaration != next as u64 {
        return Ok(None);
    }
    match state.signature(next) {
        Some(signature) => value_of(alloc, signature, written),
        None => Ok(None),
    }
}
