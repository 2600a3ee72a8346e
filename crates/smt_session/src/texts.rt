// The texts of models (SMT-LIB 2.6, section 4.2.6).

ghost use Rattle.std.specs.Prelude.{◌≡◌, ◌++◌, ◌∷◌, [], IfOk, OnOk, codes, slice_get};
ghost use Rattle.smt_values.specs.Held.{set_for};
ghost use Rattle.accepted_proof.specs.Answers.{definition_by, model_text};
ghost use Rattle.smt_session.specs.Tabled.{definitions_by};

use crate::last::Last;
use accepted_proof::push_definition;
use script_state::state::State;
use smt_build::symbols::LiveName;
use smt_text::text::Text;
use smt_values::Interp;
use std::alloc::{AllocError, Global};

/// Appends the line of a live name, where its declaration has a value.
fn push_live(
    state: &State,
    values: &Interp,
    live: &LiveName,
    out: &mut Text,
) -> Result<(), AllocError>
    ensures { OnOk result
        (out.new ≡ out.old
        ++ definition_by live.now.name (slice_get state.now.symbols.signatures live.now.declaration)
        (set_for values.now live.now.declaration)) }
{
    let Some(signature) = state.signature(live.declaration) else {
        return Ok(())
    };
    let Some(value) = values.value(live.declaration) else {
        return Ok(())
    };
    push_definition(live.name.as_slice(), signature, value, out)
}

/// Appends the lines of the live names.
fn push_definitions(state: &State, values: &Interp, out: &mut Text) -> Result<(), AllocError>
    ensures { OnOk result (out.new ≡ out.old ++ definitions_by state.now values.now) }
{
    'live: for live in state.declared() {
        push_live(state, values, live, out)?;
    }
    Ok(())
}

/// The lines of the live names, in parentheses.
fn definition_lines(alloc: Global, state: &State, values: &Interp) -> Result<Text, AllocError>
    ensures { IfOk result
        (λ t. t ≡ codes "(" ++ 10 ∷ [] ++ definitions_by state.now values.now ++ codes ")" ++ 10
        ∷ []) }
{
    let mut out = Text::from_slice(alloc, b"(\n")?;
    push_definitions(state, values, &mut out)?;
    out.push_slice(b")\n")?;
    Ok(out)
}

/// The model that the record of the last check has, where it has one.
pub(crate) fn model_text(alloc: Global, state: &State, last: &mut Last) -> Result<Text, AllocError>
    ensures text { IfOk result (λ t. t ≡ model_text state.now last.old) }
    ensures same { last.new ≡ last.old }
{
    if !last.has_model() {
        return Ok(Text::new(alloc));
    }
    let values = last.take_values(alloc)?;
    let text = definition_lines(alloc, state, &values)?;
    last.keep(values);
    Ok(text)
}
