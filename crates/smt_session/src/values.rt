// The values of terms in a model (SMT-LIB 2.6, section 4.2.6).

ghost use Rattle.std.specs.Prelude.{◌≡◌, ◌<◌, ◌++◌, All, IfOk, codes, false, length, map};
ghost use Rattle.smt_values.specs.Held.{interpretation_of, meaning};
ghost use Rattle.smt_eval.specs.Evaluated.{AreSuited, is_table};
ghost use Rattle.script_state.specs.declared.answer.Asked.{Asked as AskedValue};
ghost use Rattle.accepted_proof.specs.Answers.{asked_text, meaning_text, values_text};
ghost use Rattle.smt_session.specs.Tabled.{IsSortedRecord};

use crate::last::Last;
use crate::lists::list_text;
use accepted_proof::push_meaning;
use script_state::answer::Asked;
use script_state::state::State;
use smt_eval::values_with;
use smt_terms::node::TermId;
use smt_terms::terms::Terms;
use smt_text::text::Text;
use smt_values::{Interp, Value};
use std::alloc::{AllocError, Global};
use term_reach::Reached;

/// The numbers of terms that are asked for.
fn terms_of(alloc: Global, asked: &[Asked]) -> Result<Vec<TermId>, AllocError>
    ensures { IfOk result (λ terms. terms.items ≡ map (λ (a : AskedValue). a.term) asked.now) }
{
    let mut terms = Vec::new(alloc);
    for one in asked {
        terms.push(one.term)?;
    }
    Ok(terms)
}

/// A term as it was written, and its value.
fn value_item(alloc: Global, asked: &Asked, value: &Value) -> Result<Text, AllocError>
    requires { is_table value.now ≡ false }
    ensures { IfOk result
        (λ t. t ≡ codes "(" ++ asked.now.text ++ codes " " ++ meaning_text (meaning value.now)
        ++ codes ")") }
{
    let mut out = Text::from_slice(alloc, b"(")?;
    out.push_slice(asked.text.as_slice())?;
    out.push_slice(b" ")?;
    push_meaning(value, &mut out)?;
    out.push_slice(b")")?;
    Ok(out)
}

/// Each term with its value under the values of the declarations. Only what the terms reach is evaluated.
fn value_items(
    alloc: Global,
    terms: &Terms,
    values: &Interp,
    asked: &[Asked],
    reached: &mut Reached,
) -> Result<Vec<Text>, AllocError>
    requires held { All (λ (a : AskedValue). a.term < length terms.now.nodes) asked.now }
    requires suited { AreSuited terms.now.nodes values.now }
    ensures { IfOk result
        (λ items. items.items
        ≡ map (asked_text terms.now.nodes (interpretation_of values.now)) asked.now) }
{
    let numbers = terms_of(alloc, asked)?;
    let found = values_with(alloc, terms, values, numbers.as_slice(), reached)?;
    let mut items = Vec::new(alloc);
    for at in 0..asked.len() {
        let item = value_item(alloc, &asked[at], &found[at])?;
        items.push(item)?;
    }
    Ok(items)
}

/// The values of terms in the model that the record of the last check has, where it has one.
pub(crate) fn values_text(
    alloc: Global,
    state: &State,
    last: &mut Last,
    asked: &[Asked],
    reached: &mut Reached,
) -> Result<Text, AllocError>
    requires held { All (λ (a : AskedValue). a.term < length state.now.terms.nodes) asked.now }
    requires sorted { IsSortedRecord state.now.symbols.signatures last.old }
    ensures text { IfOk result (λ t. t ≡ values_text state.now.terms.nodes asked.now last.old) }
    ensures same { last.new ≡ last.old }
{
    if !last.has_model() {
        return Ok(Text::new(alloc));
    }
    let values = last.take_values(alloc)?;
    let items = value_items(alloc, state.terms(), &values, asked, reached)?;
    last.keep(values);
    list_text(alloc, items.as_slice())
}
