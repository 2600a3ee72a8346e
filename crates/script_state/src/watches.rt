//! Whether the terms that a check makes before all else can be made.

ghost use Rattle.std.specs.Prelude.{◌≡◌, ◌<◌, All, IfOk, length};
ghost use Rattle.scope_selectors.specs.declared.live.Live.{Live};
ghost use Rattle.script_state.specs.declared.answer.Asked.{Asked};
ghost use Rattle.script_state.specs.Plain.{HavePlain};
ghost use Rattle.script_state.specs.States.{roots_of, watches_fit};

use crate::answer::Asked;
use crate::plain::{are_marked, extend};
use array_watches::count_watches;
use scope_selectors::live::Live;
use smt_terms::fault::MakeError;
use smt_terms::node::TermId;
use smt_terms::terms::Terms;
use std::alloc::{AllocError, Global};
use term_reach::Reached;

/// The terms of these assertions, and then those of these assumptions.
pub(crate) fn roots_of(
    alloc: Global,
    live: &[Live],
    assumed: &[Asked],
) -> Result<Vec<TermId>, AllocError>
    ensures { IfOk result (λ r. r.items ≡ roots_of live.now assumed.now) }
{
    let mut found = Vec::new(alloc);
    'assertions: for assertion in live {
        found.push(assertion.term)?;
    }
    'assumptions: for assumption in assumed {
        found.push(assumption.term)?;
    }
    Ok(found)
}

/// Whether what a check of these terms makes before all else can be made. Plain terms reach no array, so that nothing is
/// made for them; else the work goes by what is reached.
fn roots_fit(
    alloc: Global,
    terms: &mut Terms,
    reached: &mut Reached,
    marks: &mut Vec<bool>,
    roots: &[TermId],
) -> Result<bool, AllocError>
    requires held { All (λ t. t < length terms.old.nodes) roots.now }
    requires marks { HavePlain terms.old.nodes marks.old.items }
    ensures fit { IfOk result (λ b. b ≡ watches_fit terms.old roots.now) }
    ensures kept { terms.new ≡ terms.old }
    ensures marks { HavePlain terms.new.nodes marks.new.items }
{
    let _count = terms.len();
    extend(marks, terms)?;
    if are_marked(marks, roots) {
        return Ok(true);
    }
    match count_watches(alloc, terms, roots, reached) {
        Ok(_) => Ok(true),
        Err(MakeError::Fault(_)) => Ok(false),
        Err(MakeError::NoMemory) => Err(AllocError),
    }
}

/// Whether what a check of these assertions and assumptions makes before all else can be made.
pub(crate) fn watches_fit(
    alloc: Global,
    terms: &mut Terms,
    reached: &mut Reached,
    marks: &mut Vec<bool>,
    live: &[Live],
    assumed: &[Asked],
) -> Result<bool, AllocError>
    requires held { All (λ t. t < length terms.old.nodes) (roots_of live.now assumed.now) }
    requires marks { HavePlain terms.old.nodes marks.old.items }
    ensures fit { IfOk result (λ b. b ≡ watches_fit terms.old (roots_of live.now assumed.now)) }
    ensures kept { terms.new ≡ terms.old }
    ensures marks { HavePlain terms.new.nodes marks.new.items }
{
    let roots = roots_of(alloc, live, assumed)?;
    roots_fit(alloc, terms, reached, marks, roots.as_slice())
}
