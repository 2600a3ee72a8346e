// The values of some terms, from those of the terms that they reach alone.

ghost use Rattle.std.specs.Prelude.{◌≡◌, ◌<◌, ◌≤◌, ◌^◌, ℕ, All, Contains, IfOk, OnOk, length};
ghost use Rattle.smt_terms.specs.Terms.{AreTerms};
ghost use Rattle.smt_values.specs.Held.{interpretation_of};
ghost use Rattle.term_reach.specs.Reach.{arguments, InReachOrder, IsOnce};
ghost use Rattle.smt_eval.specs.Evaluated.{AreSuited};
ghost use Rattle.smt_eval.specs.Asked.{AreValuesOf, AreAtPlaces, AreComputed};

use crate::evaluate::evaluate;
use smt_terms::node::TermId;
use smt_terms::terms::Terms;
use smt_values::interp::Interp;
use smt_values::value::Value;
use std::alloc::{AllocError, Global};
use term_reach::{Reached, reach_by_arguments};

/// The places of terms.
fn places_of(reached: &Reached, terms: &[TermId], out: &mut Vec<TermId>) -> Result<(), AllocError>
    requires few { length reached.now ≤ 2 ^ 24 }
    requires among { All (Contains reached.now) terms.now }
    ensures { OnOk result (AreAtPlaces reached.now terms.now out.new.items) }
{
    out.clear();
    for term in terms {
        let place = reached.place_of(*term).unwrap();
        out.push(place as TermId)?;
    }
    Ok(())
}

/// The values of terms that stand behind their arguments, in order.
fn compute(
    alloc: Global,
    terms: &Terms,
    interp: &Interp,
    reached: &Reached,
) -> Result<Vec<Value>, AllocError>
    requires suited { AreSuited terms.now.nodes interp.now }
    requires held { (t : ℕ) → Contains reached.now t → t < length terms.now.nodes }
    requires few { length reached.now ≤ 2 ^ 24 }
    requires order { InReachOrder (arguments terms.now.nodes) reached.now }
    requires once { IsOnce reached.now }
    ensures { IfOk result
        (λ values. AreComputed (interpretation_of interp.now) terms.now.nodes reached.now
        values.items) }
{
    let mut values = Vec::new(alloc);
    let mut scalars = Vec::new(alloc);
    let mut args = Vec::new(alloc);
    for term in reached.terms() {
        let node = terms.node(*term);
        places_of(reached, node.args.as_slice(), &mut args)?;
        let value = evaluate(
            alloc,
            &node.op,
            args.as_slice(),
            values.as_slice(),
            interp,
            &mut scalars,
        )?;
        values.push(value)?;
    }
    Ok(values)
}

/// The values of these terms under an interpretation, in order. What they do not reach is passed over; what they reach
/// stands in `reached` then, and what it had before is forgotten.
pub fn values_with(
    alloc: Global,
    terms: &Terms,
    interp: &Interp,
    asked: &[TermId],
    reached: &mut Reached,
) -> Result<Vec<Value>, AllocError>
    requires suited { AreSuited terms.now.nodes interp.now }
    requires held { All (λ t. t < length terms.now.nodes) asked.now }
    ensures { IfOk result
        (λ values. AreValuesOf (interpretation_of interp.now) terms.now.nodes asked.now
        values.items) }
{
    reach_by_arguments(alloc, terms, asked, reached)?;
    let computed = compute(alloc, terms, interp, reached)?;
    let mut values = Vec::new(alloc);
    for term in asked {
        let place = reached.place_of(*term).unwrap();
        values.push(computed[place].copy()?)?;
    }
    Ok(values)
}

/// The same, for a caller that keeps no table of what was reached.
pub fn values_of(
    alloc: Global,
    terms: &Terms,
    interp: &Interp,
    asked: &[TermId],
) -> Result<Vec<Value>, AllocError>
    requires suited { AreSuited terms.now.nodes interp.now }
    requires held { All (λ t. t < length terms.now.nodes) asked.now }
    ensures { IfOk result
        (λ values. AreValuesOf (interpretation_of interp.now) terms.now.nodes asked.now
        values.items) }
{
    let mut reached = Reached::new(alloc);
    values_with(alloc, terms, interp, asked, &mut reached)
}
