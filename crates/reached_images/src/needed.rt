// The steps of a plan that some terms need.

ghost use Rattle.std.specs.Prelude.{◌≡◌, ◌<◌, All, IfOk, OnOk, length, slice_get};
ghost use Rattle.std.specs.List.{filter_map};
ghost use Rattle.term_reach.specs.Reach.{IsReach};
ghost use Rattle.reached_images.specs.Plans.{planned_in, ImagesHaveBits, IsKnown, IsPlan};
ghost use Rattle.reached_images.specs.Plans.{IsWholePlan};
ghost use Rattle.reached_images.specs.Needed.{is_inner, is_used, looked_through, needs, use_needs};

use crate::plan::{Plan, Planned};
use bv_rewrite::simplifying::Use;
use bv_rules::rule::Rule;
use smt_terms::bits::Bits;
use smt_terms::node::TermId;
use smt_terms::terms::Terms;
use std::alloc::{AllocError, Global};
use term_reach::{Next, Reached, reach};

/// To which terms the step of a term leads, which it needs: its arguments, or the term to which a
/// rule leads from it. The rule on arguments looks through the images of those that have one, and
/// so it leads to these too. A term that has bits, or no step, leads to none.
#[derive(Clone, Copy)]
pub struct Needed<'a> {
    bits: &'a Bits,
    plan: &'a Plan,
}

/// Whether a rule is that on arguments.
fn is_inner(rule: Rule) -> bool
    ensures { result ≡ is_inner rule }
{
    match rule {
        Rule::Inner => true,
        _ => false,
    }
}

impl<'a> Needed<'a> {
    /// By the steps of this plan for terms without bits; takes no memory.
    pub fn new(bits: &'a Bits, plan: &'a Plan) -> Needed<'a>
        ensures bits { result.bits.now ≡ bits.now }
        ensures plan { result.plan.now ≡ plan.now }
    {
        Needed { bits, plan }
    }

    /// Whether a term has an image by the plan.
    fn is_used(&self, term: TermId) -> bool
        ensures { result ≡ is_used self.now.plan.now term }
    {
        match self.plan.planned(term) {
            Some(step) => step.used.is_some(),
            None => false,
        }
    }

    /// The argument, where it has an image; the term to which a use leads, where it has none.
    fn looked_through(&self, to: TermId, argument: TermId) -> TermId
        ensures { result ≡ looked_through self.now.plan.now to argument }
    {
        if self.is_used(argument) { argument } else { to }
    }

    /// The one at this place of the terms that a use needs, which leads from a term with these
    /// arguments.
    fn used(&self, args: &[TermId], used: Use, place: usize) -> Option<TermId>
        ensures { result ≡ slice_get (use_needs self.now.plan.now args.now used) place }
    {
        if place == 0 {
            return Some(used.to);
        }
        if !is_inner(used.rule) {
            return None;
        }
        match args.get(place - 1) {
            Some(argument) => Some(self.looked_through(used.to, *argument)),
            None => None,
        }
    }
}

impl<'a> Next for Needed<'a> {
    ghost use Rattle.reached_images.specs.Needed.{needs};

    ghost next_of = { λ n nodes. needs nodes n.bits.now n.plan.now };

    fn next(
        &self,
        terms: &Terms,
        term: TermId,
        place: usize,
    ) -> Result<Option<TermId>, AllocError> {
        let args = terms.node(term).args.as_slice();
        if self.bits.of(term).is_some() {
            return Ok(None);
        }
        let Some(step) = self.plan.planned(term) else {
            return Ok(None);
        };
        Ok(match step.used {
            Some(used) => self.used(args, used, place),
            None => args.get(place).copied(),
        })
    }
}

/// The steps that a plan has for some terms, in their order.
fn steps_of(alloc: Global, plan: &Plan, terms: &[TermId]) -> Result<Vec<Planned>, AllocError>
    ensures { IfOk result (λ steps. steps.items ≡ filter_map (planned_in plan.now) terms.now) }
{
    terms.iter().filter_map(|t| plan.planned(*t)).collect(alloc)
}

/// The steps of a plan that some terms need, which are known, in an order in which a log may take
/// them: those of all that the terms reach by `Needed`, and no others. What `reached` had is
/// forgotten; it has then all that the terms reach.
pub fn needed_terms(
    alloc: Global,
    terms: &Terms,
    bits: &Bits,
    plan: &Plan,
    roots: &[TermId],
    reached: &mut Reached,
) -> Result<Vec<Planned>, AllocError>
    requires plan { IsWholePlan terms.now.nodes bits.now plan.now }
    requires images { ImagesHaveBits bits.now }
    requires held { All (λ t. t < length terms.now.nodes) roots.now }
    requires known { All (IsKnown bits.now plan.now) roots.now }
    ensures plan { IfOk result (λ steps. IsPlan terms.now.nodes bits.now steps.items) }
    ensures roots { IfOk result (λ steps. All (IsKnown bits.now steps.items) roots.now) }
    ensures steps { IfOk result
        (λ steps. steps.items ≡ filter_map (planned_in plan.now) reached.new) }
    ensures reach { OnOk result
        (IsReach (needs terms.now.nodes bits.now plan.now) roots.now reached.new) }
    ensures known { IfOk result (λ steps. All (IsKnown bits.now steps.items) reached.new) }
{
    // The contract of `len` says that arguments come before their term.
    let _count = terms.len();
    reach(alloc, terms, &Needed::new(bits, plan), roots, reached)?;
    let steps = steps_of(alloc, plan, reached.terms())?;
    Ok(steps)
}
