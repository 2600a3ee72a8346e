// What the terms of a check become.

ghost use Rattle.std.specs.Prelude.{◌≡◌, ◌<◌, ◌≤◌, ◌++◌, All, Contains, IfOk, OnOk, take, length};
ghost use Rattle.proof_log.specs.Stored.{Stands};
ghost use Rattle.smt_session.specs.Planning.{IsPlanned};

use proof_log::Log;
use reached_images::{Plan, Planned, needed_terms, plan_each, plan_terms};
use script_state::state::State;
use smt_terms::node::{Node, TermId};
use smt_terms::terms::Terms;
use std::alloc::{AllocError, Global};
use std::mem;
use term_reach::Reached;

/// The terms from a number on.
pub(crate) fn nodes_from(alloc: Global, terms: &Terms, from: u32) -> Result<Vec<Node>, AllocError>
    requires { from ≤ length terms.now.nodes }
    ensures { IfOk result
        (λ made. take from terms.now.nodes ++ made.items ≡ terms.now.nodes) }
{
    let mut made = Vec::new(alloc);
    'terms: for term in from..terms.len() {
        let node = terms.node(term).copy()?;
        made.push(node)?;
    }
    Ok(made)
}

/// The terms below a number for which there are steps, in their order, and then the roots.
fn order_of(
    alloc: Global,
    steps: &[Planned],
    from: u32,
    roots: &[TermId],
) -> Result<Vec<TermId>, AllocError>
    requires held { All (λ t. t < from) roots.now }
    ensures held { IfOk result (λ order. All (λ t. t < from) order.items) }
    ensures roots { IfOk result (λ order. All (Contains order.items) roots.now) }
{
    let mut order = Vec::new(alloc);
    'steps: for step in steps {
        if step.term < from {
            order.push(step.term)?;
        }
    }
    order.extend_from_slice(roots)?;
    Ok(order)
}

/// The terms that the roots need for their bits, by a plan for all that they reach; what it made is forgotten again.
fn needed_order(
    alloc: Global,
    terms: &mut Terms,
    log: &Log,
    roots: &[TermId],
    plan: &mut Plan,
    reached: &mut Reached,
) -> Result<Vec<TermId>, AllocError>
    requires held { All (λ t. t < length terms.old.nodes) roots.now }
    requires stands { Stands terms.old.nodes log.now }
    ensures same { OnOk result (terms.new ≡ terms.old) }
    ensures held { IfOk result (λ order. All (λ t. t < length terms.old.nodes) order.items) }
    ensures roots { IfOk result (λ order. All (Contains order.items) roots.now) }
{
    let from = terms.len();
    plan_terms(alloc, terms, log.bits(), roots, plan, reached)?;
    let steps = needed_terms(alloc, terms, log.bits(), plan, roots, reached)?;
    let order = order_of(alloc, steps.as_slice(), from, roots)?;
    terms.cut(from);
    Ok(order)
}

/// Plans bits for all that the roots need, and for nothing else. So each term that the plan makes is one of those to which its uses
/// lead, or an argument of one. These terms are forgotten again, and given.
fn plan_over(
    alloc: Global,
    terms: &mut Terms,
    log: &Log,
    roots: &[TermId],
    plan: &mut Plan,
    reached: &mut Reached,
) -> Result<Vec<Node>, AllocError>
    requires held { All (λ t. t < length terms.old.nodes) roots.now }
    requires stands { Stands terms.old.nodes log.now }
    ensures same { OnOk result (terms.new ≡ terms.old) }
    ensures planned { IfOk result
        (λ made. IsPlanned terms.old log.now made.items roots.now plan.new) }
{
    let order = needed_order(alloc, terms, log, roots, plan, reached)?;
    let from = terms.len();
    plan_each(alloc, terms, log.bits(), order.as_slice(), plan, reached)?;
    let made = nodes_from(alloc, terms, from)?;
    terms.cut(from);
    Ok(made)
}

/// The same over the terms of a state.
pub(crate) fn plan_check(
    alloc: Global,
    state: &mut State,
    log: &Log,
    roots: &[TermId],
    plan: &mut Plan,
    reached: &mut Reached,
) -> Result<Vec<Node>, AllocError>
    requires held { All (λ t. t < length state.old.terms.nodes) roots.now }
    requires stands { Stands state.old.terms.nodes log.now }
    ensures same { OnOk result (state.new ≡ state.old) }
    ensures planned { IfOk result
        (λ made. IsPlanned state.old.terms log.now made.items roots.now plan.new) }
{
    let (mut terms, rest) = mem::replace(state, State::new(alloc)).into_parts();
    let Ok(made) = plan_over(alloc, &mut terms, log, roots, plan, reached) else {
        drop((terms, rest));
        return Err(AllocError);
    };
    *state = State::from_parts(terms, rest);
    Ok(made)
}
