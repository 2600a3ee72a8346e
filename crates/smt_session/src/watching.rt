// The terms that a check makes before all else.

ghost use Rattle.std.specs.Prelude.{◌≡◌, ◌<◌, ◌≤◌, ◌++◌, All, IfOk, OnOk, length};
ghost use Rattle.array_watches.specs.Needed.{watched};
ghost use Rattle.smt_session.specs.Planning.{AddsTerms};
ghost use Rattle.smt_session.specs.Sessions.{IsSession};

use crate::planned::nodes_from;
use crate::taking::take_nodes;
use crate::workspace::Workspace;
use array_watches::make_watches;
use script_state::state::State;
use smt_terms::fault::MakeError;
use smt_terms::node::{Node, TermId};
use smt_terms::terms::Terms;
use std::alloc::{AllocError, Global};
use std::mem;
use term_reach::Reached;

/// Makes the terms that watch the arrays which these terms reach. There is room for them.
fn make(
    alloc: Global,
    terms: &mut Terms,
    roots: &[TermId],
    reached: &mut Reached,
) -> Result<(), AllocError>
    requires held { All (λ t. t < length terms.old.nodes) roots.now }
    requires fits { length (watched terms.old.nodes roots.now) ≤ terms.old.limit }
    ensures made { OnOk result (terms.new.nodes ≡ watched terms.old.nodes roots.now) }
    ensures limit { OnOk result (terms.new.limit ≡ terms.old.limit) }
{
    match make_watches(alloc, terms, roots, reached) {
        Ok(()) => Ok(()),
        Err(MakeError::NoMemory) => Err(AllocError),
        Err(MakeError::Fault(_)) => unreachable!(),
    }
}

/// The terms that watch the arrays which these terms reach, but for those that are there. They are forgotten again.
fn watches_over(
    alloc: Global,
    terms: &mut Terms,
    roots: &[TermId],
    reached: &mut Reached,
) -> Result<Vec<Node>, AllocError>
    requires held { All (λ t. t < length terms.old.nodes) roots.now }
    requires fits { length (watched terms.old.nodes roots.now) ≤ terms.old.limit }
    ensures same { OnOk result (terms.new ≡ terms.old) }
    ensures made { IfOk result
        (λ made. terms.old.nodes ++ made.items ≡ watched terms.old.nodes roots.now) }
{
    let from = terms.len();
    make(alloc, terms, roots, reached)?;
    let made = nodes_from(alloc, terms, from)?;
    terms.cut(from);
    Ok(made)
}

/// The same over the terms of a state.
fn watches(
    alloc: Global,
    state: &mut State,
    roots: &[TermId],
    reached: &mut Reached,
) -> Result<Vec<Node>, AllocError>
    requires held { All (λ t. t < length state.old.terms.nodes) roots.now }
    requires fits { length (watched state.old.terms.nodes roots.now) ≤ state.old.terms.limit }
    ensures same { OnOk result (state.new ≡ state.old) }
    ensures made { IfOk result
        (λ made. state.old.terms.nodes ++ made.items ≡ watched state.old.terms.nodes roots.now) }
{
    let (mut terms, rest) = mem::replace(state, State::new(alloc)).into_parts();
    let Ok(made) = watches_over(alloc, &mut terms, roots, reached) else {
        drop((terms, rest));
        return Err(AllocError);
    };
    *state = State::from_parts(terms, rest);
    Ok(made)
}

/// Makes the terms that watch the arrays which these terms reach, each by a step of the log.
pub(crate) fn watch(
    alloc: Global,
    state: &mut State,
    workspace: &mut Workspace,
    roots: &[TermId],
) -> Result<(), AllocError>
    requires session { IsSession state.old workspace.old.log }
    requires held { All (λ t. t < length state.old.terms.nodes) roots.now }
    requires fits { length (watched state.old.terms.nodes roots.now) ≤ state.old.terms.limit }
    ensures adds { OnOk result
        (AddsTerms state.old workspace.old.log state.new workspace.new.log) }
    ensures made { OnOk result (state.new.terms.nodes ≡ watched state.old.terms.nodes roots.now) }
    ensures searches { OnOk result (workspace.new.searches ≡ workspace.old.searches) }
    ensures steps { OnOk result (workspace.new.steps ≡ workspace.old.steps) }
{
    let made = watches(alloc, state, roots, &mut workspace.reached)?;
    take_nodes(
        alloc,
        state,
        &mut workspace.log,
        made.as_slice(),
        0,
        made.len(),
    )?;
    Ok(())
}
