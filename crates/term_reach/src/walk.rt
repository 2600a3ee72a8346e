// The walk from some terms to all that they reach.

ghost use Rattle.std.specs.Prelude.{◌≡◌, ◌<◌, ◌≤◌, ◌++◌, ◌∷◌, [], ℕ, All, Contains, IfOk, OnOk, MatchOption, Some, length, slice_get};
ghost use Rattle.smt_terms.specs.Terms.{AreTerms};
ghost use Rattle.term_reach.specs.Reach.{arguments, IsAcyclic, IsReach, LeadsBelow};
ghost use Rattle.term_reach.specs.Walks.{IsPart, IsWalking, IsSeen, left, AreDone, IsOpen};

use crate::next::{Arguments, Next};
use crate::reached::Reached;
use smt_terms::node::TermId;
use smt_terms::terms::Terms;
use std::alloc::{AllocError, Global};

/// A term on the way from a root, and the place of the next one to which it leads.
#[derive(Clone, Copy, Debug)]
pub(crate) struct Frame {
    pub(crate) term: TermId,
    pub(crate) place: usize,
}

/// The first of the terms to which a term leads, from a place on, that is not reached yet, with its place.
fn first_open<N: Next>(
    terms: &Terms,
    next: &N,
    frame: Frame,
    reached: &Reached,
) -> Result<Option<Frame>, AllocError>
    requires held { frame.term < length terms.now.nodes }
    requires done { AreDone (N.next_of next.now terms.now.nodes) reached.now frame.term
        frame.place }
    ensures { IfOk result
        (λ o. IsOpen (N.next_of next.now terms.now.nodes) reached.now frame.term o) }
{
    let mut place = frame.place;
    'places: while let Some(term) = next.next(terms, frame.term, place)? {
        if !reached.has(term) {
            return Ok(Some(Frame { term, place }));
        }
        place += 1;
    }
    Ok(None)
}

/// Goes on from the last term on the way: to the first term that is not reached yet, or back, where all are.
fn step<N: Next>(
    terms: &Terms,
    next: &N,
    roots: &[TermId],
    frame: Frame,
    path: &mut Vec<Frame>,
    reached: &mut Reached,
) -> Result<(), AllocError>
    requires acyclic { IsAcyclic (N.next_of next.now terms.now.nodes) }
    requires within { LeadsBelow (length terms.now.nodes) (N.next_of next.now terms.now.nodes) }
    requires walking { IsWalking (length terms.now.nodes) (N.next_of next.now terms.now.nodes)
        roots.now (path.old.items ++ frame ∷ []) reached.old }
    ensures walking { OnOk result
        (IsWalking (length terms.now.nodes) (N.next_of next.now terms.now.nodes) roots.now
        path.new.items reached.new) }
    ensures seen { OnOk result ((t : ℕ) → IsSeen (path.old.items ++ frame ∷ []) reached.old t
        → IsSeen path.new.items reached.new t) }
    ensures less { OnOk result (left (length terms.now.nodes) path.new.items reached.new
        < left (length terms.now.nodes) (path.old.items ++ frame ∷ []) reached.old) }
{
    let _roots = roots;
    match first_open(terms, next, frame, reached)? {
        Some(open) => {
            path.push(Frame {
                term: frame.term,
                place: open.place,
            })?;
            path.push(Frame {
                term: open.term,
                place: 0,
            })?;
        }
        None => reached.add(frame.term)?,
    }
    Ok(())
}

/// Reaches what a root reaches.
fn descend<N: Next>(
    terms: &Terms,
    next: &N,
    roots: &[TermId],
    root: TermId,
    path: &mut Vec<Frame>,
    reached: &mut Reached,
) -> Result<(), AllocError>
    requires acyclic { IsAcyclic (N.next_of next.now terms.now.nodes) }
    requires within { LeadsBelow (length terms.now.nodes) (N.next_of next.now terms.now.nodes) }
    requires held { root < length terms.now.nodes }
    requires root { Contains roots.now root }
    requires path { path.old.items ≡ [] }
    requires part { IsPart (length terms.now.nodes) (N.next_of next.now terms.now.nodes) roots.now
        reached.old }
    ensures path { OnOk result (path.new.items ≡ []) }
    ensures part { OnOk result
        (IsPart (length terms.now.nodes) (N.next_of next.now terms.now.nodes) roots.now
        reached.new) }
    ensures root { OnOk result (Contains reached.new root) }
    ensures kept { OnOk result ((t : ℕ) → Contains reached.old t → Contains reached.new t) }
{
    if reached.has(root) {
        return Ok(());
    }
    path.push(Frame {
        term: root,
        place: 0,
    })?;
    'way: while let Some(frame) = path.pop() {
        step(terms, next, roots, frame, path, reached)?;
    }
    Ok(())
}

/// The terms that some terms reach, and no others: each once, behind all to which it leads. What `reached` had is forgotten.
pub fn reach<N: Next>(
    alloc: Global,
    terms: &Terms,
    next: &N,
    roots: &[TermId],
    reached: &mut Reached,
) -> Result<(), AllocError>
    requires acyclic { IsAcyclic (N.next_of next.now terms.now.nodes) }
    requires within { LeadsBelow (length terms.now.nodes) (N.next_of next.now terms.now.nodes) }
    requires held { All (λ t. t < length terms.now.nodes) roots.now }
    ensures { OnOk result (IsReach (N.next_of next.now terms.now.nodes) roots.now reached.new) }
{
    reached.clear();
    let mut path = Vec::new(alloc);
    'roots: for root in roots {
        descend(terms, next, roots, *root, &mut path, reached)?;
    }
    Ok(())
}

/// The terms that some terms reach through arguments, and no others: each once, behind its arguments. What `reached` had is
/// forgotten.
pub fn reach_by_arguments(
    alloc: Global,
    terms: &Terms,
    roots: &[TermId],
    reached: &mut Reached,
) -> Result<(), AllocError>
    requires held { All (λ t. t < length terms.now.nodes) roots.now }
    ensures reach { OnOk result (IsReach (arguments terms.now.nodes) roots.now reached.new) }
    ensures held { OnOk result ((t : ℕ) → Contains reached.new t → t < length terms.now.nodes) }
    ensures few { OnOk result (length reached.new ≤ length terms.now.nodes) }
    ensures terms { AreTerms terms.now }
{
    // The contract of `len` says that arguments come before their term.
    let _count = terms.len();
    reach(alloc, terms, &Arguments, roots, reached)?;
    Ok(())
}
