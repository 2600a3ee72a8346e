// The steps that make a log of a plan.

ghost use Rattle.std.specs.Prelude.{◌≡◌, ◌<◌, ◌≤◌, ◌+◌, ◌∷◌, ◌++◌, [], ℕ, List, All, MatchBool, OnOk, Ok, None, false, true, is_some, take, length};
ghost use Rattle.smt_terms.specs.declared.node.Node.{Node as NodeValue};
ghost use Rattle.smt_terms.specs.Nodes.{node_at};
ghost use Rattle.smt_terms.specs.Bits.{TermBits, bits_in, image_in};
ghost use Rattle.smt_terms.specs.Ranks.{is_plain};
ghost use Rattle.smt_terms.specs.Terms.{TermsValue, Agrees, sort_of};
ghost use Rattle.smt_build.specs.Names.{IsDeclared};
ghost use Rattle.proof_log.specs.declared.entry.Entry.TheVariants as step;
ghost use Rattle.proof_log.specs.Faults.{Answers};
ghost use Rattle.proof_log.specs.Logs.{leaf_width};
ghost use Rattle.proof_log.specs.Stored.{Stands};
ghost use Rattle.reached_images.specs.declared.plan.Planned.{Planned as PlannedValue};
ghost use Rattle.reached_images.specs.Plans.{IsPlan};
ghost use Rattle.reached_images.specs.Settled.{AreOwn, KeepsItself};
ghost use Rattle.session_terms.specs.Placed.{IsInOrder};
ghost use Rattle.smt_session.specs.Growing.{HasBits};
ghost use Rattle.smt_session.specs.Sessions.{IsSession};
ghost use Rattle.smt_session.specs.Planning.{grown_by, AddsTerms, AreTakenOver, IsForPlanned};
ghost use Rattle.smt_session.specs.Planning.{Encodes};
ghost use Rattle.smt_session.specs.Thorough.{IsSeenAs};

use crate::planned::plan_check;
use crate::workspace::Workspace;
use proof_log::Log;
use proof_log::entry::{Entry, RuleUse};
use reached_images::Planned;
use script_state::state::State;
use smt_terms::node::{Node, Op, TermId};
use smt_terms::terms::Terms;
use std::alloc::{AllocError, Global};
use std::mem;
use theory_terms::shape::{Shape, shape_at};

/// Whether a step may make a term of the operator: it applies a function as the script declares it, or names nothing of the script.
/// A plan makes no declared constant and no parameter.
fn is_of_script(state: &State, op: &Op) -> bool
    ensures { result ≡ true → IsDeclared state.now.symbols.signatures op.now }
{
    match op {
        Op::Constant { .. } => false,
        Op::Param { .. } => false,
        Op::Apply {
            declaration,
            signature,
        } => match state.signature(*declaration) {
            Some(own) => own == signature,
            None => false,
        },
        _ => true,
    }
}

/// Makes a term by a step of the log. A plan makes none that a log refuses; a refusal would be an error like want of memory.
fn push_node(alloc: Global, terms: &mut Terms, log: &mut Log, node: Node) -> Result<(), AllocError>
    requires stands { Stands terms.old.nodes log.old }
    requires agrees { Agrees terms.old.nodes node.op }
    ensures { OnOk result ((at : ℕ)
        × Answers terms.old terms.new (step.Node node) log.old log.new (Ok at)) }
{
    match log.try_push(alloc, terms, Entry::Node(node)) {
        Ok(_) => Ok(()),
        Err(_) => Err(AllocError),
    }
}

/// The same over the terms of a state.
fn take_node(alloc: Global, state: &mut State, log: &mut Log, node: Node) -> Result<(), AllocError>
    requires session { IsSession state.old log.old }
    ensures adds { OnOk result (AddsTerms state.old log.old state.new log.new) }
    ensures made { OnOk result (state.new.terms.nodes ≡ state.old.terms.nodes ++ node ∷ []) }
{
    if !is_of_script(state, &node.op) {
        drop(node);
        return Err(AllocError);
    }
    let (mut terms, rest) = mem::replace(state, State::new(alloc)).into_parts();
    let Ok(()) = push_node(alloc, &mut terms, log, node) else {
        drop((terms, rest));
        return Err(AllocError);
    };
    *state = State::from_parts(terms, rest);
    Ok(())
}

/// Makes the terms at these places.
pub(crate) fn take_nodes(
    alloc: Global,
    state: &mut State,
    log: &mut Log,
    nodes: &[Node],
    from: usize,
    end: usize,
) -> Result<(), AllocError>
    requires session { IsSession state.old log.old }
    requires places { (from ≤ end) × (end ≤ length nodes.now) }
    ensures adds { OnOk result (AddsTerms state.old log.old state.new log.new) }
    ensures made { OnOk result ((base : List NodeValue)
        → state.old.terms.nodes ≡ base ++ take from nodes.now
        → state.new.terms.nodes ≡ base ++ take end nodes.now) }
{
    'nodes: for at in from..end {
        let node = nodes[at].copy()?;
        take_node(alloc, state, log, node)?;
    }
    Ok(())
}

/// Whether no circuit gives the bits of a term: of a declared constant, an element of an array, a witness or an application that is
/// a Bool or a word, or of an equality of arrays.
fn is_free(terms: &Terms, term: TermId) -> bool
    requires { term < length terms.now.nodes }
    ensures { result ≡ is_some (leaf_width terms.now.nodes term) }
{
    match shape_at(terms, term) {
        Shape::Declaring { sort, .. } => sort.is_plain(),
        Shape::Selecting { .. } => terms.sort(term).is_plain(),
        Shape::Witnessing { .. } => terms.sort(term).is_plain(),
        Shape::Applying { .. } => terms.sort(term).is_plain(),
        Shape::Equating { left, .. } => left < term && !terms.sort(left).is_plain(),
        _ => false,
    }
}

/// The step that gives a term its bits.
fn step_for(terms: &Terms, planned: &Planned) -> Entry
    requires { planned.now.term < length terms.now.nodes }
    ensures { IsForPlanned planned.now result }
{
    match planned.used {
        Some(used) => Entry::Rewrite(RuleUse {
            rule: used.rule.number(),
            from: planned.term,
            to: used.to,
        }),
        None => {
            if is_free(terms, planned.term) {
                Entry::Leaf(planned.term)
            } else {
                Entry::Encode(planned.term)
            }
        }
    }
}

/// Whether a step of a plan is for an array, which has no bits.
fn is_for_array(terms: &Terms, planned: &Planned) -> bool
    requires { planned.now.term < length terms.now.nodes }
    ensures { MatchBool result ((planned.now.used ≡ None)
        × (is_plain (sort_of terms.now.nodes planned.now.term) ≡ false))
        (planned.now.used ≡ None
        → is_plain (sort_of terms.now.nodes planned.now.term) ≡ true) }
{
    planned.used.is_none() && !terms.sort(planned.term).is_plain()
}

/// Adds the step that gives a term its bits, unless it is an array. No step of a plan is refused; a refusal would be an error like want of memory.
fn take_step(
    alloc: Global,
    state: &State,
    log: &mut Log,
    planned: &Planned,
) -> Result<(), AllocError>
    requires session { IsSession state.now log.old }
    requires held { planned.now.term < length state.now.terms.nodes }
    // over terms that have perhaps grown, where the term keeps its operator only if it has to
    ensures { OnOk result ((v : TermsValue) (bits : List TermBits) (before : List PlannedValue)
        (rest : List NodeValue)
        → v.nodes ≡ state.now.terms.nodes ++ rest → IsPlan v.nodes bits before
        → IsSeenAs v.nodes bits before (bits_in log.old.bits) (image_in log.old.bits)
        → (planned.now.used ≡ None → KeepsItself v bits before planned.now.term)
        → AreTakenOver v bits before state.now log.old state.now log.new (planned.now ∷ [])) }
{
    let terms = state.terms();
    if is_for_array(terms, planned) {
        return Ok(());
    }
    match log.try_put(alloc, terms, step_for(terms, planned)) {
        Ok(_) => Ok(()),
        Err(_) => Err(AllocError),
    }
}

/// How many of the terms of a plan, of which so many are made, are to be made before a step. There are terms before them.
fn end_for(planned: &Planned, before: usize, done: usize, count: usize) -> usize
    requires places { done ≤ count }
    ensures places { (done ≤ result) × (result ≤ count) }
    ensures held { planned.now.term < before + count → planned.now.term < before + result }
{
    let last = match planned.used {
        Some(used) => planned.term.max(used.to),
        None => planned.term,
    };
    let end = (last as usize + 1).saturating_sub(before);
    end.min(count).max(done)
}

/// Takes the steps of a plan in their order, and makes each of its terms before the first step that needs it.
fn take_plan(
    alloc: Global,
    state: &mut State,
    log: &mut Log,
    steps: &[Planned],
    made: &[Node],
) -> Result<(), AllocError>
    requires session { IsSession state.old log.old }
    requires held { All
        (λ (p : PlannedValue). p.term < length state.old.terms.nodes + length made.now) steps.now }
    requires plan { IsPlan (state.old.terms.nodes ++ made.now) log.old.bits steps.now }
    requires own { AreOwn (grown_by state.old.terms made.now) log.old.bits steps.now }
    ensures taken { OnOk result (AreTakenOver (grown_by state.old.terms made.now) log.old.bits []
        state.old log.old state.new log.new steps.now) }
    ensures made { OnOk result (state.new.terms.nodes ≡ state.old.terms.nodes ++ made.now) }
{
    let before = state.terms().len() as usize;
    let mut done: usize = 0;
    'steps: for planned in steps {
        let end = end_for(planned, before, done, made.len());
        take_nodes(alloc, state, log, made, done, end)?;
        done = end;
        take_step(alloc, state, log, planned)?;
    }
    take_nodes(alloc, state, log, made, done, made.len())?;
    Ok(())
}

/// Gives all Bools and words that the roots reach and that need them bits: those of what they become by the rules of rewriting.
pub(crate) fn rewrite(
    alloc: Global,
    state: &mut State,
    workspace: &mut Workspace,
    roots: &[TermId],
) -> Result<(), AllocError>
    requires session { IsSession state.old workspace.old.log }
    requires held { All (λ t. t < length state.old.terms.nodes) roots.now }
    requires plain { All (λ t. is_plain (sort_of state.old.terms.nodes t) ≡ true) roots.now }
    requires order { IsInOrder state.old.terms.nodes workspace.old.log.bits }
    ensures encodes { OnOk result
        (Encodes state.old workspace.old.log state.new workspace.new.log) }
    ensures roots { OnOk result (All (HasBits workspace.new.log) roots.now) }
    ensures order { OnOk result (IsInOrder state.new.terms.nodes workspace.new.log.bits) }
    ensures searches { OnOk result (workspace.new.searches ≡ workspace.old.searches) }
    ensures steps { OnOk result (workspace.new.steps ≡ workspace.old.steps) }
{
    let made = plan_check(
        alloc,
        state,
        &workspace.log,
        roots,
        &mut workspace.plan,
        &mut workspace.reached,
    )?;
    take_plan(
        alloc,
        state,
        &mut workspace.log,
        workspace.plan.steps(),
        made.as_slice(),
    )?;
    Ok(())
}
