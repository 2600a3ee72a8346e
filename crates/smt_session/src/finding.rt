// What a check comes to: the search of its cubes, by bits alone or with lemmas on functions and arrays (R. Brummayer and
// A. Biere, "Lemmas on Demand for the Extensional Theory of Arrays", 2009).

ghost use Rattle.std.specs.Prelude.{◌≡◌, ◌<◌, true, List, IfOk, OnOk, length};
ghost use Rattle.smt_terms.specs.declared.node.Node.{Node};
ghost use Rattle.proof_log.specs.Stored.{Stands};
ghost use Rattle.proof_log.specs.Logs.{state_of};
ghost use Rattle.cube_search.specs.Ends.{IsModel};
ghost use Rattle.cube_workers.specs.Crews.{values_in};
ghost use Rattle.accepted_proof.specs.Searching.{AreLimits, Rise, cube_variables};
ghost use Rattle.check_cubes.specs.Searches as check_cubes;
ghost use Rattle.smt_session.specs.Growing.{AreGiven};
ghost use Rattle.smt_session.specs.Parts.{IsKept};
ghost use Rattle.smt_session.specs.Searched.{IsReady};
ghost use Rattle.smt_session.specs.Sessions.{IsConcluded, AreSettings, limits_of};

use crate::reach::roots;
use crate::searching::{search_cubes, search_theories};
use crate::settings::Settings;
use crate::workspace::Workspace;
use check_cubes::{Limits, cube_variables};
use cnf_base::{Lit, Pos};
use cube_tree::Tree;
use cube_workers::{Check, Gate, Outcome, Settings as CubeSettings};
use proof_log::Log;
use proof_text::record::Record;
use script_state::state::State;
use session_walks::laws::sessions_may_walk;
use std::alloc::{AllocError, Global};
use std::sync::Wait;
use std::thread::Threads;
use term_reach::Reached;
use theory_cubes::{Outcome as Interpreted, TheoryCheck};
use word_models::{has_other_leaf, word_model};
use written_models::written_model;

/// The cubes of a check: those of the variables by which the limits split it.
fn split(
    alloc: Global,
    state: &State,
    log: &Log,
    limits: Limits,
    reached: &mut Reached,
) -> Result<Tree, AllocError>
    requires limits { AreLimits (check_cubes.limits_of limits) }
    requires stands { Stands state.now.terms.nodes log.now }
    ensures variables { IfOk result
        (λ t. t ≡ cube_variables (check_cubes.limits_of limits) state.now state.now.terms.nodes
        log.now.entries) }
    ensures rise { IfOk result (λ t. Rise 2 log.now.next t) }
{
    let variables = cube_variables(alloc, state, log, limits, reached)?;
    Tree::split(alloc, variables.as_slice(), limits.cubes)
}

/// Goes on with lemmas on functions and arrays where a search found values of the bits alone, and gives the record that shows what
/// was found then.
fn interpret(
    alloc: Global,
    state: &State,
    workspace: &mut Workspace,
    by: usize,
    asked: &Check<'_>,
    limits: Limits,
) -> Result<Record, AllocError>
    requires kept { IsKept state.now workspace.old }
    requires ready { (old : List Node)
        × IsReady old state.now workspace.old.log asked.now.positions.now }
    requires given { AreGiven state.now workspace.old.log asked.now.assumed.now }
    requires by { by < length workspace.old.searches.items }
    requires variables { asked.now.tree.now
        ≡ cube_variables (check_cubes.limits_of limits) state.now state.now.terms.nodes
        workspace.old.log.entries }
    requires rise { Rise 2 workspace.old.log.next asked.now.tree.now }
    ensures checked { IfOk result
        (λ r. IsConcluded (check_cubes.limits_of limits) state.now workspace.old.log
        workspace.new.log r) }
    ensures kept { OnOk result (IsKept state.now workspace.new) }
{
    // The law says that what a session made ready can be walked over.
    sessions_may_walk();
    let live = roots(alloc, state)?;
    let check = TheoryCheck {
        live: live.as_slice(),
        positions: asked.positions,
        tree: asked.tree,
        assumed: asked.assumed,
        budget: limits.budget,
    };
    let found = search_theories(alloc, state.terms(), workspace, by, &check)?;
    match found {
        Interpreted::Unsat(at) => Ok(Record::Unsat(at)),
        Interpreted::Sat(model) => Ok(Record::Sat(written_model(alloc, state, &model)?)),
        Interpreted::Unknown(diary) => Ok(Record::Unknown(diary)),
    }
}

/// Gives the record of a check for which a search found values of the bits: these are its model where no function and no array is
/// reached, and else the search goes on.
fn settle(
    alloc: Global,
    state: &State,
    workspace: &mut Workspace,
    by: usize,
    asked: &Check<'_>,
    limits: Limits,
) -> Result<Record, AllocError>
    requires kept { IsKept state.now workspace.old }
    requires ready { (old : List Node)
        × IsReady old state.now workspace.old.log asked.now.positions.now }
    requires given { AreGiven state.now workspace.old.log asked.now.assumed.now }
    requires by { by < length workspace.old.searches.items }
    requires variables { asked.now.tree.now
        ≡ cube_variables (check_cubes.limits_of limits) state.now state.now.terms.nodes
        workspace.old.log.entries }
    requires rise { Rise 2 workspace.old.log.next asked.now.tree.now }
    requires model { IsModel
        (state_of state.now.terms.nodes workspace.old.log.entries).clauses
        asked.now.positions.now asked.now.assumed.now (values_in workspace.old.searches.items by) }
    ensures checked { IfOk result
        (λ r. IsConcluded (check_cubes.limits_of limits) state.now workspace.old.log
        workspace.new.log r) }
    ensures kept { OnOk result (IsKept state.now workspace.new) }
{
    let search = &workspace.searches[by].search;
    match word_model(
        alloc,
        state.terms(),
        &workspace.log,
        search,
        asked.positions,
    )? {
        Some(model) => Ok(Record::Sat(written_model(alloc, state, &model)?)),
        None => interpret(alloc, state, workspace, by, asked, limits),
    }
}

// Whether a check goes to lemmas at once: one worker has its search from an earlier check, and a function or an array is reached. A
// search by bits alone would find values that the search with lemmas has to find once more.
fn may_walk(state: &State, workspace: &Workspace, steps: &[Pos], workers: u32) -> bool
    requires kept { IsKept state.now workspace.now }
    ensures { result ≡ true → 0 < length workspace.now.searches.items }
{
    workers == 1
        && !workspace.searches.is_empty()
        && has_other_leaf(state.terms(), &workspace.log, steps)
}

/// Searches the cubes of a check under the selectors of the live assertions and the bits of the assumptions, over these steps,
/// and gives the record that shows what was found.
pub(crate) fn conclude<R: Threads + Wait + Sync, G: Gate + Sync>(
    rt: &R,
    alloc: Global,
    state: &State,
    workspace: &mut Workspace,
    steps: &[Pos],
    given: &[Lit],
    settings: Settings,
    gate: &G,
) -> Result<Record, AllocError>
    requires kept { IsKept state.now workspace.old }
    requires ready { (old : List Node) × IsReady old state.now workspace.old.log steps.now }
    requires given { AreGiven state.now workspace.old.log given.now }
    requires settings { AreSettings settings }
    ensures checked { IfOk result
        (λ r. IsConcluded (limits_of settings) state.now workspace.old.log workspace.new.log r) }
    ensures kept { OnOk result (IsKept state.now workspace.new) }
{
    let limits = settings.limits();
    let tree = split(alloc, state, &workspace.log, limits, &mut workspace.reached)?;
    let asked = Check {
        positions: steps,
        tree: &tree,
        assumed: given,
        settings: CubeSettings {
            workers: settings.workers,
            budget: limits.budget,
        },
    };
    if may_walk(state, workspace, steps, settings.workers) {
        return interpret(alloc, state, workspace, 0, &asked, limits);
    }
    let (outcome, by) = search_cubes(rt, alloc, state.terms(), workspace, &asked, gate)?;
    match outcome {
        Outcome::Unsat(at) => Ok(Record::Unsat(at)),
        Outcome::Sat => settle(alloc, state, workspace, by, &asked, limits),
        Outcome::Unknown(diary) => Ok(Record::Unknown(diary)),
    }
}
