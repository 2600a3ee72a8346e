// The search of a check's cubes, by one worker or by several (M. Heule, O. Kullmann, S. Wieringa and A. Biere, "Cube and Conquer:
// Guiding CDCL SAT Solvers by Lookaheads", 2011).

ghost use Rattle.std.specs.Prelude.{◌≡◌, ◌<◌, ◌≤◌, IfOk, OnOk, length};
ghost use Rattle.smt_terms.specs.Terms.{IsTermList};
ghost use Rattle.proof_log.specs.Boards.{Grows};
ghost use Rattle.proof_log.specs.Stored.{Stands};
ghost use Rattle.cube_workers.specs.Crews.{AreAtRest, values_in};
ghost use Rattle.cube_workers.specs.Searched.{IsProblem, IsFound};
ghost use Rattle.cube_workers.specs.Workers.{problem_over};
ghost use Rattle.proof_log.specs.LemmaBoards.{Adds};
ghost use Rattle.theory_search.specs.Theories.{AreEnough, IsWalkableLog};
ghost use Rattle.theory_cubes.specs.Searched as theory;

use crate::workspace::Workspace;
use cube_workers::{Check, Found, Gate, Lost, Outcome, solve};
use proof_log::Log;
use smt_terms::terms::Terms;
use std::alloc::{AllocError, Global};
use std::mem;
use std::sync::Wait;
use std::thread::Threads;
use theory_cubes::{Outcome as Interpreted, TheoryCheck};

/// Searches the cubes of a check over the log, with the searches that the last check left, and gives what was found and the place
/// of the search whose values a model is. The log gains chains alone, for want of memory too, which is the one error.
pub(crate) fn search_cubes<R: Threads + Wait + Sync, G: Gate + Sync>(
    rt: &R,
    alloc: Global,
    terms: &Terms,
    workspace: &mut Workspace,
    check: &Check<'_>,
    gate: &G,
) -> Result<(Outcome, usize), AllocError>
    requires listed { IsTermList terms.now.nodes }
    requires stands { Stands terms.now.nodes workspace.old.log }
    requires workers { (0 < check.now.settings.workers) × (check.now.settings.workers ≤ 64) }
    requires resting { AreAtRest workspace.old.log workspace.old.searches.items }
    requires problem { IsProblem
        (problem_over terms.now.nodes workspace.old.log.entries check.now)
        workspace.old.log.entries }
    ensures stands { Stands terms.now.nodes workspace.new.log }
    ensures grows { Grows workspace.old.log.entries workspace.new.log.entries }
    ensures steps { workspace.new.steps ≡ workspace.old.steps }
    ensures resting { AreAtRest workspace.new.log workspace.new.searches.items }
    ensures by { IfOk result (λ r. r.1 < length workspace.new.searches.items) }
    ensures found { IfOk result
        (λ r. IsFound (problem_over terms.now.nodes workspace.old.log.entries check.now)
        workspace.new.log.entries (values_in workspace.new.searches.items r.1) r.0) }
{
    let empty = Log::new(alloc)?;
    let log = mem::replace(&mut workspace.log, empty);
    let searches = mem::replace(&mut workspace.searches, Vec::new(alloc));
    match solve(rt, alloc, gate, terms, log, searches, check) {
        Ok(found) => {
            let Found {
                log,
                searches,
                outcome,
                by,
            } = found;
            workspace.log = log;
            workspace.searches = searches;
            Ok((outcome, by))
        }
        Err(lost) => {
            let Lost { log, searches } = lost;
            workspace.log = log;
            workspace.searches = searches;
            Err(AllocError)
        }
    }
}

/// Searches the cubes of a check over the log, one after the other, with lemmas on functions and arrays, and with the search at this
/// place. The log gains chains, equalities and lemmas, for want of memory too, which is the one error.
pub(crate) fn search_theories(
    alloc: Global,
    terms: &Terms,
    workspace: &mut Workspace,
    by: usize,
    check: &TheoryCheck<'_>,
) -> Result<Interpreted, AllocError>
    requires listed { IsTermList terms.now.nodes }
    requires stands { Stands terms.now.nodes workspace.old.log }
    requires resting { AreAtRest workspace.old.log workspace.old.searches.items }
    requires by { by < length workspace.old.searches.items }
    requires problem { theory.IsProblem
        (theory.problem_over terms.now.nodes workspace.old.log.entries check.now)
        workspace.old.log.entries }
    requires walkable { IsWalkableLog terms.now.nodes workspace.old.log.entries
        check.now.live.now }
    requires enough { AreEnough terms.now.nodes workspace.old.log.entries check.now.live.now
        check.now.positions.now }
    requires apart { theory.AreApart terms.now.nodes workspace.old.log.entries
        check.now.live.now check.now.positions.now }
    ensures stands { OnOk result (Stands terms.now.nodes workspace.new.log) }
    ensures adds { OnOk result (Adds workspace.old.log.entries workspace.new.log.entries) }
    ensures steps { OnOk result (workspace.new.steps ≡ workspace.old.steps) }
    ensures resting { OnOk result (AreAtRest workspace.new.log workspace.new.searches.items) }
    ensures found { IfOk result (λ f. theory.IsFound
        (theory.problem_over terms.now.nodes workspace.old.log.entries check.now)
        workspace.new.log.entries f) }
{
    let empty = Log::new(alloc)?;
    let log = mem::replace(&mut workspace.log, empty);
    let search = &mut workspace.searches[by].search;
    match theory_cubes::solve(alloc, terms, log, search, check) {
        Ok((log, found)) => {
            workspace.log = log;
            Ok(found)
        }
        Err(log) => {
            workspace.log = log;
            Err(AllocError)
        }
    }
}
