//! The search of a check's cubes by one worker or by several, which share what they learn (M. Heule, O. Kullmann, S. Wieringa
//! and A. Biere, "Cube and Conquer: Guiding CDCL SAT Solvers by Lookaheads", 2011).

ghost use Rattle.std.specs.Prelude.{◌≡◌, ◌<◌, ◌≤◌, ◌+◌, ◌^◌, ℕ, suc, List, Some, length, slice_get, IfOk, IfErr, OnOk, slice_index_or};
ghost use Rattle.cnf_base.specs.Literals.{Literal};
ghost use Rattle.smt_terms.specs.Terms.{IsTermList};
ghost use Rattle.proof_log.specs.Boards.{Grows};
ghost use Rattle.proof_log.specs.Stored.{LogValue, Stands};
ghost use Rattle.cube_tree.specs.Cubes.{cube_of};
ghost use Rattle.hub_core.specs.Hubs.{HubValue, IsOpening};
ghost use Rattle.cube_workers.specs.declared.kept.KeptSearch.{KeptSearch as Kept};
ghost use Rattle.cube_workers.specs.Searched.{IsProblem, IsFound};
ghost use Rattle.cube_workers.specs.Workers.{problem_over, problem_in, IsOpenFor};
ghost use Rattle.cube_workers.specs.Crews.{Left, AreAtRest, values_in};
ghost use Rattle.cube_workers.specs.Closed.{IsClosedHub, IsSumOf};

use crate::alone::search_alone;
use crate::check::Check;
use crate::crew::search_together;
use crate::gate::Gate;
use crate::kept::KeptSearch;
use crate::outcome::{Found, Lost, Outcome};
use crate::putting::{positions_in, put_history};
use crate::sum::Sum;
use crate::tried::Tried;
use cnf_base::{Clause, Lit};
use cube_tree::Tree;
use hub_board::ChainHub;
use hub_core::{Event, HubLaw};
use proof_log::Log;
use shared_history::{Hist, Pieces};
use smt_terms::terms::Terms;
use std::alloc::{AllocError, Global};
use std::sync::Wait;
use std::thread::Threads;

// Makes the searches as many as there are workers: those past them are dropped, and new ones keep nothing yet.
fn fill(alloc: Global, searches: &mut Vec<KeptSearch>, workers: usize) -> Result<(), AllocError>
    ensures resting { (log : LogValue) → AreAtRest log searches.old.items
        → AreAtRest log searches.new.items }
    ensures count { OnOk result (length searches.new.items ≡ workers) }
{
    searches.truncate(workers);
    'searches: for _ in searches.len()..workers {
        searches.push(KeptSearch::new(alloc)?)?;
    }
    Ok(())
}

// One worker searches the cubes, over the log alone and without a thread.
fn solve_alone(
    alloc: Global,
    terms: &Terms,
    log: Log,
    mut searches: Vec<KeptSearch>,
    check: &Check<'_>,
) -> Result<Found, Lost>
    requires listed { IsTermList terms.now.nodes }
    requires stands { Stands terms.now.nodes log }
    requires one { length searches.items ≡ 1 }
    requires resting { AreAtRest log searches.items }
    requires problem { IsProblem (problem_over terms.now.nodes log.entries check.now) log.entries }
    ensures stands { IfOk result (λ r. Stands terms.now.nodes r.log) }
    ensures grows { IfOk result (λ r. Grows log.entries r.log.entries) }
    ensures resting { IfOk result (λ r. AreAtRest r.log r.searches.items) }
    ensures count { IfOk result (λ r. length r.searches.items ≡ length searches.items) }
    ensures by { IfOk result (λ r. r.by < length r.searches.items) }
    ensures found { IfOk result
        (λ r. IsFound (problem_over terms.now.nodes log.entries check.now) r.log.entries
        (values_in r.searches.items r.by) r.outcome) }
    ensures lost { IfErr result (λ lost. Stands terms.now.nodes lost.log
        × Grows log.entries lost.log.entries × AreAtRest lost.log lost.searches.items) }
{
    let Some(mut kept) = searches.pop() else {
        unreachable!()
    };
    match search_alone(alloc, log, terms, &mut kept, check) {
        Ok((log, outcome)) => {
            // There is room where the search was.
            if searches.push(kept).is_err() {
                drop(outcome);
                return Err(Lost { log, searches });
            }
            Ok(Found {
                log,
                searches,
                outcome,
                by: 0,
            })
        }
        Err(log) => {
            // What the search keeps is perhaps not in the log.
            drop(kept);
            Err(Lost { log, searches })
        }
    }
}

// The literals of each cube.
fn cubes_of(alloc: Global, tree: &Tree) -> Result<Vec<Clause>, AllocError>
    ensures count { IfOk result (λ v. length v.items ≡ 2 ^ length tree.now) }
    ensures few { 2 ^ length tree.now ≤ 1024 }
    ensures each { IfOk result (λ v. (n : ℕ) (d : List Literal) → n < length v.items
        → slice_index_or v.items n d ≡ cube_of tree.now n) }
{
    let mut cubes = Vec::new(alloc);
    'cubes: for cube in 0..tree.leaves() {
        cubes.push(Clause::from_literals(alloc, tree.cube(cube))?)?;
    }
    Ok(cubes)
}

// The hub over the log for the check. For want of memory the log comes back.
fn opened<'a>(
    alloc: Global,
    terms: &'a Terms,
    log: Log,
    check: &Check<'_>,
) -> Result<ChainHub<'a>, Log>
    requires listed { IsTermList terms.now.nodes }
    requires stands { Stands terms.now.nodes log }
    requires problem { IsProblem (problem_over terms.now.nodes log.entries check.now) log.entries }
    ensures nodes { IfOk result (λ h. h.nodes ≡ terms.now.nodes) }
    ensures log { IfOk result (λ h. h.log ≡ log) }
    ensures opening { IfOk result (λ h. IsOpening h) }
    ensures open_for { IfOk result (λ h. IsOpenFor h check.now) }
    ensures back { IfErr result (λ back. back ≡ log) }
{
    let Ok(cubes) = cubes_of(alloc, check.tree) else {
        return Err(log);
    };
    let Ok(assumed) = Vec::from_slice(alloc, check.assumed) else {
        drop(cubes);
        return Err(log);
    };
    Ok(ChainHub::new(HubLaw::new(log, terms, cubes, assumed)))
}

// What workers came to that have ended, over the log with the steps of their history: a model of the lowest that found one; want of
// memory, where one had none; the lowest cube that was told as spent; else each cube is closed, and the clauses are joined.
fn conclude(
    alloc: Global,
    terms: &Terms,
    mut log: Log,
    sum: Sum,
    all: &Pieces<Event>,
    check: &Check<'_>,
) -> Result<Found, Lost>
    requires listed { IsTermList terms.now.nodes }
    requires stands { Stands terms.now.nodes log }
    requires ended { (law : HubValue) × (count : ℕ) × (xs : List Left)
        × IsClosedHub law check.now terms.now.nodes log.entries all.now
        × IsSumOf law check.now all.now sum.searches.items sum.model sum.wanting sum.spent count
        xs }
    ensures stands { IfOk result (λ r. Stands terms.now.nodes r.log) }
    ensures grows { IfOk result (λ r. Grows log.entries r.log.entries) }
    ensures resting { IfOk result (λ r. AreAtRest r.log r.searches.items) }
    ensures count { IfOk result (λ r. length r.searches.items ≡ length sum.searches.items) }
    ensures by { IfOk result (λ r. r.by < length r.searches.items) }
    ensures found { IfOk result (λ r. (law : HubValue) (count : ℕ) (xs : List Left) →
        IsClosedHub law check.now terms.now.nodes log.entries all.now →
        IsSumOf law check.now all.now sum.searches.items sum.model sum.wanting sum.spent count xs
        → IsFound (problem_in law check.now) r.log.entries (values_in r.searches.items r.by)
        r.outcome) }
    ensures lost { IfErr result (λ lost. Stands terms.now.nodes lost.log
        × Grows log.entries lost.log.entries × AreAtRest lost.log lost.searches.items) }
{
    let Sum {
        searches,
        model,
        wanting,
        spent,
    } = sum;
    if let Some(by) = model {
        drop(spent);
        return Ok(Found {
            log,
            searches,
            outcome: Outcome::Sat,
            by,
        });
    }
    if wanting {
        drop(spent);
        return Err(Lost { log, searches });
    }
    let Ok(closed) = positions_in(alloc, check.tree.leaves(), all) else {
        drop(spent);
        return Err(Lost { log, searches });
    };
    let tried = Tried { closed, spent };
    match tried.conclude(alloc, terms, &mut log, check.tree) {
        Ok(outcome) => Ok(Found {
            log,
            searches,
            outcome,
            by: 0,
        }),
        Err(_) => Err(Lost { log, searches }),
    }
}

// A worker for each search, in a thread of its own, over a hub that is opened over the log.
fn solve_together<R: Threads + Wait + Sync, G: Gate + Sync>(
    rt: &R,
    alloc: Global,
    gate: &G,
    terms: &Terms,
    log: Log,
    searches: Vec<KeptSearch>,
    check: &Check<'_>,
) -> Result<Found, Lost>
    requires listed { IsTermList terms.now.nodes }
    requires stands { Stands terms.now.nodes log }
    requires some { (0 < length searches.items) × (length searches.items ≤ 64) }
    requires resting { AreAtRest log searches.items }
    requires problem { IsProblem (problem_over terms.now.nodes log.entries check.now) log.entries }
    ensures stands { IfOk result (λ r. Stands terms.now.nodes r.log) }
    ensures grows { IfOk result (λ r. Grows log.entries r.log.entries) }
    ensures resting { IfOk result (λ r. AreAtRest r.log r.searches.items) }
    ensures count { IfOk result (λ r. length r.searches.items ≡ length searches.items) }
    ensures by { IfOk result (λ r. r.by < length r.searches.items) }
    ensures found { IfOk result
        (λ r. IsFound (problem_over terms.now.nodes log.entries check.now) r.log.entries
        (values_in r.searches.items r.by) r.outcome) }
    ensures lost { IfErr result (λ lost. Stands terms.now.nodes lost.log
        × Grows log.entries lost.log.entries × AreAtRest lost.log lost.searches.items) }
{
    let law = match opened(alloc, terms, log, check) {
        Ok(law) => law,
        Err(log) => return Err(Lost { log, searches }),
    };
    let (hist, mut first) = match Hist::start(alloc, law) {
        Ok(started) => started,
        Err(back) => {
            let log = back.kept.into_hub().into_log();
            return Err(Lost { log, searches });
        }
    };
    let together = search_together(rt, alloc, gate, &hist, &mut first, searches, check);
    let all = hist.close(rt, first);
    let mut log = hist.into_law().into_hub().into_log();
    let Ok(()) = put_history(alloc, terms, &mut log, &all) else {
        // The searches keep chains that are perhaps not in the log.
        drop(together);
        return Err(Lost {
            log,
            searches: Vec::new(alloc),
        });
    };
    match together {
        Ok(sum) => conclude(alloc, terms, log, sum, &all, check),
        Err(searches) => Err(Lost { log, searches }),
    }
}

// A worker for each search.
fn solve_by<R: Threads + Wait + Sync, G: Gate + Sync>(
    rt: &R,
    alloc: Global,
    gate: &G,
    terms: &Terms,
    log: Log,
    searches: Vec<KeptSearch>,
    check: &Check<'_>,
) -> Result<Found, Lost>
    requires listed { IsTermList terms.now.nodes }
    requires stands { Stands terms.now.nodes log }
    requires some { (0 < length searches.items) × (length searches.items ≤ 64) }
    requires resting { AreAtRest log searches.items }
    requires problem { IsProblem (problem_over terms.now.nodes log.entries check.now) log.entries }
    ensures stands { IfOk result (λ r. Stands terms.now.nodes r.log) }
    ensures grows { IfOk result (λ r. Grows log.entries r.log.entries) }
    ensures resting { IfOk result (λ r. AreAtRest r.log r.searches.items) }
    ensures count { IfOk result (λ r. length r.searches.items ≡ length searches.items) }
    ensures by { IfOk result (λ r. r.by < length r.searches.items) }
    ensures found { IfOk result
        (λ r. IsFound (problem_over terms.now.nodes log.entries check.now) r.log.entries
        (values_in r.searches.items r.by) r.outcome) }
    ensures lost { IfErr result (λ lost. Stands terms.now.nodes lost.log
        × Grows log.entries lost.log.entries × AreAtRest lost.log lost.searches.items) }
{
    if searches.len() == 1 {
        return solve_alone(alloc, terms, log, searches, check);
    }
    solve_together(rt, alloc, gate, terms, log, searches, check)
}

// Puts the others behind these searches.
fn put_behind(searches: &mut Vec<KeptSearch>, mut others: Vec<KeptSearch>) -> Result<(), AllocError>
    ensures resting { (log : LogValue) → AreAtRest log searches.old.items
        → AreAtRest log others.items → AreAtRest log searches.new.items }
    ensures front { (i : ℕ) (kept : Kept) → slice_get searches.old.items i ≡ Some kept
        → slice_get searches.new.items i ≡ Some kept }
    ensures count { OnOk result (length searches.new.items ≡ length searches.old.items
        + length others.items) }
{
    searches.reserve(others.len())?;
    'others: while let Some(kept) = others.pop() {
        searches.push_reserved(kept);
    }
    Ok(())
}

/// Searches the cubes of a check over the log, by as many workers as its settings allow, but no more than there are cubes: one by
/// one, or each cube by the worker that claims it, in threads where there are several workers. As many searches are kept as the
/// settings allow workers; those that the last check left keep what they learnt, as long as there are enough.
///
/// What is found is the first of these: a model, of the lowest worker that has one; want of memory, where a worker had none; the
/// lowest cube on which the budget was spent, where each lower one is closed; a clause of opposites of assumed literals. The log
/// gains chains alone, those of all workers, for want of memory too, which is the one error.
pub fn solve<R: Threads + Wait + Sync, G: Gate + Sync>(
    rt: &R,
    alloc: Global,
    gate: &G,
    terms: &Terms,
    log: Log,
    mut searches: Vec<KeptSearch>,
    check: &Check<'_>,
) -> Result<Found, Lost>
    requires listed { IsTermList terms.now.nodes }
    requires stands { Stands terms.now.nodes log }
    requires workers { (0 < check.now.settings.workers) × (check.now.settings.workers ≤ 64) }
    requires resting { AreAtRest log searches.items }
    requires problem { IsProblem (problem_over terms.now.nodes log.entries check.now) log.entries }
    ensures stands { IfOk result (λ r. Stands terms.now.nodes r.log) }
    ensures grows { IfOk result (λ r. Grows log.entries r.log.entries) }
    ensures resting { IfOk result (λ r. AreAtRest r.log r.searches.items) }
    ensures count { IfOk result (λ r. length r.searches.items ≡ check.now.settings.workers) }
    ensures by { IfOk result (λ r. r.by < length r.searches.items) }
    ensures found { IfOk result
        (λ r. IsFound (problem_over terms.now.nodes log.entries check.now) r.log.entries
        (values_in r.searches.items r.by) r.outcome) }
    ensures lost { IfErr result (λ lost. Stands terms.now.nodes lost.log
        × Grows log.entries lost.log.entries × AreAtRest lost.log lost.searches.items) }
{
    let count = check.settings.workers as usize;
    let Ok(()) = fill(alloc, &mut searches, count) else {
        return Err(Lost { log, searches });
    };
    let Ok(others) = searches.split_off(check.workers() as usize) else {
        return Err(Lost { log, searches });
    };
    match solve_by(rt, alloc, gate, terms, log, searches, check) {
        Ok(mut found) => match put_behind(&mut found.searches, others) {
            Ok(()) => Ok(found),
            Err(_) => {
                let Found { log, searches, .. } = found;
                Err(Lost { log, searches })
            }
        },
        Err(mut lost) => {
            // As many as there is room for.
            let _ = put_behind(&mut lost.searches, others);
            Err(lost)
        }
    }
}
