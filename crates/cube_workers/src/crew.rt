//! The workers of a check, each with a thread and a pass of its own.

ghost use Rattle.std.specs.Prelude.{◌≡◌, ◌^◌, suc, ◌<◌, [], List, length, IfOk, IfErr};
ghost use Rattle.shared_history.specs.Known.{IsPassOf};
ghost use Rattle.cube_workers.specs.Workers.{problem_in, IsOpenFor};
ghost use Rattle.cube_workers.specs.Crews.{Each, Left, AreAtRest};
ghost use Rattle.cube_workers.specs.Hired.{IsHired, HasEnded, AreGathered};

use crate::check::Check;
use crate::gate::{Gate, Point};
use crate::kept::KeptSearch;
use crate::sum::Sum;
use crate::threads::{Work, in_threads};
use crate::worker::{Reached, work_cubes};
use hub_board::{ChainHub, HubBoard};
use proof_log::diary::Diary;
use shared_history::{Hist, Pass};
use std::alloc::{AllocError, Global};
use std::sync::Wait;
use std::thread::Threads;

/// A worker: its board and its search, and after its work the lowest cube that it told as spent, and how it ended.
#[derive(Drop)]
pub(crate) struct Worker<'h, 'a, 't, R: Wait> {
    alloc: Global,
    number: u32,
    check: Check<'t>,
    board: HubBoard<'h, 'a, R>,
    kept: KeptSearch,
    spent: Option<Diary>,
    reached: Reached,
}

impl<'h, 'a, 't, R: Wait> Work for Worker<'h, 'a, 't, R> {
    ghost use Rattle.cube_workers.specs.Hired.{IsReady, HasWorked};

    ghost may_work = { λ w. IsReady w };

    ghost has_worked = { λ v w. HasWorked v w };

    // Its search goes over to the check's positions, and then it searches the cubes that it claims.
    fn worked<G: Gate>(self, gate: &G) -> Worker<'h, 'a, 't, R> {
        let Worker {
            alloc,
            number,
            check,
            board,
            mut kept,
            ..
        } = self;
        gate.pass(number, Point::Begin);
        board.facts();
        let from = board.hist().law().log().len();
        let Ok(()) = kept.go_over(alloc, &board, check.positions, from) else {
            return Worker {
                alloc,
                number,
                check,
                board,
                kept,
                spent: None,
                reached: Reached::NoMemory,
            };
        };
        let (board, spent, reached) = work_cubes(
            alloc,
            gate,
            number,
            board,
            &mut kept.search,
            &check,
        );
        gate.pass(number, Point::End);
        Worker {
            alloc,
            number,
            check,
            board,
            kept,
            spent,
            reached,
        }
    }
}

// A worker for each search, with a pass that was split off from the first one. For want of memory the searches come back.
fn hire<'h, 'a, 't, R: Wait>(
    rt: &'h R,
    alloc: Global,
    hist: &'h Hist<ChainHub<'a>>,
    first: &mut Pass<ChainHub<'a>>,
    mut searches: Vec<KeptSearch>,
    check: &Check<'t>,
) -> Result<Vec<Worker<'h, 'a, 't, R>>, Vec<KeptSearch>>
    requires first { IsPassOf hist.now first.old × (first.old.number ≡ 0) × (first.old.made ≡ 1)
        × (first.old.mine ≡ []) × (first.old.seen ≡ []) }
    requires few { length searches.items < 2 ^ 16 }
    requires resting { AreAtRest hist.now.law.log searches.items }
    ensures first { IsPassOf hist.now first.new × (first.new.number ≡ 0) × (first.new.mine ≡ []) }
    ensures made { IfOk result (λ v. first.new.made ≡ suc (length searches.items)) }
    ensures count { IfOk result (λ v. length v.items ≡ length searches.items) }
    ensures workers { IfOk result (λ v. Each (IsHired hist.now check.now) v.items) }
    ensures back { IfErr result (λ back. back ≡ searches) }
{
    let mut workers = Vec::new(alloc);
    if workers.reserve(searches.len()).is_err() {
        return Err(searches);
    }
    'searches: while let Some(kept) = searches.pop() {
        let pass = hist.pass(first);
        let number = pass.number();
        workers.push_reserved(Worker {
            alloc,
            number,
            check: *check,
            board: HubBoard::new(rt, alloc, hist, pass),
            kept,
            spent: None,
            reached: Reached::NoMemory,
        });
    }
    Ok(workers)
}

// Merges the passes into the first one, and adds up what the workers came to, from the one of the highest number on.
fn gather<'h, 'a, 't, R: Wait>(
    alloc: Global,
    hist: &'h Hist<ChainHub<'a>>,
    first: &mut Pass<ChainHub<'a>>,
    mut workers: Vec<Worker<'h, 'a, 't, R>>,
    check: &Check<'t>,
) -> Result<Sum, AllocError>
    requires first { IsPassOf hist.now first.old }
    requires workers { Each (HasEnded hist.now check.now) workers.items }
    ensures first { IsPassOf hist.now first.new × (first.new.number ≡ first.old.number)
        × (first.new.made ≡ first.old.made) × (first.new.mine ≡ first.old.mine) }
    ensures gathered { IfOk result
        (λ s. (xs : List Left)
        × AreGathered hist.now.law (problem_in hist.now.law check.now) (length workers.entry.items)
        first.new s.searches.items s.model s.wanting s.spent xs) }
{
    let mut sum = Sum::new(alloc);
    'workers: while let Some(worker) = workers.pop() {
        let Worker {
            board,
            kept,
            spent,
            reached,
            ..
        } = worker;
        board.facts();
        hist.merge(first, board.into_pass());
        sum.add(alloc, kept, spent, reached)?;
    }
    Ok(sum)
}

/// Has a worker for each search claim cubes of the hub and search them, all at the same time, and adds up what they came to.
/// Their passes are merged into the first one. For want of memory the searches come back that rest beside the opening log.
pub(crate) fn search_together<'a, R: Threads + Wait + Sync, G: Gate + Sync>(
    rt: &R,
    alloc: Global,
    gate: &G,
    hist: &Hist<ChainHub<'a>>,
    first: &mut Pass<ChainHub<'a>>,
    searches: Vec<KeptSearch>,
    check: &Check<'_>,
) -> Result<Sum, Vec<KeptSearch>>
    requires first { IsPassOf hist.now first.old × (first.old.number ≡ 0) × (first.old.made ≡ 1)
        × (first.old.mine ≡ []) × (first.old.seen ≡ []) }
    requires few { length searches.items < 2 ^ 16 }
    requires resting { AreAtRest hist.now.law.log searches.items }
    requires open_for { IsOpenFor hist.now.law check.now }
    ensures first { IsPassOf hist.now first.new × (first.new.number ≡ 0) × (first.new.mine ≡ []) }
    ensures made { IfOk result (λ s. first.new.made ≡ suc (length searches.items)) }
    ensures gathered { IfOk result
        (λ s. (xs : List Left)
        × AreGathered hist.now.law (problem_in hist.now.law check.now) (length searches.items)
        first.new s.searches.items s.model s.wanting s.spent xs) }
    ensures back { IfErr result (λ back. AreAtRest hist.now.law.log back.items) }
{
    let workers = match hire(rt, alloc, hist, first, searches, check) {
        Ok(workers) => workers,
        Err(searches) => return Err(searches),
    };
    let Ok(workers) = in_threads(rt, gate, workers) else {
        return Err(Vec::new(alloc));
    };
    match gather(alloc, hist, first, workers, check) {
        Ok(sum) => Ok(sum),
        Err(_) => Err(Vec::new(alloc)),
    }
}
