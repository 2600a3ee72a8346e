//! Passes at work in threads, merged and closed after the joins.
ghost use Rattle.std.specs.Prelude.{◌≡◌, ℕ, ◌+◌, ◌<◌, ◌≤◌, ◌^◌, [], All, length, IfSome, IsTrue, slice_index_or, vec_len};
ghost use Rattle.std.specs.List.{AllByRecursion};
ghost use Rattle.shared_history.specs.Events.{of_pass};
ghost use Rattle.shared_history.specs.Known.{IsPassOf};
ghost use Rattle.history_client.specs.declared.worker.Task.{Task};
ghost use Rattle.history_client.specs.Pools.{by_of, notes};
ghost use Rattle.history_client.specs.Work.{IsReady, HasWorked, Each, IsOneOf};

use crate::law::{Event, Pool};
use crate::worker::{Task, Worker};
use shared_history::{Hist, Pass, Pieces};
use std::alloc::Global;
use std::sync::Wait;
use std::thread;
use std::thread::Threads;

/// Does each task in a thread and by a pass of its own, numbered from 1 on in the order of the tasks, and gives the whole history. `None` is want of memory.
pub fn run<R: Threads + Wait + Sync>(
    rt: &R,
    alloc: Global,
    law: Pool<'_>,
    tasks: &[Task],
) -> Option<Pieces<Event>>
    requires few { length tasks.now < 2 ^ 16 }
    requires topics { All (λ t. t.topic < length law.topics.now) tasks.now }
    ensures own { IfSome result (λ all. (k : ℕ) (d : Task) → k < length tasks.now
        → let t = slice_index_or tasks.now k d in of_pass by_of (k + 1) all
        ≡ notes (k + 1) t.topic t.times) }

    // There is no other event.
    ensures first { IfSome result (λ all. of_pass by_of 0 all ≡ []) }
    ensures below { IfSome result
        (λ all. AllByRecursion (λ e. by_of e < length tasks.now + 1) all) }
{
    let (hist, mut first) = Hist::start(alloc, law).ok()?;
    let workers = hire(alloc, &hist, &mut first, tasks)?;
    let workers = work(rt, alloc, &hist, tasks, workers)?;
    let done = gather(&hist, &mut first, tasks, workers);
    let all = hist.close(rt, first);
    if done { Some(all) } else { None }
}

// A worker for each task, with a pass that was split off from the first one.
fn hire<'h, 'a>(
    alloc: Global,
    hist: &'h Hist<Pool<'a>>,
    first: &mut Pass<Pool<'a>>,
    tasks: &[Task],
) -> Option<Vec<Worker<'h, 'a>>>
    requires first { IsPassOf hist.now first.old × (first.old.number ≡ 0) × (first.old.made ≡ 1)
        × (first.old.mine ≡ []) }
    requires tasks { (length tasks.now < 2 ^ 16)
        × All (λ t. t.topic < length hist.now.law.topics.now) tasks.now }
    ensures first { IsPassOf hist.now first.new × (first.new.number ≡ 0) × (first.new.mine ≡ []) }
    ensures made { IfSome result (λ v. first.new.made ≡ length tasks.now + 1) }
    ensures workers { IfSome result (λ v. (vec_len v ≡ length tasks.now)
        × Each (IsReady hist.now) tasks.now v.items) }
{
    let mut workers = Vec::new(alloc);
    for task in tasks {
        if workers.reserve(1).is_err() {
            return None;
        }
        let pass = hist.pass(first);
        workers.push_reserved(Worker {
            hist,
            pass,
            task: *task,
            done: false,
        });
    }
    Some(workers)
}

// Each worker works in a thread of its own, and all have ended when this returns.
fn work<'h, 'a, R: Threads + Wait + Sync>(
    rt: &R,
    alloc: Global,
    hist: &'h Hist<Pool<'a>>,
    tasks: &[Task],
    workers: Vec<Worker<'h, 'a>>,
) -> Option<Vec<Worker<'h, 'a>>>
    requires { (vec_len workers ≡ length tasks.now)
        × Each (IsReady hist.now) tasks.now workers.items }
    ensures { IfSome result (λ v. (vec_len v ≡ length tasks.now)
        × Each (HasWorked hist.now) tasks.now v.items) }
{
    match thread::map_vec(rt, workers, &|worker: Worker| worker.worked(rt, alloc)) {
        Ok(worked) => Some(worked),
        Err(_) => None,
    }
}

// Merges the passes into the first one. Whether all tasks are done.
fn gather<'h, 'a>(
    hist: &'h Hist<Pool<'a>>,
    first: &mut Pass<Pool<'a>>,
    tasks: &[Task],
    mut workers: Vec<Worker<'h, 'a>>,
) -> bool
    requires first { IsPassOf hist.now first.old }
    requires workers { (vec_len workers ≡ length tasks.now)
        × Each (HasWorked hist.now) tasks.now workers.items }
    ensures first { IsPassOf hist.now first.new × (first.new.number ≡ first.old.number)
        × (first.new.made ≡ first.old.made) × (first.new.mine ≡ first.old.mine) }
    ensures ended { IsTrue result → (k : ℕ) (d : Task) → k < length tasks.now
        → let t = slice_index_or tasks.now k d in IsOneOf first.new.ended
        (k + 1, notes (k + 1) t.topic t.times) }
{
    let mut done = true;
    while let Some(worker) = workers.pop() {
        done &= worker.done;
        let Worker { pass, .. } = worker;
        hist.merge(first, pass);
    }
    done
}
