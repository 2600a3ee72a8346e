//! A pass at work in a thread of its own.
ghost use Rattle.std.specs.Prelude.{◌≡◌, ◌<◌, ◌++◌, length, drop, IfSome};
ghost use Rattle.std.specs.Bool.{OnTrue};
ghost use Rattle.shared_history.specs.Known.{IsPassOf};
ghost use Rattle.history_client.specs.Pools.{notes};

use crate::law::{Call, Event, Pool};
use shared_history::{Hist, Pass, Pieces};
use std::alloc::Global;
use std::sync::Wait;
use std::thread;

/// To note a topic so often.
#[derive(Clone, Copy)]
pub struct Task {
    pub topic: u64,
    pub times: u64,
}

/// A pass of a history, with its task, and whether the task is done.
#[derive(Drop)]
pub struct Worker<'h, 'a> {
    pub hist: &'h Hist<Pool<'a>>,
    pub pass: Pass<Pool<'a>>,
    pub task: Task,
    pub done: bool,
    pub ghost own: { IsPassOf hist.now pass × (task.topic < length hist.now.law.topics.now) },
}

impl<'h, 'a> Worker<'h, 'a> {
    /// Does the task, until it is done or memory is wanting.
    pub fn work<R: Wait>(&mut self, rt: &R, alloc: Global)
        ensures same { (self.new.hist.now ≡ self.old.hist.now)
            × (self.new.pass.number ≡ self.old.pass.number)
            × (self.new.pass.made ≡ self.old.pass.made) × (self.new.task ≡ self.old.task) }
        ensures mine { OnTrue self.new.done (self.new.pass.mine ≡ self.old.pass.mine
            ++ notes self.old.pass.number self.old.task.topic self.old.task.times) }
    {
        self.done = false;
        for _ in 0..self.task.times {
            let call = Call::Note(self.task.topic);
            if self.hist.step(rt, alloc, &mut self.pass, call).is_err() {
                return;
            }
        }
        self.done = true;
    }

    /// The worker after its work.
    pub fn worked<R: Wait>(mut self, rt: &R, alloc: Global) -> Worker<'h, 'a>
        ensures same { (result.hist.now ≡ self.entry.hist.now)
            × (result.pass.number ≡ self.entry.pass.number)
            × (result.pass.made ≡ self.entry.pass.made) × (result.task ≡ self.entry.task) }
        ensures mine { OnTrue result.done (result.pass.mine ≡ self.entry.pass.mine
            ++ notes self.entry.pass.number self.entry.task.topic self.entry.task.times) }
    {
        self.work(rt, alloc);
        self
    }

    /// Reads until there are entries that the pass has not got. `None` is want of memory.
    #[tactic(auto, using(crate::proofs::Working::nothing_new))]
    pub fn wait_and_read<R: Wait>(&mut self, rt: &R, alloc: Global) -> Option<Pieces<Event>>
        ensures same { (self.new.hist.now ≡ self.old.hist.now)
            × (self.new.pass.number ≡ self.old.pass.number)
            × (self.new.pass.mine ≡ self.old.pass.mine) × (self.new.task ≡ self.old.task)
            × (self.new.done ≡ self.old.done) }
        ensures events { IfSome result (λ events. (0 < length events)
            × (events ≡ drop self.old.pass.got self.new.pass.seen)
            × (self.new.pass.got ≡ length self.new.pass.seen)) }
    {
        // Tells that the pass has seen what it has got.
        let _got = self.pass.got();
        for _ in rt.forever() {
            let Ok(events) = self.hist.read(rt, alloc, &mut self.pass) else {
                return None;
            };
            if !events.is_empty() {
                return Some(events);
            }
            thread::yield_now();
        }
        unreachable!()
    }

    /// The worker, and what it waited for and read.
    pub fn awaited<R: Wait>(
        mut self,
        rt: &R,
        alloc: Global,
    ) -> (Worker<'h, 'a>, Option<Pieces<Event>>)
        ensures same { (result.0.hist.now ≡ self.entry.hist.now)
            × (result.0.pass.number ≡ self.entry.pass.number)
            × (result.0.pass.mine ≡ self.entry.pass.mine) × (result.0.task ≡ self.entry.task)
            × (result.0.done ≡ self.entry.done) }
        ensures events { IfSome result.1 (λ events. (0 < length events)
            × (events ≡ drop self.entry.pass.got result.0.pass.seen)
            × (result.0.pass.got ≡ length result.0.pass.seen)) }
    {
        let events = self.wait_and_read(rt, alloc);
        (self, events)
    }
}
