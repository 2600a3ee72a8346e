ghost use Rattle.std.specs.Prelude.{◌≡◌, ◌<◌, length};
ghost use Rattle.shared_history.specs.Known.{IsPassOf};

use crate::{Call, Event, Pool, Reply, Task, Worker, run};
use shared_history::{Hist, Pass, Pieces};
use std::alloc::Global;
use std::sync::Wait;
use std::test::Fail;
use std::thread::join;

// How many of the entries this pass made.
fn count_of(events: &Pieces<Event>, pass: u32) -> usize {
    let mut count = 0;
    for at in 0..events.len() {
        if let Some(event) = events.get(at) {
            if event.pass == pass && count < events.len() {
                count += 1;
            }
        }
    }
    count
}

#[test]
fn what_one_pass_steps_another_reads_and_the_whole_history_has(
    rt: HostRuntime,
) -> Result<(), Fail> {
    let alloc = rt.alloc();
    let topics = [7, 8, 9];
    let law = Pool {
        topics: &topics,
        jobs: 0,
    };
    let Ok((hist, mut first)) = Hist::start(alloc, law) else {
        panic!(rt; "memory")
    };
    let task = Task { topic: 2, times: 1 };
    let a = Worker {
        hist: &hist,
        pass: hist.pass(&mut first),
        task,
        done: false,
    };
    let b = Worker {
        hist: &hist,
        pass: hist.pass(&mut first),
        task,
        done: false,
    };
    let (a, (b, read)) = join(&rt, || a.worked(&rt, alloc), || b.awaited(&rt, alloc));
    let noted = Event {
        pass: 1,
        call: Call::Note(2),
    };
    let Some(read) = read else {
        panic!(rt; "memory")
    };
    assert!(rt; a.done && read.len() == 1 && read.get(0) == Some(&noted));
    let Worker { pass, .. } = a;
    hist.merge(&mut first, pass);
    let Worker { pass, .. } = b;
    assert!(rt; pass.number() == 2 && pass.got() == 1);
    hist.merge(&mut first, pass);
    let all = hist.close(&rt, first);
    assert!(rt; all.len() == 1 && all.get(0) == Some(&noted));
    Ok(())
}

// A worker that does its task in this thread.
fn worked<'h, 'a, R: Wait>(
    rt: &R,
    alloc: Global,
    hist: &'h Hist<Pool<'a>>,
    pass: Pass<Pool<'a>>,
    topic: u64,
) -> Worker<'h, 'a>
    requires { IsPassOf hist.now pass × (topic < length hist.now.law.topics.now) }
    ensures { (result.hist.now ≡ hist.entry.now) × (result.pass.number ≡ pass.entry.number)
        × (result.pass.made ≡ pass.entry.made) }
{
    let task = Task { topic, times: 300 };
    let worker = Worker {
        hist,
        pass,
        task,
        done: false,
    };
    worker.worked(rt, alloc)
}

// The topics of the entries from one place to another are this one.
fn all_note(events: &Pieces<Event>, from: usize, to: usize, topic: u64) -> bool {
    for at in from..to {
        let call = Call::Note(topic);
        if events.get(at) != Some(&Event { pass: 0, call }) {
            return false;
        }
    }
    true
}

#[test]
fn reads_give_what_was_not_got_and_cross_pieces(rt: HostRuntime) -> Result<(), Fail> {
    let alloc = rt.alloc();
    let topics = [0; 2];
    let law = Pool {
        topics: &topics,
        jobs: 1,
    };
    let Ok((hist, mut first)) = Hist::start(alloc, law) else {
        panic!(rt; "memory")
    };
    let mut late = hist.pass(&mut first);
    let mut early = hist.pass(&mut first);
    let Worker { pass, done, .. } = worked(&rt, alloc, &hist, first, 0);
    assert!(rt; done && pass.number() == 0);
    let Ok(events) = hist.read(&rt, alloc, &mut early) else {
        panic!(rt; "memory")
    };
    assert!(rt; events.len() == 300 && early.got() == 300);
    let Worker { pass, done, .. } = worked(&rt, alloc, &hist, pass, 1);
    let Ok(events) = hist.read(&rt, alloc, &mut late) else {
        panic!(rt; "memory")
    };
    assert!(rt; done && events.len() == 600 && events.get(600) == None && events.parts() == 3);
    assert!(rt; all_note(&events, 0, 300, 0) && all_note(&events, 300, 600, 1));
    let Ok(events) = hist.read(&rt, alloc, &mut early) else {
        panic!(rt; "memory")
    };
    assert!(rt; events.len() == 300 && all_note(&events, 0, 300, 1) && events.parts() == 2);
    let Ok(events) = hist.read(&rt, alloc, &mut early) else {
        panic!(rt; "memory")
    };
    assert!(rt; events.is_empty() && events.parts() == 0);
    late.facts();
    assert!(rt; hist.law().jobs == 1);
    drop(hist.close(&rt, pass));
    assert!(rt; hist.into_law().jobs == 1);
    Ok(())
}

#[test]
fn a_job_is_claimed_once_and_finished_by_its_pass(rt: HostRuntime) -> Result<(), Fail> {
    let alloc = rt.alloc();
    let law = Pool {
        topics: &[],
        jobs: 1,
    };
    let Ok((hist, mut first)) = Hist::start(alloc, law) else {
        panic!(rt; "memory")
    };
    let mut other = hist.pass(&mut first);
    let Ok(reply) = hist.step(&rt, alloc, &mut first, Call::Claim) else {
        panic!(rt; "memory")
    };
    assert!(rt; reply == Reply::Job(Some(0)));
    let Ok(reply) = hist.step(&rt, alloc, &mut other, Call::Claim) else {
        panic!(rt; "memory")
    };
    assert!(rt; reply == Reply::Job(None));
    Ok(())
}

#[test]
fn tasks_in_threads_make_one_history(rt: HostRuntime) -> Result<(), Fail> {
    let topics = [0; 3];
    let law = Pool {
        topics: &topics,
        jobs: 0,
    };
    let tasks = [
        Task {
            topic: 0,
            times: 300,
        },
        Task { topic: 1, times: 0 },
        Task {
            topic: 2,
            times: 200,
        },
    ];
    let Some(all) = run(&rt, rt.alloc(), law, &tasks) else {
        panic!(rt; "memory")
    };
    assert!(rt; all.len() == 500 && count_of(&all, 1) == 300 && count_of(&all, 3) == 200);
    Ok(())
}
