//! Measures steps and reads of a shared history.
//!
//! With no arguments it runs small counts and prints what came of them, the same on every run.
//! `steps THREADS STEPS` has each thread make so many steps, and prints the time.
//! `reads THREADS ENTRIES ROUNDS` has each thread read a history of so many entries so often, each time by a pass that
//! has got nothing, and go over what it read; it prints the time.
#![tactic(auto)]

mod reader;

use history_client::{Pool, Task, Worker, run};
use reader::{hire, read_in_threads};
use shared_history::Hist;
use std::alloc::Global;
use std::sync::Wait;
use std::thread::Threads;
use std::time::{Clock, Duration, Instant};
use std::{env, io};

const TOPICS: [u64; 1] = [0];

/// What to measure.
#[derive(Clone, Copy)]
enum Job {
    Steps {
        threads: u16,
        steps: u64,
    },
    Reads {
        threads: u16,
        entries: u64,
        rounds: u16,
    },
}

fn main(rt: HostRuntime) -> io::Result<()> {
    let alloc = rt.alloc();
    let mut words = env::args(&rt)?;
    words.next();
    let Some(kind) = words.next() else {
        return check(&rt, alloc);
    };
    let mut numbers = Vec::new(alloc);
    for word in words {
        match word.parse::<u64>() {
            Ok(number) => numbers.push(number)?,
            Err(_) => return usage(&rt),
        }
    }
    match job_of(kind.as_str(), numbers.as_slice()) {
        Some(job) => measure(&rt, alloc, job),
        None => usage(&rt),
    }
}

fn usage(rt: &impl Eprint) -> io::Result<()> {
    eprintln!(rt; "history_bench [steps THREADS STEPS | reads THREADS ENTRIES ROUNDS]")
}

fn job_of(kind: &str, numbers: &[u64]) -> Option<Job> {
    match (kind, numbers) {
        ("steps", &[threads, steps]) => Some(Job::Steps {
            threads: u16::try_from(threads).ok()?,
            steps,
        }),
        ("reads", &[threads, entries, rounds]) => Some(Job::Reads {
            threads: u16::try_from(threads).ok()?,
            entries,
            rounds: u16::try_from(rounds).ok()?,
        }),
        _ => None,
    }
}

// Small counts of both kinds, with no time.
fn check<R: Threads + Wait + Sync + Print + Eprint + Clock>(
    rt: &R,
    alloc: Global,
) -> io::Result<()> {
    let Some((entries, _)) = steps(rt, alloc, 3, 200)? else {
        return eprintln!(rt; "out of memory");
    };
    println!(rt; "3 threads, 200 steps each: {entries} entries")?;
    let Some((read, _)) = reads(rt, alloc, 2, 1000, 2)? else {
        return eprintln!(rt; "out of memory");
    };
    println!(rt; "2 threads, 2 reads of 1000 entries each: {read} entries")
}

fn measure<R: Threads + Wait + Sync + Print + Eprint + Clock>(
    rt: &R,
    alloc: Global,
    job: Job,
) -> io::Result<()> {
    let done = match job {
        Job::Steps {
            threads,
            steps: each,
        } => steps(rt, alloc, threads, each)?,
        Job::Reads {
            threads,
            entries,
            rounds,
        } => reads(rt, alloc, threads, entries, rounds)?,
    };
    match done {
        Some((entries, time)) => println!(rt; "{entries} entries in {} ms", time.as_millis()),
        None => eprintln!(rt; "out of memory"),
    }
}

// Has each thread make so many steps. The entries that came of it, and the time.
fn steps<R: Threads + Wait + Sync + Clock>(
    rt: &R,
    alloc: Global,
    threads: u16,
    steps: u64,
) -> io::Result<Option<(u64, Duration)>> {
    let law = Pool {
        topics: &TOPICS,
        jobs: 0,
    };
    let mut tasks = Vec::new(alloc);
    for _ in 0..threads {
        tasks.push(Task {
            topic: 0,
            times: steps,
        })?;
    }
    let start = Instant::now(rt)?;
    let Some(all) = run(rt, alloc, law, tasks.as_slice()) else {
        return Ok(None);
    };
    Ok(Some((all.len() as u64, start.elapsed(rt)?)))
}

// Has each thread read a history of so many entries so often. The entries that they went over, and the time.
fn reads<R: Threads + Wait + Sync + Clock>(
    rt: &R,
    alloc: Global,
    threads: u16,
    entries: u64,
    rounds: u16,
) -> io::Result<Option<(u64, Duration)>> {
    let law = Pool {
        topics: &TOPICS,
        jobs: 0,
    };
    let Ok((hist, first)) = Hist::start(alloc, law) else {
        return Ok(None);
    };
    let writer = Worker {
        hist: &hist,
        pass: first,
        task: Task {
            topic: 0,
            times: entries,
        },
        done: false,
    };
    let Worker {
        pass: mut first,
        done,
        ..
    } = writer.worked(rt, alloc);
    if !done {
        return Ok(None);
    }
    let Some(readers) = hire(
        alloc,
        &hist,
        &mut first,
        u32::from(threads),
        u32::from(rounds),
    ) else {
        return Ok(None);
    };
    let start = Instant::now(rt)?;
    let Some(read) = read_in_threads(rt, alloc, readers) else {
        return Ok(None);
    };
    Ok(Some((read, start.elapsed(rt)?)))
}
