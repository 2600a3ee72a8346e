//! Measures walks over arrays and functions: how many rows they make, and in which time.
//!
//! With no arguments it walks over small networks and prints what came of them, the same on every
//! run. `chain N TIMES` has N selects of a chain of N stores, all with different indexes; `shared N
//! TIMES` one select of a chain of N stores that have one index; `calls N TIMES` N applications of
//! one function to different arguments. It walks so often over one network under one assignment,
//! which makes no lemma false, and prints the rows and the nanoseconds of a walk.
#![tactic(auto)]

mod network;
mod scene;
mod timing;

use bit_blast::Assignment;
use network::{Shape, scene_of};
use scene::Scene;
use std::alloc::Global;
use std::time::{Clock, Duration};
use std::{env, io};
use timing::walk_often;

/// What to walk over: so many stores or applications.
#[derive(Clone, Copy)]
struct Job {
    shape: Shape,
    count: u32,
    times: u32,
}

fn main(rt: HostRuntime) -> io::Result<()> {
    let alloc = rt.alloc();
    let mut words = env::args(&rt)?;
    words.next();
    let Some(kind) = words.next() else {
        return check(&rt, alloc);
    };
    let mut numbers = Vec::new(alloc);
    for word in words {
        match word.parse::<u32>() {
            Ok(number) => numbers.push(number)?,
            Err(_) => return usage(&rt),
        }
    }
    match job_of(kind.as_str(), numbers.as_slice()) {
        Some(job) => measure(&rt, alloc, job),
        None => usage(&rt),
    }
}

fn usage(rt: &impl Eprint) -> io::Result<()> {
    eprintln!(rt; "walk_bench [chain N TIMES | shared N TIMES | calls N TIMES]")
}

fn job_of(kind: &str, numbers: &[u32]) -> Option<Job> {
    let shape = match kind {
        "chain" => Shape::Chain,
        "shared" => Shape::Shared,
        "calls" => Shape::Calls,
        _ => return None,
    };
    match numbers {
        &[count, times] => Some(Job {
            shape,
            count,
            times,
        }),
        _ => None,
    }
}

// Small networks of each shape, with no time.
fn check<R: Print + Eprint + Clock>(rt: &R, alloc: Global) -> io::Result<()> {
    for shape in [Shape::Chain, Shape::Shared, Shape::Calls] {
        let job = Job {
            shape,
            count: 5,
            times: 2,
        };
        match done(rt, alloc, job)? {
            Some((rows, _)) => println!(rt; "{} 5: {rows} rows", shape.text())?,
            None => return eprintln!(rt; "no table"),
        }
    }
    Ok(())
}

fn measure<R: Print + Eprint + Clock>(rt: &R, alloc: Global, job: Job) -> io::Result<()> {
    match done(rt, alloc, job)? {
        Some((rows, time)) => {
            println!(rt;
                "{rows} rows in {} ns",
                time.as_nanos() / u128::from(job.times.max(1))
            )
        }
        None => eprintln!(rt; "no table"),
    }
}

// The rows of a walk, and the time of all. None where a walk finds false lemmas, or memory ends.
fn done<R: Clock>(rt: &R, alloc: Global, job: Job) -> io::Result<Option<(u64, Duration)>> {
    let Some(scene) = scene_of(alloc, job.shape, job.count) else {
        return Ok(None);
    };
    let counted = u64::from(job.count);
    let Some((rows, time)) = walk_scene(rt, alloc, scene, job.times)? else {
        return Ok(None);
    };
    match job.shape {
        Shape::Calls => Ok(Some((counted, time))),
        _ => Ok(Some((rows, time))),
    }
}

fn walk_scene<R: Clock>(
    rt: &R,
    alloc: Global,
    scene: Scene,
    times: u32,
) -> io::Result<Option<(u64, Duration)>> {
    let Scene {
        terms,
        own,
        values,
        live,
        ..
    } = scene;
    let assignment = Assignment::new(values);
    walk_often(
        rt,
        alloc,
        &terms,
        own.bits(),
        &assignment,
        live.as_slice(),
        times,
    )
}
