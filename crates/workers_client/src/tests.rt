//! Worked checks, with ample memory.

ghost use Rattle.std.specs.Prelude.{◌≡◌, ◌<◌, ◌≤◌, IfOk};
ghost use Rattle.proof_log.specs.Stored.{Stands};
ghost use Rattle.cube_workers.specs.Crews.{AreAtRest};

use crate::square::{BITS, Proof, square};
use crate::steps::ask;
use cnf_base::Lit;
use cube_workers::{
    Check, Found, Gate, KeptSearch, NoGate, Outcome, PairGate, Point, Settings, solve,
};
use proof_log::Log;
use smt_terms::terms::Terms;
use std::alloc::{AllocError, Global};
use std::process::Abort;
use std::sync::Wait;
use std::sync::atomic::{AtomicU64, Ordering};
use std::test::Fail;
use std::thread::Threads;

// What a check came to: a word that a model gives, no word, or the cube that is spent.
#[derive(Clone, Copy, Debug, PartialEq, Eq)]
enum Came {
    Root(u64),
    NoRoot,
    Spent(u32),
}

// How a check is searched: by how many bits of the word it is split, by how many workers, and within which budget.
#[derive(Clone, Copy, Debug)]
struct Way {
    depth: u32,
    workers: u32,
    budget: u64,
}

// The word whose bits have these values.
fn word_of(kept: &KeptSearch) -> u64 {
    let mut word = 0;
    for variable in BITS.0..BITS.1 {
        if kept.search.is_true(Lit::new(variable, true)) {
            word |= 1 << (variable - BITS.0);
        }
    }
    word
}

fn came_to(found: &Found) -> Came {
    match &found.outcome {
        Outcome::Sat => match found.searches.get(found.by) {
            Some(kept) => Came::Root(word_of(kept)),
            None => Came::NoRoot,
        },
        Outcome::Unsat(_) => Came::NoRoot,
        Outcome::Unknown(diary) => Came::Spent(diary.cube),
    }
}

// Searches the check of assertion 0 over a log, with searches that are kept.
fn searched<R: Threads + Wait + Sync, G: Gate + Sync>(
    rt: &R,
    alloc: Global,
    gate: &G,
    terms: &Terms,
    log: Log,
    searches: Vec<KeptSearch>,
    way: Way,
) -> Result<Found, AllocError>
    requires stands { Stands terms.now.nodes log }
    requires way { (way.depth ≤ 10) × (0 < way.workers) × (way.workers ≤ 64) }
    requires resting { AreAtRest log searches.items }
    ensures stands { IfOk result (λ r. Stands terms.now.nodes r.log) }
    ensures resting { IfOk result (λ r. AreAtRest r.log r.searches.items) }
{
    let _listed = terms.len();
    let asked = match ask(alloc, &log, way.depth) {
        Ok(asked) => asked,
        Err(error) => {
            drop((log, searches));
            return Err(error);
        }
    };
    let check = Check {
        positions: asked.positions.as_slice(),
        tree: &asked.tree,
        assumed: asked.assumed.as_slice(),
        settings: Settings {
            workers: way.workers,
            budget: way.budget,
        },
    };
    match solve(rt, alloc, gate, terms, log, searches, &check) {
        Ok(found) => Ok(found),
        Err(_) => Err(AllocError),
    }
}

// What two checks of a square come to, the second by the searches and over the log that the first left.
fn twice<R: Threads + Wait + Sync, G: Gate + Sync>(
    rt: &R,
    alloc: Global,
    gate: &G,
    terms: &Terms,
    log: Log,
    ways: (Way, Way),
) -> Result<(Came, Came), AllocError>
    requires stands { Stands terms.now.nodes log }
    requires first { (ways.0.depth ≤ 10) × (0 < ways.0.workers) × (ways.0.workers ≤ 64) }
    requires second { (ways.1.depth ≤ 10) × (0 < ways.1.workers) × (ways.1.workers ≤ 64) }
{
    let found = searched(rt, alloc, gate, terms, log, Vec::new(alloc), ways.0)?;
    let first = came_to(&found);
    let Found { log, searches, .. } = found;
    let found = searched(rt, alloc, gate, terms, log, searches, ways.1)?;
    Ok((first, came_to(&found)))
}

// What two checks of the square of this number come to.
fn both<R: Threads + Wait + Sync, G: Gate + Sync>(
    rt: &R,
    alloc: Global,
    gate: &G,
    value: u64,
    ways: (Way, Way),
) -> Result<(Came, Came), AllocError>
    requires first { (ways.0.depth ≤ 10) × (0 < ways.0.workers) × (ways.0.workers ≤ 64) }
    requires second { (ways.1.depth ≤ 10) × (0 < ways.1.workers) × (ways.1.workers ≤ 64) }
{
    let Proof { log, terms } = square(alloc, u128::from(value))?;
    let came = twice(rt, alloc, gate, &terms, log, ways);
    drop(terms);
    came
}

// Whether a check of the square of this number came to what is right: a root, where there is one.
fn is_right(value: u64, came: Came) -> bool {
    match came {
        Came::Root(word) => word < 256 && word * word % 256 == value,
        Came::NoRoot => !(0..256u64).any(|word| word * word % 256 == value),
        Came::Spent(_) => false,
    }
}

const AMPLE: u64 = 100_000;

// Two checks with so many workers and these depths come to what is right.
fn are_right(
    rt: &(impl Threads + Wait + Sync + Abort + AllocGlobal),
    value: u64,
    workers: (u32, u32),
    depths: (u32, u32),
) -> Result<(), Fail>
    requires workers { (0 < workers.0) × (workers.0 ≤ 64) × (0 < workers.1) × (workers.1 ≤ 64) }
    requires depths { (depths.0 ≤ 10) × (depths.1 ≤ 10) }
{
    let ways = (
        Way {
            depth: depths.0,
            workers: workers.0,
            budget: AMPLE,
        },
        Way {
            depth: depths.1,
            workers: workers.1,
            budget: AMPLE,
        },
    );
    let (first, second) = both(rt, rt.alloc(), &NoGate, value, ways)?;
    assert!(rt; is_right(value, first), "{value} by {workers:?}: {first:?}");
    assert!(rt;
        is_right(value, second),
        "{value} by {workers:?} again: {second:?}"
    );
    Ok(())
}

#[test]
fn workers_find_roots_and_that_there_are_none(rt: HostRuntime) -> Result<(), Fail> {
    are_right(&rt, 17, (1, 1), (2, 1))?;
    are_right(&rt, 17, (2, 3), (2, 0))?;
    are_right(&rt, 17, (8, 2), (3, 3))?;
    are_right(&rt, 13, (1, 2), (3, 2))?;
    are_right(&rt, 13, (2, 1), (3, 1))?;
    are_right(&rt, 13, (3, 8), (1, 3))?;
    Ok(())
}

// One cube, without a learnt clause.
fn narrow(workers: u32) -> Way
    ensures { (result.depth ≡ 0) × (result.workers ≡ workers) }
{
    Way {
        depth: 0,
        workers,
        budget: 0,
    }
}

#[test]
fn a_spent_cube_is_told_with_its_diary(rt: HostRuntime) -> Result<(), Fail> {
    let alloc = rt.alloc();
    let came = both(&rt, alloc, &NoGate, 13, (narrow(1), narrow(2)))?;
    assert_eq!(rt; came, (Came::Spent(0), Came::Spent(0)));
    let came = both(&rt, alloc, &NoGate, 13, (narrow(3), narrow(8)))?;
    assert_eq!(rt; came, (Came::Spent(0), Came::Spent(0)));
    Ok(())
}

#[test]
fn two_workers_stand_at_their_first_cubes_at_one_time(rt: HostRuntime) -> Result<(), Fail> {
    let gate = PairGate::new();
    let way = Way {
        depth: 2,
        workers: 2,
        budget: AMPLE,
    };
    let (first, second) = both(&rt, rt.alloc(), &gate, 13, (way, way))?;
    assert_eq!(rt; (first, second), (Came::NoRoot, Came::NoRoot));
    assert!(rt; !gate.gave_up());
    Ok(())
}

// A gate that counts the workers that begin.
#[derive(Drop)]
struct CountGate {
    begun: AtomicU64,
}

impl Gate for CountGate {
    fn pass(&self, worker: u32, point: Point) {
        let _ = worker;
        if point == Point::Begin {
            let _ = self.begun.fetch_add(1, Ordering::SeqCst);
        }
    }
}

#[test]
fn no_more_workers_begin_than_there_are_cubes(rt: HostRuntime) -> Result<(), Fail> {
    let gate = CountGate {
        begun: AtomicU64::new(0),
    };
    let came = both(&rt, rt.alloc(), &gate, 13, (narrow(8), narrow(2)))?;
    assert_eq!(rt; came, (Came::Spent(0), Came::Spent(0)));
    assert_eq!(rt; gate.begun.load(Ordering::SeqCst), 0);
    let two_cubes = Way {
        depth: 1,
        workers: 8,
        budget: AMPLE,
    };
    let one_cube = Way {
        depth: 0,
        workers: 8,
        budget: AMPLE,
    };
    let came = both(&rt, rt.alloc(), &gate, 13, (two_cubes, one_cube))?;
    assert_eq!(rt; came, (Came::NoRoot, Came::NoRoot));
    assert_eq!(rt; gate.begun.load(Ordering::SeqCst), 2);
    Ok(())
}
