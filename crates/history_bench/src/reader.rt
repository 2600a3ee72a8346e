//! Threads that read a history, each time by a pass that has got nothing of it.
ghost use Rattle.std.specs.Prelude.{◌≡◌, ◌+◌, ◌*◌, ◌≤◌, ◌^◌, All, IfSome};
ghost use Rattle.shared_history.specs.Known.{IsPassOf};

use history_client::{Call, Event, Pool};
use shared_history::{Hist, Pass, Pieces};
use std::alloc::Global;
use std::sync::Wait;
use std::thread;
use std::thread::Threads;

/// A thread's passes.
#[derive(Drop)]
pub struct Reader<'h, 'a> {
    hist: &'h Hist<Pool<'a>>,
    passes: Vec<Pass<Pool<'a>>>,
    ghost own: { All (λ p. IsPassOf hist.now p) passes.items },
}

impl<'h, 'a> Reader<'h, 'a> {
    // Reads once by each of its passes. How many entries it went over.
    fn read<R: Wait>(self, rt: &R, alloc: Global) -> u64 {
        let Reader { hist, passes } = self;
        read_by_each(rt, alloc, hist, passes)
    }
}

fn read_by_each<'a, R: Wait>(
    rt: &R,
    alloc: Global,
    hist: &Hist<Pool<'a>>,
    mut passes: Vec<Pass<Pool<'a>>>,
) -> u64
    requires { All (λ p. IsPassOf hist.now p) passes.items }
{
    let mut entries = 0u64;
    while let Some(mut pass) = passes.pop() {
        if let Ok(events) = hist.read(rt, alloc, &mut pass) {
            entries = entries.saturating_add(notes_in(&events));
        }
    }
    entries
}

// How many of the entries are notes.
fn notes_in(events: &Pieces<Event>) -> u64 {
    let mut notes = 0u64;
    for at in 0..events.len() {
        if let Some(event) = events.get(at) {
            if event.call == Call::Note(0) {
                notes = notes.saturating_add(1);
            }
        }
    }
    notes
}

// So many passes, split off from the first one.
fn passes<'a>(
    alloc: Global,
    hist: &Hist<Pool<'a>>,
    first: &mut Pass<Pool<'a>>,
    count: u32,
) -> Option<Vec<Pass<Pool<'a>>>>
    requires own { IsPassOf hist.now first.old × (first.old.number ≡ 0) }
    requires room { first.old.made + count ≤ 2 ^ 32 }
    ensures own { IsPassOf hist.now first.new }
    ensures passes { IfSome result (λ v. All (λ p. IsPassOf hist.now p) v.items) }
{
    let mut passes = Vec::new(alloc);
    for _ in 0..count {
        if passes.reserve(1).is_err() {
            return None;
        }
        let pass = hist.pass(first);
        passes.push_reserved(pass);
    }
    Some(passes)
}

// So many of the passes, or those that are left.
fn taken<'a>(
    alloc: Global,
    hist: &Hist<Pool<'a>>,
    passes: &mut Vec<Pass<Pool<'a>>>,
    count: u32,
) -> Option<Vec<Pass<Pool<'a>>>>
    requires { All (λ p. IsPassOf hist.now p) passes.old.items }
    ensures left { All (λ p. IsPassOf hist.now p) passes.new.items }
    ensures taken { IfSome result (λ v. All (λ p. IsPassOf hist.now p) v.items) }
{
    let mut taken = Vec::new(alloc);
    for _ in 0..count {
        if taken.reserve(1).is_err() {
            return None;
        }
        if let Some(pass) = passes.pop() {
            taken.push_reserved(pass);
        }
    }
    Some(taken)
}

// Readers over a history, each with so many of the passes.
fn readers<'h, 'a>(
    alloc: Global,
    hist: &'h Hist<Pool<'a>>,
    mut passes: Vec<Pass<Pool<'a>>>,
    threads: u32,
    rounds: u32,
) -> Option<Vec<Reader<'h, 'a>>>
    requires { All (λ p. IsPassOf hist.now p) passes.items }
{
    let mut readers = Vec::new(alloc);
    for _ in 0..threads {
        if readers.reserve(1).is_err() {
            return None;
        }
        let passes = taken(alloc, hist, &mut passes, rounds)?;
        readers.push_reserved(Reader { hist, passes });
    }
    Some(readers)
}

/// Readers for so many threads, each with so many passes. `None` is want of memory.
pub fn hire<'h, 'a>(
    alloc: Global,
    hist: &'h Hist<Pool<'a>>,
    first: &mut Pass<Pool<'a>>,
    threads: u32,
    rounds: u32,
) -> Option<Vec<Reader<'h, 'a>>>
    requires own { IsPassOf hist.now first.old × (first.old.number ≡ 0) }
    requires room { first.old.made + threads * rounds ≤ 2 ^ 32 }
    ensures own { IsPassOf hist.now first.new }
{
    let passes = passes(alloc, hist, first, threads.checked_mul(rounds)?)?;
    readers(alloc, hist, passes, threads, rounds)
}

/// Each reader reads in a thread of its own. How many entries they went over, or `None` for want of memory.
pub fn read_in_threads<R: Threads + Wait + Sync>(
    rt: &R,
    alloc: Global,
    readers: Vec<Reader<'_, '_>>,
) -> Option<u64> {
    let done = thread::map_vec(rt, readers, &|reader: Reader| reader.read(rt, alloc)).ok()?;
    let mut entries = 0u64;
    for read in &done {
        entries = entries.saturating_add(*read);
    }
    Some(entries)
}
