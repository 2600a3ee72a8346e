//! Measures the search of clauses: how many conflicts, decisions and propagations it took.
//!
//! It reads clauses of DIMACS from standard input and searches them as `cnf` of `smt_tool` does, with lines of LRAT that are written
//! nowhere. It prints what the engine counted, and whether values were found that make each clause true.
#![tactic(auto)]

mod nowhere;
mod search;

use dimacs_search::outcome::Outcome;
use search::{Ended, searched};
use std::alloc::Global;
use std::io;
use std::io::Read;

fn main(rt: HostRuntime) -> io::Result<()> {
    let alloc = rt.alloc();
    let mut text = Vec::new(alloc);
    rt.reader().read_to_end(&mut text)?;
    match searched(alloc, text.as_slice()) {
        Some(ended) => tell(&rt, &ended),
        None => eprintln!(&rt; "no clauses, or no memory"),
    }
}

// Prints the counts, and the answer.
fn tell(rt: &impl Print, ended: &Ended) -> io::Result<()> {
    println!(rt; "conflicts {}", ended.effort.conflicts)?;
    println!(rt; "decisions {}", ended.effort.decisions)?;
    println!(rt; "propagations {}", ended.effort.propagations)?;
    println!(rt; "{}", answer(&ended.outcome))
}

fn answer(outcome: &Outcome) -> &'static str {
    match outcome {
        Outcome::Satisfiable(_) => "sat",
        Outcome::Unsatisfiable => "unsat",
    }
}
