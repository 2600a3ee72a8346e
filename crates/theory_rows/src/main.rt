//! Tells what the checker says of a table of proofs with functions, arrays and rewriting.
//!
//! The table, which is standard input, has scripts, each with a proof, and changes of the proof's lines. Of each proof, and of
//! each change, the program prints the line that ends its check: that it is accepted, or its first bad line with the rule. The
//! contract of [`judging::told`] says that this is what is judged of both texts, and that of [`table::changed_text`] which lines
//! a change leaves. `tests/rows/lemmas.py` says how a table is written, and replays it by rules of its own. The crate stands on
//! `proof_checker` and `smt_text`.
#![tactic(auto)]

mod judging;
mod table;

use judging::told;
use smt_text::text::Text;
use std::io;
use std::io::Write;
use table::{Base, bases, changed_text, text_of};

// Prints the line that ends the check of a script and a proof.
fn print_told(rt: &HostRuntime, script: &Text, proof: &Text) -> io::Result<()> {
    let line = told(rt.alloc(), script.as_slice(), proof.as_slice())?;
    io::writer(rt).write_all(line.as_slice())
}

// Prints what is told of a base's proof, and of each change.
fn print_base(rt: &HostRuntime, base: &Base<'_>) -> io::Result<()> {
    println!(rt; "= {}", base.name)?;
    let script = text_of(rt.alloc(), base.script.as_slice())?;
    let proof = text_of(rt.alloc(), base.proof.as_slice())?;
    print_told(rt, &script, &proof)?;
    for change in &base.changes {
        match changed_text(rt.alloc(), base.proof.as_slice(), change)? {
            Some(changed) => print_told(rt, &script, &changed)?,
            None => println!(rt; "no lines to change")?,
        }
    }
    Ok(())
}

fn main(rt: HostRuntime) -> io::Result<()> {
    let text = io::read_to_string(rt.alloc(), rt.reader())?;
    match bases(rt.alloc(), text.as_str())? {
        Some(bases) => {
            for base in &bases {
                print_base(&rt, base)?;
            }
            Ok(())
        }
        None => println!(rt; "no table"),
    }
}
