// The summary of the responses to a script.

ghost use Rattle.std.specs.Prelude.{◌≡◌, ◌<◌, ◌≤◌, ◌++◌, length, true, IfOk, OnOk};
ghost use Rattle.drill_script.specs.Scripts.{state_after};
ghost use Rattle.drill_script.specs.Summaries.{behind, closed, checks_in, counts_text, last_text, tally_of, summary_of};

use crate::script::{drawn, next_state, push_around, push_hexadecimal};
use smt_text::text::Text;
use std::alloc::{AllocError, Global};
use std::marker::Model;

/// The line that is begun, how many checks had each verdict, and whether the last check was `sat` and the one before it.
#[derive(Drop)]
struct Counts {
    line: Text,
    sat: u64,
    unsat: u64,
    unknown: u64,
    last: bool,
    before: bool,
}

impl Model for Counts {
    ghost use Rattle.drill_script.specs.Summaries.{Tally};

    ghost Value = { Tally };

    ghost view = { λ c.
        record {
          line = c.line;
          sat = c.sat;
          unsat = c.unsat;
          unknown = c.unknown;
          last = c.last;
          before = c.before;
        } };
}

impl Counts {
    /// Ends the line that is begun.
    fn end_line(&mut self)
        requires { checks_in self.old < 18446744073709551615 }
        ensures { self.new ≡ closed self.old }
    {
        if self.line.as_slice() == b"sat".as_slice() {
            self.sat += 1;
            self.before = self.last;
            self.last = true;
        } else if self.line.as_slice() == b"unsat".as_slice() {
            self.unsat += 1;
            self.before = self.last;
            self.last = false;
        } else if self.line.as_slice() == b"unknown".as_slice() {
            self.unknown += 1;
            self.before = self.last;
            self.last = false;
        }
        self.line.clear();
    }

    /// Takes the next byte.
    fn take(&mut self, byte: u8) -> Result<(), AllocError>
        requires { checks_in self.old < 18446744073709551615 }
        ensures { OnOk result (self.new ≡ behind self.old byte) }
    {
        if byte == b'\n' {
            self.end_line();
            return Ok(());
        }
        self.line.push(byte)
    }
}

/// Counts what was answered.
fn count(alloc: Global, responses: &[u8]) -> Result<Counts, AllocError>
    ensures counted { IfOk result (λ c. c ≡ tally_of responses.now) }
    ensures few { IfOk result (λ c. checks_in c ≤ length responses.now) }
{
    let mut counts = Counts {
        line: Text::new(alloc),
        sat: 0,
        unsat: 0,
        unknown: 0,
        last: false,
        before: false,
    };
    'bytes: for byte in responses {
        counts.take(*byte)?;
    }
    Ok(counts)
}

/// The state after so many draws.
fn state_after(seed: u64, draws: u32) -> u64
    ensures { result ≡ state_after seed draws }
{
    let mut state = seed;
    'draws: for _ in 0..draws {
        state = next_state(state);
    }
    state
}

/// Appends the last word.
fn push_word(out: &mut Text, word: u64) -> Result<(), AllocError>
    ensures { OnOk result (out.new ≡ out.old ++ last_text true word) }
{
    out.push_slice(b"last #x")?;
    push_hexadecimal(out, 8, word)?;
    out.push_slice(b"\n")
}

/// Appends the last word, or that its first check was not `sat`.
fn push_last(out: &mut Text, known: bool, word: u64) -> Result<(), AllocError>
    ensures { OnOk result (out.new ≡ out.old ++ last_text known word) }
{
    if known {
        push_word(out, word)
    } else {
        out.push_slice(b"last none\n")
    }
}

/// Appends how many checks there were, and how they ended.
fn push_counts(out: &mut Text, counts: &Counts) -> Result<(), AllocError>
    requires { checks_in counts.now ≤ 18446744073709551615 }
    ensures { OnOk result (out.new ≡ out.old ++ counts_text counts.now) }
{
    let checks = counts.sat + counts.unsat + counts.unknown;
    push_around(out, b"checks ", checks, b"\n")?;
    push_around(out, b"sat ", counts.sat, b"\n")?;
    push_around(out, b"unsat ", counts.unsat, b"\n")?;
    push_around(out, b"unknown ", counts.unknown, b"\n")
}

/// The summary of the responses to the script of this seed and size.
pub fn summary(alloc: Global, seed: u64, size: u32, responses: &[u8]) -> Result<Text, AllocError>
    ensures { IfOk result (λ t. t ≡ summary_of seed size responses.now) }
{
    let counts = count(alloc, responses)?;
    let mut out = Text::new(alloc);
    push_counts(&mut out, &counts)?;
    push_last(&mut out, counts.before, drawn(state_after(seed, size)))?;
    Ok(out)
}
