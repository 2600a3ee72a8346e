// A proof file, fed in pieces and given back in lines.

ghost use Rattle.std.specs.Prelude.{◌≡◌, ◌≢◌, ◌+◌, ◌<◌, ◌≤◌, ◌++◌, ℕ, [], true, length, take, drop, slice_index, List, IfOk, OnErr, OnOk, MatchOption};
ghost use Rattle.proof_text.specs.Held.{without_feed, Answers};

use crate::line::Line;
use crate::reading::line;
use smt_text::held::HeldBytes;
use std::alloc::{AllocError, Global};
use std::marker::Model;

/// A line that is no line of a proof file, or has no line feed: its number, counted from 1.
#[derive(Clone, Copy, Debug, PartialEq, Eq)]
pub struct LineFault {
    pub line: u64,
}

/// Gives the lines of a proof file, in whatever pieces it is fed.
#[derive(Drop)]
pub struct ProofReader {
    alloc: Global,
    /// The bytes, with the number of the next line.
    held: HeldBytes,
    /// How many of the bytes have no line feed.
    searched: usize,
}

impl Model for ProofReader {
    ghost use Rattle.std.specs.Prelude.{◌≡◌, ◌≤◌, true, length, take};
    ghost use Rattle.smt_text.specs.Framing.{Held};
    ghost use Rattle.proof_text.specs.Held.{without_feed};

    ghost Value = { Held };

    ghost view = { λ r. r.held };

    ghost invariant = { λ r. (r.searched ≤ length r.held.bytes)
        × (without_feed (take r.searched r.held.bytes) ≡ true) };
}

/// How many bytes stand before the first line feed, of which the first `searched` are known to be none.
fn find_feed(bytes: &[u8], searched: usize) -> Option<usize>
    requires within { searched ≤ length bytes.now }
    requires searched { without_feed (take searched bytes.now) ≡ true }
    ensures { MatchOption result (without_feed bytes.now ≡ true)
        (λ n. (n < length bytes.now) × (slice_index bytes.now n ≡ 10)
        × (without_feed (take n bytes.now) ≡ true)) }
{
    let mut size = searched;
    while size < bytes.len() {
        if bytes[size] == b'\n' {
            return Some(size);
        }
        size += 1;
    }
    None
}

/// The line of a text without its line feed, or its fault.
fn answer(alloc: Global, number: u64, text: &[u8]) -> Result<Result<Line, LineFault>, AllocError>
    ensures { IfOk result (λ r. Answers r number text.now) }
{
    match line(alloc, text)? {
        Some(line) => Ok(Ok(line)),
        None => Ok(Err(LineFault { line: number })),
    }
}

impl ProofReader {
    ghost use Rattle.proof_text.specs.Held.{IsNext};

    /// Nothing was fed yet.
    pub fn new(alloc: Global) -> ProofReader
        ensures { result ≡ record { line = 1; bytes = [] } }
    {
        ProofReader {
            alloc,
            held: HeldBytes::new(alloc),
            searched: 0,
        }
    }

    /// Takes the next piece of the file. Want of memory is also the answer where its lines could not be counted.
    pub fn feed(&mut self, piece: &[u8]) -> Result<(), AllocError>
        ensures line { self.new.line ≡ self.old.line }
        ensures ok { OnOk result (self.new.bytes ≡ self.old.bytes ++ piece.now) }
        ensures err { OnErr result (self.new ≡ self.old) }
    {
        self.held.feed(piece)
    }

    /// The next line, or its fault; `None` exactly where no whole line is held.
    pub fn next(&mut self) -> Result<Option<Result<Line, LineFault>>, AllocError>
        ensures ok { IfOk result (λ r. MatchOption r
            ((without_feed self.old.bytes ≡ true) × (self.new ≡ self.old))
            (λ answer. (text : List ℕ) × IsNext self.old text self.new
            × Answers answer self.old.line text)) }
        ensures err { OnErr result (self.new ≡ self.old) }
    {
        let rest = self.held.bytes();
        let Some(size) = find_feed(rest, self.searched) else {
            self.searched = rest.len();
            return Ok(None);
        };
        let line = self.held.line();
        let answer = answer(self.alloc, line, &rest[..size])?;
        self.held.give(size + 1, line + 1);
        self.searched = 0;
        Ok(Some(answer))
    }

    /// How many bytes were fed and not yet given as a line.
    pub fn held(&self) -> usize
        ensures { result ≡ length self.now.bytes }
    {
        self.held.bytes().len()
    }

    /// The fault of a last line without its line feed, once no whole line is held; `None` exactly where no byte is held.
    pub fn finish(&self) -> Option<LineFault>
        ensures { MatchOption result (self.now.bytes ≡ []) (λ f. (f.line ≡ self.now.line)
            × (self.now.bytes ≢ [])) }
    {
        if self.held.bytes().is_empty() {
            return None;
        }
        Some(LineFault {
            line: self.held.line(),
        })
    }
}
