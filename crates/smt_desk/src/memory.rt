// A source and a sink in memory, which fail at chosen calls.

ghost use Rattle.std.specs.Prelude.{◌≡◌, ◌<◌, ◌≤◌, true, false, [], min, length, take, drop, IfOk, OnErr, MatchBool};
ghost use Rattle.std.specs.Io.{ReadsAtMost};
ghost use Rattle.std.specs.Io.KnownBytes.{ReadConsumes, WriteAppends};
ghost use Rattle.smt_desk.specs.Faults.{HasCause};
ghost use Rattle.smt_desk.specs.Memory.{is_listed, fails};

use crate::stream::{Failed, Sink, Source};
use std::alloc::Global;
use std::marker::Model;

fn is_listed(failing: &[u64], call: u64) -> bool
    ensures { result ≡ is_listed failing.now call }
{
    failing.iter().any(|listed| *listed == call)
}

/// Whether the call of this number fails: it is listed, and the count of calls has not ended.
fn fails(failing: &[u64], call: u64) -> bool
    ensures { result ≡ fails failing.now call }
{
    call != u64::MAX && is_listed(failing, call)
}

/// Bytes in memory, given in pieces, with failures at chosen calls.
#[derive(Drop)]
pub struct MemSource<'a> {
    left: &'a [u8],
    piece: usize,
    failing: &'a [u64],
    calls: u64,
}

impl<'a> Model for MemSource<'a> {
    ghost use Rattle.std.specs.Prelude.{◌<◌, ◌≤◌};
    ghost use Rattle.smt_desk.specs.Memory.{Input, last_count};

    ghost Value = { Input };

    ghost view = { λ s.
        record { left = s.left.now; piece = s.piece; failing = s.failing.now; calls = s.calls } };

    ghost invariant = { λ s. (0 < s.piece) × (s.calls ≤ last_count) };
}

impl<'a> MemSource<'a> {
    /// Gives these bytes, at most `piece` of them a call, and fails at the calls listed in `failing`, counted from 0.
    pub fn new(bytes: &'a [u8], piece: usize, failing: &'a [u64]) -> MemSource<'a>
        requires { 0 < piece }
        ensures { result
            ≡ record { left = bytes.now; piece = piece; failing = failing.now; calls = 0 } }
    {
        MemSource {
            left: bytes,
            piece,
            failing,
            calls: 0,
        }
    }
}

impl<'a> Source for MemSource<'a> {
    ghost use Rattle.std.specs.Prelude.{Some};
    ghost use Rattle.smt_desk.specs.Memory.{input_faults, after_read};

    ghost left = { λ s. Some s.left };

    ghost faults = { input_faults };

    fn read(&mut self, buf: &mut [u8]) -> Result<usize, Failed>
        ensures bound { ReadsAtMost result buf.new }
        ensures bytes { ReadConsumes (Some self.old.left) (Some self.new.left) result buf.new }
        ensures cause { HasCause (input_faults self.old) (input_faults self.new) result }
        ensures ok { IfOk result (λ n. (fails self.old.failing self.old.calls ≡ false)
            × (n ≡ min (min self.old.piece (length buf.old)) (length self.old.left))
            × (self.new ≡ after_read self.old n)) }
        ensures err { OnErr result ((fails self.old.failing self.old.calls ≡ true)
            × (self.new ≡ after_read self.old 0)) }
    {
        let failing = fails(self.failing, self.calls);
        self.calls = self.calls.saturating_add(1);
        if failing {
            return Err(Failed);
        }
        let size = self.piece.min(buf.len()).min(self.left.len());
        let (front, rest) = self.left.split_at(size);
        buf[..size].copy_from_slice(front);
        self.left = rest;
        Ok(size)
    }
}

/// Bytes taken in pieces and kept in memory, with failures at chosen calls. Where memory is wanting a call fails too, and that is
/// counted apart: so a failure is told by `refused`.
#[derive(Drop)]
pub struct MemSink<'a> {
    written: Vec<u8>,
    piece: usize,
    failing: &'a [u64],
    calls: u64,
    refused: u64,
}

impl<'a> Model for MemSink<'a> {
    ghost use Rattle.std.specs.Prelude.{◌<◌, ◌≤◌};
    ghost use Rattle.smt_desk.specs.Memory.{Output, last_count};

    ghost Value = { Output };

    ghost view = { λ s.
        record {
          written = s.written.items;
          piece = s.piece;
          failing = s.failing.now;
          calls = s.calls;
          refused = s.refused;
        } };

    ghost invariant = { λ s. (0 < s.piece) × (s.calls ≤ last_count) × (s.refused ≤ last_count) };
}

impl<'a> MemSink<'a> {
    /// Takes at most `piece` bytes a call, and fails at the calls listed in `failing`, counted from 0.
    pub fn new(alloc: Global, piece: usize, failing: &'a [u64]) -> MemSink<'a>
        requires { 0 < piece }
        ensures { result
            ≡ record {
              written = [];
              piece = piece;
              failing = failing.now;
              calls = 0;
              refused = 0;
            } }
    {
        MemSink {
            written: Vec::new(alloc),
            piece,
            failing,
            calls: 0,
            refused: 0,
        }
    }

    /// The bytes that were written so far.
    pub fn bytes(&self) -> &[u8]
        ensures { result.now ≡ self.now.written }
    {
        self.written.as_slice()
    }

    /// How often a call failed for want of memory; all other failures are of calls that were listed.
    pub fn refused(&self) -> u64
        ensures { result ≡ self.now.refused }
    {
        self.refused
    }

    /// The bytes that were written, given away.
    pub fn into_bytes(self) -> Vec<u8>
        ensures { result.items ≡ self.entry.written }
    {
        self.written
    }
}

impl<'a> Sink for MemSink<'a> {
    ghost use Rattle.std.specs.Prelude.{Some};
    ghost use Rattle.smt_desk.specs.Memory.{output_faults, after_write, after_refusal};

    ghost written = { λ s. Some s.written };

    ghost faults = { output_faults };

    fn write(&mut self, piece: &[u8]) -> Result<usize, Failed>
        ensures bound { IfOk result (λ n. n ≤ length piece.now) }
        ensures progress { IfOk result (λ n. 0 < length piece.now → 0 < n) }
        ensures bytes { WriteAppends (Some self.old.written) (Some self.new.written) result
            piece.now }
        ensures cause { HasCause (output_faults self.old) (output_faults self.new) result }
        ensures ok { IfOk result (λ n. (fails self.old.failing self.old.calls ≡ false)
            × (n ≡ min self.old.piece (length piece.now))
            × (self.new ≡ after_write self.old n piece.now)) }
        // A call that is not listed fails for want of memory alone, and that is counted.
        ensures err { OnErr result (MatchBool (fails self.old.failing self.old.calls)
            (self.new ≡ after_write self.old 0 piece.now)
            (self.new ≡ after_refusal self.old)) }
    {
        let failing = fails(self.failing, self.calls);
        self.calls = self.calls.saturating_add(1);
        if failing {
            return Err(Failed);
        }
        let size = self.piece.min(piece.len());
        match self.written.extend_from_slice(&piece[..size]) {
            Ok(()) => Ok(size),
            Err(_) => {
                self.refused = self.refused.saturating_add(1);
                Err(Failed)
            }
        }
    }
}
