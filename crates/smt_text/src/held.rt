// Bytes that were fed and not yet given.

ghost use Rattle.std.specs.Prelude.{◌≡◌, ◌+◌, ◌<◌, ◌≤◌, ◌^◌, ◌++◌, [], length, drop, OnOk, OnErr};

use std::alloc::{AllocError, Global};
use std::marker::Model;

/// Lines are counted below this number.
const LINES: u64 = 1 << 63;

/// Bytes that were fed and not yet given, with the line of the first of them, counted from 1.
#[derive(Drop)]
pub struct HeldBytes {
    line: u64,
    buffer: Vec<u8>,
    /// How many bytes at the front of the buffer were given.
    given: usize,
}

impl Model for HeldBytes {
    ghost use Rattle.std.specs.Prelude.{◌<◌, ◌≤◌, ◌+◌, ◌^◌, length, drop};
    ghost use Rattle.smt_text.specs.Framing.{Held};

    ghost Value = { Held };

    ghost view = { λ h. record { line = h.line; bytes = drop h.given h.buffer.items } };

    ghost invariant = { λ h. (h.given ≤ length h.buffer.items)
        × (h.line + length (drop h.given h.buffer.items) < 2 ^ 63) };
}

/// Drops bytes from the front.
fn drop_front(buffer: &mut Vec<u8>, size: usize)
    requires { size ≤ length buffer.old.items }
    ensures { buffer.new.items ≡ drop size buffer.old.items }
{
    let rest = buffer.len() - size;
    buffer.copy_within(size.., 0);
    buffer.truncate(rest);
}

impl HeldBytes {
    /// Nothing was fed yet.
    pub fn new(alloc: Global) -> HeldBytes
        ensures { result ≡ record { line = 1; bytes = [] } }
    {
        HeldBytes {
            line: 1,
            buffer: Vec::new(alloc),
            given: 0,
        }
    }

    /// The line of the first byte.
    pub fn line(&self) -> u64
        ensures { result ≡ self.now.line }
    {
        self.line
    }

    /// The bytes.
    pub fn bytes(&self) -> &[u8]
        ensures bytes { result.now ≡ self.now.bytes }
        ensures small { self.now.line + length self.now.bytes < 2 ^ 63 }
    {
        &self.buffer[self.given..]
    }

    /// Takes more bytes. Want of memory is also the answer where their lines could not be counted.
    pub fn feed(&mut self, piece: &[u8]) -> Result<(), AllocError>
        ensures line { self.new.line ≡ self.old.line }
        ensures ok { OnOk result (self.new.bytes ≡ self.old.bytes ++ piece.now) }
        ensures err { OnErr result (self.new ≡ self.old) }
    {
        let held = (self.buffer.len() - self.given) as u64;
        if piece.len() as u64 >= LINES - (self.line + held) {
            return Err(AllocError);
        }
        self.forget_given();
        self.buffer.extend_from_slice(piece)
    }

    /// Takes what was given out of the buffer once it is half of it, so that each byte is moved at most once on average.
    fn forget_given(&mut self)
        ensures { self.new ≡ self.old }
    {
        if self.given >= self.buffer.len() - self.given {
            drop_front(&mut self.buffer, self.given);
            self.given = 0;
        }
    }

    /// Gives bytes of the front away; behind them stands this line.
    pub fn give(&mut self, size: usize, line: u64)
        requires size { size ≤ length self.old.bytes }
        requires line { line ≤ self.old.line + size }
        ensures { self.new ≡ record { line = line; bytes = drop size self.old.bytes } }
    {
        self.line = line;
        self.given += size;
    }
}
