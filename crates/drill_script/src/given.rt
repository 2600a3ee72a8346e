// A drawn script as a source.

ghost use Rattle.std.specs.Prelude.{◌≡◌, Some, length, IfOk};
ghost use Rattle.std.specs.Io.{ReadsAtMost};
ghost use Rattle.std.specs.Io.KnownBytes.{ReadConsumes};
ghost use Rattle.smt_desk.specs.Faults.{HasCause};

use smt_desk::stream::{Failed, Source};
use std::marker::Model;

/// Bytes that are read to their end: no call fails.
#[derive(Drop)]
pub struct Given<'a> {
    left: &'a [u8],
}

impl<'a> Model for Given<'a> {
    ghost use Rattle.std.specs.Prelude.{ℕ, List};

    ghost Value = { List ℕ };

    ghost view = { λ s. s.left.now };
}

impl<'a> Given<'a> {
    /// Gives these bytes.
    pub fn new(bytes: &'a [u8]) -> Given<'a>
        ensures { result ≡ bytes.now }
    {
        Given { left: bytes }
    }
}

impl<'a> Source for Given<'a> {
    ghost use Rattle.std.specs.Prelude.{Some};

    ghost left = { λ s. Some s };

    ghost faults = { λ s. 0 };

    fn read(&mut self, buf: &mut [u8]) -> Result<usize, Failed>
        ensures bound { ReadsAtMost result buf.new }
        ensures bytes { ReadConsumes (Some self.old) (Some self.new) result buf.new }
        ensures cause { HasCause 0 0 result }
    {
        let size = buf.len().min(self.left.len());
        let (front, rest) = self.left.split_at(size);
        buf[..size].copy_from_slice(front);
        self.left = rest;
        Ok(size)
    }
}
