// What every source and every sink of bytes promises.

ghost use Rattle.std.specs.Prelude.{◌≡◌, ◌<◌, ◌≤◌, ℕ, List, Option, IfOk, MatchResult, length, take};
ghost use Rattle.std.specs.Io.{ReadsAtMost};
ghost use Rattle.std.specs.Io.KnownBytes.{Appends, ReadConsumes, WriteAppends};
ghost use Rattle.smt_desk.specs.Faults.{HasCause};

/// A read or a write failed. What was the matter is not kept: the count of faults shows that something was.
#[derive(Clone, Copy, Debug, PartialEq, Eq)]
pub struct Failed;

/// Bytes that are read from the front.
pub trait Source {
    /// The bytes still to come, where that is told.
    ghost left: { Self → Option (List ℕ) };

    /// How often reading failed so far.
    ghost faults: { Self → ℕ };

    /// Reads into the front of `buf` and gives the number of bytes; 0 with room in `buf` only at the end of input.
    fn read(&mut self, buf: &mut [u8]) -> Result<usize, Failed>
        ensures bound { ReadsAtMost result buf.new }
        // What was told is consumed from its front, and with room for more only an end gives nothing.
        ensures bytes { ReadConsumes (left self.old) (left self.new) result buf.new }
        ensures cause { HasCause (faults self.old) (faults self.new) result };
}

/// Bytes that are written at the end.
pub trait Sink {
    /// The bytes so far, where that is told.
    ghost written: { Self → Option (List ℕ) };

    /// How often writing failed so far.
    ghost faults: { Self → ℕ };

    /// Takes bytes from the front of `piece` and gives their number, at least 1 where there is one.
    fn write(&mut self, piece: &[u8]) -> Result<usize, Failed>
        ensures bound { IfOk result (λ n. n ≤ length piece.now) }
        ensures progress { IfOk result (λ n. 0 < length piece.now → 0 < n) }
        ensures bytes { WriteAppends (written self.old) (written self.new) result piece.now }
        ensures cause { HasCause (faults self.old) (faults self.new) result };
}

/// Writes all the bytes, in as many pieces as the sink takes. After a failure it has taken a front of them.
pub fn write_whole<K: Sink>(sink: &mut K, bytes: &[u8]) -> Result<(), Failed>
    ensures bytes { MatchResult result
        (λ _. Appends (K.written sink.old) (K.written sink.new) bytes.now)
        (λ _. (n : ℕ) × (n < length bytes.now)
        × Appends (K.written sink.old) (K.written sink.new) (take n bytes.now)) }
    ensures cause { HasCause (K.faults sink.old) (K.faults sink.new) result }
{
    let mut at = 0;
    while at < bytes.len() {
        at += sink.write(&bytes[at..])?;
    }
    Ok(())
}
