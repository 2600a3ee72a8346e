// An input, read in pieces.

ghost use Rattle.std.specs.Prelude.{◌≡◌, ◌<◌, ◌≤◌, IfOk, IfErr, MatchResult, length, take};
ghost use Rattle.std.specs.Io.KnownBytes.{Consumes};
ghost use Rattle.smt_desk.specs.Meters.{room, counting};
ghost use Rattle.smt_check.specs.Runs.{HasCause, counts, ReadsPiece};

use crate::status::Status;
use smt_desk::meter::Meter;
use smt_desk::stream::Source;

/// How many bytes of one input are read.
pub const INPUT_LIMIT: u64 = 1 << 32;

/// Reads into the front of the buffer, no more bytes than the meter has left, or one where it has none, and counts them.
pub fn read_piece<S: Source>(
    script: &mut S,
    buffer: &mut [u8],
    meter: &mut Meter,
) -> Result<usize, Status>
    requires { 0 < length buffer.old }
    ensures within { IfOk result (λ n. n ≤ length buffer.new) }
    ensures bytes { IfOk result
        (λ n. Consumes (S.left script.old) (S.left script.new) (take n buffer.new)) }
    ensures read { ReadsPiece (room meter.old) (S.left script.old) (S.left script.new) result }
    ensures counted { MatchResult result (λ n. meter.new ≡ counting meter.old n)
        (λ _. meter.new ≡ meter.old) }
    ensures later { S.faults script.old ≤ S.faults script.new }
    ensures cause { IfErr result
        (HasCause (counts (S.faults script.old) 0 0) (counts (S.faults script.new) 0 0)) }
{
    let wanted = meter.left().max(1).min(buffer.len() as u64) as usize;
    match script.read(&mut buffer[..wanted]) {
        Ok(0) => Ok(0),
        Ok(size) => match meter.take(size) {
            Ok(()) => Ok(size),
            Err(_) => Err(Status::TooLong),
        },
        Err(_) => Err(Status::ReadFault),
    }
}
