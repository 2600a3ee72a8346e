// An input, read in pieces.

ghost use Rattle.std.specs.Prelude.{◌≡◌, ◌<◌, ◌≤◌, ℕ, List, Ok, IfOk, IfErr, IfSome, MatchResult, length, take};
ghost use Rattle.std.specs.Io.KnownBytes.{Consumes};
ghost use Rattle.smt_desk.specs.Faults.{Rose};
ghost use Rattle.smt_desk.specs.Meters.{room, counting};
ghost use Rattle.dimacs_front.specs.Cnf.{cnf_of};
ghost use Rattle.dimacs_front.specs.Lrat.{lrat_of};
ghost use Rattle.dimacs_run.specs.Reads.{ReadsPiece, ReadsWithin, ReadsToHalt, HaltsAt, halt_of, IsFailed};

use crate::failure::{Halt, Unread};
use dimacs_front::cnf::{Cnf, CnfFault, CnfReader};
use dimacs_front::lrat::{LratChecker, LratFault};
use dimacs_front::stop::Stop;
use smt_desk::meter::Meter;
use smt_desk::stream::Source;
use std::alloc::{AllocError, Global};

/// How many bytes of one input are read.
const INPUT_LIMIT: u64 = 1 << 32;

/// How many bytes are asked for at most in one read.
const PIECE: usize = 1 << 16;

/// Room for one read.
pub(crate) fn piece_buffer(alloc: Global) -> Result<Vec<u8>, AllocError>
    ensures { IfOk result (λ v. 0 < length v.items) }
{
    vec![in alloc; 0u8; PIECE]
}

/// Reads into the front of the buffer, no more bytes than the meter has left, or one where it has none, and counts them.
fn read_piece<S: Source>(
    source: &mut S,
    buffer: &mut [u8],
    meter: &mut Meter,
) -> Result<usize, Unread>
    requires { 0 < length buffer.old }
    ensures within { IfOk result (λ n. n ≤ length buffer.new) }
    ensures bytes { IfOk result
        (λ n. Consumes (S.left source.old) (S.left source.new) (take n buffer.new)) }
    ensures read { ReadsPiece (room meter.old) (S.left source.old) (S.left source.new) result }
    ensures counted { MatchResult result (λ n. meter.new ≡ counting meter.old n)
        (λ _. meter.new ≡ meter.old) }
    ensures later { S.faults source.old ≤ S.faults source.new }
    ensures cause { IfErr result
        (λ u. u ≡ Unread.Failed → Rose (S.faults source.old) (S.faults source.new)) }
{
    let wanted = meter.left().max(1).min(buffer.len() as u64) as usize;
    match source.read(&mut buffer[..wanted]) {
        Ok(0) => Ok(0),
        Ok(size) => match meter.take(size) {
            Ok(()) => Ok(size),
            Err(_) => Err(Unread::TooLong),
        },
        Err(_) => Err(Unread::Failed),
    }
}

/// Why the reading of an input ends, where that of its text stops.
fn halted<F>(stop: Stop<F>) -> Halt<F>
    ensures { result ≡ halt_of stop }
{
    match stop {
        Stop::Fault(fault) => Halt::Fault(fault),
        Stop::NoMemory => Halt::NoMemory,
    }
}

/// The clauses of a text, which is read into the buffer piece by piece.
pub(crate) fn read_clauses<S: Source>(
    alloc: Global,
    buffer: &mut [u8],
    source: &mut S,
) -> Result<Cnf, Halt<CnfFault>>
    requires { 0 < length buffer.old }
    ensures judged { IfSome (S.left source.old) (λ text.
        MatchResult result (λ cnf. cnf_of text ≡ Ok cnf) (HaltsAt (cnf_of text))) }
    // Also where what is left is not known, a text has these clauses.
    ensures from_text { IfOk result (λ cnf. (text : List ℕ) × (cnf_of text ≡ Ok cnf)) }
    ensures read { MatchResult result
        (λ _. ReadsWithin (S.left source.old) (S.left source.new))
        (ReadsToHalt (S.left source.old) (S.left source.new)) }
    ensures later { S.faults source.old ≤ S.faults source.new }
    ensures cause { IfErr result
        (λ h. IsFailed h → Rose (S.faults source.old) (S.faults source.new)) }
{
    let mut reader = CnfReader::new(alloc);
    let mut meter = Meter::new(INPUT_LIMIT);
    'pieces: loop {
        let size = match read_piece(source, buffer, &mut meter) {
            Ok(size) => size,
            Err(why) => {
                drop(reader);
                return Err(Halt::Unread(why));
            }
        };
        if size == 0 {
            return match reader.finish() {
                Ok(cnf) => Ok(cnf),
                Err(stop) => Err(halted(stop)),
            };
        }
        match reader.feed(&buffer[..size]) {
            Ok(()) => {}
            Err(stop) => {
                let halt = halted(stop);
                drop(reader);
                return Err(halt);
            }
        }
    }
}

/// Checks a refutation of the clauses, which is read into the buffer piece by piece.
pub(crate) fn check_refutation<S: Source>(
    alloc: Global,
    buffer: &mut [u8],
    cnf: Cnf,
    source: &mut S,
) -> Result<(), Halt<LratFault>>
    requires { 0 < length buffer.old }
    ensures judged { IfSome (S.left source.old) (λ lines.
        MatchResult result (λ _. lrat_of cnf lines ≡ Ok tt) (HaltsAt (lrat_of cnf lines))) }
    ensures read { MatchResult result
        (λ _. ReadsWithin (S.left source.old) (S.left source.new))
        (ReadsToHalt (S.left source.old) (S.left source.new)) }
    ensures later { S.faults source.old ≤ S.faults source.new }
    ensures cause { IfErr result
        (λ h. IsFailed h → Rose (S.faults source.old) (S.faults source.new)) }
{
    let mut checker = match LratChecker::new(alloc, cnf) {
        Ok(checker) => checker,
        Err(_) => return Err(Halt::NoMemory),
    };
    let mut meter = Meter::new(INPUT_LIMIT);
    'pieces: loop {
        let size = match read_piece(source, buffer, &mut meter) {
            Ok(size) => size,
            Err(why) => {
                drop(checker);
                return Err(Halt::Unread(why));
            }
        };
        if size == 0 {
            let end = checker.finish();
            drop(checker);
            return match end {
                Ok(()) => Ok(()),
                Err(stop) => Err(halted(stop)),
            };
        }
        match checker.feed(&buffer[..size]) {
            Ok(()) => {}
            Err(stop) => {
                let halt = halted(stop);
                drop(checker);
                return Err(halt);
            }
        }
    }
}
