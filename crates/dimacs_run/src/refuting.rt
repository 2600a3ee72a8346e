// Clauses and a refutation of them, read and judged.

ghost use Rattle.std.specs.Prelude.{◌≡◌, ◌<◌, ◌≤◌, Ok, None, IfOk, IfErr, IfSome, length};
ghost use Rattle.dimacs_run.specs.Reads.{AddsTo, end_in_clauses, end_in_refutation, ReadsBoth, IsLater, HasCause, counts};
ghost use Rattle.dimacs_run.specs.Endings.{first_fault, ToldOf, IsEnd, IsFront, IsRightlyAccepted};

use crate::failure::{Failure, Fault, Halt};
use crate::reading::{check_refutation, piece_buffer, read_clauses};
use crate::telling::ending_line;
use dimacs_front::cnf::CnfFault;
use dimacs_front::lrat::{LratFault, refutations_are_right};
use smt_desk::stream::{Sink, Source, write_whole};
use std::alloc::Global;

/// What is judged where the reading of the clauses ends before they do.
fn end_in_clauses(halt: Halt<CnfFault>) -> Result<Option<Fault>, Failure>
    ensures { result ≡ end_in_clauses halt }
{
    match halt {
        Halt::Fault(fault) => Ok(Some(Fault::Clauses(fault))),
        Halt::Unread(why) => Err(Failure::Clauses(why)),
        Halt::NoMemory => Err(Failure::NoMemory),
    }
}

/// What is judged where the reading of the refutation ends before it does.
fn end_in_refutation(halt: Halt<LratFault>) -> Result<Option<Fault>, Failure>
    ensures { result ≡ end_in_refutation halt }
{
    match halt {
        Halt::Fault(fault) => Ok(Some(Fault::Refutation(fault))),
        Halt::Unread(why) => Err(Failure::Refutation(why)),
        Halt::NoMemory => Err(Failure::NoMemory),
    }
}

/// The first fault of both texts, which are read into the buffer piece by piece, the clauses first.
/// Where they have a fault the refutation is not read.
fn judge<S: Source, P: Source>(
    alloc: Global,
    buffer: &mut [u8],
    clauses: &mut S,
    refutation: &mut P,
) -> Result<Option<Fault>, Failure>
    requires { 0 < length buffer.old }
    ensures judged { IfOk result
        (λ o. IfSome (S.left clauses.old)
        (λ text. IfSome (P.left refutation.old) (λ lines. first_fault text lines ≡ o))) }
    ensures read { ReadsBoth (S.left clauses.old) (S.left clauses.new) (P.left refutation.old)
        (P.left refutation.new) result }
    ensures clauses_later { S.faults clauses.old ≤ S.faults clauses.new }
    ensures refutation_later { P.faults refutation.old ≤ P.faults refutation.new }
    ensures cause { IfErr result
        (HasCause (counts (S.faults clauses.old) 0 (P.faults refutation.old))
        (counts (S.faults clauses.new) 0 (P.faults refutation.new))) }
{
    let cnf = match read_clauses(alloc, buffer, clauses) {
        Ok(cnf) => cnf,
        Err(halt) => return end_in_clauses(halt),
    };
    match check_refutation(alloc, buffer, cnf, refutation) {
        Ok(()) => Ok(None),
        Err(halt) => end_in_refutation(halt),
    }
}

/// Reads clauses and then a refutation of them, and tells in one line that it is accepted, or the
/// first fault of the two texts, which is given too. Nothing is told before all is judged.
pub fn refute<S: Source, P: Source, W: Sink>(
    alloc: Global,
    clauses: &mut S,
    refutation: &mut P,
    answers: &mut W,
) -> Result<Option<Fault>, Failure>
    // At the end the first fault of both texts is given and told, or that there is none.
    ensures ended { IfOk result
        (λ o. ToldOf (S.left clauses.old) (P.left refutation.old) (W.written answers.old)
        (W.written answers.new) (IsEnd o)) }
    // What is accepted is right: no assignment makes all the clauses true.
    ensures right { result ≡ Ok None
        → ToldOf (S.left clauses.old) (P.left refutation.old) (W.written answers.old)
        (W.written answers.new) IsRightlyAccepted }
    // Before a failure a front of that line was told.
    ensures front { ToldOf (S.left clauses.old) (P.left refutation.old) (W.written answers.old)
        (W.written answers.new) IsFront }
    ensures answers { AddsTo (W.written answers.old) (W.written answers.new) }
    // Of each input 2^32 bytes are read, and one more where it is too long.
    ensures read { ReadsBoth (S.left clauses.old) (S.left clauses.new) (P.left refutation.old)
        (P.left refutation.new) result }
    // A failure is answered only where a count rose.
    ensures later { IsLater
        (counts (S.faults clauses.old) (W.faults answers.old) (P.faults refutation.old))
        (counts (S.faults clauses.new) (W.faults answers.new) (P.faults refutation.new)) }
    ensures cause { IfErr result
        (HasCause (counts (S.faults clauses.old) (W.faults answers.old) (P.faults refutation.old))
        (counts (S.faults clauses.new) (W.faults answers.new) (P.faults refutation.new))) }
{
    refutations_are_right();
    let mut buffer = match piece_buffer(alloc) {
        Ok(buffer) => buffer,
        Err(_) => return Err(Failure::NoMemory),
    };
    let fault = match judge(alloc, &mut buffer, clauses, refutation) {
        Ok(fault) => fault,
        Err(failure) => return Err(failure),
    };
    let line = match ending_line(alloc, fault) {
        Ok(line) => line,
        Err(_) => return Err(Failure::NoMemory),
    };
    match write_whole(answers, line.as_slice()) {
        Ok(()) => Ok(fault),
        Err(_) => Err(Failure::Unwritten),
    }
}
