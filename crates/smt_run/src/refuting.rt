// A check of a refutation, with its status.

ghost use Rattle.std.specs.Prelude.{◌≡◌, ◌≢◌};
ghost use Rattle.dimacs_run.specs.Endings.{IsFront, IsRightlyAccepted};
ghost use Rattle.smt_check.specs.Runs.{AddsTo, IsLater, counts};
ghost use Rattle.smt_check.specs.Checks.{ReadsForStatus, HasCheckCause, ToldOf};
ghost use Rattle.smt_run.specs.Commands.{IsEnd};
ghost use Rattle.smt_run.specs.Refuting.{IsEndOfRefutation, status_by, status_unread, status_of_failure};

use dimacs_run::failure::{Failure, Fault, Unread};
use dimacs_run::refuting::refute;
use smt_check::status::Status;
use smt_desk::stream::{Sink, Source};
use std::alloc::Global;

/// The status of a check that came to its end.
fn status_by(fault: Option<Fault>) -> Status
    ensures { result ≡ status_by fault }
{
    match fault {
        None => Status::Done,
        Some(_) => Status::Refused,
    }
}

/// The status of a check that did not read an input to its end.
pub(crate) fn status_unread(why: Unread) -> Status
    ensures { result ≡ status_unread why }
{
    match why {
        Unread::Failed => Status::ReadFault,
        Unread::TooLong => Status::TooLong,
    }
}

/// The status of a check that ended before.
fn status_of_failure(failure: Failure) -> Status
    ensures { result ≡ status_of_failure failure }
{
    match failure {
        Failure::Clauses(why) => status_unread(why),
        Failure::Refutation(why) => status_unread(why),
        Failure::Unwritten => Status::WriteFault,
        Failure::NoMemory => Status::NoMemory,
    }
}

/// Checks a refutation of clauses, and tells what was found.
pub(crate) fn check_refutation<S: Source, P: Source, W: Sink>(
    alloc: Global,
    clauses: &mut S,
    refutation: &mut P,
    answers: &mut W,
) -> Status
    ensures usage { result ≢ Status.Usage }
    ensures ended { IsEnd result → ToldOf (S.left clauses.old) (P.left refutation.old)
        (W.written answers.old) (W.written answers.new) (IsEndOfRefutation result) }
    ensures right { result ≡ Status.Done → ToldOf (S.left clauses.old) (P.left refutation.old)
        (W.written answers.old) (W.written answers.new) IsRightlyAccepted }
    ensures front { ToldOf (S.left clauses.old) (P.left refutation.old)
        (W.written answers.old) (W.written answers.new) IsFront }
    ensures read { ReadsForStatus (S.left clauses.old) (S.left clauses.new)
        (P.left refutation.old) (P.left refutation.new) result }
    ensures answers { AddsTo (W.written answers.old) (W.written answers.new) }
    ensures later { IsLater
        (counts (S.faults clauses.old) (W.faults answers.old) (P.faults refutation.old))
        (counts (S.faults clauses.new) (W.faults answers.new) (P.faults refutation.new)) }
    ensures cause { HasCheckCause
        (counts (S.faults clauses.old) (W.faults answers.old) (P.faults refutation.old))
        (counts (S.faults clauses.new) (W.faults answers.new) (P.faults refutation.new)) result }
{
    match refute(alloc, clauses, refutation, answers) {
        Ok(fault) => status_by(fault),
        Err(failure) => status_of_failure(failure),
    }
}
