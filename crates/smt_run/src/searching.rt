// A search of clauses, with its status.

ghost use Rattle.std.specs.Prelude.{◌≡◌, ◌≢◌, ◌+◌, Ok, Err};
ghost use Rattle.smt_check.specs.Runs.{AddsTo, ReadsBytes, ReadsWithin, IsLater, HasCause, counts, input_limit};
ghost use Rattle.smt_run.specs.Searching.{IsSearched, status_found, status_unfound};

use crate::refuting::status_unread;
use dimacs_run::failure::SearchFailure;
use dimacs_run::finding::Finding;
use dimacs_run::solving::solve_clauses;
use smt_check::status::Status;
use smt_desk::stream::{Sink, Source};
use std::alloc::Global;

/// The status of a search that came to its end.
fn status_found(finding: &Finding) -> Status
    ensures { result ≡ status_found finding.now }
{
    match finding {
        Finding::Fault(_) => Status::Refused,
        Finding::Satisfiable(_) | Finding::Unsatisfiable => Status::Done,
    }
}

/// The status of a search that ended before.
fn status_unfound(failure: SearchFailure) -> Status
    ensures { result ≡ status_unfound failure }
{
    match failure {
        SearchFailure::Clauses(why) => status_unread(why),
        SearchFailure::Refutation | SearchFailure::Answers => Status::WriteFault,
        SearchFailure::NoMemory => Status::NoMemory,
    }
}

/// Searches clauses, and tells what was found.
pub(crate) fn search_clauses<S: Source, W: Sink, Q: Sink>(
    alloc: Global,
    clauses: &mut S,
    answers: &mut W,
    refutation: &mut Q,
) -> Status
    ensures usage { result ≢ Status.Usage }
    ensures searched { IsSearched result (S.left clauses.old) (W.written answers.old)
        (W.written answers.new) (Q.written refutation.old) (Q.written refutation.new) }
    ensures within { result ≢ Status.TooLong
        → ReadsWithin (S.left clauses.old) (S.left clauses.new) }
    ensures too_long { result ≡ Status.TooLong
        → ReadsBytes (input_limit + 1) (S.left clauses.old) (S.left clauses.new) }
    ensures answers { AddsTo (W.written answers.old) (W.written answers.new) }
    ensures refutation { AddsTo (Q.written refutation.old) (Q.written refutation.new) }
    ensures later { IsLater
        (counts (S.faults clauses.old) (W.faults answers.old) (Q.faults refutation.old))
        (counts (S.faults clauses.new) (W.faults answers.new) (Q.faults refutation.new)) }
    ensures cause { HasCause
        (counts (S.faults clauses.old) (W.faults answers.old) (Q.faults refutation.old))
        (counts (S.faults clauses.new) (W.faults answers.new) (Q.faults refutation.new)) result }
{
    match solve_clauses(alloc, clauses, refutation, answers) {
        Ok(finding) => status_found(&finding),
        Err(failure) => status_unfound(failure),
    }
}
