// Clauses, read and searched.

ghost use Rattle.std.specs.Prelude.{◌≡◌, ◌<◌, ◌≤◌, IfOk, IfErr, length};
ghost use Rattle.dimacs_run.specs.Reads.{AddsTo, IsLater, counts};
ghost use Rattle.dimacs_run.specs.Findings.{found_in_clauses, failure_in_search, IsFound, WroteOf, Answered, ReadsClauses, HasSearchCause};

use crate::failure::{Halt, SearchFailure};
use crate::finding::Finding;
use crate::reading::{piece_buffer, read_clauses};
use crate::telling::finding_text;
use dimacs_front::cnf::CnfFault;
use dimacs_front::lrat::refutations_are_right;
use dimacs_search::outcome::{Failure, Outcome};
use dimacs_search::solving::{read_clauses_have_their_variables, solve};
use smt_desk::stream::{Sink, Source, write_whole};
use std::alloc::Global;

/// What is found where the reading of the clauses ends before they do.
fn found_in_clauses(halt: Halt<CnfFault>) -> Result<Finding, SearchFailure>
    ensures { result ≡ found_in_clauses halt }
{
    match halt {
        Halt::Fault(fault) => Ok(Finding::Fault(fault)),
        Halt::Unread(why) => Err(SearchFailure::Clauses(why)),
        Halt::NoMemory => Err(SearchFailure::NoMemory),
    }
}

/// Why a search ends, where it failed.
fn failure_in_search(failure: Failure) -> SearchFailure
    ensures { result ≡ failure_in_search failure }
{
    match failure {
        Failure::Unwritten => SearchFailure::Refutation,
        Failure::NoMemory => SearchFailure::NoMemory,
    }
}

/// What is found of the clauses, which are read into the buffer piece by piece. Where none make
/// them all true, a refutation is written to its end.
fn find<S: Source, P: Sink>(
    alloc: Global,
    buffer: &mut [u8],
    clauses: &mut S,
    refutation: &mut P,
) -> Result<Finding, SearchFailure>
    requires { 0 < length buffer.old }
    ensures found { IfOk result (λ x. WroteOf (S.left clauses.old) (P.written refutation.old)
        (P.written refutation.new) (IsFound x)) }
    ensures added { AddsTo (P.written refutation.old) (P.written refutation.new) }
    ensures read { ReadsClauses (S.left clauses.old) (S.left clauses.new) result }
    ensures clauses_later { S.faults clauses.old ≤ S.faults clauses.new }
    ensures refutation_later { P.faults refutation.old ≤ P.faults refutation.new }
    ensures cause { IfErr result
        (HasSearchCause (counts (S.faults clauses.old) 0 (P.faults refutation.old))
        (counts (S.faults clauses.new) 0 (P.faults refutation.new))) }
{
    read_clauses_have_their_variables();
    refutations_are_right();
    let cnf = match read_clauses(alloc, buffer, clauses) {
        Ok(cnf) => cnf,
        Err(halt) => return found_in_clauses(halt),
    };
    match solve(alloc, cnf, refutation) {
        Ok(Outcome::Satisfiable(values)) => Ok(Finding::Satisfiable(values)),
        Ok(Outcome::Unsatisfiable) => Ok(Finding::Unsatisfiable),
        Err(failure) => Err(failure_in_search(failure)),
    }
}

/// Reads clauses and searches them, and tells their first fault, values under which each of them is
/// true, or that there are none, behind a whole refutation by LRAT. What was found is given too.
/// There is no budget: one of these is found, where memory lasts and nothing fails.
pub fn solve_clauses<S: Source, P: Sink, W: Sink>(
    alloc: Global,
    clauses: &mut S,
    refutation: &mut P,
    answers: &mut W,
) -> Result<Finding, SearchFailure>
    // What is given is right of the text and of what was written as a refutation, and it is told.
    // Before a failure nothing is told, but a front of the answer where its own write failed.
    ensures answered { Answered (S.left clauses.old) (P.written refutation.old)
        (P.written refutation.new) (W.written answers.old) (W.written answers.new) result }
    ensures added { AddsTo (P.written refutation.old) (P.written refutation.new) }
    // Of the clauses 2^32 bytes are read, and one more where they are too long.
    ensures read { ReadsClauses (S.left clauses.old) (S.left clauses.new) result }
    // A failure is answered only where a count rose.
    ensures later { IsLater
        (counts (S.faults clauses.old) (W.faults answers.old) (P.faults refutation.old))
        (counts (S.faults clauses.new) (W.faults answers.new) (P.faults refutation.new)) }
    ensures cause { IfErr result
        (HasSearchCause
        (counts (S.faults clauses.old) (W.faults answers.old) (P.faults refutation.old))
        (counts (S.faults clauses.new) (W.faults answers.new) (P.faults refutation.new))) }
{
    let mut buffer = match piece_buffer(alloc) {
        Ok(buffer) => buffer,
        Err(_) => return Err(SearchFailure::NoMemory),
    };
    let finding = match find(alloc, &mut buffer, clauses, refutation) {
        Ok(finding) => finding,
        Err(failure) => return Err(failure),
    };
    let text = match finding_text(alloc, &finding) {
        Ok(text) => text,
        Err(_) => return Err(SearchFailure::NoMemory),
    };
    match write_whole(answers, text.as_slice()) {
        Ok(()) => Ok(finding),
        Err(_) => Err(SearchFailure::Answers),
    }
}
