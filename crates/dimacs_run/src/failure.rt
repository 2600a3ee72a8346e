// What ends a run.

use dimacs_front::cnf::CnfFault;
use dimacs_front::lrat::LratFault;

/// The first fault of a text of clauses and a refutation of them.
#[derive(Clone, Copy, Debug, PartialEq, Eq)]
pub enum Fault {
    /// The text of the clauses has it.
    Clauses(CnfFault),
    /// The clauses can be read, and the refutation has it.
    Refutation(LratFault),
}

/// Why an input is not read to its end.
#[derive(Clone, Copy, Debug, PartialEq, Eq)]
pub enum Unread {
    /// A read failed.
    Failed,
    /// It is longer than 2^32 bytes.
    TooLong,
}

/// Why a run ends before it tells all.
#[derive(Clone, Copy, Debug, PartialEq, Eq)]
pub enum Failure {
    /// The clauses are not read to their end.
    Clauses(Unread),
    /// The refutation is not read to its end.
    Refutation(Unread),
    /// A write failed; a front of the line was written.
    Unwritten,
    NoMemory,
}

/// Why a search of clauses ends before it tells what it found.
#[derive(Clone, Copy, Debug, PartialEq, Eq)]
pub enum SearchFailure {
    /// The clauses are not read to their end.
    Clauses(Unread),
    /// A write of the refutation failed.
    Refutation,
    /// A write of the answers failed; a front of the answer was written.
    Answers,
    NoMemory,
}

/// Why the reading of one input ends before the input does.
#[derive(Clone, Copy, Debug)]
pub(crate) enum Halt<F> {
    Fault(F),
    Unread(Unread),
    NoMemory,
}
