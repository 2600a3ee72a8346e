//! Answers to commands, and verdicts of checks.

use crate::error_text::ErrorText;
use plain_list::List;
use smt_terms::node::TermId;
use smt_text::text::Text;

/// A term that a command asks for, with its text as the command has it.
#[derive(Debug, Drop)]
pub struct Asked {
    pub term: TermId,
    pub text: Text,
}

/// Terms that a command asks for, in order.
pub type AskedTerms = List<Asked>;

/// What a command comes to.
#[derive(Debug, Drop)]
pub enum Answer {
    /// It is done.
    Done,
    /// It is refused, and the state is as before.
    Refused(ErrorText),
    /// The live assertions are to be checked.
    Check,
    /// A line is said, and nothing else is done.
    Says(Text),
    /// The model of the check that stands is to be printed.
    Model,
    /// The values of these terms in the model of the check that stands are to be printed; then the terms are forgotten.
    Values(AskedTerms),
    /// The names of the assertions on which the refutation of the check that stands rests are to be printed.
    Core,
    /// The assumptions on which the refutation of the check that stands rests are to be printed.
    Assumptions,
    /// It is done, and the run ends.
    Exit,
}

/// What a check found.
#[derive(Clone, Copy, Debug, PartialEq, Eq)]
pub enum Verdict {
    Sat,
    Unsat,
    Unknown,
}
