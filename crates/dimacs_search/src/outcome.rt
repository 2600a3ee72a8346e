// How a search ends.

use std::alloc::AllocError;

/// What is known of some clauses.
#[derive(Debug, Drop)]
pub enum Outcome {
    /// Under these values, that of variable 1 first, each clause is true.
    Satisfiable(Vec<bool>),
    /// No values do that, and a refutation was written.
    Unsatisfiable,
}

/// Why a search ends before that is known.
#[derive(Clone, Copy, Debug, PartialEq, Eq)]
pub enum Failure {
    /// A write failed.
    Unwritten,
    NoMemory,
}

impl From<AllocError> for Failure {
    ghost use Rattle.std.specs.Prelude.{◌≡◌};
    ghost use Rattle.dimacs_search.specs.declared.outcome.Failure.TheVariants.{NoMemory};

    ghost from_gives = { λ _ f. f ≡ NoMemory };

    fn from(_error: AllocError) -> Failure {
        Failure::NoMemory
    }
}
