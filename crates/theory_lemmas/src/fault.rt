// Why a lemma has no clause.

use smt_terms::node::TermId;
use std::alloc::{AllocError, AllocFailed};

/// The first fault of a lemma.
#[derive(Clone, Copy, Debug, PartialEq, Eq)]
pub enum LemmaFault {
    /// Its terms, paths or bits are not those of a lemma.
    Shape,
    /// The equality of these terms, the lower first, has no variable yet, and those before it in the clause have.
    NoEqual(TermId, TermId),
}

/// No memory, or a fault.
#[derive(Clone, Copy, Debug)]
pub enum LemmaError {
    NoMemory,
    Fault(LemmaFault),
}

impl From<LemmaFault> for LemmaError {
    ghost use Rattle.std.specs.Prelude.{◌≡◌};
    ghost use Rattle.theory_lemmas.specs.declared.fault.LemmaError.TheVariants.{Fault};

    ghost from_gives = { λ f e. e ≡ Fault f };

    fn from(fault: LemmaFault) -> LemmaError {
        LemmaError::Fault(fault)
    }
}

impl From<AllocError> for LemmaError {
    ghost use Rattle.std.specs.Prelude.{◌≡◌};
    ghost use Rattle.theory_lemmas.specs.declared.fault.LemmaError.TheVariants.{NoMemory};

    ghost from_gives = { λ _ e. e ≡ NoMemory };

    fn from(_error: AllocError) -> LemmaError {
        LemmaError::NoMemory
    }
}

impl<T: Drop> From<AllocFailed<T>> for LemmaError {
    ghost use Rattle.std.specs.Prelude.{◌≡◌};
    ghost use Rattle.theory_lemmas.specs.declared.fault.LemmaError.TheVariants.{NoMemory};

    ghost from_gives = { λ _ e. e ≡ NoMemory };

    fn from(_error: AllocFailed<T>) -> LemmaError {
        LemmaError::NoMemory
    }
}
