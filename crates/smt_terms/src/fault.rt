// Why a node is refused.

use std::alloc::{AllocError, AllocFailed};

/// The first fault of a node, in this order.
#[derive(Clone, Copy, Debug, PartialEq, Eq)]
pub enum MakeFault {
    /// The first argument that is missing, one too many, the number of no held term, or of a sort that the operator does
    /// not take after those before it; 0 also for a literal that its width does not hold, and for an `extract` past its word.
    WrongSort(u64),
    /// The width of the result, which is not 1 to 128.
    WidthOutOfRange(u128),
    /// The node is new, and as many terms are held as may be.
    TermLimit,
}

/// Why no number was given.
#[derive(Clone, Copy, Debug, PartialEq, Eq)]
pub enum MakeError {
    NoMemory,
    Fault(MakeFault),
}

impl From<MakeFault> for MakeError {
    ghost use Rattle.std.specs.Prelude.{◌≡◌};
    ghost use Rattle.smt_terms.specs.declared.fault.MakeError.TheVariants.{Fault};

    ghost from_gives = { λ f e. e ≡ Fault f };

    fn from(fault: MakeFault) -> MakeError {
        MakeError::Fault(fault)
    }
}

impl From<AllocError> for MakeError {
    ghost use Rattle.std.specs.Prelude.{◌≡◌};
    ghost use Rattle.smt_terms.specs.declared.fault.MakeError.TheVariants.{NoMemory};

    ghost from_gives = { λ _ e. e ≡ NoMemory };

    fn from(_error: AllocError) -> MakeError {
        MakeError::NoMemory
    }
}

impl<T: Drop> From<AllocFailed<T>> for MakeError {
    ghost use Rattle.std.specs.Prelude.{◌≡◌};
    ghost use Rattle.smt_terms.specs.declared.fault.MakeError.TheVariants.{NoMemory};

    ghost from_gives = { λ _ e. e ≡ NoMemory };

    fn from(_error: AllocFailed<T>) -> MakeError {
        MakeError::NoMemory
    }
}
