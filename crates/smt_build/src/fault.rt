// Why a text has no meaning.

use std::alloc::{AllocError, AllocFailed};

/// The first fault of a declaration or a term.
#[derive(Clone, Copy, Debug, PartialEq, Eq)]
pub enum BuildFault {
    /// A name that no declaration is live for, or that no sort has.
    UnknownSymbol,
    /// The new name is live.
    Declared,
    /// The new name is a reserved word or an operator's.
    Reserved,
    /// Arguments of another number or of other sorts than the operator takes.
    WrongSort,
    /// A width that is not 1 to 128.
    Width,
    /// A literal of more than 128 bits.
    LiteralTooWide,
    /// A form or an operator that is known and not supported.
    NotSupported,
    /// As many terms are held as may be.
    TermLimit,
}

/// A fault, or want of memory.
#[derive(Clone, Copy, Debug, PartialEq, Eq)]
pub enum BuildError {
    NoMemory,
    Fault(BuildFault),
}

impl From<BuildFault> for BuildError {
    ghost use Rattle.std.specs.Prelude.{◌≡◌};
    ghost use Rattle.smt_build.specs.declared.fault.BuildError.TheVariants.{Fault};

    ghost from_gives = { λ f e. e ≡ Fault f };

    fn from(fault: BuildFault) -> BuildError {
        BuildError::Fault(fault)
    }
}

impl From<AllocError> for BuildError {
    ghost use Rattle.std.specs.Prelude.{◌≡◌};
    ghost use Rattle.smt_build.specs.declared.fault.BuildError.TheVariants.{NoMemory};

    ghost from_gives = { λ _ e. e ≡ NoMemory };

    fn from(_error: AllocError) -> BuildError {
        BuildError::NoMemory
    }
}

impl<T: Drop> From<AllocFailed<T>> for BuildError {
    ghost use Rattle.std.specs.Prelude.{◌≡◌};
    ghost use Rattle.smt_build.specs.declared.fault.BuildError.TheVariants.{NoMemory};

    ghost from_gives = { λ _ e. e ≡ NoMemory };

    fn from(_error: AllocFailed<T>) -> BuildError {
        BuildError::NoMemory
    }
}
