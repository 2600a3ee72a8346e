// How a run ended.

use std::alloc::AllocError;

/// How a run ended; the number is the program's exit status.
#[derive(Clone, Copy, Debug, PartialEq, Eq)]
pub enum Status {
    /// All was answered, and no response was an error.
    Done,
    /// All was answered, and an error was among the responses.
    Refused,
    /// The words are not taken; nothing was read or written.
    Usage,
    /// Reading failed.
    ReadFault,
    /// Writing failed; a front of the text was written.
    WriteFault,
    /// Memory was wanting.
    NoMemory,
    /// The input is longer than 2^32 bytes.
    TooLong,
}

impl From<AllocError> for Status {
    ghost use Rattle.std.specs.Prelude.{◌≡◌};
    ghost use Rattle.smt_check.specs.declared.status.Status.TheVariants.{NoMemory};

    ghost from_gives = { λ _ s. s ≡ NoMemory };

    fn from(_error: AllocError) -> Status {
        Status::NoMemory
    }
}
