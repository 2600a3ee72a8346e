//! Why the reading of a text ends before the text does.

use std::alloc::AllocError;

/// A fault in what was read, or want of memory.
#[derive(Clone, Copy, Debug, PartialEq, Eq)]
pub enum Stop<F> {
    Fault(F),
    NoMemory,
}

impl<F> From<AllocError> for Stop<F> {
    ghost use Rattle.std.specs.Prelude.{◌≡◌};
    ghost use Rattle.dimacs_front.specs.declared.stop.Stop.TheVariants.{NoMemory};

    ghost from_gives = { λ _ s. s ≡ NoMemory };

    fn from(_error: AllocError) -> Stop<F> {
        Stop::NoMemory
    }
}
