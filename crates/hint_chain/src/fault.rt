//! Why hints are no chain.

ghost use Rattle.std.specs.Prelude.{◌≡◌};
ghost use Rattle.hint_chain.specs.Faults.{fault_at};

/// What is wrong with a hint.
#[derive(Clone, Copy, Debug, PartialEq, Eq)]
pub enum FaultKind {
    /// There is no such clause.
    Missing,
    /// Two or more different literals of a clause before the last are not false.
    Wide,
    /// A clause before the last is false altogether.
    Early,
    /// The last clause is not false altogether.
    Loose,
    /// There is no hint, and no literal of the clause stands beside its opposite.
    Empty,
    /// A literal of the clause stands beside its opposite, and there is a hint.
    Needless,
}

/// The first fault: the number of the hint, counted from 0, and what is wrong.
#[derive(Clone, Copy, Debug, PartialEq, Eq)]
pub struct ChainFault {
    pub hint: u64,
    pub kind: FaultKind,
}

impl ChainFault {
    pub(crate) fn at(hint: usize, kind: FaultKind) -> ChainFault
        ensures { result ≡ fault_at hint kind }
    {
        ChainFault {
            hint: hint as u64,
            kind,
        }
    }
}
