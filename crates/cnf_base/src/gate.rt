//! Gates.

use crate::Lit;

/// A gate, with its input literals.
#[derive(Clone, Copy, Debug, PartialEq, Eq)]
pub enum GateKind {
    /// Both are true.
    And(Lit, Lit),
    /// One is true and the other is not.
    Xor(Lit, Lit),
    /// Where the first is true the second, else the third.
    Ite(Lit, Lit, Lit),
}
