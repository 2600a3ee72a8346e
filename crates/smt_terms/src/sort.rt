// Sorts, and the signatures of declarations.

use crate::list::Sorts;

/// The number of a declaration, in the order in which declarations were made.
pub type DeclId = u32;

/// The sort of a term: a truth value, a word of a width, or an array by the widths of its indexes and of its elements.
#[derive(Clone, Copy, Debug, PartialEq, Eq, Hash)]
pub enum Sort {
    Bool,
    Word(u32),
    Array(u32, u32),
}

/// The sorts of a declared function's arguments, and of its value.
#[derive(Clone, Debug, Drop)]
pub struct Signature {
    pub args: Sorts,
    pub value: Sort,
}

impl PartialEq for Signature {
    ghost use Rattle.smt_terms.specs.Same.{same_signature, signature_equivalence};
    ghost use Rattle.std.specs.Cmp.{partial_equiv_from_equiv};

    ghost eq = { same_signature };

    ghost laws = { partial_equiv_from_equiv signature_equivalence };

    fn eq(&self, other: &Signature) -> bool {
        self.args == other.args && self.value == other.value
    }
}

impl Eq for Signature {
    ghost use Rattle.smt_terms.specs.Same.{signature_equivalence};

    ghost laws = { signature_equivalence };
}
