// What lemmas say of terms, and the accesses of which they speak.

use smt_terms::node::TermId;

/// A statement on the values of terms.
#[derive(Clone, Copy, Debug)]
pub enum Atom {
    /// The values are the same.
    Same(TermId, TermId),
    /// The values are not the same.
    Differ(TermId, TermId),
    /// The value is true.
    Holds(TermId),
    /// The value is false.
    Fails(TermId),
}

/// An array, and the terms of an index and of the value there.
#[derive(Clone, Copy, Debug)]
pub struct Landing {
    pub array: TermId,
    pub index: TermId,
    pub value: TermId,
}

/// Where a move leads, and the atom that is false where it may be made.
#[derive(Clone, Copy, Debug)]
pub struct Turn {
    pub to: TermId,
    pub unless: Atom,
}

/// The witness of two arrays, and their selects there.
#[derive(Clone, Copy, Debug)]
pub struct Watch {
    pub witness: TermId,
    pub left: TermId,
    pub right: TermId,
}
