// Lemmas on functions and arrays.

ghost use Rattle.std.specs.Prelude.{◌≡◌, [], IfOk};

use smt_terms::node::TermId;
use std::alloc::{AllocError, Global};
use std::marker::Model;

/// A step of an access from one array to another, by the term that it names.
#[derive(Clone, Copy, Debug)]
pub enum Move {
    /// Between a store and its array.
    Store(TermId),
    /// Between a choice and the array that it is where its condition is true.
    Then(TermId),
    /// Between a choice and the array that it is where its condition is false.
    Else(TermId),
    /// Between the sides of an equality.
    Sides(TermId),
}

/// The moves of an access, in order.
#[derive(Clone, Debug, Drop)]
pub struct Path {
    moves: Vec<Move>,
}

impl Model for Path {
    ghost use Rattle.std.specs.Prelude.{List};
    ghost use Rattle.theory_terms.specs.declared.lemma.Move.{Move};

    ghost Value = { List Move };

    ghost view = { λ p. p.moves.items };
}

/// Where an access starts.
#[derive(Clone, Copy, Debug)]
pub enum Start {
    /// A select, at its array, or a store, at itself.
    Term(TermId),
    /// A constant array, at itself, with this index.
    Const(TermId, TermId),
}

/// An access of an array: where it starts, and its moves.
#[derive(Clone, Debug, Drop)]
pub struct Access {
    pub start: Start,
    pub path: Path,
}

/// A lemma on functions or arrays.
#[derive(Clone, Debug, Drop)]
pub enum Lemma {
    /// Two applications of a declaration to equal arguments are equal.
    Congruence(TermId, TermId),
    /// Two accesses of one array with equal indexes have equal values.
    Arrays(Access, Access),
    /// The sides of this equality of arrays differ at their witness, or are equal.
    Witness(TermId),
}

impl Path {
    /// No moves; takes no memory.
    pub fn none(alloc: Global) -> Path
        ensures { result ≡ [] }
    {
        Path {
            moves: Vec::new(alloc),
        }
    }

    /// These moves; takes no memory.
    pub fn from_vec(moves: Vec<Move>) -> Path
        ensures { result ≡ moves.items }
    {
        Path { moves }
    }

    /// The moves, in order.
    pub fn as_slice(&self) -> &[Move]
        ensures { result.now ≡ self.now }
    {
        self.moves.as_slice()
    }
}

impl Lemma {
    /// An equal lemma.
    pub fn copy(&self) -> Result<Lemma, AllocError>
        ensures { IfOk result (λ lemma. lemma ≡ self.now) }
    {
        self.clone()
    }
}
