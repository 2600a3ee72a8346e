// Literals, hints, accesses, values and lists as they are written on a line.

use plain_list::List;

/// A literal as it is written: a variable, from 1, with a sign.
#[derive(Clone, Copy, Debug, PartialEq, Eq)]
pub struct WrittenLiteral {
    pub variable: u64,
    pub positive: bool,
}

/// The name of a clause as it is written: a place in the log, and a part of what stands there.
#[derive(Clone, Copy, Debug, PartialEq, Eq)]
pub struct WrittenHint {
    pub pos: u64,
    pub part: u64,
}

/// Numbers.
pub type Numbers = List<u64>;

/// The literals of a clause.
pub type WrittenClause = List<WrittenLiteral>;

/// The hints of a chain.
pub type WrittenHints = List<WrittenHint>;

/// Where an access starts, as it is written.
#[derive(Clone, Copy, Debug, PartialEq, Eq)]
pub enum WrittenStart {
    /// `t`, a select or a store.
    Term(u64),
    /// `K@j`, a constant array with an index.
    Const(u64, u64),
}

/// The letter of a move.
#[derive(Clone, Copy, Debug, PartialEq, Eq)]
pub enum Letter {
    /// `w`, between a store and its array.
    Store,
    /// `t`, between a choice and the array that it is where its condition is true.
    Then,
    /// `e`, between a choice and the array that it is where its condition is false.
    Else,
    /// `q`, between the sides of an equality.
    Sides,
}

/// A move of an access as it is written: a letter and a term.
#[derive(Clone, Copy, Debug, PartialEq, Eq)]
pub struct WrittenMove {
    pub letter: Letter,
    pub term: u64,
}

/// The moves of an access.
pub type WrittenMoves = List<WrittenMove>;

/// An access as it is written: where it starts, and its moves.
#[derive(Debug, Drop)]
pub struct WrittenAccess {
    pub start: WrittenStart,
    pub moves: WrittenMoves,
}

/// Binary digits, the highest first.
pub type Digits = List<bool>;

/// A truth value or a word as it is written.
#[derive(Debug, Drop)]
pub enum WrittenScalar {
    Bool(bool),
    Word(Digits),
}

/// The values of a function's rows, one row after the other: its arguments, then its value.
pub type WrittenScalars = List<WrittenScalar>;

/// An index of an array and its element as they are written.
#[derive(Debug, Drop)]
pub struct WrittenEntry {
    pub index: Digits,
    pub element: Digits,
}

/// The indexes that an array holds, with their elements.
pub type WrittenEntries = List<WrittenEntry>;
