// What a term becomes.

use smt_terms::node::TermId;
use smt_terms::operator::Operator;

/// What a term becomes by a rule: a held term, or one that is described by held terms. A word has the width that the sort of
/// the term, or of its neighbour, gives it.
#[derive(Clone, Copy, Debug)]
pub enum Shape {
    Term(TermId),
    Truth(bool),
    /// The word of this number.
    Word(u128),
    /// The word whose bits are all 1.
    Ones,
    /// The operator on one term.
    One(Operator, TermId),
    /// The operator on two terms, in this order.
    Two(Operator, TermId, TermId),
    /// The operator on a term and the word of this number.
    WithWord(Operator, TermId, u128),
    /// The sum of the first term and the negation of the second.
    WithNegated(TermId, TermId),
    /// The bits of the term from the second place to the first. A place may be the sum of two.
    Bits(u128, u128, TermId),
}

/// What x beside another argument becomes.
#[derive(Clone, Copy, Debug)]
pub enum Kind {
    Same,
    Zero,
    Ones,
    /// Twice the term, by a shift.
    Doubled,
}

/// What x beside 2^k becomes.
#[derive(Clone, Copy, Debug)]
pub enum Power {
    ShiftedLeft,
    ShiftedRight,
    Masked,
}
