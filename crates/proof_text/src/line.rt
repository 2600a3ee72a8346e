// What one line of a proof file says.

use crate::list::{
    Digits, Numbers, WrittenAccess, WrittenClause, WrittenEntries, WrittenHints, WrittenScalar,
    WrittenScalars,
};
use smt_terms::operator::Operator;

/// The operator of a term, with the numbers that are written behind its name. A declared function is named by the
/// number of its declaration.
#[derive(Clone, Copy, Debug)]
pub enum Head {
    Plain(Operator),
    Word { width: u64, value: u128 },
    Extract { high: u64, low: u64 },
    ZeroExtend(u64),
    SignExtend(u64),
    RotateLeft(u64),
    RotateRight(u64),
    Repeat(u64),
    Apply(u64),
    /// `const n`, the array with indexes of this width that is its argument at each index.
    ConstantArray(u64),
}

/// A value as it is written.
#[derive(Debug, Drop)]
pub enum WrittenValue {
    Bool(bool),
    Word(Digits),
    /// `a V I V ..`, the element at each index that is not held, and the held ones.
    Array {
        default: Digits,
        entries: WrittenEntries,
    },
    /// `f V A .. V ..`, the value where no row has the arguments, and the rows. How many arguments a row has is not
    /// written.
    Fun {
        default: WrittenScalar,
        values: WrittenScalars,
    },
}

/// The format of a proof file, which its header names.
#[derive(Clone, Copy, Debug, PartialEq, Eq)]
pub enum Format {
    /// Nothing is deleted.
    One,
    /// Places may be deleted.
    Two,
}

/// A line of a proof file, with the numbers and values that are written there.
#[derive(Debug, Drop)]
pub enum Line {
    /// `smt_proof F cubes D budget B`
    Header {
        format: Format,
        cubes: u64,
        budget: u64,
    },
    /// `t OP numbers args`, a new term.
    Term {
        head: Head,
        args: Numbers,
    },
    /// `f t`, new variables for the bits of a term.
    Leaf(u64),
    /// `e t`, the circuit of a term.
    Encode(u64),
    /// `r R t u`, the bits of the term u for the term t, which rewrite rule R takes to u.
    Rewrite {
        rule: u64,
        from: u64,
        to: u64,
    },
    /// `s A`, a variable that stands for an assertion.
    Selector(u64),
    /// `c L.. 0 P.K ..`, a clause and the clauses by which it follows.
    Chain {
        clause: WrittenClause,
        hints: WrittenHints,
    },
    /// `q t u`, a variable that is true exactly where two terms are equal.
    Equal(u64, u64),
    /// `l c t u`, two applications to equal arguments are equal.
    Congruence(u64, u64),
    /// `l w t`, the sides of an equality of arrays differ at their witness, or are equal.
    Witness(u64),
    /// `l a A moves / B moves`, two accesses of one array with equal indexes have equal values.
    Accesses(WrittenAccess, WrittenAccess),
    /// `d P ..`, places that no later line may name.
    Delete(Numbers),
    /// `sat K`, which so many values follow.
    Sat(u64),
    /// `v D VALUE`, the value of a declaration.
    Value {
        declaration: u64,
        value: WrittenValue,
    },
    /// `unsat P`, the place of a refutation.
    Unsat(u64),
    /// `unknown N G C`, a cube, where its diary starts, and how many lines of the diary follow.
    Unknown {
        cube: u64,
        start: u64,
        count: u64,
    },
    /// `= P`, a place that is held from here on.
    Take(u64),
    /// `+ P`, the place of a chain that is put.
    Put(u64),
    /// `- P`, the place of a chain that is held no longer.
    Drop(u64),
}
