// Names with indices.

ghost use Rattle.std.specs.Prelude.{◌≡◌, ◌^◌, ◌≤◌, List, nat_lt, max};
ghost use Rattle.smt_terms.specs.declared.sort.Signature.{Signature as SignatureValue};
ghost use Rattle.smt_build.specs.Building.{Means, Builds, Grows};
ghost use Rattle.smt_build.specs.Operators.{operator_named};
ghost use Rattle.smt_build.specs.Indices.{with_index, word_by, word_in, word_of, known, with_indices, first_width, indexed_by, indexed_application};
ghost use Rattle.smt_build.specs.Views.{indices_of};

use crate::fault::{BuildError, BuildFault};
use crate::grouping::{held_sort, width_in};
use crate::literal::{index_of, number_of, turn_of, width_of_numeral};
use crate::making::made;
use crate::operators::{Family, Named, operator_named};
use crate::symbols::Symbols;
use smt_terms::list::Arguments;
use smt_terms::node::{Node, Op, TermId};
use smt_terms::sort::Sort;
use smt_terms::terms::Terms;
use std::alloc::Global;

/// The numerals behind a name; no name takes more than two.
#[derive(Clone, Copy)]
pub enum Indices<'a> {
    One(&'a [u8]),
    Two(&'a [u8], &'a [u8]),
    Many,
}

/// What terms are applied to: a name, with indices or without, or `(as const S)`.
#[derive(Clone, Copy)]
pub enum Head<'a> {
    Plain(&'a [u8]),
    Indexed(&'a [u8], Indices<'a>),
    Everywhere(Sort),
}

/// One index more.
pub fn with_index<'a>(indices: Indices<'a>, index: &'a [u8]) -> Indices<'a>
    ensures { indices_of result ≡ with_index (indices_of indices.entry) index.now }
{
    match indices {
        Indices::One(first) => Indices::Two(first, index),
        _ => Indices::Many,
    }
}

/// Whether the value is below two to the width.
fn fits(width: u32, value: u128) -> bool
    ensures { result ≡ nat_lt value (2 ^ width) }
{
    width >= 128 || value < 1 << width
}

/// The word of a value in a width.
fn word_by(
    alloc: Global,
    terms: &mut Terms,
    width: u32,
    value: Option<u128>,
) -> Result<TermId, BuildError>
    ensures means { Means (word_by terms.old width value) result terms.new }
    ensures grows { (signatures : List SignatureValue) → Grows signatures terms.old terms.new }
{
    let Some(value) = value else {
        return Err(BuildError::Fault(BuildFault::LiteralTooWide));
    };
    if !fits(width, value) {
        return Err(BuildError::Fault(BuildFault::LiteralTooWide));
    }
    let op = Op::Word {
        width: u64::from(width),
        value,
    };
    made(terms, Node::leaf(alloc, op))
}

fn word_in(
    alloc: Global,
    terms: &mut Terms,
    digits: &[u8],
    width: Option<u32>,
) -> Result<TermId, BuildError>
    ensures means { Means (word_in terms.old digits.now width) result terms.new }
    ensures grows { (signatures : List SignatureValue) → Grows signatures terms.old terms.new }
{
    match width {
        None => Err(BuildError::Fault(BuildFault::Width)),
        Some(width) => word_by(alloc, terms, width, number_of(digits)),
    }
}

/// The word `(_ bvX n)`.
pub fn word_of(
    alloc: Global,
    terms: &mut Terms,
    name: &[u8],
    indices: Indices<'_>,
) -> Result<TermId, BuildError>
    ensures means { Means (word_of terms.old name.now (indices_of indices.entry)) result terms.new }
    ensures grows { (signatures : List SignatureValue) → Grows signatures terms.old terms.new }
{
    match (name, indices) {
        ([_, _, digits @ ..], Indices::One(width)) => {
            word_in(alloc, terms, digits, width_of_numeral(width))
        }
        _ => Err(BuildError::Fault(BuildFault::WrongSort)),
    }
}

/// The fault of a name that takes no such indices.
pub fn known(symbols: &Symbols, name: &[u8]) -> BuildFault
    ensures { result ≡ known symbols.now name.now }
{
    if operator_named(name).is_some() || symbols.is_taken(name) {
        BuildFault::WrongSort
    } else {
        BuildFault::UnknownSymbol
    }
}

/// The operator of a name with indices, on a word of this width.
fn with_indices(family: Family, indices: Indices<'_>, width: u32) -> Option<Op>
    requires { 1 ≤ width }
    ensures { result ≡ with_indices family (indices_of indices.entry) width }
{
    match (family, indices) {
        (Family::Extract, Indices::Two(high, low)) => {
            Some(Op::Extract {
                high: index_of(high),
                low: index_of(low),
            })
        }
        (Family::ZeroExtend, Indices::One(by)) => Some(Op::ZeroExtend(index_of(by))),
        (Family::SignExtend, Indices::One(by)) => Some(Op::SignExtend(index_of(by))),
        (Family::RotateLeft, Indices::One(by)) => Some(Op::RotateLeft(turn_of(width, by))),
        (Family::RotateRight, Indices::One(by)) => Some(Op::RotateRight(turn_of(width, by))),
        (Family::Repeat, Indices::One(copies)) => Some(Op::Repeat(index_of(copies))),
        _ => None,
    }
}

/// The width of the first argument; 1 where it has none, which no operator with indices takes.
fn first_width(terms: &Terms, args: &[TermId]) -> u32
    ensures width { result ≡ first_width terms.now args.now }
    ensures some { 1 ≤ result }
{
    match args {
        [] => 1,
        [first, ..] => {
            let width = width_in(held_sort(terms, *first));
            if width > 1 { width } else { 1 }
        }
    }
}

/// The term of a name with indices and the terms that it is applied to.
pub fn indexed_application(
    symbols: &Symbols,
    terms: &mut Terms,
    name: &[u8],
    indices: Indices<'_>,
    args: Vec<TermId>,
) -> Result<TermId, BuildError>
    ensures means { Means
        (indexed_application symbols.now terms.old name.now (indices_of indices.entry)
        (operator_named name.now) args.items) result terms.new }
    ensures grows { (signatures : List SignatureValue) → Grows signatures terms.old terms.new }
{
    match operator_named(name) {
        None => Err(BuildError::Fault(known(symbols, name))),
        Some(Named::Indexed(family)) => {
            let width = first_width(terms, args.as_slice());
            let Some(op) = with_indices(family, indices, width) else {
                return Err(BuildError::Fault(BuildFault::WrongSort));
            };
            let args = Arguments::from_vec(args);
            made(terms, Node { op, args })
        }
        Some(_) => Err(BuildError::Fault(BuildFault::WrongSort)),
    }
}
