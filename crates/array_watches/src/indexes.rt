// The indexes of accesses and witnesses, and the index widths of constant arrays.

ghost use Rattle.std.specs.Prelude.{◌≡◌, ◌<◌, ◌++◌, ◌==◌, length, All, Contains, IfOk, OnOk, MatchBool, option_to_list};
ghost use Rattle.std.specs.List.{IsDistinct, filter, filter_map};
ghost use Rattle.theory_terms.specs.Shapes.{term_of};
ghost use Rattle.theory_terms.specs.Lemmas.{witness_node};
ghost use Rattle.array_watches.specs.Needed.{index_at, has_width, filled_at};
ghost use Rattle.array_watches.specs.Making.{AreSame};

use crate::found::put_if;
use smt_terms::list::Arguments;
use smt_terms::node::{Node, Op, TermId};
use smt_terms::operator::Operator;
use smt_terms::sort::Sort;
use smt_terms::terms::Terms;
use std::alloc::{AllocError, Global};
use theory_terms::shape::{Shape, shape_at};

/// The witness of two arrays, if it is made.
fn find_witness(
    alloc: Global,
    terms: &Terms,
    left: TermId,
    right: TermId,
) -> Result<Option<TermId>, AllocError>
    ensures { IfOk result (λ o. o ≡ term_of terms.now.nodes (witness_node left right)) }
{
    let args = vec![in alloc; left, right]?;
    let node = Node {
        op: Op::Plain(Operator::Witness),
        args: Arguments::from_vec(args),
    };
    Ok(terms.find(&node))
}

/// The index of a select or a store, or the witness of an equality.
fn index_at(alloc: Global, terms: &Terms, term: TermId) -> Result<Option<TermId>, AllocError>
    ensures { IfOk result (λ o. o ≡ index_at terms.now.nodes term) }
{
    match shape_at(terms, term) {
        Shape::Selecting { index, .. } => Ok(Some(index)),
        Shape::Storing { index, .. } => Ok(Some(index)),
        Shape::Equating { left, right } => find_witness(alloc, terms, left, right),
        _ => Ok(None),
    }
}

/// The index width of a constant array.
fn width_at(terms: &Terms, term: TermId) -> Option<u32>
    requires { term < length terms.now.nodes }
    ensures { result ≡ filled_at terms.now.nodes term }
{
    let Shape::Filling { .. } = shape_at(terms, term) else {
        return None;
    };
    match terms.sort(term) {
        Sort::Array(index, _) => Some(index),
        _ => None,
    }
}

/// Puts what was found behind a list, if anything was.
fn put(list: &mut Vec<u32>, found: Option<u32>) -> Result<(), AllocError>
    ensures { OnOk result (list.new.items ≡ list.old.items ++ option_to_list found) }
{
    match found {
        Some(item) => {
            list.push(item)?;
            Ok(())
        }
        None => Ok(()),
    }
}

/// The indexes that these terms have, in their order.
fn indexes_among(alloc: Global, terms: &Terms, among: &[TermId]) -> Result<Vec<TermId>, AllocError>
    ensures { IfOk result (λ v. v.items ≡ filter_map (index_at terms.now.nodes) among.now) }
{
    let mut found = Vec::new(alloc);
    for term in among {
        let index = index_at(alloc, terms, *term)?;
        put(&mut found, index)?;
    }
    Ok(found)
}

/// The index widths of the constant arrays among these terms, in their order.
fn widths_among(alloc: Global, terms: &Terms, among: &[TermId]) -> Result<Vec<u32>, AllocError>
    requires { All (λ t. t < length terms.now.nodes) among.now }
    ensures { IfOk result (λ v. v.items ≡ filter_map (filled_at terms.now.nodes) among.now) }
{
    let mut found = Vec::new(alloc);
    for term in among {
        put(&mut found, width_at(terms, *term))?;
    }
    Ok(found)
}

/// Leaves each number once.
fn leave_once(numbers: &mut Vec<u32>)
    ensures once { IsDistinct (λ x y. x == y) numbers.new.items }
    ensures same { AreSame numbers.new.items numbers.old.items }
{
    numbers.sort_unstable();
    numbers.dedup();
}

/// The different indexes that these terms have.
pub(crate) fn indexes_of(
    alloc: Global,
    terms: &Terms,
    among: &[TermId],
) -> Result<Vec<TermId>, AllocError>
    ensures once { IfOk result (λ v. IsDistinct (λ x y. x == y) v.items) }
    ensures same { IfOk result
        (λ v. AreSame v.items (filter_map (index_at terms.now.nodes) among.now)) }
{
    let mut found = indexes_among(alloc, terms, among)?;
    leave_once(&mut found);
    Ok(found)
}

/// The different index widths of the constant arrays among these terms.
pub(crate) fn widths_of(
    alloc: Global,
    terms: &Terms,
    among: &[TermId],
) -> Result<Vec<u32>, AllocError>
    requires { All (λ t. t < length terms.now.nodes) among.now }
    ensures { IfOk result
        (λ v. AreSame v.items (filter_map (filled_at terms.now.nodes) among.now)) }
{
    let mut found = widths_among(alloc, terms, among)?;
    leave_once(&mut found);
    Ok(found)
}

/// Whether a width is among others.
pub(crate) fn has(widths: &[u32], width: u32) -> bool
    ensures { MatchBool result (Contains widths.now width) (Contains widths.now width → ⊥) }
{
    widths.contains(&width)
}

/// Whether a term is a word of a width.
fn has_width(terms: &Terms, term: TermId, width: u32) -> bool
    requires { term < length terms.now.nodes }
    ensures { result ≡ has_width terms.now.nodes width term }
{
    Sort::Word(width) == terms.sort(term)
}

/// Those of these terms that have a width.
pub(crate) fn of_width(
    alloc: Global,
    terms: &Terms,
    among: &[TermId],
    width: u32,
) -> Result<Vec<TermId>, AllocError>
    requires { All (λ t. t < length terms.now.nodes) among.now }
    ensures { IfOk result (λ v. v.items ≡ filter (has_width terms.now.nodes width) among.now) }
{
    let mut found = Vec::new(alloc);
    for term in among {
        put_if(&mut found, *term, has_width(terms, *term, width))?;
    }
    Ok(found)
}
