// What the arrays among some terms need.

ghost use Rattle.std.specs.Prelude.{◌≡◌, ◌<◌, All, Contains, IfOk, MatchBool, OnOk, length};
ghost use Rattle.smt_terms.specs.declared.node.Op.TheVariants.{Word as WordOp};
ghost use Rattle.smt_terms.specs.Nodes.{leaf};
ghost use Rattle.theory_terms.specs.Shapes.{term_of};
ghost use Rattle.array_watches.specs.Needed.{filled_at};
ghost use Rattle.watch_roots.specs.Roots.{AreFound, AreKept, HasIndexWords, HasSelects, HasWords, IsScalar};

use smt_terms::node::{Node, Op, TermId};
use smt_terms::sort::Sort;
use smt_terms::terms::Terms;
use std::alloc::{AllocError, Global};
use theory_lemmas::atoms::watch;
use theory_terms::shape::{Shape, shape_at};

/// Puts the selects of the sides of an equality of arrays at their witness behind others.
fn push_selects(
    alloc: Global,
    terms: &Terms,
    term: TermId,
    found: &mut Vec<TermId>,
) -> Result<(), AllocError>
    ensures kept { OnOk result (AreKept found.old.items found.new.items) }
    ensures selects { OnOk result (HasSelects terms.now.nodes found.new.items term) }
    ensures scalars { OnOk result (All (IsScalar terms.now.nodes) found.old.items
        → All (IsScalar terms.now.nodes) found.new.items) }
{
    let _count = terms.len();
    let Shape::Equating { left, right } = shape_at(terms, term) else {
        return Ok(());
    };
    let Some(selects) = watch(alloc, terms, left, right)? else {
        return Ok(());
    };
    found.push(selects.left)?;
    found.push(selects.right)?;
    Ok(())
}

/// The word of this width and number, if it is held.
fn find_word(alloc: Global, terms: &Terms, width: u32, number: u32) -> Option<TermId>
    ensures { result ≡ term_of terms.now.nodes (leaf (WordOp width number)) }
{
    let op = Op::Word {
        width: u64::from(width),
        value: u128::from(number),
    };
    let node = Node::leaf(alloc, op);
    terms.find(&node)
}

/// Puts the words of a width behind others, from 0 up to the first that is not held.
fn push_words(
    alloc: Global,
    terms: &Terms,
    width: u32,
    found: &mut Vec<TermId>,
) -> Result<(), AllocError>
    ensures kept { OnOk result (AreKept found.old.items found.new.items) }
    ensures words { OnOk result (HasWords terms.now.nodes found.new.items width) }
    ensures scalars { OnOk result (All (IsScalar terms.now.nodes) found.old.items
        → All (IsScalar terms.now.nodes) found.new.items) }
{
    let count = terms.len();
    'words: for number in 0..count + 1 {
        let Some(word) = find_word(alloc, terms, width, number) else {
            return Ok(());
        };
        found.push(word)?;
    }
    Ok(())
}

/// The index width of a constant array.
fn width_at(terms: &Terms, term: TermId) -> Option<u32>
    requires { term < length terms.now.nodes }
    ensures { result ≡ filled_at terms.now.nodes term }
{
    let Shape::Filling { .. } = shape_at(terms, term) else {
        return None;
    };
    match terms.sort(term) {
        Sort::Array(index, _) => Some(index),
        _ => None,
    }
}

/// Whether a width is among others.
fn has(widths: &[u32], width: u32) -> bool
    ensures { MatchBool result (Contains widths.now width) (Contains widths.now width → ⊥) }
{
    widths.contains(&width)
}

/// Puts the words of a width behind others, unless they are found already.
fn push_once(
    alloc: Global,
    terms: &Terms,
    width: u32,
    widths: &mut Vec<u32>,
    found: &mut Vec<TermId>,
) -> Result<(), AllocError>
    requires widths { All (HasWords terms.now.nodes found.old.items) widths.old.items }
    ensures kept { OnOk result (AreKept found.old.items found.new.items) }
    ensures widths { OnOk result
        (All (HasWords terms.now.nodes found.new.items) widths.new.items) }
    ensures words { OnOk result (HasWords terms.now.nodes found.new.items width) }
    ensures scalars { OnOk result (All (IsScalar terms.now.nodes) found.old.items
        → All (IsScalar terms.now.nodes) found.new.items) }
{
    if has(widths.as_slice(), width) {
        return Ok(());
    }
    push_words(alloc, terms, width, found)?;
    widths.push(width)?;
    Ok(())
}

/// Puts what a term needs behind others.
fn push_for(
    alloc: Global,
    terms: &Terms,
    term: TermId,
    widths: &mut Vec<u32>,
    found: &mut Vec<TermId>,
) -> Result<(), AllocError>
    requires held { term < length terms.now.nodes }
    requires widths { All (HasWords terms.now.nodes found.old.items) widths.old.items }
    ensures kept { OnOk result (AreKept found.old.items found.new.items) }
    ensures widths { OnOk result
        (All (HasWords terms.now.nodes found.new.items) widths.new.items) }
    ensures selects { OnOk result (HasSelects terms.now.nodes found.new.items term) }
    ensures words { OnOk result (HasIndexWords terms.now.nodes found.new.items term) }
    ensures scalars { OnOk result (All (IsScalar terms.now.nodes) found.old.items
        → All (IsScalar terms.now.nodes) found.new.items) }
{
    push_selects(alloc, terms, term, found)?;
    match width_at(terms, term) {
        Some(width) => push_once(alloc, terms, width, widths, found)?,
        None => {}
    }
    Ok(())
}

/// What the arrays among some terms need, in the order of these.
pub(crate) fn found_among(
    alloc: Global,
    terms: &Terms,
    among: &[TermId],
) -> Result<Vec<TermId>, AllocError>
    requires { All (λ t. t < length terms.now.nodes) among.now }
    ensures { IfOk result (λ found. AreFound terms.now.nodes among.now found.items) }
{
    let mut widths = Vec::new(alloc);
    let mut found = Vec::new(alloc);
    'terms: for term in among {
        push_for(alloc, terms, *term, &mut widths, &mut found)?;
    }
    Ok(found)
}
