// Where a walk may be called for, over terms that have bits of their own.

ghost use Rattle.std.specs.Prelude.{◌≡◌, ◌<◌, ℕ, All, length, IfOk, MatchBool};
ghost use Rattle.bit_blast.specs.Assigned.{assigned};
ghost use Rattle.smt_terms.specs.Nodes.{node_at};
ghost use Rattle.smt_terms.specs.Terms.{sort_of};
ghost use Rattle.theory_terms.specs.Shapes.{IsPlain};
ghost use Rattle.access_tables.specs.Ready.{IsFree};
ghost use Rattle.smt_eval.specs.Evaluated.{IsSuited, AreSuited};
ghost use Rattle.access_walk.specs.Walked.{IsHeldWord, IsWalkable};
ghost use Rattle.walk_rows.specs.Fitting.{AreUnlinked, IsFitted, HasWatch, HasWords, IsFit, AreFit, IsLiteral, IsGiven, IsReady};

use bit_blast::Assignment;
use cnf_base::Lit;
use smt_terms::bits::Bits;
use smt_terms::node::{Node, Op, TermId};
use smt_terms::sort::Sort;
use smt_terms::terms::Terms;
use smt_values::interp::Interp;
use smt_values::value::Value;
use std::alloc::{AllocError, Global};
use theory_lemmas::atoms::watch;
use theory_terms::shape::{Shape, shape_at};

/// Whether a Bool or a word has as many bits as its sort, and an array none.
fn is_fitted(terms: &Terms, bits: &Bits, term: TermId) -> bool
    requires held { term < length terms.now.nodes }
    ensures { MatchBool result (IsFitted terms.now.nodes bits.now term)
        (IsFitted terms.now.nodes bits.now term → ⊥) }
{
    match terms.sort(term) {
        Sort::Bool => match bits.of(term) {
            Some(row) => row.len() == 1,
            None => false,
        },
        Sort::Word(width) => match bits.of(term) {
            Some(row) => width > 0 && row.len() == width as usize,
            None => false,
        },
        Sort::Array(..) => bits.of(term).is_none(),
    }
}

/// Whether an equality of arrays has the selects of its sides at their witness.
fn has_watch(alloc: Global, terms: &Terms, term: TermId) -> Result<bool, AllocError>
    ensures { IfOk result (λ b. MatchBool b (HasWatch terms.now.nodes term)
        (HasWatch terms.now.nodes term → ⊥)) }
{
    let _count = terms.len();
    let Shape::Equating { left, right } = shape_at(terms, term) else {
        return Ok(true);
    };
    if watch(alloc, terms, left, right)?.is_some() {
        return Ok(true);
    }
    match terms.sort(left) {
        Sort::Array(..) => Ok(false),
        Sort::Bool => Ok(true),
        Sort::Word(_) => Ok(true),
    }
}

/// Whether the word of width 1 and this number is made and has bits.
fn has_word(alloc: Global, terms: &Terms, bits: &Bits, value: u128) -> bool
    ensures { MatchBool result (IsHeldWord terms.now.nodes bits.now 1 value)
        (IsHeldWord terms.now.nodes bits.now 1 value → ⊥) }
{
    let _count = terms.len();
    let node = Node::leaf(alloc, Op::Word { width: 1, value });
    let Some(term) = terms.find(&node) else {
        return false;
    };
    let Sort::Word(width) = terms.sort(term) else {
        return false;
    };
    let Some(row) = bits.of(term) else {
        return false;
    };
    width == 1 && row.len() == 1
}

/// Whether a constant array has index width 1, and both words of it are made and have bits.
fn has_words(alloc: Global, terms: &Terms, bits: &Bits, term: TermId) -> bool
    requires held { term < length terms.now.nodes }
    ensures { MatchBool result (HasWords terms.now.nodes bits.now term)
        (HasWords terms.now.nodes bits.now term → ⊥) }
{
    let Shape::Filling { .. } = shape_at(terms, term) else {
        return true;
    };
    let Sort::Array(width, _) = terms.sort(term) else {
        return true;
    };
    if width != 1 {
        return false;
    }
    if !has_word(alloc, terms, bits, 0) {
        return false;
    }
    has_word(alloc, terms, bits, 1)
}

/// Whether a term has what a walk needs.
fn is_fit(alloc: Global, terms: &Terms, bits: &Bits, term: TermId) -> Result<bool, AllocError>
    requires held { term < length terms.now.nodes }
    ensures { IfOk result (λ b. MatchBool b (IsFit terms.now.nodes bits.now term)
        (IsFit terms.now.nodes bits.now term → ⊥)) }
{
    let watched = has_watch(alloc, terms, term)?;
    Ok(watched && is_fitted(terms, bits, term) && has_words(alloc, terms, bits, term))
}

/// Whether all terms have what a walk needs.
fn are_fit(alloc: Global, terms: &Terms, bits: &Bits) -> Result<bool, AllocError>
    ensures { IfOk result (λ b. MatchBool b
        ((t : ℕ) → t < length terms.now.nodes → IsFit terms.now.nodes bits.now t)
        (((t : ℕ) → t < length terms.now.nodes → IsFit terms.now.nodes bits.now t) → ⊥)) }
{
    for term in 0..terms.len() {
        if !is_fit(alloc, terms, bits, term)? {
            return Ok(false);
        }
    }
    Ok(true)
}

/// Whether these are all terms.
fn are_held(terms: &Terms, live: &[TermId]) -> bool
    ensures { MatchBool result (All (λ t. t < length terms.now.nodes) live.now)
        (All (λ t. t < length terms.now.nodes) live.now → ⊥) }
{
    let count = terms.len();
    live.iter().all(|term| *term < count)
}

/// Whether a walk from these terms may be called for. It is so exactly where they are terms and every
/// term has what a walk needs, reached or not, constant arrays an index width of 1.
pub fn is_walkable(
    alloc: Global,
    terms: &Terms,
    bits: &Bits,
    live: &[TermId],
) -> Result<bool, AllocError>
    requires unlinked { AreUnlinked bits.now }
    ensures walkable { IfOk result
        (λ b. MatchBool b (IsWalkable terms.now.nodes bits.now live.now) (Unit {0})) }
    ensures exactly { IfOk result
        (λ b. MatchBool b (AreFit terms.now.nodes bits.now live.now)
        (AreFit terms.now.nodes bits.now live.now → ⊥)) }
{
    let _count = terms.len();
    if !are_held(terms, live) {
        return Ok(false);
    }
    are_fit(alloc, terms, bits)
}

/// Whether a term is a word of width 1 whose bit is that of its number.
fn is_literal(terms: &Terms, bits: &Bits, term: TermId) -> bool
    requires held { term < length terms.now.nodes }
    ensures { MatchBool result (IsLiteral terms.now.nodes bits.now term) (Unit {0}) }
{
    let node = terms.node(term);
    let Op::Word { width, value } = node.op else {
        return false;
    };
    let Some(row) = bits.of(term) else {
        return false;
    };
    if width != 1 || value > 1 || !node.args.as_slice().is_empty() || row.len() != 1 {
        return false;
    }
    row[0].variable() == 1 && row[0].is_positive() == (value % 2 == 1)
}

/// Whether a term is an array, or no circuit gives its value.
fn is_free(terms: &Terms, term: TermId) -> bool
    requires held { term < length terms.now.nodes }
    ensures { MatchBool result (IsPlain (sort_of terms.now.nodes term)
        → IsFree terms.now.nodes term) (Unit {0}) }
{
    match shape_at(terms, term) {
        Shape::Selecting { .. } => true,
        Shape::Witnessing { .. } => true,
        Shape::Applying { .. } => true,
        Shape::Declaring { .. } => true,
        Shape::Equating { left, .. } => {
            left < terms.len() && matches!(terms.sort(left), Sort::Array(..))
        }
        _ => matches!(terms.sort(term), Sort::Array(..)),
    }
}

/// Whether a term's bits are free, or those of a word of width 1.
fn is_given(terms: &Terms, bits: &Bits, term: TermId) -> bool
    requires held { term < length terms.now.nodes }
    ensures { MatchBool result (IsGiven terms.now.nodes bits.now term) (Unit {0}) }
{
    match &terms.node(term).op {
        Op::Word { .. } => is_literal(terms, bits, term),
        _ => is_free(terms, term),
    }
}

/// Whether it is so with all terms.
fn are_given(terms: &Terms, bits: &Bits) -> bool
    ensures { MatchBool result
        ((t : ℕ) → t < length terms.now.nodes → IsGiven terms.now.nodes bits.now t)
        (Unit {0}) }
{
    for term in 0..terms.len() {
        if !is_given(terms, bits, term) {
            return false;
        }
    }
    true
}

/// Whether under an assignment words have their numbers as values, and the clauses of circuits are
/// true. It is so where no term has a circuit but words of width 1 and variable 1 is true. Elsewhere
/// it is not told: whether the clauses of other circuits are true is not looked at.
pub fn is_ready(terms: &Terms, bits: &Bits, assignment: &Assignment) -> bool
    requires unlinked { AreUnlinked bits.now }
    ensures { MatchBool result
        (IsReady terms.now.nodes bits.now (assigned assignment.now)) (Unit {0}) }
{
    let _count = terms.len();
    if !assignment.value(Lit::TRUE) {
        return false;
    }
    are_given(terms, bits)
}

/// Whether the array that is set for a constant has the widths of its sort.
fn is_suited(terms: &Terms, interp: &Interp, term: TermId) -> bool
    requires held { term < length terms.now.nodes }
    ensures { MatchBool result (IsSuited (node_at terms.now.nodes term).op interp.now)
        (IsSuited (node_at terms.now.nodes term).op interp.now → ⊥) }
{
    match &terms.node(term).op {
        Op::Constant { declaration, sort } => match sort {
            Sort::Array(index, element) => match interp.value(*declaration) {
                Some(Value::Array(array)) => {
                    array.index_width() == *index && array.default().width() == *element
                }
                _ => true,
            },
            _ => true,
        },
        _ => true,
    }
}

/// Whether it is so with all constants.
pub fn are_suited(terms: &Terms, interp: &Interp) -> bool
    ensures { MatchBool result (AreSuited terms.now.nodes interp.now)
        (AreSuited terms.now.nodes interp.now → ⊥) }
{
    for term in 0..terms.len() {
        if !is_suited(terms, interp, term) {
            return false;
        }
    }
    true
}
