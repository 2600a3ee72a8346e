// What terms on parts of words, truth values, choices, arrays and literals become.

ghost use Rattle.std.specs.Prelude.{◌≡◌, ◌<◌, Some, length};
ghost use Rattle.bv_rules.specs.declared.rule.Rule.{Rule};
ghost use Rattle.bv_rewrite.specs.Becoming.{becomes, decided_shape, on_shape, part_shape};
ghost use Rattle.bv_rewrite.specs.Becoming.{read_shape, value_shape};
ghost use Rattle.smt_terms.specs.Scalars.{scalar_value};

use crate::shape::Shape;
use bv_rules::folding::fold as folded;
use bv_rules::reading::{are_unequal, arg, commutes, is, is_idle, places, width};
use smt_terms::node::TermId;
use smt_terms::operator::Operator;
use smt_terms::scalar::Scalar;
use smt_terms::terms::Terms;

/// An extraction of all bits.
pub fn extract_all(terms: &Terms, t: TermId) -> Option<Shape>
    requires held { t < length terms.now.nodes }
    ensures { result ≡ becomes terms.now.nodes Rule.ExtractAll t }
{
    let x = arg(terms, 0, t);
    let Some((high, low)) = places(&terms.node(t).op) else {
        return None;
    };
    if u128::from(high) + 1 == u128::from(width(terms, x)) && low == 0 {
        Some(Shape::Term(x))
    } else {
        None
    }
}

/// An extraction of an extraction.
pub fn extract_extract(terms: &Terms, t: TermId) -> Option<Shape>
    requires held { t < length terms.now.nodes }
    ensures { result ≡ becomes terms.now.nodes Rule.ExtractExtract t }
{
    let inner = arg(terms, 0, t);
    let Some((high, low)) = places(&terms.node(t).op) else {
        return None;
    };
    let Some((_, by)) = places(&terms.node(inner).op) else {
        return None;
    };
    let (high, low, by) = (u128::from(high), u128::from(low), u128::from(by));
    Some(Shape::Bits(high + by, low + by, arg(terms, 0, inner)))
}

/// The extraction of a part of a concatenation whose low part has so many bits.
fn part(terms: &Terms, high: u64, low: u64, bits: u32, joined: TermId) -> Option<Shape>
    requires joined { joined < length terms.now.nodes }
    ensures { result ≡ part_shape terms.now.nodes high low bits joined }
{
    let (high, low, bits) = (u128::from(high), u128::from(low), u128::from(bits));
    if high < bits {
        return Some(Shape::Bits(high, low, arg(terms, 1, joined)));
    }
    if bits <= low {
        let x = arg(terms, 0, joined);
        return Some(Shape::Bits(high.saturating_sub(bits), low - bits, x));
    }
    None
}

/// An extraction of a concatenation.
pub fn extract_concat(terms: &Terms, t: TermId) -> Option<Shape>
    requires held { t < length terms.now.nodes }
    ensures { result ≡ becomes terms.now.nodes Rule.ExtractConcat t }
{
    let joined = arg(terms, 0, t);
    let Some((high, low)) = places(&terms.node(t).op) else {
        return None;
    };
    if !is(terms, Operator::Concat, joined) {
        return None;
    }
    part(
        terms,
        high,
        low,
        width(terms, arg(terms, 1, joined)),
        joined,
    )
}

/// An operator with an index that changes nothing.
pub fn idle(terms: &Terms, t: TermId) -> Option<Shape>
    requires held { t < length terms.now.nodes }
    ensures { result ≡ becomes terms.now.nodes Rule.Idle t }
{
    let x = arg(terms, 0, t);
    if is_idle(&terms.node(t).op, width(terms, x)) {
        Some(Shape::Term(x))
    } else {
        None
    }
}

/// An equality of a term with itself.
pub fn equal_same(terms: &Terms, t: TermId) -> Option<Shape>
    requires held { t < length terms.now.nodes }
    ensures { result ≡ becomes terms.now.nodes Rule.EqualSame t }
{
    if is(terms, Operator::Equal, t) && arg(terms, 0, t) == arg(terms, 1, t) {
        Some(Shape::Truth(true))
    } else {
        None
    }
}

/// What two truth values become.
fn decided(
    terms: &Terms,
    neutral: Operator,
    deciding: Operator,
    value: bool,
    p: TermId,
    q: TermId,
) -> Option<Shape>
    requires second { q < length terms.now.nodes }
    ensures { result ≡ decided_shape terms.now.nodes neutral deciding value p q }
{
    if p == q || is(terms, neutral, q) {
        return Some(Shape::Term(p));
    }
    if is(terms, deciding, q) {
        return Some(Shape::Truth(value));
    }
    None
}

/// A conjunction or a disjunction.
pub fn connective(
    terms: &Terms,
    operator: Operator,
    neutral: Operator,
    deciding: Operator,
    value: bool,
    t: TermId,
) -> Option<Shape>
    requires held { t < length terms.now.nodes }
    ensures { result ≡ on_shape terms.now.nodes operator
        (decided_shape terms.now.nodes neutral deciding value) t }
{
    if !is(terms, operator, t) {
        return None;
    }
    let (p, q) = (arg(terms, 0, t), arg(terms, 1, t));
    if let Some(shape) = decided(terms, neutral, deciding, value, p, q) {
        return Some(shape);
    }
    if commutes(operator) {
        decided(terms, neutral, deciding, value, q, p)
    } else {
        None
    }
}

/// A choice whose condition is a literal, or between a term and itself.
pub fn choice(terms: &Terms, t: TermId) -> Option<Shape>
    requires held { t < length terms.now.nodes }
    ensures { result ≡ becomes terms.now.nodes Rule.Choice t }
{
    if !is(terms, Operator::Ite, t) {
        return None;
    }
    let condition = arg(terms, 0, t);
    let (x, y) = (arg(terms, 1, t), arg(terms, 2, t));
    if is(terms, Operator::True, condition) {
        return Some(Shape::Term(x));
    }
    if is(terms, Operator::False, condition) {
        return Some(Shape::Term(y));
    }
    if x == y {
        return Some(Shape::Term(x));
    }
    None
}

/// What is read of a store at an index.
fn read(terms: &Terms, stored: TermId, index: TermId) -> Option<Shape>
    requires stored { stored < length terms.now.nodes }
    requires index { index < length terms.now.nodes }
    ensures { result ≡ read_shape terms.now.nodes stored index }
{
    let place = arg(terms, 1, stored);
    if place == index {
        return Some(Shape::Term(arg(terms, 2, stored)));
    }
    if are_unequal(&terms.node(place).op, &terms.node(index).op) {
        return Some(Shape::Two(Operator::Select, arg(terms, 0, stored), index));
    }
    None
}

/// What is read of a store.
pub fn select_store(terms: &Terms, t: TermId) -> Option<Shape>
    requires held { t < length terms.now.nodes }
    ensures { result ≡ becomes terms.now.nodes Rule.SelectStore t }
{
    let stored = arg(terms, 0, t);
    if is(terms, Operator::Select, t) && is(terms, Operator::Store, stored) {
        read(terms, stored, arg(terms, 1, t))
    } else {
        None
    }
}

/// The literal of a value.
fn literal(value: Scalar) -> Shape
    ensures { value_shape (scalar_value value) ≡ Some result }
{
    match value {
        Scalar::Bool(holds) => Shape::Truth(holds),
        Scalar::Word(word) => Shape::Word(word.value()),
    }
}

/// An operator of the theories on literals.
pub fn fold(terms: &Terms, t: TermId) -> Option<Shape>
    requires held { t < length terms.now.nodes }
    ensures { result ≡ becomes terms.now.nodes Rule.Fold t }
{
    let value = folded(terms, t)?;
    Some(literal(value))
}
