// What terms on words of one width become.

ghost use Rattle.std.specs.Prelude.{◌≡◌, ◌<◌, ◌==◌, length, Some};
ghost use Rattle.bv_rules.specs.declared.rule.Rule.{Rule};
ghost use Rattle.bv_rules.specs.Rules.{constant, exponent, past, power};
ghost use Rattle.bv_rewrite.specs.Shapes.{given, kind_shape, power_shape};
ghost use Rattle.bv_rewrite.specs.Becoming.{becomes, on_shape, past_width, turned_shape, twice_shape};

use crate::shape::{Kind, Power, Shape};
use bv_rules::reading::{
    Constant, arg, commutes, exponent, has_constant, is, is_past, is_power, of_term,
};
use smt_terms::node::TermId;
use smt_terms::operator::Operator;
use smt_terms::terms::Terms;

fn kind_shape(kind: Kind, x: TermId) -> Shape
    ensures { result ≡ kind_shape kind x }
{
    match kind {
        Kind::Same => Shape::Term(x),
        Kind::Zero => Shape::Word(0),
        Kind::Ones => Shape::Ones,
        Kind::Doubled => Shape::WithWord(Operator::Bvshl, x, 1),
    }
}

/// The operator twice.
pub fn twice(terms: &Terms, operator: Operator, t: TermId) -> Option<Shape>
    requires held { t < length terms.now.nodes }
    ensures { result ≡ twice_shape terms.now.nodes operator t }
{
    let inner = arg(terms, 0, t);
    if is(terms, operator, t) && is(terms, operator, inner) {
        Some(Shape::Term(arg(terms, 0, inner)))
    } else {
        None
    }
}

/// The operator on a term and a constant.
pub fn beside(
    terms: &Terms,
    operator: Operator,
    wanted: Constant,
    kind: Kind,
    t: TermId,
) -> Option<Shape>
    requires held { t < length terms.now.nodes }
    ensures { result ≡ on_shape terms.now.nodes operator
        (λ x c. given (constant terms.now.nodes wanted c) (Some (kind_shape kind x))) t }
{
    if !is(terms, operator, t) {
        return None;
    }
    let (x, y) = (arg(terms, 0, t), arg(terms, 1, t));
    if has_constant(terms, wanted, y) {
        return Some(kind_shape(kind, x));
    }
    if commutes(operator) && has_constant(terms, wanted, x) {
        return Some(kind_shape(kind, y));
    }
    None
}

/// The operator on a term and itself.
pub fn beside_itself(terms: &Terms, operator: Operator, kind: Kind, t: TermId) -> Option<Shape>
    requires held { t < length terms.now.nodes }
    ensures { result ≡ on_shape terms.now.nodes operator
        (λ x y. given (x == y) (Some (kind_shape kind x))) t }
{
    if !is(terms, operator, t) {
        return None;
    }
    let (x, y) = (arg(terms, 0, t), arg(terms, 1, t));
    if x == y {
        return Some(kind_shape(kind, x));
    }
    if commutes(operator) && y == x {
        return Some(kind_shape(kind, y));
    }
    None
}

/// What x and a power of two with this exponent become.
fn power_shape(kind: Power, x: TermId, exponent: u32) -> Shape
    requires { exponent < 128 }
    ensures { result ≡ power_shape kind x exponent }
{
    match kind {
        Power::ShiftedLeft => Shape::WithWord(Operator::Bvshl, x, u128::from(exponent)),
        Power::ShiftedRight => Shape::WithWord(Operator::Bvlshr, x, u128::from(exponent)),
        Power::Masked => Shape::WithWord(Operator::Bvand, x, (1 << exponent) - 1),
    }
}

/// What x and c become, where c is a power of two.
fn by_power(terms: &Terms, kind: Power, x: TermId, c: TermId) -> Option<Shape>
    requires held { c < length terms.now.nodes }
    ensures { result ≡ given (power terms.now.nodes c)
        (Some (power_shape kind x (exponent terms.now.nodes c))) }
{
    let word = terms.node(c);
    if !is_power(&word.op) {
        return None;
    }
    let k = exponent(&word.op);
    if k >= 128 {
        return None;
    }
    Some(power_shape(kind, x, k))
}

/// The operator on a term and a power of two.
pub fn beside_power(terms: &Terms, operator: Operator, kind: Power, t: TermId) -> Option<Shape>
    requires held { t < length terms.now.nodes }
    ensures { result ≡ on_shape terms.now.nodes operator
        (λ x c. given (power terms.now.nodes c)
        (Some (power_shape kind x (exponent terms.now.nodes c)))) t }
{
    if !is(terms, operator, t) {
        return None;
    }
    let (x, y) = (arg(terms, 0, t), arg(terms, 1, t));
    if let Some(shape) = by_power(terms, kind, x, y) {
        return Some(shape);
    }
    if commutes(operator) {
        by_power(terms, kind, y, x)
    } else {
        None
    }
}

/// A shift by the width or more.
pub fn past_width(terms: &Terms, operator: Operator, t: TermId) -> Option<Shape>
    requires held { t < length terms.now.nodes }
    ensures { result ≡ past_width terms.now.nodes operator t }
{
    if !is(terms, operator, t) {
        return None;
    }
    let (x, y) = (arg(terms, 0, t), arg(terms, 1, t));
    if is_past(&terms.node(y).op) || (commutes(operator) && is_past(&terms.node(x).op)) {
        Some(Shape::Word(0))
    } else {
        None
    }
}

/// Exclusive or with ones.
pub fn xor_ones(terms: &Terms, t: TermId) -> Option<Shape>
    requires held { t < length terms.now.nodes }
    ensures { result ≡ becomes terms.now.nodes Rule.XorOnes t }
{
    if !is(terms, Operator::Bvxor, t) {
        return None;
    }
    let (x, y) = (arg(terms, 0, t), arg(terms, 1, t));
    if has_constant(terms, Constant::Ones, y) {
        return Some(Shape::One(Operator::Bvnot, x));
    }
    if has_constant(terms, Constant::Ones, x) {
        return Some(Shape::One(Operator::Bvnot, y));
    }
    None
}

/// A sum with the negation.
pub fn add_opposite(terms: &Terms, t: TermId) -> Option<Shape>
    requires held { t < length terms.now.nodes }
    ensures { result ≡ becomes terms.now.nodes Rule.AddOpposite t }
{
    if !is(terms, Operator::Bvadd, t) {
        return None;
    }
    let (x, y) = (arg(terms, 0, t), arg(terms, 1, t));
    if of_term(terms, Operator::Bvneg, x, y) || of_term(terms, Operator::Bvneg, y, x) {
        Some(Shape::Word(0))
    } else {
        None
    }
}

/// A difference.
pub fn subtract(terms: &Terms, t: TermId) -> Option<Shape>
    requires held { t < length terms.now.nodes }
    ensures { result ≡ becomes terms.now.nodes Rule.Subtract t }
{
    if is(terms, Operator::Bvsub, t) {
        Some(Shape::WithNegated(arg(terms, 0, t), arg(terms, 1, t)))
    } else {
        None
    }
}

/// What is below itself or zero.
pub fn less(terms: &Terms, t: TermId) -> Option<Shape>
    requires held { t < length terms.now.nodes }
    ensures { result ≡ becomes terms.now.nodes Rule.Less t }
{
    let (x, y) = (arg(terms, 0, t), arg(terms, 1, t));
    if is(terms, Operator::Bvult, t) && (x == y || has_constant(terms, Constant::Zero, y)) {
        Some(Shape::Truth(false))
    } else {
        None
    }
}

/// What is at most itself, and zero at most each.
pub fn at_most(terms: &Terms, t: TermId) -> Option<Shape>
    requires held { t < length terms.now.nodes }
    ensures { result ≡ becomes terms.now.nodes Rule.AtMost t }
{
    let (x, y) = (arg(terms, 0, t), arg(terms, 1, t));
    if is(terms, Operator::Bvule, t) && (x == y || has_constant(terms, Constant::Zero, x)) {
        Some(Shape::Truth(true))
    } else {
        None
    }
}

/// An order on turned arguments.
pub fn turned(terms: &Terms, operator: Operator, other: Operator, t: TermId) -> Option<Shape>
    requires held { t < length terms.now.nodes }
    ensures { result ≡ turned_shape terms.now.nodes operator other t }
{
    if is(terms, operator, t) {
        Some(Shape::Two(other, arg(terms, 1, t), arg(terms, 0, t)))
    } else {
        None
    }
}
