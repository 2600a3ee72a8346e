// The rules on words of one width.

ghost use Rattle.std.specs.Prelude.{◌≡◌, ◌<◌, ◌==◌, ◌&&◌, length};
ghost use Rattle.bv_rules.specs.declared.rule.Rule.{Rule};
ghost use Rattle.bv_rules.specs.Rules.{by_exponent, by_mask, constant, no_images, number, on};
ghost use Rattle.bv_rules.specs.Rules.{past, takes, turned, twice, with_term, zero};

use crate::reading::{
    Constant, arg, commutes, exponent, has_constant, has_number, is, is_past, is_power, of_term,
    of_terms,
};
use smt_terms::node::TermId;
use smt_terms::operator::Operator;
use smt_terms::terms::Terms;

/// The operator twice becomes its argument's argument.
pub fn twice(terms: &Terms, operator: Operator, t: TermId, u: TermId) -> bool
    requires held { t < length terms.now.nodes }
    ensures { result ≡ twice terms.now.nodes operator u t }
{
    let inner = arg(terms, 0, t);
    is(terms, operator, t) && is(terms, operator, inner) && u == arg(terms, 0, inner)
}

/// The operator on x and a constant becomes x.
pub fn gives_term(terms: &Terms, operator: Operator, beside: Constant, t: TermId, u: TermId) -> bool
    requires held { t < length terms.now.nodes }
    ensures { result ≡ on terms.now.nodes operator
        (λ x c. constant terms.now.nodes beside c && (u == x)) t }
{
    let (x, y) = (arg(terms, 0, t), arg(terms, 1, t));
    is(terms, operator, t)
        && ((has_constant(terms, beside, y) && u == x)
            || (commutes(operator) && (has_constant(terms, beside, x) && u == y)))
}

/// The operator on x and a constant becomes a constant.
pub fn gives_constant(
    terms: &Terms,
    operator: Operator,
    beside: Constant,
    given: Constant,
    t: TermId,
    u: TermId,
) -> bool
    requires from { t < length terms.now.nodes }
    requires to { u < length terms.now.nodes }
    ensures { result ≡ on terms.now.nodes operator
        (λ x c. constant terms.now.nodes beside c && constant terms.now.nodes given u) t }
{
    let (x, y) = (arg(terms, 0, t), arg(terms, 1, t));
    let is_given = has_constant(terms, given, u);
    is(terms, operator, t)
        && ((has_constant(terms, beside, y) && is_given)
            || (commutes(operator) && (has_constant(terms, beside, x) && is_given)))
}

/// The operator on x and x becomes x.
pub fn same_gives_term(terms: &Terms, operator: Operator, t: TermId, u: TermId) -> bool
    requires held { t < length terms.now.nodes }
    ensures { result ≡ on terms.now.nodes operator (λ x y. (x == y) && (u == x)) t }
{
    let (x, y) = (arg(terms, 0, t), arg(terms, 1, t));
    is(terms, operator, t) && ((x == y && u == x) || (commutes(operator) && (y == x && u == y)))
}

/// The operator on x and x becomes a constant.
pub fn same_gives_constant(
    terms: &Terms,
    operator: Operator,
    given: Constant,
    t: TermId,
    u: TermId,
) -> bool
    requires from { t < length terms.now.nodes }
    requires to { u < length terms.now.nodes }
    ensures { result ≡ on terms.now.nodes operator
        (λ x y. (x == y) && constant terms.now.nodes given u) t }
{
    let (x, y) = (arg(terms, 0, t), arg(terms, 1, t));
    let is_given = has_constant(terms, given, u);
    is(terms, operator, t) && ((x == y && is_given) || (commutes(operator) && (y == x && is_given)))
}

/// Whether a term is this operator on x and the word of a number.
fn with_number(terms: &Terms, operator: Operator, x: TermId, wanted: u128, t: TermId) -> bool
    requires held { t < length terms.now.nodes }
    ensures { result ≡ with_term terms.now.nodes operator x (number terms.now.nodes wanted) t }
{
    let (y, z) = (arg(terms, 0, t), arg(terms, 1, t));
    is(terms, operator, t)
        && ((y == x && has_number(terms, wanted, z))
            || (commutes(operator) && (z == x && has_number(terms, wanted, y))))
}

/// Whether c is a power of two and u is the operator on x and its exponent.
fn is_by_exponent(terms: &Terms, shift: Operator, x: TermId, c: TermId, u: TermId) -> bool
    requires word { c < length terms.now.nodes }
    requires to { u < length terms.now.nodes }
    ensures { result ≡ by_exponent terms.now.nodes shift u x c }
{
    let word = terms.node(c);
    is_power(&word.op) && with_number(terms, shift, x, u128::from(exponent(&word.op)), u)
}

/// The operator on x and a power of two becomes another on x and the exponent.
pub fn by_exponent(terms: &Terms, operator: Operator, shift: Operator, t: TermId, u: TermId) -> bool
    requires from { t < length terms.now.nodes }
    requires to { u < length terms.now.nodes }
    ensures { result ≡ on terms.now.nodes operator (by_exponent terms.now.nodes shift u) t }
{
    let (x, y) = (arg(terms, 0, t), arg(terms, 1, t));
    is(terms, operator, t)
        && (is_by_exponent(terms, shift, x, y, u)
            || (commutes(operator) && is_by_exponent(terms, shift, y, x, u)))
}

/// Whether c is a power of two and u masks x by the bits below it.
fn is_masked(terms: &Terms, x: TermId, c: TermId, u: TermId) -> bool
    requires word { c < length terms.now.nodes }
    requires to { u < length terms.now.nodes }
    ensures { result ≡ by_mask terms.now.nodes u x c }
{
    let word = terms.node(c);
    if !is_power(&word.op) {
        return false;
    }
    let k = exponent(&word.op);
    k < 128 && with_number(terms, Operator::Bvand, x, (1 << k) - 1, u)
}

/// A remainder by a power of two becomes a mask.
pub fn remainder_power(terms: &Terms, t: TermId, u: TermId) -> bool
    requires from { t < length terms.now.nodes }
    requires to { u < length terms.now.nodes }
    ensures { result ≡ takes terms.now.nodes no_images Rule.RemainderPower t u }
{
    let (x, y) = (arg(terms, 0, t), arg(terms, 1, t));
    is(terms, Operator::Bvurem, t) && is_masked(terms, x, y, u)
}

/// A shift by the width or more becomes zero.
pub fn past_gives_zero(terms: &Terms, operator: Operator, t: TermId, u: TermId) -> bool
    requires from { t < length terms.now.nodes }
    requires to { u < length terms.now.nodes }
    ensures { result ≡ on terms.now.nodes operator
        (λ x c. past terms.now.nodes c && zero terms.now.nodes u) t }
{
    let (x, y) = (arg(terms, 0, t), arg(terms, 1, t));
    let is_zero = has_constant(terms, Constant::Zero, u);
    is(terms, operator, t)
        && ((is_past(&terms.node(y).op) && is_zero)
            || (commutes(operator) && (is_past(&terms.node(x).op) && is_zero)))
}

/// Exclusive or with ones becomes a negation of each bit.
pub fn xor_ones(terms: &Terms, t: TermId, u: TermId) -> bool
    requires from { t < length terms.now.nodes }
    requires to { u < length terms.now.nodes }
    ensures { result ≡ takes terms.now.nodes no_images Rule.XorOnes t u }
{
    let (x, y) = (arg(terms, 0, t), arg(terms, 1, t));
    is(terms, Operator::Bvxor, t)
        && ((has_constant(terms, Constant::Ones, y) && of_term(terms, Operator::Bvnot, x, u))
            || (has_constant(terms, Constant::Ones, x) && of_term(terms, Operator::Bvnot, y, u)))
}

/// A sum with the negation becomes zero.
pub fn add_opposite(terms: &Terms, t: TermId, u: TermId) -> bool
    requires from { t < length terms.now.nodes }
    requires to { u < length terms.now.nodes }
    ensures { result ≡ takes terms.now.nodes no_images Rule.AddOpposite t u }
{
    let (x, y) = (arg(terms, 0, t), arg(terms, 1, t));
    let is_zero = has_constant(terms, Constant::Zero, u);
    is(terms, Operator::Bvadd, t)
        && ((of_term(terms, Operator::Bvneg, x, y) && is_zero)
            || (of_term(terms, Operator::Bvneg, y, x) && is_zero))
}

/// A difference becomes the sum with the negation.
pub fn subtract(terms: &Terms, t: TermId, u: TermId) -> bool
    requires from { t < length terms.now.nodes }
    requires to { u < length terms.now.nodes }
    ensures { result ≡ takes terms.now.nodes no_images Rule.Subtract t u }
{
    let (x, y) = (arg(terms, 0, t), arg(terms, 1, t));
    let (z, w) = (arg(terms, 0, u), arg(terms, 1, u));
    is(terms, Operator::Bvsub, t)
        && is(terms, Operator::Bvadd, u)
        && ((z == x && of_term(terms, Operator::Bvneg, y, w))
            || (w == x && of_term(terms, Operator::Bvneg, y, z)))
}

/// A sum of a word and itself becomes a shift by one.
pub fn add_same(terms: &Terms, t: TermId, u: TermId) -> bool
    requires from { t < length terms.now.nodes }
    requires to { u < length terms.now.nodes }
    ensures { result ≡ takes terms.now.nodes no_images Rule.AddSame t u }
{
    let (x, y) = (arg(terms, 0, t), arg(terms, 1, t));
    is(terms, Operator::Bvadd, t)
        && ((x == y && with_number(terms, Operator::Bvshl, x, 1, u))
            || (y == x && with_number(terms, Operator::Bvshl, y, 1, u)))
}

/// Nothing is below itself or zero.
pub fn less(terms: &Terms, t: TermId, u: TermId) -> bool
    requires from { t < length terms.now.nodes }
    requires to { u < length terms.now.nodes }
    ensures { result ≡ takes terms.now.nodes no_images Rule.Less t u }
{
    let (x, y) = (arg(terms, 0, t), arg(terms, 1, t));
    is(terms, Operator::Bvult, t)
        && ((x == y || has_constant(terms, Constant::Zero, y)) && is(terms, Operator::False, u))
}

/// A word is at most itself, and zero at most each.
pub fn at_most(terms: &Terms, t: TermId, u: TermId) -> bool
    requires from { t < length terms.now.nodes }
    requires to { u < length terms.now.nodes }
    ensures { result ≡ takes terms.now.nodes no_images Rule.AtMost t u }
{
    let (x, y) = (arg(terms, 0, t), arg(terms, 1, t));
    is(terms, Operator::Bvule, t)
        && ((x == y || has_constant(terms, Constant::Zero, x)) && is(terms, Operator::True, u))
}

/// An order becomes another on the same words, turned.
pub fn turned(terms: &Terms, operator: Operator, other: Operator, t: TermId, u: TermId) -> bool
    requires from { t < length terms.now.nodes }
    requires to { u < length terms.now.nodes }
    ensures { result ≡ turned terms.now.nodes operator other t u }
{
    let (x, y) = (arg(terms, 0, t), arg(terms, 1, t));
    is(terms, operator, t)
        && (of_terms(terms, other, y, x, u)
            || (commutes(operator) && of_terms(terms, other, x, y, u)))
}
