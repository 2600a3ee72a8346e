// The rules on parts of words, on truth values, on choices and on arrays.

ghost use Rattle.std.specs.Prelude.{◌≡◌, ◌<◌, length};
ghost use Rattle.bv_rules.specs.declared.rule.Rule.{Rule};
ghost use Rattle.bv_rules.specs.Rules.{decides, extracts_part, no_images, on, reads, takes};

use crate::reading::{are_unequal, arg, commutes, extracts, is, is_idle, of_terms, places, width};
use smt_terms::node::TermId;
use smt_terms::operator::Operator;
use smt_terms::terms::Terms;

/// An extraction of all bits becomes its argument.
pub fn extract_all(terms: &Terms, t: TermId, u: TermId) -> bool
    requires held { t < length terms.now.nodes }
    ensures { result ≡ takes terms.now.nodes no_images Rule.ExtractAll t u }
{
    let x = arg(terms, 0, t);
    let Some((high, low)) = places(&terms.node(t).op) else {
        return false;
    };
    u128::from(high) + 1 == u128::from(width(terms, x)) && low == 0 && u == x
}

/// An extraction of an extraction becomes one.
pub fn extract_extract(terms: &Terms, t: TermId, u: TermId) -> bool
    requires from { t < length terms.now.nodes }
    requires to { u < length terms.now.nodes }
    ensures { result ≡ takes terms.now.nodes no_images Rule.ExtractExtract t u }
{
    let inner = arg(terms, 0, t);
    let x = arg(terms, 0, inner);
    let Some((high, low)) = places(&terms.node(t).op) else {
        return false;
    };
    let Some((_, by)) = places(&terms.node(inner).op) else {
        return false;
    };
    let Some((top, bottom)) = places(&terms.node(u).op) else {
        return false;
    };
    u128::from(top) == u128::from(high) + u128::from(by)
        && u128::from(bottom) == u128::from(low) + u128::from(by)
        && arg(terms, 0, u) == x
}

/// Whether a term is the extraction of a part of a concatenation whose low part has so many bits.
fn extracts_part(terms: &Terms, high: u64, low: u64, bits: u32, joined: TermId, u: TermId) -> bool
    requires joined { joined < length terms.now.nodes }
    requires to { u < length terms.now.nodes }
    ensures { result ≡ extracts_part terms.now.nodes high low bits joined u }
{
    let bits = u64::from(bits);
    (high < bits && extracts(terms, high, low, arg(terms, 1, joined), u))
        || (bits <= low
            && extracts(
                terms,
                high.saturating_sub(bits),
                low - bits,
                arg(terms, 0, joined),
                u,
            ))
}

/// An extraction of a concatenation becomes one of a part.
pub fn extract_concat(terms: &Terms, t: TermId, u: TermId) -> bool
    requires from { t < length terms.now.nodes }
    requires to { u < length terms.now.nodes }
    ensures { result ≡ takes terms.now.nodes no_images Rule.ExtractConcat t u }
{
    let joined = arg(terms, 0, t);
    let bits = width(terms, arg(terms, 1, joined));
    let Some((high, low)) = places(&terms.node(t).op) else {
        return false;
    };
    is(terms, Operator::Concat, joined) && extracts_part(terms, high, low, bits, joined, u)
}

/// An operator with an index that changes nothing becomes its argument.
pub fn idle(terms: &Terms, t: TermId, u: TermId) -> bool
    requires held { t < length terms.now.nodes }
    ensures { result ≡ takes terms.now.nodes no_images Rule.Idle t u }
{
    let x = arg(terms, 0, t);
    is_idle(&terms.node(t).op, width(terms, x)) && u == x
}

/// An equality of a term with itself becomes true.
pub fn equal_same(terms: &Terms, t: TermId, u: TermId) -> bool
    requires from { t < length terms.now.nodes }
    requires to { u < length terms.now.nodes }
    ensures { result ≡ takes terms.now.nodes no_images Rule.EqualSame t u }
{
    is(terms, Operator::Equal, t)
        && (arg(terms, 0, t) == arg(terms, 1, t) && is(terms, Operator::True, u))
}

/// Whether u is p where q is p or changes nothing, and q where q decides.
fn is_decided(
    terms: &Terms,
    neutral: Operator,
    deciding: Operator,
    p: TermId,
    q: TermId,
    u: TermId,
) -> bool
    requires second { q < length terms.now.nodes }
    requires to { u < length terms.now.nodes }
    ensures { result ≡ decides terms.now.nodes neutral deciding u p q }
{
    ((p == q || is(terms, neutral, q)) && u == p)
        || (is(terms, deciding, q) && is(terms, deciding, u))
}

/// An operator on truth values, one of which is the other, changes nothing or decides.
pub fn connective(
    terms: &Terms,
    operator: Operator,
    neutral: Operator,
    deciding: Operator,
    t: TermId,
    u: TermId,
) -> bool
    requires from { t < length terms.now.nodes }
    requires to { u < length terms.now.nodes }
    ensures { result ≡ on terms.now.nodes operator (decides terms.now.nodes neutral deciding u) t }
{
    let (p, q) = (arg(terms, 0, t), arg(terms, 1, t));
    is(terms, operator, t)
        && (is_decided(terms, neutral, deciding, p, q, u)
            || (commutes(operator) && is_decided(terms, neutral, deciding, q, p, u)))
}

/// A choice whose condition is a literal, or between a term and itself.
pub fn choice(terms: &Terms, t: TermId, u: TermId) -> bool
    requires held { t < length terms.now.nodes }
    ensures { result ≡ takes terms.now.nodes no_images Rule.Choice t u }
{
    let condition = arg(terms, 0, t);
    let (x, y) = (arg(terms, 1, t), arg(terms, 2, t));
    is(terms, Operator::Ite, t)
        && ((is(terms, Operator::True, condition) && u == x)
            || ((is(terms, Operator::False, condition) && u == y) || (x == y && u == x)))
}

/// Whether u is what is read of a store at an index.
fn reads(terms: &Terms, stored: TermId, index: TermId, u: TermId) -> bool
    requires stored { stored < length terms.now.nodes }
    requires index { index < length terms.now.nodes }
    requires to { u < length terms.now.nodes }
    ensures { result ≡ reads terms.now.nodes stored index u }
{
    let place = arg(terms, 1, stored);
    (place == index && u == arg(terms, 2, stored))
        || (are_unequal(&terms.node(place).op, &terms.node(index).op)
            && of_terms(terms, Operator::Select, arg(terms, 0, stored), index, u))
}

/// What is read of a store, at its index or at another word.
pub fn select_store(terms: &Terms, t: TermId, u: TermId) -> bool
    requires from { t < length terms.now.nodes }
    requires to { u < length terms.now.nodes }
    ensures { result ≡ takes terms.now.nodes no_images Rule.SelectStore t u }
{
    let stored = arg(terms, 0, t);
    is(terms, Operator::Select, t)
        && is(terms, Operator::Store, stored)
        && reads(terms, stored, arg(terms, 1, t), u)
}
