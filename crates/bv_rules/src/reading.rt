// What a rule sees of a term.

ghost use Rattle.std.specs.Prelude.{◌≡◌, ◌<◌, ◌-◌, ◌%◌, ◌^◌, ◌==◌, true, false, length};
ghost use Rattle.std.specs.Prelude.{MatchOption};
ghost use Rattle.bv_rules.specs.Reading.{are_unequal, arg, commutes, exponent_in, high_in};
ghost use Rattle.bv_rules.specs.Reading.{is_constant, is_extract, is_idle, is_number, is_ones};
ghost use Rattle.bv_rules.specs.Reading.{is_past, is_power, low_in};
ghost use Rattle.bv_rules.specs.Rules.{constant, extracts, is, number, of_term, of_terms, width_at};

use smt_terms::node::{Op, TermId};
use smt_terms::operator::Operator;
use smt_terms::terms::Terms;

/// A word by its bits, at any width.
#[derive(Clone, Copy, Debug)]
pub enum Constant {
    Zero,
    One,
    Ones,
}

/// Whether the two arguments match in either order.
pub fn commutes(operator: Operator) -> bool
    ensures { result ≡ commutes operator }
{
    matches!(
        operator,
        Operator::Bvand
            | Operator::Bvor
            | Operator::Bvxor
            | Operator::Bvadd
            | Operator::Bvmul
            | Operator::And
            | Operator::Or
    )
}

/// Whether an operator is the word of this number.
fn is_number(op: &Op, wanted: u128) -> bool
    ensures { result ≡ is_number wanted op.now }
{
    match op {
        Op::Word { value, .. } => *value == wanted,
        _ => false,
    }
}

/// Whether a number is the word of this width whose bits are all 1.
fn is_full(width: u64, value: u128) -> bool
    ensures { result ≡ (value == 2 ^ width - 1) }
{
    if width == 0 {
        return value == 0;
    }
    if width > 128 {
        return false;
    }
    value == u128::MAX >> (128 - width as u32)
}

fn is_ones(op: &Op) -> bool
    ensures { result ≡ is_ones op.now }
{
    match op {
        Op::Word { width, value } => is_full(*width, *value),
        _ => false,
    }
}

/// Whether an operator is this word.
fn is_constant(op: &Op, wanted: Constant) -> bool
    ensures { result ≡ is_constant wanted op.now }
{
    match wanted {
        Constant::Zero => is_number(op, 0),
        Constant::One => is_number(op, 1),
        Constant::Ones => is_ones(op),
    }
}

/// The number k, where an operator is the word 2^k.
pub fn exponent(op: &Op) -> u32
    ensures { result ≡ exponent_in op.now }
{
    match op {
        Op::Word { value, .. } => value.trailing_zeros(),
        _ => 0,
    }
}

/// Whether an operator is the word 2^k for some k from 1 to the width less 1.
pub fn is_power(op: &Op) -> bool
    ensures { result ≡ is_power op.now }
{
    match op {
        Op::Word { width, value } => {
            let k = value.trailing_zeros();
            0 < k && u64::from(k) < *width && k < 128 && *value == 1 << k
        }
        _ => false,
    }
}

/// Whether an operator is a word whose number is its width or more.
pub fn is_past(op: &Op) -> bool
    ensures { result ≡ is_past op.now }
{
    match op {
        Op::Word { width, value } => u128::from(*width) <= *value,
        _ => false,
    }
}

/// Whether operators are words of different numbers.
pub fn are_unequal(op: &Op, other: &Op) -> bool
    ensures { result ≡ are_unequal op.now other.now }
{
    match op {
        Op::Word { value: x, .. } => match other {
            Op::Word { value: y, .. } => x != y,
            _ => false,
        },
        _ => false,
    }
}

/// Whether a number is a multiple of a width.
fn is_multiple(number: u64, width: u32) -> bool
    ensures { result ≡ (number % width == 0) }
{
    if width == 0 {
        return number == 0;
    }
    number % u64::from(width) == 0
}

/// Whether an operator with an index changes no word of this width.
pub fn is_idle(op: &Op, width: u32) -> bool
    ensures { result ≡ is_idle width op.now }
{
    match op {
        Op::ZeroExtend(by) | Op::SignExtend(by) => *by == 0,
        Op::RotateLeft(by) | Op::RotateRight(by) => is_multiple(*by, width),
        Op::Repeat(copies) => *copies == 1,
        _ => false,
    }
}

/// The places of an extraction, the higher first.
pub fn places(op: &Op) -> Option<(u64, u64)>
    ensures { MatchOption result (is_extract op.now ≡ false)
        (λ p. (is_extract op.now ≡ true) × (p.0 ≡ high_in op.now) × (p.1 ≡ low_in op.now)) }
{
    match op {
        Op::Extract { high, low } => Some((*high, *low)),
        _ => None,
    }
}

/// An argument of a term, counted from 0; the first term where there is none.
pub fn arg(terms: &Terms, place: usize, term: TermId) -> TermId
    requires held { term < length terms.now.nodes }
    ensures arg { result ≡ arg terms.now.nodes place term }
    ensures held { result < length terms.now.nodes }
{
    match terms.node(term).args.as_slice().get(place) {
        Some(found) => *found,
        None => 0,
    }
}

/// The width of a term, 0 where it is no word.
pub fn width(terms: &Terms, term: TermId) -> u32
    requires held { term < length terms.now.nodes }
    ensures { result ≡ width_at terms.now.nodes term }
{
    terms.sort(term).width()
}

/// Whether a term has this operator.
pub fn is(terms: &Terms, operator: Operator, term: TermId) -> bool
    requires held { term < length terms.now.nodes }
    ensures { result ≡ is terms.now.nodes operator term }
{
    terms.node(term).op == Op::Plain(operator)
}

/// Whether a term is this word.
pub fn has_constant(terms: &Terms, wanted: Constant, term: TermId) -> bool
    requires held { term < length terms.now.nodes }
    ensures { result ≡ constant terms.now.nodes wanted term }
{
    is_constant(&terms.node(term).op, wanted)
}

/// Whether a term is the word of this number.
pub fn has_number(terms: &Terms, wanted: u128, term: TermId) -> bool
    requires held { term < length terms.now.nodes }
    ensures { result ≡ number terms.now.nodes wanted term }
{
    is_number(&terms.node(term).op, wanted)
}

/// Whether a term is this operator on x.
pub fn of_term(terms: &Terms, operator: Operator, x: TermId, term: TermId) -> bool
    requires held { term < length terms.now.nodes }
    ensures { result ≡ of_term terms.now.nodes operator x term }
{
    is(terms, operator, term) && arg(terms, 0, term) == x
}

/// Whether a term is this operator on x and y, in this order.
pub fn of_terms(terms: &Terms, operator: Operator, x: TermId, y: TermId, term: TermId) -> bool
    requires held { term < length terms.now.nodes }
    ensures { result ≡ of_terms terms.now.nodes operator x y term }
{
    is(terms, operator, term) && arg(terms, 0, term) == x && arg(terms, 1, term) == y
}

/// Whether a term is the bits from `low` to `high` of x.
pub fn extracts(terms: &Terms, high: u64, low: u64, x: TermId, term: TermId) -> bool
    requires held { term < length terms.now.nodes }
    ensures { result ≡ extracts terms.now.nodes high low x term }
{
    terms.node(term).op == Op::Extract { high, low } && arg(terms, 0, term) == x
}
