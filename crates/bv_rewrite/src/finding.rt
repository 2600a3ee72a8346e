// Which rule applies to a term.

ghost use Rattle.std.specs.Prelude.{◌≡◌, ◌<◌, length, None, Some, MatchOption};
ghost use Rattle.bv_rules.specs.Numbers.{number_of};
ghost use Rattle.bv_rules.specs.declared.rule.Rule.{Rule};
ghost use Rattle.bv_rewrite.specs.Becoming.{becomes, IsFirst};

use crate::parts::{
    choice, connective, equal_same, extract_all, extract_concat, extract_extract, fold, idle,
    select_store,
};
use crate::shape::{Kind, Power, Shape};
use crate::words::{
    add_opposite, at_most, beside, beside_itself, beside_power, less, past_width, subtract, turned,
    twice, xor_ones,
};
use bv_rules::reading::Constant;
use bv_rules::rule::Rule;
use smt_terms::node::TermId;
use smt_terms::operator::Operator;
use smt_terms::terms::Terms;

/// A rule that applies to a term, and what the term becomes.
#[derive(Clone, Copy, Debug)]
pub struct Found {
    pub rule: Rule,
    pub shape: Shape,
}

/// A shift by nothing.
fn shift_zero(terms: &Terms, t: TermId) -> Option<Shape>
    requires held { t < length terms.now.nodes }
    ensures { result ≡ becomes terms.now.nodes Rule.ShiftZero t }
{
    if let Some(shape) = beside(terms, Operator::Bvshl, Constant::Zero, Kind::Same, t) {
        return Some(shape);
    }
    if let Some(shape) = beside(terms, Operator::Bvlshr, Constant::Zero, Kind::Same, t) {
        return Some(shape);
    }
    beside(terms, Operator::Bvashr, Constant::Zero, Kind::Same, t)
}

/// A shift by the width or more.
fn shift_past(terms: &Terms, t: TermId) -> Option<Shape>
    requires held { t < length terms.now.nodes }
    ensures { result ≡ becomes terms.now.nodes Rule.ShiftPast t }
{
    if let Some(shape) = past_width(terms, Operator::Bvshl, t) {
        return Some(shape);
    }
    past_width(terms, Operator::Bvlshr, t)
}

/// An order by which the first is the greater.
fn greater(terms: &Terms, t: TermId) -> Option<Shape>
    requires held { t < length terms.now.nodes }
    ensures { result ≡ becomes terms.now.nodes Rule.Greater t }
{
    if let Some(shape) = turned(terms, Operator::Bvugt, Operator::Bvult, t) {
        return Some(shape);
    }
    if let Some(shape) = turned(terms, Operator::Bvuge, Operator::Bvule, t) {
        return Some(shape);
    }
    if let Some(shape) = turned(terms, Operator::Bvsgt, Operator::Bvslt, t) {
        return Some(shape);
    }
    turned(terms, Operator::Bvsge, Operator::Bvsle, t)
}

/// A conjunction or a disjunction.
fn truths(terms: &Terms, t: TermId) -> Option<Shape>
    requires held { t < length terms.now.nodes }
    ensures { result ≡ becomes terms.now.nodes Rule.Connective t }
{
    if let Some(shape) = connective(
        terms,
        Operator::And,
        Operator::True,
        Operator::False,
        false,
        t,
    ) {
        return Some(shape);
    }
    connective(
        terms,
        Operator::Or,
        Operator::False,
        Operator::True,
        true,
        t,
    )
}

/// What a term becomes by a rule but that on its arguments, `None` where the rule does not apply; takes no memory.
pub fn becomes(terms: &Terms, rule: Rule, t: TermId) -> Option<Shape>
    requires held { t < length terms.now.nodes }
    ensures { result ≡ becomes terms.now.nodes rule t }
{
    match rule {
        Rule::BvnotTwice => twice(terms, Operator::Bvnot, t),
        Rule::BvnegTwice => twice(terms, Operator::Bvneg, t),
        Rule::AndSame => beside_itself(terms, Operator::Bvand, Kind::Same, t),
        Rule::AndZero => beside(terms, Operator::Bvand, Constant::Zero, Kind::Zero, t),
        Rule::AndOnes => beside(terms, Operator::Bvand, Constant::Ones, Kind::Same, t),
        Rule::OrSame => beside_itself(terms, Operator::Bvor, Kind::Same, t),
        Rule::OrZero => beside(terms, Operator::Bvor, Constant::Zero, Kind::Same, t),
        Rule::OrOnes => beside(terms, Operator::Bvor, Constant::Ones, Kind::Ones, t),
        Rule::XorSame => beside_itself(terms, Operator::Bvxor, Kind::Zero, t),
        Rule::XorZero => beside(terms, Operator::Bvxor, Constant::Zero, Kind::Same, t),
        Rule::XorOnes => xor_ones(terms, t),
        Rule::AddZero => beside(terms, Operator::Bvadd, Constant::Zero, Kind::Same, t),
        Rule::AddOpposite => add_opposite(terms, t),
        Rule::Subtract => subtract(terms, t),
        Rule::AddSame => beside_itself(terms, Operator::Bvadd, Kind::Doubled, t),
        Rule::MultiplyZero => beside(terms, Operator::Bvmul, Constant::Zero, Kind::Zero, t),
        Rule::MultiplyOne => beside(terms, Operator::Bvmul, Constant::One, Kind::Same, t),
        Rule::MultiplyPower => beside_power(terms, Operator::Bvmul, Power::ShiftedLeft, t),
        Rule::DivideOne => beside(terms, Operator::Bvudiv, Constant::One, Kind::Same, t),
        Rule::DivideZero => beside(terms, Operator::Bvudiv, Constant::Zero, Kind::Ones, t),
        Rule::DividePower => beside_power(terms, Operator::Bvudiv, Power::ShiftedRight, t),
        Rule::RemainderZero => beside(terms, Operator::Bvurem, Constant::Zero, Kind::Same, t),
        Rule::RemainderOne => beside(terms, Operator::Bvurem, Constant::One, Kind::Zero, t),
        Rule::RemainderPower => beside_power(terms, Operator::Bvurem, Power::Masked, t),
        Rule::ShiftZero => shift_zero(terms, t),
        Rule::ShiftPast => shift_past(terms, t),
        Rule::ExtractAll => extract_all(terms, t),
        Rule::ExtractExtract => extract_extract(terms, t),
        Rule::ExtractConcat => extract_concat(terms, t),
        Rule::Idle => idle(terms, t),
        Rule::Less => less(terms, t),
        Rule::AtMost => at_most(terms, t),
        Rule::Greater => greater(terms, t),
        Rule::EqualSame => equal_same(terms, t),
        Rule::NotTwice => twice(terms, Operator::Not, t),
        Rule::Connective => truths(terms, t),
        Rule::Choice => choice(terms, t),
        Rule::SelectStore => select_store(terms, t),
        Rule::Fold => fold(terms, t),
        Rule::Inner => None,
    }
}

/// The rule of a number, if there is one and it applies.
fn tried(terms: &Terms, number: u64, t: TermId) -> Option<Found>
    requires held { t < length terms.now.nodes }
    ensures { MatchOption result
        ((rule : Rule) → number_of rule ≡ number → becomes terms.now.nodes rule t ≡ None)
        (λ f. (number_of f.rule ≡ number) × (becomes terms.now.nodes f.rule t ≡ Some f.shape)) }
{
    let Some(rule) = Rule::numbered(number) else {
        return None;
    };
    let Some(shape) = becomes(terms, rule, t) else {
        return None;
    };
    Some(Found { rule, shape })
}

/// The first rule by number that applies to a term, and what the term becomes; that on its arguments is left out.
pub fn find(terms: &Terms, t: TermId) -> Option<Found>
    requires held { t < length terms.now.nodes }
    ensures { MatchOption result ((rule : Rule) → becomes terms.now.nodes rule t ≡ None)
        (IsFirst terms.now.nodes t) }
{
    for number in 0..41 {
        if let Some(found) = tried(terms, number, t) {
            return Some(found);
        }
    }
    None
}
