// Which rule takes which term to which.

ghost use Rattle.std.specs.Prelude.{◌≡◌, ◌<◌, length};
ghost use Rattle.bv_rules.specs.declared.rule.Rule.{Rule};
ghost use Rattle.bv_rules.specs.Rules.{no_images, takes};
ghost use Rattle.bv_rules.specs.Matches.{matches};

use crate::folding::folds;
use crate::images::{Images, has_reached};
use crate::others::{
    choice, connective, equal_same, extract_all, extract_concat, extract_extract, idle,
    select_store,
};
use crate::reading::Constant;
use crate::rule::Rule;
use crate::words::{
    add_opposite, add_same, at_most, by_exponent, gives_constant, gives_term, less,
    past_gives_zero, remainder_power, same_gives_constant, same_gives_term, subtract, turned,
    twice, xor_ones,
};
use smt_terms::node::TermId;
use smt_terms::operator::Operator;
use smt_terms::terms::Terms;

/// A shift by nothing.
fn shift_zero(terms: &Terms, t: TermId, u: TermId) -> bool
    requires held { t < length terms.now.nodes }
    ensures { result ≡ takes terms.now.nodes no_images Rule.ShiftZero t u }
{
    gives_term(terms, Operator::Bvshl, Constant::Zero, t, u)
        || (gives_term(terms, Operator::Bvlshr, Constant::Zero, t, u)
            || gives_term(terms, Operator::Bvashr, Constant::Zero, t, u))
}

/// A shift by the width or more.
fn shift_past(terms: &Terms, t: TermId, u: TermId) -> bool
    requires from { t < length terms.now.nodes }
    requires to { u < length terms.now.nodes }
    ensures { result ≡ takes terms.now.nodes no_images Rule.ShiftPast t u }
{
    past_gives_zero(terms, Operator::Bvshl, t, u) || past_gives_zero(terms, Operator::Bvlshr, t, u)
}

/// A greater order becomes a less one.
fn greater(terms: &Terms, t: TermId, u: TermId) -> bool
    requires from { t < length terms.now.nodes }
    requires to { u < length terms.now.nodes }
    ensures { result ≡ takes terms.now.nodes no_images Rule.Greater t u }
{
    turned(terms, Operator::Bvugt, Operator::Bvult, t, u)
        || (turned(terms, Operator::Bvuge, Operator::Bvule, t, u)
            || (turned(terms, Operator::Bvsgt, Operator::Bvslt, t, u)
                || turned(terms, Operator::Bvsge, Operator::Bvsle, t, u)))
}

/// A conjunction or a disjunction.
fn truths(terms: &Terms, t: TermId, u: TermId) -> bool
    requires from { t < length terms.now.nodes }
    requires to { u < length terms.now.nodes }
    ensures { result ≡ takes terms.now.nodes no_images Rule.Connective t u }
{
    connective(terms, Operator::And, Operator::True, Operator::False, t, u)
        || connective(terms, Operator::Or, Operator::False, Operator::True, t, u)
}

/// Whether by this rule, over these images, t becomes u.
fn takes<I: Images>(rule: Rule, terms: &Terms, images: &I, t: TermId, u: TermId) -> bool
    requires from { t < length terms.now.nodes }
    requires to { u < length terms.now.nodes }
    ensures { result ≡ takes terms.now.nodes (I.image_of images.now) rule t u }
{
    match rule {
        Rule::BvnotTwice => twice(terms, Operator::Bvnot, t, u),
        Rule::BvnegTwice => twice(terms, Operator::Bvneg, t, u),
        Rule::AndSame => same_gives_term(terms, Operator::Bvand, t, u),
        Rule::AndZero => {
            gives_constant(terms, Operator::Bvand, Constant::Zero, Constant::Zero, t, u)
        }
        Rule::AndOnes => gives_term(terms, Operator::Bvand, Constant::Ones, t, u),
        Rule::OrSame => same_gives_term(terms, Operator::Bvor, t, u),
        Rule::OrZero => gives_term(terms, Operator::Bvor, Constant::Zero, t, u),
        Rule::OrOnes => gives_constant(terms, Operator::Bvor, Constant::Ones, Constant::Ones, t, u),
        Rule::XorSame => same_gives_constant(terms, Operator::Bvxor, Constant::Zero, t, u),
        Rule::XorZero => gives_term(terms, Operator::Bvxor, Constant::Zero, t, u),
        Rule::XorOnes => xor_ones(terms, t, u),
        Rule::AddZero => gives_term(terms, Operator::Bvadd, Constant::Zero, t, u),
        Rule::AddOpposite => add_opposite(terms, t, u),
        Rule::Subtract => subtract(terms, t, u),
        Rule::AddSame => add_same(terms, t, u),
        Rule::MultiplyZero => {
            gives_constant(terms, Operator::Bvmul, Constant::Zero, Constant::Zero, t, u)
        }
        Rule::MultiplyOne => gives_term(terms, Operator::Bvmul, Constant::One, t, u),
        Rule::MultiplyPower => by_exponent(terms, Operator::Bvmul, Operator::Bvshl, t, u),
        Rule::DivideOne => gives_term(terms, Operator::Bvudiv, Constant::One, t, u),
        Rule::DivideZero => {
            gives_constant(
                terms,
                Operator::Bvudiv,
                Constant::Zero,
                Constant::Ones,
                t,
                u,
            )
        }
        Rule::DividePower => by_exponent(terms, Operator::Bvudiv, Operator::Bvlshr, t, u),
        Rule::RemainderZero => gives_term(terms, Operator::Bvurem, Constant::Zero, t, u),
        Rule::RemainderOne => {
            gives_constant(terms, Operator::Bvurem, Constant::One, Constant::Zero, t, u)
        }
        Rule::RemainderPower => remainder_power(terms, t, u),
        Rule::ShiftZero => shift_zero(terms, t, u),
        Rule::ShiftPast => shift_past(terms, t, u),
        Rule::ExtractAll => extract_all(terms, t, u),
        Rule::ExtractExtract => extract_extract(terms, t, u),
        Rule::ExtractConcat => extract_concat(terms, t, u),
        Rule::Idle => idle(terms, t, u),
        Rule::Less => less(terms, t, u),
        Rule::AtMost => at_most(terms, t, u),
        Rule::Greater => greater(terms, t, u),
        Rule::EqualSame => equal_same(terms, t, u),
        Rule::NotTwice => twice(terms, Operator::Not, t, u),
        Rule::Connective => truths(terms, t, u),
        Rule::Choice => choice(terms, t, u),
        Rule::SelectStore => select_store(terms, t, u),
        Rule::Fold => folds(terms, t, u),
        Rule::Inner => has_reached(terms, images, t, u),
    }
}

/// Whether a rule takes a held Bool or word to another of its sort, over these images; takes no memory.
pub fn matches<I: Images>(rule: Rule, terms: &Terms, images: &I, t: TermId, u: TermId) -> bool
    ensures { result ≡ matches terms.now.nodes (I.image_of images.now) rule t u }
{
    if t >= terms.len() || u >= terms.len() {
        return false;
    }
    let sort = terms.sort(t);
    sort.is_plain() && sort == terms.sort(u) && takes(rule, terms, images, t, u)
}
