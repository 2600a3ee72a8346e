//! The rules on words at six widths, with the arguments in both orders, and their near misses.

ghost use Rattle.std.specs.Prelude.{◌≡◌, None};
ghost use Rattle.smt_terms.specs.Terms.{declaration_of};

use crate::images::Images;
use crate::matching::matches;
use crate::rule::Rule;
use smt_terms::list::Arguments;
use smt_terms::node::{Node, Op, TermId};
use smt_terms::operator::Operator;
use smt_terms::sort::Sort;
use smt_terms::terms::Terms;
use std::alloc::Global;
use std::test::Fail;

pub const WIDTHS: [u32; 6] = [1, 2, 3, 8, 64, 128];

/// One term has an image.
#[derive(Clone, Copy)]
pub struct Link {
    pub from: TermId,
    pub to: TermId,
}

impl Images for Link {
    ghost use Rattle.std.specs.Prelude.{◌==◌, if◌then◌else◌, Some, None};

    ghost image_of = { λ link t. if t == link.from then Some link.to else None };

    fn image(&self, term: TermId) -> Option<TermId> {
        if term == self.from {
            Some(self.to)
        } else {
            None
        }
    }
}

/// What stands in a row of the tables below.
#[derive(Clone, Copy)]
enum Part {
    Zero,
    One,
    Ones,
    Term,
}

/// The operator on x and a word becomes x or a word.
const BESIDE: [(Rule, Operator, Part, Part); 19] = [
    (Rule::AndZero, Operator::Bvand, Part::Zero, Part::Zero),
    (Rule::AndOnes, Operator::Bvand, Part::Ones, Part::Term),
    (Rule::OrZero, Operator::Bvor, Part::Zero, Part::Term),
    (Rule::OrOnes, Operator::Bvor, Part::Ones, Part::Ones),
    (Rule::XorZero, Operator::Bvxor, Part::Zero, Part::Term),
    (Rule::AddZero, Operator::Bvadd, Part::Zero, Part::Term),
    (Rule::MultiplyZero, Operator::Bvmul, Part::Zero, Part::Zero),
    (Rule::MultiplyOne, Operator::Bvmul, Part::One, Part::Term),
    (Rule::DivideOne, Operator::Bvudiv, Part::One, Part::Term),
    (Rule::DivideZero, Operator::Bvudiv, Part::Zero, Part::Ones),
    (
        Rule::RemainderZero,
        Operator::Bvurem,
        Part::Zero,
        Part::Term,
    ),
    (Rule::RemainderOne, Operator::Bvurem, Part::One, Part::Zero),
    (Rule::ShiftZero, Operator::Bvshl, Part::Zero, Part::Term),
    (Rule::ShiftZero, Operator::Bvlshr, Part::Zero, Part::Term),
    (Rule::ShiftZero, Operator::Bvashr, Part::Zero, Part::Term),
    (Rule::AndSame, Operator::Bvand, Part::Term, Part::Term),
    (Rule::OrSame, Operator::Bvor, Part::Term, Part::Term),
    (Rule::XorSame, Operator::Bvxor, Part::Term, Part::Zero),
    (Rule::AddSame, Operator::Bvadd, Part::Term, Part::One),
];

pub fn made(terms: &mut Terms, alloc: Global, op: Op, args: &[TermId]) -> Result<TermId, Fail>
    requires { declaration_of op ≡ None }
{
    let args = Arguments::of(alloc, args)?;
    Ok(terms.make(Node { op, args })?)
}

pub fn on(
    terms: &mut Terms,
    alloc: Global,
    operator: Operator,
    args: &[TermId],
) -> Result<TermId, Fail> {
    made(terms, alloc, Op::Plain(operator), args)
}

pub fn word(terms: &mut Terms, alloc: Global, width: u32, value: u128) -> Result<TermId, Fail> {
    let width = u64::from(width);
    made(terms, alloc, Op::Word { width, value }, &[])
}

pub fn param(terms: &mut Terms, alloc: Global, place: u32, sort: Sort) -> Result<TermId, Fail> {
    made(terms, alloc, Op::Param { place, sort }, &[])
}

/// All bits of a width.
pub fn ones(width: u32) -> u128 {
    if width >= 1 && width <= 128 {
        u128::MAX >> (128 - width)
    } else {
        0
    }
}

/// Whether the rule is as it should be for these terms, where no term has an image.
pub fn wants(terms: &Terms, rule: Rule, t: TermId, u: TermId, wanted: bool) -> Result<(), Fail> {
    let none = Link {
        from: terms.len(),
        to: 0,
    };
    if matches(rule, terms, &none, t, u) == wanted {
        Ok(())
    } else {
        Err("a rule does not answer as it should".into())
    }
}

/// A term becomes another by a rule, and neither a term of another width nor one that is not held.
pub fn becomes(
    terms: &mut Terms,
    alloc: Global,
    rule: Rule,
    t: TermId,
    u: TermId,
) -> Result<(), Fail> {
    wants(terms, rule, t, u, true)?;
    wants(terms, rule, t, terms.len(), false)?;
    wants(terms, rule, terms.len(), u, false)?;
    let other = param(terms, alloc, 7, Sort::Word(127))?;
    wants(terms, rule, t, other, false)
}

/// A word by its name.
fn value(part: Part, width: u32) -> u128 {
    match part {
        Part::Zero | Part::Term => 0,
        Part::One => 1,
        Part::Ones => ones(width),
    }
}

/// A rule on x and each word in turn.
fn beside(
    terms: &mut Terms,
    alloc: Global,
    row: (Rule, Operator, Part, Part),
    width: u32,
) -> Result<(), Fail> {
    let (rule, operator, beside, given) = row;
    let x = param(terms, alloc, 0, Sort::Word(width))?;
    let y = param(terms, alloc, 1, Sort::Word(width))?;
    let result = match given {
        Part::Term => x,
        _ => word(terms, alloc, width, value(given, width))?,
    };
    let commutes = matches!(
        operator,
        Operator::Bvand | Operator::Bvor | Operator::Bvxor | Operator::Bvadd | Operator::Bvmul
    );
    for part in [Part::Zero, Part::One, Part::Ones] {
        let c = word(terms, alloc, width, value(part, width))?;
        let straight = on(terms, alloc, operator, &[x, c])?;
        let turned = on(terms, alloc, operator, &[c, x])?;
        let fits = value(part, width) == value(beside, width);
        wants(terms, rule, straight, result, fits)?;
        wants(terms, rule, turned, result, fits && commutes)?;
        wants(terms, rule, straight, y, false)?;
    }
    let other = on(terms, alloc, operator, &[x, y])?;
    wants(terms, rule, other, result, false)
}

/// A rule on x and x.
fn same(
    terms: &mut Terms,
    alloc: Global,
    row: (Rule, Operator, Part, Part),
    width: u32,
) -> Result<(), Fail> {
    let (rule, operator, _, given) = row;
    let x = param(terms, alloc, 0, Sort::Word(width))?;
    let y = param(terms, alloc, 1, Sort::Word(width))?;
    let c = word(terms, alloc, width, value(given, width))?;
    let result = match given {
        Part::One => on(terms, alloc, Operator::Bvshl, &[x, c])?,
        Part::Term => x,
        _ => c,
    };
    let t = on(terms, alloc, operator, &[x, x])?;
    becomes(terms, alloc, rule, t, result)?;
    wants(terms, rule, t, y, false)?;
    let other = on(terms, alloc, operator, &[x, y])?;
    wants(terms, rule, other, result, false)
}

#[test]
fn words_beside_words(rt: HostRuntime) -> Result<(), Fail> {
    let alloc = rt.alloc();
    for width in WIDTHS {
        let mut terms = Terms::new(alloc);
        for row in BESIDE {
            match row.2 {
                Part::Term => same(&mut terms, alloc, row, width)?,
                _ => beside(&mut terms, alloc, row, width)?,
            }
        }
    }
    Ok(())
}

/// Powers of two, and what is none.
fn powers(terms: &mut Terms, alloc: Global, width: u32, k: u32) -> Result<(), Fail> {
    let x = param(terms, alloc, 0, Sort::Word(width))?;
    let is_power = 1 <= k && k < width && k < 128;
    let power = if k < width && k < 128 { 1 << k } else { 0 };
    let c = word(terms, alloc, width, power)?;
    let exponent = word(terms, alloc, width, u128::from(k) & ones(width))?;
    let mask = word(terms, alloc, width, if power > 0 { power - 1 } else { 0 })?;
    let product = on(terms, alloc, Operator::Bvmul, &[x, c])?;
    let turned = on(terms, alloc, Operator::Bvmul, &[c, x])?;
    let left = on(terms, alloc, Operator::Bvshl, &[x, exponent])?;
    wants(terms, Rule::MultiplyPower, product, left, is_power)?;
    wants(terms, Rule::MultiplyPower, turned, left, is_power)?;
    let by_power = on(terms, alloc, Operator::Bvshl, &[x, c])?;
    wants(terms, Rule::MultiplyPower, product, by_power, false)?;
    let quotient = on(terms, alloc, Operator::Bvudiv, &[x, c])?;
    let swapped = on(terms, alloc, Operator::Bvudiv, &[c, x])?;
    let right = on(terms, alloc, Operator::Bvlshr, &[x, exponent])?;
    wants(terms, Rule::DividePower, quotient, right, is_power)?;
    wants(terms, Rule::DividePower, swapped, right, false)?;
    let rest = on(terms, alloc, Operator::Bvurem, &[x, c])?;
    let masked = on(terms, alloc, Operator::Bvand, &[x, mask])?;
    let other = on(terms, alloc, Operator::Bvand, &[mask, x])?;
    let whole = on(terms, alloc, Operator::Bvand, &[x, c])?;
    wants(terms, Rule::RemainderPower, rest, masked, is_power)?;
    wants(terms, Rule::RemainderPower, rest, other, is_power)?;
    wants(terms, Rule::RemainderPower, rest, whole, false)?;
    wants(terms, Rule::RemainderPower, quotient, masked, false)
}

/// Shifts by a number.
fn shifts(terms: &mut Terms, alloc: Global, width: u32, by: u128) -> Result<(), Fail> {
    let x = param(terms, alloc, 0, Sort::Word(width))?;
    let c = word(terms, alloc, width, by)?;
    let zero = word(terms, alloc, width, 0)?;
    let past = by >= u128::from(width);
    for operator in [Operator::Bvshl, Operator::Bvlshr, Operator::Bvashr] {
        let t = on(terms, alloc, operator, &[x, c])?;
        let is_arithmetic = operator == Operator::Bvashr;
        wants(terms, Rule::ShiftPast, t, zero, past && !is_arithmetic)?;
        wants(terms, Rule::ShiftPast, t, x, false)?;
    }
    Ok(())
}

#[test]
fn powers_and_shifts(rt: HostRuntime) -> Result<(), Fail> {
    let alloc = rt.alloc();
    for width in WIDTHS {
        let mut terms = Terms::new(alloc);
        for k in [0, 1, 2, 5, 63, 127] {
            powers(&mut terms, alloc, width, k)?;
        }
        for by in [0, 1, 2, 3, 7, 8, 63, 64, 127, 128] {
            if by <= ones(width) {
                shifts(&mut terms, alloc, width, by)?;
            }
        }
    }
    Ok(())
}

/// Negations, differences and sums.
fn sums(terms: &mut Terms, alloc: Global, width: u32) -> Result<(), Fail> {
    let x = param(terms, alloc, 0, Sort::Word(width))?;
    let y = param(terms, alloc, 1, Sort::Word(width))?;
    let zero = word(terms, alloc, width, 0)?;
    let full = word(terms, alloc, width, ones(width))?;
    let not = on(terms, alloc, Operator::Bvnot, &[x])?;
    let neg = on(terms, alloc, Operator::Bvneg, &[x])?;
    let twice = on(terms, alloc, Operator::Bvnot, &[not])?;
    becomes(terms, alloc, Rule::BvnotTwice, twice, x)?;
    wants(terms, Rule::BvnotTwice, twice, not, false)?;
    let mixed = on(terms, alloc, Operator::Bvnot, &[neg])?;
    wants(terms, Rule::BvnotTwice, mixed, x, false)?;
    let twice = on(terms, alloc, Operator::Bvneg, &[neg])?;
    becomes(terms, alloc, Rule::BvnegTwice, twice, x)?;
    wants(terms, Rule::BvnegTwice, mixed, x, false)?;
    for args in [[x, full], [full, x]] {
        let t = on(terms, alloc, Operator::Bvxor, &args)?;
        becomes(terms, alloc, Rule::XorOnes, t, not)?;
        wants(terms, Rule::XorOnes, t, neg, false)?;
    }
    for args in [[x, neg], [neg, x]] {
        let t = on(terms, alloc, Operator::Bvadd, &args)?;
        becomes(terms, alloc, Rule::AddOpposite, t, zero)?;
        let difference = on(terms, alloc, Operator::Bvsub, &args)?;
        wants(terms, Rule::AddOpposite, difference, zero, false)?;
    }
    let other = on(terms, alloc, Operator::Bvadd, &[y, neg])?;
    wants(terms, Rule::AddOpposite, other, zero, false)?;
    let t = on(terms, alloc, Operator::Bvsub, &[y, x])?;
    becomes(terms, alloc, Rule::Subtract, t, other)?;
    let turned = on(terms, alloc, Operator::Bvadd, &[neg, y])?;
    becomes(terms, alloc, Rule::Subtract, t, turned)?;
    let back = on(terms, alloc, Operator::Bvsub, &[x, y])?;
    wants(terms, Rule::Subtract, back, other, false)
}

/// Orders.
fn orders(terms: &mut Terms, alloc: Global, width: u32) -> Result<(), Fail> {
    let x = param(terms, alloc, 0, Sort::Word(width))?;
    let y = param(terms, alloc, 1, Sort::Word(width))?;
    let zero = word(terms, alloc, width, 0)?;
    let yes = on(terms, alloc, Operator::True, &[])?;
    let no = on(terms, alloc, Operator::False, &[])?;
    for (args, is_false, is_true) in [
        ([x, x], true, true),
        ([x, zero], true, false),
        ([zero, x], false, true),
        ([x, y], false, false),
    ] {
        let less = on(terms, alloc, Operator::Bvult, &args)?;
        wants(terms, Rule::Less, less, no, is_false)?;
        wants(terms, Rule::Less, less, yes, false)?;
        let most = on(terms, alloc, Operator::Bvule, &args)?;
        wants(terms, Rule::AtMost, most, yes, is_true)?;
        wants(terms, Rule::AtMost, most, no, false)?;
        let signed = on(terms, alloc, Operator::Bvslt, &args)?;
        wants(terms, Rule::Less, signed, no, false)?;
    }
    for (operator, other) in [
        (Operator::Bvugt, Operator::Bvult),
        (Operator::Bvuge, Operator::Bvule),
        (Operator::Bvsgt, Operator::Bvslt),
        (Operator::Bvsge, Operator::Bvsle),
    ] {
        let t = on(terms, alloc, operator, &[x, y])?;
        let u = on(terms, alloc, other, &[y, x])?;
        becomes(terms, alloc, Rule::Greater, t, u)?;
        let same = on(terms, alloc, other, &[x, y])?;
        wants(terms, Rule::Greater, t, same, false)?;
        wants(terms, Rule::Greater, u, t, false)?;
    }
    for (args, is_same) in [([x, x], true), ([x, y], false)] {
        let t = on(terms, alloc, Operator::Equal, &args)?;
        wants(terms, Rule::EqualSame, t, yes, is_same)?;
        wants(terms, Rule::EqualSame, t, no, false)?;
    }
    Ok(())
}

#[test]
fn negations_sums_and_orders(rt: HostRuntime) -> Result<(), Fail> {
    let alloc = rt.alloc();
    for width in WIDTHS {
        let mut terms = Terms::new(alloc);
        sums(&mut terms, alloc, width)?;
        orders(&mut terms, alloc, width)?;
    }
    Ok(())
}
