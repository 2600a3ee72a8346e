//! The rules on parts of words, truth values, choices, arrays, literals and images, and their near misses.

use crate::matching::matches;
use crate::rule::Rule;
use crate::tests::{Link, WIDTHS, becomes, made, on, ones, param, wants, word};
use smt_terms::node::{Op, TermId};
use smt_terms::operator::Operator;
use smt_terms::sort::Sort;
use smt_terms::terms::Terms;
use std::alloc::Global;
use std::test::Fail;

/// Extractions of extractions and of concatenations.
fn parts(terms: &mut Terms, alloc: Global, width: u32) -> Result<(), Fail> {
    let x = param(terms, alloc, 0, Sort::Word(width))?;
    let y = param(terms, alloc, 1, Sort::Word(width))?;
    let high = u64::from(width).saturating_sub(1);
    let all = made(terms, alloc, Op::Extract { high, low: 0 }, &[x])?;
    becomes(terms, alloc, Rule::ExtractAll, all, x)?;
    wants(terms, Rule::ExtractAll, all, y, false)?;
    if width < 2 || width > 64 {
        return Ok(());
    }
    let tail = made(terms, alloc, Op::Extract { high, low: 1 }, &[x])?;
    wants(terms, Rule::ExtractAll, tail, x, false)?;
    let inner = made(terms, alloc, Op::Extract { high: 0, low: 0 }, &[tail])?;
    let outer = made(terms, alloc, Op::Extract { high: 1, low: 1 }, &[x])?;
    becomes(terms, alloc, Rule::ExtractExtract, inner, outer)?;
    let lowest = made(terms, alloc, Op::Extract { high: 0, low: 0 }, &[x])?;
    wants(terms, Rule::ExtractExtract, inner, lowest, false)?;
    let joined = on(terms, alloc, Operator::Concat, &[x, y])?;
    let wide = u64::from(width);
    for (high, low, part, from) in [
        (wide - 1, 0, y, 0),
        (wide - 1, 1, y, 0),
        (wide, wide, x, wide),
        (2 * wide - 1, wide, x, wide),
    ] {
        let t = made(terms, alloc, Op::Extract { high, low }, &[joined])?;
        let places = Op::Extract {
            high: high.saturating_sub(from),
            low: low.saturating_sub(from),
        };
        let u = made(terms, alloc, places.copy()?, &[part])?;
        becomes(terms, alloc, Rule::ExtractConcat, t, u)?;
        let other = if part == x { y } else { x };
        let near = made(terms, alloc, places, &[other])?;
        wants(terms, Rule::ExtractConcat, t, near, false)?;
    }
    let over = Op::Extract {
        high: wide,
        low: wide - 1,
    };
    let t = made(terms, alloc, over, &[joined])?;
    let pair = made(terms, alloc, Op::Extract { high: 1, low: 0 }, &[x])?;
    wants(terms, Rule::ExtractConcat, t, pair, false)
}

/// Operators with an index that change nothing, or something.
fn indexes(terms: &mut Terms, alloc: Global, width: u32) -> Result<(), Fail> {
    let x = param(terms, alloc, 0, Sort::Word(width))?;
    for op in [
        Op::ZeroExtend(0),
        Op::SignExtend(0),
        Op::Repeat(1),
        Op::RotateLeft(0),
        Op::RotateRight(u64::from(width)),
        Op::RotateLeft(3 * u64::from(width)),
    ] {
        let t = made(terms, alloc, op, &[x])?;
        becomes(terms, alloc, Rule::Idle, t, x)?;
    }
    for by in [1, u64::from(width) + 1] {
        let t = made(terms, alloc, Op::RotateLeft(by), &[x])?;
        wants(terms, Rule::Idle, t, x, width == 1)?;
    }
    Ok(())
}

#[test]
fn parts_of_words(rt: HostRuntime) -> Result<(), Fail> {
    let alloc = rt.alloc();
    for width in WIDTHS {
        let mut terms = Terms::new(alloc);
        parts(&mut terms, alloc, width)?;
        indexes(&mut terms, alloc, width)?;
    }
    Ok(())
}

/// Negations and connectives.
fn truths(terms: &mut Terms, alloc: Global) -> Result<(), Fail> {
    let p = param(terms, alloc, 0, Sort::Bool)?;
    let q = param(terms, alloc, 1, Sort::Bool)?;
    let yes = on(terms, alloc, Operator::True, &[])?;
    let no = on(terms, alloc, Operator::False, &[])?;
    let not = on(terms, alloc, Operator::Not, &[p])?;
    let twice = on(terms, alloc, Operator::Not, &[not])?;
    becomes(terms, alloc, Rule::NotTwice, twice, p)?;
    wants(terms, Rule::NotTwice, twice, q, false)?;
    for (a, b, all, any) in [
        (p, p, p, p),
        (p, yes, p, yes),
        (yes, p, p, yes),
        (p, no, no, p),
        (no, p, no, p),
    ] {
        let and = on(terms, alloc, Operator::And, &[a, b])?;
        let or = on(terms, alloc, Operator::Or, &[a, b])?;
        wants(terms, Rule::Connective, and, all, true)?;
        wants(terms, Rule::Connective, or, any, true)?;
        wants(terms, Rule::Connective, and, q, false)?;
        wants(terms, Rule::Connective, or, q, false)?;
    }
    let and = on(terms, alloc, Operator::And, &[p, q])?;
    wants(terms, Rule::Connective, and, p, false)?;
    let xor = on(terms, alloc, Operator::Xor, &[p, no])?;
    wants(terms, Rule::Connective, xor, p, false)
}

#[test]
fn choices_and_arrays(rt: HostRuntime) -> Result<(), Fail> {
    let alloc = rt.alloc();
    for width in WIDTHS {
        let mut terms = Terms::new(alloc);
        choices(&mut terms, alloc, width)?;
        arrays(&mut terms, alloc, width)?;
    }
    Ok(())
}

fn choices(terms: &mut Terms, alloc: Global, width: u32) -> Result<(), Fail> {
    let c = param(terms, alloc, 2, Sort::Bool)?;
    let x = param(terms, alloc, 0, Sort::Word(width))?;
    let y = param(terms, alloc, 1, Sort::Word(width))?;
    let yes = on(terms, alloc, Operator::True, &[])?;
    let no = on(terms, alloc, Operator::False, &[])?;
    for (condition, a, b, is_first, is_second) in [
        (yes, x, y, true, false),
        (no, x, y, false, true),
        (c, x, y, false, false),
        (c, x, x, true, false),
    ] {
        let t = on(terms, alloc, Operator::Ite, &[condition, a, b])?;
        wants(terms, Rule::Choice, t, x, is_first)?;
        wants(terms, Rule::Choice, t, y, is_second)?;
    }
    Ok(())
}

/// Arrays with indexes and elements of a width.
fn arrays(terms: &mut Terms, alloc: Global, width: u32) -> Result<(), Fail> {
    let i = param(terms, alloc, 0, Sort::Word(width))?;
    let v = param(terms, alloc, 1, Sort::Word(width))?;
    let zero = word(terms, alloc, width, 0)?;
    let one = word(terms, alloc, width, 1)?;
    let array = made(terms, alloc, Op::ConstantArray(u64::from(width)), &[v])?;
    let yes = on(terms, alloc, Operator::True, &[])?;
    let same = on(terms, alloc, Operator::Equal, &[array, array])?;
    becomes(terms, alloc, Rule::EqualSame, same, yes)?;
    for (at, from, is_value, is_below) in [
        (i, i, true, false),
        (zero, zero, true, false),
        (zero, one, false, true),
        (one, zero, false, true),
        (i, one, false, false),
        (one, i, false, false),
    ] {
        let stored = on(terms, alloc, Operator::Store, &[array, at, one])?;
        let t = on(terms, alloc, Operator::Select, &[stored, from])?;
        let below = on(terms, alloc, Operator::Select, &[array, from])?;
        wants(terms, Rule::SelectStore, t, one, is_value)?;
        wants(terms, Rule::SelectStore, t, below, is_below)?;
        wants(terms, Rule::SelectStore, t, v, false)?;
    }
    let choice = on(terms, alloc, Operator::Ite, &[yes, array, array])?;
    wants(terms, Rule::Choice, choice, array, false)
}

/// Operators on literals.
fn literals(terms: &mut Terms, alloc: Global, width: u32) -> Result<(), Fail> {
    let x = param(terms, alloc, 0, Sort::Word(width))?;
    let one = word(terms, alloc, width, 1)?;
    let full = word(terms, alloc, width, ones(width))?;
    let zero = word(terms, alloc, width, 0)?;
    let yes = on(terms, alloc, Operator::True, &[])?;
    let no = on(terms, alloc, Operator::False, &[])?;
    let sum = on(terms, alloc, Operator::Bvadd, &[full, one])?;
    becomes(terms, alloc, Rule::Fold, sum, zero)?;
    wants(terms, Rule::Fold, sum, x, false)?;
    let open = on(terms, alloc, Operator::Bvadd, &[x, zero])?;
    wants(terms, Rule::Fold, open, x, false)?;
    let signed = on(terms, alloc, Operator::Bvslt, &[full, zero])?;
    wants(terms, Rule::Fold, signed, yes, true)?;
    wants(terms, Rule::Fold, signed, no, false)?;
    let choice = on(terms, alloc, Operator::Ite, &[no, zero, full])?;
    wants(terms, Rule::Fold, choice, full, true)?;
    let turn = made(terms, alloc, Op::RotateLeft(1), &[full])?;
    wants(terms, Rule::Fold, turn, full, true)?;
    wants(terms, Rule::Fold, one, one, false)
}

#[test]
fn truth_values_and_literals(rt: HostRuntime) -> Result<(), Fail> {
    let alloc = rt.alloc();
    let mut terms = Terms::new(alloc);
    truths(&mut terms, alloc)?;
    for width in WIDTHS {
        literals(&mut terms, alloc, width)?;
    }
    Ok(())
}

/// Whether the rule on arguments is as it should be for these terms.
fn leads(terms: &Terms, link: &Link, t: TermId, u: TermId, wanted: bool) -> Result<(), Fail> {
    if matches(Rule::Inner, terms, link, t, u) == wanted {
        Ok(())
    } else {
        Err("the rule on arguments does not answer as it should".into())
    }
}

/// Arguments that become their images.
fn images(terms: &mut Terms, alloc: Global) -> Result<(), Fail> {
    let x = param(terms, alloc, 0, Sort::Word(8))?;
    let y = param(terms, alloc, 1, Sort::Word(8))?;
    let z = param(terms, alloc, 2, Sort::Word(8))?;
    let link = Link { from: x, to: y };
    for (operator, commutes) in [
        (Operator::Bvadd, true),
        (Operator::Bvmul, true),
        (Operator::Bvsub, false),
        (Operator::Bvult, false),
    ] {
        let t = on(terms, alloc, operator, &[x, z])?;
        let u = on(terms, alloc, operator, &[y, z])?;
        let turned = on(terms, alloc, operator, &[z, y])?;
        leads(terms, &link, t, u, true)?;
        leads(terms, &link, t, turned, commutes)?;
        leads(terms, &link, t, t, true)?;
        leads(terms, &link, u, t, false)?;
        wants(terms, Rule::Inner, t, u, false)?;
    }
    let sum = on(terms, alloc, Operator::Bvadd, &[x, z])?;
    let product = on(terms, alloc, Operator::Bvmul, &[y, z])?;
    leads(terms, &link, sum, product, false)
}

#[test]
fn arguments_become_their_images(rt: HostRuntime) -> Result<(), Fail> {
    let alloc = rt.alloc();
    let mut terms = Terms::new(alloc);
    images(&mut terms, alloc)
}
