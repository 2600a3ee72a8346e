//! Terms beside what they become, and the rules that lead there.

use crate::kept::{Kept, stays_difference};
use crate::simplifying::{Simplified, simplify};
use bv_rules::images::Images;
use bv_rules::rule::Rule;
use smt_terms::list::Arguments;
use smt_terms::node::{Node, Op, TermId};
use smt_terms::operator::Operator;
use smt_terms::sort::Sort;
use smt_terms::terms::Terms;
use std::alloc::Global;
use std::test::Fail;

/// No term has an image.
#[derive(Clone, Copy)]
struct NoImages;

impl Images for NoImages {
    ghost use Rattle.std.specs.Prelude.{None};

    ghost image_of = { λ images t. None };

    fn image(&self, _term: TermId) -> Option<TermId> {
        None
    }
}

impl Kept for NoImages {
    ghost use Rattle.bv_rewrite.specs.Kept.{stays_difference};

    ghost keeps = { λ images. stays_difference };

    fn keeps(&self, terms: &Terms, term: TermId) -> bool {
        stays_difference(terms, term)
    }
}

/// Terms and what makes them.
#[derive(Drop)]
struct Desk {
    alloc: Global,
    terms: Terms,
}

impl Desk {
    fn on(&mut self, operator: Operator, args: &[TermId]) -> Result<TermId, Fail> {
        let args = Arguments::of(self.alloc, args)?;
        let op = Op::Plain(operator);
        Ok(self.terms.make(Node { op, args })?)
    }

    fn word(&mut self, width: u64, value: u128) -> Result<TermId, Fail> {
        let word = Node::leaf(self.alloc, Op::Word { width, value });
        Ok(self.terms.make(word)?)
    }

    fn part(&mut self, high: u64, low: u64, x: TermId) -> Result<TermId, Fail> {
        let args = Arguments::of(self.alloc, &[x])?;
        let op = Op::Extract { high, low };
        Ok(self.terms.make(Node { op, args })?)
    }

    fn param(&mut self, place: u32, width: u32) -> Result<TermId, Fail> {
        let sort = Sort::Word(width);
        let param = Node::leaf(self.alloc, Op::Param { place, sort });
        Ok(self.terms.make(param)?)
    }

    fn simplified(&mut self, t: TermId) -> Result<Simplified, Fail> {
        if t >= self.terms.len() || !self.terms.sort(t).is_plain() {
            return Err("no Bool or word".into());
        }
        Ok(simplify(self.alloc, &mut self.terms, &NoImages, &NoImages, t)?)
    }

    /// A term becomes another by these rules, one after the other.
    fn leads(&mut self, t: TermId, u: TermId, rules: &[Rule]) -> Result<(), Fail> {
        let simplified = self.simplified(t)?;
        let mut same = simplified.term == u && simplified.uses.len() == rules.len();
        for place in 0..rules.len() {
            same = same
                && match simplified.uses.get(place) {
                    Some(step) => step.rule == rules[place],
                    None => false,
                };
        }
        if same {
            Ok(())
        } else {
            Err("a term does not become what it should".into())
        }
    }
}

/// Differences of which no rule makes more, and others.
fn differences(desk: &mut Desk, width: u32) -> Result<(), Fail> {
    let x = desk.param(0, width)?;
    let y = desk.param(1, width)?;
    let bits = u64::from(width);
    let zero = desk.word(bits, 0)?;
    let one = desk.word(bits, 1)?;
    let difference = desk.on(Operator::Bvsub, &[x, y])?;
    desk.leads(difference, difference, &[])?;
    let back = desk.on(Operator::Bvsub, &[y, x])?;
    desk.leads(back, back, &[])?;
    let with_word = desk.on(Operator::Bvsub, &[x, one])?;
    desk.leads(with_word, with_word, &[])?;
    let none = desk.on(Operator::Bvsub, &[x, x])?;
    desk.leads(none, zero, &[Rule::Subtract, Rule::AddOpposite])?;
    let negated = desk.on(Operator::Bvneg, &[y])?;
    let from_zero = desk.on(Operator::Bvsub, &[zero, y])?;
    desk.leads(from_zero, negated, &[Rule::Subtract, Rule::AddZero])?;
    if width > 1 {
        let doubled = desk.on(Operator::Bvshl, &[negated, one])?;
        let of_negated = desk.on(Operator::Bvsub, &[negated, y])?;
        desk.leads(of_negated, doubled, &[Rule::Subtract, Rule::AddSame])?;
    }
    let twice = desk.on(Operator::Bvneg, &[negated])?;
    let of_twice = desk.on(Operator::Bvsub, &[twice, y])?;
    desk.leads(of_twice, zero, &[Rule::Subtract, Rule::AddOpposite])?;
    let of_words = desk.on(Operator::Bvsub, &[one, one])?;
    desk.leads(of_words, zero, &[Rule::Fold])
}

/// The arguments of operators that commute stand in order, those of others stay.
fn orders(desk: &mut Desk, width: u32) -> Result<(), Fail> {
    let x = desk.param(0, width)?;
    let y = desk.param(1, width)?;
    for operator in [
        Operator::Bvand,
        Operator::Bvor,
        Operator::Bvxor,
        Operator::Bvadd,
        Operator::Bvmul,
    ] {
        let turned = desk.on(operator, &[y, x])?;
        let ordered = desk.on(operator, &[x, y])?;
        desk.leads(turned, ordered, &[Rule::Inner])?;
        desk.leads(ordered, ordered, &[])?;
    }
    for operator in [
        Operator::Bvudiv,
        Operator::Bvurem,
        Operator::Bvshl,
        Operator::Bvult,
        Operator::Bvsub,
        Operator::Equal,
    ] {
        let turned = desk.on(operator, &[y, x])?;
        desk.leads(turned, turned, &[])?;
    }
    Ok(())
}

/// Words by parts.
fn parts(desk: &mut Desk, width: u32) -> Result<(), Fail> {
    let x = desk.param(0, width)?;
    let high = u64::from(width).saturating_sub(1);
    let low = desk.part(0, 0, x)?;
    let whole = desk.part(high, 0, x)?;
    desk.leads(whole, x, &[Rule::ExtractAll])?;
    if width == 1 {
        return Ok(());
    }
    let inner = desk.part(0, 0, whole)?;
    desk.leads(inner, low, &[Rule::ExtractExtract])?;
    let tail = desk.part(high, 1, x)?;
    desk.leads(tail, tail, &[])?;
    let second = desk.part(1, 1, x)?;
    let of_tail = desk.part(0, 0, tail)?;
    let rule = if width == 2 {
        Rule::ExtractAll
    } else {
        Rule::ExtractExtract
    };
    desk.leads(of_tail, second, &[rule])
}

#[test]
fn rules_lead_to_a_last_term(rt: HostRuntime) -> Result<(), Fail> {
    let alloc = rt.alloc();
    for width in [1, 2, 3, 8, 64, 128] {
        let mut desk = Desk {
            alloc,
            terms: Terms::new(alloc),
        };
        let x = desk.param(0, width)?;
        let bits = u64::from(width);
        let zero = desk.word(bits, 0)?;
        let one = desk.word(bits, 1)?;
        let negated = desk.on(Operator::Bvnot, &[x])?;
        let twice = desk.on(Operator::Bvnot, &[negated])?;
        desk.leads(twice, x, &[Rule::BvnotTwice])?;
        desk.leads(x, x, &[])?;
        let doubled = desk.on(Operator::Bvadd, &[x, x])?;
        let shifted = desk.on(Operator::Bvshl, &[x, one])?;
        if width == 1 {
            desk.leads(doubled, zero, &[Rule::AddSame, Rule::ShiftPast])?;
        } else {
            desk.leads(doubled, shifted, &[Rule::AddSame])?;
        }
        let greater = desk.on(Operator::Bvugt, &[zero, x])?;
        let never = desk.on(Operator::False, &[])?;
        desk.leads(greater, never, &[Rule::Greater, Rule::Less])?;
        differences(&mut desk, width)?;
        orders(&mut desk, width)?;
        parts(&mut desk, width)?;
    }
    Ok(())
}
