//! Plans of small terms: who stands where, what becomes of whom, and who is needed.

use crate::needed::needed_terms;
use crate::plan::{Plan, Planned};
use crate::planning::plan_terms;
use bv_rules::rule::Rule;
use smt_terms::bits::Bits;
use smt_terms::list::Arguments;
use smt_terms::node::{Node, Op, TermId};
use smt_terms::operator::Operator;
use smt_terms::sort::Sort;
use smt_terms::terms::Terms;
use std::alloc::Global;
use std::test::Fail;
use term_reach::Reached;

/// Terms, and the plan that is made; no term has bits.
#[derive(Drop)]
struct Desk {
    alloc: Global,
    terms: Terms,
    plan: Plan,
}

/// A step as it should be: the term, and the rule with the term to which it leads.
type Expected = (TermId, Option<(Rule, TermId)>);

fn is_step(step: &Planned, expected: Expected) -> bool {
    let same = match (step.used, expected.1) {
        (None, None) => true,
        (Some(used), Some((rule, to))) => used.rule == rule && used.to == to,
        _ => false,
    };
    step.term == expected.0 && same
}

/// These are the steps that there should be.
fn check(steps: &[Planned], expected: &[Expected]) -> Result<(), Fail> {
    let mut same = steps.len() == expected.len();
    for place in 0..expected.len() {
        same = same
            && match steps.get(place) {
                Some(step) => is_step(step, expected[place]),
                None => false,
            };
    }
    if same {
        Ok(())
    } else {
        Err("there are other steps than there should be".into())
    }
}

impl Desk {
    fn of(alloc: Global, limit: u32) -> Result<Desk, Fail> {
        if limit > 1 << 24 {
            return Err("too many terms".into());
        }
        Ok(Desk {
            alloc,
            terms: Terms::with_limit(alloc, limit),
            plan: Plan::new(alloc),
        })
    }

    fn word(&mut self, place: u32, width: u32) -> Result<TermId, Fail> {
        let sort = Sort::Word(width);
        let param = Node::leaf(self.alloc, Op::Param { place, sort });
        Ok(self.terms.make(param)?)
    }

    fn on(&mut self, operator: Operator, args: &[TermId]) -> Result<TermId, Fail> {
        let args = Arguments::of(self.alloc, args)?;
        let op = Op::Plain(operator);
        Ok(self.terms.make(Node { op, args })?)
    }

    /// The plan of a term has these steps.
    fn plans(&mut self, root: TermId, expected: &[Expected]) -> Result<(), Fail> {
        if root >= self.terms.len() {
            return Err("no term".into());
        }
        let mut reached = Reached::new(self.alloc);
        plan_terms(
            self.alloc,
            &mut self.terms,
            &Bits::new(self.alloc),
            &[root],
            &mut self.plan,
            &mut reached,
        )?;
        check(self.plan.steps(), expected)
    }

    /// Two terms need these steps of their plan.
    fn need(&mut self, first: TermId, second: TermId, expected: &[Expected]) -> Result<(), Fail> {
        if first >= self.terms.len() || second >= self.terms.len() {
            return Err("no term".into());
        }
        let (alloc, roots, bits) = (self.alloc, [first, second], Bits::new(self.alloc));
        let mut reached = Reached::new(alloc);
        plan_terms(
            alloc,
            &mut self.terms,
            &bits,
            &roots,
            &mut self.plan,
            &mut reached,
        )?;
        let steps = needed_terms(alloc, &self.terms, &bits, &self.plan, &roots, &mut reached)?;
        check(steps.as_slice(), expected)
    }
}

#[test]
fn plans_have_what_a_check_needs(rt: HostRuntime) -> Result<(), Fail> {
    let alloc = rt.alloc();
    let mut desk = Desk::of(alloc, 100)?;
    let x = desk.word(0, 128)?;
    let negated = desk.on(Operator::Bvnot, &[x])?;
    let twice = desk.on(Operator::Bvnot, &[negated])?;
    desk.plans(
        twice,
        &[
            (x, None),
            (negated, None),
            (twice, Some((Rule::BvnotTwice, x))),
        ],
    )?;
    let doubled = desk.on(Operator::Bvadd, &[x, x])?;
    let one = doubled.saturating_add(1);
    let shifted = doubled.saturating_add(2);
    desk.plans(
        doubled,
        &[
            (x, None),
            (one, None),
            (shifted, None),
            (doubled, Some((Rule::AddSame, shifted))),
        ],
    )?;
    let both = desk.on(Operator::Bvand, &[twice, x])?;
    let settled = both.saturating_add(1);
    desk.plans(
        both,
        &[
            (x, None),
            (negated, None),
            (twice, Some((Rule::BvnotTwice, x))),
            (settled, Some((Rule::AndSame, x))),
            (both, Some((Rule::Inner, settled))),
        ],
    )?;
    let mut full = Desk::of(alloc, 2)?;
    let y = full.word(0, 128)?;
    let sum = full.on(Operator::Bvadd, &[y, y])?;
    full.plans(sum, &[(y, None), (sum, None)])
}

#[test]
fn terms_need_what_their_images_need(rt: HostRuntime) -> Result<(), Fail> {
    let alloc = rt.alloc();
    let mut desk = Desk::of(alloc, 100)?;
    let (x, y) = (desk.word(0, 128)?, desk.word(1, 128)?);
    let doubled = desk.on(Operator::Bvadd, &[x, x])?;
    let one = doubled.saturating_add(1);
    let shifted = doubled.saturating_add(2);
    desk.need(
        doubled,
        doubled,
        &[
            (x, None),
            (one, None),
            (shifted, None),
            (doubled, Some((Rule::AddSame, shifted))),
        ],
    )?;
    let negated = desk.on(Operator::Bvnot, &[x])?;
    let twice = desk.on(Operator::Bvnot, &[negated])?;
    desk.need(
        twice,
        twice,
        &[(x, None), (twice, Some((Rule::BvnotTwice, x)))],
    )?;
    let sum = desk.on(Operator::Bvadd, &[x, y])?;
    let other = desk.on(Operator::Bvnot, &[sum])?;
    let back = desk.on(Operator::Bvnot, &[other])?;
    let both = desk.on(Operator::Bvor, &[sum, sum])?;
    desk.need(
        back,
        both,
        &[
            (x, None),
            (y, None),
            (sum, None),
            (back, Some((Rule::BvnotTwice, sum))),
            (both, Some((Rule::OrSame, sum))),
        ],
    )
}

#[test]
fn choices_that_are_decided_need_one_term(rt: HostRuntime) -> Result<(), Fail> {
    let alloc = rt.alloc();
    let mut desk = Desk::of(alloc, 100)?;
    let (x, y) = (desk.word(0, 128)?, desk.word(1, 128)?);
    let product = desk.on(Operator::Bvmul, &[x, y])?;
    let sure = desk.on(Operator::True, &[])?;
    let open = desk.on(Operator::Ite, &[sure, x, product])?;
    desk.need(open, open, &[(x, None), (open, Some((Rule::Choice, x)))])?;
    let same = desk.on(Operator::Equal, &[product, product])?;
    let hidden = desk.on(Operator::Ite, &[same, y, product])?;
    let settled = hidden.saturating_add(1);
    desk.need(
        hidden,
        hidden,
        &[
            (y, None),
            (settled, Some((Rule::Choice, y))),
            (sure, None),
            (same, Some((Rule::EqualSame, sure))),
            (hidden, Some((Rule::Inner, settled))),
        ],
    )
}
