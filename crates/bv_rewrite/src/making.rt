// Terms of a shape.

ghost use Rattle.std.specs.Prelude.{◌≡◌, ◌≤◌, ◌-◌, ◌^◌, [], ◌∷◌, None, IfOk};
ghost use Rattle.smt_terms.specs.declared.node.Op.{Op as OpValue};
ghost use Rattle.smt_terms.specs.declared.node.Op.TheVariants as op;
ghost use Rattle.smt_terms.specs.Nodes.{leaf};
ghost use Rattle.smt_terms.specs.Ranks.{width_of};
ghost use Rattle.smt_terms.specs.Terms.{Makes, make, declaration_of};
ghost use Rattle.bv_rewrite.specs.Making.{on_one, on_two, word_node, made_beside, made_shape, IsRanked};

use crate::shape::Shape;
use bv_rules::reading::width;
use smt_terms::fault::MakeError;
use smt_terms::list::Arguments;
use smt_terms::node::{Node, Op, TermId};
use smt_terms::operator::Operator;
use smt_terms::sort::Sort;
use smt_terms::terms::Terms;
use std::alloc::Global;

/// The width of a word's sort, 0 of every other.
fn width_of(sort: Sort) -> u32
    ensures { result ≡ width_of sort }
{
    match sort {
        Sort::Word(width) => width,
        _ => 0,
    }
}

/// The word of this width whose bits are all 1.
fn ones(width: u32) -> u128
    requires { width ≤ 128 }
    ensures { result ≡ 2 ^ width - 1 }
{
    if width == 0 {
        0
    } else {
        u128::MAX >> (128 - width)
    }
}

/// The term of a literal.
fn literal(alloc: Global, terms: &mut Terms, width: u32, value: u128) -> Result<TermId, MakeError>
    ensures { Makes (make terms.old (word_node width value)) result terms.old terms.new }
{
    let width = u64::from(width);
    terms.make(Node::leaf(alloc, Op::Word { width, value }))
}

/// The term of an operator and a term.
fn on_one(alloc: Global, terms: &mut Terms, op: Op, x: TermId) -> Result<TermId, MakeError>
    requires { declaration_of op ≡ None }
    ensures { Makes (make terms.old (on_one op x)) result terms.old terms.new }
{
    let args = Arguments::of(alloc, &[x])?;
    terms.make(Node { op, args })
}

/// The term of an operator and two terms.
fn on_two(
    alloc: Global,
    terms: &mut Terms,
    operator: Operator,
    x: TermId,
    y: TermId,
) -> Result<TermId, MakeError>
    ensures { Makes (make terms.old (on_two (op.Plain operator) x y)) result terms.old terms.new }
{
    let args = Arguments::of(alloc, &[x, y])?;
    let op = Op::Plain(operator);
    terms.make(Node { op, args })
}

/// The term of an operator, a term, and another that is made first. Where the second is refused, the first is forgotten.
fn beside(
    alloc: Global,
    terms: &mut Terms,
    operator: Operator,
    x: TermId,
    other: Node,
) -> Result<TermId, MakeError>
    requires { declaration_of other.op ≡ None }
    ensures { Makes (made_beside terms.old operator x other) result terms.old terms.new }
{
    let before = terms.len();
    let y = terms.make(other)?;
    match on_two(alloc, terms, operator, x, y) {
        Ok(term) => Ok(term),
        Err(error) => {
            terms.cut(before);
            Err(error)
        }
    }
}

/// The term of this shape and sort, made where it is not there. A fault is that of the limit of terms alone, and then, as
/// for want of memory, the terms are as before.
pub fn make(alloc: Global, terms: &mut Terms, shape: Shape, sort: Sort) -> Result<TermId, MakeError>
    requires { IsRanked terms.old.nodes sort shape }
    ensures { Makes (made_shape terms.old sort shape) result terms.old terms.new }
{
    match shape {
        Shape::Term(term) => Ok(term),
        Shape::Truth(true) => terms.make(Node::leaf(alloc, Op::Plain(Operator::True))),
        Shape::Truth(false) => terms.make(Node::leaf(alloc, Op::Plain(Operator::False))),
        Shape::Word(value) => literal(alloc, terms, width_of(sort), value),
        Shape::Ones => {
            let width = width_of(sort);
            literal(alloc, terms, width, ones(width))
        }
        Shape::One(operator, x) => on_one(alloc, terms, Op::Plain(operator), x),
        Shape::Two(operator, x, y) => on_two(alloc, terms, operator, x, y),
        Shape::WithWord(operator, x, value) => {
            let width = u64::from(width(terms, x));
            let word = Node::leaf(alloc, Op::Word { width, value });
            beside(alloc, terms, operator, x, word)
        }
        Shape::WithNegated(x, y) => {
            let op = Op::Plain(Operator::Bvneg);
            let args = Arguments::of(alloc, &[y])?;
            beside(alloc, terms, Operator::Bvadd, x, Node { op, args })
        }
        Shape::Bits(high, low, x) => {
            let (high, low) = (high as u64, low as u64);
            on_one(alloc, terms, Op::Extract { high, low }, x)
        }
    }
}
