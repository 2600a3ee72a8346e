//! To which terms terms lead, with ample memory.

ghost use Rattle.std.specs.Prelude.{◌≡◌, IfOk, None};
ghost use Rattle.smt_terms.specs.Terms.{declaration_of};

use crate::links::Links;
use cnf_base::Lit;
use smt_terms::bits::Bits;
use smt_terms::list::Arguments;
use smt_terms::node::{Node, Op, TermId};
use smt_terms::operator::Operator;
use smt_terms::sort::Sort;
use smt_terms::terms::Terms;
use std::alloc::{AllocError, Global};
use std::test::Fail;
use term_reach::Next;

/// A term that is made.
#[derive(Clone, Copy)]
enum Made {
    /// The parameter of this place and sort.
    Param(u32, Sort),
    /// The array with indexes of width 4 that has this element everywhere.
    Filled(TermId),
    Plain(Operator, &'static [TermId]),
}

/// The terms, each with its place in this table as its number.
const MADE: [Made; 9] = [
    Made::Param(0, Sort::Word(4)),
    Made::Param(1, Sort::Word(8)),
    Made::Filled(1),
    Made::Plain(Operator::Store, &[2, 0, 1]),
    Made::Plain(Operator::Equal, &[2, 3]),
    Made::Plain(Operator::Witness, &[2, 3]),
    Made::Plain(Operator::Select, &[2, 5]),
    Made::Plain(Operator::Select, &[3, 5]),
    Made::Plain(Operator::Equal, &[1, 1]),
];

/// Terms, and those to which they lead where term 8 alone has an image, term 4.
const ROWS: [(TermId, &[TermId]); 6] = [
    (0, &[]),
    (3, &[2, 0, 1]),
    (4, &[2, 3, 6, 7]),
    (5, &[2, 3]),
    (7, &[3, 5]),
    (8, &[4]),
];

fn node_of(alloc: Global, made: Made) -> Result<Node, AllocError>
    ensures { IfOk result (λ n. declaration_of n.op ≡ None) }
{
    match made {
        Made::Param(place, sort) => Ok(Node::leaf(alloc, Op::Param { place, sort })),
        Made::Filled(element) => Ok(Node {
            op: Op::ConstantArray(4),
            args: Arguments::of(alloc, &[element])?,
        }),
        Made::Plain(operator, args) => Ok(Node {
            op: Op::Plain(operator),
            args: Arguments::of(alloc, args)?,
        }),
    }
}

/// The terms of the table; none where one gets another number.
fn terms_of(alloc: Global) -> Result<Option<Terms>, AllocError> {
    let mut terms = Terms::new(alloc);
    for made in &MADE {
        let number = terms.len();
        let node = node_of(alloc, *made)?;
        if terms.make(node) != Ok(number) {
            return Ok(None);
        }
    }
    Ok(Some(terms))
}

/// Whether a term leads to these terms, in this order, and to no other.
fn leads_to(
    links: &Links,
    terms: &Terms,
    term: TermId,
    expected: &[TermId],
) -> Result<bool, AllocError> {
    if term >= terms.len() {
        return Ok(false);
    }
    for place in 0..expected.len() {
        if links.next(terms, term, place)? != Some(expected[place]) {
            return Ok(false);
        }
    }
    Ok(links.next(terms, term, expected.len())?.is_none())
}

#[test]
fn terms_lead_to_images_arguments_and_witness_selects(rt: HostRuntime) -> Result<(), Fail> {
    let alloc = rt.alloc();
    let Some(terms) = terms_of(alloc)? else {
        return Err("a term has another number".into());
    };
    let mut bits = Bits::new(alloc);
    bits.set(4, &[Lit::new(2, true)])?;
    bits.link(8, 4)?;
    let links = Links::new(alloc, &bits);
    for (term, expected) in ROWS {
        assert!(rt; leads_to(&links, &terms, term, expected)?);
    }
    Ok(())
}
