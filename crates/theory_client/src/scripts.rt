//! Terms of small scripts.

use smt_terms::list::Sorts;
use smt_terms::node::{Op, TermId};
use smt_terms::operator::Operator;
use smt_terms::sort::{DeclId, Signature, Sort};
use smt_terms::terms::Terms;
use std::alloc::Global;
use walk_rows::own::{apply, apply_again, apply_first, declare};

/// A term that is made.
#[derive(Clone, Copy)]
pub(crate) enum Made {
    /// A declared constant.
    Declared(DeclId, Sort),
    /// The word of this width and number.
    Number(u64, u128),
    /// An operator.
    Plain(Operator, &'static [TermId]),
    /// The array of this index width that has this element everywhere.
    Filled(u64, TermId),
    /// The first application of the function of this declaration, from a word to a word of 2 bits.
    First(DeclId, TermId),
    /// A further application of the function of this term.
    Again(TermId, DeclId, TermId),
}

const WORD: Sort = Sort::Word(2);

// The function of this declaration.
fn function(alloc: Global, declaration: DeclId) -> Option<Op> {
    let signature = Signature {
        args: Sorts::of(alloc, &[WORD]).ok()?,
        value: WORD,
    };
    Some(Op::Apply {
        declaration,
        signature,
    })
}

fn make(alloc: Global, terms: &mut Terms, made: Made) -> Option<TermId> {
    match made {
        Made::Declared(declaration, sort) => declare(alloc, terms, declaration, sort),
        Made::Number(width, value) => apply(alloc, terms, Op::Word { width, value }, &[]),
        Made::Plain(operator, args) => apply(alloc, terms, Op::Plain(operator), args),
        Made::Filled(width, element) => {
            apply(alloc, terms, Op::ConstantArray(width), &[element])
        }
        Made::First(declaration, arg) => {
            let op = function(alloc, declaration)?;
            apply_first(alloc, terms, op, &[arg])
        }
        Made::Again(like, declaration, arg) => {
            let op = function(alloc, declaration)?;
            apply_again(alloc, terms, like, op, &[arg])
        }
    }
}

/// The terms of a table; none where one gets another number than its place.
pub(crate) fn terms_of(alloc: Global, table: &[Made]) -> Option<Terms> {
    let mut terms = Terms::new(alloc);
    for made in table {
        let number = terms.len();
        if make(alloc, &mut terms, *made) != Some(number) {
            return None;
        }
    }
    Some(terms)
}
