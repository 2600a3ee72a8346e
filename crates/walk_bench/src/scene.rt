// Terms with bits of their own, and the values of their bits.

use cnf_base::Lit;
use smt_terms::list::Sorts;
use smt_terms::node::{Op, TermId};
use smt_terms::operator::Operator;
use smt_terms::sort::{DeclId, Signature, Sort};
use smt_terms::terms::Terms;
use std::alloc::{AllocError, Global};
use walk_rows::own::{OwnBits, apply, apply_again, apply_first, declare};

/// Bits of each word.
const WIDTH: u32 = 20;

const WORD: Sort = Sort::Word(WIDTH);

const ARRAY: Sort = Sort::Array(WIDTH, WIDTH);

/// Terms with bits of their own, the values of the variables from 1 on, and the terms from which
/// walks begin.
#[derive(Drop)]
pub struct Scene {
    pub terms: Terms,
    pub own: OwnBits,
    pub values: Vec<bool>,
    pub live: Vec<TermId>,
    last: u32,
}

// The operator of a function from words to words.
fn function(alloc: Global, declaration: DeclId) -> Option<Op> {
    let signature = Signature {
        args: Sorts::of(alloc, &[WORD]).ok()?,
        value: WORD,
    };
    Some(Op::Apply {
        declaration,
        signature,
    })
}

impl Scene {
    /// No terms; variable 1 is true.
    pub fn new(alloc: Global) -> Result<Scene, AllocError> {
        let mut values = Vec::new(alloc);
        values.push(true)?;
        Ok(Scene {
            terms: Terms::new(alloc),
            own: OwnBits::new(alloc),
            values,
            live: Vec::new(alloc),
            last: 1,
        })
    }

    // Gives a word bits, which are those of a number.
    fn give(&mut self, alloc: Global, term: TermId, number: u32) -> Option<TermId> {
        let mut row = Vec::new(alloc);
        let mut rest = number;
        for _bit in 0..WIDTH {
            self.last = self.last.checked_add(1)?;
            self.values.push(rest % 2 == 1).ok()?;
            row.push(Lit::new(u64::from(self.last), true)).ok()?;
            rest /= 2;
        }
        self.own.give(term, row.as_slice()).ok()?;
        Some(term)
    }

    /// A declared array.
    pub fn array(&mut self, alloc: Global, declaration: DeclId) -> Option<TermId> {
        declare(alloc, &mut self.terms, declaration, ARRAY)
    }

    /// A declared word, whose value is this number.
    pub fn word(&mut self, alloc: Global, declaration: DeclId, number: u32) -> Option<TermId> {
        let term = declare(alloc, &mut self.terms, declaration, WORD)?;
        self.give(alloc, term, number)
    }

    /// A store.
    pub fn store(
        &mut self,
        alloc: Global,
        array: TermId,
        index: TermId,
        element: TermId,
    ) -> Option<TermId> {
        let op = Op::Plain(Operator::Store);
        apply(alloc, &mut self.terms, op, &[array, index, element])
    }

    /// A select, whose value is 0, among the terms from which walks begin.
    pub fn select(&mut self, alloc: Global, array: TermId, index: TermId) -> Option<TermId> {
        let op = Op::Plain(Operator::Select);
        let term = apply(alloc, &mut self.terms, op, &[array, index])?;
        self.live.push(term).ok()?;
        self.give(alloc, term, 0)
    }

    /// An application of a function that is new or that `like` applies, whose value is 0, among the
    /// terms from which walks begin.
    pub fn call(
        &mut self,
        alloc: Global,
        declaration: DeclId,
        like: Option<TermId>,
        argument: TermId,
    ) -> Option<TermId> {
        let op = function(alloc, declaration)?;
        let term = match like {
            Some(like) => apply_again(alloc, &mut self.terms, like, op, &[argument])?,
            None => apply_first(alloc, &mut self.terms, op, &[argument])?,
        };
        self.live.push(term).ok()?;
        self.give(alloc, term, 0)
    }
}
