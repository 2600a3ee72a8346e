//! The log of the assertion that the square of a word of eight bits is a number.

ghost use Rattle.std.specs.Prelude.{◌≡◌, None, IfOk};
ghost use Rattle.smt_terms.specs.Terms.{declaration_of};
ghost use Rattle.proof_log.specs.Stored.{Stands};
ghost use Rattle.proof_log.specs.Faults.{IsDeclared};

use proof_log::Log;
use proof_log::entry::Entry;
use smt_terms::list::Arguments;
use smt_terms::node::{Node, Op, TermId};
use smt_terms::operator::Operator;
use smt_terms::sort::Sort;
use smt_terms::terms::Terms;
use std::alloc::{AllocError, Global};

/// The lowest variable of the word's bits, and the one behind the highest.
pub(crate) const BITS: (u64, u64) = (2, 10);

/// A log, and the terms that it stands over.
#[derive(Drop)]
pub(crate) struct Proof {
    pub(crate) log: Log,
    pub(crate) terms: Terms,
}

// Term 0 is a declared word.
fn one_word(alloc: Global) -> Result<Terms, AllocError> {
    let mut terms = Terms::new(alloc);
    let op = Op::Constant {
        declaration: 0,
        sort: Sort::Word(8),
    };
    match terms.make(Node::leaf(alloc, op)) {
        Ok(_) => Ok(terms),
        Err(_) => {
            drop(terms);
            Err(AllocError)
        }
    }
}

// A log without a step over the word.
fn begun(alloc: Global) -> Result<Proof, AllocError>
    ensures { IfOk result (λ p. Stands p.terms.nodes p.log) }
{
    let terms = one_word(alloc)?;
    match Log::new(alloc) {
        Ok(log) => Ok(Proof { log, terms }),
        Err(error) => {
            drop(terms);
            Err(error)
        }
    }
}

// A step that is valid, or want of memory.
fn add(proof: &mut Proof, alloc: Global, entry: Entry) -> Result<(), AllocError>
    requires stands { Stands proof.old.terms.nodes proof.old.log }
    requires declared { IsDeclared proof.old.terms entry }
    ensures { Stands proof.new.terms.nodes proof.new.log }
{
    match proof.log.try_push(alloc, &mut proof.terms, entry) {
        Ok(_) => Ok(()),
        Err(_) => Err(AllocError),
    }
}

// The node of an operator over two terms.
fn over(alloc: Global, operator: Operator, args: &[TermId]) -> Result<Node, AllocError>
    ensures { IfOk result (λ n. declaration_of n.op ≡ None) }
{
    let args = Arguments::of(alloc, args)?;
    Ok(Node {
        op: Op::Plain(operator),
        args,
    })
}

// The node of a word of eight bits.
fn literal(alloc: Global, value: u128) -> Node
    ensures { declaration_of result.op ≡ None }
{
    Node {
        op: Op::Word { width: 8, value },
        args: Arguments::none(alloc),
    }
}

// Term 1 is the square, 2 the number and 3 their equality, which is assertion 0.
fn log_square(proof: &mut Proof, alloc: Global, value: u128) -> Result<(), AllocError>
    requires { Stands proof.old.terms.nodes proof.old.log }
    ensures { Stands proof.new.terms.nodes proof.new.log }
{
    let square = over(alloc, Operator::Bvmul, &[0, 0])?;
    add(proof, alloc, Entry::Node(square))?;
    add(proof, alloc, Entry::Node(literal(alloc, value)))?;
    let equal = over(alloc, Operator::Equal, &[1, 2])?;
    add(proof, alloc, Entry::Node(equal))?;
    add(proof, alloc, Entry::Leaf(0))?;
    add(proof, alloc, Entry::Encode(1))?;
    add(proof, alloc, Entry::Encode(2))?;
    add(proof, alloc, Entry::Encode(3))?;
    add(proof, alloc, Entry::Selector(0, 3))?;
    Ok(())
}

/// The log of the assertion that the square of the word is this number.
pub(crate) fn square(alloc: Global, value: u128) -> Result<Proof, AllocError>
    ensures { IfOk result (λ p. Stands p.terms.nodes p.log) }
{
    let mut proof = begun(alloc)?;
    match log_square(&mut proof, alloc, value) {
        Ok(()) => Ok(proof),
        Err(error) => {
            drop(proof);
            Err(error)
        }
    }
}
