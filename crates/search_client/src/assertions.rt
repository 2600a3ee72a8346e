//! The log of the assertions (or p q), (or p (not q)), (or (not p) q) and (or (not p) (not q)).

ghost use Rattle.std.specs.Prelude.{◌≡◌, [], ◌≤◌, ◌↔◌, IsTrue, IfOk, OnOk, IfSome, None};
ghost use Rattle.cnf_base.specs.Assignments.{AreBelow};
ghost use Rattle.smt_terms.specs.Terms.{declaration_of};
ghost use Rattle.proof_log.specs.declared.entry.Entry.TheVariants.{Chain};
ghost use Rattle.proof_log.specs.Stored.{Stands};
ghost use Rattle.proof_log.specs.Faults.{IsDeclared};
ghost use Rattle.search_client.specs.Putting.{MayBePut};

use cnf_base::{Clause, ClauseId, Lit};
use hint_chain::{Marks, follows};
use proof_log::entry::{Entry, Hints};
use proof_log::{Log, stored_logs_are_settled};
use smt_terms::list::Arguments;
use smt_terms::node::{Node, Op, TermId};
use smt_terms::operator::Operator;
use smt_terms::sort::Sort;
use smt_terms::terms::Terms;
use std::alloc::{AllocError, Global};

// A declared truth value.
fn constant(alloc: Global, declaration: u32) -> Node
    ensures { result ≡ record { op = Op.Constant declaration Sort.Bool; args = [] } }
{
    let op = Op::Constant {
        declaration,
        sort: Sort::Bool,
    };
    Node::leaf(alloc, op)
}

// Terms 0 and 1 are p and q.
fn two_constants(alloc: Global) -> Result<Terms, AllocError> {
    let mut terms = Terms::new(alloc);
    let Ok(_) = terms.make(constant(alloc, 0)) else {
        drop(terms);
        return Err(AllocError);
    };
    let Ok(_) = terms.make(constant(alloc, 1)) else {
        drop(terms);
        return Err(AllocError);
    };
    Ok(terms)
}

// A node over others.
pub(crate) fn over(alloc: Global, operator: Operator, args: &[TermId]) -> Result<Node, AllocError>
    ensures { IfOk result (λ n. declaration_of n.op ≡ None) }
{
    let args = Arguments::of(alloc, args)?;
    Ok(Node {
        op: Op::Plain(operator),
        args,
    })
}

// Makes a term over others.
fn make_over(
    alloc: Global,
    terms: &mut Terms,
    operator: Operator,
    args: &[TermId],
) -> Result<(), AllocError> {
    match terms.make(over(alloc, operator, args)?) {
        Ok(_) => Ok(()),
        Err(_) => Err(AllocError),
    }
}

// Terms 2 and 3 are (not p) and (not q), and term k + 4 is that of assertion k.
fn make_assertions(alloc: Global, terms: &mut Terms) -> Result<(), AllocError> {
    for literal in [0, 1] {
        make_over(alloc, terms, Operator::Not, &[literal])?;
    }
    for (left, right) in [(0, 1), (0, 3), (2, 1), (2, 3)] {
        make_over(alloc, terms, Operator::Or, &[left, right])?;
    }
    Ok(())
}

// The terms of the assertions.
fn terms(alloc: Global) -> Result<Terms, AllocError> {
    let mut terms = two_constants(alloc)?;
    match make_assertions(alloc, &mut terms) {
        Ok(()) => Ok(terms),
        Err(error) => {
            drop(terms);
            Err(error)
        }
    }
}

// A log, and the terms that it stands over.
#[derive(Drop)]
pub(crate) struct Proof {
    pub(crate) log: Log,
    pub(crate) terms: Terms,
}

// A step that is valid, or want of memory.
pub(crate) fn add(proof: &mut Proof, alloc: Global, entry: Entry) -> Result<(), AllocError>
    requires stands { Stands proof.old.terms.nodes proof.old.log }
    requires declared { IsDeclared proof.old.terms entry }
    ensures { Stands proof.new.terms.nodes proof.new.log }
{
    match proof.log.try_push(alloc, &mut proof.terms, entry) {
        Ok(_) => Ok(()),
        Err(_) => Err(AllocError),
    }
}

// Logs the first assertions, so many of them. The variables of p and q are 2 and 3, those of assertion k are 2 k + 4, which is
// false where its term is true, and 2 k + 5, its selector.
fn log_assertions(proof: &mut Proof, alloc: Global, assertions: u32) -> Result<(), AllocError>
    requires few { assertions ≤ 4 }
    requires stands { Stands proof.old.terms.nodes proof.old.log }
    ensures { OnOk result (Stands proof.new.terms.nodes proof.new.log) }
{
    add(proof, alloc, Entry::Leaf(0))?;
    add(proof, alloc, Entry::Leaf(1))?;
    add(proof, alloc, Entry::Encode(2))?;
    add(proof, alloc, Entry::Encode(3))?;
    'assertions: for assertion in 0..assertions {
        add(proof, alloc, Entry::Encode(assertion + 4))?;
        add(proof, alloc, Entry::Selector(assertion, assertion + 4))?;
    }
    Ok(())
}

// A log without a step over these terms.
pub(crate) fn opened(alloc: Global, terms: Terms) -> Result<Proof, AllocError>
    ensures { IfOk result (λ p. Stands p.terms.nodes p.log) }
{
    match Log::new(alloc) {
        Ok(log) => Ok(Proof { log, terms }),
        Err(error) => {
            drop(terms);
            Err(error)
        }
    }
}

// The log of the first assertions, so many of them.
fn logged(alloc: Global, assertions: u32) -> Result<Proof, AllocError>
    requires { assertions ≤ 4 }
    ensures { IfOk result (λ p. Stands p.terms.nodes p.log) }
{
    let mut proof = opened(alloc, terms(alloc)?)?;
    match log_assertions(&mut proof, alloc, assertions) {
        Ok(()) => Ok(proof),
        Err(error) => {
            drop(proof);
            Err(error)
        }
    }
}

pub(crate) fn are_below(variables: u64, literals: &[Lit]) -> bool
    ensures { IsTrue result ↔ AreBelow variables literals.now }
{
    literals.iter().all(|l| l.variable() < variables)
}

// The selectors of the assertions.
fn selectors(alloc: Global, log: &Log, assertions: u32) -> Result<Vec<Lit>, AllocError>
    ensures { IfOk result (λ v. AreBelow log.now.next v.items) }
{
    let mut selectors = Vec::new(alloc);
    for assertion in 0..assertions {
        if let Some(selector) = log.selector(assertion) {
            selectors.push(selector)?;
        }
    }
    if !are_below(log.next(), selectors.as_slice()) {
        return Err(AllocError);
    }
    Ok(selectors)
}

// The log of the first assertions, so many of them, and their selectors.
pub(crate) fn asserted(alloc: Global, assertions: u32) -> Result<(Proof, Vec<Lit>), AllocError>
    requires { assertions ≤ 4 }
    ensures stands { IfOk result (λ r. Stands r.0.terms.nodes r.0.log) }
    ensures below { IfOk result (λ r. AreBelow r.0.log.next r.1.items) }
{
    let proof = logged(alloc, assertions)?;
    match selectors(alloc, &proof.log, assertions) {
        Ok(selectors) => Ok((proof, selectors)),
        Err(error) => {
            drop(proof);
            Err(error)
        }
    }
}

// Whether a clause follows by these hints from those of a log.
fn is_chain(
    alloc: Global,
    proof: &Proof,
    clause: &Clause,
    hints: &Hints,
) -> Result<bool, AllocError>
    requires { Stands proof.now.terms.nodes proof.now.log }
    ensures { IfOk result (λ b. IsTrue b
        → MayBePut proof.now.terms.nodes proof.now.log.entries (Chain clause.now hints.now)) }
{
    stored_logs_are_settled();
    let _terms = proof.terms.len();
    let next = proof.log.next();
    let mut marks = Marks::new(alloc);
    marks.reserve(next)?;
    Ok(are_below(next, clause.literals()) && follows(&proof.log, clause, hints, &mut marks).is_ok())
}

// The chain of the clause of p and the opposites of the first two selectors: by the first two assertions.
fn first_chain(alloc: Global, proof: &Proof) -> Result<Entry, AllocError>
    requires { Stands proof.now.terms.nodes proof.now.log }
    ensures { IfOk result (MayBePut proof.now.terms.nodes proof.now.log.entries) }
{
    let clause = Clause::of_three(
        alloc,
        Lit::new(2, true),
        Lit::new(5, false),
        Lit::new(7, false),
    )?;
    let names = [
        ClauseId { pos: 6, part: 0 },
        ClauseId { pos: 5, part: 2 },
        ClauseId { pos: 8, part: 0 },
        ClauseId { pos: 7, part: 2 },
    ];
    let hints = Hints::of(alloc, &names)?;
    if !is_chain(alloc, proof, &clause, &hints)? {
        return Err(AllocError);
    }
    Ok(Entry::Chain(clause, hints))
}

// What the first `sync` of a board tells: that chain, or nothing.
pub(crate) fn told_chain(
    alloc: Global,
    proof: &Proof,
    tells: bool,
) -> Result<Option<Entry>, AllocError>
    requires { Stands proof.now.terms.nodes proof.now.log }
    ensures { IfOk result (λ o. IfSome o (MayBePut proof.now.terms.nodes proof.now.log.entries)) }
{
    if !tells {
        return Ok(None);
    }
    let chain = first_chain(alloc, proof)?;
    Ok(Some(chain))
}
