//! Clauses and faults of lemmas, with ample memory. Each test walks one table.

ghost use Rattle.std.specs.Prelude.{◌≡◌, ◌+◌, ◌*◌, nat_lt, if◌then◌else◌, Some, None, IfOk};
ghost use Rattle.cnf_base.specs.Literals.{positive_of};
ghost use Rattle.smt_terms.specs.Terms.{declaration_of};

use crate::clauses::{Equalities, clause_of};
use crate::fault::{LemmaError, LemmaFault};
use cnf_base::{Clause, Lit};
use smt_terms::bits::Bits;
use smt_terms::list::{Arguments, Sorts};
use smt_terms::node::{Node, Op, TermId};
use smt_terms::operator::Operator;
use smt_terms::sort::{Signature, Sort};
use smt_terms::terms::Terms;
use std::alloc::{AllocError, Global};
use std::test::Fail;
use theory_terms::lemma::{Access, Lemma, Move, Path, Start};

/// Terms t below u have the variable 100 * (t + 1) + u, where u is below a bound; others have none.
#[derive(Clone, Copy)]
struct Named {
    bound: TermId,
}

impl Equalities for Named {
    ghost equal = { λ e t u. if nat_lt u e.bound then Some (positive_of (100 * (t + 1) + u)) else None };

    fn of(&self, t: TermId, u: TermId) -> Option<Lit> {
        if u < self.bound {
            Some(Lit::new(100 * (u64::from(t) + 1) + u64::from(u), true))
        } else {
            None
        }
    }
}

/// A term that is made.
#[derive(Clone, Copy)]
enum Made {
    /// The parameter of this place and sort.
    Param(u32, Sort),
    /// The array with indexes of width 4 that has this element everywhere.
    Filled(TermId),
    Plain(Operator, &'static [TermId]),
}

/// The terms behind a declared array of words of width 8 by words of width 4, which is term 0. Each has its place in this
/// table, counted from 1, as its number.
const MADE: [Made; 19] = [
    Made::Param(0, Sort::Word(4)),
    Made::Param(1, Sort::Word(4)),
    Made::Param(2, Sort::Word(8)),
    Made::Param(3, Sort::Bool),
    Made::Plain(Operator::Store, &[0, 1, 3]),
    Made::Plain(Operator::Select, &[5, 2]),
    Made::Plain(Operator::Select, &[0, 2]),
    Made::Plain(Operator::Equal, &[0, 5]),
    Made::Plain(Operator::Witness, &[0, 5]),
    Made::Plain(Operator::Select, &[0, 9]),
    Made::Plain(Operator::Select, &[5, 9]),
    Made::Plain(Operator::Ite, &[4, 0, 5]),
    Made::Plain(Operator::Select, &[12, 1]),
    Made::Plain(Operator::Select, &[0, 1]),
    Made::Plain(Operator::Select, &[5, 1]),
    Made::Plain(Operator::Equal, &[5, 0]),
    Made::Filled(3),
    Made::Plain(Operator::Select, &[17, 2]),
    Made::Plain(Operator::Store, &[17, 1, 3]),
];

fn node_of(alloc: Global, made: Made) -> Result<Node, AllocError>
    ensures { IfOk result (λ n. declaration_of n.op ≡ None) }
{
    match made {
        Made::Param(place, sort) => Ok(Node::leaf(alloc, Op::Param { place, sort })),
        Made::Filled(element) => Ok(Node {
            op: Op::ConstantArray(4),
            args: Arguments::of(alloc, &[element])?,
        }),
        Made::Plain(operator, args) => Ok(Node {
            op: Op::Plain(operator),
            args: Arguments::of(alloc, args)?,
        }),
    }
}

/// The terms, the declared array alone; none where it gets another number.
fn array_alone(alloc: Global) -> Option<Terms> {
    let mut terms = Terms::new(alloc);
    let op = Op::Constant {
        declaration: 0,
        sort: Sort::Array(4, 8),
    };
    if terms.make(Node::leaf(alloc, op)) == Ok(0) {
        Some(terms)
    } else {
        None
    }
}

/// The declared array and the terms of the table; none where one gets another number.
fn terms_of(alloc: Global) -> Result<Option<Terms>, AllocError> {
    let Some(mut terms) = array_alone(alloc) else {
        return Ok(None);
    };
    for made in &MADE {
        let number = terms.len();
        let node = node_of(alloc, *made)?;
        if terms.make(node) != Ok(number) {
            return Ok(None);
        }
    }
    Ok(Some(terms))
}

#[derive(Clone, Copy)]
enum Case {
    Congruence(TermId, TermId),
    Witness(TermId),
    Arrays(Start, &'static [Move], Start, &'static [Move]),
}

#[derive(Clone, Copy)]
enum Expected {
    /// These literals, each by its variable, which is negative where the literal is negated.
    Clause(&'static [i64]),
    NoEqual(TermId, TermId),
    Shape,
}

fn access_of(alloc: Global, start: Start, moves: &[Move]) -> Result<Access, AllocError> {
    let path = Path::from_vec(Vec::from_slice(alloc, moves)?);
    Ok(Access { start, path })
}

fn lemma_of(alloc: Global, case: Case) -> Result<Lemma, AllocError> {
    match case {
        Case::Congruence(t, u) => Ok(Lemma::Congruence(t, u)),
        Case::Witness(t) => Ok(Lemma::Witness(t)),
        Case::Arrays(start, moves, other, others) => Ok(Lemma::Arrays(
            access_of(alloc, start, moves)?,
            access_of(alloc, other, others)?,
        )),
    }
}

fn is_literal(literal: Lit, number: i64) -> bool {
    literal.variable() == number.unsigned_abs() && literal.is_positive() == (number > 0)
}

fn are_literals(clause: &Clause, numbers: &[i64]) -> bool {
    if clause.len() != numbers.len() {
        return false;
    }
    let mut literals = clause.literals().iter();
    for number in numbers {
        match literals.next() {
            Some(literal) => {
                if !is_literal(*literal, *number) {
                    return false;
                }
            }
            None => return false,
        }
    }
    true
}

fn is_expected(given: &Result<Clause, LemmaError>, expected: Expected) -> bool {
    match (given, expected) {
        (Ok(clause), Expected::Clause(numbers)) => are_literals(clause, numbers),
        (Err(LemmaError::Fault(LemmaFault::NoEqual(t, u))), Expected::NoEqual(v, w)) => {
            *t == v && *u == w
        }
        (Err(LemmaError::Fault(LemmaFault::Shape)), Expected::Shape) => true,
        _ => false,
    }
}

const STORED: Case = Case::Arrays(Start::Term(6), &[Move::Store(5)], Start::Term(7), &[]);

const CHOSEN: Case = Case::Arrays(Start::Term(13), &[Move::Then(12)], Start::Term(14), &[]);

const REFUSED: Case = Case::Arrays(Start::Term(13), &[Move::Else(12)], Start::Term(15), &[]);

/// A lemma, the bound below which equalities have variables, and what it gives.
const ROWS: [(Case, TermId, Expected); 24] = [
    (STORED, 20, Expected::Clause(&[202, -1, 707])),
    (STORED, 7, Expected::NoEqual(6, 7)),
    (STORED, 1, Expected::NoEqual(1, 2)),
    (CHOSEN, 20, Expected::Clause(&[-40, -1, 1414])),
    (REFUSED, 20, Expected::Clause(&[40, -1, 1415])),
    (
        Case::Arrays(Start::Term(5), &[Move::Store(5)], Start::Term(7), &[]),
        20,
        Expected::Clause(&[1, -202, 407]),
    ),
    (
        Case::Arrays(Start::Term(7), &[Move::Sides(8)], Start::Term(15), &[]),
        20,
        Expected::Clause(&[-30, -202, 815]),
    ),
    (Case::Witness(8), 20, Expected::Clause(&[30, -1111])),
    (Case::Witness(8), 11, Expected::NoEqual(10, 11)),
    (
        Case::Arrays(Start::Term(14), &[Move::Sides(16)], Start::Term(15), &[]),
        20,
        Expected::Shape,
    ),
    (
        Case::Arrays(Start::Term(6), &[], Start::Term(7), &[]),
        20,
        Expected::Shape,
    ),
    (
        Case::Arrays(Start::Term(6), &[Move::Then(5)], Start::Term(7), &[]),
        20,
        Expected::Shape,
    ),
    (
        Case::Arrays(Start::Term(7), &[Move::Else(12)], Start::Term(13), &[]),
        20,
        Expected::Shape,
    ),
    (
        Case::Arrays(Start::Const(5, 1), &[], Start::Term(6), &[]),
        20,
        Expected::Shape,
    ),
    (
        Case::Arrays(Start::Term(12), &[], Start::Term(7), &[]),
        20,
        Expected::Shape,
    ),
    (
        Case::Arrays(Start::Const(17, 2), &[], Start::Term(18), &[]),
        20,
        Expected::Clause(&[-1, 418]),
    ),
    (
        Case::Arrays(Start::Const(17, 1), &[], Start::Term(18), &[]),
        20,
        Expected::Clause(&[-202, 418]),
    ),
    (
        Case::Arrays(
            Start::Const(17, 1),
            &[Move::Store(19)],
            Start::Term(19),
            &[],
        ),
        20,
        Expected::Clause(&[1, -1, 1]),
    ),
    (
        Case::Arrays(Start::Const(17, 3), &[], Start::Term(18), &[]),
        20,
        Expected::Shape,
    ),
    (
        Case::Arrays(Start::Const(17, 99), &[], Start::Term(18), &[]),
        20,
        Expected::Shape,
    ),
    (Case::Witness(16), 20, Expected::Shape),
    (Case::Witness(12), 20, Expected::Shape),
    (Case::Congruence(6, 7), 20, Expected::Shape),
    (Case::Congruence(99, 99), 20, Expected::Shape),
];

#[test]
fn lemmas_have_their_clauses_and_faults(rt: HostRuntime) -> Result<(), Fail> {
    let alloc = rt.alloc();
    let Some(terms) = terms_of(alloc)? else {
        return Err("a term has another number".into());
    };
    let mut bits = Bits::new(alloc);
    bits.set(8, &[Lit::new(30, true)])?;
    bits.set(4, &[Lit::new(40, true)])?;
    for (case, bound, expected) in ROWS {
        let lemma = lemma_of(alloc, case)?;
        let given = clause_of(alloc, &terms, &bits, &Named { bound }, &lemma);
        assert!(rt; is_expected(&given, expected));
    }
    Ok(())
}

/// A missing bit is told before a missing equality.
#[test]
fn a_shape_is_told_before_an_equality(rt: HostRuntime) -> Result<(), Fail> {
    let alloc = rt.alloc();
    let Some(terms) = terms_of(alloc)? else {
        return Err("a term has another number".into());
    };
    let bits = Bits::new(alloc);
    for case in [CHOSEN, REFUSED, Case::Witness(8)] {
        let lemma = lemma_of(alloc, case)?;
        let given = clause_of(alloc, &terms, &bits, &Named { bound: 0 }, &lemma);
        assert!(rt; is_expected(&given, Expected::Shape));
    }
    Ok(())
}

const WORD: Sort = Sort::Word(4);

/// A parameter, which is term 0, and as term 1 the application of a declared function to it twice; none where one gets
/// another number.
fn one_application(alloc: Global) -> Result<Option<Terms>, AllocError> {
    let mut terms = Terms::new(alloc);
    let parameter = Op::Param {
        place: 0,
        sort: WORD,
    };
    if terms.make(Node::leaf(alloc, parameter)) != Ok(0) {
        return Ok(None);
    }
    let signature = Signature {
        args: Sorts::from_vec(Vec::from_array(alloc, [WORD, WORD])?),
        value: WORD,
    };
    let op = Op::Apply {
        declaration: 0,
        signature,
    };
    let args = Arguments::of(alloc, &[0, 0])?;
    if terms.make(Node { op, args }) == Ok(1) {
        Ok(Some(terms))
    } else {
        Ok(None)
    }
}

/// Whether the operator of term 1 over these arguments gets the next number.
fn is_applied_next(alloc: Global, terms: &mut Terms, args: &[TermId]) -> Result<bool, AllocError> {
    let number = terms.len();
    if number < 2 {
        return Ok(false);
    }
    let op = terms.node(1).op.copy()?;
    let args = Arguments::of(alloc, args)?;
    Ok(terms.make(Node { op, args }) == Ok(number))
}

/// The arguments of terms 2 to 4, which are applications of the function of term 1.
const APPLIED: [&[TermId]; 3] = [&[0, 1], &[1, 0], &[2, 3]];

/// Two terms, the bound below which equalities have variables, and what the congruence of the terms gives.
const CONGRUENT: [(TermId, TermId, TermId, Expected); 10] = [
    (1, 2, 5, Expected::Clause(&[-1, -101, 202])),
    (3, 4, 5, Expected::Clause(&[-202, -103, 404])),
    (4, 3, 5, Expected::Clause(&[-202, -103, 404])),
    (2, 2, 5, Expected::Clause(&[-1, -1, 1])),
    (3, 4, 4, Expected::NoEqual(3, 4)),
    (3, 4, 3, Expected::NoEqual(0, 3)),
    (4, 3, 0, Expected::NoEqual(1, 2)),
    (1, 0, 5, Expected::Shape),
    (0, 1, 5, Expected::Shape),
    (1, 5, 5, Expected::Shape),
];

#[test]
fn applications_have_their_congruences(rt: HostRuntime) -> Result<(), Fail> {
    let alloc = rt.alloc();
    let Some(mut terms) = one_application(alloc)? else {
        return Err("a term has another number".into());
    };
    for args in APPLIED {
        let is_next = is_applied_next(alloc, &mut terms, args)?;
        assert!(rt; is_next);
    }
    let bits = Bits::new(alloc);
    for (t, u, bound, expected) in CONGRUENT {
        let lemma = Lemma::Congruence(t, u);
        let given = clause_of(alloc, &terms, &bits, &Named { bound }, &lemma);
        assert!(rt; is_expected(&given, expected));
    }
    Ok(())
}
