//! Each operator's block at widths 1 to 3 over all inputs, against the operator's value, and the sizes of large blocks.

ghost use Rattle.std.specs.Prelude.{◌≡◌, ◌<◌, ◌≤◌, ◌+◌, true, IfOk, length, vec_len};
ghost use Rattle.smt_terms.specs.Scalars.{is_fixed};
ghost use Rattle.bit_blast.specs.Blocks.{EachShort};

use crate::{Assignment, encode};
use cnf_base::{Circuit, Clause, Lit};
use smt_terms::apply::apply;
use smt_terms::bits::Bits;
use smt_terms::list::Arguments;
use smt_terms::node::{Node, Op, TermId};
use smt_terms::operator::Operator;
use smt_terms::scalar::Scalar;
use smt_terms::sort::Sort;
use smt_terms::terms::Terms;
use std::alloc::{AllocError, Global};
use std::process::Abort;
use std::test::Fail;

const OF_TRUTHS: [Operator; 5] = [
    Operator::And,
    Operator::Or,
    Operator::Xor,
    Operator::Implies,
    Operator::Equal,
];

const OF_WORD: [Operator; 2] = [Operator::Bvnot, Operator::Bvneg];

const OF_WORDS: [Operator; 28] = [
    Operator::Equal,
    Operator::Bvadd,
    Operator::Bvsub,
    Operator::Bvmul,
    Operator::Bvand,
    Operator::Bvor,
    Operator::Bvxor,
    Operator::Bvnand,
    Operator::Bvnor,
    Operator::Bvxnor,
    Operator::Bvudiv,
    Operator::Bvurem,
    Operator::Bvsdiv,
    Operator::Bvsrem,
    Operator::Bvsmod,
    Operator::Bvshl,
    Operator::Bvlshr,
    Operator::Bvashr,
    Operator::Bvult,
    Operator::Bvule,
    Operator::Bvugt,
    Operator::Bvuge,
    Operator::Bvslt,
    Operator::Bvsle,
    Operator::Bvsgt,
    Operator::Bvsge,
    Operator::Bvcomp,
    Operator::Concat,
];

// The literals of the variables from `first` on.
fn variables(alloc: Global, first: u64, width: u32) -> Result<Vec<Lit>, AllocError>
    requires some { 0 < first }
    requires few { first + width ≤ 1000 }
    ensures { IfOk result (λ r. vec_len r ≡ width) }
{
    let mut bits = Vec::new(alloc);
    for k in 0..width {
        bits.push(Lit::new(first + u64::from(k), true))?;
    }
    Ok(bits)
}

fn give(bits: &mut Bits, term: TermId, row: &[Lit]) -> Result<(), Fail>
    ensures { length row.now ≤ 128 → EachShort bits.old → EachShort bits.new }
{
    if bits.of(term).is_some() {
        return Err("a term has bits".into());
    }
    bits.set(term, row)?;
    Ok(())
}

fn fixed(op: &Op) -> bool
    ensures { result ≡ is_fixed op.now }
{
    match op {
        Op::ConstantArray(_) | Op::Constant { .. } | Op::Apply { .. } | Op::Param { .. } => false,
        _ => true,
    }
}

// The value of a term of this sort.
fn value(assignment: &Assignment, bits: &Bits, term: TermId, sort: Sort) -> Result<Scalar, Fail> {
    let Some(row) = bits.of(term) else {
        return Err("a term has no bits".into())
    };
    if row.is_empty() || row.len() > 128 {
        return Err("a term has not as many bits as a word".into());
    }
    match sort {
        Sort::Bool => Ok(Scalar::Bool(assignment.value(row[0]))),
        _ => Ok(Scalar::Word(assignment.word_of(bits, term))),
    }
}

fn is_true(values: &[bool], literal: Lit) -> bool {
    let value = values.get(literal.variable() as usize - 1).copied();
    value.unwrap_or(false) == literal.is_positive()
}

// Gives each gate's variable the value that its clauses force.
fn settle(values: &mut [bool], clauses: &[Clause]) {
    for clause in clauses {
        let literals = clause.literals();
        let Some(&gate) = literals.first() else {
            return;
        };
        let mut others_false = true;
        for &literal in literals {
            if literal.variable() != gate.variable() && is_true(values, literal) {
                others_false = false;
            }
        }
        if others_false {
            if let Some(value) = values.get_mut(gate.variable() as usize - 1) {
                *value = gate.is_positive();
            }
        }
    }
}

// Parameters of these sorts, with bits of their own.
fn parameters(
    terms: &mut Terms,
    bits: &mut Bits,
    alloc: Global,
    sorts: &[Sort],
) -> Result<(Vec<TermId>, u64), Fail>
    requires few { length sorts.now ≤ 3 }
    requires short { EachShort bits.old }
    ensures short { EachShort bits.new }
    ensures next { IfOk result (λ r. (1 < r.1) × (r.1 ≤ 400)) }
{
    let mut held = Vec::new(alloc);
    let mut next = 2u64;
    for (place, sort) in sorts.iter().enumerate() {
        let sort = *sort;
        let op = Op::Param {
            place: place as u32,
            sort,
        };
        let term = terms.make(Node::leaf(alloc, op))?;
        let width = match sort {
            Sort::Word(width) => width.min(128),
            _ => 1,
        };
        let row = variables(alloc, next, width)?;
        give(bits, term, row.as_slice())?;
        next += u64::from(width);
        held.push(term)?;
    }
    Ok((held, next))
}

// The term of an operator over these terms, with its block.
fn built(
    terms: &mut Terms,
    bits: &mut Bits,
    alloc: Global,
    op: &Op,
    args: &[TermId],
    next: u64,
) -> Result<(TermId, Circuit), Fail>
    requires fixed { is_fixed op.now ≡ true }
    requires short { EachShort bits.old }
    requires next { (1 < next) × (next ≤ 400) }
    ensures { IfOk result (λ r. r.0 < length terms.new.nodes) }
{
    let node = Node {
        op: op.copy()?,
        args: Arguments::of(alloc, args)?,
    };
    let term = terms.make(node)?;
    if term >= terms.len() {
        return Err("no such term".into());
    }
    let mut circuit = Circuit::new(alloc, next);
    let Some(row) = encode(terms, bits, term, &mut circuit)? else {
        return Err("no block".into())
    };
    give(bits, term, row.as_slice())?;
    Ok((term, circuit))
}

// The assignment with the bits of the input from variable 2 on that satisfies the circuit, if any does.
fn satisfying(
    alloc: Global,
    input: u64,
    first: u64,
    circuit: &Circuit,
) -> Result<Option<Assignment>, AllocError> {
    let mut values = Vec::new(alloc);
    values.push(true)?;
    let mut rest = input;
    for _variable in 2..first {
        values.push(rest % 2 == 1)?;
        rest /= 2;
    }
    for _gate in first..circuit.next() {
        values.push(false)?;
    }
    settle(values.as_mut_slice(), circuit.clauses());
    let assignment = Assignment::new(values);
    let satisfied = circuit.clauses().iter().all(|clause| clause
        .literals()
        .iter()
        .any(|&literal| assignment.value(literal)));
    Ok(if satisfied { Some(assignment) } else { None })
}

// Where a block ends: its term, the term's sort, and the first variable of its gates.
#[derive(Clone, Copy)]
struct Output {
    term: TermId,
    sort: Sort,
    first: u64,
}

// Whether the block gives the operator's value under this assignment.
fn gives(
    alloc: Global,
    assignment: &Assignment,
    bits: &Bits,
    op: &Op,
    args: &[TermId],
    sorts: &[Sort],
    block: Output,
) -> Result<bool, Fail>
    requires { is_fixed op.now ≡ true }
{
    let mut scalars = Vec::new(alloc);
    for (term, sort) in args.iter().zip(sorts) {
        scalars.push(value(assignment, bits, *term, *sort)?)?;
    }
    let result = value(assignment, bits, block.term, block.sort)?;
    Ok(apply(op, scalars.as_slice()) == Some(result))
}

// Whether the block gives the operator's value for all values of the parameters.
fn gives_always(
    circuit: &Circuit,
    alloc: Global,
    bits: &Bits,
    op: &Op,
    args: &[TermId],
    sorts: &[Sort],
    block: Output,
) -> Result<bool, Fail>
    requires fixed { is_fixed op.now ≡ true }
    requires first { 1 < block.first }
{
    let inputs = 1u64 << (block.first - 2).min(12);
    for input in 0..inputs {
        let Some(assignment) = satisfying(alloc, input, block.first, circuit)? else {
            return Ok(false)
        };
        let given = gives(alloc, &assignment, bits, op, args, sorts, block);
        drop(assignment);
        if !given? {
            return Ok(false);
        }
    }
    Ok(true)
}

// Whether the operator's block over these parameters gives the operator's value, for all their values.
fn agrees_over(
    terms: &mut Terms,
    bits: &mut Bits,
    alloc: Global,
    op: &Op,
    args: &[TermId],
    sorts: &[Sort],
    first: u64,
) -> Result<bool, Fail>
    requires fixed { is_fixed op.now ≡ true }
    requires short { EachShort bits.old }
    requires first { (1 < first) × (first ≤ 400) }
{
    let (term, circuit) = built(terms, bits, alloc, op, args, first)?;
    let block = Output {
        term,
        sort: terms.sort(term),
        first,
    };
    let agreed = gives_always(&circuit, alloc, bits, op, args, sorts, block);
    drop(circuit);
    agreed
}

// The same over parameters of these sorts, which are made first.
fn agrees_of(
    terms: &mut Terms,
    bits: &mut Bits,
    alloc: Global,
    op: &Op,
    sorts: &[Sort],
) -> Result<bool, Fail>
    requires few { length sorts.now ≤ 3 }
    requires short { EachShort bits.old }
{
    if !fixed(op) {
        return Ok(false);
    }
    let (args, first) = parameters(terms, bits, alloc, sorts)?;
    let agreed = agrees_over(terms, bits, alloc, op, args.as_slice(), sorts, first);
    drop(args);
    agreed
}

// The operator's block over parameters of these sorts gives the operator's value, for all their values.
fn agree(rt: &(impl Abort + AllocGlobal), op: Op, sorts: &[Sort]) -> Result<(), Fail>
    requires few { length sorts.now ≤ 3 }
{
    let mut terms = Terms::new(rt.alloc());
    let mut bits = Bits::new(rt.alloc());
    let agreed = agrees_of(&mut terms, &mut bits, rt.alloc(), &op, sorts);
    drop((terms, bits));
    if matches!(&agreed, Ok(false)) {
        panic!(rt; "{op:?} {sorts:?}");
    }
    drop(op);
    let _agreed = agreed?;
    Ok(())
}

// The same of each of these operators.
fn all_agree(
    rt: &(impl Abort + AllocGlobal),
    operators: &[Operator],
    sorts: &[Sort],
) -> Result<(), Fail>
    requires few { length sorts.now ≤ 3 }
{
    for operator in operators {
        agree(rt, Op::Plain(*operator), sorts)?;
    }
    Ok(())
}

#[test]
fn blocks_of_truths_give_the_operators_values(rt: HostRuntime) -> Result<(), Fail> {
    all_agree(&rt, &[Operator::True, Operator::False], &[])?;
    all_agree(&rt, &[Operator::Not], &[Sort::Bool])?;
    all_agree(&rt, &OF_TRUTHS, &[Sort::Bool, Sort::Bool])?;
    all_agree(&rt, &[Operator::Ite], &[Sort::Bool, Sort::Bool, Sort::Bool])
}

#[test]
fn blocks_of_words_give_the_operators_values(rt: HostRuntime) -> Result<(), Fail> {
    for width in 1..4u32 {
        let word = Sort::Word(width);
        all_agree(&rt, &OF_WORD, &[word])?;
        all_agree(&rt, &OF_WORDS, &[word, word])?;
        all_agree(&rt, &[Operator::Concat], &[Sort::Word(2), word])?;
        all_agree(&rt, &[Operator::Ite], &[Sort::Bool, word, word])?;
    }
    Ok(())
}

// The operators of this index, and a literal, of this width.
fn all_agree_at(rt: &(impl Abort + AllocGlobal), index: u64, width: u32) -> Result<(), Fail>
    requires { index < 5 }
{
    let sorts = [Sort::Word(width)];
    agree(rt, Op::ZeroExtend(index), &sorts)?;
    agree(rt, Op::SignExtend(index), &sorts)?;
    agree(rt, Op::RotateLeft(index), &sorts)?;
    agree(rt, Op::RotateRight(index), &sorts)?;
    agree(rt, Op::Repeat(index + 1), &sorts)?;
    let literal = Op::Word {
        width: u64::from(width),
        value: u128::from(index) % 2,
    };
    agree(rt, literal, &[])
}

#[test]
fn blocks_with_an_index_give_the_operators_values(rt: HostRuntime) -> Result<(), Fail> {
    for width in 1..4u32 {
        for index in 0..5u64 {
            all_agree_at(&rt, index, width)?;
        }
        for high in 0..u64::from(width) {
            for low in 0..high + 1 {
                agree(&rt, Op::Extract { high, low }, &[Sort::Word(width)])?;
            }
        }
    }
    Ok(())
}

// How many variables the operator's block over two parameters of 128 bits has.
fn variables_of(
    terms: &mut Terms,
    bits: &mut Bits,
    alloc: Global,
    operator: Operator,
) -> Result<u64, Fail>
    requires short { EachShort bits.old }
{
    let sorts = [Sort::Word(128), Sort::Word(128)];
    let (args, first) = parameters(terms, bits, alloc, &sorts)?;
    let op = Op::Plain(operator);
    let made = built(terms, bits, alloc, &op, args.as_slice(), first);
    drop((args, op));
    let (_, circuit) = made?;
    let next = circuit.next();
    drop(circuit);
    Ok(next.wrapping_sub(first))
}

#[test]
fn blocks_of_128_bits_have_as_many_variables_as_gates(rt: HostRuntime) -> Result<(), Fail> {
    for (operator, gates) in [
        (Operator::Bvshl, 1145),
        (Operator::Bvmul, 32640),
        (Operator::Bvudiv, 66048),
        (Operator::Bvsmod, 68354),
    ] {
        let mut terms = Terms::new(rt.alloc());
        let mut bits = Bits::new(rt.alloc());
        let variables = variables_of(&mut terms, &mut bits, rt.alloc(), operator);
        drop((terms, bits));
        assert_eq!(rt; variables?, gates, "{operator:?}");
        assert!(rt; gates <= 1 << 17);
    }
    Ok(())
}
