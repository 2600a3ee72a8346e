//! Each circuit at widths 1 to 4 over all inputs, against the calls of `smt_words`.

ghost use Rattle.std.specs.Prelude.{◌≡◌, ◌<◌, ◌≤◌, ◌+◌, IfOk, length, vec_len};

use crate::{divide, mul, sdiv, smod, srem};
use cnf_base::{Circuit, Clause, Lit};
use smt_words::Word;
use std::alloc::{AllocError, Global};
use std::test::Fail;

#[derive(Clone, Copy, Debug)]
enum Operator {
    Product,
    Quotient,
    Remainder,
    SignedQuotient,
    SignedRemainder,
    SignedModulus,
}

const OPERATORS: [Operator; 6] = [
    Operator::Product,
    Operator::Quotient,
    Operator::Remainder,
    Operator::SignedQuotient,
    Operator::SignedRemainder,
    Operator::SignedModulus,
];

// The literals of the variables from `first` on.
fn row(alloc: Global, first: u64, width: u32) -> Result<Vec<Lit>, AllocError>
    requires some { 0 < first }
    requires few { first + width ≤ 100 }
    ensures { IfOk result (λ r. vec_len r ≡ width) }
{
    let mut bits = Vec::new(alloc);
    for k in 0..width {
        bits.push(Lit::new(first + u64::from(k), true))?;
    }
    Ok(bits)
}

// The bits that the operator's circuit gives.
fn encoded(
    circuit: &mut Circuit,
    operator: Operator,
    a: &[Lit],
    b: &[Lit],
) -> Result<Vec<Lit>, AllocError>
    requires some { 0 < length a.now }
    requires few { length a.now ≤ 4 }
    requires same { length a.now ≡ length b.now }
    requires room { circuit.old.next ≤ 100 }
{
    match operator {
        Operator::Product => mul(circuit, a, b),
        Operator::Quotient => Ok(divide(circuit, a, b)?.0),
        Operator::Remainder => Ok(divide(circuit, a, b)?.1),
        Operator::SignedQuotient => sdiv(circuit, a, b),
        Operator::SignedRemainder => srem(circuit, a, b),
        Operator::SignedModulus => smod(circuit, a, b),
    }
}

// The number that the operator gives of two words.
fn wanted(operator: Operator, s: Word, t: Word) -> u128
    requires { s.width ≡ t.width }
{
    let word = match operator {
        Operator::Product => s.bvmul(t),
        Operator::Quotient => s.bvudiv(t),
        Operator::Remainder => s.bvurem(t),
        Operator::SignedQuotient => s.bvsdiv(t),
        Operator::SignedRemainder => s.bvsrem(t),
        Operator::SignedModulus => s.bvsmod(t),
    };
    word.value()
}

fn is_true(values: &[bool], literal: Lit) -> bool {
    let value = values.get(literal.variable() as usize).copied();
    value.unwrap_or(false) == literal.is_positive()
}

// Gives each gate's variable the value that its clauses force, and tells whether all clauses are true then.
fn evaluate(values: &mut [bool], clauses: &[Clause]) -> bool {
    for clause in clauses {
        let literals = clause.literals();
        let Some(&gate) = literals.first() else {
            return false;
        };
        let mut others_false = true;
        for &literal in literals {
            if literal.variable() != gate.variable() && is_true(values, literal) {
                others_false = false;
            }
        }
        if others_false {
            if let Some(value) = values.get_mut(gate.variable() as usize) {
                *value = gate.is_positive();
            }
        }
    }
    clauses.iter().all(|clause| clause
        .literals()
        .iter()
        .any(|&literal| is_true(values, literal)))
}

fn number(values: &[bool], bits: &[Lit]) -> u128 {
    let mut total = 0u128;
    let mut place = 1u128;
    for &bit in bits {
        if is_true(values, bit) {
            total = total.wrapping_add(place);
        }
        place = place.wrapping_mul(2);
    }
    total
}

#[test]
fn circuits_give_the_numbers_of_the_words(rt: HostRuntime) -> Result<(), Fail> {
    for width in 1..5u32 {
        for operator in OPERATORS {
            let a = row(rt.alloc(), 2, width)?;
            let b = row(rt.alloc(), 2 + u64::from(width), width)?;
            let mut circuit = Circuit::new(rt.alloc(), 2 + 2 * u64::from(width));
            let bits = encoded(&mut circuit, operator, a.as_slice(), b.as_slice())?;
            for input in 0..1u128 << (2 * width) {
                let mut values = [false; 256];
                values[1] = true;
                for k in 0..2 * width {
                    values[2 + k as usize] = (input >> k) & 1 == 1;
                }
                assert!(rt; evaluate(&mut values, circuit.clauses()));
                let x = number(&values, a.as_slice());
                let y = number(&values, b.as_slice());
                let (Some(s), Some(t)) = (Word::new(width, x), Word::new(width, y)) else {
                    return Err("no such word".into());
                };
                assert_eq!(rt;
                    number(&values, bits.as_slice()),
                    wanted(operator, s, t),
                    "{operator:?} {width} {x} {y}"
                );
            }
        }
    }
    Ok(())
}
