//! Calls with ample memory.

use crate::{Circuit, Clause, GateKind, Lit};
use std::alloc::{AllocError, Global};
use std::test::Fail;

fn yes(variable: u64) -> Lit {
    Lit::new(variable.clamp(1, 99), true)
}

fn no(variable: u64) -> Lit {
    yes(variable).negated()
}

// The clauses of an exclusive or of variables 2 and 3 in variable 4, as G. S. Tseitin gives them.
fn exclusive_or(alloc: Global) -> Result<[Clause; 4], AllocError> {
    Ok([
        Clause::of_three(alloc, no(4), yes(2), yes(3))?,
        Clause::of_three(alloc, no(4), no(2), no(3))?,
        Clause::of_three(alloc, yes(4), no(2), yes(3))?,
        Clause::of_three(alloc, yes(4), yes(2), no(3))?,
    ])
}

#[test]
fn a_gate_has_its_clauses(rt: HostRuntime) -> Result<(), Fail> {
    let mut circuit = Circuit::new(rt.alloc(), 4);
    let gate = circuit.gate(GateKind::Xor(yes(2), yes(3)))?;
    assert_eq!(rt; gate, yes(4));
    let expected = exclusive_or(rt.alloc())?;
    assert!(rt; circuit.clauses() == expected.as_slice());
    Ok(())
}

#[test]
fn rows_of_gates_take_the_next_variables(rt: HostRuntime) -> Result<(), Fail> {
    let mut circuit = Circuit::new(rt.alloc(), 2);
    let a = [circuit.fresh(), circuit.fresh()];
    let b = [circuit.fresh(), circuit.fresh()];
    let (sum, carry) = circuit.add_with(&a, &b, Lit::FALSE)?;
    assert_eq!(rt; sum.as_slice(), [yes(7), yes(10)].as_slice());
    assert_eq!(rt; carry, yes(11));
    let chosen = circuit.mux(carry, &a, sum.as_slice())?;
    assert_eq!(rt; chosen.as_slice(), [yes(12), yes(13)].as_slice());
    let same = circuit.equal(chosen.as_slice(), &b)?;
    assert_eq!(rt; same, yes(17));
    assert_eq!(rt; circuit.next(), 18);
    assert_eq!(rt; circuit.clauses().len(), 46);
    assert_eq!(rt; circuit.into_clauses().len(), 46);
    Ok(())
}

#[test]
fn literals_and_clauses_come_back_as_they_were_given(rt: HostRuntime) -> Result<(), Fail> {
    for literal in [Lit::TRUE, Lit::FALSE, yes(7), no(7)] {
        assert_eq!(rt; Lit::from_code(literal.code()), literal);
        assert_eq!(rt; literal.negated().negated(), literal);
        assert_eq!(rt; literal.is_positive(), !literal.negated().is_positive());
    }
    assert!(rt; yes(2) < no(2) && no(2) < yes(3));
    let clause = Clause::of_two(rt.alloc(), yes(2), no(3))?;
    let copy = clause.copy(rt.alloc())?;
    assert!(rt; copy == clause && !copy.is_empty());
    assert_eq!(rt; copy.into_vec().as_slice(), [yes(2), no(3)].as_slice());
    assert!(rt; Clause::empty(rt.alloc()).is_empty());
    assert_eq!(rt; Clause::of_one(rt.alloc(), yes(2))?.len(), 1);
    assert_eq!(rt;
        Clause::of_four(rt.alloc(), yes(2), yes(3), yes(4), yes(5))?
            .literals()
            .len(),
        4
    );
    Ok(())
}
