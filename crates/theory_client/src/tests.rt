//! Small scripts over functions and arrays, with ample memory.

use crate::cubes::solve_script;
use crate::scripts::Made;
use crate::searching::{Outcome, search};
use smt_terms::node::TermId;
use smt_terms::operator::Operator::{Bvadd, Equal, Ite, Not, Select, Store, Witness};
use smt_terms::sort::Sort;
use std::alloc::{AllocError, Global};
use std::test::Fail;

const WORD: Sort = Sort::Word(2);

const ARRAY: Sort = Sort::Array(2, 2);

/// No search of these scripts puts as many clauses.
const AMPLE: u64 = 1_000;

/// A word is stored at an index of an array and read at another.
const READS: [Made; 14] = [
    Made::Declared(0, ARRAY),
    Made::Declared(1, WORD),
    Made::Declared(2, WORD),
    Made::Declared(3, WORD),
    Made::Plain(Store, &[0, 1, 3]),
    Made::Plain(Select, &[4, 2]),
    Made::Plain(Equal, &[1, 2]),
    Made::Plain(Equal, &[5, 3]),
    Made::Plain(Not, &[7]),
    Made::Plain(Select, &[0, 2]),
    Made::Plain(Equal, &[5, 9]),
    Made::Plain(Not, &[10]),
    Made::Plain(Not, &[6]),
    Made::Plain(Bvadd, &[5, 9]),
];

/// A function is applied to two words.
const CALLS: [Made; 7] = [
    Made::Declared(0, WORD),
    Made::Declared(1, WORD),
    Made::First(2, 0),
    Made::Again(2, 2, 1),
    Made::Plain(Equal, &[0, 1]),
    Made::Plain(Equal, &[2, 3]),
    Made::Plain(Not, &[5]),
];

/// Two arrays and an index, their equality, and that of one with itself where its own element is stored.
const SIDES: [Made; 20] = [
    Made::Declared(0, ARRAY),
    Made::Declared(1, ARRAY),
    Made::Declared(2, WORD),
    Made::Plain(Witness, &[0, 1]),
    Made::Plain(Select, &[0, 3]),
    Made::Plain(Select, &[1, 3]),
    Made::Plain(Equal, &[0, 1]),
    Made::Plain(Not, &[6]),
    Made::Plain(Select, &[0, 2]),
    Made::Plain(Select, &[1, 2]),
    Made::Plain(Equal, &[8, 9]),
    Made::Plain(Not, &[10]),
    Made::Plain(Store, &[0, 2, 8]),
    Made::Plain(Witness, &[0, 12]),
    Made::Plain(Select, &[0, 13]),
    Made::Plain(Select, &[12, 13]),
    Made::Plain(Equal, &[0, 12]),
    Made::Plain(Not, &[16]),
    Made::Plain(Ite, &[6, 0, 12]),
    Made::Plain(Select, &[18, 2]),
];

/// Two words are stored in both orders.
const ORDERS: [Made; 16] = [
    Made::Declared(0, ARRAY),
    Made::Declared(1, WORD),
    Made::Declared(2, WORD),
    Made::Declared(3, WORD),
    Made::Declared(4, WORD),
    Made::Plain(Store, &[0, 1, 3]),
    Made::Plain(Store, &[5, 2, 4]),
    Made::Plain(Store, &[0, 2, 4]),
    Made::Plain(Store, &[7, 1, 3]),
    Made::Plain(Witness, &[6, 8]),
    Made::Plain(Select, &[6, 9]),
    Made::Plain(Select, &[8, 9]),
    Made::Plain(Equal, &[6, 8]),
    Made::Plain(Not, &[12]),
    Made::Plain(Equal, &[1, 2]),
    Made::Plain(Not, &[14]),
];

/// A constant array of index width 1, a word stored in it, and what is read.
const FILLED: [Made; 14] = [
    Made::Declared(0, Sort::Word(1)),
    Made::Declared(1, Sort::Word(1)),
    Made::Declared(2, Sort::Word(1)),
    Made::Number(1, 0),
    Made::Number(1, 1),
    Made::Filled(1, 0),
    Made::Plain(Select, &[5, 1]),
    Made::Plain(Equal, &[6, 0]),
    Made::Plain(Not, &[7]),
    Made::Plain(Store, &[5, 1, 2]),
    Made::Plain(Select, &[9, 3]),
    Made::Plain(Equal, &[10, 0]),
    Made::Plain(Not, &[11]),
    Made::Plain(Equal, &[1, 3]),
];

/// A function of elements of two arrays.
const BOTH: [Made; 16] = [
    Made::Declared(0, ARRAY),
    Made::Declared(1, ARRAY),
    Made::Declared(2, WORD),
    Made::Declared(3, WORD),
    Made::Plain(Select, &[0, 2]),
    Made::Plain(Select, &[1, 3]),
    Made::First(4, 4),
    Made::Again(6, 4, 5),
    Made::Plain(Equal, &[6, 7]),
    Made::Plain(Not, &[8]),
    Made::Plain(Witness, &[0, 1]),
    Made::Plain(Select, &[0, 10]),
    Made::Plain(Select, &[1, 10]),
    Made::Plain(Equal, &[0, 1]),
    Made::Plain(Equal, &[2, 3]),
    Made::Plain(Not, &[14]),
];

/// Whether each of these searches ends so within so many puts. None is closed without a lemma.
fn end_so(
    alloc: Global,
    table: &[Made],
    budget: u64,
    rows: &[(&'static [TermId], Outcome)],
) -> Result<bool, AllocError> {
    for (roots, wanted) in rows {
        let (outcome, lemmas) = search(alloc, table, *roots, budget)?;
        if outcome != *wanted || (outcome == Outcome::Closed && lemmas == 0) {
            return Ok(false);
        }
    }
    Ok(true)
}

#[test]
fn reads_over_writes(rt: HostRuntime) -> Result<(), Fail> {
    let rows: [(&'static [TermId], Outcome); 5] = [
        (&[6, 8], Outcome::Closed),
        (&[12, 11], Outcome::Closed),
        (&[8], Outcome::Model),
        (&[12, 7], Outcome::Model),
        (&[11], Outcome::Model),
    ];
    assert!(rt; end_so(rt.alloc(), &READS, AMPLE, &rows)?);
    let spent: [(&'static [TermId], Outcome); 1] = [(&[12, 11], Outcome::Spent)];
    assert!(rt; end_so(rt.alloc(), &READS, 0, &spent)?);
    Ok(())
}

#[test]
fn applications_are_congruent(rt: HostRuntime) -> Result<(), Fail> {
    let rows: [(&'static [TermId], Outcome); 3] = [
        (&[4, 6], Outcome::Closed),
        (&[6], Outcome::Model),
        (&[4], Outcome::Model),
    ];
    assert!(rt; end_so(rt.alloc(), &CALLS, AMPLE, &rows)?);
    Ok(())
}

#[test]
fn arrays_are_extensional(rt: HostRuntime) -> Result<(), Fail> {
    let rows: [(&'static [TermId], Outcome); 5] = [
        (&[6, 11], Outcome::Closed),
        (&[17], Outcome::Closed),
        (&[7], Outcome::Model),
        (&[7, 10], Outcome::Model),
        (&[6, 16], Outcome::Model),
    ];
    assert!(rt; end_so(rt.alloc(), &SIDES, AMPLE, &rows)?);
    Ok(())
}

#[test]
fn stores_commute_at_different_indexes(rt: HostRuntime) -> Result<(), Fail> {
    let rows: [(&'static [TermId], Outcome); 3] = [
        (&[13, 15], Outcome::Closed),
        (&[13], Outcome::Model),
        (&[12], Outcome::Model),
    ];
    assert!(rt; end_so(rt.alloc(), &ORDERS, AMPLE, &rows)?);
    Ok(())
}

#[test]
fn constant_arrays_have_their_element(rt: HostRuntime) -> Result<(), Fail> {
    let rows: [(&'static [TermId], Outcome); 3] = [
        (&[8], Outcome::Closed),
        (&[12], Outcome::Model),
        (&[12, 13], Outcome::Model),
    ];
    assert!(rt; end_so(rt.alloc(), &FILLED, AMPLE, &rows)?);
    Ok(())
}

#[test]
fn functions_of_elements(rt: HostRuntime) -> Result<(), Fail> {
    let rows: [(&'static [TermId], Outcome); 3] = [
        (&[13, 14, 9], Outcome::Closed),
        (&[13, 9], Outcome::Model),
        (&[14, 9], Outcome::Model),
    ];
    assert!(rt; end_so(rt.alloc(), &BOTH, AMPLE, &rows)?);
    Ok(())
}

/// Whether the cubes of each of these scripts end so within so many puts, over no variable, and over
/// two of the bits of a term.
fn cubes_end_so(
    alloc: Global,
    table: &[Made],
    split: TermId,
    budget: u64,
    rows: &[(&'static [TermId], Outcome)],
) -> Result<bool, AllocError> {
    for (roots, wanted) in rows {
        let whole = solve_script(alloc, table, *roots, &[], budget)?;
        let by_cubes = solve_script(alloc, table, *roots, &[split], budget)?;
        if whole != *wanted || by_cubes != *wanted {
            return Ok(false);
        }
    }
    Ok(true)
}

#[test]
fn cubes_end_as_their_script(rt: HostRuntime) -> Result<(), Fail> {
    let reads: [(&'static [TermId], Outcome); 4] = [
        (&[6, 8], Outcome::Closed),
        (&[12, 11], Outcome::Closed),
        (&[12, 7], Outcome::Model),
        (&[11], Outcome::Model),
    ];
    assert!(rt; cubes_end_so(rt.alloc(), &READS, 1, AMPLE, &reads)?);
    let spent: [(&'static [TermId], Outcome); 1] = [(&[12, 11], Outcome::Spent)];
    assert!(rt; cubes_end_so(rt.alloc(), &READS, 3, 0, &spent)?);
    let orders: [(&'static [TermId], Outcome); 2] = [
        (&[13, 15], Outcome::Closed),
        (&[13], Outcome::Model),
    ];
    assert!(rt; cubes_end_so(rt.alloc(), &ORDERS, 2, AMPLE, &orders)?);
    Ok(())
}
