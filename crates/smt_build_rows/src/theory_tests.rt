//! Worked functions and arrays, with ample memory.

ghost use Rattle.smt_build.specs.Names.{AreDeclared};

use crate::tests::{declared, done, no_terms};
use smt_build::fault::{BuildError, BuildFault};
use smt_build::symbols::Symbols;
use smt_terms::terms::Terms;
use std::process::Abort;
use std::test::Fail;

/// A constant of words.
const I: &[u8] = b"(declare-fun i () (_ BitVec 1))";

/// Functions of a word and of a word and a truth value, and constants of arrays.
const DECLARED: [(&[u8], u32); 4] = [
    (b"(declare-fun f ((_ BitVec 1)) (_ BitVec 2))", 1),
    (b"(declare-fun g ((_ BitVec 2) Bool) Bool)", 2),
    (b"(declare-const a (Array (_ BitVec 1) (_ BitVec 2)))", 3),
    (b"(declare-fun b () (Array (_ BitVec 1) (_ BitVec 2)))", 4),
];

/// Declarations that are refused, each with its first fault.
const REFUSED: [(&[u8], BuildFault); 12] = [
    (b"(declare-fun f (Int) Bool)", BuildFault::Declared),
    (
        b"(declare-fun h (Bool (Array (_ BitVec 1) (_ BitVec 1)) Int) Int)",
        BuildFault::NotSupported,
    ),
    (
        b"(declare-fun h (Bool Int (Array (_ BitVec 1) (_ BitVec 1))) Bool)",
        BuildFault::UnknownSymbol,
    ),
    (
        b"(declare-fun h (Bool (_ BitVec 0)) Int)",
        BuildFault::Width,
    ),
    (b"(declare-fun h (Bool) Int)", BuildFault::UnknownSymbol),
    (
        b"(declare-fun h (Bool) (Array (_ BitVec 1) (_ BitVec 1)))",
        BuildFault::NotSupported,
    ),
    (
        b"(declare-const c (Array Bool (_ BitVec 1)))",
        BuildFault::NotSupported,
    ),
    (
        b"(declare-const c (Array Bool Int))",
        BuildFault::UnknownSymbol,
    ),
    (
        b"(declare-const c (Array (_ BitVec 129) Int))",
        BuildFault::Width,
    ),
    (
        b"(declare-const c (Array (_ BitVec 1) (Array (_ BitVec 1) (_ BitVec 1))))",
        BuildFault::NotSupported,
    ),
    (
        b"(declare-const c (Array (_ BitVec 1) (_ BitVec 0)))",
        BuildFault::Width,
    ),
    (b"(declare-const select Bool)", BuildFault::Reserved),
];

/// Terms, each with its number, or with its first fault.
const TERMS: [(&[u8], Result<u32, BuildFault>); 14] = [
    (b"(assert (= (f i) #b00))", Ok(3)),
    (b"(assert (g (f i) (g (f #b1) true)))", Ok(6)),
    (b"(assert (= (select a i) (f i)))", Ok(4)),
    (b"(assert (= (store a i (f i)) b))", Ok(5)),
    (b"(assert (distinct a b (ite true a b)))", Ok(11)),
    (b"(assert (f i))", Ok(1)),
    (b"(assert (f i i))", Err(BuildFault::WrongSort)),
    (b"(assert (f #b00))", Err(BuildFault::WrongSort)),
    (b"(assert f)", Err(BuildFault::WrongSort)),
    (b"(assert (i i))", Err(BuildFault::WrongSort)),
    (b"(assert (select i a))", Err(BuildFault::WrongSort)),
    (b"(assert (store a i i))", Err(BuildFault::WrongSort)),
    (b"(assert (= a i))", Err(BuildFault::WrongSort)),
    (b"(assert (h i))", Err(BuildFault::UnknownSymbol)),
];

/// Makes the declarations.
pub(crate) fn declare_all(
    rt: &(impl Abort + AllocGlobal),
    symbols: &mut Symbols,
) -> Result<(), Fail> {
    assert!(rt; declared(rt, symbols, I)? == Ok(0));
    for (text, number) in &DECLARED {
        assert!(rt; declared(rt, symbols, text)? == Ok(*number));
    }
    Ok(())
}

/// Refuses declarations, and changes nothing.
fn refuse_all(rt: &(impl Abort + AllocGlobal), symbols: &mut Symbols) -> Result<(), Fail> {
    declare_all(rt, symbols)?;
    for (text, fault) in &REFUSED {
        assert!(rt; declared(rt, symbols, text)? == Err(BuildError::Fault(*fault)));
    }
    assert!(rt; symbols.live().len() == 5);
    Ok(())
}

#[test]
fn a_refused_declaration_tells_its_first_fault(rt: HostRuntime) -> Result<(), Fail> {
    let mut symbols = Symbols::new(rt.alloc());
    let ended = refuse_all(&rt, &mut symbols);
    drop(symbols);
    ended
}

/// What a term gives.
fn give(
    rt: &(impl Abort + AllocGlobal),
    symbols: &mut Symbols,
    text: &[u8],
    wanted: Result<u32, BuildFault>,
) -> Result<(), Fail> {
    let mut terms = no_terms(rt.alloc(), symbols, 100);
    let given = done(rt, symbols, &mut terms, text);
    drop(terms);
    match wanted {
        Ok(number) => assert!(rt; given? == Ok(number)),
        Err(fault) => assert!(rt; given? == Err(BuildError::Fault(fault))),
    }
    Ok(())
}

/// Reads each of the terms.
fn give_all(rt: &(impl Abort + AllocGlobal), symbols: &mut Symbols) -> Result<(), Fail> {
    declare_all(rt, symbols)?;
    for (text, wanted) in &TERMS {
        give(rt, symbols, text, *wanted)?;
    }
    Ok(())
}

#[test]
fn functions_and_arrays_are_read(rt: HostRuntime) -> Result<(), Fail> {
    let mut symbols = Symbols::new(rt.alloc());
    let ended = give_all(&rt, &mut symbols);
    drop(symbols);
    ended
}
