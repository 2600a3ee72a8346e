//! Worked constant arrays, where arrays are read, with ample memory.

ghost use Rattle.std.specs.Prelude.{◌≤◌, ◌^◌};

use crate::tests::{done, no_terms};
use crate::theory_tests::declare_all;
use smt_build::fault::{BuildError, BuildFault};
use smt_build::symbols::Symbols;
use std::process::Abort;
use std::test::Fail;

/// Terms, each with its number, where i and f i are words of width 1 and 2, and a is an array of the one over the other.
const TERMS: [(&[u8], u32); 8] = [
    (
        b"(assert ((as const (Array (_ BitVec 1) (_ BitVec 2))) #b01))",
        1,
    ),
    (
        b"(assert (= a ((as const (Array (_ BitVec 1) (_ BitVec 2))) #b01)))",
        3,
    ),
    (
        b"(assert (store ((as const (Array (_ BitVec 1) (_ BitVec 2))) #b01) i (f i)))",
        4,
    ),
    (
        b"(assert (select ((as |const| (|Array| (_ BitVec 2) (_ BitVec 1))) i) (f i)))",
        3,
    ),
    // A text that means the same is the same term.
    (
        b"(assert (= ((as const (Array (_ BitVec 1) (_ BitVec 2))) (f i)) ((as const (Array (_ BitVec 1) (_ BitVec 2))) (f i))))",
        3,
    ),
    (
        b"(assert (let ((k ((as const (Array (_ BitVec 1) (_ BitVec 2))) #b11))) (= k (store k #b0 #b11))))",
        4,
    ),
    // What follows `as` is no name that a variable stands for.
    (
        b"(assert (let ((const #b01) (Array i)) ((as const (Array (_ BitVec 1) (_ BitVec 2))) const)))",
        2,
    ),
    (
        b"(assert ((as const (Array (_ BitVec 128) (_ BitVec 1))) (select ((as const (Array (_ BitVec 1) (_ BitVec 1))) i) #b1)))",
        4,
    ),
];

/// Terms that are refused, each with its first fault.
const REFUSED: [(&[u8], BuildFault); 43] = [
    // The sort is none of arrays.
    (b"(assert ((as const Bool) true))", BuildFault::WrongSort),
    (
        b"(assert ((as const (_ BitVec 1)) i))",
        BuildFault::WrongSort,
    ),
    // The term is not of the sort of elements.
    (
        b"(assert ((as const (Array (_ BitVec 1) (_ BitVec 2))) i))",
        BuildFault::WrongSort,
    ),
    (
        b"(assert ((as const (Array (_ BitVec 1) (_ BitVec 1))) true))",
        BuildFault::WrongSort,
    ),
    (
        b"(assert ((as const (Array (_ BitVec 1) (_ BitVec 2))) a))",
        BuildFault::WrongSort,
    ),
    // No term, or more than one.
    (
        b"(assert ((as const (Array (_ BitVec 1) (_ BitVec 2)))))",
        BuildFault::WrongSort,
    ),
    (
        b"(assert ((as const (Array (_ BitVec 1) (_ BitVec 2))) #b00 #b00))",
        BuildFault::WrongSort,
    ),
    // It is an array of its own sort.
    (
        b"(assert (= a ((as const (Array (_ BitVec 2) (_ BitVec 2))) #b00)))",
        BuildFault::WrongSort,
    ),
    (
        b"(assert (select ((as const (Array (_ BitVec 2) (_ BitVec 2))) #b00) i))",
        BuildFault::WrongSort,
    ),
    // The faults of the sort.
    (b"(assert ((as const Int) i))", BuildFault::UnknownSymbol),
    (b"(assert ((as const Array) i))", BuildFault::UnknownSymbol),
    (
        b"(assert ((as const (Array Int (_ BitVec 0))) i))",
        BuildFault::UnknownSymbol,
    ),
    (
        b"(assert ((as const (Array (_ BitVec 0) Int)) i))",
        BuildFault::Width,
    ),
    (
        b"(assert ((as const (Array (_ BitVec 1) (_ BitVec 129))) i))",
        BuildFault::Width,
    ),
    (b"(assert ((as const (_ BitVec 0)) i))", BuildFault::Width),
    (
        b"(assert ((as const (Array Bool (_ BitVec 1))) i))",
        BuildFault::NotSupported,
    ),
    (
        b"(assert ((as const (Array (_ BitVec 1) (Array (_ BitVec 1) Int))) i))",
        BuildFault::NotSupported,
    ),
    (
        b"(assert ((as const (Array Int (as x Bool))) i))",
        BuildFault::UnknownSymbol,
    ),
    // What stands in the place of the sort is none.
    (
        b"(assert ((as const (Array Int)) i))",
        BuildFault::NotSupported,
    ),
    (
        b"(assert ((as const (Array Int Int Int)) i))",
        BuildFault::NotSupported,
    ),
    (b"(assert ((as const (Array)) i))", BuildFault::NotSupported),
    (b"(assert ((as const ()) i))", BuildFault::NotSupported),
    (b"(assert ((as const 1) i))", BuildFault::NotSupported),
    (b"(assert ((as const let) i))", BuildFault::NotSupported),
    (b"(assert ((as const forall) i))", BuildFault::NotSupported),
    (
        b"(assert ((as const (as x Bool)) i))",
        BuildFault::NotSupported,
    ),
    (
        b"(assert ((as const (_ BitVec 0 0)) i))",
        BuildFault::NotSupported,
    ),
    (
        b"(assert ((as const (_ Bits 1)) i))",
        BuildFault::NotSupported,
    ),
    (
        b"(assert ((as const (_ (BitVec) 1)) i))",
        BuildFault::NotSupported,
    ),
    (
        b"(assert ((as const (((_ BitVec 0)) (Int) (() 1))) i))",
        BuildFault::NotSupported,
    ),
    // Every other use of `as`.
    (
        b"(assert (= a (as const (Array (_ BitVec 1) (_ BitVec 2)))))",
        BuildFault::NotSupported,
    ),
    (
        b"(assert ((as f (_ BitVec 2)) i))",
        BuildFault::NotSupported,
    ),
    (b"(assert ((as const) i))", BuildFault::NotSupported),
    (b"(assert ((as const Int Int) i))", BuildFault::NotSupported),
    (b"(assert ((as (const) Int) i))", BuildFault::NotSupported),
    (b"(assert ((as \"const\" Int) i))", BuildFault::NotSupported),
    // The order of the text: the sort, the terms, and then their sorts and their number.
    (
        b"(assert ((as const (_ BitVec 0)) nope))",
        BuildFault::Width,
    ),
    (
        b"(assert ((as const Bool) nope))",
        BuildFault::UnknownSymbol,
    ),
    (
        b"(assert ((as const (Array (_ BitVec 1) (_ BitVec 2))) #b00 (_ bv0 0)))",
        BuildFault::Width,
    ),
    (
        b"(assert (and nope ((as const (_ BitVec 0)) i)))",
        BuildFault::UnknownSymbol,
    ),
    (
        b"(assert (and ((as const (_ BitVec 0)) i) nope))",
        BuildFault::Width,
    ),
    (
        b"(assert (and ((as const Bool) i) nope))",
        BuildFault::WrongSort,
    ),
    (
        b"(assert (let ((x ((as const Int) i)) (let true)) x))",
        BuildFault::UnknownSymbol,
    ),
];

/// Terms that are refused where two terms may be held, each with its first fault.
const FULL: [(&[u8], BuildFault); 2] = [
    (
        b"(assert (= #b00 #b01 ((as const (Array (_ BitVec 1) (_ BitVec 2))) #b00)))",
        BuildFault::TermLimit,
    ),
    (
        b"(assert (and #b0 #b00 ((as const (Array (_ BitVec 1) (_ BitVec 2))) #b0)))",
        BuildFault::WrongSort,
    ),
];

/// What a term gives where so many may be held.
fn give(
    rt: &(impl Abort + AllocGlobal),
    symbols: &mut Symbols,
    limit: u32,
    text: &[u8],
    wanted: Result<u32, BuildFault>,
) -> Result<(), Fail>
    requires { limit ≤ 2 ^ 24 }
{
    let mut terms = no_terms(rt.alloc(), symbols, limit);
    let given = done(rt, symbols, &mut terms, text);
    let len = terms.len();
    drop(terms);
    match wanted {
        Ok(number) => assert!(rt; given? == Ok(number)),
        Err(fault) => assert!(rt; given? == Err(BuildError::Fault(fault)) && len == 0),
    }
    Ok(())
}

/// Reads each of the terms.
fn give_all(rt: &(impl Abort + AllocGlobal), symbols: &mut Symbols) -> Result<(), Fail> {
    declare_all(rt, symbols)?;
    for (text, number) in &TERMS {
        give(rt, symbols, 100, text, Ok(*number))?;
    }
    for (text, fault) in &REFUSED {
        give(rt, symbols, 100, text, Err(*fault))?;
    }
    for (text, fault) in &FULL {
        give(rt, symbols, 2, text, Err(*fault))?;
    }
    Ok(())
}

#[test]
fn constant_arrays_are_read(rt: HostRuntime) -> Result<(), Fail> {
    let mut symbols = Symbols::new(rt.alloc());
    let ended = give_all(&rt, &mut symbols);
    drop(symbols);
    ended
}
