//! Worked commands, with ample memory.

ghost use Rattle.std.specs.Prelude.{◌≤◌, ◌^◌};
ghost use Rattle.smt_build.specs.Names.{AreDeclared};

use smt_build::fault::{BuildError, BuildFault};
use smt_build::symbols::Symbols;
use smt_syntax::command::{Command, SyntaxError, read_command};
use smt_terms::terms::Terms;
use smt_text::chunk::{Chunk, ChunkKind};
use smt_text::text::Text;
use smt_text::token::Tokens;
use smt_text::tokens::tokens;
use std::alloc::{AllocError, Global};
use std::process::Abort;
use std::test::Fail;
use term_reach::Reached;

pub(crate) const X: &[u8] = b"(declare-const x (_ BitVec 8))";

const Y: &[u8] = b"(declare-const |y| (_ BitVec 8))";

pub(crate) const P: &[u8] = b"(declare-const p Bool)";

const Q: &[u8] = b"(declare-const q Bool)";

const DECLARED: [&[u8]; 4] = [X, Y, P, Q];

/// No terms yet.
pub(crate) fn no_terms(alloc: Global, symbols: &Symbols, limit: u32) -> Terms
    requires { limit ≤ 2 ^ 24 }
    ensures { AreDeclared symbols.now.signatures result.nodes }
{
    let _levels = symbols.levels();
    Terms::with_limit(alloc, limit)
}

/// The number of the asserted term or of the declaration that a command gives.
fn obey(
    alloc: Global,
    symbols: &mut Symbols,
    terms: &mut Terms,
    tokens: &Tokens<'_>,
) -> Result<Result<u32, BuildError>, SyntaxError>
    requires { AreDeclared symbols.old.signatures terms.old.nodes }
{
    let command = read_command(alloc, tokens)?;
    let mut reached = Reached::new(alloc);
    Ok(match &command {
        Command::Assert { term } => {
            symbols.assert_term(alloc, terms, &mut reached, tokens, *term)
        }
        _ => symbols.declare(alloc, tokens, &command),
    })
}

/// The same of a command's text.
pub(crate) fn done(
    rt: &(impl Abort + AllocGlobal),
    symbols: &mut Symbols,
    terms: &mut Terms,
    text: &[u8],
) -> Result<Result<u32, BuildError>, Fail>
    requires { AreDeclared symbols.old.signatures terms.old.nodes }
{
    let alloc = rt.alloc();
    let text = Text::from_slice(alloc, text)?;
    let chunk = Chunk {
        line: 1,
        kind: ChunkKind::Balanced,
        text,
    };
    let Ok(all) = tokens(alloc, &chunk) else {
        panic!(rt; "all are tokens")
    };
    Ok(obey(alloc, symbols, terms, &all)?)
}

/// What a declaration gives.
pub(crate) fn declared(
    rt: &(impl Abort + AllocGlobal),
    symbols: &mut Symbols,
    text: &[u8],
) -> Result<Result<u32, BuildError>, Fail> {
    let mut terms = no_terms(rt.alloc(), symbols, 0);
    let number = done(rt, symbols, &mut terms, text);
    drop(terms);
    number
}

/// What a command gives behind these declarations, and how many terms are held then.
fn given_behind(
    rt: &(impl Abort + AllocGlobal),
    symbols: &mut Symbols,
    limit: u32,
    text: &[u8],
) -> Result<(Result<u32, BuildError>, u32), Fail>
    requires { limit ≤ 2 ^ 24 }
{
    for declaration in &DECLARED {
        let _number = declared(rt, symbols, declaration)?;
    }
    let mut terms = no_terms(rt.alloc(), symbols, limit);
    let number = done(rt, symbols, &mut terms, text);
    let len = terms.len();
    drop(terms);
    Ok((number?, len))
}

/// Where x and y are words of width 8 and p and q are truth values, a command gives this, and so many terms are held then.
fn give(
    rt: &(impl Abort + AllocGlobal),
    limit: u32,
    text: &[u8],
    wanted: (Result<u32, BuildError>, u32),
) -> Result<(), Fail>
    requires { limit ≤ 2 ^ 24 }
{
    let mut symbols = Symbols::new(rt.alloc());
    let given = given_behind(rt, &mut symbols, limit, text);
    drop(symbols);
    assert!(rt; given? == wanted);
    Ok(())
}

/// Terms, each with its number and with how many terms are then held.
const MADE: [(&[u8], u32, u32); 34] = [
    (b"(assert (! p :named a))", 0, 1),
    (b"(assert (and (! (not p) :named a) a))", 2, 3),
    (
        b"(assert (let ((b (not p))) (! b :named b :flag :named |c|)))",
        1,
        2,
    ),
    (b"(assert (let ((a p)) |a|))", 0, 1),
    (
        b"(assert (let ((a (not p))) (let ((b (not a))) (and a b))))",
        3,
        4,
    ),
    (b"(assert (let ((p q) (q p)) (and p (not q))))", 3, 4),
    (b"(assert (let ((p q)) (or (let ((p (not p))) p) p)))", 2, 3),
    (b"(assert (and (let ((p q)) p) p))", 2, 3),
    (
        b"(assert (let ((a (let ((b p)) (not b)))) (let ((b a)) (not b))))",
        2,
        3,
    ),
    (
        b"(assert (let ((a p) (b (let ((a q) (c p)) (and a c))) (c q)) (and a b c)))",
        4,
        5,
    ),
    (b"(assert (let ((bv5 x)) (= bv5 (_ bv5 8))))", 2, 3),
    (b"(assert (! p :weight 5))", 0, 1),
    (
        b"(assert (! (not p) :pattern (x (y :named z)) :named_so a :flag))",
        1,
        2,
    ),
    (b"(assert (let ((a (! p :flag))) (! (not a) :flag)))", 1, 2),
    (b"(assert true)", 0, 1),
    (b"(assert (not false))", 1, 2),
    (b"(assert (and p q p))", 3, 4),
    (b"(assert (|xor| p q))", 2, 3),
    (b"(assert (=> p q p))", 3, 4),
    (b"(assert (= (=> p q p) (=> q p)))", 4, 5),
    (b"(assert (= x y x))", 4, 5),
    (b"(assert (= x y))", 2, 3),
    (b"(assert (distinct p q))", 3, 4),
    (b"(assert (distinct x y #x00))", 10, 11),
    (b"(assert (ite p q p))", 2, 3),
    (b"(assert (bvult x y))", 2, 3),
    (b"(assert (= (bvcomp x y) #b1))", 4, 5),
    (b"(assert (= (bvadd x y x) (bvadd x y)))", 4, 5),
    (b"(assert (= (concat x y #b1) (concat x y #b0)))", 7, 8),
    (
        b"(assert (= (bvand |x| (bvnot y)) (bvadd (bvnot y) x)))",
        5,
        6,
    ),
    (b"(assert (= x (_ bv42 8)))", 2, 3),
    (b"(assert (= ((_ extract 3 0) x) #xf))", 3, 4),
    (
        b"(assert (= ((_ rotate_left 18446744073709551617) x) ((_ rotate_left 1) x)))",
        2,
        3,
    ),
    (
        b"(assert (= ((_ zero_extend 1) x) ((_ repeat 1) #b000000000)))",
        4,
        5,
    ),
];

/// Commands that are refused, each with its first fault.
const REFUSED: [(&[u8], BuildFault); 70] = [
    (b"(assert (! w :named and))", BuildFault::UnknownSymbol),
    (b"(assert (! p :named and))", BuildFault::Reserved),
    (b"(assert (! p :named assert))", BuildFault::Reserved),
    (b"(assert (! p :named |x|))", BuildFault::Declared),
    (b"(assert (! p :named a :named a))", BuildFault::Declared),
    (
        b"(assert (and (! p :named a) (! q :named a)))",
        BuildFault::Declared,
    ),
    (
        b"(assert (and a (! p :named a)))",
        BuildFault::UnknownSymbol,
    ),
    (
        b"(assert (and (! p :named a) (a q)))",
        BuildFault::WrongSort,
    ),
    (b"(assert (let ((a p) (|a| w)) a))", BuildFault::Declared),
    (b"(assert (let ((a w) (a p)) a))", BuildFault::UnknownSymbol),
    (b"(assert (let ((and w)) p))", BuildFault::Reserved),
    (b"(assert (let ((let w)) p))", BuildFault::Reserved),
    (b"(assert (let ((|forall| w)) p))", BuildFault::Reserved),
    (
        b"(assert (let ((a w) (and p)) a))",
        BuildFault::UnknownSymbol,
    ),
    (b"(assert (let ((a p) (b a)) b))", BuildFault::UnknownSymbol),
    (
        b"(assert (and (let ((a p)) a) a))",
        BuildFault::UnknownSymbol,
    ),
    (b"(assert (let ((a p)) (a w)))", BuildFault::UnknownSymbol),
    (b"(assert (let ((a p)) (a q)))", BuildFault::WrongSort),
    (b"(assert (let ((a p)) ((_ a 1) q)))", BuildFault::WrongSort),
    (b"(assert (let ((a x)) (and a p)))", BuildFault::WrongSort),
    (
        b"(assert (let ((a (exists ((b Bool)) b))) a))",
        BuildFault::NotSupported,
    ),
    (b"(assert (! (and p w) :flag))", BuildFault::UnknownSymbol),
    (b"(declare-const bvadd Int)", BuildFault::Reserved),
    (b"(declare-const |let| Int)", BuildFault::Reserved),
    (b"(declare-const |x| Int)", BuildFault::Declared),
    (b"(declare-const z Int)", BuildFault::UnknownSymbol),
    (b"(declare-const z (_ BitVec 129))", BuildFault::Width),
    (b"(assert (= x z))", BuildFault::UnknownSymbol),
    (b"(assert |let|)", BuildFault::UnknownSymbol),
    (b"(assert (x x))", BuildFault::WrongSort),
    (b"(assert (= x #b1))", BuildFault::WrongSort),
    (b"(assert (bvnot x x))", BuildFault::WrongSort),
    (b"(assert and)", BuildFault::WrongSort),
    (b"(assert (and p))", BuildFault::WrongSort),
    (b"(assert (and p q x))", BuildFault::WrongSort),
    (b"(assert (true p))", BuildFault::WrongSort),
    (b"(assert (=> x p q))", BuildFault::WrongSort),
    (b"(assert (=> p))", BuildFault::WrongSort),
    (b"(assert (= x y p))", BuildFault::WrongSort),
    (b"(assert (distinct x))", BuildFault::WrongSort),
    (b"(assert (distinct x y p))", BuildFault::WrongSort),
    (b"(assert (bvsub x y x))", BuildFault::WrongSort),
    (b"(assert (bvult x y x))", BuildFault::WrongSort),
    (b"(assert (ite p x q))", BuildFault::WrongSort),
    (b"(assert (ite x x x))", BuildFault::WrongSort),
    (b"(assert (concat x p))", BuildFault::WrongSort),
    (b"(assert (= (bvadd x p) z))", BuildFault::WrongSort),
    (b"(assert (= z (bvadd x p)))", BuildFault::UnknownSymbol),
    (
        b"(assert (concat x x x x x x x x x x x x x x x x y))",
        BuildFault::Width,
    ),
    (
        b"(assert (concat x x x x x x x x x x x x x x x x y p))",
        BuildFault::WrongSort,
    ),
    (
        b"(assert (f #x000000000000000000000000000000000))",
        BuildFault::LiteralTooWide,
    ),
    (b"(assert (= 5 z))", BuildFault::NotSupported),
    (b"(assert (let ((z w)) z))", BuildFault::UnknownSymbol),
    (b"(assert (= x (_ bv256 8)))", BuildFault::LiteralTooWide),
    (b"(assert (= x (_ bv256 0)))", BuildFault::Width),
    (b"(assert (= x (_ bv5 129)))", BuildFault::Width),
    (b"(assert ((_ extract 8 0) x))", BuildFault::WrongSort),
    (b"(assert ((_ extract 0 1) x))", BuildFault::WrongSort),
    (b"(assert ((_ extract 3) x))", BuildFault::WrongSort),
    (b"(assert (extract x))", BuildFault::WrongSort),
    (b"(assert ((_ bvadd 1) x x))", BuildFault::WrongSort),
    (b"(assert ((_ bv5 8) x))", BuildFault::UnknownSymbol),
    (b"(assert ((_ f 1) x))", BuildFault::UnknownSymbol),
    (b"(assert ((_ zero_extend 121) x))", BuildFault::Width),
    (
        b"(assert ((_ zero_extend 18446744073709551616) x))",
        BuildFault::Width,
    ),
    (b"(assert ((_ repeat 0) x))", BuildFault::Width),
    (b"(assert ((_ repeat 1) p))", BuildFault::WrongSort),
    (b"(assert ((_ zero_extend 121) p))", BuildFault::WrongSort),
    (
        b"(assert ((_ extract 340282366920938463463374607431768211456 0) x))",
        BuildFault::WrongSort,
    ),
    (b"(assert ((as const S) z))", BuildFault::UnknownSymbol),
];

/// Terms that are refused where three terms may be held, each with its first fault.
const FULL: [(&[u8], BuildFault); 3] = [
    (b"(assert (= (bvnot x) (bvadd x y)))", BuildFault::TermLimit),
    (b"(assert (and p q x))", BuildFault::WrongSort),
    (b"(assert (and p q p))", BuildFault::TermLimit),
];

#[test]
fn terms_are_made_in_their_order(rt: HostRuntime) -> Result<(), Fail> {
    for (text, number, count) in &MADE {
        give(&rt, 100, text, (Ok(*number), *count))?;
    }
    Ok(())
}

#[test]
fn a_refused_command_tells_its_first_fault(rt: HostRuntime) -> Result<(), Fail> {
    for (text, fault) in &REFUSED {
        give(&rt, 100, text, (Err(BuildError::Fault(*fault)), 0))?;
    }
    Ok(())
}

#[test]
fn terms_are_limited(rt: HostRuntime) -> Result<(), Fail> {
    for (text, fault) in &FULL {
        give(&rt, 3, text, (Err(BuildError::Fault(*fault)), 0))?;
    }
    Ok(())
}

/// A name of a term lasts until its level is popped.
fn name_and_pop(
    rt: &(impl Abort + AllocGlobal),
    symbols: &mut Symbols,
    terms: &mut Terms,
) -> Result<(), Fail>
    requires { AreDeclared symbols.old.signatures terms.old.nodes }
{
    let number = done(rt, symbols, terms, b"(assert (! (not p) :named a))")?;
    assert!(rt; number == Ok(1));
    assert!(rt; symbols.is_taken(b"a"));
    assert!(rt; symbols.levels() == 1);
    symbols.pop(1);
    assert!(rt; !symbols.is_taken(b"a"));
    Ok(())
}

/// A name of a term that is given in a level ends with it.
fn name_in_level(rt: &(impl Abort + AllocGlobal), symbols: &mut Symbols) -> Result<(), Fail> {
    let _p = declared(rt, symbols, P)?;
    symbols.push(1)?;
    let mut terms = no_terms(rt.alloc(), symbols, 100);
    let ended = name_and_pop(rt, symbols, &mut terms);
    drop(terms);
    ended
}

#[test]
fn names_of_terms_last_with_their_level(rt: HostRuntime) -> Result<(), Fail> {
    let mut symbols = Symbols::new(rt.alloc());
    let ended = name_in_level(&rt, &mut symbols);
    drop(symbols);
    ended
}

/// A declaration gives this.
fn declare(
    rt: &(impl Abort + AllocGlobal),
    symbols: &mut Symbols,
    text: &[u8],
    wanted: Result<u32, BuildError>,
) -> Result<(), Fail> {
    let number = declared(rt, symbols, text)?;
    assert!(rt; number == wanted);
    Ok(())
}

/// Declarations in two levels, one of which is popped, and again from the start.
fn declare_in_levels(rt: &(impl Abort + AllocGlobal), symbols: &mut Symbols) -> Result<(), Fail> {
    declare(rt, symbols, X, Ok(0))?;
    symbols.push(2)?;
    declare(rt, symbols, Y, Ok(1))?;
    assert!(rt; symbols.levels() == 2);
    symbols.pop(1);
    declare(rt, symbols, Y, Ok(2))?;
    declare(rt, symbols, X, Err(BuildError::Fault(BuildFault::Declared)))?;
    symbols.reset();
    declare(rt, symbols, X, Ok(3))?;
    assert!(rt; symbols.signature(1).is_some());
    assert!(rt; symbols.live().len() == 1);
    Ok(())
}

#[test]
fn names_end_with_their_level_and_numbers_go_on(rt: HostRuntime) -> Result<(), Fail> {
    let mut symbols = Symbols::new(rt.alloc());
    let ended = declare_in_levels(&rt, &mut symbols);
    drop(symbols);
    ended
}

/// The assertion of a core behind many copies of a front, each with its closing bracket.
fn nested(alloc: Global, front: &[u8], core: u8) -> Result<Vec<u8>, AllocError> {
    let mut text: Vec<u8> = Vec::new(alloc);
    text.extend_from_slice(b"(assert ")?;
    for _ in 0..20_000 {
        text.extend_from_slice(front)?;
    }
    text.push(core)?;
    for _ in 0..20_001 {
        text.push(b')')?;
    }
    Ok(text)
}

#[test]
fn deep_and_wide_lets_are_read(rt: HostRuntime) -> Result<(), Fail> {
    let text = nested(rt.alloc(), b"(let ((a p) (b q)) ", b'b')?;
    give(&rt, 100, text.as_slice(), (Ok(1), 2))
}

#[test]
fn deep_terms_are_read(rt: HostRuntime) -> Result<(), Fail> {
    let text = nested(rt.alloc(), b"(bvnot ", b'x')?;
    give(&rt, 30_000, text.as_slice(), (Ok(20_000), 20_001))
}
