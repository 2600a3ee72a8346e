//! Worked definitions of functions and of sorts, and terms that are no command's, with ample memory.

ghost use Rattle.std.specs.Prelude.{◌≤◌, ◌^◌};
ghost use Rattle.smt_build.specs.Names.{AreDeclared};

use crate::tests::{P, X, declared, no_terms};
use smt_build::fault::{BuildError, BuildFault};
use smt_build::symbols::Symbols;
use smt_syntax::command::{Command, SyntaxError, read_command};
use smt_syntax::span::Span;
use smt_terms::sort::Sort;
use smt_terms::terms::Terms;
use smt_text::chunk::{Chunk, ChunkKind};
use smt_text::text::Text;
use smt_text::token::Tokens;
use smt_text::tokens::tokens;
use std::alloc::Global;
use std::process::Abort;
use std::test::Fail;
use term_reach::Reached;

/// What a command that defines gives.
fn define(
    alloc: Global,
    symbols: &mut Symbols,
    terms: &mut Terms,
    reached: &mut Reached,
    tokens: &Tokens<'_>,
    command: &Command,
) -> Result<(), BuildError>
    requires { AreDeclared symbols.old.signatures terms.old.nodes }
    ensures { AreDeclared symbols.new.signatures terms.new.nodes }
{
    match command {
        Command::DefineSort { .. } => symbols.define_sort(alloc, tokens, command),
        _ => symbols.define(alloc, terms, reached, tokens, command),
    }
}

/// The number of the term that a command asserts; of a definition, how many terms are held then. What is no command is read
/// as a term.
fn obey(
    alloc: Global,
    symbols: &mut Symbols,
    terms: &mut Terms,
    tokens: &Tokens<'_>,
) -> Result<Result<u32, BuildError>, SyntaxError>
    requires { AreDeclared symbols.old.signatures terms.old.nodes }
    ensures { AreDeclared symbols.new.signatures terms.new.nodes }
{
    let mut reached = Reached::new(alloc);
    let command = match read_command(alloc, tokens) {
        Ok(command) => command,
        Err(SyntaxError::Fault(_)) => {
            let end = tokens.as_slice().len();
            let span = Span { start: 0, end };
            return Ok(symbols.elaborate(alloc, terms, &mut reached, tokens, span));
        }
        Err(error) => return Err(error),
    };
    if let Command::Assert { term } = &command {
        return Ok(symbols.assert_term(alloc, terms, &mut reached, tokens, *term));
    }
    Ok(
        match define(alloc, symbols, terms, &mut reached, tokens, &command) {
            Ok(()) => Ok(terms.len()),
            Err(error) => Err(error),
        },
    )
}

/// What a command's text gives.
fn done(
    rt: &(impl Abort + AllocGlobal),
    symbols: &mut Symbols,
    terms: &mut Terms,
    text: &[u8],
) -> Result<Result<u32, BuildError>, Fail>
    requires { AreDeclared symbols.old.signatures terms.old.nodes }
    ensures { AreDeclared symbols.new.signatures terms.new.nodes }
{
    let alloc = rt.alloc();
    let text = Text::from_slice(alloc, text)?;
    let chunk = Chunk {
        line: 1,
        kind: ChunkKind::Balanced,
        text,
    };
    let Ok(all) = tokens(alloc, &chunk) else {
        panic!(rt; "all are tokens")
    };
    Ok(obey(alloc, symbols, terms, &all)?)
}

/// What a command gives behind a definition.
fn given_behind(
    rt: &(impl Abort + AllocGlobal),
    symbols: &mut Symbols,
    terms: &mut Terms,
    definition: &[u8],
    text: &[u8],
) -> Result<Result<u32, BuildError>, Fail>
    requires { AreDeclared symbols.old.signatures terms.old.nodes }
{
    let _defined = done(rt, symbols, terms, definition)?;
    done(rt, symbols, terms, text)
}

/// The same where x is declared as a word of width 8 and p as a truth value, and how many terms are held then.
fn given_declared(
    rt: &(impl Abort + AllocGlobal),
    symbols: &mut Symbols,
    limit: u32,
    definition: &[u8],
    text: &[u8],
) -> Result<(Result<u32, BuildError>, u32), Fail>
    requires { limit ≤ 2 ^ 24 }
{
    let _x = declared(rt, symbols, X)?;
    let _p = declared(rt, symbols, P)?;
    let mut terms = no_terms(rt.alloc(), symbols, limit);
    let number = given_behind(rt, symbols, &mut terms, definition, text);
    let len = terms.len();
    drop(terms);
    Ok((number?, len))
}

/// Behind a definition, where x is a word of width 8 and p a truth value, a command gives this, and so many terms are held then.
fn give(
    rt: &(impl Abort + AllocGlobal),
    limit: u32,
    definition: &[u8],
    text: &[u8],
    wanted: (Result<u32, BuildError>, u32),
) -> Result<(), Fail>
    requires { limit ≤ 2 ^ 24 }
{
    let mut symbols = Symbols::new(rt.alloc());
    let given = given_declared(rt, &mut symbols, limit, definition, text);
    drop(symbols);
    assert!(rt; given? == wanted);
    Ok(())
}

const INC: &[u8] = b"(define-fun inc ((v (_ BitVec 8))) (_ BitVec 8) (bvadd v #x01))";

/// A definition and a term that uses it, with the term's number and how many terms are then held.
const USED: [(&[u8], &[u8], u32, u32); 10] = [
    (INC, b"(assert (= (inc #x04) #x05))", 6, 7),
    (INC, b"(assert (= (inc x) (inc x)))", 5, 6),
    (INC, b"(assert (= (inc (inc x)) x))", 6, 7),
    (
        b"(define-fun second ((v Bool) (w Bool)) Bool w)",
        b"(assert (second (not p) p))",
        1,
        3,
    ),
    (
        b"(define-fun over ((p (_ BitVec 8))) (_ BitVec 8) (bvnot p))",
        b"(assert (= (over x) x))",
        4,
        5,
    ),
    (
        b"(define-fun turned ((v Bool)) Bool (let ((v (not v))) v))",
        b"(assert (turned p))",
        3,
        4,
    ),
    (
        b"(define-fun same ((v Bool)) Bool (let ((u (not v))) v))",
        b"(assert (same (and p p)))",
        3,
        4,
    ),
    (
        b"(define-fun less ((v Bool) (w Bool)) Bool (and w (not v)))",
        b"(assert (less p true))",
        7,
        8,
    ),
    // The body reaches x alone of the three terms before its parameter.
    (
        b"(define-fun f ((v (_ BitVec 8))) (_ BitVec 8) (let ((w (bvneg (bvnot x)))) (bvadd x v)))",
        b"(assert (= (f #x04) (f x)))",
        8,
        9,
    ),
    // What is made again is made in the order of its numbers, and not in that of the walk.
    (
        b"(define-fun crossed ((v Bool) (w Bool)) Bool (let ((a (not v)) (b (not w))) (and b a)))",
        b"(assert (let ((c (crossed p true))) (not p)))",
        7,
        10,
    ),
];

/// Commands that are refused behind the first of these definitions, each with its first fault.
const REFUSED: [(&[u8], BuildFault); 20] = [
    (
        b"(define-fun p ((and Bool)) Bool true)",
        BuildFault::Declared,
    ),
    (b"(define-fun f ((and w)) Bool true)", BuildFault::Reserved),
    (
        b"(define-fun f ((let Bool)) Bool true)",
        BuildFault::Reserved,
    ),
    (
        b"(define-fun f ((v Bool) (|v| w)) Bool v)",
        BuildFault::Declared,
    ),
    (
        b"(define-fun f ((v w) (v Bool)) Bool v)",
        BuildFault::UnknownSymbol,
    ),
    (b"(define-fun f ((v (_ BitVec 0))) w v)", BuildFault::Width),
    (
        b"(define-fun f ((v (Array (_ BitVec 8) (_ BitVec 8)))) w p)",
        BuildFault::NotSupported,
    ),
    (
        b"(define-fun f ((v Bool)) w (and v x))",
        BuildFault::UnknownSymbol,
    ),
    (
        b"(define-fun f ((v Bool)) Bool w)",
        BuildFault::UnknownSymbol,
    ),
    (
        b"(define-fun f ((v Bool)) Bool (f v))",
        BuildFault::UnknownSymbol,
    ),
    (
        b"(define-fun f ((v Bool)) (_ BitVec 8) v)",
        BuildFault::WrongSort,
    ),
    (
        b"(define-fun f ((v Bool)) Bool (v p))",
        BuildFault::WrongSort,
    ),
    (
        b"(define-fun f ((v Bool)) Bool ((_ v 1) p))",
        BuildFault::WrongSort,
    ),
    (
        b"(define-fun f ((p (_ BitVec 8))) Bool p)",
        BuildFault::WrongSort,
    ),
    (
        b"(define-fun f ((v Bool)) Bool (! v :named n))",
        BuildFault::NotSupported,
    ),
    (b"(assert (= v x))", BuildFault::UnknownSymbol),
    (b"(assert (= inc x))", BuildFault::WrongSort),
    (b"(assert (= (inc p) w))", BuildFault::WrongSort),
    (b"(assert (= (inc x x) x))", BuildFault::WrongSort),
    (b"(assert (= ((_ inc 1) x) x))", BuildFault::WrongSort),
];

/// Definitions, each with how many terms are held then behind the first of the definitions above.
const DEFINED: [(&[u8], u32); 3] = [
    (b"(define-fun k ((v Bool) (w Bool)) Bool w)", 4),
    (b"(define-fun k ((w (_ BitVec 8))) (_ BitVec 8) w)", 3),
    (b"(define-fun k ((v Bool)) Bool true)", 4),
];

/// Terms that are no command's, each with what it gives behind the first of the definitions above, and with how many terms
/// are held then.
const READ: [(&[u8], Result<u32, BuildError>, u32); 8] = [
    (b"x", Ok(3), 4),
    (b"(= (inc #x04) #x05)", Ok(6), 7),
    (b"(let ((a (not p))) (and a a))", Ok(5), 6),
    (b"(! p :flag)", Ok(3), 4),
    (b"w", Err(BuildError::Fault(BuildFault::UnknownSymbol)), 3),
    (
        b"(= (inc p) w)",
        Err(BuildError::Fault(BuildFault::WrongSort)),
        3,
    ),
    (
        b"(and (not p) (! p :named a))",
        Err(BuildError::Fault(BuildFault::NotSupported)),
        3,
    ),
    (
        b"#x000000000000000000000000000000000",
        Err(BuildError::Fault(BuildFault::LiteralTooWide)),
        3,
    ),
];

const BYTE: &[u8] = b"(define-sort Byte () (_ BitVec 8))";

/// Commands behind the definition of a sort, each with what it gives and with how many terms are held then.
const SORTS: [(&[u8], Result<u32, BuildError>, u32); 12] = [
    (b"(define-fun f ((v Byte)) Byte (bvadd v x))", Ok(3), 3),
    (b"(define-fun f ((v Byte)) |Byte| x)", Ok(1), 1),
    (b"(define-sort Octet () Byte)", Ok(0), 0),
    (b"(define-sort x () Bool)", Ok(0), 0),
    (
        b"(define-fun f ((v Byte)) Byte p)",
        Err(BuildError::Fault(BuildFault::WrongSort)),
        0,
    ),
    (
        b"(define-sort |Byte| () w)",
        Err(BuildError::Fault(BuildFault::Declared)),
        0,
    ),
    (
        b"(define-sort Bool () w)",
        Err(BuildError::Fault(BuildFault::Reserved)),
        0,
    ),
    (
        b"(define-sort Array () w)",
        Err(BuildError::Fault(BuildFault::Reserved)),
        0,
    ),
    (
        b"(define-sort bvadd () Byte)",
        Err(BuildError::Fault(BuildFault::Reserved)),
        0,
    ),
    (
        b"(define-sort W () Octet)",
        Err(BuildError::Fault(BuildFault::UnknownSymbol)),
        0,
    ),
    (
        b"(define-sort W () (_ BitVec 129))",
        Err(BuildError::Fault(BuildFault::Width)),
        0,
    ),
    (b"(define-sort W () (Array Byte Byte))", Ok(0), 0),
];

#[test]
fn a_term_is_read_over_the_live_names(rt: HostRuntime) -> Result<(), Fail> {
    for (text, number, count) in &READ {
        give(&rt, 100, INC, text, (*number, *count))?;
    }
    Ok(())
}

#[test]
fn a_name_of_a_sort_stands_for_it(rt: HostRuntime) -> Result<(), Fail> {
    for (text, number, count) in &SORTS {
        give(&rt, 100, BYTE, text, (*number, *count))?;
    }
    Ok(())
}

/// A name of a sort is given in a level, and ends with it.
fn name_sort_in_level(rt: &(impl Abort + AllocGlobal), symbols: &mut Symbols) -> Result<(), Fail> {
    symbols.push(1)?;
    let mut terms = no_terms(rt.alloc(), symbols, 0);
    let defined = done(rt, symbols, &mut terms, BYTE);
    drop(terms);
    assert!(rt; defined? == Ok(0));
    assert!(rt; symbols.defined_sort(b"Byte") == Some(Sort::Word(8)));
    assert!(rt; symbols.levels() == 1);
    symbols.pop(1);
    assert!(rt; symbols.defined_sort(b"Byte").is_none());
    Ok(())
}

#[test]
fn names_of_sorts_last_with_their_level(rt: HostRuntime) -> Result<(), Fail> {
    let mut symbols = Symbols::new(rt.alloc());
    let ended = name_sort_in_level(&rt, &mut symbols);
    drop(symbols);
    ended
}

#[test]
fn a_use_makes_the_body_anew(rt: HostRuntime) -> Result<(), Fail> {
    for (definition, text, number, count) in &USED {
        give(&rt, 100, definition, text, (Ok(*number), *count))?;
    }
    Ok(())
}

#[test]
fn parameters_are_made_where_they_are_used(rt: HostRuntime) -> Result<(), Fail> {
    for (definition, count) in &DEFINED {
        give(&rt, 100, INC, definition, (Ok(*count), *count))?;
    }
    Ok(())
}

#[test]
fn a_refused_definition_or_use_tells_its_first_fault(rt: HostRuntime) -> Result<(), Fail> {
    for (text, fault) in &REFUSED {
        give(&rt, 100, INC, text, (Err(BuildError::Fault(*fault)), 3))?;
    }
    Ok(())
}

#[test]
fn terms_of_a_use_are_limited(rt: HostRuntime) -> Result<(), Fail> {
    let limited = Err(BuildError::Fault(BuildFault::TermLimit));
    give(&rt, 4, INC, b"(assert (= (inc #x04) #x05))", (limited, 3))
}
