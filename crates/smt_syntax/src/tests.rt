use crate::command::{Command, SyntaxError, SyntaxFault, read_command};
use crate::parts::parts;
use crate::span::Span;
use smt_text::chunk::{Chunk, ChunkKind};
use smt_text::text::Text;
use smt_text::token::CommandName;
use smt_text::tokens::tokens;
use std::alloc::Global;
use std::process::Abort;
use std::test::Fail;

fn read(
    rt: &(impl Abort + AllocGlobal),
    text: &[u8],
) -> Result<Result<Command, SyntaxError>, Fail> {
    let alloc = rt.alloc();
    let chunk = Chunk {
        line: 1,
        kind: ChunkKind::Balanced,
        text: Text::from_slice(alloc, text)?,
    };
    let Ok(all) = tokens(alloc, &chunk) else {
        panic!(rt; "all are tokens")
    };
    Ok(read_command(alloc, &all))
}

fn span(start: usize, end: usize) -> Span {
    Span { start, end }
}

#[test]
fn commands_name_their_arguments(rt: HostRuntime) -> Result<(), Fail> {
    let declared = Command::DeclareConst {
        name: span(2, 3),
        sort: span(3, 8),
    };
    assert_eq!(rt; read(&rt, b"(declare-const x (_ BitVec 8))")?, Ok(declared));
    let asserted = Command::Assert { term: span(2, 7) };
    assert_eq!(rt; read(&rt, b"(assert (= x #x0f))")?, Ok(asserted));
    assert_eq!(rt; read(&rt, b"(check-sat)")?, Ok(Command::CheckSat));
    let defined = Command::DefineFun {
        name: span(2, 3),
        parameters: span(3, 9),
        value: span(9, 10),
        term: span(10, 11),
    };
    assert_eq!(rt;
        read(&rt, b"(define-fun f ((p Bool)) Bool p)")?,
        Ok(defined)
    );
    let pushed = Command::Push {
        levels: Some(span(2, 3)),
    };
    assert_eq!(rt; read(&rt, b"(push 2)")?, Ok(pushed));
    let left_out = Command::NotSupported {
        name: CommandName::DeclareSort,
    };
    assert_eq!(rt; read(&rt, b"(declare-sort () \"\")")?, Ok(left_out));
    Ok(())
}

#[test]
fn shapes_are_judged_before_names(rt: HostRuntime) -> Result<(), Fail> {
    let malformed: [&[u8]; 26] = [
        b"(assert (and nope (let () p)))",
        b"(assert (f))",
        b"(assert let)",
        b"(assert (! p))",
        b"(assert (! p :named 5))",
        b"(assert ((_ extract x) y))",
        b"(declare-const x (_ FloatingPoint 8 24))",
        b"(declare-const x (Array Bool))",
        b"(define-sort s (x) Bool)",
        b"(get-proof x)",
        b"(set-info :a :b)",
        b"(set-option :print-success)",
        b"(get-value ())",
        b"(set-logic 5)",
        b"(assert (_ extract 3 0))",
        b"(assert (_ foo 3))",
        b"(assert (_ BitVec 2))",
        b"(assert (_ bv1 8 8))",
        b"(assert (_ bv 8))",
        b"(assert (_ bv01 8))",
        b"(assert (_ bv1 p))",
        b"(assert (_ bv1))",
        b"(assert ((_ let 1) x))",
        b"(assert ((_ bv3) x))",
        b"(assert ((_ bv3 8)))",
        b"(assert ((as const (Array Bool Bool)) let))",
    ];
    for text in malformed {
        let fault = SyntaxError::Fault(SyntaxFault::Malformed);
        assert_eq!(rt; read(&rt, text)?, Err(fault));
    }
    Ok(())
}

#[test]
fn known_shapes_wait_for_their_names(rt: HostRuntime) -> Result<(), Fail> {
    let formed: [&[u8]; 19] = [
        b"(assert (forall () ()))",
        b"(assert ((as const (Array Int Int)) 0))",
        b"(assert (let ((x 1) (let p)) (! x :named n :hidden (5 \"s\"))))",
        b"(declare-const |let| Array)",
        b"(declare-const let Bool)",
        b"(set-option :unknown)",
        b"(set-option :produce-models true)",
        b"(check-sat-assuming ())",
        b"(define-fun f () (Array (_ BitVec 8) (_ BitVec 8)) (_ bv5 8))",
        b"(assert (_ |bv0| 8))",
        b"(assert ((_ bv3 8) x))",
        b"(assert ((forall x) let))",
        b"(assert ((match)))",
        b"(assert ((as const) let))",
        b"(assert ((as const () ()) let))",
        b"(assert ((as x Bool) let))",
        b"(assert ((as const ())))",
        b"(assert ((as (const) Bool) let))",
        b"(assert (as const (Array)))",
    ];
    for text in formed {
        assert!(rt; read(&rt, text)?.is_ok());
    }
    Ok(())
}

#[test]
fn unknown_commands_are_told(rt: HostRuntime) -> Result<(), Fail> {
    let unknown: [&[u8]; 5] = [b"()", b"(5)", b"(())", b"(|assert| p)", b"(bogus)"];
    for text in unknown {
        let fault = SyntaxError::Fault(SyntaxFault::UnknownCommand);
        assert_eq!(rt; read(&rt, text)?, Err(fault));
    }
    Ok(())
}

fn nested(alloc: Global, depth: usize) -> Result<Text, Fail> {
    let mut text = Text::new(alloc);
    for _ in 0..depth {
        text.push(b'(')?;
    }
    for _ in 0..depth {
        text.push(b')')?;
    }
    Ok(text)
}

#[test]
fn a_million_open_parentheses_are_the_most(rt: HostRuntime) -> Result<(), Fail> {
    let most = nested(rt.alloc(), 1_000_000)?;
    let unknown = SyntaxError::Fault(SyntaxFault::UnknownCommand);
    assert_eq!(rt; read(&rt, most.as_slice())?, Err(unknown));
    let deeper = nested(rt.alloc(), 1_000_001)?;
    let too_deep = SyntaxError::Fault(SyntaxFault::TooDeep);
    assert_eq!(rt; read(&rt, deeper.as_slice())?, Err(too_deep));
    Ok(())
}

#[test]
fn parts_of_a_list_are_cut(rt: HostRuntime) -> Result<(), Fail> {
    let alloc = rt.alloc();
    let chunk = Chunk {
        line: 1,
        kind: ChunkKind::Balanced,
        text: Text::from_slice(alloc, b"(a (b c) ())")?,
    };
    let Ok(all) = tokens(alloc, &chunk) else {
        panic!(rt; "all are tokens")
    };
    let found = parts(alloc, all.as_slice(), span(1, 8))?;
    assert!(rt; found.as_slice() == [span(1, 2), span(2, 6), span(6, 8)].as_slice());
    Ok(())
}
