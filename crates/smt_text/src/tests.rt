use crate::chunk::{Chunk, ChunkKind};
use crate::framer::{Framer, chunks};
use crate::print::{print_symbol, print_text, print_token};
use crate::text::Text;
use crate::token::{CommandName, TokenKind};
use crate::tokens::{TokenFault, TokensError, tokens};
use std::alloc::Global;
use std::test::Fail;

fn chunk_of(alloc: Global, text: &[u8]) -> Result<Chunk, Fail> {
    Ok(Chunk {
        line: 1,
        kind: ChunkKind::Balanced,
        text: Text::from_slice(alloc, text)?,
    })
}

#[test]
fn quotes_hide_parentheses_however_the_script_is_cut(rt: HostRuntime) -> Result<(), Fail> {
    let mut framer = Framer::new(rt.alloc());
    framer.feed(b"(a \"")?;
    assert!(rt; framer.next()?.is_none());
    framer.feed(b")\" |")?;
    assert!(rt; framer.next()?.is_none());
    framer.feed(b")|)")?;
    let Some(chunk) = framer.next()? else {
        panic!(rt; "the chunk is whole")
    };
    assert_eq!(rt; chunk.line, 1);
    assert_eq!(rt; chunk.kind, ChunkKind::Balanced);
    assert!(rt; chunk.text.as_slice() == b"(a \")\" |)|)".as_slice());
    assert!(rt; framer.next()?.is_none());
    assert!(rt; framer.finish()?.is_none());
    Ok(())
}

#[test]
fn stray_text_and_an_unfinished_command_are_chunks(rt: HostRuntime) -> Result<(), Fail> {
    let alloc = rt.alloc();
    let mut pieces = Vec::new(alloc);
    pieces.push(Text::from_slice(alloc, b"; note (\n ) a")?)?;
    pieces.push(Text::from_slice(alloc, b"bc\n(check-sat)(push")?)?;
    let all = chunks(alloc, pieces.as_slice())?;
    assert_eq!(rt; all.len(), 4);
    assert!(rt;
        all[0].line == 2
            && all[0].kind == ChunkKind::Stray
            && all[0].text.as_slice() == b")".as_slice()
    );
    assert!(rt; all[1].line == 2 && all[1].text.as_slice() == b"abc".as_slice());
    assert!(rt; all[2].line == 3 && all[2].kind == ChunkKind::Balanced);
    assert!(rt; all[3].line == 3 && all[3].kind == ChunkKind::Unfinished);
    assert!(rt; all[3].text.as_slice() == b"(push".as_slice());
    Ok(())
}

#[test]
fn a_command_has_these_tokens(rt: HostRuntime) -> Result<(), Fail> {
    let alloc = rt.alloc();
    let chunk = chunk_of(alloc, b"(assert |a b| #xfF 1.50 :k \"s\"\"t\" let)")?;
    let Ok(all) = tokens(alloc, &chunk) else {
        panic!(rt; "all are tokens")
    };
    let kinds = [
        TokenKind::Open,
        TokenKind::Command(CommandName::Assert),
        TokenKind::Symbol,
        TokenKind::Hexadecimal,
        TokenKind::Decimal,
        TokenKind::Keyword,
        TokenKind::String,
        TokenKind::Let,
        TokenKind::Close,
    ];
    assert_eq!(rt; all.len(), kinds.len());
    let mut printed = Text::new(alloc);
    for (token, kind) in all.as_slice().iter().zip(kinds.iter()) {
        assert_eq!(rt; token.kind, *kind);
        print_token(*token, &mut printed)?;
    }
    assert!(rt; printed.as_slice() == b"(assert|a b|#xfF1.50:k\"s\"\"t\"let)".as_slice());
    let Some(name) = all.get(2) else {
        panic!(rt; "there are nine")
    };
    assert!(rt; name.quoted && name.text == b"a b".as_slice());
    Ok(())
}

#[test]
fn the_first_bad_token_is_told(rt: HostRuntime) -> Result<(), Fail> {
    let alloc = rt.alloc();
    let chunk = chunk_of(alloc, b"(assert 00 #b2)")?;
    let Err(error) = tokens(alloc, &chunk) else {
        panic!(rt; "two tokens are bad")
    };
    assert_eq!(rt; error, TokensError::Bad(TokenFault { place: 8 }));
    Ok(())
}

#[test]
fn symbols_and_strings_are_spelled(rt: HostRuntime) -> Result<(), Fail> {
    let mut out = Text::new(rt.alloc());
    print_symbol(b"x!0", &mut out)?;
    print_symbol(b"a b", &mut out)?;
    print_symbol(b"let", &mut out)?;
    print_symbol(b"", &mut out)?;
    print_text(b"a\"b", &mut out)?;
    assert!(rt; out.as_slice() == b"x!0|a b||let|||\"a\"\"b\"".as_slice());
    Ok(())
}
