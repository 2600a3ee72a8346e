// The name of an assertion.

ghost use Rattle.std.specs.Prelude.{◌≡◌, IfOk};
ghost use Rattle.smt_syntax.specs.Sexps.{signs_in, signs_of, spelling, Sexp, Sexps};
ghost use Rattle.smt_syntax.specs.Spans.{AllStand, Stands};
ghost use Rattle.smt_build.specs.Naming.{name_behind, first_name, annotated_name, parts_of, name_of_assertion, is_label_word, IsWordOf, IsNameOf};

use crate::declare::tokens_at;
use smt_syntax::parts::parts;
use smt_syntax::span::Span;
use smt_text::token::{Token, TokenKind, Tokens};
use std::alloc::{AllocError, Global};

/// The word that stands at a span; none where a list does.
pub fn word_at<'a>(tokens: &[Token<'a>], span: Span) -> Option<Token<'a>>
    ensures { (e : Sexp) → Stands (signs_in tokens.now) span e → IsWordOf e result }
{
    match tokens_at(tokens, span) {
        [word] => Some(*word),
        _ => None,
    }
}

/// The name behind `:named`.
fn name_behind<'a>(tokens: &[Token<'a>], spans: &[Span]) -> Option<&'a [u8]>
    ensures { (es : Sexps) → AllStand (signs_in tokens.now) spans.now es
        → IsNameOf (name_behind es) result }
{
    let [span, ..] = spans else {
        return None;
    };
    match word_at(tokens, *span) {
        Some(word) => Some(word.text),
        None => None,
    }
}

/// Whether a word is `:named`.
fn is_label(word: Option<Token<'_>>) -> bool
    ensures { result ≡ is_label_word word.entry }
{
    match word {
        Some(word) => word.kind == TokenKind::Keyword && word.text == b":named".as_slice(),
        None => false,
    }
}

/// The first name among attributes.
fn first_name<'a>(tokens: &[Token<'a>], mut spans: &[Span]) -> Option<&'a [u8]>
    ensures { (es : Sexps) → AllStand (signs_in tokens.now) spans.entry.now es
        → IsNameOf (first_name es) result }
{
    while let [span, rest @ ..] = spans {
        if is_label(word_at(tokens, *span)) {
            return name_behind(tokens, rest);
        }
        spans = rest;
    }
    None
}

/// The name of an assertion among the parts of its term.
fn annotated_name<'a>(tokens: &[Token<'a>], spans: &[Span]) -> Option<&'a [u8]>
    ensures { (es : Sexps) → AllStand (signs_in tokens.now) spans.now es
        → IsNameOf (annotated_name es) result }
{
    let [first, _, attributes @ ..] = spans else {
        return None;
    };
    match word_at(tokens, *first) {
        Some(word) if word.kind == TokenKind::Bang => first_name(tokens, attributes),
        _ => None,
    }
}

/// The spans of the parts of a term among its tokens, none of a word.
pub(crate) fn parts_of(alloc: Global, tokens: &[Token<'_>]) -> Result<Vec<Span>, AllocError>
    ensures { IfOk result (λ v. (e : Sexp) → signs_in tokens.now ≡ spelling e
        → AllStand (signs_in tokens.now) v.items (parts_of e)) }
{
    if tokens.len() < 2 {
        return Ok(Vec::new(alloc));
    }
    let inside = Span {
        start: 1,
        end: tokens.len() - 1,
    };
    let found = parts(alloc, tokens, inside)?;
    Ok(found)
}

/// The name of the assertion of the term at a span.
pub fn name_of_assertion<'a>(
    alloc: Global,
    tokens: &Tokens<'a>,
    span: Span,
) -> Result<Option<&'a [u8]>, AllocError>
    ensures { IfOk result (λ o. (e : Sexp) → Stands (signs_of tokens.now) span e
        → IsNameOf (name_of_assertion e) o) }
{
    let items = tokens_at(tokens.as_slice(), span);
    let spans = parts_of(alloc, items)?;
    Ok(annotated_name(items, spans.as_slice()))
}
