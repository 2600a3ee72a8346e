// The parts of a list.

ghost use Rattle.std.specs.Prelude.{◌≡◌, ◌+◌, ◌<◌, ◌≤◌, ◌^◌, ◌++◌, ℕ, List, length, Some, None, option_to_list, IfOk, OnOk};
ghost use Rattle.smt_syntax.specs.Sexps.{signs_in, sign_by, Sexps, spellings};
ghost use Rattle.smt_syntax.specs.Spans.{span, cut, cut_step, spans_from, tokens_at, IsWithin, AllStand};

use crate::span::Span;
use smt_text::token::{Token, TokenKind};
use std::alloc::{AllocError, Global};

/// The spans of the S-expressions that stand one after another in this span.
pub fn parts(alloc: Global, tokens: &[Token<'_>], span: Span) -> Result<Vec<Span>, AllocError>
    ensures spans { IfOk result (λ v. (es : Sexps) → IsWithin (signs_in tokens.now) span
        → tokens_at (signs_in tokens.now) span ≡ spellings es
        → v.items ≡ spans_from span.start es) }
    ensures stand { IfOk result (λ v. (es : Sexps) → IsWithin (signs_in tokens.now) span
        → tokens_at (signs_in tokens.now) span ≡ spellings es
        → AllStand (signs_in tokens.now) v.items es) }
{
    if span.start > span.end || span.end > tokens.len() {
        return Ok(Vec::new(alloc));
    }
    let found = cut(alloc, &tokens[span.start..span.end], span.start)?;
    Ok(found)
}

/// What one token does to the parts that are cut.
#[derive(Clone, Copy)]
pub struct CutStep {
    /// The part that it ends.
    found: Option<Span>,
    /// Where the part that is read now begun.
    begun: usize,
    /// How many parentheses are open.
    depth: usize,
}

/// No part ends; so many parentheses are open then.
fn goes_on(begun: usize, depth: usize) -> CutStep
    ensures { result ≡ record { found = None; begun = begun; depth = depth } }
{
    CutStep {
        found: None,
        begun,
        depth,
    }
}

/// This part ends, and no parenthesis is open.
fn ends(start: usize, end: usize, begun: usize) -> CutStep
    ensures { result ≡ record { found = Some (span start end); begun = begun; depth = 0 } }
{
    CutStep {
        found: Some(Span { start, end }),
        begun,
        depth: 0,
    }
}

fn cut_step(place: usize, begun: usize, depth: usize, kind: TokenKind) -> CutStep
    requires place { place + 1 < 2 ^ 64 }
    requires depth { depth + 1 < 2 ^ 64 }
    ensures { (text : List ℕ) → result ≡ cut_step place begun depth (sign_by kind text) }
{
    match kind {
        TokenKind::Open => {
            if depth == 0 {
                goes_on(place, 1)
            } else {
                goes_on(begun, depth + 1)
            }
        }
        TokenKind::Close => {
            if depth == 1 {
                ends(begun, place + 1, begun)
            } else {
                goes_on(begun, depth.saturating_sub(1))
            }
        }
        _ => {
            if depth == 0 {
                ends(place, place + 1, begun)
            } else {
                goes_on(begun, depth)
            }
        }
    }
}

fn push_found(out: &mut Vec<Span>, found: Option<Span>) -> Result<(), AllocError>
    ensures { OnOk result (out.new.items ≡ out.old.items ++ option_to_list found) }
{
    if let Some(span) = found {
        out.push(span)?;
    }
    Ok(())
}

/// Cuts where no parenthesis is open.
fn cut(alloc: Global, tokens: &[Token<'_>], first: usize) -> Result<Vec<Span>, AllocError>
    requires { first + length tokens.now < 2 ^ 64 }
    ensures { IfOk result (λ v. v.items ≡ cut first first 0 (signs_in tokens.now)) }
{
    let mut out = Vec::new(alloc);
    let mut begun = first;
    let mut depth = 0usize;
    for (i, token) in tokens.iter().enumerate() {
        let step = cut_step(first + i, begun, depth, token.kind);
        push_found(&mut out, step.found)?;
        begun = step.begun;
        depth = step.depth;
    }
    Ok(out)
}
