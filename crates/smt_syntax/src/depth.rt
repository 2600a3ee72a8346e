// How deep parentheses nest.

ghost use Rattle.std.specs.Prelude.{◌≡◌, ◌+◌, ◌<◌, ◌^◌, ℕ, List, nat_lt};
ghost use Rattle.smt_syntax.specs.Sexps.{sign_by, signs_in};
ghost use Rattle.smt_syntax.specs.Depth.{most_open, most_depth, open_after};

use smt_text::token::{Token, TokenKind};

/// So many parentheses may be open at once.
const MOST_DEPTH: usize = 1_000_000;

/// How many parentheses are open behind a token.
pub fn open_after(depth: usize, kind: TokenKind) -> usize
    requires { depth + 1 < 2 ^ 64 }
    ensures { (text : List ℕ) → result ≡ open_after depth (sign_by kind text) }
{
    match kind {
        TokenKind::Open => depth + 1,
        TokenKind::Close => depth.saturating_sub(1),
        _ => depth,
    }
}

/// The most parentheses that are open at once.
fn most_open(tokens: &[Token<'_>]) -> usize
    ensures { result ≡ most_open 0 (signs_in tokens.now) }
{
    let mut depth = 0usize;
    let mut most = 0usize;
    for token in tokens {
        depth = open_after(depth, token.kind);
        most = most.max(depth);
    }
    most
}

/// Whether more parentheses are open at once than may be.
pub fn is_too_deep(tokens: &[Token<'_>]) -> bool
    ensures { result ≡ nat_lt most_depth (most_open 0 (signs_in tokens.now)) }
{
    MOST_DEPTH < most_open(tokens)
}
