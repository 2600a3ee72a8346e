//! Whether tokens are one list in parentheses.

ghost use Rattle.std.specs.Prelude.{◌≡◌};
ghost use Rattle.smt_syntax.specs.Sexps.{signs_in, signs_of};
ghost use Rattle.script_state.specs.Readings.{closes, is_list};

use smt_syntax::depth::open_after;
use smt_text::token::{Token, TokenKind, Tokens};

/// Whether the one open parenthesis closes with the last token.
fn closes(tokens: &[Token<'_>]) -> bool
    ensures { result ≡ closes 1 (signs_in tokens.now) }
{
    let mut depth = 1usize;
    for token in tokens {
        if depth == 0 {
            return false;
        }
        depth = open_after(depth, token.kind);
    }
    depth == 0
}

/// Whether the tokens are one list in parentheses.
#[tactic(auto, unfolding(crate::specs::Readings::is_list))]
fn is_list_of(tokens: &[Token<'_>]) -> bool
    ensures { result ≡ is_list (signs_in tokens.now) }
{
    match tokens {
        [] => false,
        [first, rest @ ..] => match first.kind {
            TokenKind::Open => closes(rest),
            _ => false,
        },
    }
}

/// Whether the tokens are one list in parentheses.
pub(crate) fn is_list(tokens: &Tokens<'_>) -> bool
    ensures { result ≡ is_list (signs_of tokens.now) }
{
    is_list_of(tokens.as_slice())
}
