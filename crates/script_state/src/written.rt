//! Texts of terms as a script has them.

ghost use Rattle.std.specs.Prelude.{◌≡◌, ◌++◌, IfOk, OnOk};
ghost use Rattle.smt_text.specs.Lexicon.{lexemes_of};
ghost use Rattle.script_state.specs.Written.{space_between, tokens_text};

use smt_text::print::print_token;
use smt_text::text::Text;
use smt_text::token::{Token, TokenKind};
use std::alloc::{AllocError, Global};

/// Appends what stands between a token and the one behind it.
fn push_space(out: &mut Text, before: TokenKind, kind: TokenKind) -> Result<(), AllocError>
    ensures { OnOk result (out.new ≡ out.old ++ space_between before kind) }
{
    match before {
        TokenKind::Open => Ok(()),
        _ => match kind {
            TokenKind::Close => Ok(()),
            _ => out.push(b' '),
        },
    }
}

/// The text of tokens, with one space between parts.
pub(crate) fn text_of(alloc: Global, tokens: &[Token<'_>]) -> Result<Text, AllocError>
    ensures { IfOk result (λ text. text ≡ tokens_text (lexemes_of tokens.now)) }
{
    let mut out = Text::new(alloc);
    let mut before = TokenKind::Open;
    for token in tokens {
        push_space(&mut out, before, token.kind)?;
        print_token(*token, &mut out)?;
        before = token.kind;
    }
    Ok(out)
}
