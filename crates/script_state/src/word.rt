//! Words among the arguments of a command.

ghost use Rattle.std.specs.Prelude.{◌≡◌};
ghost use Rattle.smt_syntax.specs.Sexps.{Sexp, signs_of};
ghost use Rattle.smt_syntax.specs.Spans.{Stands};
ghost use Rattle.smt_build.specs.Naming.{IsWordOf};

use smt_build::naming;
use smt_syntax::span::Span;
use smt_text::token::{Token, Tokens};

/// The word that stands at the span; none where a list does.
pub(crate) fn word_at<'a>(tokens: &Tokens<'a>, span: Span) -> Option<Token<'a>>
    ensures { (e : Sexp) → Stands (signs_of tokens.now) span e → IsWordOf e result }
{
    naming::word_at(tokens.as_slice(), span)
}
