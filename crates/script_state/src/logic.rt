//! The logics that a script may name (SMT-LIB 2.6, section 4.1.4).

ghost use Rattle.std.specs.Prelude.{◌≡◌, Ok};
ghost use Rattle.smt_syntax.specs.Sexps.{Sexp, signs_of};
ghost use Rattle.smt_syntax.specs.Spans.{Stands};
ghost use Rattle.script_state.specs.States.{StateValue};
ghost use Rattle.script_state.specs.Steps.{is_logic, names_logic, choosing, Answers};

use crate::answer::Answer;
use crate::error_text::ErrorText;
use smt_syntax::span::Span;
use smt_text::token::{TokenKind, Tokens};

/// Whether the name is that of a logic that is taken.
fn is_logic(name: &[u8]) -> bool
    ensures { result ≡ is_logic name.now }
{
    name == b"QF_BV".as_slice()
        || name == b"QF_UFBV".as_slice()
        || name == b"QF_ABV".as_slice()
        || name == b"QF_AUFBV".as_slice()
        || name == b"ALL".as_slice()
}

/// Whether what stands at the span is the name of a logic that is taken.
fn names_logic(tokens: &Tokens<'_>, span: Span) -> bool
    ensures { (e : Sexp) → Stands (signs_of tokens.now) span e → result ≡ names_logic e }
{
    let items = tokens.as_slice();
    if span.start >= items.len() {
        return false;
    }
    let token = items[span.start];
    match token.kind {
        TokenKind::Symbol => is_logic(token.text),
        _ => false,
    }
}

/// Chooses the logic whose name stands at the span, which changes nothing.
pub(crate) fn set_logic(tokens: &Tokens<'_>, span: Span) -> Answer
    ensures { (s : StateValue) (e : Sexp) → Stands (signs_of tokens.now) span e
        → Answers (choosing s e) (Ok result) s s }
{
    if names_logic(tokens, span) {
        Answer::Done
    } else {
        Answer::Refused(ErrorText::UnknownLogic)
    }
}
