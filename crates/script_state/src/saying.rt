//! Lines that are said.

ghost use Rattle.smt_text.specs.Printing.{between};
ghost use Rattle.smt_syntax.specs.Sexps.{Sexp, signs_of};
ghost use Rattle.smt_syntax.specs.Spans.{Stands};
ghost use Rattle.script_state.specs.States.{StateValue};
ghost use Rattle.script_state.specs.Steps.{saying, unsupported, echoing, Answers};

use crate::answer::Answer;
use crate::word::word_at;
use smt_syntax::span::Span;
use smt_text::text::Text;
use smt_text::token::Tokens;
use std::alloc::{AllocError, Global};

/// Says the line.
pub(crate) fn say(alloc: Global, line: &[u8]) -> Result<Answer, AllocError>
    ensures { (s : StateValue) → Answers (saying s line.now) result s s }
{
    let line = Text::from_slice(alloc, line)?;
    Ok(Answer::Says(line))
}

/// Says that something is not supported, which is no error (SMT-LIB 2.6, section 4.1.1).
pub(crate) fn say_unsupported(alloc: Global) -> Result<Answer, AllocError>
    ensures { (s : StateValue) → Answers (saying s unsupported) result s s }
{
    say(alloc, b"unsupported")
}

/// Says the string between quotes.
fn say_string(alloc: Global, string: &[u8]) -> Result<Answer, AllocError>
    ensures { (s : StateValue) → Answers (saying s (between 34 string.now)) result s s }
{
    let mut line = Text::from_slice(alloc, b"\"")?;
    line.push_slice(string)?;
    line.push_slice(b"\"")?;
    Ok(Answer::Says(line))
}

/// Says the string that stands at the span as it is written.
pub(crate) fn echo(alloc: Global, tokens: &Tokens<'_>, span: Span) -> Result<Answer, AllocError>
    ensures { (s : StateValue) (e : Sexp) → Stands (signs_of tokens.now) span e
        → Answers (echoing s e) result s s }
{
    match word_at(tokens, span) {
        Some(word) => say_string(alloc, word.text),
        None => say_unsupported(alloc),
    }
}
