//! Options and information (SMT-LIB 2.6, sections 4.1.7 and 4.1.8).

ghost use Rattle.std.specs.Prelude.{◌≡◌, ◌++◌, codes, option_to_list};
ghost use Rattle.std.specs.Fmt.{decimal};
ghost use Rattle.smt_syntax.specs.Sexps.{Sexp, Sexps, signs_of};
ghost use Rattle.smt_syntax.specs.Spans.{Stands, AllStand};
ghost use Rattle.script_state.specs.States.{StateValue};
ghost use Rattle.script_state.specs.Steps.{saying, is_true_value, setting, setting_option, telling_option, option_text, telling_reason, telling, telling_info, Answers};

use crate::answer::{Answer, Verdict};
use crate::error_text::ErrorText;
use crate::options::Options;
use crate::saying::{say, say_unsupported};
use crate::state::State;
use crate::word::word_at;
use smt_syntax::span::Span;
use smt_text::token::Tokens;
use std::alloc::{AllocError, Global};

/// The text of an option's value.
fn option_text(value: Option<bool>) -> &'static [u8]
    ensures { result.now ≡ option_text value }
{
    match value {
        None => b"unsupported",
        Some(true) => b"true",
        Some(false) => b"false",
    }
}

/// Whether the value at the span is `true`.
fn is_true(tokens: &Tokens<'_>, span: Span) -> bool
    ensures { (e : Sexp) → Stands (signs_of tokens.now) span e → result ≡ is_true_value e }
{
    match word_at(tokens, span) {
        Some(word) => word.text == b"true".as_slice(),
        None => false,
    }
}

/// The options with the value at the one span for the option that the other one names; `None` where it names none of the
/// four, or where no value stands.
fn with_option(
    options: Options,
    tokens: &Tokens<'_>,
    keyword: Span,
    value: Option<Span>,
) -> Option<Options>
    ensures { (e : Sexp) (es : Sexps) → Stands (signs_of tokens.now) keyword e
        → AllStand (signs_of tokens.now) (option_to_list value) es
        → (s : StateValue) → s.options ≡ options → setting_option s e es ≡ setting s result }
{
    let word = word_at(tokens, keyword)?;
    options.with(word.text, is_true(tokens, value?))
}

/// Says why the answer of the check that stands is unknown.
fn say_reason(alloc: Global, standing: Option<Verdict>) -> Result<Answer, AllocError>
    ensures { (s : StateValue) → Answers (telling_reason s standing) result s s }
{
    let Some(verdict) = standing else {
        return Ok(Answer::Refused(ErrorText::NoUnknownAnswer));
    };
    match verdict {
        Verdict::Unknown => say(alloc, b"(:reason-unknown incomplete)"),
        _ => Ok(Answer::Refused(ErrorText::NoUnknownAnswer)),
    }
}

/// Says how many levels stand above the first.
fn say_levels(alloc: Global, levels: u64) -> Result<Answer, AllocError>
    ensures { (s : StateValue)
        → Answers (saying s (codes "(:assertion-stack-levels " ++ decimal levels ++ codes ")"))
        result s s }
{
    let line = format!(in alloc; "(:assertion-stack-levels {levels})")?;
    say(alloc, line.as_bytes())
}

impl State {
    /// Sets the option that stands at the one span to the value at the other.
    pub(crate) fn set_option(
        &mut self,
        alloc: Global,
        tokens: &Tokens<'_>,
        keyword: Span,
        value: Option<Span>,
    ) -> Result<Answer, AllocError>
        ensures { (e : Sexp) (es : Sexps) → Stands (signs_of tokens.now) keyword e
            → AllStand (signs_of tokens.now) (option_to_list value) es
            → Answers (setting_option self.old e es) result self.old self.new }
    {
        match with_option(self.options, tokens, keyword, value) {
            None => say_unsupported(alloc),
            Some(options) => {
                self.options = options;
                Ok(Answer::Done)
            }
        }
    }

    /// Says the value of the option that stands at the span.
    pub(crate) fn get_option(
        &self,
        alloc: Global,
        tokens: &Tokens<'_>,
        keyword: Span,
    ) -> Result<Answer, AllocError>
        ensures { (e : Sexp) → Stands (signs_of tokens.now) keyword e
            → Answers (telling_option self.now e) result self.now self.now }
    {
        match word_at(tokens, keyword) {
            None => say_unsupported(alloc),
            Some(word) => say(alloc, option_text(self.options.value(word.text))),
        }
    }

    /// Says the information of this name.
    fn say_info(&self, alloc: Global, keyword: &[u8]) -> Result<Answer, AllocError>
        ensures { Answers (telling self.now keyword.now) result self.now self.now }
    {
        if keyword == b":name".as_slice() {
            say(alloc, b"(:name \"smt_tool\")")
        } else if keyword == b":version".as_slice() {
            say(alloc, b"(:version \"1\")")
        } else if keyword == b":error-behavior".as_slice() {
            say(alloc, b"(:error-behavior continued-execution)")
        } else if keyword == b":assertion-stack-levels".as_slice() {
            say_levels(alloc, self.scopes.levels())
        } else if keyword == b":reason-unknown".as_slice() {
            say_reason(alloc, self.standing)
        } else {
            say_unsupported(alloc)
        }
    }

    /// Says the information that the word at the span names.
    pub(crate) fn get_info(
        &self,
        alloc: Global,
        tokens: &Tokens<'_>,
        keyword: Span,
    ) -> Result<Answer, AllocError>
        ensures { (e : Sexp) → Stands (signs_of tokens.now) keyword e
            → Answers (telling_info self.now e) result self.now self.now }
    {
        match word_at(tokens, keyword) {
            None => say_unsupported(alloc),
            Some(word) => self.say_info(alloc, word.text),
        }
    }
}
