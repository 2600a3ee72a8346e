//! Levels that begin and end (SMT-LIB 2.6, section 4.1.4).

ghost use Rattle.std.specs.Prelude.{◌≡◌, ◌-◌, ◌^◌, ℕ, min, Ok, option_to_list};
ghost use Rattle.smt_syntax.specs.Sexps.{Sexps, signs_of};
ghost use Rattle.smt_syntax.specs.Spans.{AllStand};
ghost use Rattle.script_state.specs.Steps.{levels_meant, pushing, popping, resetting, Answers};

use crate::answer::Answer;
use crate::error_text::ErrorText;
use crate::options::Options;
use crate::state::State;
use crate::word::word_at;
use smt_build::literal::index_of;
use smt_syntax::span::Span;
use smt_text::token::Tokens;
use std::alloc::AllocError;

/// How many levels the numeral at the span means, one where none is written. So many as 64 bits can count are out of range
/// whatever the number is, which may be greater.
fn levels_meant(tokens: &Tokens<'_>, numeral: Option<Span>) -> u64
    ensures { (es : Sexps) → AllStand (signs_of tokens.now) (option_to_list numeral) es
        → result ≡ min (levels_meant es) (2 ^ 64 - 1) }
{
    let Some(span) = numeral else {
        return 1;
    };
    match word_at(tokens, span) {
        Some(word) => index_of(word.text),
        None => 1,
    }
}

impl State {
    /// Begins so many levels; a number that 64 bits cannot count is out of range as the greatest that they can.
    fn begin_levels(&mut self, count: u64) -> Result<Answer, AllocError>
        ensures { (n : ℕ) → count ≡ min n (2 ^ 64 - 1)
            → Answers (pushing self.old n) result self.old self.new }
    {
        match self.scopes.push(count) {
            Ok(()) => {}
            Err(_) => return Ok(Answer::Refused(ErrorText::LevelOutOfRange)),
        }
        match self.symbols.push(count) {
            Ok(()) => {
                self.standing = None;
                self.assumed = None;
                Ok(Answer::Done)
            }
            Err(error) => {
                // the levels that were just begun end again
                let _ended = self.scopes.pop(count);
                Err(error)
            }
        }
    }

    /// Ends so many levels.
    fn end_levels(&mut self, count: u64) -> Answer
        ensures { (n : ℕ) → count ≡ min n (2 ^ 64 - 1)
            → Answers (popping self.old n) (Ok result) self.old self.new }
    {
        match self.scopes.pop(count) {
            Ok(()) => {}
            Err(_) => return Answer::Refused(ErrorText::LevelOutOfRange),
        }
        self.symbols.pop(count);
        self.standing = None;
        self.assumed = None;
        Answer::Done
    }

    /// Begins as many levels as the numeral at the span means.
    pub(crate) fn push(
        &mut self,
        tokens: &Tokens<'_>,
        numeral: Option<Span>,
    ) -> Result<Answer, AllocError>
        ensures { (es : Sexps) → AllStand (signs_of tokens.now) (option_to_list numeral) es
            → Answers (pushing self.old (levels_meant es)) result self.old self.new }
    {
        self.begin_levels(levels_meant(tokens, numeral))
    }

    /// Ends as many levels as the numeral at the span means, with their assertions, declarations and definitions.
    pub(crate) fn pop(&mut self, tokens: &Tokens<'_>, numeral: Option<Span>) -> Answer
        ensures { (es : Sexps) → AllStand (signs_of tokens.now) (option_to_list numeral) es
            → Answers (popping self.old (levels_meant es)) (Ok result) self.old self.new }
    {
        self.end_levels(levels_meant(tokens, numeral))
    }

    /// Ends all levels and forgets all that stands in the first; the options are these then.
    pub(crate) fn reset(&mut self, options: Options) -> Answer
        ensures { Answers (resetting self.old options) (Ok result) self.old self.new }
    {
        self.symbols.reset();
        self.scopes.reset();
        self.options = options;
        self.standing = None;
        self.assumed = None;
        Answer::Done
    }

    /// The same, and the options stay.
    pub(crate) fn reset_assertions(&mut self) -> Answer
        ensures { Answers (resetting self.old self.old.options) (Ok result) self.old self.new }
    {
        let options = self.options;
        self.reset(options)
    }
}
