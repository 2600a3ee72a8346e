//! Declarations, definitions, assertions and checks (SMT-LIB 2.6, sections 4.2.3 to 4.2.5).

ghost use Rattle.std.specs.Prelude.{◌≡◌, ◌+◌, ◌<◌, ◌^◌, IfOk, Ok};
ghost use Rattle.smt_syntax.specs.Sexps.{Sexp, Sexps, signs_of};
ghost use Rattle.smt_syntax.specs.Spans.{Stands, AllStand};
ghost use Rattle.smt_syntax.specs.Commands.{name_of, spans_of};
ghost use Rattle.smt_build.specs.Declaring.{declare};
ghost use Rattle.smt_build.specs.Defining.{define, define_sort};
ghost use Rattle.smt_build.specs.Asserting.{assertion};
ghost use Rattle.smt_build.specs.Naming.{name_of_assertion};
ghost use Rattle.script_state.specs.Written.{listed};
ghost use Rattle.script_state.specs.Steps.{declaring, naming_sort, defining, asserting, checking, assuming_listed, Answers};

use crate::answer::Answer;
use crate::asked::{AskError, assume};
use crate::error_text::{ErrorText, build_error};
use crate::objecting::objection;
use crate::plain::cut;
use crate::state::State;
use crate::watches::watches_fit;
use crate::word::word_at;
use smt_build::fault::BuildError;
use smt_build::naming::name_of_assertion;
use smt_syntax::command::Command;
use smt_syntax::span::Span;
use smt_text::text::Text;
use smt_text::token::Tokens;
use std::alloc::{AllocError, Global};

/// The name of the assertion of the term at the span.
fn name_at(alloc: Global, tokens: &Tokens<'_>, span: Span) -> Result<Option<Text>, AllocError>
    ensures { IfOk result (λ name. (e : Sexp) → Stands (signs_of tokens.now) span e
        → name ≡ name_of_assertion e) }
{
    match name_of_assertion(alloc, tokens, span) {
        Ok(Some(name)) => Ok(Some(Text::from_slice(alloc, name)?)),
        Ok(None) => Ok(None),
        Err(error) => Err(error),
    }
}

impl State {
    /// Makes the declaration of a command.
    pub(crate) fn declare(
        &mut self,
        alloc: Global,
        tokens: &Tokens<'_>,
        command: &Command,
    ) -> Result<Answer, AllocError>
        requires { (es : Sexps) × AllStand (signs_of tokens.now) (spans_of command.now) es }
        ensures { (es : Sexps) → AllStand (signs_of tokens.now) (spans_of command.now) es
            → Answers (declaring self.old (declare self.old.symbols (name_of command.now) es))
            result self.old self.new }
    {
        match self.symbols.declare(alloc, tokens, command) {
            Ok(_) => {
                self.standing = None;
                self.assumed = None;
                Ok(Answer::Done)
            }
            Err(BuildError::NoMemory) => Err(AllocError),
            Err(BuildError::Fault(fault)) => Ok(Answer::Refused(build_error(fault))),
        }
    }

    /// Gives a sort the name of a command.
    pub(crate) fn define_sort(
        &mut self,
        alloc: Global,
        tokens: &Tokens<'_>,
        command: &Command,
    ) -> Result<Answer, AllocError>
        requires { (es : Sexps) × AllStand (signs_of tokens.now) (spans_of command.now) es }
        ensures { (es : Sexps) → AllStand (signs_of tokens.now) (spans_of command.now) es
            → Answers (naming_sort self.old (define_sort self.old.symbols (name_of command.now) es))
            result self.old self.new }
    {
        match self.symbols.define_sort(alloc, tokens, command) {
            Ok(()) => {
                self.standing = None;
                self.assumed = None;
                Ok(Answer::Done)
            }
            Err(BuildError::NoMemory) => Err(AllocError),
            Err(BuildError::Fault(fault)) => Ok(Answer::Refused(build_error(fault))),
        }
    }

    /// Makes the definition of a command.
    pub(crate) fn define(
        &mut self,
        alloc: Global,
        tokens: &Tokens<'_>,
        command: &Command,
    ) -> Result<Answer, AllocError>
        requires { (es : Sexps) × AllStand (signs_of tokens.now) (spans_of command.now) es }
        ensures { (es : Sexps) → AllStand (signs_of tokens.now) (spans_of command.now) es
            → Answers (defining self.old
            (define self.old.symbols self.old.terms (name_of command.now) es)) result self.old
            self.new }
    {
        match self
            .symbols
            .define(alloc, &mut self.terms, &mut self.reached, tokens, command)
        {
            Ok(()) => {
                self.standing = None;
                self.assumed = None;
                Ok(Answer::Done)
            }
            Err(BuildError::NoMemory) => Err(AllocError),
            Err(BuildError::Fault(fault)) => Ok(Answer::Refused(build_error(fault))),
        }
    }

    /// Asserts the term at the span, under its name if it has one.
    pub(crate) fn assert(
        &mut self,
        alloc: Global,
        tokens: &Tokens<'_>,
        span: Span,
    ) -> Result<Answer, AllocError>
        requires stands { (e : Sexp) × Stands (signs_of tokens.now) span e }
        requires assertions { self.old.scopes.made + 1 < 2 ^ 32 }
        ensures { (e : Sexp) → Stands (signs_of tokens.now) span e
            → Answers (asserting self.old (name_of_assertion e)
            (assertion self.old.symbols self.old.terms e)) result self.old self.new }
    {
        let len = self.terms.len();
        let count = self.symbols.definition_count();
        let name = name_at(alloc, tokens, span)?;
        let term = match self
            .symbols
            .assert_term(alloc, &mut self.terms, &mut self.reached, tokens, span)
        {
            Ok(term) => term,
            Err(BuildError::NoMemory) => return Err(AllocError),
            Err(BuildError::Fault(fault)) => return Ok(Answer::Refused(build_error(fault))),
        };
        match objection(&self.terms, term) {
            None => {}
            Some(error) => {
                self.symbols.cut_definitions(count);
                cut(&mut self.terms, &mut self.plain, len);
                return Ok(Answer::Refused(error));
            }
        }
        match self.scopes.assert(term, name) {
            Ok(_) => {
                self.standing = None;
                self.assumed = None;
                Ok(Answer::Done)
            }
            Err(error) => {
                self.symbols.cut_definitions(count);
                cut(&mut self.terms, &mut self.plain, len);
                Err(error)
            }
        }
    }

    /// The live assertions are to be checked, and no check stands, if what the check makes before all else can be made.
    pub(crate) fn check(&mut self, alloc: Global) -> Result<Answer, AllocError>
        ensures { Answers (checking self.old) result self.old self.new }
    {
        let fit = watches_fit(
            alloc,
            &mut self.terms,
            &mut self.reached,
            &mut self.plain,
            self.scopes.live(),
            &[],
        )?;
        if !fit {
            return Ok(Answer::Refused(ErrorText::TooManyTerms));
        }
        self.standing = None;
        self.assumed = None;
        Ok(Answer::Check)
    }

    /// The live assertions are to be checked with the assumptions in the list at the span, and no check stands, if what the
    /// check makes before all else can be made.
    pub(crate) fn check_assuming(
        &mut self,
        alloc: Global,
        tokens: &Tokens<'_>,
        list: Span,
    ) -> Result<Answer, AllocError>
        requires { (e : Sexp) × Stands (signs_of tokens.now) list e }
        ensures { (e : Sexp) → Stands (signs_of tokens.now) list e
            → Answers (assuming_listed self.old (listed tokens.now) e) result self.old self.new }
    {
        if word_at(tokens, list).is_some() {
            return Ok(Answer::Refused(ErrorText::NotSupported));
        }
        let len = self.terms.len();
        match assume(
            alloc,
            &self.symbols,
            &self.scopes,
            &mut self.terms,
            &mut self.reached,
            &mut self.plain,
            tokens,
            list,
        ) {
            Ok(asked) => {
                self.standing = None;
                self.assumed = Some(asked);
                Ok(Answer::Check)
            }
            Err(AskError::NoMemory) => {
                cut(&mut self.terms, &mut self.plain, len);
                Err(AllocError)
            }
            Err(AskError::Refused(error)) => {
                cut(&mut self.terms, &mut self.plain, len);
                Ok(Answer::Refused(error))
            }
        }
    }
}
