//! Whole commands.

ghost use Rattle.std.specs.Prelude.{◌≡◌, ◌+◌, ◌<◌, ◌^◌, Ok, false};
ghost use Rattle.smt_syntax.specs.Sexps.{Sexp, Sexps, signs_of};
ghost use Rattle.smt_syntax.specs.Spans.{Stands, AllStand};
ghost use Rattle.smt_syntax.specs.Commands.{name_of, spans_of, is_left_out, is_not_supported};
ghost use Rattle.script_state.specs.Written.{listed};
ghost use Rattle.script_state.specs.Steps.{modelling, valuing_listed, refuting, refuting_assumed, obey, Answers, Applies};

use crate::answer::{Answer, Verdict};
use crate::asked::{AskError, Purpose, ask};
use crate::error_text::{ErrorText, syntax_error};
use crate::logic::set_logic;
use crate::options::Options;
use crate::plain::cut;
use crate::saying::{echo, say_unsupported};
use crate::state::State;
use crate::whole::is_list;
use crate::word::word_at;
use smt_syntax::command::{Command, SyntaxError, read_command};
use smt_syntax::span::Span;
use smt_text::chunk::{Chunk, ChunkKind};
use smt_text::token::Tokens;
use smt_text::tokens::{TokensError, tokens};
use std::alloc::{AllocError, Global};

impl State {
    /// The model of the check that stands is to be printed: the option's fault comes first.
    fn get_model(&self) -> Answer
        ensures { Answers (modelling self.now) (Ok result) self.now self.now }
    {
        if !self.options.produce_models {
            return Answer::Refused(ErrorText::OptionOff);
        }
        match self.standing {
            Some(Verdict::Sat) => Answer::Model,
            _ => Answer::Refused(ErrorText::NoModel),
        }
    }

    /// The values of the terms in the list at the span are to be printed: their faults come first, then the option's.
    fn get_value(
        &mut self,
        alloc: Global,
        tokens: &Tokens<'_>,
        list: Span,
    ) -> Result<Answer, AllocError>
        requires { (e : Sexp) × Stands (signs_of tokens.now) list e }
        ensures { (e : Sexp) → Stands (signs_of tokens.now) list e
            → Answers (valuing_listed self.old (listed tokens.now) e) result self.old self.new }
    {
        if word_at(tokens, list).is_some() {
            return Ok(Answer::Refused(ErrorText::NotSupported));
        }
        let len = self.terms.len();
        let options = self.options;
        match ask(
            alloc,
            &self.symbols,
            &mut self.terms,
            &mut self.reached,
            tokens,
            list,
            Purpose::Evaluate,
        ) {
            Ok(asked) => {
                if !options.produce_models {
                    cut(&mut self.terms, &mut self.plain, len);
                    return Ok(Answer::Refused(ErrorText::OptionOff));
                }
                match self.standing {
                    Some(Verdict::Sat) => Ok(Answer::Values(asked)),
                    _ => {
                        cut(&mut self.terms, &mut self.plain, len);
                        Ok(Answer::Refused(ErrorText::NoModel))
                    }
                }
            }
            Err(AskError::NoMemory) => {
                cut(&mut self.terms, &mut self.plain, len);
                Err(AllocError)
            }
            Err(AskError::Refused(error)) => {
                cut(&mut self.terms, &mut self.plain, len);
                Ok(Answer::Refused(error))
            }
        }
    }

    /// The names of a core are to be printed, in the same way.
    fn get_unsat_core(&self) -> Answer
        ensures { Answers (refuting self.now) (Ok result) self.now self.now }
    {
        if !self.options.produce_unsat_cores {
            return Answer::Refused(ErrorText::OptionOff);
        }
        match self.standing {
            Some(Verdict::Unsat) => Answer::Core,
            _ => Answer::Refused(ErrorText::NoRefutation),
        }
    }

    /// Assumptions that cannot hold are to be printed, in the same way; the check has to have been asked with assumptions.
    fn get_unsat_assumptions(&self) -> Answer
        ensures { Answers (refuting_assumed self.now) (Ok result) self.now self.now }
    {
        if !self.options.produce_unsat_assumptions {
            return Answer::Refused(ErrorText::OptionOff);
        }
        match (self.standing, &self.assumed) {
            (Some(Verdict::Unsat), Some(_)) => Answer::Assumptions,
            _ => Answer::Refused(ErrorText::NoRefutation),
        }
    }

    /// Does what the command says.
    fn obey(
        &mut self,
        alloc: Global,
        tokens: &Tokens<'_>,
        command: &Command,
    ) -> Result<Answer, AllocError>
        requires arguments { (es : Sexps)
            × (is_left_out (name_of command.now) ≡ false
            → AllStand (signs_of tokens.now) (spans_of command.now) es) }
        requires known { is_not_supported command.now ≡ is_left_out (name_of command.now) }
        requires assertions { self.old.scopes.made + 1 < 2 ^ 32 }
        ensures { (es : Sexps)
            → (is_left_out (name_of command.now) ≡ false
            → AllStand (signs_of tokens.now) (spans_of command.now) es)
            → Answers (obey self.old tokens.now (name_of command.now) es) result self.old self.new }
    {
        match command {
            Command::DeclareConst { .. } => self.declare(alloc, tokens, command),
            Command::DeclareFun { .. } => self.declare(alloc, tokens, command),
            Command::DefineSort { .. } => self.define_sort(alloc, tokens, command),
            Command::DefineFun { .. } => self.define(alloc, tokens, command),
            Command::Assert { term } => self.assert(alloc, tokens, *term),
            Command::CheckSat => self.check(alloc),
            Command::SetInfo { .. } => Ok(Answer::Done),
            Command::SetLogic { logic } => Ok(set_logic(tokens, *logic)),
            Command::SetOption { keyword, value } => {
                self.set_option(alloc, tokens, *keyword, *value)
            }
            Command::GetOption { keyword } => self.get_option(alloc, tokens, *keyword),
            Command::GetInfo { keyword } => self.get_info(alloc, tokens, *keyword),
            Command::Echo { text } => echo(alloc, tokens, *text),
            Command::Push { levels } => self.push(tokens, *levels),
            Command::Pop { levels } => Ok(self.pop(tokens, *levels)),
            Command::Reset => Ok(self.reset(Options::first())),
            Command::ResetAssertions => Ok(self.reset_assertions()),
            Command::GetModel => Ok(self.get_model()),
            Command::GetUnsatCore => Ok(self.get_unsat_core()),
            Command::GetUnsatAssumptions => Ok(self.get_unsat_assumptions()),
            Command::GetAssertions | Command::GetAssignment | Command::GetProof => {
                say_unsupported(alloc)
            }
            Command::Exit => Ok(Answer::Exit),
            Command::CheckSatAssuming { terms } => self.check_assuming(alloc, tokens, *terms),
            Command::GetValue { terms } => self.get_value(alloc, tokens, *terms),
            Command::NotSupported { .. } => Ok(Answer::Refused(ErrorText::NotSupported)),
        }
    }

    /// Does what a whole command says.
    pub(crate) fn apply_command(
        &mut self,
        alloc: Global,
        chunk: &Chunk,
    ) -> Result<Answer, AllocError>
        requires balanced { chunk.now.kind ≡ ChunkKind.Balanced }
        requires assertions { self.old.scopes.made + 1 < 2 ^ 32 }
        ensures { Applies chunk.now result self.old self.new }
    {
        let all = match tokens(alloc, chunk) {
            Ok(all) => all,
            Err(TokensError::NoMemory) => return Err(AllocError),
            Err(TokensError::Bad(_)) => return Ok(Answer::Refused(ErrorText::BadToken)),
        };
        if !is_list(&all) {
            return Ok(Answer::Refused(ErrorText::MalformedCommand));
        }
        match read_command(alloc, &all) {
            Ok(command) => self.obey(alloc, &all, &command),
            Err(SyntaxError::NoMemory) => Err(AllocError),
            Err(SyntaxError::Fault(fault)) => Ok(Answer::Refused(syntax_error(fault))),
        }
    }
}
