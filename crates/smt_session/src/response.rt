// What a command is answered, and why it is not.

ghost use Rattle.std.specs.Prelude.{◌≡◌, ◌∷◌, ◌++◌, [], true, false, IfOk};
ghost use Rattle.accepted_proof.specs.Answers.{error_text, verdict_text, done_text};
ghost use Rattle.smt_session.specs.Sessions.{response};

use script_state::answer::Verdict;
use script_state::error_text::ErrorText;
use script_state::options::Options;
use smt_text::number::push_number;
use smt_text::text::Text;
use std::alloc::{AllocError, Global};

/// What a command is answered.
#[derive(Debug, Drop)]
pub struct Response {
    /// The lines to be printed, each with its end; there may be none.
    pub text: Text,
    /// Whether the command was refused.
    pub error: bool,
    /// Whether the run ends with this command.
    pub ends: bool,
}

/// Why a session ended without a response.
#[derive(Clone, Copy, Debug, PartialEq, Eq)]
pub enum Stop {
    /// The proof could not be written.
    Failed,
    /// Memory is wanting, or numbers of assertions are.
    NoMemory,
}

impl From<AllocError> for Stop {
    ghost use Rattle.std.specs.Prelude.{◌≡◌};
    ghost use Rattle.smt_session.specs.declared.response.Stop.TheVariants.{NoMemory};

    ghost from_gives = { λ _ s. s ≡ NoMemory };

    fn from(_error: AllocError) -> Stop {
        Stop::NoMemory
    }
}

/// The text of an error, with the line of the command's first byte.
fn refusal_text(alloc: Global, line: u64, error: ErrorText) -> Result<Text, AllocError>
    ensures { IfOk result (λ t. t ≡ error_text line error) }
{
    let mut text = Text::from_slice(alloc, b"(error \"line ")?;
    push_number(&mut text, line)?;
    text.push_slice(b": ")?;
    text.push_slice(error.text())?;
    text.push_slice(b"\")\n")?;
    Ok(text)
}

impl Response {
    /// It is done, which is told where the option says so.
    pub(crate) fn done(alloc: Global, options: Options, ends: bool) -> Result<Response, AllocError>
        ensures { IfOk result (λ r. r ≡ response (done_text options) false ends) }
    {
        let text: &[u8] = if options.print_success {
            b"success\n"
        } else {
            b""
        };
        Ok(Response {
            text: Text::from_slice(alloc, text)?,
            error: false,
            ends,
        })
    }

    /// A line.
    pub(crate) fn line(line: Text) -> Result<Response, AllocError>
        ensures { IfOk result (λ r. r ≡ response (line ++ 10 ∷ []) false false) }
    {
        let mut text = line;
        text.push(b'\n')?;
        Ok(Response::told(text))
    }

    /// An error.
    pub(crate) fn refusal(
        alloc: Global,
        line: u64,
        error: ErrorText,
    ) -> Result<Response, AllocError>
        ensures { IfOk result (λ r. r ≡ response (error_text line error) true false) }
    {
        let text = refusal_text(alloc, line, error)?;
        Ok(Response {
            text,
            error: true,
            ends: false,
        })
    }

    /// The verdict of a check.
    pub(crate) fn verdict(alloc: Global, verdict: Verdict) -> Result<Response, AllocError>
        ensures { IfOk result (λ r. r ≡ response (verdict_text verdict) false false) }
    {
        let text: &[u8] = match verdict {
            Verdict::Sat => b"sat\n",
            Verdict::Unsat => b"unsat\n",
            Verdict::Unknown => b"unknown\n",
        };
        Ok(Response::told(Text::from_slice(alloc, text)?))
    }

    /// A text that tells no error.
    pub(crate) fn told(text: Text) -> Response
        ensures { result ≡ response text false false }
    {
        Response {
            text,
            error: false,
            ends: false,
        }
    }
}
