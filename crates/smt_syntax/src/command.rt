// The command that the tokens of a chunk are.

ghost use Rattle.std.specs.Prelude.{◌≡◌, ◌<◌, ◌∷◌, [], false, length, map, List, ℕ, IfOk, IfSome, IfNone};
ghost use Rattle.std.specs.List.{list_any};
ghost use Rattle.smt_text.specs.declared.token.TokenKind.{TokenKind as TokenKindValue};
ghost use Rattle.smt_syntax.specs.Sexps.{signs_in, signs_of, Sexp, Sexps, atom, group, more, spelling};
ghost use Rattle.smt_syntax.specs.Spans.{Stands, AllStand};
ghost use Rattle.smt_syntax.specs.Forms.{fits};
ghost use Rattle.smt_syntax.specs.Commands.{is_left_out, forms_of, fits_all, fits_some, is_formed, has_arity, name_of, spans_of, is_not_supported, read, Reads};
ghost use Rattle.smt_syntax.specs.Names.{first_name};

use crate::depth::is_too_deep;
use crate::form::{Form, want_of};
use crate::judge::is_shape;
use crate::parts::parts;
use crate::span::Span;
use smt_text::token::{CommandName, Token, TokenKind, Tokens};
use std::alloc::{AllocError, Global};

/// A command, with where its arguments stand among its tokens.
#[derive(Clone, Copy, Debug, PartialEq, Eq)]
pub enum Command {
    Assert {
        term: Span,
    },
    CheckSat,
    CheckSatAssuming {
        terms: Span,
    },
    DeclareConst {
        name: Span,
        sort: Span,
    },
    DeclareFun {
        name: Span,
        arguments: Span,
        value: Span,
    },
    DefineFun {
        name: Span,
        parameters: Span,
        value: Span,
        term: Span,
    },
    DefineSort {
        name: Span,
        parameters: Span,
        sort: Span,
    },
    Echo {
        text: Span,
    },
    Exit,
    GetAssertions,
    GetAssignment,
    GetInfo {
        keyword: Span,
    },
    GetModel,
    GetOption {
        keyword: Span,
    },
    GetProof,
    GetUnsatAssumptions,
    GetUnsatCore,
    GetValue {
        terms: Span,
    },
    Pop {
        levels: Option<Span>,
    },
    Push {
        levels: Option<Span>,
    },
    Reset,
    ResetAssertions,
    SetInfo {
        keyword: Span,
        value: Option<Span>,
    },
    SetLogic {
        logic: Span,
    },
    SetOption {
        keyword: Span,
        value: Option<Span>,
    },
    /// A command that is known and not supported.
    NotSupported {
        name: CommandName,
    },
}

/// Why tokens are no command; the first of these that holds is told.
#[derive(Clone, Copy, Debug, PartialEq, Eq)]
pub enum SyntaxFault {
    /// More than 1,000,000 parentheses are open at once.
    TooDeep,
    /// The first word is no command's name.
    UnknownCommand,
    /// The arguments are of none of the command's forms.
    Malformed,
}

/// A fault, or want of memory.
#[derive(Clone, Copy, Debug, PartialEq, Eq)]
pub enum SyntaxError {
    NoMemory,
    Fault(SyntaxFault),
}

impl From<AllocError> for SyntaxError {
    ghost use Rattle.std.specs.Prelude.{◌≡◌};
    ghost use Rattle.smt_syntax.specs.declared.command.SyntaxError.TheVariants.{NoMemory};

    ghost from_gives = { λ _ e. e ≡ NoMemory };

    fn from(_error: AllocError) -> SyntaxError {
        SyntaxError::NoMemory
    }
}

/// Whether the command is known and not supported.
fn is_left_out(name: CommandName) -> bool
    ensures { result ≡ is_left_out name }
{
    matches!(
        name,
        CommandName::DeclareSort
            | CommandName::DefineFunRec
            | CommandName::DefineFunsRec
            | CommandName::DeclareDatatype
            | CommandName::DeclareDatatypes
    )
}

/// The forms of a command's arguments: one of these rows.
fn forms_of(name: CommandName) -> &'static [&'static [Form]]
    ensures { map (λ row. row.now) result.now ≡ forms_of name }
{
    match name {
        CommandName::Assert => &[&[Form::Term]],
        CommandName::CheckSatAssuming => &[&[Form::Terms]],
        CommandName::DeclareConst => &[&[Form::Name, Form::Sort]],
        CommandName::DeclareFun => &[&[Form::Name, Form::Sorts, Form::Sort]],
        CommandName::DefineFun => &[&[Form::Name, Form::Parameters, Form::Sort, Form::Term]],
        CommandName::DefineSort => &[&[Form::Name, Form::Empty, Form::Sort]],
        CommandName::Echo => &[&[Form::String]],
        CommandName::GetInfo | CommandName::GetOption => &[&[Form::Keyword]],
        CommandName::GetValue => &[&[Form::SomeTerms]],
        CommandName::Pop | CommandName::Push => &[&[], &[Form::Numeral]],
        CommandName::SetInfo => &[&[Form::Keyword], &[Form::Keyword, Form::Value]],
        CommandName::SetLogic => &[&[Form::Symbol]],
        CommandName::SetOption => &[
            &[Form::Option, Form::Boolean],
            &[Form::OtherOption],
            &[Form::OtherOption, Form::Value],
        ],
        CommandName::DeclareSort
        | CommandName::DefineFunRec
        | CommandName::DefineFunsRec
        | CommandName::DeclareDatatype
        | CommandName::DeclareDatatypes => &[],
        _ => &[&[]],
    }
}

/// Whether an argument is of the form.
fn fits(alloc: Global, tokens: &[Token<'_>], form: Form, span: Span) -> Result<bool, AllocError>
    ensures { IfOk result (λ b. (e : Sexp) → Stands (signs_in tokens.now) span e
        → b ≡ fits form e) }
{
    if span.start > span.end || span.end > tokens.len() {
        return Ok(false);
    }
    let found = is_shape(alloc, want_of(form), &tokens[span.start..span.end])?;
    Ok(found)
}

/// Whether the arguments are of these forms.
fn fits_all(
    alloc: Global,
    tokens: &[Token<'_>],
    forms: &[Form],
    spans: &[Span],
) -> Result<bool, AllocError>
    ensures { IfOk result (λ b. (es : Sexps) → AllStand (signs_in tokens.now) spans.now es
        → b ≡ fits_all forms.now es) }
{
    if forms.len() != spans.len() {
        return Ok(false);
    }
    for (i, form) in forms.iter().enumerate() {
        if !fits(alloc, tokens, *form, spans[i])? {
            return Ok(false);
        }
    }
    Ok(true)
}

/// Whether the arguments are of one of these rows of forms.
fn fits_some(
    alloc: Global,
    tokens: &[Token<'_>],
    rows: &[&[Form]],
    spans: &[Span],
) -> Result<bool, AllocError>
    ensures { IfOk result (λ b. (es : Sexps) → AllStand (signs_in tokens.now) spans.now es
        → b ≡ fits_some (map (λ row. row.now) rows.now) es) }
{
    for row in rows {
        if fits_all(alloc, tokens, row, spans)? {
            return Ok(true);
        }
    }
    Ok(false)
}

/// Whether a command has arguments of its forms.
fn is_formed(
    alloc: Global,
    tokens: &[Token<'_>],
    name: CommandName,
    spans: &[Span],
) -> Result<bool, AllocError>
    ensures { IfOk result (λ b. (es : Sexps) → AllStand (signs_in tokens.now) spans.now es
        → b ≡ is_formed name es) }
{
    if is_left_out(name) {
        return Ok(true);
    }
    let found = fits_some(alloc, tokens, forms_of(name), spans)?;
    Ok(found)
}

fn build_none(name: CommandName) -> Option<Command>
    ensures shown { IfSome result (λ c. (name_of c ≡ name) × (spans_of c ≡ [])
        × (is_not_supported c ≡ false)) }
    ensures none { IfNone result (has_arity name [] ≡ false) }
{
    match name {
        CommandName::CheckSat => Some(Command::CheckSat),
        CommandName::Exit => Some(Command::Exit),
        CommandName::GetAssertions => Some(Command::GetAssertions),
        CommandName::GetAssignment => Some(Command::GetAssignment),
        CommandName::GetModel => Some(Command::GetModel),
        CommandName::GetProof => Some(Command::GetProof),
        CommandName::GetUnsatAssumptions => Some(Command::GetUnsatAssumptions),
        CommandName::GetUnsatCore => Some(Command::GetUnsatCore),
        CommandName::Pop => Some(Command::Pop { levels: None }),
        CommandName::Push => Some(Command::Push { levels: None }),
        CommandName::Reset => Some(Command::Reset),
        CommandName::ResetAssertions => Some(Command::ResetAssertions),
        _ => None,
    }
}

fn build_one(name: CommandName, a: Span) -> Option<Command>
    ensures shown { IfSome result (λ c. (name_of c ≡ name) × (spans_of c ≡ a ∷ [])
        × (is_not_supported c ≡ false)) }
    ensures none { IfNone result (has_arity name (a ∷ []) ≡ false) }
{
    match name {
        CommandName::Assert => Some(Command::Assert { term: a }),
        CommandName::CheckSatAssuming => Some(Command::CheckSatAssuming { terms: a }),
        CommandName::Echo => Some(Command::Echo { text: a }),
        CommandName::GetInfo => Some(Command::GetInfo { keyword: a }),
        CommandName::GetOption => Some(Command::GetOption { keyword: a }),
        CommandName::GetValue => Some(Command::GetValue { terms: a }),
        CommandName::Pop => Some(Command::Pop { levels: Some(a) }),
        CommandName::Push => Some(Command::Push { levels: Some(a) }),
        CommandName::SetInfo => Some(Command::SetInfo {
            keyword: a,
            value: None,
        }),
        CommandName::SetLogic => Some(Command::SetLogic { logic: a }),
        CommandName::SetOption => Some(Command::SetOption {
            keyword: a,
            value: None,
        }),
        _ => None,
    }
}

fn build_two(name: CommandName, a: Span, b: Span) -> Option<Command>
    ensures shown { IfSome result (λ c. (name_of c ≡ name) × (spans_of c ≡ a ∷ b ∷ [])
        × (is_not_supported c ≡ false)) }
    ensures none { IfNone result (has_arity name (a ∷ b ∷ []) ≡ false) }
{
    match name {
        CommandName::DeclareConst => Some(Command::DeclareConst { name: a, sort: b }),
        CommandName::SetInfo => Some(Command::SetInfo {
            keyword: a,
            value: Some(b),
        }),
        CommandName::SetOption => Some(Command::SetOption {
            keyword: a,
            value: Some(b),
        }),
        _ => None,
    }
}

fn build_more(name: CommandName, spans: &[Span]) -> Option<Command>
    ensures shown { IfSome result (λ c. (name_of c ≡ name) × (spans_of c ≡ spans.now)
        × (is_not_supported c ≡ false)) }
    ensures none { 2 < length spans.now → IfNone result (has_arity name spans.now ≡ false) }
{
    match (name, spans) {
        (CommandName::DeclareFun, [a, b, c]) => Some(Command::DeclareFun {
            name: *a,
            arguments: *b,
            value: *c,
        }),
        (CommandName::DefineSort, [a, b, c]) => Some(Command::DefineSort {
            name: *a,
            parameters: *b,
            sort: *c,
        }),
        (CommandName::DefineFun, [a, b, c, d]) => Some(Command::DefineFun {
            name: *a,
            parameters: *b,
            value: *c,
            term: *d,
        }),
        _ => None,
    }
}

/// The command of this name with its arguments at these spans; `None` where it never has so many.
fn build(name: CommandName, spans: &[Span]) -> Option<Command>
    ensures shown { IfSome result (λ c. (name_of c ≡ name)
        × (is_left_out name ≡ false → spans_of c ≡ spans.now)
        × (is_not_supported c ≡ is_left_out name)) }
    ensures none { IfNone result ((is_left_out name ≡ false) × (has_arity name spans.now ≡ false)) }
{
    if is_left_out(name) {
        return Some(Command::NotSupported { name });
    }
    match spans {
        [] => build_none(name),
        [a] => build_one(name, *a),
        [a, b] => build_two(name, *a, *b),
        _ => build_more(name, spans),
    }
}

/// The name of the command that the tokens begin with.
fn first_name(tokens: &[Token<'_>]) -> Option<CommandName>
    ensures { result ≡ first_name tokens.now }
{
    match tokens {
        [first, second, _, ..] => match (first.kind, second.kind) {
            (TokenKind::Open, TokenKind::Command(name)) => Some(name),
            _ => None,
        },
        _ => None,
    }
}

/// The spans of a command's arguments.
fn arguments(alloc: Global, tokens: &[Token<'_>]) -> Result<Vec<Span>, AllocError>
    ensures { IfOk result (λ v. (k : TokenKindValue) (x : List ℕ) (es : Sexps)
        → signs_in tokens.now ≡ spelling (group (more (atom k x) es))
        → AllStand (signs_in tokens.now) v.items es) }
{
    let inside = Span {
        start: 2,
        end: tokens.len().saturating_sub(1),
    };
    let found = parts(alloc, tokens, inside)?;
    Ok(found)
}

fn read_tokens(alloc: Global, tokens: &[Token<'_>]) -> Result<Command, SyntaxError>
    ensures { (e : Sexp) → signs_in tokens.now ≡ spelling e
        → Reads (signs_in tokens.now) (read e) result }
{
    if is_too_deep(tokens) {
        return Err(SyntaxError::Fault(SyntaxFault::TooDeep));
    }
    let name = match first_name(tokens) {
        Some(name) => name,
        None => return Err(SyntaxError::Fault(SyntaxFault::UnknownCommand)),
    };
    let spans = arguments(alloc, tokens)?;
    if !is_formed(alloc, tokens, name, spans.as_slice())? {
        return Err(SyntaxError::Fault(SyntaxFault::Malformed));
    }
    match build(name, spans.as_slice()) {
        Some(command) => Ok(command),
        None => Err(SyntaxError::Fault(SyntaxFault::Malformed)),
    }
}

/// The command that the tokens of an S-expression are, or the first fault.
pub fn read_command(alloc: Global, tokens: &Tokens<'_>) -> Result<Command, SyntaxError>
    ensures { (e : Sexp) → signs_of tokens.now ≡ spelling e
        → Reads (signs_of tokens.now) (read e) result }
{
    read_tokens(alloc, tokens.as_slice())
}

/// Tokens are the spelling of one S-expression at most, so a command has one reading.
pub fn one_reading()
    ensures { (e f : Sexp) → spelling e ≡ spelling f → e ≡ f }
{}
