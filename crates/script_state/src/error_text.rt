//! The texts of errors.

ghost use Rattle.std.specs.Prelude.{◌≡◌};
ghost use Rattle.script_state.specs.ErrorTexts.{text_of, syntax_error, build_error};

use smt_build::fault::BuildFault;
use smt_syntax::command::SyntaxFault;

/// What a refused command is told.
#[derive(Clone, Copy, Debug, PartialEq, Eq)]
pub enum ErrorText {
    UnfinishedCommand,
    TextOutsideCommand,
    BadToken,
    UnknownCommand,
    MalformedCommand,
    NestingTooDeep,
    UnknownSymbol,
    AlreadyDeclared,
    ReservedSymbol,
    WrongArguments,
    WidthOutOfRange,
    LiteralTooWide,
    NotSupported,
    TooManyTerms,
    UnknownLogic,
    LevelOutOfRange,
    NoModel,
    NoRefutation,
    OptionOff,
    NoUnknownAnswer,
}

impl ErrorText {
    /// The bytes of the text.
    pub fn text(self) -> &'static [u8]
        ensures { result.now ≡ text_of self }
    {
        match self {
            ErrorText::UnfinishedCommand => b"unfinished command",
            ErrorText::TextOutsideCommand => b"text outside a command",
            ErrorText::BadToken => b"bad token",
            ErrorText::UnknownCommand => b"unknown command",
            ErrorText::MalformedCommand => b"malformed command",
            ErrorText::NestingTooDeep => b"nesting too deep",
            ErrorText::UnknownSymbol => b"unknown symbol",
            ErrorText::AlreadyDeclared => b"symbol already declared",
            ErrorText::ReservedSymbol => b"reserved symbol",
            ErrorText::WrongArguments => b"wrong number or sorts of arguments",
            ErrorText::WidthOutOfRange => b"width out of range",
            ErrorText::LiteralTooWide => b"literal too wide",
            ErrorText::NotSupported => b"not supported",
            ErrorText::TooManyTerms => b"too many terms",
            ErrorText::UnknownLogic => b"unknown logic",
            ErrorText::LevelOutOfRange => b"level out of range",
            ErrorText::NoModel => b"no model stands",
            ErrorText::NoRefutation => b"no refutation stands",
            ErrorText::OptionOff => b"option is off",
            ErrorText::NoUnknownAnswer => b"no unknown answer stands",
        }
    }
}

/// What a fault of a command's depth, name or form is told as.
pub(crate) fn syntax_error(fault: SyntaxFault) -> ErrorText
    ensures { result ≡ syntax_error fault }
{
    match fault {
        SyntaxFault::TooDeep => ErrorText::NestingTooDeep,
        SyntaxFault::UnknownCommand => ErrorText::UnknownCommand,
        SyntaxFault::Malformed => ErrorText::MalformedCommand,
    }
}

/// What a fault of a name, a sort or a term is told as.
pub(crate) fn build_error(fault: BuildFault) -> ErrorText
    ensures { result ≡ build_error fault }
{
    match fault {
        BuildFault::UnknownSymbol => ErrorText::UnknownSymbol,
        BuildFault::Declared => ErrorText::AlreadyDeclared,
        BuildFault::Reserved => ErrorText::ReservedSymbol,
        BuildFault::WrongSort => ErrorText::WrongArguments,
        BuildFault::Width => ErrorText::WidthOutOfRange,
        BuildFault::LiteralTooWide => ErrorText::LiteralTooWide,
        BuildFault::NotSupported => ErrorText::NotSupported,
        BuildFault::TermLimit => ErrorText::TooManyTerms,
    }
}
