// Tokens and their kinds.

ghost use Rattle.std.specs.Prelude.{◌≡◌, length, slice_get};
ghost use Rattle.std.specs.Option.{option_map};
ghost use Rattle.smt_text.specs.Lexicon.{lexeme_of, lexemes_of};

use std::marker::Model;

/// The names of commands, which are reserved words (SMT-LIB 2.6, figure 3.6).
#[derive(Clone, Copy, Debug, PartialEq, Eq)]
pub enum CommandName {
    Assert,
    CheckSat,
    CheckSatAssuming,
    DeclareConst,
    DeclareDatatype,
    DeclareDatatypes,
    DeclareFun,
    DeclareSort,
    DefineFun,
    DefineFunRec,
    DefineFunsRec,
    DefineSort,
    Echo,
    Exit,
    GetAssertions,
    GetAssignment,
    GetInfo,
    GetModel,
    GetOption,
    GetProof,
    GetUnsatAssumptions,
    GetUnsatCore,
    GetValue,
    Pop,
    Push,
    Reset,
    ResetAssertions,
    SetInfo,
    SetLogic,
    SetOption,
}

/// What a token is. Reserved words are no symbols; those that terms and sorts speak of have a kind of their own.
#[derive(Clone, Copy, Debug, PartialEq, Eq)]
pub enum TokenKind {
    Open,
    Close,
    Numeral,
    Decimal,
    Hexadecimal,
    Binary,
    String,
    Keyword,
    Symbol,
    /// `_`
    Underscore,
    /// `!`
    Bang,
    As,
    Exists,
    Forall,
    Let,
    Match,
    Command(CommandName),
    /// Any other reserved word.
    Reserved,
}

/// A token with its text: a symbol without its bars, a string without its quotes, a parenthesis without text.
#[derive(Clone, Copy, Debug)]
pub struct Token<'a> {
    pub kind: TokenKind,
    pub text: &'a [u8],
    /// Whether it is a symbol that stands in bars.
    pub quoted: bool,
}

/// The reserved words and the kinds of their tokens.
pub(crate) const RESERVED_WORDS: [(&[u8], TokenKind); 43] = [
    (b"_", TokenKind::Underscore),
    (b"!", TokenKind::Bang),
    (b"as", TokenKind::As),
    (b"exists", TokenKind::Exists),
    (b"forall", TokenKind::Forall),
    (b"let", TokenKind::Let),
    (b"match", TokenKind::Match),
    (b"par", TokenKind::Reserved),
    (b"BINARY", TokenKind::Reserved),
    (b"DECIMAL", TokenKind::Reserved),
    (b"HEXADECIMAL", TokenKind::Reserved),
    (b"NUMERAL", TokenKind::Reserved),
    (b"STRING", TokenKind::Reserved),
    (b"assert", TokenKind::Command(CommandName::Assert)),
    (b"check-sat", TokenKind::Command(CommandName::CheckSat)),
    (
        b"check-sat-assuming",
        TokenKind::Command(CommandName::CheckSatAssuming),
    ),
    (
        b"declare-const",
        TokenKind::Command(CommandName::DeclareConst),
    ),
    (
        b"declare-datatype",
        TokenKind::Command(CommandName::DeclareDatatype),
    ),
    (
        b"declare-datatypes",
        TokenKind::Command(CommandName::DeclareDatatypes),
    ),
    (b"declare-fun", TokenKind::Command(CommandName::DeclareFun)),
    (
        b"declare-sort",
        TokenKind::Command(CommandName::DeclareSort),
    ),
    (b"define-fun", TokenKind::Command(CommandName::DefineFun)),
    (
        b"define-fun-rec",
        TokenKind::Command(CommandName::DefineFunRec),
    ),
    (
        b"define-funs-rec",
        TokenKind::Command(CommandName::DefineFunsRec),
    ),
    (b"define-sort", TokenKind::Command(CommandName::DefineSort)),
    (b"echo", TokenKind::Command(CommandName::Echo)),
    (b"exit", TokenKind::Command(CommandName::Exit)),
    (
        b"get-assertions",
        TokenKind::Command(CommandName::GetAssertions),
    ),
    (
        b"get-assignment",
        TokenKind::Command(CommandName::GetAssignment),
    ),
    (b"get-info", TokenKind::Command(CommandName::GetInfo)),
    (b"get-model", TokenKind::Command(CommandName::GetModel)),
    (b"get-option", TokenKind::Command(CommandName::GetOption)),
    (b"get-proof", TokenKind::Command(CommandName::GetProof)),
    (
        b"get-unsat-assumptions",
        TokenKind::Command(CommandName::GetUnsatAssumptions),
    ),
    (
        b"get-unsat-core",
        TokenKind::Command(CommandName::GetUnsatCore),
    ),
    (b"get-value", TokenKind::Command(CommandName::GetValue)),
    (b"pop", TokenKind::Command(CommandName::Pop)),
    (b"push", TokenKind::Command(CommandName::Push)),
    (b"reset", TokenKind::Command(CommandName::Reset)),
    (
        b"reset-assertions",
        TokenKind::Command(CommandName::ResetAssertions),
    ),
    (b"set-info", TokenKind::Command(CommandName::SetInfo)),
    (b"set-logic", TokenKind::Command(CommandName::SetLogic)),
    (b"set-option", TokenKind::Command(CommandName::SetOption)),
];

/// The tokens of a text, in order.
#[derive(Drop)]
pub struct Tokens<'a> {
    items: Vec<Token<'a>>,
}

impl<'a> Model for Tokens<'a> {
    ghost use Rattle.std.specs.Prelude.{List};
    ghost use Rattle.smt_text.specs.Lexicon.{Lexeme, lexemes_of};

    ghost Value = { List Lexeme };

    ghost view = { λ t. lexemes_of t.items.items };
}

impl<'a> Tokens<'a> {
    pub(crate) fn from_vec(items: Vec<Token<'a>>) -> Tokens<'a>
        ensures { result ≡ lexemes_of items.entry.items }
    {
        Tokens { items }
    }

    /// The tokens as a slice.
    pub fn as_slice(&self) -> &[Token<'a>]
        ensures { lexemes_of result.now ≡ self.now }
    {
        self.items.as_slice()
    }

    /// How many tokens there are.
    pub fn len(&self) -> usize
        ensures { result ≡ length self.now }
    {
        self.items.len()
    }

    /// The token at the place, if there is one.
    pub fn get(&self, place: usize) -> Option<Token<'a>>
        ensures { option_map lexeme_of result ≡ slice_get self.now place }
    {
        self.items.get(place).copied()
    }
}
