// What a word is where something is wanted.

ghost use Rattle.std.specs.Prelude.{◌≡◌};
ghost use Rattle.smt_syntax.specs.Shapes.{is_term_word, is_foreign, is_name, is_option, is_boolean, is_keyword, is_symbol, is_word_name, is_const};
ghost use Rattle.smt_syntax.specs.ShapeReader.{part_if, keyword_part, head_part, index_head_part, sort_head_part, word_part};

use crate::shape::{Part, Want};
use smt_text::lexicon::is_numeral;
use smt_text::token::TokenKind;

/// Whether a word is a term, or the beginning of a form of terms that is not supported.
fn is_term_word(kind: TokenKind) -> bool
    ensures { result ≡ is_term_word kind }
{
    matches!(
        kind,
        TokenKind::Symbol
            | TokenKind::Numeral
            | TokenKind::Decimal
            | TokenKind::Hexadecimal
            | TokenKind::Binary
            | TokenKind::String
            | TokenKind::As
            | TokenKind::Exists
            | TokenKind::Forall
            | TokenKind::Match
    )
}

/// Whether what follows the word is not judged.
fn is_foreign(kind: TokenKind) -> bool
    ensures { result ≡ is_foreign kind }
{
    matches!(
        kind,
        TokenKind::As | TokenKind::Exists | TokenKind::Forall | TokenKind::Match
    )
}

/// Whether the word stands in the place of a new name.
fn is_name(kind: TokenKind) -> bool
    ensures { result ≡ is_name kind }
{
    matches!(
        kind,
        TokenKind::Symbol
            | TokenKind::Underscore
            | TokenKind::Bang
            | TokenKind::As
            | TokenKind::Exists
            | TokenKind::Forall
            | TokenKind::Let
            | TokenKind::Match
            | TokenKind::Command(_)
            | TokenKind::Reserved
    )
}

/// Whether the keyword is an option that this solver has.
fn is_option(keyword: &[u8]) -> bool
    ensures { result ≡ is_option keyword.now }
{
    keyword == b":print-success".as_slice()
        || keyword == b":produce-models".as_slice()
        || keyword == b":produce-unsat-cores".as_slice()
        || keyword == b":produce-unsat-assumptions".as_slice()
}

fn is_boolean(name: &[u8]) -> bool
    ensures { result ≡ is_boolean name.now }
{
    name == b"true".as_slice() || name == b"false".as_slice()
}

fn is_keyword(kind: TokenKind) -> bool
    ensures { result ≡ is_keyword kind }
{
    matches!(kind, TokenKind::Keyword)
}

fn is_symbol(kind: TokenKind) -> bool
    ensures { result ≡ is_symbol kind }
{
    matches!(kind, TokenKind::Symbol)
}

/// Whether the name is `bv` and a numeral.
pub fn is_word_name(name: &[u8]) -> bool
    ensures { result ≡ is_word_name name.now }
{
    match name {
        [b, v, digits @ ..] => *b == b'b' && *v == b'v' && is_numeral(digits),
        _ => false,
    }
}

fn is_const(kind: TokenKind, text: &[u8]) -> bool
    ensures { result ≡ is_const kind text.now }
{
    is_symbol(kind) && text == b"const".as_slice()
}

fn part_if(holds: bool, part: Part) -> Option<Part>
    ensures { result ≡ part_if holds part }
{
    if holds { Some(part) } else { None }
}

fn keyword_part(keyword: &[u8]) -> Part
    ensures { result ≡ keyword_part keyword.now }
{
    if keyword == b":named".as_slice() {
        Part::Named
    } else {
        Part::Keyword
    }
}

fn head_part(kind: TokenKind) -> Option<Part>
    ensures { result ≡ head_part kind }
{
    match kind {
        TokenKind::Symbol => Some(Part::Head),
        TokenKind::Let => Some(Part::Let),
        TokenKind::Bang => Some(Part::Bang),
        TokenKind::Underscore => Some(Part::Underscore),
        _ => part_if(is_foreign(kind), Part::Foreign),
    }
}

fn index_head_part(kind: TokenKind) -> Option<Part>
    ensures { result ≡ index_head_part kind }
{
    match kind {
        TokenKind::Underscore => Some(Part::Underscore),
        TokenKind::As => Some(Part::As),
        _ => part_if(is_foreign(kind), Part::Foreign),
    }
}

fn sort_head_part(kind: TokenKind, text: &[u8]) -> Option<Part>
    ensures { result ≡ sort_head_part kind text.now }
{
    match kind {
        TokenKind::Underscore => Some(Part::Underscore),
        TokenKind::Symbol => part_if(text == b"Array".as_slice(), Part::Array),
        _ => part_if(is_foreign(kind), Part::Foreign),
    }
}

/// What a word is where something is wanted.
#[tactic(auto, unfolding(crate::specs::ShapeReader::word_part))]
pub fn word_part(want: Want, kind: TokenKind, text: &[u8]) -> Option<Part>
    ensures { result ≡ word_part want kind text.now }
{
    match want {
        Want::Term => part_if(is_term_word(kind), Part::Term),
        Want::Head => head_part(kind),
        Want::IndexHead => index_head_part(kind),
        Want::Sort => part_if(is_symbol(kind) || is_foreign(kind), Part::Sort),
        Want::SortHead => sort_head_part(kind, text),
        Want::BitVec => part_if(
            is_symbol(kind) && text == b"BitVec".as_slice(),
            Part::Symbol,
        ),
        Want::Name => part_if(is_name(kind), Part::Name),
        Want::WordName => part_if(is_symbol(kind) && is_word_name(text), Part::Symbol),
        Want::Const => Some(if is_const(kind, text) {
            Part::Const
        } else {
            Part::Value
        }),
        Want::Symbol => part_if(is_symbol(kind), Part::Symbol),
        Want::Numeral => part_if(matches!(kind, TokenKind::Numeral), Part::Numeral),
        Want::String => part_if(matches!(kind, TokenKind::String), Part::Value),
        Want::Keyword => part_if(is_keyword(kind), Part::Keyword),
        Want::Attribute => part_if(is_keyword(kind), keyword_part(text)),
        Want::AttributeValue => Some(if is_keyword(kind) {
            keyword_part(text)
        } else {
            Part::Value
        }),
        Want::Value => part_if(!is_keyword(kind), Part::Value),
        Want::Option => part_if(is_keyword(kind) && is_option(text), Part::Keyword),
        Want::OtherOption => part_if(is_keyword(kind) && !is_option(text), Part::Keyword),
        Want::Boolean => part_if(is_symbol(kind) && is_boolean(text), Part::Value),
        Want::Anything => Some(Part::Value),
        _ => None,
    }
}
