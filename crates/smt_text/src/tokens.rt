// The tokens of a chunk.

ghost use Rattle.std.specs.Prelude.{◌≡◌, ◌+◌, ◌<◌, ◌≤◌, [], false, length, IfSome, IfOk, IfErr, List, ℕ};
ghost use Rattle.std.specs.Option.{option_map};
ghost use Rattle.std.specs.List.{prefix_len};
ghost use Rattle.smt_text.specs.Lexicon.{is_word_byte, kind_of_word, string_end, is_quoted_byte, lexeme_of, string_lexeme, quoted_lexeme, word_lexeme, lexeme_at, first_token, Lexeme};
ghost use Rattle.smt_text.specs.Tokens.{SeesFirst, Tokenizes, AreTokens, IsBadAt};

use crate::chunk::Chunk;
use crate::lexicon::{is_word_byte, kind_of_word};
use crate::scan::pass_blank;
use crate::token::{Token, TokenKind, Tokens};
use std::alloc::{AllocFailed, Global};

/// The place of the first byte of the first bad token.
#[derive(Clone, Copy, Debug, PartialEq, Eq)]
pub struct TokenFault {
    pub place: usize,
}

/// Why a text has no tokens.
#[derive(Clone, Copy, Debug, PartialEq, Eq)]
pub enum TokensError {
    NoMemory,
    Bad(TokenFault),
}

impl<T: Drop> From<AllocFailed<T>> for TokensError {
    ghost use Rattle.std.specs.Prelude.{◌≡◌};
    ghost use Rattle.smt_text.specs.declared.tokens.TokensError.TheVariants.{NoMemory};

    ghost from_gives = { λ _ e. e ≡ NoMemory };

    fn from(_error: AllocFailed<T>) -> TokensError {
        TokensError::NoMemory
    }
}

/// How many bytes the word at the front has.
fn word_len(bytes: &[u8]) -> usize
    ensures value { result ≡ prefix_len is_word_byte bytes.now }
    ensures within { result ≤ length bytes.now }
{
    for (i, b) in bytes.iter().enumerate() {
        if !is_word_byte(*b) {
            return i;
        }
    }
    bytes.len()
}

/// How many bytes stand before the quote that ends a string.
fn string_end(bytes: &[u8]) -> Option<usize>
    ensures value { result ≡ string_end bytes.now }
    ensures within { IfSome result (λ n. n < length bytes.now) }
{
    let mut i = 0usize;
    while i < bytes.len() {
        if bytes[i] != b'"' {
            i += 1;
        } else if i + 1 < bytes.len() && bytes[i + 1] == b'"' {
            i += 2;
        } else {
            return Some(i);
        }
    }
    None
}

/// How many bytes stand before the first bar or backslash.
fn quoted_len(bytes: &[u8]) -> usize
    ensures value { result ≡ prefix_len is_quoted_byte bytes.now }
    ensures within { result ≤ length bytes.now }
{
    for (i, b) in bytes.iter().enumerate() {
        if *b == b'|' || *b == b'\\' {
            return i;
        }
    }
    bytes.len()
}

/// The string behind its first quote, with how many bytes it has in all.
fn string_token(bytes: &[u8]) -> Option<(Token<'_>, usize)>
    ensures value { option_map (λ t. (lexeme_of t.0, t.1)) result
        ≡ string_lexeme bytes.now (string_end bytes.now) }
    ensures within { IfSome result (λ t. (1 ≤ t.1) × (t.1 ≤ length bytes.now + 1)) }
{
    match string_end(bytes) {
        None => None,
        Some(n) => Some((
            Token {
                kind: TokenKind::String,
                text: &bytes[..n],
                quoted: false,
            },
            n + 2,
        )),
    }
}

/// The quoted symbol behind its first bar, with how many bytes it has in all.
fn quoted_token(bytes: &[u8]) -> Option<(Token<'_>, usize)>
    ensures value { option_map (λ t. (lexeme_of t.0, t.1)) result
        ≡ quoted_lexeme bytes.now (prefix_len is_quoted_byte bytes.now) }
    ensures within { IfSome result (λ t. (1 ≤ t.1) × (t.1 ≤ length bytes.now + 1)) }
{
    let n = quoted_len(bytes);
    if n < bytes.len() && bytes[n] == b'|' {
        Some((
            Token {
                kind: TokenKind::Symbol,
                text: &bytes[..n],
                quoted: true,
            },
            n + 2,
        ))
    } else {
        None
    }
}

fn word_token(word: &[u8]) -> Option<(Token<'_>, usize)>
    ensures value { option_map (λ t. (lexeme_of t.0, t.1)) result
        ≡ word_lexeme word.now (kind_of_word word.now) }
    ensures within { IfSome result (λ t. (1 ≤ t.1) × (t.1 ≤ length word.now)) }
{
    match kind_of_word(word) {
        None => None,
        Some(kind) => Some((
            Token {
                kind,
                text: word,
                quoted: false,
            },
            word.len(),
        )),
    }
}

fn parenthesis(kind: TokenKind) -> Token<'static>
    ensures { lexeme_of result ≡ record { kind = kind; text = []; quoted = false } }
{
    Token {
        kind,
        text: &[],
        quoted: false,
    }
}

/// The token that begins with the first byte.
#[tactic(auto, unfolding(crate::specs::Lexicon::lexeme_at))]
fn token_at(bytes: &[u8]) -> Option<(Token<'_>, usize)>
    ensures value { option_map (λ t. (lexeme_of t.0, t.1)) result ≡ lexeme_at bytes.now }
    ensures within { IfSome result (λ t. (1 ≤ t.1) × (t.1 ≤ length bytes.now)) }
{
    match bytes {
        [] => None,
        [b'(', ..] => Some((parenthesis(TokenKind::Open), 1)),
        [b')', ..] => Some((parenthesis(TokenKind::Close), 1)),
        [b'"', rest @ ..] => string_token(rest),
        [b'|', rest @ ..] => quoted_token(rest),
        _ => word_token(&bytes[..word_len(bytes)]),
    }
}

/// The first token, and how many bytes it ends behind. `Err` has the place of a bad one.
#[tactic(auto, unfolding(crate::specs::Lexicon::first_token))]
fn first_token(bytes: &[u8]) -> Result<Option<(Token<'_>, usize)>, usize>
    ensures value { SeesFirst result (first_token bytes.now) }
    ensures within { IfOk result (λ o. IfSome o (λ t. (1 ≤ t.1) × (t.1 ≤ length bytes.now))) }
    ensures bad { IfErr result (λ n. n < length bytes.now) }
{
    let Ok(start) = pass_blank(false, bytes) else {
        return Ok(None);
    };
    match token_at(&bytes[start..]) {
        None => Err(start),
        Some((token, size)) => Ok(Some((token, start + size))),
    }
}

/// The tokens of a chunk, or where its first bad token stands.
pub fn tokens(alloc: Global, chunk: &Chunk) -> Result<Tokens<'_>, TokensError>
    ensures { Tokenizes chunk.now.text result }
{
    tokens_of(alloc, chunk.text.as_slice())
}

fn tokens_of(alloc: Global, text: &[u8]) -> Result<Tokens<'_>, TokensError>
    ensures { Tokenizes text.now result }
{
    let mut out = Vec::new(alloc);
    let mut at = 0usize;
    loop {
        match first_token(&text[at..]) {
            Err(n) => return Err(TokensError::Bad(TokenFault { place: at + n })),
            Ok(None) => return Ok(Tokens::from_vec(out)),
            Ok(Some((token, n))) => {
                out.push(token)?;
                at += n;
            }
        }
    }
}

/// A text has one list of tokens, or one first bad token, and not both.
pub fn one_reading()
    ensures tokens { (text : List ℕ) (a b : List Lexeme) → AreTokens text a → AreTokens text b
        → a ≡ b }
    ensures bad { (text : List ℕ) (m n : ℕ) → IsBadAt text m → IsBadAt text n → m ≡ n }
    ensures apart { (text : List ℕ) (a : List Lexeme) (n : ℕ) → AreTokens text a → IsBadAt text n
        → ⊥ }
{}
