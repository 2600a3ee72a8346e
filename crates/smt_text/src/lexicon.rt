// Which words are tokens, and of which kind.

ghost use Rattle.std.specs.Prelude.{◌≡◌, ◌<◌, IfSome, length, map};
ghost use Rattle.std.specs.List.{list_all};
ghost use Rattle.smt_text.specs.Lexicon.{is_digit, is_letter, is_symbol_mark, is_symbol_byte, is_bit, is_hexadecimal_digit, is_word_byte, are_digits, is_numeral, first_point, is_decimal, is_hexadecimal, is_binary, is_keyword, is_symbol, look_up, reserved_kind, kind_of_number, kind_of_word};

use crate::token::{RESERVED_WORDS, TokenKind};

/// Whether a byte is a decimal digit.
pub fn is_digit(byte: u8) -> bool
    ensures { result ≡ is_digit byte }
{
    byte >= b'0' && byte <= b'9'
}

fn is_letter(byte: u8) -> bool
    ensures { result ≡ is_letter byte }
{
    (byte >= b'a' && byte <= b'z') || (byte >= b'A' && byte <= b'Z')
}

fn is_symbol_mark(byte: u8) -> bool
    ensures { result ≡ is_symbol_mark byte }
{
    matches!(
        byte,
        b'~' | b'!'
            | b'@'
            | b'$'
            | b'%'
            | b'^'
            | b'&'
            | b'*'
            | b'_'
            | b'-'
            | b'+'
            | b'='
            | b'<'
            | b'>'
            | b'.'
            | b'?'
            | b'/'
    )
}

fn is_symbol_byte(byte: u8) -> bool
    ensures { result ≡ is_symbol_byte byte }
{
    is_letter(byte) || is_digit(byte) || is_symbol_mark(byte)
}

fn is_bit(byte: u8) -> bool
    ensures { result ≡ is_bit byte }
{
    byte == b'0' || byte == b'1'
}

fn is_hexadecimal_digit(byte: u8) -> bool
    ensures { result ≡ is_hexadecimal_digit byte }
{
    is_digit(byte) || (byte >= b'a' && byte <= b'f') || (byte >= b'A' && byte <= b'F')
}

/// Whether a byte can stand in a word: it is neither white space nor begins another token.
pub fn is_word_byte(byte: u8) -> bool
    ensures { result ≡ is_word_byte byte }
{
    !matches!(
        byte,
        b' ' | b'\t' | b'\n' | b'\r' | b'(' | b')' | b';' | b'"' | b'|'
    )
}

fn all_digits(word: &[u8]) -> bool
    ensures { result ≡ list_all is_digit word.now }
{
    word.iter().all(|b| is_digit(*b))
}

fn all_bits(word: &[u8]) -> bool
    ensures { result ≡ list_all is_bit word.now }
{
    word.iter().all(|b| is_bit(*b))
}

fn all_hexadecimal_digits(word: &[u8]) -> bool
    ensures { result ≡ list_all is_hexadecimal_digit word.now }
{
    word.iter().all(|b| is_hexadecimal_digit(*b))
}

fn all_symbol_bytes(word: &[u8]) -> bool
    ensures { result ≡ list_all is_symbol_byte word.now }
{
    word.iter().all(|b| is_symbol_byte(*b))
}

fn are_digits(word: &[u8]) -> bool
    ensures { result ≡ are_digits word.now }
{
    match word {
        [] => false,
        _ => all_digits(word),
    }
}

/// Whether a word is 0, or digits that do not begin with 0.
pub fn is_numeral(word: &[u8]) -> bool
    ensures { result ≡ is_numeral word.now }
{
    match word {
        [] => false,
        [_] => all_digits(word),
        [first, ..] => *first != b'0' && all_digits(word),
    }
}

fn first_point(word: &[u8]) -> Option<usize>
    ensures value { result ≡ first_point word.now }
    ensures within { IfSome result (λ n. n < length word.now) }
{
    word.iter().position(|b| *b == b'.')
}

fn is_decimal(word: &[u8]) -> bool
    ensures { result ≡ is_decimal word.now }
{
    match first_point(word) {
        None => false,
        Some(point) => is_numeral(&word[..point]) && are_digits(&word[point + 1..]),
    }
}

fn is_hexadecimal(word: &[u8]) -> bool
    ensures { result ≡ is_hexadecimal word.now }
{
    match word {
        [b'#', b'x', _, ..] => all_hexadecimal_digits(&word[2..]),
        _ => false,
    }
}

fn is_binary(word: &[u8]) -> bool
    ensures { result ≡ is_binary word.now }
{
    match word {
        [b'#', b'b', _, ..] => all_bits(&word[2..]),
        _ => false,
    }
}

fn is_keyword(word: &[u8]) -> bool
    ensures { result ≡ is_keyword word.now }
{
    match word {
        [b':', _, ..] => all_symbol_bytes(&word[1..]),
        _ => false,
    }
}

/// Whether a word has the shape of a simple symbol, which reserved words have too.
pub fn is_symbol(word: &[u8]) -> bool
    ensures { result ≡ is_symbol word.now }
{
    match word {
        [] => false,
        [first, ..] => !is_digit(*first) && all_symbol_bytes(word),
    }
}

fn look_up(mut entries: &[(&[u8], TokenKind)], word: &[u8]) -> Option<TokenKind>
    ensures { result ≡ look_up (map (λ entry. (entry.0.now, entry.1)) entries.entry.now) word.now }
{
    while let [entry, rest @ ..] = entries {
        if word == entry.0 {
            return Some(entry.1);
        }
        entries = rest;
    }
    None
}

/// The kind of a reserved word.
pub fn reserved_kind(word: &[u8]) -> Option<TokenKind>
    ensures { result ≡ reserved_kind word.now }
{
    look_up(&RESERVED_WORDS, word)
}

fn kind_of_number(word: &[u8]) -> Option<TokenKind>
    ensures { result ≡ kind_of_number word.now }
{
    if is_numeral(word) {
        Some(TokenKind::Numeral)
    } else if is_decimal(word) {
        Some(TokenKind::Decimal)
    } else if is_hexadecimal(word) {
        Some(TokenKind::Hexadecimal)
    } else if is_binary(word) {
        Some(TokenKind::Binary)
    } else {
        None
    }
}

/// What a word is, if it is anything.
pub fn kind_of_word(word: &[u8]) -> Option<TokenKind>
    ensures { result ≡ kind_of_word word.now }
{
    if is_keyword(word) {
        Some(TokenKind::Keyword)
    } else if is_symbol(word) {
        Some(reserved_kind(word).unwrap_or(TokenKind::Symbol))
    } else {
        kind_of_number(word)
    }
}
