//! The words of a line, and the numbers that they say.

ghost use Rattle.std.specs.Prelude.{◌≡◌, ◌≤◌, ◌<◌, ◌∷◌, [], false, length, slice_index, IfSome, MatchOption};
ghost use Rattle.dimacs_front.specs.Words.{is_blank, begins_with, words_of, digits_from, whole_of, number_of, number_limit};

use smt_text::lexicon::is_digit;

/// A number from this one on is told as this one.
pub const NUMBER_LIMIT: u64 = 1 << 60;

/// A whole number with its sign. 0 has none.
#[derive(Clone, Copy, Debug, PartialEq, Eq)]
pub struct Number {
    pub size: u64,
    pub negative: bool,
}

/// Whether the byte stands between words.
fn is_blank(byte: u8) -> bool
    ensures { result ≡ is_blank byte }
{
    byte == b' ' || byte == b'\t' || byte == b'\r'
}

/// Whether the line begins with this byte.
pub fn begins_with(mark: u8, line: &[u8]) -> bool
    ensures { result ≡ begins_with mark line.now }
{
    match line {
        [] => false,
        [first, ..] => *first == mark,
    }
}

/// The line without the blanks at its front.
fn trimmed(line: &[u8]) -> &[u8]
    ensures within { length result.now ≤ length line.now }
    ensures words { words_of line.now ≡ words_of result.now }
    ensures word { 0 < length result.now → is_blank (slice_index result.now 0) ≡ false }
{
    let mut size = 0;
    while size < line.len() && is_blank(line[size]) {
        size += 1;
    }
    line.split_at(size).1
}

/// The first word and what stands behind it; `None` exactly where there is no word.
pub fn next_word(line: &[u8]) -> Option<(&[u8], &[u8])>
    ensures words { MatchOption result (words_of line.now ≡ [])
        (λ r. words_of line.now ≡ r.0.now ∷ words_of r.1.now) }
    ensures shorter { IfSome result (λ r. length r.1.now < length line.now) }
{
    let rest = trimmed(line);
    if rest.is_empty() {
        return None;
    }
    let mut size = 1;
    while size < rest.len() && !is_blank(rest[size]) {
        size += 1;
    }
    Some(rest.split_at(size))
}

/// The digits go on from a number.
fn digits(mut n: u64, digits: &[u8]) -> Option<u64>
    requires { n ≤ number_limit }
    ensures value { result ≡ digits_from n digits.now }
    ensures bound { IfSome result (λ m. m ≤ number_limit) }
{
    for byte in digits {
        if !is_digit(*byte) {
            return None;
        }
        n = (10 * n + (*byte - b'0') as u64).min(NUMBER_LIMIT);
    }
    Some(n)
}

/// The number that a word of digits says.
pub fn whole(word: &[u8]) -> Option<u64>
    ensures value { result ≡ whole_of word.now }
    ensures bound { IfSome result (λ m. m ≤ number_limit) }
{
    if word.is_empty() {
        return None;
    }
    digits(0, word)
}

/// The number that a word says.
pub fn signed_number(word: &[u8]) -> Option<Number>
    ensures value { result ≡ number_of word.now }
    ensures bound { IfSome result (λ n. n.size ≤ number_limit) }
{
    let (negative, digits) = match word {
        [] => return None,
        [b'-', digits @ ..] => (true, digits),
        _ => (false, word),
    };
    let size = whole(digits)?;
    if negative && size == 0 {
        return None;
    }
    Some(Number { size, negative })
}
