// The words of a line, and the numbers among them.

ghost use Rattle.std.specs.Prelude.{◌≡◌, ◌≤◌, ◌<◌, ◌^◌, ◌∷◌, [], length, IfSome, MatchOption};
ghost use Rattle.std.specs.Option.{option_map};
ghost use Rattle.proof_text.specs.Reading.{fields, behind, more_digits, number_of, number_in, number_at, wide_at, only_number, exactly};

use smt_text::lexicon::is_digit;

/// The bytes before the first mark, and the rest from that mark on.
pub fn split_word(mark: u8, bytes: &[u8]) -> (&[u8], &[u8])
    ensures words { fields mark bytes.now ≡ result.0.now ∷ behind mark result.1.now }
    ensures within { length result.1.now ≤ length bytes.now }
{
    let mut size = 0;
    while size < bytes.len() && bytes[size] != mark {
        size += 1;
    }
    bytes.split_at(size)
}

/// The word behind a mark, and the rest behind it; `None` at the end.
pub fn next_word(mark: u8, rest: &[u8]) -> Option<(&[u8], &[u8])>
    ensures words { MatchOption result (behind mark rest.now ≡ [])
        (λ r. behind mark rest.now ≡ r.0.now ∷ behind mark r.1.now) }
    ensures shorter { IfSome result (λ r. length r.1.now < length rest.now) }
{
    match rest {
        [] => None,
        [_, bytes @ ..] => Some(split_word(mark, bytes)),
    }
}

fn more_digits(mut n: u64, digits: &[u8]) -> Option<u64>
    ensures { result ≡ more_digits (2 ^ 64) n digits.now }
{
    for byte in digits {
        if !is_digit(*byte) {
            return None;
        }
        let digit = (*byte - b'0') as u64;
        if n > (u64::MAX - digit) / 10 {
            return None;
        }
        n = 10 * n + digit;
    }
    Some(n)
}

fn more_wide_digits(mut n: u128, digits: &[u8]) -> Option<u128>
    ensures { result ≡ more_digits (2 ^ 128) n digits.now }
{
    for byte in digits {
        if !is_digit(*byte) {
            return None;
        }
        let digit = (*byte - b'0') as u128;
        if n > (u128::MAX - digit) / 10 {
            return None;
        }
        n = 10 * n + digit;
    }
    Some(n)
}

/// The number below 2 ^ 64 that is written so, without a needless zero.
#[tactic(auto, unfolding(crate::specs::Reading::number_of))]
pub fn number(word: &[u8]) -> Option<u64>
    ensures { result ≡ number_in word.now }
{
    match word {
        [] => None,
        [first, rest @ ..] => {
            if !is_digit(*first) {
                None
            } else if *first != b'0' {
                more_digits((*first - b'0') as u64, rest)
            } else if rest.is_empty() {
                Some(0)
            } else {
                None
            }
        }
    }
}

/// The number below 2 ^ 128 that is written so.
#[tactic(auto, unfolding(crate::specs::Reading::number_of))]
pub fn wide_number(word: &[u8]) -> Option<u128>
    ensures { result ≡ number_of (2 ^ 128) word.now }
{
    match word {
        [] => None,
        [leading, rest @ ..] => {
            if !is_digit(*leading) {
                None
            } else if *leading != b'0' {
                more_wide_digits((*leading - b'0') as u128, rest)
            } else if rest.is_empty() {
                Some(0)
            } else {
                None
            }
        }
    }
}

/// The number behind a mark, and the rest behind it.
pub fn number_at(mark: u8, rest: &[u8]) -> Option<(u64, &[u8])>
    ensures { option_map (λ r. (r.0, behind mark r.1.now)) result
        ≡ number_at (behind mark rest.now) }
{
    let (word, rest) = next_word(mark, rest)?;
    let n = number(word)?;
    Some((n, rest))
}

/// The same of a number below 2 ^ 128.
pub fn wide_at(mark: u8, rest: &[u8]) -> Option<(u128, &[u8])>
    ensures { option_map (λ r. (r.0, behind mark r.1.now)) result ≡ wide_at (behind mark rest.now) }
{
    let (word, rest) = next_word(mark, rest)?;
    let n = wide_number(word)?;
    Some((n, rest))
}

/// The number behind a mark, where nothing is behind it.
pub fn only_number(mark: u8, rest: &[u8]) -> Option<u64>
    ensures { result ≡ only_number (behind mark rest.now) }
{
    let (n, rest) = number_at(mark, rest)?;
    match next_word(mark, rest) {
        None => Some(n),
        Some(_) => None,
    }
}

/// The rest behind this word.
pub fn exactly<'a>(word: &[u8], rest: &'a [u8]) -> Option<&'a [u8]>
    ensures { option_map (λ r. behind 32 r.now) result ≡ exactly word.now (behind 32 rest.now) }
{
    let (found, rest) = next_word(b' ', rest)?;
    if found == word { Some(rest) } else { None }
}
