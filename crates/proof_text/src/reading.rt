// One line, read from its words.

ghost use Rattle.std.specs.Prelude.{◌≡◌, IfOk};
ghost use Rattle.std.specs.Option.{option_map};
ghost use Rattle.proof_text.specs.Reading.{fields, behind, numbers_of, literal_of, literals_at, hint_of, hints_of, chain_of, indexed_at, indexed_head_at, head_at, term_of, declared_of, header_of, delete_of, unknown_of, rewrite_of, one_number, two_numbers, line_by, line_of};

use crate::keyword::{FORMATS, INDEXED_NAMES, Indexed, KEYWORDS, Keyword, look_up};
use crate::line::{Head, Line};
use crate::list::{Numbers, WrittenClause, WrittenHint, WrittenHints, WrittenLiteral};
use crate::operator::OPERATOR_NAMES;
use crate::reading_lemmas::lemma;
use crate::reading_values::value;
use crate::words::{exactly, next_word, number, number_at, only_number, split_word, wide_at};
use std::alloc::{AllocError, Global};

fn numbers(alloc: Global, rest: &[u8]) -> Result<Option<Numbers>, AllocError>
    ensures { IfOk result (λ o. o ≡ numbers_of (behind 32 rest.now)) }
{
    let mut items = Vec::new(alloc);
    let mut left = rest;
    'words: while let Some((word, more)) = next_word(b' ', left) {
        let Some(n) = number(word) else {
            return Ok(None);
        };
        items.push(n)?;
        left = more;
    }
    Ok(Some(Numbers::from_vec(items)))
}

fn literal(word: &[u8]) -> Option<WrittenLiteral>
    ensures { result ≡ literal_of word.now }
{
    let (positive, digits) = match word {
        [] => return None,
        [b'-', digits @ ..] => (false, digits),
        _ => (true, word),
    };
    let variable = number(digits)?;
    if variable == 0 {
        return None;
    }
    Some(WrittenLiteral { variable, positive })
}

/// The literals before the word 0, and the rest behind it.
fn literals(alloc: Global, rest: &[u8]) -> Result<Option<(WrittenClause, &[u8])>, AllocError>
    ensures { IfOk result (λ o. option_map (λ r. (r.0, behind 32 r.1.now)) o
        ≡ literals_at (behind 32 rest.now)) }
{
    let mut items = Vec::new(alloc);
    let mut left = rest;
    'words: while let Some((word, more)) = next_word(b' ', left) {
        if word == b"0".as_slice() {
            return Ok(Some((WrittenClause::from_vec(items), more)));
        }
        let Some(found) = literal(word) else {
            return Ok(None);
        };
        items.push(found)?;
        left = more;
    }
    Ok(None)
}

fn hint(word: &[u8]) -> Option<WrittenHint>
    ensures { result ≡ hint_of word.now }
{
    let (first, rest) = split_word(b'.', word);
    let pos = number(first)?;
    let part = only_number(b'.', rest)?;
    Some(WrittenHint { pos, part })
}

fn hints(alloc: Global, rest: &[u8]) -> Result<Option<WrittenHints>, AllocError>
    ensures { IfOk result (λ o. o ≡ hints_of (behind 32 rest.now)) }
{
    let mut items = Vec::new(alloc);
    let mut left = rest;
    'words: while let Some((word, more)) = next_word(b' ', left) {
        let Some(found) = hint(word) else {
            return Ok(None);
        };
        items.push(found)?;
        left = more;
    }
    Ok(Some(WrittenHints::from_vec(items)))
}

fn chain(alloc: Global, rest: &[u8]) -> Result<Option<Line>, AllocError>
    ensures { IfOk result (λ o. o ≡ chain_of (behind 32 rest.now)) }
{
    let Some((clause, rest)) = literals(alloc, rest)? else {
        return Ok(None);
    };
    let Some(hints) = hints(alloc, rest)? else {
        return Ok(None);
    };
    Ok(Some(Line::Chain { clause, hints }))
}

fn indexed(name: Indexed, rest: &[u8]) -> Option<(Head, &[u8])>
    ensures { option_map (λ r. (r.0, behind 32 r.1.now)) result
        ≡ indexed_at name (behind 32 rest.now) }
{
    let (first, rest) = number_at(b' ', rest)?;
    let head = match name {
        Indexed::Word => {
            let (value, rest) = wide_at(b' ', rest)?;
            return Some((
                Head::Word {
                    width: first,
                    value,
                },
                rest,
            ));
        }
        Indexed::Extract => {
            let (low, rest) = number_at(b' ', rest)?;
            return Some((Head::Extract { high: first, low }, rest));
        }
        Indexed::ZeroExtend => Head::ZeroExtend(first),
        Indexed::SignExtend => Head::SignExtend(first),
        Indexed::RotateLeft => Head::RotateLeft(first),
        Indexed::RotateRight => Head::RotateRight(first),
        Indexed::Repeat => Head::Repeat(first),
        Indexed::Apply => Head::Apply(first),
        Indexed::ConstantArray => Head::ConstantArray(first),
    };
    Some((head, rest))
}

fn indexed_head<'a>(word: &[u8], rest: &'a [u8]) -> Option<(Head, &'a [u8])>
    ensures { option_map (λ r. (r.0, behind 32 r.1.now)) result
        ≡ indexed_head_at word.now (behind 32 rest.now) }
{
    match look_up(&INDEXED_NAMES, word) {
        Some(name) => indexed(name, rest),
        None => None,
    }
}

fn head(rest: &[u8]) -> Option<(Head, &[u8])>
    ensures { option_map (λ r. (r.0, behind 32 r.1.now)) result ≡ head_at (behind 32 rest.now) }
{
    let (word, rest) = next_word(b' ', rest)?;
    match look_up(&OPERATOR_NAMES, word) {
        Some(operator) => Some((Head::Plain(operator), rest)),
        None => indexed_head(word, rest),
    }
}

fn term(alloc: Global, rest: &[u8]) -> Result<Option<Line>, AllocError>
    ensures { IfOk result (λ o. o ≡ term_of (behind 32 rest.now)) }
{
    let Some((head, rest)) = head(rest) else {
        return Ok(None);
    };
    let Some(args) = numbers(alloc, rest)? else {
        return Ok(None);
    };
    Ok(Some(Line::Term { head, args }))
}

fn declared(alloc: Global, rest: &[u8]) -> Result<Option<Line>, AllocError>
    ensures { IfOk result (λ o. o ≡ declared_of (behind 32 rest.now)) }
{
    let Some((declaration, rest)) = number_at(b' ', rest) else {
        return Ok(None);
    };
    let Some(value) = value(alloc, rest)? else {
        return Ok(None);
    };
    Ok(Some(Line::Value { declaration, value }))
}

fn header(rest: &[u8]) -> Option<Line>
    ensures { result ≡ header_of (behind 32 rest.now) }
{
    let (word, rest) = next_word(b' ', rest)?;
    let format = look_up(&FORMATS, word)?;
    let rest = exactly(b"cubes", rest)?;
    let (cubes, rest) = number_at(b' ', rest)?;
    let rest = exactly(b"budget", rest)?;
    let budget = only_number(b' ', rest)?;
    Some(Line::Header {
        format,
        cubes,
        budget,
    })
}

fn delete(alloc: Global, rest: &[u8]) -> Result<Option<Line>, AllocError>
    ensures { IfOk result (λ o. o ≡ delete_of (behind 32 rest.now)) }
{
    let Some(places) = numbers(alloc, rest)? else {
        return Ok(None);
    };
    if places.as_slice().is_empty() {
        return Ok(None);
    }
    Ok(Some(Line::Delete(places)))
}

fn unknown(rest: &[u8]) -> Option<Line>
    ensures { result ≡ unknown_of (behind 32 rest.now) }
{
    let (cube, rest) = number_at(b' ', rest)?;
    let (start, rest) = number_at(b' ', rest)?;
    let count = only_number(b' ', rest)?;
    Some(Line::Unknown { cube, start, count })
}

fn rewrite(rest: &[u8]) -> Option<Line>
    ensures { result ≡ rewrite_of (behind 32 rest.now) }
{
    let (rule, rest) = number_at(b' ', rest)?;
    let (from, rest) = number_at(b' ', rest)?;
    let to = only_number(b' ', rest)?;
    Some(Line::Rewrite { rule, from, to })
}

fn equal(rest: &[u8]) -> Option<Line>
    ensures { result ≡ two_numbers Line.Equal (behind 32 rest.now) }
{
    let (lower, rest) = number_at(b' ', rest)?;
    let upper = only_number(b' ', rest)?;
    Some(Line::Equal(lower, upper))
}

fn line_by(alloc: Global, keyword: Keyword, rest: &[u8]) -> Result<Option<Line>, AllocError>
    ensures { IfOk result (λ o. o ≡ line_by keyword (behind 32 rest.now)) }
{
    match keyword {
        Keyword::Header => Ok(header(rest)),
        Keyword::Term => term(alloc, rest),
        Keyword::Leaf => Ok(only_number(b' ', rest).map(Line::Leaf)),
        Keyword::Encode => Ok(only_number(b' ', rest).map(Line::Encode)),
        Keyword::Rewrite => Ok(rewrite(rest)),
        Keyword::Selector => Ok(only_number(b' ', rest).map(Line::Selector)),
        Keyword::Chain => chain(alloc, rest),
        Keyword::Equal => Ok(equal(rest)),
        Keyword::Lemma => lemma(alloc, rest),
        Keyword::Delete => delete(alloc, rest),
        Keyword::Sat => Ok(only_number(b' ', rest).map(Line::Sat)),
        Keyword::Value => declared(alloc, rest),
        Keyword::Unsat => Ok(only_number(b' ', rest).map(Line::Unsat)),
        Keyword::Unknown => Ok(unknown(rest)),
        Keyword::Take => Ok(only_number(b' ', rest).map(Line::Take)),
        Keyword::Put => Ok(only_number(b' ', rest).map(Line::Put)),
        Keyword::Drop => Ok(only_number(b' ', rest).map(Line::Drop)),
    }
}

/// The line that is printed so, without its line feed; `None` exactly where there is none.
pub(crate) fn line(alloc: Global, bytes: &[u8]) -> Result<Option<Line>, AllocError>
    ensures { IfOk result (λ o. o ≡ line_of (fields 32 bytes.now)) }
{
    let (name, rest) = split_word(b' ', bytes);
    match look_up(&KEYWORDS, name) {
        Some(keyword) => line_by(alloc, keyword, rest),
        None => Ok(None),
    }
}
