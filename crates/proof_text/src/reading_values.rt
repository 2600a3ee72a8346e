// The values of declarations, read from the words of a line.

ghost use Rattle.std.specs.Prelude.{◌≡◌, IfOk};
ghost use Rattle.proof_text.specs.Reading.{behind, digit_in, digits_of, binary_of, word_of, scalar_of, scalars_of, entry_of, entries_of, array_of, function_of, plain_value, plain_of, value_of};

use crate::line::WrittenValue;
use crate::list::{Digits, WrittenEntries, WrittenEntry, WrittenScalar, WrittenScalars};
use crate::words::next_word;
use std::alloc::{AllocError, Global};

fn digit(byte: u8) -> Option<bool>
    ensures { result ≡ digit_in byte }
{
    match byte {
        b'0' => Some(false),
        b'1' => Some(true),
        _ => None,
    }
}

fn digits(alloc: Global, bytes: &[u8]) -> Result<Option<Digits>, AllocError>
    ensures { IfOk result (λ o. o ≡ digits_of bytes.now) }
{
    let mut items = Vec::new(alloc);
    for byte in bytes {
        let Some(found) = digit(*byte) else {
            return Ok(None);
        };
        items.push(found)?;
    }
    Ok(Some(Digits::from_vec(items)))
}

/// The digits behind `#b`.
fn binary(alloc: Global, word: &[u8]) -> Result<Option<Digits>, AllocError>
    ensures { IfOk result (λ o. o ≡ binary_of word.now) }
{
    match word {
        [b'#', b'b', _, ..] => digits(alloc, &word[2..]),
        _ => Ok(None),
    }
}

fn written_word(alloc: Global, word: &[u8]) -> Result<Option<WrittenScalar>, AllocError>
    ensures { IfOk result (λ o. o ≡ word_of word.now) }
{
    match binary(alloc, word)? {
        Some(digits) => Ok(Some(WrittenScalar::Word(digits))),
        None => Ok(None),
    }
}

fn scalar(alloc: Global, word: &[u8]) -> Result<Option<WrittenScalar>, AllocError>
    ensures { IfOk result (λ o. o ≡ scalar_of word.now) }
{
    if word == b"true".as_slice() {
        Ok(Some(WrittenScalar::Bool(true)))
    } else if word == b"false".as_slice() {
        Ok(Some(WrittenScalar::Bool(false)))
    } else {
        written_word(alloc, word)
    }
}

fn scalars(alloc: Global, rest: &[u8]) -> Result<Option<WrittenScalars>, AllocError>
    ensures { IfOk result (λ o. o ≡ scalars_of (behind 32 rest.now)) }
{
    let mut items = Vec::new(alloc);
    let mut left = rest;
    'words: while let Some((word, more)) = next_word(b' ', left) {
        let Some(found) = scalar(alloc, word)? else {
            return Ok(None);
        };
        items.push(found)?;
        left = more;
    }
    Ok(Some(WrittenScalars::from_vec(items)))
}

fn entry(alloc: Global, index: &[u8], element: &[u8]) -> Result<Option<WrittenEntry>, AllocError>
    ensures { IfOk result (λ o. o ≡ entry_of index.now element.now) }
{
    let Some(index) = binary(alloc, index)? else {
        return Ok(None);
    };
    let Some(element) = binary(alloc, element)? else {
        return Ok(None);
    };
    Ok(Some(WrittenEntry { index, element }))
}

/// The indexes and elements, which stand two and two.
fn entries(alloc: Global, rest: &[u8]) -> Result<Option<WrittenEntries>, AllocError>
    ensures { IfOk result (λ o. o ≡ entries_of (behind 32 rest.now)) }
{
    let mut items = Vec::new(alloc);
    let mut left = rest;
    'words: while let Some((index, more)) = next_word(b' ', left) {
        let Some((element, more)) = next_word(b' ', more) else {
            return Ok(None);
        };
        let Some(found) = entry(alloc, index, element)? else {
            return Ok(None);
        };
        items.push(found)?;
        left = more;
    }
    Ok(Some(WrittenEntries::from_vec(items)))
}

fn array(alloc: Global, rest: &[u8]) -> Result<Option<WrittenValue>, AllocError>
    ensures { IfOk result (λ o. o ≡ array_of (behind 32 rest.now)) }
{
    let Some((word, rest)) = next_word(b' ', rest) else {
        return Ok(None);
    };
    let Some(default) = binary(alloc, word)? else {
        return Ok(None);
    };
    let Some(entries) = entries(alloc, rest)? else {
        return Ok(None);
    };
    Ok(Some(WrittenValue::Array { default, entries }))
}

fn function(alloc: Global, rest: &[u8]) -> Result<Option<WrittenValue>, AllocError>
    ensures { IfOk result (λ o. o ≡ function_of (behind 32 rest.now)) }
{
    let Some((word, rest)) = next_word(b' ', rest) else {
        return Ok(None);
    };
    let Some(default) = scalar(alloc, word)? else {
        return Ok(None);
    };
    let Some(values) = scalars(alloc, rest)? else {
        return Ok(None);
    };
    Ok(Some(WrittenValue::Fun { default, values }))
}

fn plain_value(scalar: WrittenScalar) -> WrittenValue
    ensures { result ≡ plain_value scalar }
{
    match scalar {
        WrittenScalar::Bool(holds) => WrittenValue::Bool(holds),
        WrittenScalar::Word(digits) => WrittenValue::Word(digits),
    }
}

/// A truth value or a word, behind which nothing stands.
fn plain(alloc: Global, word: &[u8], rest: &[u8]) -> Result<Option<WrittenValue>, AllocError>
    ensures { IfOk result (λ o. o ≡ plain_of word.now (behind 32 rest.now)) }
{
    let Some(found) = scalar(alloc, word)? else {
        return Ok(None);
    };
    match next_word(b' ', rest) {
        None => Ok(Some(plain_value(found))),
        Some(_) => Ok(None),
    }
}

/// The value that the words behind a declaration's number are.
pub(crate) fn value(alloc: Global, rest: &[u8]) -> Result<Option<WrittenValue>, AllocError>
    ensures { IfOk result (λ o. o ≡ value_of (behind 32 rest.now)) }
{
    let Some((word, rest)) = next_word(b' ', rest) else {
        return Ok(None);
    };
    if word == b"a".as_slice() {
        array(alloc, rest)
    } else if word == b"f".as_slice() {
        function(alloc, rest)
    } else {
        plain(alloc, word, rest)
    }
}
