// The lines of lemmas, read from their words.

ghost use Rattle.std.specs.Prelude.{◌≡◌, IfOk};
ghost use Rattle.std.specs.Option.{option_map};
ghost use Rattle.proof_text.specs.Reading.{behind, start_of, move_of, moves_at, access_at, accesses_of, two_numbers, lemma_by, lemma_of};

use crate::keyword::{LEMMA_NAMES, LETTERS, LemmaKind, look_up};
use crate::line::Line;
use crate::list::{WrittenAccess, WrittenMove, WrittenMoves, WrittenStart};
use crate::words::{exactly, next_word, number, number_at, only_number, split_word};
use std::alloc::{AllocError, Global};

fn start(word: &[u8]) -> Option<WrittenStart>
    ensures { result ≡ start_of word.now }
{
    let (first, rest) = split_word(b'@', word);
    let term = number(first)?;
    let Some((second, rest)) = next_word(b'@', rest) else {
        return Some(WrittenStart::Term(term));
    };
    let index = number(second)?;
    match next_word(b'@', rest) {
        None => Some(WrittenStart::Const(term, index)),
        Some(_) => None,
    }
}

fn written_move(letter: &[u8], term: &[u8]) -> Option<WrittenMove>
    ensures { result ≡ move_of letter.now term.now }
{
    let letter = look_up(&LETTERS, letter)?;
    let term = number(term)?;
    Some(WrittenMove { letter, term })
}

/// The moves before the word `/` or before the end, and the rest from there on.
fn moves(alloc: Global, rest: &[u8]) -> Result<Option<(WrittenMoves, &[u8])>, AllocError>
    ensures { IfOk result (λ o. option_map (λ r. (r.0, behind 32 r.1.now)) o
        ≡ moves_at (behind 32 rest.now)) }
{
    let mut items = Vec::new(alloc);
    let mut left = rest;
    'words: while let Some((letter, more)) = next_word(b' ', left) {
        if letter == b"/".as_slice() {
            return Ok(Some((WrittenMoves::from_vec(items), left)));
        }
        let Some((term, more)) = next_word(b' ', more) else {
            return Ok(None);
        };
        let Some(found) = written_move(letter, term) else {
            return Ok(None);
        };
        items.push(found)?;
        left = more;
    }
    Ok(Some((WrittenMoves::from_vec(items), left)))
}

fn access(alloc: Global, rest: &[u8]) -> Result<Option<(WrittenAccess, &[u8])>, AllocError>
    ensures { IfOk result (λ o. option_map (λ r. (r.0, behind 32 r.1.now)) o
        ≡ access_at (behind 32 rest.now)) }
{
    let Some((word, rest)) = next_word(b' ', rest) else {
        return Ok(None);
    };
    let Some(start) = start(word) else {
        return Ok(None);
    };
    let Some((moves, rest)) = moves(alloc, rest)? else {
        return Ok(None);
    };
    Ok(Some((WrittenAccess { start, moves }, rest)))
}

fn accesses(alloc: Global, rest: &[u8]) -> Result<Option<Line>, AllocError>
    ensures { IfOk result (λ o. o ≡ accesses_of (behind 32 rest.now)) }
{
    let Some((one, rest)) = access(alloc, rest)? else {
        return Ok(None);
    };
    let Some(rest) = exactly(b"/", rest) else {
        return Ok(None);
    };
    let Some((other, rest)) = access(alloc, rest)? else {
        return Ok(None);
    };
    match next_word(b' ', rest) {
        None => Ok(Some(Line::Accesses(one, other))),
        Some(_) => Ok(None),
    }
}

fn congruence(rest: &[u8]) -> Option<Line>
    ensures { result ≡ two_numbers Line.Congruence (behind 32 rest.now) }
{
    let (lower, rest) = number_at(b' ', rest)?;
    let upper = only_number(b' ', rest)?;
    Some(Line::Congruence(lower, upper))
}

fn lemma_by(alloc: Global, kind: LemmaKind, rest: &[u8]) -> Result<Option<Line>, AllocError>
    ensures { IfOk result (λ o. o ≡ lemma_by kind (behind 32 rest.now)) }
{
    match kind {
        LemmaKind::Congruence => Ok(congruence(rest)),
        LemmaKind::Witness => Ok(only_number(b' ', rest).map(Line::Witness)),
        LemmaKind::Accesses => accesses(alloc, rest),
    }
}

/// The lemma that the words behind `l` are.
pub(crate) fn lemma(alloc: Global, rest: &[u8]) -> Result<Option<Line>, AllocError>
    ensures { IfOk result (λ o. o ≡ lemma_of (behind 32 rest.now)) }
{
    let Some((name, rest)) = next_word(b' ', rest) else {
        return Ok(None);
    };
    match look_up(&LEMMA_NAMES, name) {
        Some(kind) => lemma_by(alloc, kind, rest),
        None => Ok(None),
    }
}
