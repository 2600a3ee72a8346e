// The sorts of declarations.

ghost use Rattle.std.specs.Prelude.{◌≡◌, true, IfOk};
ghost use Rattle.smt_syntax.specs.Sexps.{signs_in, spelling, Sexp};
ghost use Rattle.smt_build.specs.Sorts.{sort_named, width_sort, named_sort, indexed_sort, part_sort, array_by, array_sort, begins_array, behind_head, sort_in};

use crate::declare::tokens_at;
use crate::fault::BuildFault;
use crate::literal::width_of_numeral;
use crate::naming::parts_of;
use crate::symbols::Symbols;
use smt_terms::sort::Sort;
use smt_text::token::{Token, TokenKind};
use std::alloc::{AllocError, Global};

/// The sort that a word names.
pub(crate) fn sort_named(
    symbols: &Symbols,
    kind: TokenKind,
    name: &[u8],
) -> Result<Sort, BuildFault>
    ensures { result ≡ sort_named symbols.now.sorts kind name.now }
{
    match kind {
        TokenKind::Symbol => {
            if name == b"Bool".as_slice() {
                return Ok(Sort::Bool);
            }
            match symbols.defined_sort(name) {
                Some(sort) => Ok(sort),
                None => Err(BuildFault::UnknownSymbol),
            }
        }
        _ => Err(BuildFault::NotSupported),
    }
}

/// The word sort of a width.
fn width_sort(kind: TokenKind, width: &[u8]) -> Result<Sort, BuildFault>
    ensures { result ≡ width_sort kind width.now }
{
    match kind {
        TokenKind::Numeral => match width_of_numeral(width) {
            Some(n) => Ok(Sort::Word(n)),
            None => Err(BuildFault::Width),
        },
        _ => Err(BuildFault::NotSupported),
    }
}

fn named_sort(
    kind: TokenKind,
    name: &[u8],
    index: TokenKind,
    width: &[u8],
) -> Result<Sort, BuildFault>
    ensures { result ≡ named_sort kind name.now index width.now }
{
    match kind {
        TokenKind::Symbol => {
            if name == b"BitVec".as_slice() {
                width_sort(index, width)
            } else {
                Err(BuildFault::NotSupported)
            }
        }
        _ => Err(BuildFault::NotSupported),
    }
}

/// The sort of three words in a list.
pub(crate) fn indexed_sort(
    mark: TokenKind,
    kind: TokenKind,
    name: &[u8],
    index: TokenKind,
    width: &[u8],
) -> Result<Sort, BuildFault>
    ensures { result ≡ indexed_sort mark kind name.now index width.now }
{
    match mark {
        TokenKind::Underscore => named_sort(kind, name, index, width),
        _ => Err(BuildFault::NotSupported),
    }
}

/// The sort that a name or `(_ BitVec n)` means.
fn part_sort(symbols: &Symbols, tokens: &[Token<'_>]) -> Result<Sort, BuildFault>
    ensures { (s : Sexp) → signs_in tokens.now ≡ spelling s
        → result ≡ part_sort symbols.now.sorts s }
{
    match tokens {
        [name] => sort_named(symbols, name.kind, name.text),
        [_, mark, name, width, _] => {
            indexed_sort(mark.kind, name.kind, name.text, width.kind, width.text)
        }
        _ => Err(BuildFault::NotSupported),
    }
}

/// The sort of arrays whose indexes and elements have these sorts.
pub(crate) fn array_by(
    index: Result<Sort, BuildFault>,
    element: Result<Sort, BuildFault>,
) -> Result<Sort, BuildFault>
    ensures { result ≡ array_by index element }
{
    match (index, element) {
        (Err(fault), _) => Err(fault),
        (Ok(_), Err(fault)) => Err(fault),
        (Ok(Sort::Word(index)), Ok(Sort::Word(element))) => Ok(Sort::Array(index, element)),
        _ => Err(BuildFault::NotSupported),
    }
}

/// Whether tokens spell a list that begins with the word `Array`.
fn begins_array(tokens: &[Token<'_>]) -> bool
    ensures { (s : Sexp) → signs_in tokens.now ≡ spelling s → result ≡ begins_array s }
{
    if tokens.len() < 3 {
        return false;
    }
    tokens[1].kind == TokenKind::Symbol && tokens[1].text == b"Array".as_slice()
}

/// The sort of arrays that such tokens spell.
fn array_sort(
    alloc: Global,
    symbols: &Symbols,
    tokens: &[Token<'_>],
) -> Result<Result<Sort, BuildFault>, AllocError>
    ensures { IfOk result (λ r. (s : Sexp) → begins_array s ≡ true
        → signs_in tokens.now ≡ spelling s → r ≡ array_sort symbols.now.sorts (behind_head s)) }
{
    let spans = parts_of(alloc, tokens)?;
    if spans.len() != 3 {
        return Ok(Err(BuildFault::NotSupported));
    }
    let index = part_sort(symbols, tokens_at(tokens, spans[1]));
    let element = part_sort(symbols, tokens_at(tokens, spans[2]));
    Ok(array_by(index, element))
}

/// The sort that tokens spell.
pub fn sort_of(
    alloc: Global,
    symbols: &Symbols,
    tokens: &[Token<'_>],
) -> Result<Result<Sort, BuildFault>, AllocError>
    ensures { IfOk result (λ r. (s : Sexp) → signs_in tokens.now ≡ spelling s
        → r ≡ sort_in symbols.now s) }
{
    if begins_array(tokens) {
        return array_sort(alloc, symbols, tokens);
    }
    Ok(part_sort(symbols, tokens))
}
