// The parts of a sort within a term, as the reader meets them.

ghost use Rattle.std.specs.Prelude.{◌≡◌};
ghost use Rattle.smt_build.specs.SortParts.{with_part, sort_of_part, is_array_word, sort_of_words, sort_of_parts};
ghost use Rattle.smt_build.specs.Views.{sort_part_of, sort_parts_of};

use crate::fault::BuildFault;
use crate::sorts::{array_by, indexed_sort, sort_named};
use crate::symbols::Symbols;
use smt_terms::sort::Sort;
use smt_text::token::TokenKind;

/// A word, or a list with the sort that it means.
#[derive(Clone, Copy)]
pub enum SortPart<'a> {
    Word(TokenKind, &'a [u8]),
    Listed(Result<Sort, BuildFault>),
}

/// The parts of a list; no sort has more than three.
#[derive(Clone, Copy)]
pub enum SortParts<'a> {
    None,
    One(SortPart<'a>),
    Two(SortPart<'a>, SortPart<'a>),
    Three(SortPart<'a>, SortPart<'a>, SortPart<'a>),
    More,
}

/// One part more.
pub fn with_part<'a>(parts: SortParts<'a>, part: SortPart<'a>) -> SortParts<'a>
    ensures { sort_parts_of result
        ≡ with_part (sort_parts_of parts.entry) (sort_part_of part.entry) }
{
    match parts {
        SortParts::None => SortParts::One(part),
        SortParts::One(first) => SortParts::Two(first, part),
        SortParts::Two(first, second) => SortParts::Three(first, second, part),
        _ => SortParts::More,
    }
}

/// The sort that a part means by itself.
pub fn sort_of_part(symbols: &Symbols, part: SortPart<'_>) -> Result<Sort, BuildFault>
    ensures { result ≡ sort_of_part symbols.now.sorts (sort_part_of part.entry) }
{
    match part {
        SortPart::Word(kind, text) => sort_named(symbols, kind, text),
        SortPart::Listed(sort) => sort,
    }
}

/// Whether it is the word `Array`.
fn is_array_word(part: SortPart<'_>) -> bool
    ensures { result ≡ is_array_word (sort_part_of part.entry) }
{
    match part {
        SortPart::Word(TokenKind::Symbol, text) => text == b"Array".as_slice(),
        _ => false,
    }
}

/// The word sort of three parts.
fn sort_of_words(
    mark: SortPart<'_>,
    name: SortPart<'_>,
    width: SortPart<'_>,
) -> Result<Sort, BuildFault>
    ensures { result
        ≡ sort_of_words (sort_part_of mark.entry) (sort_part_of name.entry)
        (sort_part_of width.entry) }
{
    match (mark, name, width) {
        (SortPart::Word(mark, _), SortPart::Word(kind, name), SortPart::Word(index, width)) => {
            indexed_sort(mark, kind, name, index, width)
        }
        _ => Err(BuildFault::NotSupported),
    }
}

/// The sort of a list, which may be one of arrays where it is the whole sort.
pub fn sort_of_parts(
    symbols: &Symbols,
    whole: bool,
    parts: SortParts<'_>,
) -> Result<Sort, BuildFault>
    ensures { result ≡ sort_of_parts symbols.now whole (sort_parts_of parts.entry) }
{
    let SortParts::Three(head, second, third) = parts else {
        return Err(BuildFault::NotSupported);
    };
    if whole && is_array_word(head) {
        let index = sort_of_part(symbols, second);
        let element = sort_of_part(symbols, third);
        return array_by(index, element);
    }
    sort_of_words(head, second, third)
}
