// What a check makes before all else.

ghost use Rattle.std.specs.Prelude.{◌≡◌, ◌<◌, ◌≤◌, ℕ, List, All, length};
ghost use Rattle.array_watches.specs.Needed.{watched, with_index_words};
ghost use Rattle.array_watches.specs.Making.{IsMaking, IsMade, IsCount, AreSame, with_width_words};

use crate::found::equalities_of;
use crate::indexes::{has, indexes_of, of_width, widths_of};
use crate::making::{make_each, make_words};
use smt_terms::fault::MakeError;
use smt_terms::node::TermId;
use smt_terms::terms::Terms;
use std::alloc::Global;
use term_reach::{Reached, reach_by_arguments};

/// The greatest width of a word.
const GREATEST_WIDTH: u32 = 128;

/// Makes the index words of a width, if it is one of these.
fn make_width(
    alloc: Global,
    terms: &mut Terms,
    indexes: &[TermId],
    widths: &[u32],
    width: u32,
) -> Result<(), MakeError>
    requires held { All (λ t. t < length terms.old.nodes) indexes.now }
    requires wide { (1 ≤ width) × (width ≤ 128) }
    ensures { IsMaking (with_width_words terms.old.nodes indexes.now widths.now width) result
        terms.old terms.new }
{
    if has(widths, width) {
        let found = of_width(alloc, terms, indexes, width)?;
        return make_words(alloc, terms, width, found.len() + 1);
    }
    Ok(())
}

/// Makes the index words of the constant arrays among these terms.
fn make_index_words(alloc: Global, terms: &mut Terms, among: &[TermId]) -> Result<(), MakeError>
    requires held { All (λ t. t < length terms.old.nodes) among.now }
    ensures { (ts : List ℕ) → AreSame ts among.now
        → IsMaking (with_index_words terms.old.nodes ts 128) result terms.old terms.new }
{
    let _count = terms.len();
    let indexes = indexes_of(alloc, terms, among)?;
    let widths = widths_of(alloc, terms, among)?;
    for below in 0..GREATEST_WIDTH {
        make_width(
            alloc,
            terms,
            indexes.as_slice(),
            widths.as_slice(),
            below + 1,
        )?;
    }
    Ok(())
}

/// Makes all; where it is refused, some may be made.
fn make_all(
    alloc: Global,
    terms: &mut Terms,
    roots: &[TermId],
    reached: &mut Reached,
) -> Result<(), MakeError>
    requires held { All (λ t. t < length terms.old.nodes) roots.now }
    ensures { IsMaking (watched terms.old.nodes roots.now) result terms.old terms.new }
{
    let _count = terms.len();
    reach_by_arguments(alloc, terms, roots, reached)?;
    let equalities = equalities_of(alloc, terms, roots, reached)?;
    make_each(alloc, terms, equalities.as_slice())?;
    make_index_words(alloc, terms, reached.terms())
}

/// Makes the terms that a check over these roots makes before all else: for each equality of arrays
/// that they reach through arguments, the lowest first, the witness of its sides and the selects of
/// the left and of the right side there; and then, where they reach a constant array, the words of
/// its index width from 0 up to the number of different indexes of that width, or up to the last,
/// the lowest width first. What is held already is not made again. It answers `TermLimit` exactly
/// where all these are more than may be held, and then, as for want of memory, the terms are as
/// before. The work goes by what is reached.
pub fn make_watches(
    alloc: Global,
    terms: &mut Terms,
    roots: &[TermId],
    reached: &mut Reached,
) -> Result<(), MakeError>
    requires held { All (λ t. t < length terms.old.nodes) roots.now }
    ensures { IsMade (watched terms.old.nodes roots.now) result terms.old terms.new }
{
    let held = terms.len();
    match make_all(alloc, terms, roots, reached) {
        Ok(()) => {
            let _count = terms.len();
            Ok(())
        }
        Err(error) => {
            terms.cut(held);
            Err(error)
        }
    }
}

/// How many terms `make_watches` would make. It answers `TermLimit` exactly where `make_watches`
/// does. The terms are as before.
pub fn count_watches(
    alloc: Global,
    terms: &mut Terms,
    roots: &[TermId],
    reached: &mut Reached,
) -> Result<u32, MakeError>
    requires held { All (λ t. t < length terms.old.nodes) roots.now }
    ensures count { IsCount (watched terms.old.nodes roots.now) terms.old result }
    ensures kept { terms.new ≡ terms.old }
{
    let before = terms.len();
    make_watches(alloc, terms, roots, reached)?;
    let count = terms.len() - before;
    terms.cut(before);
    Ok(count)
}
