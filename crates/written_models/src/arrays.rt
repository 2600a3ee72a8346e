//! Arrays read at a sort.

ghost use Rattle.std.specs.Prelude.{◌≡◌, ℕ, ◌<◌, ◌^◌, IfOk, OnOk};
ghost use Rattle.smt_words.specs.Words.{IsWidth};
ghost use Rattle.smt_terms.specs.Values.{elements_below, held_at};
ghost use Rattle.smt_values.specs.Arrays.{IsArray, element_at, elements_of};
ghost use Rattle.written_models.specs.Fitting.{HasIndex, entered_at};

use smt_values::ArrayValue;
use smt_values::value::word_from;
use smt_words::Word;
use std::alloc::{AllocError, Global};

/// Enters an entry at these widths, if its index fits.
fn enter(
    read: &mut ArrayValue,
    index: u32,
    element: u32,
    entry: (Word, Word),
) -> Result<(), AllocError>
    requires widths { (read.old.index ≡ index) × (read.old.default.width ≡ element) }
    requires index { IsWidth index }
    requires element { IsWidth element }
    ensures fits { OnOk result
        (HasIndex index entry → read.new ≡ entered_at index element entry read.old) }
    ensures past { OnOk result ((HasIndex index entry → ⊥) → read.new ≡ read.old) }
{
    let at = entry.0.value();
    let place = word_from(index, at);
    let there = place.value();
    if there != at {
        return Ok(());
    }
    let given = entry.1.value();
    let word = word_from(element, given);
    read.set(place, word)?;
    Ok(())
}

/// The array with indexes and elements of these widths that has at each index the element of an
/// array there, read at its width.
pub(crate) fn array_at(
    alloc: Global,
    index: u32,
    element: u32,
    array: &ArrayValue,
) -> Result<ArrayValue, AllocError>
    requires index { IsWidth index }
    requires element { IsWidth element }
    ensures widths { IfOk result (λ a. (a.index ≡ index) × (a.default.width ≡ element)) }
    ensures array { IfOk result (λ a. IsArray a) }
    ensures elements { IfOk result
        (λ a. (i : ℕ) → i < 2 ^ index
        → held_at (elements_below (2 ^ element) (elements_of array.now)) i ≡ element_at a i) }
{
    let _width = array.index_width();
    let first = array.default();
    let number = first.value();
    let default = word_from(element, number);
    let mut read = ArrayValue::constant(alloc, index, default);
    for entry in array.entries() {
        enter(&mut read, index, element, *entry)?;
    }
    let _index = read.index_width();
    Ok(read)
}
