// Array values.

ghost use Rattle.std.specs.Prelude.{◌≡◌, ◌<◌, ◌≤◌, ◌^◌, ◌-◌, length, slice_get, is_some, IfOk, OnOk, OnErr};
ghost use Rattle.smt_words.specs.Words.{IsWidth, word};
ghost use Rattle.smt_values.specs.Arrays.{IsArray, IsOfWidth, AreRising, Splits, matching, entry_at, element_at, constant_array, with_element, entered};
ghost use Rattle.smt_values.specs.Differences.{agree, first_difference, holds, either_holds, IsFirstAmong, lesser, IsGap};

use smt_words::Word;
use std::alloc::{AllocError, Global};
use std::marker::Model;

/// An array: a default, and the elements of the indexes that are held, in rising order of the indexes.
#[derive(Clone, Debug, Drop)]
pub struct ArrayValue {
    index: u32,
    default: Word,
    entries: Vec<(Word, Word)>,
}

impl Model for ArrayValue {
    ghost use Rattle.smt_values.specs.Arrays.{ArrayFields, IsArray};

    ghost Value = { ArrayFields };

    ghost view = { λ a.
        record { index = a.index; default = a.default; entries = a.entries.items } };

    ghost invariant = { λ a. IsArray
        (record { index = a.index; default = a.default; entries = a.entries.items }) };
}

/// Where an index stands, or would stand, among rising ones.
fn place_of(entries: &[(Word, Word)], number: u128) -> usize
    requires { AreRising entries.now }
    ensures splits { Splits entries.now number result }
    ensures within { result ≤ length entries.now }
{
    entries.partition_point(|entry| entry.0.value() < number)
}

/// The entry of an index.
fn entry_of(entries: &[(Word, Word)], number: u128) -> Option<(Word, Word)>
    requires { AreRising entries.now }
    ensures { result ≡ entry_at entries.now number }
{
    let place = place_of(entries, number);
    match entries.get(place) {
        Some(entry) => {
            if entry.0.value() == number {
                Some(*entry)
            } else {
                None
            }
        }
        None => None,
    }
}

/// Whether the entry at a place has this index.
fn stands_at(entries: &[(Word, Word)], place: usize, number: u128) -> bool
    ensures { result ≡ is_some (matching number (slice_get entries.now place)) }
{
    match entries.get(place) {
        Some(entry) => entry.0.value() == number,
        None => false,
    }
}

/// Puts an entry in its place.
fn enter(entries: &mut Vec<(Word, Word)>, index: Word, element: Word) -> Result<(), AllocError>
    requires { AreRising entries.old.items }
    ensures ok { OnOk result (entries.new.items ≡ entered entries.old.items (index, element)) }
    ensures err { OnErr result (entries.new.items ≡ entries.old.items) }
{
    let number = index.value();
    let place = place_of(entries.as_slice(), number);
    let held = stands_at(entries.as_slice(), place, number);
    if held {
        entries[place] = (index, element);
        return Ok(());
    }
    entries.insert(place, (index, element))?;
    Ok(())
}

impl ArrayValue {
    /// The array with this element at every index; takes no memory.
    pub fn constant(alloc: Global, index: u32, default: Word) -> ArrayValue
        requires index { IsWidth index }
        requires element { IsWidth default.width × IsOfWidth default.width default }
        ensures { result ≡ constant_array index default }
    {
        ArrayValue {
            index,
            default,
            entries: Vec::new(alloc),
        }
    }

    /// The width of the indexes.
    pub fn index_width(&self) -> u32
        ensures width { result ≡ self.now.index }
        ensures array { IsArray self.now }
    {
        self.index
    }

    /// The element at each index that is not held.
    pub fn default(&self) -> Word
        ensures { result ≡ self.now.default }
    {
        self.default
    }

    /// The held indexes and their elements, in rising order of the indexes.
    pub fn entries(&self) -> &[(Word, Word)]
        ensures { result.now ≡ self.now.entries }
    {
        self.entries.as_slice()
    }

    /// The element at an index; takes no memory.
    pub fn at(&self, index: Word) -> Word
        ensures { result ≡ word self.now.default.width (element_at self.now index.value) }
    {
        match entry_of(self.entries.as_slice(), index.value()) {
            Some(entry) => entry.1,
            None => self.default,
        }
    }

    /// Gives an index an element.
    pub fn set(&mut self, index: Word, element: Word) -> Result<(), AllocError>
        requires index { IsOfWidth self.old.index index }
        requires element { IsOfWidth self.old.default.width element }
        ensures ok { OnOk result (self.new ≡ with_element self.old index element) }
        ensures err { OnErr result (self.new ≡ self.old) }
    {
        enter(&mut self.entries, index, element)
    }

    /// An equal array.
    pub fn copy(&self) -> Result<ArrayValue, AllocError>
        ensures equal { IfOk result (λ a. a ≡ self.now) }
        ensures array { IsArray self.now }
    {
        let _index = self.index;
        self.clone()
    }

    /// The least index at which two arrays of one sort differ; `None` exactly where they agree at every index. Takes no
    /// memory.
    pub fn difference(&self, other: &ArrayValue) -> Option<Word>
        requires index { other.now.index ≡ self.now.index }
        requires element { other.now.default.width ≡ self.now.default.width }
        ensures { result ≡ first_difference self.now other.now }
    {
        let held = held_difference(self, other);
        if self.default.value() == other.default().value() {
            held
        } else {
            least(held, gap(self, other))
        }
    }

    /// Whether two arrays of one sort agree at every index; takes no memory.
    pub fn equal(&self, other: &ArrayValue) -> bool
        requires index { other.now.index ≡ self.now.index }
        requires element { other.now.default.width ≡ self.now.default.width }
        ensures { result ≡ agree self.now other.now }
    {
        self.difference(other).is_none()
    }

    /// Whether an index is held.
    fn holds(&self, number: u128) -> bool
        ensures { result ≡ holds self.now.entries number }
    {
        entry_of(self.entries.as_slice(), number).is_some()
    }
}

/// The lesser of two indexes, where there are two.
fn least(a: Option<Word>, b: Option<Word>) -> Option<Word>
    ensures { result ≡ lesser a b }
{
    match a {
        None => b,
        Some(x) => match b {
            None => a,
            Some(y) => { if x.value() <= y.value() { a } else { b } }
        },
    }
}

/// The first index that one array holds and at which another differs from it.
fn entry_difference(a: &ArrayValue, b: &ArrayValue) -> Option<Word>
    ensures { IsFirstAmong (holds a.now.entries) a.now b.now result }
{
    for entry in a.entries.as_slice() {
        if b.at(entry.0).value() != entry.1.value() {
            return Some(entry.0);
        }
    }
    None
}

/// The least index that one of two arrays holds and at which they differ.
fn held_difference(a: &ArrayValue, b: &ArrayValue) -> Option<Word>
    requires { b.now.index ≡ a.now.index }
    ensures { IsFirstAmong (either_holds a.now b.now) a.now b.now result }
{
    let own = entry_difference(a, b);
    let others = entry_difference(b, a);
    least(own, others)
}

/// The greatest index of a width.
fn last_index(width: u32) -> u128
    requires { width ≤ 128 }
    ensures { result ≡ 2 ^ width - 1 }
{
    if width == 0 {
        return 0;
    }
    u128::MAX >> (128 - width)
}

/// Whether one of two arrays holds an index.
fn either_holds(a: &ArrayValue, b: &ArrayValue, number: u128) -> bool
    ensures { result ≡ either_holds a.now b.now number }
{
    a.holds(number) || b.holds(number)
}

/// The least index that neither of two arrays holds.
fn gap(a: &ArrayValue, b: &ArrayValue) -> Option<Word>
    ensures { IsGap a.now b.now result }
{
    let width = a.index_width();
    let last = last_index(width);
    let mut number = 0;
    while either_holds(a, b, number) {
        if number == last {
            return None;
        }
        number += 1;
    }
    Some(Word::new(width, number).unwrap())
}
