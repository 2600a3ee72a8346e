// Indexes that no select and no store has, and the table.

ghost use Rattle.std.specs.Prelude.{◌≡◌, ◌<◌, ◌≤◌, ℕ, length, Contains, IfOk, OnOk, MatchBool, MatchOption};
ghost use Rattle.std.specs.List.Sorted.{IsNonDecreasing};
ghost use Rattle.smt_terms.specs.declared.sort.Sort.TheVariants as sort;
ghost use Rattle.smt_terms.specs.Bits.{image_in};
ghost use Rattle.smt_terms.specs.Terms.{sort_of};
ghost use Rattle.smt_terms.specs.Values.{number_of};
ghost use Rattle.bit_blast.specs.Assigned.{assigned};
ghost use Rattle.term_reach.specs.Reach.{IsClosed, IsReach};
ghost use Rattle.access_tables.specs.Leading.{leads};
ghost use Rattle.access_tables.specs.Encoded.{HaveBits};
ghost use Rattle.access_tables.specs.Tables.{AreSpare};
ghost use Rattle.access_tables.specs.Held.{assigned_value, spare_in};
ghost use Rattle.access_walk.specs.Networks.{AreApart, AreCongruent};
ghost use Rattle.access_walk.specs.Rows.{AreClosedRows};
ghost use Rattle.access_walk.specs.Spared.{HasIndexTerm, HasWidth, Widens, AreIndexTerms, AreFilledWidths, AreIndexesOf, AreTaken, IsGap, IsSpareWord};
ghost use Rattle.access_walk.specs.Walked.{IsWalkedTable};

use crate::putting::put;
use access_tables::table::AccessTable;
use access_tables::values::word_of;
use bit_blast::Assignment;
use smt_terms::bits::Bits;
use smt_terms::node::TermId;
use smt_terms::sort::Sort;
use smt_terms::terms::Terms;
use smt_words::Word;
use std::alloc::{AllocError, Global};
use term_reach::Reached;
use theory_terms::atom::Landing;
use theory_terms::shape::{Shape, shape_at};

/// The indexes of selects and stores, and the index widths of constant arrays.
#[derive(Debug, Drop)]
pub struct Indexes {
    pub terms: Vec<TermId>,
    pub widths: Vec<u32>,
}

/// The index of a select or a store without an image.
fn index_of(terms: &Terms, bits: &Bits, term: TermId) -> Option<TermId>
    ensures { MatchOption result ((i : ℕ) → HasIndexTerm terms.now.nodes bits.now term i → ⊥)
        (HasIndexTerm terms.now.nodes bits.now term) }
{
    match bits.image(term) {
        Some(_) => None,
        None => match shape_at(terms, term) {
            Shape::Selecting { index, .. } => Some(index),
            Shape::Storing { index, .. } => Some(index),
            _ => None,
        },
    }
}

/// The index width of a constant array without an image.
fn width_of(terms: &Terms, bits: &Bits, term: TermId) -> Option<u32>
    requires { term < length terms.now.nodes }
    ensures { MatchOption result ((n : ℕ) → HasWidth terms.now.nodes bits.now term n → ⊥)
        (HasWidth terms.now.nodes bits.now term) }
{
    match bits.image(term) {
        Some(_) => None,
        None => match shape_at(terms, term) {
            Shape::Filling { .. } => match terms.sort(term) {
                Sort::Array(index, _) => Some(index),
                _ => None,
            },
            _ => None,
        },
    }
}

/// Whether a width is among others.
fn has(widths: &[u32], width: u32) -> bool
    ensures { MatchBool result (Contains widths.now width) (Contains widths.now width → ⊥) }
{
    widths.contains(&width)
}

/// Puts a width among others, once, if there is one.
fn put_width(widths: &mut Vec<u32>, width: Option<u32>) -> Result<(), AllocError>
    ensures { OnOk result (Widens widths.old.items widths.new.items width) }
{
    match width {
        Some(own) => {
            if has(widths.as_slice(), own) {
                return Ok(());
            }
            widths.push(own)?;
            Ok(())
        }
        None => Ok(()),
    }
}

/// The indexes of selects and stores without images.
fn index_terms(
    alloc: Global,
    terms: &Terms,
    bits: &Bits,
    reached: &Reached,
) -> Result<Vec<TermId>, AllocError>
    ensures { IfOk result
        (λ found. AreIndexTerms terms.now.nodes bits.now (Contains reached.now) found.items) }
{
    let mut found = Vec::new(alloc);
    for term in reached.terms() {
        put(&mut found, index_of(terms, bits, *term))?;
    }
    Ok(found)
}

/// The index widths of constant arrays without images, each once.
fn filled_widths(
    alloc: Global,
    terms: &Terms,
    bits: &Bits,
    reached: &Reached,
) -> Result<Vec<u32>, AllocError>
    requires { HaveBits terms.now.nodes bits.now (Contains reached.now) }
    ensures { IfOk result
        (λ found. AreFilledWidths terms.now.nodes bits.now (Contains reached.now) found.items) }
{
    let mut found = Vec::new(alloc);
    for term in reached.terms() {
        put_width(&mut found, width_of(terms, bits, *term))?;
    }
    Ok(found)
}

/// The indexes of selects and stores among reached terms without images, and the index widths of
/// constant arrays.
pub fn indexes_of(
    alloc: Global,
    terms: &Terms,
    bits: &Bits,
    reached: &Reached,
) -> Result<Indexes, AllocError>
    requires { HaveBits terms.now.nodes bits.now (Contains reached.now) }
    ensures { IfOk result (AreIndexesOf terms.now.nodes bits.now (Contains reached.now)) }
{
    Ok(Indexes {
        terms: index_terms(alloc, terms, bits, reached)?,
        widths: filled_widths(alloc, terms, bits, reached)?,
    })
}

/// The number of a word, if it has this width.
fn number_of(
    terms: &Terms,
    bits: &Bits,
    assignment: &Assignment,
    reached: &Reached,
    term: TermId,
    width: u32,
) -> Option<u128>
    requires bits { HaveBits terms.now.nodes bits.now (Contains reached.now) }
    requires here { Contains reached.now term }
    ensures { MatchOption result (sort_of terms.now.nodes term ≡ sort.Word width → ⊥)
        (λ k. (sort_of terms.now.nodes term ≡ sort.Word width)
        × (k ≡ number_of
        (assigned_value terms.now.nodes bits.now (assigned assignment.now) term))) }
{
    let _count = terms.len();
    match terms.sort(term) {
        Sort::Word(own) => {
            if own != width {
                return None;
            }
            Some(word_of(terms, bits, assignment, term).value())
        }
        Sort::Bool => None,
        Sort::Array(_, _) => None,
    }
}

/// The numbers of the indexes of a width.
fn numbers_of(
    alloc: Global,
    terms: &Terms,
    bits: &Bits,
    assignment: &Assignment,
    reached: &Reached,
    indexes: &Indexes,
    width: u32,
) -> Result<Vec<u128>, AllocError>
    requires bits { HaveBits terms.now.nodes bits.now (Contains reached.now) }
    requires closed { IsClosed (leads terms.now.nodes (image_in bits.now)) (Contains reached.now) }
    requires indexes { AreIndexesOf terms.now.nodes bits.now (Contains reached.now) indexes.now }
    ensures { IfOk result
        (λ numbers. AreTaken terms.now.nodes bits.now (Contains reached.now)
        (assigned_value terms.now.nodes bits.now (assigned assignment.now)) width numbers.items) }
{
    let mut numbers = Vec::new(alloc);
    for index in indexes.terms.as_slice() {
        let number = number_of(terms, bits, assignment, reached, *index, width);
        put(&mut numbers, number)?;
    }
    Ok(numbers)
}

/// The least number that is not among rising ones.
fn gap_of(numbers: &[u128]) -> u128
    requires { IsNonDecreasing numbers.now }
    ensures gap { IsGap numbers.now result }
{
    let mut gap = 0;
    for number in numbers {
        if *number > gap {
            return gap;
        }
        if *number == gap {
            gap += 1;
        }
    }
    gap
}

/// The least index of a width that no select and no store has, if there is one.
fn spare_of(
    alloc: Global,
    terms: &Terms,
    bits: &Bits,
    assignment: &Assignment,
    reached: &Reached,
    indexes: &Indexes,
    width: u32,
) -> Result<Option<Word>, AllocError>
    requires bits { HaveBits terms.now.nodes bits.now (Contains reached.now) }
    requires closed { IsClosed (leads terms.now.nodes (image_in bits.now)) (Contains reached.now) }
    requires indexes { AreIndexesOf terms.now.nodes bits.now (Contains reached.now) indexes.now }
    requires wide { (1 ≤ width) × (width ≤ 128) }
    ensures { IfOk result
        (IsSpareWord terms.now.nodes bits.now (Contains reached.now)
        (assigned_value terms.now.nodes bits.now (assigned assignment.now)) width) }
{
    let mut numbers = numbers_of(alloc, terms, bits, assignment, reached, indexes, width)?;
    numbers.sort_unstable();
    Ok(Word::new(width, gap_of(numbers.as_slice())))
}

/// The least index of each width of a constant array that no select and no store has, if there is
/// one.
pub fn spares_of(
    alloc: Global,
    terms: &Terms,
    bits: &Bits,
    assignment: &Assignment,
    reached: &Reached,
    indexes: &Indexes,
) -> Result<Vec<Word>, AllocError>
    requires bits { HaveBits terms.now.nodes bits.now (Contains reached.now) }
    requires closed { IsClosed (leads terms.now.nodes (image_in bits.now)) (Contains reached.now) }
    requires indexes { AreIndexesOf terms.now.nodes bits.now (Contains reached.now) indexes.now }
    ensures { IfOk result
        (λ spares. AreSpare terms.now.nodes (Contains reached.now) (image_in bits.now)
        (assigned_value terms.now.nodes bits.now (assigned assignment.now))
        (spare_in spares.items)) }
{
    let _count = terms.len();
    let mut spares = Vec::new(alloc);
    for width in indexes.widths.as_slice() {
        let spare = spare_of(alloc, terms, bits, assignment, reached, indexes, *width)?;
        put(&mut spares, spare)?;
    }
    Ok(spares)
}

/// The table of these accesses and spare indexes.
pub fn table_of(
    alloc: Global,
    terms: &Terms,
    bits: &Bits,
    assignment: &Assignment,
    live: &[TermId],
    reached: &Reached,
    rows: Vec<Landing>,
    spares: Vec<Word>,
) -> Result<AccessTable, AllocError>
    requires reach { IsReach (leads terms.now.nodes (image_in bits.now)) live.now reached.now }
    requires rows { AreClosedRows terms.now.nodes bits.now (assigned assignment.now) reached.now
        rows.items }
    requires congruent { AreCongruent terms.now.nodes (image_in bits.now) (Contains reached.now)
        (assigned_value terms.now.nodes bits.now (assigned assignment.now)) }
    requires apart { AreApart terms.now.nodes (image_in bits.now) (Contains reached.now)
        (assigned_value terms.now.nodes bits.now (assigned assignment.now)) }
    requires spares { AreSpare terms.now.nodes (Contains reached.now) (image_in bits.now)
        (assigned_value terms.now.nodes bits.now (assigned assignment.now))
        (spare_in spares.items) }
    ensures { IfOk result
        (IsWalkedTable terms.now.nodes bits.now (assigned assignment.now) live.now) }
{
    let reached_terms = Vec::from_slice(alloc, reached.terms())?;
    Ok(AccessTable::new(reached_terms, rows, spares))
}
