// The values that are written on lines.

ghost use Rattle.std.specs.Prelude.{◌≡◌, ◌<◌, ◌≤◌, ◌^◌, ◌+◌, List, length, map, Some, IfOk, MatchBool, MatchOption};
ghost use Rattle.std.specs.List.{AllByRecursion};
ghost use Rattle.smt_words.specs.Words.{IsWidth, WordValue};
ghost use Rattle.smt_values.specs.Arrays.{Entry as HeldEntry, ArrayFields, IsOfWidth, IsEntry};
ghost use Rattle.std.specs.declared.cmp.Ordering.TheVariants.{Less};
ghost use Rattle.smt_terms.specs.declared.scalar.Scalar.{Scalar as HeldScalar};
ghost use Rattle.smt_values.specs.declared.table.Row.{Row as HeldRow};
ghost use Rattle.smt_values.specs.Tables.{TableFields, args_cmp};
ghost use Rattle.smt_values.specs.Held.{value_of};
ghost use Rattle.smt_values.specs.declared.value.Value.{Value as Held};
ghost use Rattle.proof_text.specs.Records.{binary, digits_of, written_scalar, written_entry, row_scalars, written_value};
ghost use Rattle.accepted_proof.specs.Models.{IsOfKind, AreOfKinds, IsRowOf, IsOfSignature};
ghost use Rattle.proof_checker.specs.Written.{IsArrayOf, IsWrittenTable};

use proof_text::line::WrittenValue;
use proof_text::list::{WrittenEntry, WrittenScalar};
use smt_terms::scalar::Scalar;
use smt_terms::sort::{Signature, Sort};
use smt_values::{ArrayValue, FunTable, Row, Scalars, Value, compare};
use smt_words::Word;
use std::alloc::{AllocError, Global};

/// The number of these binary digits, the highest first.
fn number(digits: &[bool]) -> u128
    requires { length digits.now ≤ 128 }
    ensures small { result < 2 ^ length digits.now }
    ensures digits { binary (length digits.now) result ≡ digits.now }
{
    let mut number = 0u128;
    for digit in digits {
        number = 2 * number + if *digit { 1 } else { 0 };
    }
    number
}

/// Whether there are words of this width.
fn is_width(width: u32) -> bool
    ensures { MatchBool result (IsWidth width) (IsWidth width → ⊥) }
{
    0 < width && width <= 128
}

/// The word of this width that is written so; nothing where it has more digits or fewer.
fn word_of(width: u32, digits: &[bool]) -> Option<Word>
    requires { IsWidth width }
    ensures { MatchOption result
        ((w : WordValue) → IsOfWidth width w → digits_of w ≡ digits.now → ⊥)
        (λ w. IsOfWidth width w × (digits_of w ≡ digits.now)) }
{
    if digits.len() != width as usize {
        return None;
    }
    Some(Word::new(width, number(digits)).unwrap())
}

/// The index and the element of these widths that are written so.
fn entry_of(index: u32, element: u32, written: &WrittenEntry) -> Option<(Word, Word)>
    requires index { IsWidth index }
    requires element { IsWidth element }
    ensures { MatchOption result
        ((e : HeldEntry) → IsEntry index element e → written_entry e ≡ written.now → ⊥)
        (λ e. IsEntry index element e × (written_entry e ≡ written.now)) }
{
    let place = word_of(index, written.index.as_slice())?;
    let value = word_of(element, written.element.as_slice())?;
    Some((place, value))
}

/// Whether an index is above all that the array holds.
fn is_above(array: &ArrayValue, place: Word) -> bool
    ensures { MatchBool result
        (AllByRecursion (λ (e : HeldEntry). e.0.value < place.value) array.now.entries)
        (AllByRecursion (λ (e : HeldEntry). e.0.value < place.value) array.now.entries → ⊥) }
{
    let _index = array.index_width();
    let entries = array.entries();
    if entries.is_empty() {
        return true;
    }
    entries[entries.len() - 1].0.value() < place.value()
}

/// The array of these widths that is written so, whose indexes rise.
fn array_of(
    alloc: Global,
    index: u32,
    element: u32,
    default: &[bool],
    entries: &[WrittenEntry],
) -> Result<Option<ArrayValue>, AllocError>
    requires index { IsWidth index }
    requires element { IsWidth element }
    ensures { IfOk result (λ o. MatchOption o
        ((a : ArrayFields) → IsArrayOf index element default.now entries.now a → ⊥)
        (λ a. IsArrayOf index element default.now entries.now a)) }
{
    let Some(default) = word_of(element, default) else {
        return Ok(None);
    };
    let mut array = ArrayValue::constant(alloc, index, default);
    for entry in entries {
        let Some((place, value)) = entry_of(index, element, entry) else {
            return Ok(None);
        };
        if !is_above(&array, place) {
            return Ok(None);
        }
        array.set(place, value)?;
    }
    let _index = array.index_width();
    Ok(Some(array))
}

/// The array of this sort that is written so, if it is a sort of arrays.
fn array_value(
    alloc: Global,
    sort: Sort,
    default: &[bool],
    entries: &[WrittenEntry],
) -> Result<Option<Value>, AllocError>
    ensures { IfOk result (λ o. MatchOption o
        ((v : Held) → IsOfKind sort v
        → written_value v ≡ Some (WrittenValue.Array default.now entries.now) → ⊥)
        (λ v. IsOfKind sort v
        × (written_value v ≡ Some (WrittenValue.Array default.now entries.now)))) }
{
    let Sort::Array(index, element) = sort else {
        return Ok(None);
    };
    if !is_width(index) || !is_width(element) {
        return Ok(None);
    }
    match array_of(alloc, index, element, default, entries)? {
        Some(array) => Ok(Some(Value::Array(array))),
        None => Ok(None),
    }
}

/// The truth value or word of this sort that is written so.
fn scalar_of(sort: Sort, written: &WrittenScalar) -> Option<Scalar>
    ensures { MatchOption result
        ((s : HeldScalar) → IsOfKind sort (value_of s) → written_scalar s ≡ written.now → ⊥)
        (λ s. IsOfKind sort (value_of s) × (written_scalar s ≡ written.now)) }
{
    match written {
        WrittenScalar::Bool(holds) => match sort {
            Sort::Bool => Some(Scalar::Bool(*holds)),
            _ => None,
        },
        WrittenScalar::Word(digits) => {
            let Sort::Word(width) = sort else {
                return None;
            };
            if !is_width(width) {
                return None;
            }
            let word = word_of(width, digits.as_slice())?;
            Some(Scalar::Word(word))
        }
    }
}

/// The arguments of these sorts that are written so.
fn arguments_of(
    alloc: Global,
    sorts: &[Sort],
    written: &[WrittenScalar],
) -> Result<Option<Scalars>, AllocError>
    requires { length written.now ≡ length sorts.now }
    ensures { IfOk result (λ o. MatchOption o
        ((vs : List HeldScalar) → AreOfKinds sorts.now vs → map written_scalar vs ≡ written.now → ⊥)
        (λ vs. AreOfKinds sorts.now vs × (map written_scalar vs ≡ written.now))) }
{
    let mut made = Vec::new(alloc);
    for at in 0..sorts.len() {
        let Some(found) = scalar_of(sorts[at], &written[at]) else {
            return Ok(None);
        };
        made.push(found)?;
    }
    Ok(Some(Scalars::from_vec(made)))
}

/// The row of a function that is written so.
fn row_of(
    alloc: Global,
    signature: &Signature,
    written: &[WrittenScalar],
) -> Result<Option<Row>, AllocError>
    requires { length written.now ≡ length signature.now.args + 1 }
    ensures { IfOk result (λ o. MatchOption o
        ((r : HeldRow) → IsRowOf signature.now.args signature.now.value r
        → row_scalars r ≡ written.now → ⊥)
        (λ r. IsRowOf signature.now.args signature.now.value r × (row_scalars r ≡ written.now))) }
{
    let sorts = signature.args.as_slice();
    let (first, rest) = written.split_at(sorts.len());
    let Some(value) = scalar_of(signature.value, &rest[0]) else {
        return Ok(None);
    };
    match arguments_of(alloc, sorts, first)? {
        Some(args) => Ok(Some(Row { args, value })),
        None => Ok(None),
    }
}

/// Whether arguments are above those of all rows.
fn are_above(table: &FunTable, args: &[Scalar]) -> bool
    ensures { MatchBool result
        (AllByRecursion (λ (r : HeldRow). args_cmp r.args args.now ≡ Less) table.now.rows)
        (AllByRecursion (λ (r : HeldRow). args_cmp r.args args.now ≡ Less) table.now.rows → ⊥) }
{
    let rows = table.rows();
    if rows.is_empty() {
        return true;
    }
    compare(rows[rows.len() - 1].args.as_slice(), args).is_lt()
}

/// The table of a function that is written so, whose rows rise.
fn table_of(
    alloc: Global,
    signature: &Signature,
    default: &WrittenScalar,
    values: &[WrittenScalar],
) -> Result<Option<FunTable>, AllocError>
    ensures { IfOk result (λ o. MatchOption o
        ((t : TableFields) → IsWrittenTable signature.now default.now values.now t → ⊥)
        (λ t. IsWrittenTable signature.now default.now values.now t)) }
{
    let Some(default) = scalar_of(signature.value, default) else {
        return Ok(None);
    };
    let width = signature.args.as_slice().len() + 1;
    let mut table = FunTable::constant(alloc, default);
    let mut left = values;
    'rows: while !left.is_empty() {
        if left.len() < width {
            return Ok(None);
        }
        let (first, rest) = left.split_at(width);
        let Some(row) = row_of(alloc, signature, first)? else {
            return Ok(None);
        };
        if !are_above(&table, row.args.as_slice()) {
            return Ok(None);
        }
        table.set(row.args, row.value)?;
        left = rest;
    }
    Ok(Some(table))
}

/// The value of a constant of this sort that is written so.
fn constant_of(
    alloc: Global,
    sort: Sort,
    written: &WrittenValue,
) -> Result<Option<Value>, AllocError>
    ensures { IfOk result (λ o. MatchOption o
        ((v : Held) → IsOfKind sort v → written_value v ≡ Some written.now → ⊥)
        (λ v. IsOfKind sort v × (written_value v ≡ Some written.now))) }
{
    match written {
        WrittenValue::Bool(holds) => match sort {
            Sort::Bool => Ok(Some(Value::Bool(*holds))),
            _ => Ok(None),
        },
        WrittenValue::Word(digits) => {
            let Sort::Word(width) = sort else {
                return Ok(None);
            };
            if !is_width(width) {
                return Ok(None);
            }
            match word_of(width, digits.as_slice()) {
                Some(word) => Ok(Some(Value::Word(word))),
                None => Ok(None),
            }
        }
        WrittenValue::Array { default, entries } => {
            array_value(alloc, sort, default.as_slice(), entries.as_slice())
        }
        WrittenValue::Fun {
            default: _,
            values: _,
        } => Ok(None),
    }
}

/// The value of a declaration that is written so; nothing where there is none.
pub fn value_of(
    alloc: Global,
    signature: &Signature,
    written: &WrittenValue,
) -> Result<Option<Value>, AllocError>
    ensures { IfOk result (λ o. MatchOption o
        ((v : Held) → IsOfSignature v (Some signature.now) → written_value v ≡ Some written.now → ⊥)
        (λ v. IsOfSignature v (Some signature.now) × (written_value v ≡ Some written.now))) }
{
    if signature.args.as_slice().is_empty() {
        return constant_of(alloc, signature.value, written);
    }
    let WrittenValue::Fun { default, values } = written else {
        return Ok(None);
    };
    match table_of(alloc, signature, default, values.as_slice())? {
        Some(table) => Ok(Some(Value::Fun(table))),
        None => Ok(None),
    }
}
