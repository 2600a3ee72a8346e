// The texts of values and of definitions (SMT-LIB 2.6, section 4.2.6).

ghost use Rattle.std.specs.Prelude.{◌≡◌, ◌++◌, ◌==◌, [], OnOk, OnErr, Some, codes, false, if◌then◌else◌, length, replicate, take};
ghost use Rattle.std.specs.List.{flat_map};
ghost use Rattle.smt_eval.specs.Evaluated.{is_table};
ghost use Rattle.smt_values.specs.Arrays.{array_value};
ghost use Rattle.smt_values.specs.Held.{meaning};
ghost use Rattle.accepted_proof.specs.Answers.{sort_text, constant_text, meaning_text, parameter_name, parameter_text, equality_text, listed, condition_text, rows_text, value_text, definition_by};
ghost use Rattle.accepted_proof.specs.Printed.{store_opening, store_ending, row_opening};

use proof_text::value::{push_scalar, push_word};
use smt_terms::scalar::Scalar;
use smt_terms::sort::{Signature, Sort};
use smt_text::number::push_number;
use smt_text::print::print_symbol;
use smt_text::text::Text;
use smt_values::{ArrayValue, FunTable, Row, Value};
use smt_words::Word;
use std::alloc::AllocError;

/// Appends the sort of words of a width.
fn push_word_sort(width: u32, out: &mut Text) -> Result<(), AllocError>
    ensures ok { OnOk result (out.new ≡ out.old ++ sort_text (Sort.Word width)) }
    ensures err { OnErr result (take (length out.old) out.new ≡ out.old) }
{
    out.push_slice(b"(_ BitVec ")?;
    push_number(out, width as u64)?;
    out.push(b')')
}

/// Appends a sort.
fn push_sort(sort: Sort, out: &mut Text) -> Result<(), AllocError>
    ensures ok { OnOk result (out.new ≡ out.old ++ sort_text sort) }
    ensures err { OnErr result (take (length out.old) out.new ≡ out.old) }
{
    match sort {
        Sort::Bool => out.push_slice(b"Bool"),
        Sort::Word(width) => push_word_sort(width, out),
        Sort::Array(index, element) => {
            out.push_slice(b"(Array ")?;
            push_word_sort(index, out)?;
            out.push(b' ')?;
            push_word_sort(element, out)?;
            out.push(b')')
        }
    }
}

// ---- arrays

/// Appends the array with an element at every index.
fn push_constant(index: u32, element: Word, out: &mut Text) -> Result<(), AllocError>
    ensures ok { OnOk result
        (out.new ≡ out.old ++ constant_text index element.width element.value) }
    ensures err { OnErr result (take (length out.old) out.new ≡ out.old) }
{
    out.push_slice(b"((as const ")?;
    push_sort(Sort::Array(index, element.width()), out)?;
    out.push_slice(b") ")?;
    push_word(element, out)?;
    out.push(b')')
}

/// Appends what stands before an array into which an element is stored, if it is not the default.
fn push_opening(element: Word, default: u128, out: &mut Text) -> Result<(), AllocError>
    ensures ok { OnOk result (out.new ≡ out.old ++ store_opening default element) }
    ensures err { OnErr result (take (length out.old) out.new ≡ out.old) }
{
    if element.value() == default {
        return Ok(());
    }
    out.push_slice(b"(store ")
}

/// Appends what stands behind it.
fn push_ending(index: Word, element: Word, default: u128, out: &mut Text) -> Result<(), AllocError>
    ensures ok { OnOk result (out.new ≡ out.old ++ store_ending default (index, element)) }
    ensures err { OnErr result (take (length out.old) out.new ≡ out.old) }
{
    if element.value() == default {
        return Ok(());
    }
    out.push(b' ')?;
    push_word(index, out)?;
    out.push(b' ')?;
    push_word(element, out)?;
    out.push(b')')
}

fn push_openings(entries: &[(Word, Word)], default: u128, out: &mut Text) -> Result<(), AllocError>
    ensures ok { OnOk result
        (out.new ≡ out.old ++ flat_map (λ e. store_opening default e.1) entries.now) }
    ensures err { OnErr result (take (length out.old) out.new ≡ out.old) }
{
    for entry in entries {
        push_opening(entry.1, default, out)?;
    }
    Ok(())
}

fn push_endings(entries: &[(Word, Word)], default: u128, out: &mut Text) -> Result<(), AllocError>
    ensures ok { OnOk result (out.new ≡ out.old ++ flat_map (store_ending default) entries.now) }
    ensures err { OnErr result (take (length out.old) out.new ≡ out.old) }
{
    for entry in entries {
        push_ending(entry.0, entry.1, default, out)?;
    }
    Ok(())
}

/// Appends an array: the held entries that are not its default, stored into a constant array.
fn push_array(array: &ArrayValue, out: &mut Text) -> Result<(), AllocError>
    ensures ok { OnOk result (out.new ≡ out.old ++ meaning_text (array_value array.now)) }
    ensures err { OnErr result (take (length out.old) out.new ≡ out.old) }
{
    let index = array.index_width();
    let default = array.default();
    push_openings(array.entries(), default.value(), out)?;
    push_constant(index, default, out)?;
    push_endings(array.entries(), default.value(), out)
}

// ---- tables

/// Appends a space in front of each of a list but the first.
fn push_gap(place: usize, out: &mut Text) -> Result<(), AllocError>
    ensures ok { OnOk result (out.new ≡ out.old ++ (if place == 0 then [] else codes " ")) }
    ensures err { OnErr result (take (length out.old) out.new ≡ out.old) }
{
    if place == 0 {
        return Ok(());
    }
    out.push(b' ')
}

/// Appends the name of a parameter.
fn push_name(place: usize, out: &mut Text) -> Result<(), AllocError>
    ensures ok { OnOk result (out.new ≡ out.old ++ parameter_name place) }
    ensures err { OnErr result (take (length out.old) out.new ≡ out.old) }
{
    out.push_slice(b"x!")?;
    push_number(out, place as u64)
}

/// Appends a parameter with its sort.
fn push_parameter(place: usize, sort: Sort, out: &mut Text) -> Result<(), AllocError>
    ensures ok { OnOk result (out.new ≡ out.old ++ parameter_text place sort) }
    ensures err { OnErr result (take (length out.old) out.new ≡ out.old) }
{
    out.push(b'(')?;
    push_name(place, out)?;
    out.push(b' ')?;
    push_sort(sort, out)?;
    out.push(b')')
}

fn push_parameters(sorts: &[Sort], out: &mut Text) -> Result<(), AllocError>
    ensures ok { OnOk result (out.new ≡ out.old ++ listed parameter_text sorts.now) }
    ensures err { OnErr result (take (length out.old) out.new ≡ out.old) }
{
    for place in 0..sorts.len() {
        push_gap(place, out)?;
        push_parameter(place, sorts[place], out)?;
    }
    Ok(())
}

/// Appends that a parameter has a value.
fn push_equality(place: usize, value: Scalar, out: &mut Text) -> Result<(), AllocError>
    ensures ok { OnOk result (out.new ≡ out.old ++ equality_text place value) }
    ensures err { OnErr result (take (length out.old) out.new ≡ out.old) }
{
    out.push_slice(b"(= ")?;
    push_name(place, out)?;
    out.push(b' ')?;
    push_scalar(value, out)?;
    out.push(b')')
}

fn push_equalities(values: &[Scalar], out: &mut Text) -> Result<(), AllocError>
    ensures ok { OnOk result (out.new ≡ out.old ++ listed equality_text values.now) }
    ensures err { OnErr result (take (length out.old) out.new ≡ out.old) }
{
    for place in 0..values.len() {
        push_gap(place, out)?;
        push_equality(place, values[place], out)?;
    }
    Ok(())
}

/// Appends that the parameters have these values.
fn push_condition(values: &[Scalar], out: &mut Text) -> Result<(), AllocError>
    ensures ok { OnOk result (out.new ≡ out.old ++ condition_text values.now) }
    ensures err { OnErr result (take (length out.old) out.new ≡ out.old) }
{
    if values.len() == 1 {
        return push_equalities(values, out);
    }
    out.push_slice(b"(and ")?;
    push_equalities(values, out)?;
    out.push(b')')
}

/// Appends a row, up to the value where it does not apply.
fn push_row(row: &Row, out: &mut Text) -> Result<(), AllocError>
    ensures ok { OnOk result (out.new ≡ out.old ++ row_opening row.now) }
    ensures err { OnErr result (take (length out.old) out.new ≡ out.old) }
{
    out.push_slice(b"(ite ")?;
    push_condition(row.args.as_slice(), out)?;
    out.push(b' ')?;
    push_scalar(row.value, out)?;
    out.push(b' ')
}

fn push_rows(rows: &[Row], out: &mut Text) -> Result<(), AllocError>
    ensures ok { OnOk result (out.new ≡ out.old ++ flat_map row_opening rows.now) }
    ensures err { OnErr result (take (length out.old) out.new ≡ out.old) }
{
    for row in rows {
        push_row(row, out)?;
    }
    Ok(())
}

/// Appends so many closing parentheses.
fn push_closings(count: usize, out: &mut Text) -> Result<(), AllocError>
    ensures ok { OnOk result (out.new ≡ out.old ++ replicate count 41) }
    ensures err { OnErr result (take (length out.old) out.new ≡ out.old) }
{
    for _ in 0..count {
        out.push(b')')?;
    }
    Ok(())
}

/// Appends the value of a function at its parameters.
fn push_table(table: &FunTable, out: &mut Text) -> Result<(), AllocError>
    ensures ok { OnOk result (out.new ≡ out.old ++ rows_text table.now.default table.now.rows) }
    ensures err { OnErr result (take (length out.old) out.new ≡ out.old) }
{
    let rows = table.rows();
    push_rows(rows, out)?;
    push_scalar(table.default(), out)?;
    push_closings(rows.len(), out)
}

// ---- definitions

/// Appends the value of a constant, or of a function at its parameters.
fn push_body(value: &Value, out: &mut Text) -> Result<(), AllocError>
    ensures ok { OnOk result (out.new ≡ out.old ++ value_text value.now) }
    ensures err { OnErr result (take (length out.old) out.new ≡ out.old) }
{
    match value {
        Value::Bool(holds) => push_scalar(Scalar::Bool(*holds), out),
        Value::Word(word) => push_word(*word, out),
        Value::Array(array) => push_array(array, out),
        Value::Fun(table) => push_table(table, out),
    }
}

/// Appends the line of the definition of a declared name. An error may leave the first bytes of it.
pub fn push_definition(
    name: &[u8],
    signature: &Signature,
    value: &Value,
    out: &mut Text,
) -> Result<(), AllocError>
    ensures ok { OnOk result
        (out.new ≡ out.old ++ definition_by name.now (Some signature.now) (Some value.now)) }
    ensures err { OnErr result (take (length out.old) out.new ≡ out.old) }
{
    out.push_slice(b"(define-fun ")?;
    print_symbol(name, out)?;
    out.push_slice(b" (")?;
    push_parameters(signature.args.as_slice(), out)?;
    out.push_slice(b") ")?;
    push_sort(signature.value, out)?;
    out.push(b' ')?;
    push_body(value, out)?;
    out.push_slice(b")\n")
}

/// Appends the value of a term. An error may leave the first bytes of it.
pub fn push_meaning(value: &Value, out: &mut Text) -> Result<(), AllocError>
    requires { is_table value.now ≡ false }
    ensures ok { OnOk result (out.new ≡ out.old ++ meaning_text (meaning value.now)) }
    ensures err { OnErr result (take (length out.old) out.new ≡ out.old) }
{
    match value {
        Value::Bool(holds) => push_scalar(Scalar::Bool(*holds), out),
        Value::Word(word) => push_word(*word, out),
        Value::Array(array) => push_array(array, out),
        Value::Fun(_) => unreachable!(),
    }
}
