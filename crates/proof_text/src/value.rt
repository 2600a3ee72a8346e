// The text of values.

ghost use Rattle.std.specs.Prelude.{◌≡◌, ◌++◌, ◌≤◌, ◌∷◌, length, take, map, IfSome, OnOk, OnErr};
ghost use Rattle.std.specs.List.{flat_map};
ghost use Rattle.proof_text.specs.Lines.{spaced, digit_of, digits_text, scalar_text, entry_words, value_text};
ghost use Rattle.proof_text.specs.Records.{binary, digits_of, written_scalar, written_entry, row_scalars, written_value};

use smt_terms::scalar::Scalar;
use smt_text::text::Text;
use smt_values::{ArrayValue, FunTable, Row, Value};
use smt_words::Word;
use std::alloc::AllocError;

/// Appends so many low binary digits of a number, the highest first.
fn push_digits(width: u32, number: u128, out: &mut Text) -> Result<(), AllocError>
    requires { width ≤ 128 }
    ensures ok { OnOk result (out.new ≡ out.old ++ map digit_of (binary width number)) }
    ensures err { OnErr result (take (length out.old) out.new ≡ out.old) }
{
    if width == 0 {
        return Ok(());
    }
    let rest = width - 1;
    out.push(if (number >> rest) % 2 == 1 {
        b'1'
    } else {
        b'0'
    })?;
    push_digits(rest, number, out)
}

/// Appends the digits of a word.
pub fn push_word(word: Word, out: &mut Text) -> Result<(), AllocError>
    ensures ok { OnOk result (out.new ≡ out.old ++ digits_text (digits_of word)) }
    ensures err { OnErr result (take (length out.old) out.new ≡ out.old) }
{
    out.push_slice(b"#b")?;
    push_digits(word.width(), word.value(), out)
}

/// Appends a truth value, or the digits of a word.
pub fn push_scalar(scalar: Scalar, out: &mut Text) -> Result<(), AllocError>
    ensures ok { OnOk result (out.new ≡ out.old ++ scalar_text (written_scalar scalar)) }
    ensures err { OnErr result (take (length out.old) out.new ≡ out.old) }
{
    match scalar {
        Scalar::Bool(true) => out.push_slice(b"true"),
        Scalar::Bool(false) => out.push_slice(b"false"),
        Scalar::Word(word) => push_word(word, out),
    }
}

fn push_spaced_word(word: Word, out: &mut Text) -> Result<(), AllocError>
    ensures ok { OnOk result (out.new ≡ out.old ++ 32 ∷ digits_text (digits_of word)) }
    ensures err { OnErr result (take (length out.old) out.new ≡ out.old) }
{
    out.push(b' ')?;
    push_word(word, out)
}

fn push_spaced_scalar(scalar: Scalar, out: &mut Text) -> Result<(), AllocError>
    ensures ok { OnOk result (out.new ≡ out.old ++ 32 ∷ scalar_text (written_scalar scalar)) }
    ensures err { OnErr result (take (length out.old) out.new ≡ out.old) }
{
    out.push(b' ')?;
    push_scalar(scalar, out)
}

fn push_entry(index: Word, element: Word, out: &mut Text) -> Result<(), AllocError>
    ensures ok { OnOk result
        (out.new ≡ out.old ++ spaced (entry_words (written_entry (index, element)))) }
    ensures err { OnErr result (take (length out.old) out.new ≡ out.old) }
{
    push_spaced_word(index, out)?;
    push_spaced_word(element, out)
}

fn push_entries(entries: &[(Word, Word)], out: &mut Text) -> Result<(), AllocError>
    ensures ok { OnOk result
        (out.new ≡ out.old ++ spaced (flat_map entry_words (map written_entry entries.now))) }
    ensures err { OnErr result (take (length out.old) out.new ≡ out.old) }
{
    for entry in entries {
        push_entry(entry.0, entry.1, out)?;
    }
    Ok(())
}

fn push_array(array: &ArrayValue, out: &mut Text) -> Result<(), AllocError>
    ensures ok { OnOk result
        (IfSome (written_value (Value.Array array.now)) (λ v. out.new ≡ out.old ++ value_text v)) }
    ensures err { OnErr result (take (length out.old) out.new ≡ out.old) }
{
    out.push(b'a')?;
    push_spaced_word(array.default(), out)?;
    push_entries(array.entries(), out)
}

fn push_scalars(scalars: &[Scalar], out: &mut Text) -> Result<(), AllocError>
    ensures ok { OnOk result
        (out.new ≡ out.old ++ spaced (map scalar_text (map written_scalar scalars.now))) }
    ensures err { OnErr result (take (length out.old) out.new ≡ out.old) }
{
    for scalar in scalars {
        push_spaced_scalar(*scalar, out)?;
    }
    Ok(())
}

fn push_row(row: &Row, out: &mut Text) -> Result<(), AllocError>
    ensures ok { OnOk result (out.new ≡ out.old ++ spaced (map scalar_text (row_scalars row.now))) }
    ensures err { OnErr result (take (length out.old) out.new ≡ out.old) }
{
    push_scalars(row.args.as_slice(), out)?;
    push_spaced_scalar(row.value, out)
}

fn push_rows(rows: &[Row], out: &mut Text) -> Result<(), AllocError>
    ensures ok { OnOk result
        (out.new ≡ out.old ++ spaced (map scalar_text (flat_map row_scalars rows.now))) }
    ensures err { OnErr result (take (length out.old) out.new ≡ out.old) }
{
    for row in rows {
        push_row(row, out)?;
    }
    Ok(())
}

fn push_table(table: &FunTable, out: &mut Text) -> Result<(), AllocError>
    ensures ok { OnOk result
        (IfSome (written_value (Value.Fun table.now)) (λ v. out.new ≡ out.old ++ value_text v)) }
    ensures err { OnErr result (take (length out.old) out.new ≡ out.old) }
{
    out.push(b'f')?;
    push_spaced_scalar(table.default(), out)?;
    push_rows(table.rows(), out)
}

/// Appends a value as it stands in a line. An error may leave the first bytes of it.
pub fn push_value(value: &Value, out: &mut Text) -> Result<(), AllocError>
    ensures ok { OnOk result
        (IfSome (written_value value.now) (λ v. out.new ≡ out.old ++ value_text v)) }
    ensures err { OnErr result (take (length out.old) out.new ≡ out.old) }
{
    match value {
        Value::Bool(true) => out.push_slice(b"true"),
        Value::Bool(false) => out.push_slice(b"false"),
        Value::Word(word) => push_word(*word, out),
        Value::Array(array) => push_array(array, out),
        Value::Fun(table) => push_table(table, out),
    }
}
