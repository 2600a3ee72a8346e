// The lines of records.

ghost use Rattle.std.specs.Prelude.{◌≡◌, ◌++◌, length, take, map, OnOk, OnErr};
ghost use Rattle.std.specs.List.{flat_map, AllByRecursion};
ghost use Rattle.proof_text.specs.Lines.{line_text, IsLine};
ghost use Rattle.proof_text.specs.declared.line.Line.TheVariants.{Unknown};
ghost use Rattle.proof_text.specs.Records.{value_lines, diary_line, HasDigit, HaveDigits, record_lines};

pub use crate::value::push_value;
use crate::write::{push_line, push_spaced, push_with_number};
use cnf_base::Pos;
use plain_list::List;
use proof_log::diary::{Diary, DiaryLine};
use smt_terms::sort::DeclId;
use smt_text::print::whole_or_none;
use smt_text::text::Text;
use smt_values::Value;
use std::alloc::AllocError;

/// The values of the live declarations, by their numbers.
pub type DeclaredValues = List<(DeclId, Value)>;

/// What ends a check: a model's values, the place of a refutation, or the diary of a cube on which the budget was spent.
#[derive(Debug, Drop)]
pub enum Record {
    Sat(DeclaredValues),
    Unsat(Pos),
    Unknown(Diary),
}

fn push_declared(declaration: DeclId, value: &Value, out: &mut Text) -> Result<(), AllocError>
    ensures ok { OnOk result
        (out.new ≡ out.old ++ flat_map line_text (value_lines (declaration, value.now))) }
    ensures lines { OnOk result (HasDigit value.now
        → AllByRecursion IsLine (value_lines (declaration, value.now))) }
    ensures err { OnErr result (take (length out.old) out.new ≡ out.old) }
{
    push_with_number(out, b"v", declaration as u64)?;
    out.push(b' ')?;
    push_value(value, out)?;
    out.push(b'\n')
}

fn push_values(values: &[(DeclId, Value)], out: &mut Text) -> Result<(), AllocError>
    ensures ok { OnOk result
        (out.new ≡ out.old ++ flat_map line_text (flat_map value_lines values.now)) }
    ensures lines { OnOk result (AllByRecursion (λ p. HasDigit p.1) values.now
        → AllByRecursion IsLine (flat_map value_lines values.now)) }
    ensures err { OnErr result (take (length out.old) out.new ≡ out.old) }
{
    for pair in values {
        push_declared(pair.0, &pair.1, out)?;
    }
    Ok(())
}

fn push_diary_line(line: DiaryLine, out: &mut Text) -> Result<(), AllocError>
    ensures ok { OnOk result (out.new ≡ out.old ++ line_text (diary_line line)) }
    ensures line { IsLine (diary_line line) }
    ensures err { OnErr result (take (length out.old) out.new ≡ out.old) }
{
    match line {
        DiaryLine::Take(at) => push_line(out, b"=", at),
        DiaryLine::Put(at) => push_line(out, b"+", at),
        DiaryLine::Drop(at) => push_line(out, b"-", at),
    }
}

fn push_diary_lines(lines: &[DiaryLine], out: &mut Text) -> Result<(), AllocError>
    ensures ok { OnOk result (out.new ≡ out.old ++ flat_map line_text (map diary_line lines.now)) }
    ensures lines { OnOk result (AllByRecursion IsLine (map diary_line lines.now)) }
    ensures err { OnErr result (take (length out.old) out.new ≡ out.old) }
{
    for line in lines {
        push_diary_line(*line, out)?;
    }
    Ok(())
}

/// Appends the line that a diary begins with.
fn push_unknown(cube: u64, start: Pos, count: u64, out: &mut Text) -> Result<(), AllocError>
    ensures ok { OnOk result (out.new ≡ out.old ++ line_text (Unknown cube start count)) }
    ensures line { IsLine (Unknown cube start count) }
    ensures err { OnErr result (take (length out.old) out.new ≡ out.old) }
{
    push_with_number(out, b"unknown", cube)?;
    push_spaced(out, start)?;
    push_spaced(out, count)?;
    out.push(b'\n')
}

fn push_record(shown: &Record, out: &mut Text) -> Result<(), AllocError>
    ensures ok { OnOk result (out.new ≡ out.old ++ flat_map line_text (record_lines shown.now)) }
    ensures lines { OnOk result (HaveDigits shown.now
        → AllByRecursion IsLine (record_lines shown.now)) }
    ensures err { OnErr result (take (length out.old) out.new ≡ out.old) }
{
    match shown {
        Record::Sat(values) => {
            let values = values.as_slice();
            push_line(out, b"sat", values.len() as u64)?;
            push_values(values, out)
        }
        Record::Unsat(pos) => push_line(out, b"unsat", *pos),
        Record::Unknown(diary) => {
            let lines = diary.lines.as_slice();
            push_unknown(diary.cube as u64, diary.start, lines.len() as u64, out)?;
            push_diary_lines(lines, out)
        }
    }
}

/// Appends the lines of a record. They can be read, where each word has a digit.
pub fn write_record(shown: &Record, out: &mut Text) -> Result<(), AllocError>
    ensures ok { OnOk result (out.new ≡ out.old ++ flat_map line_text (record_lines shown.now)) }
    ensures lines { OnOk result (HaveDigits shown.now
        → AllByRecursion IsLine (record_lines shown.now)) }
    ensures err { OnErr result (out.new ≡ out.old) }
{
    let before = out.len();
    let written = push_record(shown, out);
    whole_or_none(out, before, written)
}
