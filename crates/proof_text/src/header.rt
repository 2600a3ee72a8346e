// The first line of a proof file.

ghost use Rattle.std.specs.Prelude.{◌≡◌, ◌++◌, length, take, OnOk, OnErr};
ghost use Rattle.proof_text.specs.Lines.{format_text, line_text};
ghost use Rattle.proof_text.specs.declared.line.Line.TheVariants.{Header};

use crate::line::Format;
use crate::write::push_with_number;
use smt_text::print::whole_or_none;
use smt_text::text::Text;
use std::alloc::AllocError;

/// The word of a format.
fn format_word(format: Format) -> &'static [u8]
    ensures { result.now ≡ format_text format }
{
    match format {
        Format::One => b"1",
        Format::Two => b"2",
    }
}

fn push_header(format: Format, cubes: u64, budget: u64, out: &mut Text) -> Result<(), AllocError>
    ensures ok { OnOk result (out.new ≡ out.old ++ line_text (Header format cubes budget)) }
    ensures err { OnErr result (take (length out.old) out.new ≡ out.old) }
{
    out.push_slice(b"smt_proof ")?;
    out.push_slice(format_word(format))?;
    push_with_number(out, b" cubes", cubes)?;
    push_with_number(out, b" budget", budget)?;
    out.push(b'\n')
}

/// Appends the header of a format: how deep the cubes of a check are split, and how many clauses a cube may learn.
pub fn write_header(
    format: Format,
    cubes: u64,
    budget: u64,
    out: &mut Text,
) -> Result<(), AllocError>
    ensures ok { OnOk result (out.new ≡ out.old ++ line_text (Header format cubes budget)) }
    ensures err { OnErr result (out.new ≡ out.old) }
{
    let before = out.len();
    let written = push_header(format, cubes, budget, out);
    whole_or_none(out, before, written)
}
