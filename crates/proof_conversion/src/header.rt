// The first line of a proof.

ghost use Rattle.std.specs.Prelude.{◌≡◌, ◌++◌, ℕ, List, IfOk, OnOk, MatchOption};
ghost use Rattle.proof_text.specs.declared.line.Format.TheVariants.{One, Two};
ghost use Rattle.proof_text.specs.declared.line.Line.TheVariants.{Header};
ghost use Rattle.proof_conversion.specs.declared.header.Numbers.{Numbers as Limits};
ghost use Rattle.proof_conversion.specs.Headers.{AreWithin, header_of};
ghost use Rattle.proof_conversion.specs.Conversions.{HasHeader};

use proof_text::line::{Format, Line};
use proof_text::reader::ProofReader;
use smt_text::number::push_number;
use smt_text::text::Text;
use std::alloc::AllocError;

/// How deep the cubes of a check are split, and how many clauses a cube may learn.
#[derive(Clone, Copy, Debug)]
pub struct Numbers {
    pub cubes: u64,
    pub budget: u64,
}

fn numbers_in(format: Format, cubes: u64, budget: u64) -> Option<Numbers>
    ensures { MatchOption result
        ((m : Limits) → AreWithin m
        → Header format cubes budget ≡ Header One m.cubes m.budget → ⊥)
        (λ n. AreWithin n
        × (Header format cubes budget ≡ Header One n.cubes n.budget)) }
{
    match format {
        Format::One => {
            if cubes <= 10 && budget <= 1_000_000_000 {
                return Some(Numbers { cubes, budget });
            }
            None
        }
        Format::Two => None,
    }
}

/// The numbers of a header of the first format; `None` exactly where the line is none, or has a number out of range.
fn numbers_of(first: &Line) -> Option<Numbers>
    ensures { MatchOption result
        ((m : Limits) → AreWithin m
        → first.now ≡ Header One m.cubes m.budget → ⊥)
        (λ n. AreWithin n × (first.now ≡ Header One n.cubes n.budget)) }
{
    match first {
        Line::Header {
            format,
            cubes,
            budget,
        } => numbers_in(*format, *cubes, *budget),
        _ => None,
    }
}

/// Takes the first line of a text, which has to be a header of the first format.
pub(crate) fn read_header(reader: &mut ProofReader) -> Result<Option<Numbers>, AllocError>
    requires { reader.old.line ≡ 1 }
    ensures { IfOk result (λ r. MatchOption r
        ((rest : List ℕ) → HasHeader reader.old.bytes rest → ⊥)
        (λ n. AreWithin n × (reader.new.line ≡ 2)
        × (reader.old.bytes ≡ header_of One n ++ reader.new.bytes))) }
{
    match reader.next()? {
        Some(Ok(line)) => Ok(numbers_of(&line)),
        Some(Err(_)) => Ok(None),
        None => Ok(None),
    }
}

/// Appends the header of the second format.
pub fn push_header(numbers: Numbers, out: &mut Text) -> Result<(), AllocError>
    ensures { OnOk result (out.new ≡ out.old ++ header_of Two numbers) }
{
    out.push_slice(b"smt_proof 2 cubes ")?;
    push_number(out, numbers.cubes)?;
    out.push_slice(b" budget ")?;
    push_number(out, numbers.budget)?;
    out.push(b'\n')
}
