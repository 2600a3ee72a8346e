// A proof of the first format, written in the second.

ghost use Rattle.std.specs.Prelude.{◌≡◌, ◌≤◌, ◌<◌, ◌++◌, [], ℕ, IfOk, OnOk, MatchResult, length, get_or};
ghost use Rattle.std.specs.List.{AllByRecursion};
ghost use Rattle.proof_text.specs.Lines.{IsLine};
ghost use Rattle.proof_conversion.specs.Needs.{Known, deletion};
ghost use Rattle.proof_conversion.specs.Conversions.{IsConverted, IsUnconverted};
ghost use Rattle.proof_conversion.specs.Scans.{IsScan};
ghost use Rattle.proof_conversion.specs.Writing.{texts_behind, IsWritten};

use crate::deleting::{places_due, push_deletion};
use crate::fault::{Fault, Rule};
use crate::header::{Numbers, push_header, read_header};
use crate::scanning::{Scan, scan_parts};
use plain_list::List as Places;
use proof_text::reader::ProofReader;
use smt_text::text::Text;
use std::alloc::{AllocError, Global};

/// A proof of the second format, and how many records it has.
#[derive(Debug, Drop)]
pub struct Converted {
    pub proof: Text,
    pub records: u64,
}

/// Appends the texts of parts, each behind the deletion of what the part before it was the last to need.
fn push_parts(texts: &[Text], due: &[Places<u64>], out: &mut Text) -> Result<(), AllocError>
    requires { length texts.now ≤ length due.now }
    ensures text { OnOk result
        (out.new ≡ out.old ++ texts_behind (λ part. get_or due.now part []) 0 texts.now) }
    ensures lines { OnOk result ((part : ℕ) → part < length texts.now
        → AllByRecursion IsLine (deletion (get_or due.now part []))) }
{
    for part in 0..texts.len() {
        push_deletion(due[part].as_slice(), out)?;
        out.push_slice(texts[part].as_slice())?;
    }
    Ok(())
}

/// What was read, in the second format.
fn write(alloc: Global, numbers: Numbers, scan: &Scan) -> Result<Converted, AllocError>
    requires { (known : Known) × IsScan scan.now known
        × (length known.steps ≡ length known.last) }
    ensures { IfOk result (λ c. (known : Known) → IsScan scan.now known
        → IsWritten numbers known c.proof c.records) }
{
    let mut proof = Text::new(alloc);
    push_header(numbers, &mut proof)?;
    let due = places_due(
        alloc,
        scan.part,
        scan.steps.as_slice(),
        scan.last.as_slice(),
    )?;
    let texts = scan.texts.as_slice();
    push_parts(texts, due.as_slice(), &mut proof)?;
    Ok(Converted {
        proof,
        records: texts.len() as u64,
    })
}

/// A proof of the first format, by its lines, in the second; or its first bad line, where it is none.
pub fn convert(alloc: Global, text: &[u8]) -> Result<Result<Converted, Fault>, AllocError>
    ensures { IfOk result (λ r. MatchResult r
        (λ c. IsConverted text.now c.proof c.records) (IsUnconverted text.now)) }
{
    let mut reader = ProofReader::new(alloc);
    reader.feed(text)?;
    let Some(numbers) = read_header(&mut reader)? else {
        return Ok(Err(Fault {
            line: 1,
            rule: Rule::Header,
        }));
    };
    let (_, rest) = text.split_at(text.len() - reader.held());
    match scan_parts(alloc, &mut reader, rest)? {
        Ok(scan) => {
            let converted = write(alloc, numbers, &scan)?;
            Ok(Ok(converted))
        }
        Err(bad) => Ok(Err(bad)),
    }
}
