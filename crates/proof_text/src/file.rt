// The lines of a whole proof file.

ghost use Rattle.std.specs.Prelude.{◌≡◌, List, IfOk, IfErr};
ghost use Rattle.std.specs.List.{flat_map, AllByRecursion};
ghost use Rattle.proof_text.specs.Lines.{line_text, IsLine};
ghost use Rattle.proof_text.specs.Held.{IsFirstFault};
ghost use Rattle.proof_text.specs.declared.line.Line.{Line};

use crate::line::Line;
use crate::reader::{LineFault, ProofReader};
use smt_text::text::Text;
use std::alloc::{AllocError, Global};

/// The lines of a proof file that comes in these pieces, or its first fault.
pub fn lines(alloc: Global, pieces: &[Text]) -> Result<Result<Vec<Line>, LineFault>, AllocError>
    // However it was cut into pieces, the file is the printing of these lines.
    ensures printed { IfOk result
        (λ r. IfOk r (λ v. AllByRecursion IsLine v.items
        × (flat_map (λ piece. piece) pieces.now ≡ flat_map line_text v.items))) }
    // And of no others.
    ensures only { IfOk result
        (λ r. IfOk r (λ v. (others : List Line) → AllByRecursion IsLine others
        → flat_map (λ piece. piece) pieces.now ≡ flat_map line_text others → v.items ≡ others)) }
    // Which line is the first that is none.
    ensures fault { IfOk result
        (λ r. IfErr r (λ f. IsFirstFault (flat_map (λ piece. piece) pieces.now) f.line)) }
    // A file with a fault is the printing of no lines.
    ensures none { IfOk result
        (λ r. IfErr r (λ f. (others : List Line) → AllByRecursion IsLine others
        → flat_map (λ piece. piece) pieces.now ≡ flat_map line_text others → ⊥)) }
{
    let mut reader = ProofReader::new(alloc);
    let mut out = Vec::new(alloc);
    'pieces: for piece in pieces {
        reader.feed(piece.as_slice())?;
        'whole: while let Some(answer) = reader.next()? {
            match answer {
                Ok(line) => out.push(line)?,
                Err(fault) => return Ok(Err(fault)),
            }
        }
    }
    match reader.finish() {
        Some(fault) => Ok(Err(fault)),
        None => Ok(Ok(out)),
    }
}
