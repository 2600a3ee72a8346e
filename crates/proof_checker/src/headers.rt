// The first line of a proof.

ghost use Rattle.std.specs.Prelude.{◌≡◌, IfOk, MatchOption, MatchResult};
ghost use Rattle.accepted_proof.specs.Searching as searching;
ghost use Rattle.proof_text.specs.declared.line.Format.{Format as Version};
ghost use Rattle.accepted_proof.specs.Judged.{IsHeader, bad_header};
ghost use Rattle.check_cubes.specs.Searches.{limits_of};
ghost use Rattle.proof_checker.specs.Checkers.{line_in, no_records};

use crate::checker::Checker;
use crate::deletions::Deleted;
use crate::due::Due;
use crate::kept::KeptInterp;
use accepted_proof::refusal::{Refusal, RuleName};
use check_cubes::Limits;
use diary_checker::DiaryStart;
use faded_log::FadedLog;
use proof_text::line::{Format, Line};
use proof_text::reader::LineFault;
use script_state::state::State;
use std::alloc::{AllocError, Global};
use term_reach::Reached;

/// The format and the limits of a header; nothing where the line is none, or has a number out of range.
fn header_parts(first: &Result<Line, LineFault>) -> Option<(Format, Limits)>
    ensures { MatchOption result
        ((format : Version) (limits : searching.Limits)
        → IsHeader (line_in first.now) format limits → ⊥)
        (λ r. IsHeader (line_in first.now) r.0 (limits_of r.1)) }
{
    match first {
        Ok(
            Line::Header {
                format,
                cubes,
                budget,
            },
        ) => match Limits::within(*cubes, *budget) {
            Some(limits) => Some((*format, limits)),
            None => None,
        },
        _ => None,
    }
}

impl Checker {
    /// A checker behind the first line of a proof, or the refusal of a first line that is no header.
    pub fn new(
        alloc: Global,
        first: &Result<Line, LineFault>,
    ) -> Result<Result<Checker, Refusal>, AllocError>
        ensures { IfOk result (λ r. MatchResult r
            (λ c. (format : Version) × (limits : searching.Limits)
            × IsHeader (line_in first.now) format limits × (c ≡ no_records format limits))
            (λ f. ((format : Version) (limits : searching.Limits)
            → IsHeader (line_in first.now) format limits → ⊥) × (f ≡ bad_header))) }
    {
        let Some((format, limits)) = header_parts(first) else {
            return Ok(Err(Refusal {
                line: 1,
                rule: RuleName::Header,
            }));
        };
        let state = Box::new(alloc, State::new(alloc))?;
        let log = Box::new(alloc, FadedLog::new(alloc)?)?;
        Ok(Ok(Checker {
            format,
            limits,
            state,
            log,
            deleted: Deleted::none(alloc),
            due: Due::Nothing,
            values: Vec::new(alloc),
            line: 2,
            verdicts: Vec::new(alloc),
            reached: Reached::new(alloc),
            kept: KeptInterp::new(alloc),
            start: DiaryStart::new(alloc),
        }))
    }
}
