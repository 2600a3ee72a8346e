// What is told of a drawn script that was answered.

ghost use Rattle.std.specs.Prelude.{◌≡◌, ◌≢◌, ◌≤◌};
ghost use Rattle.drill_script.specs.Summaries.{summary_of};
ghost use Rattle.smt_check.specs.Runs.{AddsTo};
ghost use Rattle.smt_run.specs.Commands.{stream};
ghost use Rattle.smt_run.specs.Drilling.{IsWritten, IsTold, status_unwritten};

use drill_script::kept::Kept;
use drill_script::summary::summary;
use smt_check::status::Status;
use smt_desk::stream::{Sink, write_whole};
use std::alloc::Global;
use tool_words::words::Draw;

/// Tells the summary of these responses behind a run that came to its end.
fn tell_summary<W: Sink>(
    alloc: Global,
    draw: Draw,
    responses: &[u8],
    solved: Status,
    answers: &mut W,
) -> Status
    ensures told { IsWritten (summary_of draw.seed draw.size responses.now) solved result
        (stream (W.written answers.old) (W.faults answers.old))
        (stream (W.written answers.new) (W.faults answers.new)) }
    ensures answers { AddsTo (W.written answers.old) (W.written answers.new) }
    ensures later { W.faults answers.old ≤ W.faults answers.new }
{
    let text = match summary(alloc, draw.seed, draw.size, responses) {
        Ok(text) => text,
        Err(_) => return Status::NoMemory,
    };
    match write_whole(answers, text.as_slice()) {
        Ok(()) => solved,
        Err(_) => Status::WriteFault,
    }
}

/// Why a run ended that did not write its proof, or what was to be kept.
fn status_unwritten(kept: &Kept) -> Status
    ensures { result ≡ status_unwritten kept.now.refused }
{
    if kept.refused() == 0 {
        Status::WriteFault
    } else {
        Status::NoMemory
    }
}

/// Tells the summary of what is kept of a run that came to its end, and nothing of any other.
pub(crate) fn tell<W: Sink>(
    alloc: Global,
    draw: Draw,
    solved: Status,
    kept: &Kept,
    answers: &mut W,
) -> Status
    ensures told { IsTold (summary_of draw.seed draw.size kept.now.bytes) kept.now.refused solved
        result (stream (W.written answers.old) (W.faults answers.old))
        (stream (W.written answers.new) (W.faults answers.new)) }
    ensures answers { AddsTo (W.written answers.old) (W.written answers.new) }
    ensures later { W.faults answers.old ≤ W.faults answers.new }
{
    match solved {
        Status::Done => tell_summary(alloc, draw, kept.bytes(), Status::Done, answers),
        Status::Refused => tell_summary(alloc, draw, kept.bytes(), Status::Refused, answers),
        Status::WriteFault => status_unwritten(kept),
        Status::Usage => Status::Usage,
        Status::ReadFault => Status::ReadFault,
        Status::NoMemory => Status::NoMemory,
        Status::TooLong => Status::TooLong,
    }
}
