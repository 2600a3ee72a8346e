// A script, read in pieces, each command answered before the next read.

ghost use Rattle.std.specs.Prelude.{◌<◌, IfOk, IfErr, IfSome, MatchResult, length};
ghost use Rattle.smt_session.specs.Sessions.{AreSettings, limits_of};
ghost use Rattle.smt_check.specs.Runs.{AddsTo, IsLater, HasCause, counts};
ghost use Rattle.smt_run.specs.Solving.{IsRead, FailsToRead};
ghost use Rattle.smt_run.specs.Adding.{streams, AnswersAll, AnswersFront, AnswersRead};
ghost use Rattle.smt_run.specs.Beside.{IsReadOut};

use crate::answering::{Answered, answer_piece, answer_rest};
use cube_workers::Gate;
use smt_check::reading::{INPUT_LIMIT, read_piece};
use smt_check::status::Status;
use smt_desk::meter::Meter;
use smt_desk::stream::{Sink, Source};
use smt_session::session::Session;
use smt_session::settings::Settings;
use smt_text::framer::Framer;
use std::alloc::Global;
use std::sync::Wait;
use std::thread::Threads;

/// Answers a script to its end, or to the command that ends the run, and tells whether an error was among the responses. The
/// error is the status of a run that stops before. The script is read into the buffer, piece by piece.
pub(crate) fn answer_script<R: Threads + Wait + Sync, S: Source, W: Sink, Q: Sink, G: Gate + Sync>(
    rt: &R,
    alloc: Global,
    settings: Settings,
    buffer: &mut [u8],
    script: &mut S,
    answers: &mut W,
    proof: &mut Q,
    gate: &G,
) -> Result<bool, Status>
    requires room { 0 < length buffer.old }
    requires settings { AreSettings settings }
    ensures read { IsRead (S.left script.old) (S.left script.new) result }
    ensures read_out { IfOk result (λ _. IsReadOut (S.left script.old) (S.left script.new)) }
    ensures turns { IfSome (S.left script.old) (λ text. MatchResult result
        (λ refused. AnswersAll (limits_of settings) text
        (streams (W.written answers.old) (Q.written proof.old))
        (streams (W.written answers.new) (Q.written proof.new)) refused)
        (λ _. AnswersFront (limits_of settings) text
        (streams (W.written answers.old) (Q.written proof.old))
        (streams (W.written answers.new) (Q.written proof.new)))) }
    ensures answered { IfErr result (λ t. FailsToRead t → IfSome (S.left script.old) (λ text.
        AnswersRead (limits_of settings) t (S.left script.new) text
        (streams (W.written answers.old) (Q.written proof.old))
        (streams (W.written answers.new) (Q.written proof.new)))) }
    ensures answers { AddsTo (W.written answers.old) (W.written answers.new) }
    ensures proof { AddsTo (Q.written proof.old) (Q.written proof.new) }
    ensures later { IsLater
        (counts (S.faults script.old) (W.faults answers.old) (Q.faults proof.old))
        (counts (S.faults script.new) (W.faults answers.new) (Q.faults proof.new)) }
    ensures cause { IfErr result
        (HasCause (counts (S.faults script.old) (W.faults answers.old) (Q.faults proof.old))
        (counts (S.faults script.new) (W.faults answers.new) (Q.faults proof.new))) }
{
    let mut framer = Framer::new(alloc);
    let session = Session::new(alloc, settings)?;
    let mut so_far = Answered {
        session,
        refused: false,
        ended: false,
    };
    let mut meter = Meter::new(INPUT_LIMIT);
    'pieces: while !so_far.ended {
        let size = match read_piece(script, buffer, &mut meter) {
            Ok(size) => size,
            Err(status) => {
                drop(so_far);
                return Err(status);
            }
        };
        if size == 0 {
            return answer_rest(rt, alloc, so_far, &mut framer, answers, proof, gate);
        }
        let piece = &buffer[..size];
        so_far = answer_piece(rt, alloc, so_far, &mut framer, piece, answers, proof, gate)?;
    }
    Ok(so_far.end())
}
