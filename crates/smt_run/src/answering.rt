// Commands and their answers.

ghost use Rattle.std.specs.Prelude.{◌≡◌, false, if◌then◌else◌, [], ◌∷◌, IfOk, IfErr, option_to_list};
ghost use Rattle.smt_text.specs.Framing.{last_chunk};
ghost use Rattle.smt_check.specs.Runs.{AddsTo, IsLater, HasCause, counts};
ghost use Rattle.smt_run.specs.Solving.{StopsWriting};
ghost use Rattle.smt_run.specs.Adding.{moment_of, streams, with_piece, Advances, BreaksAt, AdvancesWithin, BreaksWithin, AddsLast};

use cube_workers::Gate;
use smt_check::status::Status;
use smt_desk::stream::{Sink, write_whole};
use smt_session::response::Stop;
use smt_session::session::Session;
use smt_text::chunk::Chunk;
use smt_text::framer::Framer;
use std::alloc::Global;
use std::sync::Wait;
use std::thread::Threads;

/// A session, whether an error was among its responses, and whether the last command ended the run.
#[derive(Drop)]
pub(crate) struct Answered {
    pub(crate) session: Session,
    pub(crate) refused: bool,
    pub(crate) ended: bool,
}

impl Answered {
    /// Lets the session go, and tells whether an error was among its responses.
    pub(crate) fn end(self) -> bool
        ensures { result ≡ self.refused }
    {
        let refused = self.refused;
        drop(self);
        refused
    }
}

/// The status of a run that came to its end.
pub(crate) fn end_status(refused: bool) -> Status
    ensures { result ≡ (if refused then Status.Refused else Status.Done) }
{
    if refused {
        Status::Refused
    } else {
        Status::Done
    }
}

/// Answers a command. The error is the status of a run that ends here.
fn answer<R: Threads + Wait + Sync, W: Sink, Q: Sink, G: Gate + Sync>(
    rt: &R,
    alloc: Global,
    so_far: Answered,
    chunk: &Chunk,
    answers: &mut W,
    proof: &mut Q,
    gate: &G,
) -> Result<Answered, Status>
    ensures turn { IfOk result
        (λ r. Advances (moment_of so_far.session) so_far.refused r
        (streams (W.written answers.old) (Q.written proof.old))
        (streams (W.written answers.new) (Q.written proof.new)) (chunk.now ∷ [])) }
    ensures broken { IfErr result
        (λ _. BreaksAt (moment_of so_far.session)
        (streams (W.written answers.old) (Q.written proof.old))
        (streams (W.written answers.new) (Q.written proof.new)) (chunk.now ∷ [])) }
    ensures answers { AddsTo (W.written answers.old) (W.written answers.new) }
    ensures proof { AddsTo (Q.written proof.old) (Q.written proof.new) }
    ensures later { IsLater (counts 0 (W.faults answers.old) (Q.faults proof.old))
        (counts 0 (W.faults answers.new) (Q.faults proof.new)) }
    ensures stopped { IfErr result StopsWriting }
    ensures cause { IfErr result
        (HasCause (counts 0 (W.faults answers.old) (Q.faults proof.old))
        (counts 0 (W.faults answers.new) (Q.faults proof.new))) }
{
    let (session, response) = match so_far.session.command(rt, alloc, chunk, proof, gate) {
        Ok(answered) => answered,
        Err(Stop::Failed) => return Err(Status::WriteFault),
        Err(Stop::NoMemory) => return Err(Status::NoMemory),
    };
    match write_whole(answers, response.text.as_slice()) {
        Ok(()) => {}
        Err(_) => {
            drop(session);
            return Err(Status::WriteFault);
        }
    }
    let refused = so_far.refused || response.error;
    let ended = response.ends;
    Ok(Answered {
        session,
        refused,
        ended,
    })
}

/// Answers each whole command that is held, up to the one that ends the run.
fn answer_held<R: Threads + Wait + Sync, W: Sink, Q: Sink, G: Gate + Sync>(
    rt: &R,
    alloc: Global,
    so_far: Answered,
    framer: &mut Framer,
    answers: &mut W,
    proof: &mut Q,
    gate: &G,
) -> Result<Answered, Status>
    requires { so_far.ended ≡ false }
    ensures turns { IfOk result
        (λ r. AdvancesWithin framer.old framer.new (moment_of so_far.session) so_far.refused r
        (streams (W.written answers.old) (Q.written proof.old))
        (streams (W.written answers.new) (Q.written proof.new))) }
    ensures broken { IfErr result
        (λ _. BreaksWithin framer.old (moment_of so_far.session)
        (streams (W.written answers.old) (Q.written proof.old))
        (streams (W.written answers.new) (Q.written proof.new))) }
    ensures answers { AddsTo (W.written answers.old) (W.written answers.new) }
    ensures proof { AddsTo (Q.written proof.old) (Q.written proof.new) }
    ensures later { IsLater (counts 0 (W.faults answers.old) (Q.faults proof.old))
        (counts 0 (W.faults answers.new) (Q.faults proof.new)) }
    ensures stopped { IfErr result StopsWriting }
    ensures cause { IfErr result
        (HasCause (counts 0 (W.faults answers.old) (Q.faults proof.old))
        (counts 0 (W.faults answers.new) (Q.faults proof.new))) }
{
    let mut so_far = so_far;
    'commands: while !so_far.ended {
        let Ok(next) = framer.next() else {
            drop(so_far);
            return Err(Status::NoMemory);
        };
        let Some(chunk) = next else {
            break;
        };
        so_far = answer(rt, alloc, so_far, &chunk, answers, proof, gate)?;
    }
    Ok(so_far)
}

/// Takes the next piece of the script, and answers each command that is then whole, up to the one that ends the run.
pub(crate) fn answer_piece<R: Threads + Wait + Sync, W: Sink, Q: Sink, G: Gate + Sync>(
    rt: &R,
    alloc: Global,
    so_far: Answered,
    framer: &mut Framer,
    piece: &[u8],
    answers: &mut W,
    proof: &mut Q,
    gate: &G,
) -> Result<Answered, Status>
    requires { so_far.ended ≡ false }
    ensures turns { IfOk result
        (λ r. AdvancesWithin (with_piece framer.old piece.now) framer.new (moment_of so_far.session)
        so_far.refused r (streams (W.written answers.old) (Q.written proof.old))
        (streams (W.written answers.new) (Q.written proof.new))) }
    ensures broken { IfErr result
        (λ _. BreaksWithin (with_piece framer.old piece.now) (moment_of so_far.session)
        (streams (W.written answers.old) (Q.written proof.old))
        (streams (W.written answers.new) (Q.written proof.new))) }
    ensures answers { AddsTo (W.written answers.old) (W.written answers.new) }
    ensures proof { AddsTo (Q.written proof.old) (Q.written proof.new) }
    ensures later { IsLater (counts 0 (W.faults answers.old) (Q.faults proof.old))
        (counts 0 (W.faults answers.new) (Q.faults proof.new)) }
    ensures stopped { IfErr result StopsWriting }
    ensures cause { IfErr result
        (HasCause (counts 0 (W.faults answers.old) (Q.faults proof.old))
        (counts 0 (W.faults answers.new) (Q.faults proof.new))) }
{
    let Ok(()) = framer.feed(piece) else {
        drop(so_far);
        return Err(Status::NoMemory);
    };
    answer_held(rt, alloc, so_far, framer, answers, proof, gate)
}

/// Answers what the end of the script closes, and tells whether an error was among the responses.
pub(crate) fn answer_rest<R: Threads + Wait + Sync, W: Sink, Q: Sink, G: Gate + Sync>(
    rt: &R,
    alloc: Global,
    so_far: Answered,
    framer: &mut Framer,
    answers: &mut W,
    proof: &mut Q,
    gate: &G,
) -> Result<bool, Status>
    ensures turns { IfOk result
        (λ r. AddsLast (moment_of so_far.session) so_far.refused
        (streams (W.written answers.old) (Q.written proof.old))
        (streams (W.written answers.new) (Q.written proof.new))
        (option_to_list (last_chunk framer.old)) r) }
    ensures broken { IfErr result
        (λ _. BreaksAt (moment_of so_far.session)
        (streams (W.written answers.old) (Q.written proof.old))
        (streams (W.written answers.new) (Q.written proof.new))
        (option_to_list (last_chunk framer.old))) }
    ensures answers { AddsTo (W.written answers.old) (W.written answers.new) }
    ensures proof { AddsTo (Q.written proof.old) (Q.written proof.new) }
    ensures later { IsLater (counts 0 (W.faults answers.old) (Q.faults proof.old))
        (counts 0 (W.faults answers.new) (Q.faults proof.new)) }
    ensures stopped { IfErr result StopsWriting }
    ensures cause { IfErr result
        (HasCause (counts 0 (W.faults answers.old) (Q.faults proof.old))
        (counts 0 (W.faults answers.new) (Q.faults proof.new))) }
{
    let Ok(last) = framer.finish() else {
        drop(so_far);
        return Err(Status::NoMemory);
    };
    match last {
        Some(chunk) => Ok(answer(rt, alloc, so_far, &chunk, answers, proof, gate)?.end()),
        None => Ok(so_far.end()),
    }
}
