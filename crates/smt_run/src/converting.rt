// A proof of the first format, read and written in the second, with its status.

ghost use Rattle.std.specs.Prelude.{◌≡◌, ◌≢◌, ◌+◌, ◌<◌, ◌≤◌, IfOk, IfErr, OnOk, MatchResult, length};
ghost use Rattle.std.specs.Io.KnownBytes.{Appends, Consumes, IsAtEnd};
ghost use Rattle.smt_check.specs.Runs.{AddsTo, ReadsBytes, ReadsWithin, IsLater, HasCause, counts, input_limit};
ghost use Rattle.smt_check.specs.Checks.{StopsReading};
ghost use Rattle.smt_run.specs.Beside.{Told};
ghost use Rattle.smt_run.specs.Commands.{IsEnd};
ghost use Rattle.smt_run.specs.Converting.{rule_text, refusal_text, records_text, Becomes, IsLeft, AddsFronts};

use crate::running::{PIECE, zeros};
use proof_conversion::converting::convert;
use proof_conversion::fault::{Fault, Rule};
use smt_check::reading::{INPUT_LIMIT, read_piece};
use smt_check::status::Status;
use smt_desk::meter::Meter;
use smt_desk::stream::{Failed, Sink, Source, write_whole};
use smt_text::number::push_number;
use smt_text::text::Text;
use std::alloc::{AllocError, Global};

/// All bytes of a proof, which is read into the buffer piece by piece.
fn read_whole<P: Source>(alloc: Global, buffer: &mut [u8], proof: &mut P) -> Result<Text, Status>
    requires { 0 < length buffer.old }
    ensures whole { IfOk result
        (λ text. Consumes (P.left proof.old) (P.left proof.new) text × IsAtEnd (P.left proof.new)) }
    ensures read { MatchResult result (λ _. ReadsWithin (P.left proof.old) (P.left proof.new))
        (StopsReading input_limit (P.left proof.old) (P.left proof.new)) }
    ensures later { P.faults proof.old ≤ P.faults proof.new }
    ensures cause { IfErr result
        (HasCause (counts (P.faults proof.old) 0 0) (counts (P.faults proof.new) 0 0)) }
{
    let mut text = Text::new(alloc);
    let mut meter = Meter::new(INPUT_LIMIT);
    'pieces: loop {
        let size = match read_piece(proof, buffer, &mut meter) {
            Ok(size) => size,
            Err(status) => {
                drop(text);
                return Err(status);
            }
        };
        if size == 0 {
            return Ok(text);
        }
        match text.push_slice(&buffer[..size]) {
            Ok(()) => {}
            Err(_) => {
                drop(text);
                return Err(Status::NoMemory);
            }
        }
    }
}

/// The name of a rule that a proof breaks.
fn rule_text(rule: Rule) -> &'static [u8]
    ensures { result.now ≡ rule_text rule }
{
    match rule {
        Rule::Header => b"header",
        Rule::Line => b"line",
        Rule::End => b"end",
    }
}

/// The line that tells the first bad line of a proof.
fn refusal_line(alloc: Global, fault: Fault) -> Result<Text, AllocError>
    ensures { IfOk result (λ t. t ≡ refusal_text fault) }
{
    let mut text = Text::from_slice(alloc, b"refused line ")?;
    push_number(&mut text, fault.line)?;
    text.push_slice(b" rule ")?;
    text.push_slice(rule_text(fault.rule))?;
    text.push_slice(b"\n")?;
    Ok(text)
}

/// The line that tells how many records were converted.
fn records_line(alloc: Global, records: u64) -> Result<Text, AllocError>
    ensures { IfOk result (λ t. t ≡ records_text records) }
{
    let mut text = Text::from_slice(alloc, b"converted ")?;
    push_number(&mut text, records)?;
    text.push_slice(b"\n")?;
    Ok(text)
}

/// What a text becomes: the line that is told of it, what is written, and the status.
#[derive(Drop)]
struct Ending {
    line: Text,
    proof: Text,
    status: Status,
}

/// What a text becomes.
fn ending_of(alloc: Global, text: &[u8]) -> Result<Ending, AllocError>
    ensures { IfOk result (λ e. Becomes text.now e.line e.proof e.status) }
{
    match convert(alloc, text)? {
        Ok(converted) => {
            let line = records_line(alloc, converted.records)?;
            Ok(Ending {
                line,
                proof: converted.proof,
                status: Status::Done,
            })
        }
        Err(fault) => {
            let line = refusal_line(alloc, fault)?;
            Ok(Ending {
                line,
                proof: Text::new(alloc),
                status: Status::Refused,
            })
        }
    }
}

/// Writes what a text becomes, and then tells the line.
fn write_ending<W: Sink, Q: Sink>(
    ending: &Ending,
    answers: &mut W,
    out: &mut Q,
) -> Result<(), Failed>
    ensures answers { OnOk result
        (Appends (W.written answers.old) (W.written answers.new) ending.now.line) }
    ensures out { OnOk result (Appends (Q.written out.old) (Q.written out.new) ending.now.proof) }
    ensures fronts { IfErr result (λ _. AddsFronts ending.now.line ending.now.proof
        (W.written answers.old) (W.written answers.new) (Q.written out.old) (Q.written out.new)) }
    ensures later { IsLater (counts 0 (W.faults answers.old) (Q.faults out.old))
        (counts 0 (W.faults answers.new) (Q.faults out.new)) }
    ensures cause { IfErr result (λ _. HasCause
        (counts 0 (W.faults answers.old) (Q.faults out.old))
        (counts 0 (W.faults answers.new) (Q.faults out.new)) Status.WriteFault) }
{
    write_whole(out, ending.proof.as_slice())?;
    write_whole(answers, ending.line.as_slice())
}

/// Reads a proof of the first format and writes it in the second, and tells how many records it has, or its first bad line.
pub(crate) fn convert_proof<P: Source, W: Sink, Q: Sink>(
    alloc: Global,
    proof: &mut P,
    answers: &mut W,
    out: &mut Q,
) -> Status
    ensures usage { result ≢ Status.Usage }
    ensures becomes { Told (P.left proof.old) (W.written answers.old) (W.written answers.new)
        (Q.written out.old) (Q.written out.new)
        (λ text told written. IsLeft text told written result) }
    ensures at_end { IsEnd result → IsAtEnd (P.left proof.new) }
    ensures within { result ≢ Status.TooLong → ReadsWithin (P.left proof.old) (P.left proof.new) }
    ensures too_long { result ≡ Status.TooLong
        → ReadsBytes (input_limit + 1) (P.left proof.old) (P.left proof.new) }
    ensures answers { AddsTo (W.written answers.old) (W.written answers.new) }
    ensures out { AddsTo (Q.written out.old) (Q.written out.new) }
    ensures later { IsLater
        (counts (P.faults proof.old) (W.faults answers.old) (Q.faults out.old))
        (counts (P.faults proof.new) (W.faults answers.new) (Q.faults out.new)) }
    ensures cause { HasCause
        (counts (P.faults proof.old) (W.faults answers.old) (Q.faults out.old))
        (counts (P.faults proof.new) (W.faults answers.new) (Q.faults out.new)) result }
{
    let mut buffer = match zeros(alloc, PIECE) {
        Ok(buffer) => buffer,
        Err(_) => return Status::NoMemory,
    };
    let text = match read_whole(alloc, &mut buffer, proof) {
        Ok(text) => text,
        Err(status) => return status,
    };
    let ending = match ending_of(alloc, text.as_slice()) {
        Ok(ending) => ending,
        Err(_) => return Status::NoMemory,
    };
    match write_ending(&ending, answers, out) {
        Ok(()) => ending.status,
        Err(_) => Status::WriteFault,
    }
}
