// The two texts of a check, fed in pieces: a script, and the proof of it.

ghost use Rattle.std.specs.Prelude.{◌≡◌, ◌++◌, OnOk, IfOk, false, true};
ghost use Rattle.proof_checker.specs.Checkings.{IsSameScript, IsSameProof, GivesLine, GivesChunk};

use proof_text::line::Line;
use proof_text::reader::{LineFault, ProofReader};
use smt_text::chunk::Chunk;
use smt_text::framer::Framer;
use std::alloc::{AllocError, Global};

/// What is held of both texts, and whether more of them may come.
#[derive(Drop)]
pub(crate) struct Inputs {
    pub(crate) framer: Framer,
    pub(crate) script_ended: bool,
    /// A command ended the run, and no more of the script is read.
    pub(crate) run_ended: bool,
    pub(crate) reader: ProofReader,
    pub(crate) proof_ended: bool,
}

/// The next line of the proof, if there is one and it is held.
#[derive(Drop)]
pub(crate) enum NextLine {
    Line(Result<Line, LineFault>),
    /// The proof has no further line.
    End,
    /// More of the proof has to come first.
    More,
}

/// The next chunk of the script, if there is one and it is held.
#[derive(Drop)]
pub(crate) enum NextChunk {
    Chunk(Chunk),
    /// No further chunk of the script is read.
    End,
    /// More of the script has to come first.
    More,
}

impl Inputs {
    /// The next line. One that the end of the proof leaves without its line feed is a fault.
    pub(crate) fn next_line(&mut self, alloc: Global) -> Result<NextLine, AllocError>
        ensures same { IsSameScript self.old self.new }
        ensures line { IfOk result (λ r. GivesLine self.old self.new r) }
    {
        if let Some(line) = self.reader.next()? {
            return Ok(NextLine::Line(line));
        }
        if !self.proof_ended {
            return Ok(NextLine::More);
        }
        match self.reader.finish() {
            Some(fault) => {
                self.reader = ProofReader::new(alloc);
                Ok(NextLine::Line(Err(fault)))
            }
            None => Ok(NextLine::End),
        }
    }

    /// The next chunk. One that is begun is closed by the end of the script. Where the run ended there is none.
    pub(crate) fn next_chunk(&mut self) -> Result<NextChunk, AllocError>
        ensures same { IsSameProof self.old self.new }
        ensures chunk { IfOk result (λ r. GivesChunk self.old self.new r) }
    {
        if self.run_ended {
            return Ok(NextChunk::End);
        }
        if let Some(chunk) = self.framer.next()? {
            return Ok(NextChunk::Chunk(chunk));
        }
        if !self.script_ended {
            return Ok(NextChunk::More);
        }
        match self.framer.finish()? {
            Some(chunk) => Ok(NextChunk::Chunk(chunk)),
            None => Ok(NextChunk::End),
        }
    }
}
