// A script, fed in pieces and given back in chunks.

ghost use Rattle.std.specs.Prelude.{◌≡◌, ◌+◌, ◌<◌, ◌≤◌, ◌++◌, [], length, drop, None, Some, MatchOption, IfOk, OnOk, OnErr, List};
ghost use Rattle.std.specs.List.{flat_map};
ghost use Rattle.smt_text.specs.Framing.{lines_in};
ghost use Rattle.smt_text.specs.Script.{AreChunks};

use crate::chunk::Chunk;
use crate::find::{Progress, cut_off, find, last};
use crate::held::HeldBytes;
use crate::scan::lines_in;
use crate::text::Text;
use std::alloc::{AllocError, Global};
use std::marker::Model;

/// Cuts a script into chunks, in whatever pieces it is fed.
#[derive(Drop)]
pub struct Framer {
    alloc: Global,
    held: HeldBytes,
    /// How many of the bytes were searched, and what they end in.
    searched: usize,
    progress: Progress,
}

impl Model for Framer {
    ghost use Rattle.std.specs.Prelude.{◌≤◌, length};
    ghost use Rattle.smt_text.specs.Framing.{Held, Searched};

    ghost Value = { Held };

    ghost view = { λ f. f.held };

    ghost invariant = { λ f. (f.searched ≤ length f.held.bytes)
        × Searched f.held.bytes f.searched f.progress };
}

impl Framer {
    ghost use Rattle.smt_text.specs.Framing.{first_chunk, last_chunk};

    /// Nothing was fed yet.
    pub fn new(alloc: Global) -> Framer
        ensures { result ≡ record { line = 1; bytes = [] } }
    {
        Framer {
            alloc,
            held: HeldBytes::new(alloc),
            searched: 0,
            progress: Progress::Blank(false),
        }
    }

    /// Takes the next piece of the script. Want of memory is also the answer where its lines could not be counted.
    pub fn feed(&mut self, piece: &[u8]) -> Result<(), AllocError>
        ensures line { self.new.line ≡ self.old.line }
        ensures ok { OnOk result (self.new.bytes ≡ self.old.bytes ++ piece.now) }
        ensures err { OnErr result (self.new ≡ self.old) }
    {
        self.held.feed(piece)
    }

    /// The next whole chunk; `None` exactly where none is held.
    pub fn next(&mut self) -> Result<Option<Chunk>, AllocError>
        ensures ok { IfOk result (λ r. MatchOption r
            ((first_chunk self.old ≡ None) × (self.new ≡ self.old))
            (λ chunk. first_chunk self.old ≡ Some (chunk, self.new))) }
        ensures err { OnErr result (self.new ≡ self.old) }
    {
        let rest = self.held.bytes();
        match find(rest, self.searched, self.progress) {
            Err(progress) => {
                self.searched = rest.len();
                self.progress = progress;
                Ok(None)
            }
            Ok(cut) => {
                let (chunk, line) = cut_off(self.alloc, self.held.line(), rest, cut)?;
                self.held.give(cut.before + cut.size, line);
                self.searched = 0;
                self.progress = Progress::Blank(false);
                Ok(Some(chunk))
            }
        }
    }

    /// The chunk that the end of input closes, if one is begun, once no whole chunk is held. Then nothing is held.
    pub fn finish(&mut self) -> Result<Option<Chunk>, AllocError>
        ensures ok { IfOk result (λ r. r ≡ last_chunk self.old) }
        ensures after { OnOk result
            (self.new ≡ record { line = self.old.line + lines_in self.old.bytes; bytes = [] }) }
        ensures err { OnErr result (self.new ≡ self.old) }
    {
        let rest = self.held.bytes();
        let line = self.held.line();
        let chunk = last(self.alloc, line, rest)?;
        let (size, end) = (rest.len(), line + lines_in(rest));
        self.held.give(size, end);
        self.searched = 0;
        self.progress = Progress::Blank(false);
        Ok(chunk)
    }
}

/// The chunks of a script that comes in these pieces.
pub fn chunks(alloc: Global, pieces: &[Text]) -> Result<Vec<Chunk>, AllocError>
    // However it was cut into pieces, these are the chunks of the whole.
    ensures split { IfOk result (λ v. AreChunks (flat_map (λ piece. piece) pieces.now) v.items) }
    // And no others are.
    ensures only { IfOk result (λ v. (others : List Chunk)
        → AreChunks (flat_map (λ piece. piece) pieces.now) others → v.items ≡ others) }
{
    let mut framer = Framer::new(alloc);
    let mut out = Vec::new(alloc);
    'pieces: for piece in pieces {
        framer.feed(piece.as_slice())?;
        'whole: while let Some(chunk) = framer.next()? {
            out.push(chunk)?;
        }
    }
    if let Some(chunk) = framer.finish()? {
        out.push(chunk)?;
    }
    Ok(out)
}
