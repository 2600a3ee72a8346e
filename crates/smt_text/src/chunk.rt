// A piece of a script.

use crate::text::Text;

/// What a chunk is: a whole command, text outside a command, or a command that the end of input cut off.
#[derive(Clone, Copy, Debug, PartialEq, Eq)]
pub enum ChunkKind {
    Balanced,
    Stray,
    Unfinished,
}

/// Where a chunk stands: behind how many bytes, and how many it has.
#[derive(Clone, Copy, Debug)]
pub struct Cut {
    pub kind: ChunkKind,
    pub before: usize,
    pub size: usize,
}

/// A chunk, with the line of its first byte, counted from 1.
#[derive(Debug, Drop)]
pub struct Chunk {
    pub line: u64,
    pub kind: ChunkKind,
    pub text: Text,
}
