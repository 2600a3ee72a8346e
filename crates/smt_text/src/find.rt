// The search for the first whole chunk, which goes on where it was left.

ghost use Rattle.std.specs.Prelude.{◌≡◌, ◌≢◌, ◌+◌, ◌-◌, ◌<◌, ◌≤◌, ◌^◌, length, take, drop, slice_index, Some, None, false, MatchResult, IfOk};
ghost use Rattle.smt_text.specs.Search.{Passes};
ghost use Rattle.smt_text.specs.Chunks.{beginning, first_cut};
ghost use Rattle.smt_text.specs.Framing.{Searched, cut_off, last_chunk};

use crate::chunk::{Chunk, ChunkKind, Cut};
use crate::place::Place;
use crate::scan::{lines_in, pass_blank, pass_inside, pass_stray};
use crate::text::Text;
use std::alloc::{AllocError, Global};

/// What the bytes that were searched so far end in: white space, or in a comment; a command; stray text.
#[derive(Clone, Copy, Debug)]
pub enum Progress {
    Blank(bool),
    Command(usize, Place, u64),
    Text(usize),
}

/// Searches on. `Ok` has the first whole chunk, and `Err` how far the search has come.
pub fn find(bytes: &[u8], searched: usize, progress: Progress) -> Result<Cut, Progress>
    requires within { searched ≤ length bytes.now }
    requires small { length bytes.now < 2 ^ 63 }
    requires searched { Searched bytes.now searched progress }
    ensures within { IfOk result (λ cut. cut.before + cut.size ≤ length bytes.now) }
    ensures search { MatchResult result
        (λ cut. first_cut bytes.now ≡ Some cut)
        (λ p. (first_cut bytes.now ≡ None) × Searched bytes.now (length bytes.now) p) }
{
    match progress {
        Progress::Blank(comment) => match pass_blank(comment, &bytes[searched..]) {
            Ok(n) => begin(bytes, searched + n),
            Err(comment) => Err(Progress::Blank(comment)),
        },
        Progress::Command(start, place, depth) => command(bytes, start, searched, place, depth),
        Progress::Text(start) => stray(bytes, start, searched),
    }
}

fn begin(bytes: &[u8], start: usize) -> Result<Cut, Progress>
    requires within { start < length bytes.now }
    requires small { length bytes.now < 2 ^ 63 }
    requires begins { beginning false bytes.now ≡ Some start }
    ensures within { IfOk result (λ cut. cut.before + cut.size ≤ length bytes.now) }
    ensures search { MatchResult result
        (λ cut. first_cut bytes.now ≡ Some cut)
        (λ p. (first_cut bytes.now ≡ None) × Searched bytes.now (length bytes.now) p) }
{
    match bytes[start] {
        b'(' => command(bytes, start, start + 1, Place::Plain, 0),
        b')' => Ok(Cut {
            kind: ChunkKind::Stray,
            before: start,
            size: 1,
        }),
        _ => stray(bytes, start, start + 1),
    }
}

fn command(
    bytes: &[u8],
    start: usize,
    searched: usize,
    place: Place,
    depth: u64,
) -> Result<Cut, Progress>
    requires within { searched ≤ length bytes.now }
    requires small { length bytes.now < 2 ^ 63 }
    requires searched { Searched bytes.now searched (Progress.Command start place depth) }
    ensures within { IfOk result (λ cut. cut.before + cut.size ≤ length bytes.now) }
    ensures search { MatchResult result
        (λ cut. first_cut bytes.now ≡ Some cut)
        (λ p. (first_cut bytes.now ≡ None) × Searched bytes.now (length bytes.now) p) }
{
    match pass_inside(place, depth, &bytes[searched..]) {
        Ok(n) => Ok(Cut {
            kind: ChunkKind::Balanced,
            before: start,
            size: searched + n + 1 - start,
        }),
        Err((place, depth)) => Err(Progress::Command(start, place, depth)),
    }
}

fn stray(bytes: &[u8], start: usize, searched: usize) -> Result<Cut, Progress>
    requires within { searched ≤ length bytes.now }
    requires small { length bytes.now < 2 ^ 63 }
    requires searched { Searched bytes.now searched (Progress.Text start) }
    ensures within { IfOk result (λ cut. cut.before + cut.size ≤ length bytes.now) }
    ensures search { MatchResult result
        (λ cut. first_cut bytes.now ≡ Some cut)
        (λ p. (first_cut bytes.now ≡ None) × Searched bytes.now (length bytes.now) p) }
{
    match pass_stray(&bytes[searched..]) {
        Some(n) => Ok(Cut {
            kind: ChunkKind::Stray,
            before: start,
            size: searched + n - start,
        }),
        None => Err(Progress::Text(start)),
    }
}

/// The chunk there, and the line behind it.
pub fn cut_off(alloc: Global, line: u64, bytes: &[u8], cut: Cut) -> Result<(Chunk, u64), AllocError>
    requires within { cut.before + cut.size ≤ length bytes.now }
    requires small { line + length bytes.now < 2 ^ 63 }
    ensures chunk { IfOk result
        (λ r. r.0 ≡ (cut_off (record { line = line; bytes = bytes.now }) cut).0) }
    ensures line { IfOk result
        (λ r. r.1 ≡ (cut_off (record { line = line; bytes = bytes.now }) cut).1.line) }
    ensures small { IfOk result
        (λ r. r.1 + length bytes.now ≤ line + cut.before + cut.size + length bytes.now) }
{
    let text = &bytes[cut.before..cut.before + cut.size];
    let first = line + lines_in(&bytes[..cut.before]);
    let chunk = Chunk {
        line: first,
        kind: cut.kind,
        text: Text::from_slice(alloc, text)?,
    };
    Ok((chunk, line + lines_in(&bytes[..cut.before + cut.size])))
}

/// The chunk that the end of input closes.
#[tactic(auto, unfolding(crate::specs::Framing::last_chunk))]
pub fn last(alloc: Global, line: u64, bytes: &[u8]) -> Result<Option<Chunk>, AllocError>
    requires { line + length bytes.now < 2 ^ 63 }
    ensures { IfOk result (λ r. r ≡ last_chunk (record { line = line; bytes = bytes.now })) }
{
    let Ok(start) = pass_blank(false, bytes) else {
        return Ok(None);
    };
    let kind = if bytes[start] == b'(' {
        ChunkKind::Unfinished
    } else {
        ChunkKind::Stray
    };
    let text = Text::from_slice(alloc, &bytes[start..])?;
    Ok(Some(Chunk {
        line: line + lines_in(&bytes[..start]),
        kind,
        text,
    }))
}
