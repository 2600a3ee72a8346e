//! Lines, as a text comes in pieces.

ghost use Rattle.std.specs.Prelude.{◌≡◌, ◌<◌, ◌≤◌, ◌∷◌, ◌++◌, [], ℕ, List, length, take, drop, slice_index, IfOk, IfSome, MatchOption};
ghost use Rattle.dimacs_front.specs.Words.{lines_from};

use smt_text::text::Text;
use std::alloc::AllocError;

/// How many bytes stand before the first line feed, or how many there are where there is none.
fn line_length(bytes: &[u8]) -> usize
    ensures within { result ≤ length bytes.now }
    ensures same { (begun more : List ℕ) → lines_from begun (bytes.now ++ more)
        ≡ lines_from (begun ++ take result bytes.now) (drop result bytes.now ++ more) }
    ensures feed { result < length bytes.now → slice_index bytes.now result ≡ 10 }
{
    let mut size = 0;
    while size < bytes.len() && bytes[size] != b'\n' {
        size += 1;
    }
    size
}

/// Moves what a piece has of a line behind what is begun of it. Where that ends the line, what
/// stands behind it in the piece is given.
pub(crate) fn take_line<'a>(
    begun: &mut Text,
    piece: &'a [u8],
) -> Result<Option<&'a [u8]>, AllocError>
    ensures lines { IfOk result (λ o. (more : List ℕ) →
        MatchOption o (lines_from begun.old (piece.now ++ more) ≡ lines_from begun.new more)
        (λ rest. lines_from begun.old (piece.now ++ more)
        ≡ begun.new ∷ lines_from [] (rest.now ++ more))) }
    ensures shorter { IfOk result (λ o. IfSome o (λ rest. length rest.now < length piece.now)) }
{
    let size = line_length(piece);
    begun.push_slice(&piece[..size])?;
    if size == piece.len() {
        return Ok(None);
    }
    Ok(Some(&piece[size + 1..]))
}
