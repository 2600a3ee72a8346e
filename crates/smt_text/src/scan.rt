// The searches that cut a script, each over one piece of it, and able to go on in the next.

ghost use Rattle.std.specs.Prelude.{◌≡◌, ◌+◌, ◌<◌, ◌≤◌, ◌^◌, length, Some, false, ◌==◌, count_by, MatchResult, IfErr, IfOk, IfSome};
ghost use Rattle.smt_text.specs.Search.{Passes};
ghost use Rattle.smt_text.specs.Chunks.{is_space, begins, comment_after, beginning, closes, inside_after, closing, ends_stray, stray_end, is_plain, depth_after};

use crate::place::{Place, place_after};

fn is_space(byte: u8) -> bool
    ensures { result ≡ is_space byte }
{
    matches!(byte, b' ' | b'\t' | b'\n' | b'\r')
}

fn begins(comment: bool, byte: u8) -> bool
    ensures { result ≡ begins comment byte }
{
    !comment && !is_space(byte) && byte != b';'
}

fn comment_after(comment: bool, byte: u8) -> bool
    ensures { result ≡ comment_after comment byte }
{
    if comment { byte != b'\n' } else { byte == b';' }
}

/// Passes over white space and comments. `Ok` has the place of the first other byte, and `Err` whether a comment goes on.
pub fn pass_blank(in_comment: bool, bytes: &[u8]) -> Result<usize, bool>
    ensures within { IfOk result (λ n. n < length bytes.now) }
    ensures stop { MatchResult result
        (λ n. beginning in_comment bytes.now ≡ Some n)
        (Passes begins comment_after in_comment bytes.now) }
{
    let mut comment = in_comment;
    for (i, b) in bytes.iter().enumerate() {
        if begins(comment, *b) {
            return Ok(i);
        }
        comment = comment_after(comment, *b);
    }
    Err(comment)
}

fn ends_stray(byte: u8) -> bool
    ensures { result ≡ ends_stray false byte }
{
    is_space(byte) || matches!(byte, b'(' | b')' | b';')
}

/// Passes over stray text. `Ok` has the place of the byte that ends it.
pub fn pass_stray(bytes: &[u8]) -> Option<usize>
    ensures within { IfSome result (λ n. n < length bytes.now) }
    ensures stop { result ≡ stray_end bytes.now }
{
    for (i, b) in bytes.iter().enumerate() {
        if ends_stray(*b) {
            return Some(i);
        }
    }
    None
}

fn is_plain(place: Place) -> bool
    ensures { result ≡ is_plain place }
{
    matches!(place, Place::Plain)
}

fn closes(place: Place, depth: u64, byte: u8) -> bool
    ensures { result ≡ closes (place, depth) byte }
{
    is_plain(place) && byte == b')' && depth == 0
}

fn depth_after(place: Place, depth: u64, byte: u8) -> u64
    requires { depth + 1 < 2 ^ 64 }
    ensures value { result ≡ depth_after (place, depth) byte }
    ensures small { result ≤ depth + 1 }
{
    if !is_plain(place) {
        return depth;
    }
    match byte {
        b'(' => depth + 1,
        b')' => depth.saturating_sub(1),
        _ => depth,
    }
}

/// Passes over what stands within a command. `Ok` has the place of the parenthesis that closes it.
pub fn pass_inside(place: Place, depth: u64, bytes: &[u8]) -> Result<usize, (Place, u64)>
    requires { depth + length bytes.now < 2 ^ 64 }
    ensures within { IfOk result (λ n. n < length bytes.now) }
    ensures stop { MatchResult result
        (λ n. closing (place, depth) bytes.now ≡ Some n)
        (Passes closes inside_after (place, depth) bytes.now) }
    ensures small { IfErr result (λ s. s.1 ≤ depth + length bytes.now) }
{
    let mut at = place;
    let mut open = depth;
    for (i, b) in bytes.iter().enumerate() {
        if closes(at, open, *b) {
            return Ok(i);
        }
        open = depth_after(at, open, *b);
        at = place_after(at, *b);
    }
    Err((at, open))
}

/// How many line feeds the bytes have.
pub fn lines_in(bytes: &[u8]) -> u64
    ensures count { result ≡ count_by (λ b. b == 10) bytes.now }
    ensures small { result ≤ length bytes.now }
{
    bytes.iter().filter(|b| **b == b'\n').count() as u64
}
