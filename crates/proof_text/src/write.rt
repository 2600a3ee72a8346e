// The words of lines, each behind a space or another mark.

ghost use Rattle.std.specs.Prelude.{◌≡◌, ◌<◌, ◌^◌, ◌++◌, ◌∷◌, [], length, take, OnOk, OnErr};
ghost use Rattle.std.specs.Fmt.{decimal};
ghost use Rattle.proof_text.specs.Lines.{joined, with_number, IsNumber};

use smt_text::number::{push_number, push_wide};
use smt_text::text::Text;
use std::alloc::AllocError;

/// Appends a mark and a number.
pub fn push_marked(out: &mut Text, mark: u8, n: u64) -> Result<(), AllocError>
    ensures ok { OnOk result (out.new ≡ out.old ++ mark ∷ decimal n) }
    ensures number { IsNumber n }
    ensures err { OnErr result (take (length out.old) out.new ≡ out.old) }
{
    out.push(mark)?;
    push_number(out, n)
}

/// Appends a space and a number.
pub fn push_spaced(out: &mut Text, n: u64) -> Result<(), AllocError>
    ensures ok { OnOk result (out.new ≡ out.old ++ 32 ∷ decimal n) }
    ensures number { IsNumber n }
    ensures err { OnErr result (take (length out.old) out.new ≡ out.old) }
{
    push_marked(out, b' ', n)
}

/// The same of a number that may need more than 64 bits.
pub fn push_spaced_wide(out: &mut Text, n: u128) -> Result<(), AllocError>
    ensures ok { OnOk result (out.new ≡ out.old ++ 32 ∷ decimal n) }
    ensures number { n < 2 ^ 128 }
    ensures err { OnErr result (take (length out.old) out.new ≡ out.old) }
{
    out.push(b' ')?;
    push_wide(out, n)
}

/// Appends a word, a space and a number.
pub fn push_with_number(out: &mut Text, word: &[u8], n: u64) -> Result<(), AllocError>
    ensures ok { OnOk result (out.new ≡ out.old ++ joined (with_number word.now n)) }
    ensures number { IsNumber n }
    ensures err { OnErr result (take (length out.old) out.new ≡ out.old) }
{
    out.push_slice(word)?;
    push_spaced(out, n)
}

/// Appends a line of a word and a number.
pub fn push_line(out: &mut Text, word: &[u8], n: u64) -> Result<(), AllocError>
    ensures ok { OnOk result (out.new ≡ out.old ++ (joined (with_number word.now n) ++ 10 ∷ [])) }
    ensures number { IsNumber n }
    ensures err { OnErr result (take (length out.old) out.new ≡ out.old) }
{
    push_with_number(out, word, n)?;
    out.push(b'\n')
}
