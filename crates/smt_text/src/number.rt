// Numbers in decimal.

ghost use Rattle.std.specs.Prelude.{◌≡◌, ◌++◌, length, take, OnOk, OnErr};
ghost use Rattle.std.specs.Fmt.{decimal};

use crate::text::Text;
use std::alloc::AllocError;

/// Appends a number in decimal, without a needless zero. What of it is written where memory runs out stands behind
/// what was there.
pub fn push_number(out: &mut Text, n: u64) -> Result<(), AllocError>
    ensures ok { OnOk result (out.new ≡ out.old ++ decimal n) }
    ensures err { OnErr result (take (length out.old) out.new ≡ out.old) }
{
    let mut digits = [0u8; 20];
    let mut at = digits.len();
    let mut rest = n;
    'digits: while rest >= 10 {
        at -= 1;
        digits[at] = b'0' + (rest % 10) as u8;
        rest /= 10;
    }
    at -= 1;
    digits[at] = b'0' + rest as u8;
    out.push_slice(&digits[at..])
}

/// The same of a number that may need more than 64 bits.
pub fn push_wide(out: &mut Text, n: u128) -> Result<(), AllocError>
    ensures ok { OnOk result (out.new ≡ out.old ++ decimal n) }
    ensures err { OnErr result (take (length out.old) out.new ≡ out.old) }
{
    if n <= u64::MAX as u128 {
        return push_number(out, n as u64);
    }
    push_wide(out, n / 10)?;
    out.push(b'0' + (n % 10) as u8)
}
