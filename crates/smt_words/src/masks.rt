//! Powers of two and the low bits of a number.

ghost use Rattle.std.specs.Prelude.{◌≡◌, ◌≤◌, ◌^◌, ◌-◌, ◌*◌, ◌/◌, ◌%◌};

/// All ones at a width.
pub(crate) fn ones(width: u32) -> u128
    requires { width ≤ 128 }
    ensures { result ≡ 2 ^ width - 1 }
{
    if width == 0 {
        return 0;
    }
    u128::MAX >> (128 - width)
}

/// The low bits of a number.
pub(crate) fn low(width: u32, value: u128) -> u128
    requires { width ≤ 128 }
    ensures { result ≡ value % 2 ^ width }
{
    value & ones(width)
}

/// The number without its lowest bits, by any amount.
pub(crate) fn shifted_right(value: u128, by: u128) -> u128
    ensures { result ≡ value / 2 ^ by }
{
    if by < 128 { value >> by } else { 0 }
}

/// The number with zeros below it, by any amount.
pub(crate) fn shifted_left(value: u128, by: u128) -> u128
    ensures { result ≡ (value * 2 ^ by) % 2 ^ 128 }
{
    if by < 128 { value << by } else { 0 }
}
