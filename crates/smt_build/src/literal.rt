// The values of literals.

ghost use Rattle.std.specs.Prelude.{◌≡◌, ◌<◌, ◌≤◌, ◌%◌, length};
ghost use Rattle.smt_build.specs.Literals.{bit_value, hexadecimal_value, decimal_value, value_in, width_of_numeral, number_of, index_of, turn_of};

/// The value of a binary digit.
fn bit_value(digit: u8) -> u8
    ensures value { result ≡ bit_value digit }
    ensures below { result < 2 }
{
    if digit == b'1' { 1 } else { 0 }
}

/// The value of a hexadecimal digit, in either case.
fn hexadecimal_value(digit: u8) -> u8
    ensures value { result ≡ hexadecimal_value digit }
    ensures below { result < 16 }
{
    if digit >= b'0' && digit <= b'9' {
        digit - b'0'
    } else if digit >= b'A' && digit <= b'F' {
        digit - b'A' + 10
    } else if digit >= b'a' && digit <= b'f' {
        digit - b'a' + 10
    } else {
        0
    }
}

/// The value of a decimal digit.
fn decimal_value(digit: u8) -> u8
    ensures value { result ≡ decimal_value digit }
    ensures below { result < 10 }
{
    if digit >= b'0' && digit <= b'9' {
        digit - b'0'
    } else {
        0
    }
}

/// The value of binary digits.
pub fn binary_number(digits: &[u8]) -> u128
    requires { length digits.now ≤ 128 }
    ensures { result ≡ value_in 2 bit_value digits.now }
{
    let mut value = 0u128;
    for digit in digits {
        value = 2 * value + u128::from(bit_value(*digit));
    }
    value
}

/// The value of hexadecimal digits.
pub fn hexadecimal_number(digits: &[u8]) -> u128
    requires { length digits.now ≤ 32 }
    ensures { result ≡ value_in 16 hexadecimal_value digits.now }
{
    let mut value = 0u128;
    for digit in digits {
        value = 16 * value + u128::from(hexadecimal_value(*digit));
    }
    value
}

/// The width that a numeral gives, `None` where it is not 1 to 128.
pub fn width_of_numeral(digits: &[u8]) -> Option<u32>
    ensures { result ≡ width_of_numeral digits.now }
{
    let mut value = 0u32;
    for digit in digits {
        value = 10 * value + u32::from(decimal_value(*digit));
        if value > 128 {
            return None;
        }
    }
    if value == 0 { None } else { Some(value) }
}

/// The number of a numeral, `None` from 2^128 on.
pub fn number_of(digits: &[u8]) -> Option<u128>
    ensures { result ≡ number_of digits.now }
{
    let mut value = 0u128;
    for digit in digits {
        let digit = u128::from(decimal_value(*digit));
        if value > (u128::MAX - digit) / 10 {
            return None;
        }
        value = 10 * value + digit;
    }
    Some(value)
}

/// The index that a numeral gives, the greatest one from 2^64 on.
pub fn index_of(digits: &[u8]) -> u64
    ensures { result ≡ index_of digits.now }
{
    match number_of(digits) {
        None => u64::MAX,
        Some(number) => {
            if number < 1 << 64 {
                number as u64
            } else {
                u64::MAX
            }
        }
    }
}

/// What is left of a numeral's number modulo a width.
fn number_modulo(digits: &[u8], width: u32) -> u32
    requires { 1 ≤ width }
    ensures { result ≡ value_in 10 decimal_value digits.now % width }
{
    let width = u64::from(width);
    let mut rest = 0u64;
    for digit in digits {
        rest = (10 * rest + u64::from(decimal_value(*digit))) % width;
    }
    rest as u32
}

/// The index of a rotation of a word, from 2^64 on modulo the width.
pub fn turn_of(width: u32, digits: &[u8]) -> u64
    requires { 1 ≤ width }
    ensures { result ≡ turn_of width digits.now }
{
    match number_of(digits) {
        None => u64::from(number_modulo(digits, width)),
        Some(number) => {
            if number < 1 << 64 {
                number as u64
            } else {
                u64::from(number_modulo(digits, width))
            }
        }
    }
}
