// The script of a seed and a size.

ghost use Rattle.std.specs.Prelude.{◌≡◌, ◌<◌, ◌++◌, IfOk, OnOk};
ghost use Rattle.drill_script.specs.Scripts.{next_state, drawn, digit, hexadecimal, opening, around, word_lines, successor_lines, block, drill_script};

use smt_text::number::push_number;
use smt_text::text::Text;
use std::alloc::{AllocError, Global};

/// What a state is multiplied by at a draw.
const MULTIPLIER: u64 = 6364136223846793005;

/// What is added to it then.
const INCREMENT: u64 = 1442695040888963407;

/// The state after a draw.
pub(crate) fn next_state(state: u64) -> u64
    ensures { result ≡ next_state state }
{
    state.wrapping_mul(MULTIPLIER).wrapping_add(INCREMENT)
}

/// The number that a draw gives.
pub(crate) fn drawn(state: u64) -> u64
    ensures { result ≡ drawn state }
{
    state >> 32
}

fn digit(d: u8) -> u8
    requires { d < 16 }
    ensures { result ≡ digit d }
{
    if d < 10 { b'0' + d } else { b'a' - 10 + d }
}

/// Appends the lowest digits of a number to base 16, so many of them.
pub(crate) fn push_hexadecimal(out: &mut Text, count: u32, number: u64) -> Result<(), AllocError>
    ensures { OnOk result (out.new ≡ out.old ++ hexadecimal count number) }
{
    if count == 0 {
        return Ok(());
    }
    push_hexadecimal(out, count - 1, number / 16)?;
    out.push(digit((number % 16) as u8))
}

/// Appends a number in decimal between two texts.
pub(crate) fn push_around(
    out: &mut Text,
    before: &[u8],
    number: u64,
    after: &[u8],
) -> Result<(), AllocError>
    ensures { OnOk result (out.new ≡ out.old ++ around before.now number after.now) }
{
    out.push_slice(before)?;
    push_number(out, number)?;
    out.push_slice(after)
}

fn push_word_lines(out: &mut Text, k: u64, word: u64) -> Result<(), AllocError>
    ensures { OnOk result (out.new ≡ out.old ++ word_lines k word) }
{
    push_around(out, b"(declare-const x", k, b" (_ BitVec 32))\n")?;
    push_around(out, b"(assert (= (bvxor x", k, b" #x")?;
    push_hexadecimal(out, 8, word)?;
    out.push_slice(b") #x00000000))\n(assert (= (select a #x")?;
    push_hexadecimal(out, 4, k)?;
    push_around(out, b") x", k, b"))\n(check-sat)\n")
}

fn push_successor_lines(out: &mut Text, k: u64, word: u64) -> Result<(), AllocError>
    ensures { OnOk result (out.new ≡ out.old ++ successor_lines k word) }
{
    push_around(out, b"(push 1)\n(assert (= (bvadd x", k, b" #x00000001) #x")?;
    push_hexadecimal(out, 8, word)?;
    out.push_slice(b"))\n(check-sat)\n(pop 1)\n")
}

fn push_block(out: &mut Text, k: u64, word: u64) -> Result<(), AllocError>
    ensures { OnOk result (out.new ≡ out.old ++ block k word) }
{
    push_word_lines(out, k, word)?;
    push_successor_lines(out, k, word)
}

/// The script of this seed and size.
pub fn drill_script(alloc: Global, seed: u64, size: u32) -> Result<Text, AllocError>
    ensures { IfOk result (λ t. t ≡ drill_script seed size) }
{
    let mut out = Text::from_slice(
        alloc,
        b"(set-logic QF_AUFBV)\n(declare-const a (Array (_ BitVec 16) (_ BitVec 32)))\n",
    )?;
    let mut state = seed;
    'words: for k in 0..size {
        state = next_state(state);
        push_block(&mut out, k as u64, drawn(state))?;
    }
    Ok(out)
}
