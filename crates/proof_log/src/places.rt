//! Tables of the positions of steps, by the numbers of terms or of assertions.

ghost use Rattle.std.specs.Prelude.{◌≡◌, ◌<◌, ℕ, OnOk, OnErr, length};
ghost use Rattle.proof_log.specs.Logs.{with_value};
ghost use Rattle.proof_log.specs.Places.{place_in};

use cnf_base::Pos;
use std::alloc::AllocError;

/// The position under a number.
pub(crate) fn place_of(held: &[Option<Pos>], number: u32) -> Option<Pos>
    ensures { result ≡ place_in held.now number }
{
    match held.get(number as usize) {
        Some(place) => *place,
        None => None,
    }
}

/// Makes room for the position under a number.
pub(crate) fn grow(held: &mut Vec<Option<Pos>>, number: u32) -> Result<(), AllocError>
    ensures same { (n : ℕ) → place_in held.new.items n ≡ place_in held.old.items n }
    ensures ok { OnOk result (number < length held.new.items) }
    ensures err { OnErr result (held.new.items ≡ held.old.items) }
{
    let wanted = number as usize + 1;
    if held.len() < wanted {
        held.resize(wanted, None)?;
    }
    Ok(())
}

/// Keeps a position under a number.
pub(crate) fn set(held: &mut Vec<Option<Pos>>, number: u32, place: Pos)
    requires { number < length held.old.items }
    ensures { (n : ℕ)
        → place_in held.new.items n ≡ with_value (place_in held.old.items) number place n }
{
    held[number as usize] = Some(place);
}
