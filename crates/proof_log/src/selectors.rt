//! The selectors of assertions, by the numbers of the assertions.

ghost use Rattle.std.specs.Prelude.{◌≡◌, ◌<◌, ℕ, Some, OnOk, OnErr, length};
ghost use Rattle.proof_log.specs.Logs.{with_value};
ghost use Rattle.proof_log.specs.Stored.{selector_in};

use crate::entry::AssertId;
use cnf_base::Lit;
use std::alloc::AllocError;

/// The selector of an assertion.
pub(crate) fn selector_of(held: &[Option<Lit>], assertion: AssertId) -> Option<Lit>
    ensures { result ≡ selector_in held.now assertion }
{
    match held.get(assertion as usize) {
        Some(selector) => *selector,
        None => None,
    }
}

/// Makes room for the selector of an assertion.
pub(crate) fn grow(held: &mut Vec<Option<Lit>>, assertion: AssertId) -> Result<(), AllocError>
    ensures same { (a : ℕ) → selector_in held.new.items a ≡ selector_in held.old.items a }
    ensures ok { OnOk result (assertion < length held.new.items) }
    ensures err { OnErr result (held.new.items ≡ held.old.items) }
{
    let wanted = assertion as usize + 1;
    if held.len() < wanted {
        held.resize(wanted, None)?;
    }
    Ok(())
}

/// Gives an assertion its selector.
pub(crate) fn set(held: &mut Vec<Option<Lit>>, assertion: AssertId, selector: Lit)
    requires { assertion < length held.old.items }
    ensures { (a : ℕ)
        → selector_in held.new.items a
        ≡ with_value (selector_in held.old.items) assertion selector a }
{
    held[assertion as usize] = Some(selector);
}
