//! Places among live assertions.

ghost use Rattle.std.specs.Prelude.{◌≡◌, ◌<◌, ◌==◌, AllPairs, find, take};
ghost use Rattle.std.specs.List.Sorted.{IsNonDecreasingBy};
ghost use Rattle.std.specs.Option.{option_and_then, option_copied};
ghost use Rattle.scope_selectors.specs.declared.live.Live.{Live as LiveValue};
ghost use Rattle.scope_selectors.specs.Scopes.{made_within};

use crate::live::{AssertId, Live};
use smt_text::text::Text;

/// How many were made while no more levels stood.
pub(crate) fn kept(live: &[Live], levels: u64) -> usize
    requires { IsNonDecreasingBy (λ (a : LiveValue). a.level) live.now }
    ensures { take result live.now ≡ made_within levels live.now }
{
    live.partition_point(|assertion| assertion.level <= levels)
}

/// The name of the assertion with this number, if it is there and has one.
pub(crate) fn name_at(live: &[Live], assertion: AssertId) -> Option<&Text>
    requires { AllPairs (λ (a b : LiveValue). a.assertion < b.assertion) live.now }
    ensures { option_copied result
        ≡ option_and_then (λ (l : LiveValue). l.name)
        (find (λ l. l.assertion == assertion) live.now) }
{
    match live.binary_search_by_key(&assertion, |one| one.assertion) {
        Ok(at) => live[at].name.as_ref(),
        Err(_) => None,
    }
}
