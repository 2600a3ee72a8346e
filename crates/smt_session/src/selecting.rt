// The steps that give assertions selectors.

ghost use Rattle.std.specs.Prelude.{◌≡◌, All, IfOk, IsSome, None, Some};
ghost use Rattle.scope_selectors.specs.declared.live.Live.{Live as LiveValue};
ghost use Rattle.proof_log.specs.Stored.{Stands, selector_in};
ghost use Rattle.smt_session.specs.Growing.{Grows, HasBits, IsAsserted, AreSelectors};

use cnf_base::Lit;
use proof_log::Log;
use proof_log::entry::Entry;
use scope_selectors::live::Live;
use script_state::state::State;
use std::alloc::{AllocError, Global};

/// Gives an assertion that has no selector one.
fn add_selector(
    alloc: Global,
    state: &State,
    log: &mut Log,
    assertion: &Live,
) -> Result<(), AllocError>
    requires asserted { IsAsserted state.now assertion.now }
    requires bits { HasBits log.old assertion.now.term }
    requires stands { Stands state.now.terms.nodes log.old }
    requires new { selector_in log.old.selectors assertion.now.assertion ≡ None }
    ensures grows { IfOk result (λ _. Grows state.now log.old log.new) }
    ensures selector { IfOk result
        (λ _. IsSome (selector_in log.new.selectors assertion.now.assertion)) }
{
    let entry = Entry::Selector(assertion.assertion, assertion.term);
    log.push(alloc, state.terms(), entry)?;
    Ok(())
}

/// Gives an assertion a selector, unless it has one, and gives the selector.
fn select(alloc: Global, state: &State, log: &mut Log, assertion: &Live) -> Result<Lit, AllocError>
    requires asserted { IsAsserted state.now assertion.now }
    requires bits { HasBits log.old assertion.now.term }
    requires stands { Stands state.now.terms.nodes log.old }
    ensures grows { IfOk result (λ _. Grows state.now log.old log.new) }
    ensures selector { IfOk result (λ l. selector_in log.new.selectors assertion.now.assertion
        ≡ Some l) }
{
    if let Some(selector) = log.selector(assertion.assertion) {
        return Ok(selector);
    }
    add_selector(alloc, state, log, assertion)?;
    Ok(log.selector(assertion.assertion).unwrap())
}

/// Gives each of the assertions a selector, and gives the selectors.
pub(crate) fn select_all(
    alloc: Global,
    state: &State,
    log: &mut Log,
    live: &[Live],
) -> Result<Vec<Lit>, AllocError>
    requires asserted { All (IsAsserted state.now) live.now }
    requires bits { All (λ (a : LiveValue). HasBits log.old a.term) live.now }
    requires stands { Stands state.now.terms.nodes log.old }
    ensures grows { IfOk result (λ _. Grows state.now log.old log.new) }
    ensures given { IfOk result (λ given. AreSelectors log.new live.now given.items) }
{
    let mut given = Vec::new(alloc);
    'live: for assertion in live {
        let selector = select(alloc, state, log, assertion)?;
        given.push(selector)?;
    }
    Ok(given)
}
