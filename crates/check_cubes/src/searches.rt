// The search of a cube: where it may start, and what it takes as true.

ghost use Rattle.std.specs.Prelude.{◌≡◌, ◌≤◌, ◌++◌, suc, All, IfOk, MatchBool, MatchOption, length, Some};
ghost use Rattle.std.specs.List.{flat_map};
ghost use Rattle.smt_terms.specs.Bits.{bits_in};
ghost use Rattle.proof_log.specs.declared.entry.Entry.{Entry as Step};
ghost use Rattle.proof_log.specs.Logs.{entry_at};
ghost use Rattle.proof_log.specs.Boards.{IsAdded};
ghost use Rattle.proof_log.specs.Stored.{Stands};
ghost use Rattle.accepted_proof.specs.Searching.{given_literals, IsSearch};
ghost use Rattle.check_cubes.specs.Searches.{limits_of, only, kept_selector, IsSelected, kept_bits, IsOneBit, AreAddedFrom};

use crate::cubes::{cube_literals, cube_variables};
use crate::limits::Limits;
use cnf_base::{Lit, Pos};
use proof_log::Log;
use proof_log::entry::{Entry, Role};
use scope_selectors::live::Live;
use script_state::answer::Asked;
use script_state::state::State;
use smt_terms::node::TermId;
use std::alloc::{AllocError, Global};
use term_reach::Reached;

/// Whether a step makes no term, gives no term bits, and no assertion a selector.
fn is_added(step: &Entry) -> bool
    ensures { MatchBool result (IsAdded step.now) (IsAdded step.now → ⊥) }
{
    matches!(step.role(), Role::Search)
}

/// Whether the step at a position is such, if there is one.
fn is_added_at(log: &Log, at: Pos) -> bool
    ensures { MatchBool result
        ((e : Step) → entry_at log.now.entries at ≡ Some e → IsAdded e)
        ((e : Step) × (entry_at log.now.entries at ≡ Some e) × (IsAdded e → ⊥)) }
{
    match log.entry(at) {
        Some(step) => is_added(step),
        None => true,
    }
}

/// Whether all steps from a position on are such.
fn are_added(log: &Log, start: Pos) -> bool
    requires { start ≤ suc (length log.now.entries) }
    ensures { MatchBool result (AreAddedFrom log.now.entries start)
        (AreAddedFrom log.now.entries start → ⊥) }
{
    'steps: for at in start..log.len() {
        if !is_added_at(log, at) {
            return false;
        }
    }
    true
}

/// Appends the selectors of assertions, and tells whether each has one.
fn push_selectors(log: &Log, live: &[Live], given: &mut Vec<Lit>) -> Result<bool, AllocError>
    ensures { IfOk result (λ b. MatchBool b
        (All (IsSelected log.now.selectors) live.now
        × (given.new.items ≡ given.old.items
        ++ flat_map (kept_selector log.now.selectors) live.now))
        (All (IsSelected log.now.selectors) live.now → ⊥)) }
{
    for assertion in live {
        match log.selector(assertion.assertion) {
            Some(selector) => given.push(selector)?,
            None => return Ok(false),
        }
    }
    Ok(true)
}

/// The bit of a term that has one bit.
pub fn bit_of(log: &Log, term: TermId) -> Option<Lit>
    ensures { result ≡ only (bits_in log.now.bits term) }
{
    match log.bits().of(term) {
        Some([bit]) => Some(*bit),
        _ => None,
    }
}

/// Appends the bits of assumptions, and tells whether each has just one.
fn push_assumed(log: &Log, assumed: &[Asked], given: &mut Vec<Lit>) -> Result<bool, AllocError>
    ensures { IfOk result (λ b. MatchBool b
        (All (IsOneBit log.now.bits) assumed.now
        × (given.new.items ≡ given.old.items ++ flat_map (kept_bits log.now.bits) assumed.now))
        (All (IsOneBit log.now.bits) assumed.now → ⊥)) }
{
    for assumption in assumed {
        match bit_of(log, assumption.term) {
            Some(bit) => given.push(bit)?,
            None => return Ok(false),
        }
    }
    Ok(true)
}

/// What the search of a cube takes as true: the cube's literals, the selectors of the live assertions and the bits of the
/// assumptions. Nothing where no search of it may start at this position. `reached` serves as for [`cube_variables`].
pub fn search(
    alloc: Global,
    state: &State,
    log: &Log,
    limits: Limits,
    cube: u64,
    start: Pos,
    reached: &mut Reached,
) -> Result<Option<Vec<Lit>>, AllocError>
    requires { Stands state.now.terms.nodes log.now }
    ensures { IfOk result (λ o. MatchOption o
        (IsSearch (limits_of limits) state.now state.now.terms.nodes log.now.entries cube start → ⊥)
        (λ g. IsSearch (limits_of limits) state.now state.now.terms.nodes log.now.entries cube start
        × (g.items ≡ given_literals (limits_of limits) state.now state.now.terms.nodes
        log.now.entries cube))) }
{
    if start > log.len() {
        return Ok(None);
    }
    if !are_added(log, start) {
        return Ok(None);
    }
    let variables = cube_variables(alloc, state, log, limits, reached)?;
    let Some(mut given) = cube_literals(alloc, variables.as_slice(), cube)? else {
        return Ok(None);
    };
    if !push_selectors(log, state.live(), &mut given)? {
        return Ok(None);
    }
    if !push_assumed(log, state.assumptions(), &mut given)? {
        return Ok(None);
    }
    Ok(Some(given))
}
