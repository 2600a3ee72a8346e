// Where the search of a cube may start, over a log from which chains are forgotten.

ghost use Rattle.std.specs.Prelude.{◌≡◌, ◌≤◌, suc, length, IfOk, MatchBool, MatchOption, Some};
ghost use Rattle.proof_log.specs.declared.entry.Entry.{Entry as Step};
ghost use Rattle.proof_log.specs.Logs.{entry_at};
ghost use Rattle.proof_log.specs.Boards.{IsAdded};
ghost use Rattle.faded_log.specs.Faded.{IsHeld};
ghost use Rattle.accepted_proof.specs.Searching.{given_literals, IsSearch};
ghost use Rattle.check_cubes.specs.Searches.{limits_of, AreAddedFrom};

use check_cubes::{Limits, search};
use cnf_base::{Lit, Pos};
use faded_log::FadedLog;
use proof_log::entry::{Entry, Role};
use script_state::state::State;
use std::alloc::{AllocError, Global};
use term_reach::Reached;

/// Whether a step makes no term, gives no term bits, and no assertion a selector.
fn is_added(step: &Entry) -> bool
    ensures { MatchBool result (IsAdded step.now) (IsAdded step.now → ⊥) }
{
    matches!(step.role(), Role::Search)
}

/// Whether the step at a position is such, if there is one.
fn is_added_at(log: &FadedLog, at: Pos) -> bool
    ensures { MatchBool result
        ((e : Step) → entry_at log.now.entries at ≡ Some e → IsAdded e)
        ((e : Step) × (entry_at log.now.entries at ≡ Some e) × (IsAdded e → ⊥)) }
{
    match log.entry(at) {
        Some(step) => is_added(step),
        None => true,
    }
}

/// Whether all steps from a position on are such.
fn are_added(log: &FadedLog, start: Pos) -> bool
    requires { start ≤ suc (length log.now.entries) }
    ensures { MatchBool result (AreAddedFrom log.now.entries start)
        (AreAddedFrom log.now.entries start → ⊥) }
{
    'steps: for at in start..log.len() {
        if !is_added_at(log, at) {
            return false;
        }
    }
    true
}

/// What the search of a cube takes as true; nothing where no search of it may start at this position. The log without chains
/// tells all but what stands from the position on.
pub fn search_from(
    alloc: Global,
    state: &State,
    log: &FadedLog,
    limits: Limits,
    cube: u64,
    start: Pos,
    reached: &mut Reached,
) -> Result<Option<Vec<Lit>>, AllocError>
    requires { IsHeld state.now.terms.nodes log.now }
    ensures { IfOk result (λ o. MatchOption o
        (IsSearch (limits_of limits) state.now state.now.terms.nodes log.now.entries cube start → ⊥)
        (λ g. IsSearch (limits_of limits) state.now state.now.terms.nodes log.now.entries cube start
        × (g.items ≡ given_literals (limits_of limits) state.now state.now.terms.nodes
        log.now.entries cube))) }
{
    if start > log.len() {
        return Ok(None);
    }
    if !are_added(log, start) {
        return Ok(None);
    }
    let end = log.base().len();
    search(alloc, state, log.base(), limits, cube, end, reached)
}
