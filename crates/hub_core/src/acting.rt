//! What calls make of the hub's state.

ghost use Rattle.std.specs.Prelude.{◌≡◌, ◌≢◌, ℕ, suc, Bool, true, false, not, ◌&&◌, ◌||◌, ltb, [], ◌∷◌, ◌++◌, length, IfOk, OnErr, MatchOption, Some, None, slice_get};
ghost use Rattle.proof_log.specs.Pairs.{found};
ghost use Rattle.hub_core.specs.Standing.{or_else, IsDrawn, IsDefined};
ghost use Rattle.hub_core.specs.declared.state.CubeStage.{CubeStage};

use crate::state::{CubeStage, HubState};
use cnf_base::Pos;
use shared_history::NoMemory;
use smt_terms::node::TermId;

/// Draws the next position. The one error is want of positions.
pub(crate) fn place(state: &mut HubState) -> Result<Pos, NoMemory>
    ensures same { OnErr result (state.new ≡ state.old) }
    ensures placed { IfOk result (λ p. (p ≡ state.old.count)
        × (state.new ≡ record state.old { count = suc state.old.count })) }
{
    let at = state.count;
    let Some(count) = at.checked_add(1) else {
        return Err(NoMemory);
    };
    state.count = count;
    Ok(at)
}

// Draws the next position for the equality of two terms, for which none is kept.
fn draw(state: &mut HubState, lower: TermId, upper: TermId) -> Result<Pos, NoMemory>
    requires { found state.old.pairs lower upper ≡ None }
    ensures same { OnErr result (state.new ≡ state.old) }
    ensures drawn { IfOk result (IsDrawn state.old state.new lower upper) }
{
    let at = place(state)?;
    if state.pairs.insert(lower, upper, at).is_err() {
        state.count = at;
        return Err(NoMemory);
    }
    Ok(at)
}

/// The position of the equality of two terms: the one that the opening log has, if it has one, else one that was drawn, or
/// is drawn now.
pub(crate) fn define(
    state: &mut HubState,
    opened: Option<Pos>,
    lower: TermId,
    upper: TermId,
) -> Result<Pos, NoMemory>
    ensures same { OnErr result (state.new ≡ state.old) }
    ensures defined { IfOk result
        (IsDefined (or_else opened (found state.old.pairs lower upper)) state.old state.new lower
        upper) }
{
    if let Some(at) = opened {
        return Ok(at);
    }
    match state.pairs.get(lower, upper) {
        Some(at) => Ok(at),
        None => draw(state, lower, upper),
    }
}

/// Claims the next cube for a pass, where there is one and no model was found.
pub(crate) fn claim(state: &mut HubState, cubes: u32, pass: u32) -> Result<Option<u32>, NoMemory>
    ensures same { OnErr result (state.new ≡ state.old) }
    ensures claimed { IfOk result (λ o. MatchOption o
        (((not state.old.found && ltb (length state.old.stages) cubes) ≡ false)
        × (state.new ≡ state.old))
        (λ c. ((not state.old.found && ltb (length state.old.stages) cubes) ≡ true)
        × (c ≡ length state.old.stages)
        × (state.new ≡ record state.old {
          stages = state.old.stages
              ++ record { holder = pass; active = true; closed = None; spent = false } ∷ [];
        }))) }
{
    let claimed = state.stages.len();
    if state.found || claimed >= cubes as usize {
        return Ok(None);
    }
    let stage = CubeStage {
        holder: pass,
        active: true,
        closed: None,
        spent: false,
    };
    if state.stages.push(stage).is_err() {
        return Err(NoMemory);
    }
    Ok(Some(claimed as u32))
}

/// The cube is open no longer: it is closed at a position, or spent, or a model was found in it.
pub(crate) fn end(state: &mut HubState, cube: u32, closed: Option<Pos>, spent: bool, found: bool)
    requires { (g : CubeStage) × (slice_get state.old.stages cube ≡ Some g) }
    ensures count { state.new.count ≡ state.old.count }
    ensures pairs { state.new.pairs ≡ state.old.pairs }
    ensures found { state.new.found ≡ (state.old.found || found) }
    ensures len { length state.new.stages ≡ length state.old.stages }
    ensures here { (g : CubeStage) → slice_get state.old.stages cube ≡ Some g →
        slice_get state.new.stages cube
        ≡ Some (record {
          holder = g.holder;
          active = false;
          closed = or_else closed g.closed;
          spent = g.spent
              || spent;
        }) }
    ensures others { (d : ℕ) → d ≢ cube
        → slice_get state.new.stages d ≡ slice_get state.old.stages d }
{
    if let Some(stage) = state.stages.get(cube) {
        let closed = match closed {
            None => stage.closed,
            Some(at) => Some(at),
        };
        let stage = CubeStage {
            holder: stage.holder,
            active: false,
            closed,
            spent: stage.spent || spent,
        };
        state.stages.set(cube, stage);
    }
    if found {
        state.found = true;
    }
}
