// What a check makes ready for its search.

ghost use Rattle.std.specs.Prelude.{IfOk, OnOk};
ghost use Rattle.script_state.specs.States.{WatchesFit};
ghost use Rattle.smt_session.specs.Growing.{AreGiven};
ghost use Rattle.smt_session.specs.Parts.{IsKept};
ghost use Rattle.smt_session.specs.Planning.{Prepares};
ghost use Rattle.smt_session.specs.Searched.{IsReady};

use crate::encoding::encode;
use crate::given::give;
use crate::reach::reach_by_images;
use crate::workspace::Workspace;
use cnf_base::{Lit, Pos};
use script_state::state::State;
use std::alloc::{AllocError, Global};

/// The positions of a check's steps, and what it takes as true.
#[derive(Drop)]
pub(crate) struct Prepared {
    pub(crate) steps: Vec<Pos>,
    pub(crate) given: Vec<Lit>,
}

/// Gives bits to all that a check needs, and each live assertion a selector.
pub(crate) fn prepare(
    alloc: Global,
    state: &mut State,
    workspace: &mut Workspace,
) -> Result<Prepared, AllocError>
    requires kept { IsKept state.old workspace.old }
    requires fits { WatchesFit state.old }
    ensures prepares { OnOk result
        (Prepares state.old workspace.old.log state.new workspace.new.log) }
    ensures kept { OnOk result (IsKept state.new workspace.new) }
    ensures ready { IfOk result
        (λ p. IsReady state.old.terms.nodes state.new workspace.new.log p.steps.items) }
    ensures given { IfOk result (λ p. AreGiven state.new workspace.new.log p.given.items) }
{
    let live = encode(alloc, state, workspace)?;
    let given = give(alloc, state, &mut workspace.log)?;
    // The contract of `len` says that no two terms are equal.
    let _count = state.terms().len();
    reach_by_images(
        alloc,
        state,
        &workspace.log,
        live.as_slice(),
        &mut workspace.reached,
    )?;
    let terms = state.terms();
    workspace.steps.update(terms, &workspace.log)?;
    let reached = workspace.reached.terms();
    let steps = workspace
        .steps
        .positions(alloc, terms, &workspace.log, reached, state.live())?;
    Ok(Prepared { steps, given })
}
