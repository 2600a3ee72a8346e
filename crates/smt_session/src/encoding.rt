// The bits that a check needs.

ghost use Rattle.std.specs.Prelude.{◌≡◌, ◌≤◌, ◌++◌, List, All, IfOk, OnOk, length};
ghost use Rattle.smt_terms.specs.declared.node.Node.{Node};
ghost use Rattle.array_watches.specs.Needed.{watched};
ghost use Rattle.watch_roots.specs.Roots.{AreLive};
ghost use Rattle.script_state.specs.States.{roots};
ghost use Rattle.session_terms.specs.Placed.{IsInOrder};
ghost use Rattle.smt_session.specs.Growing.{HasBits};
ghost use Rattle.smt_session.specs.Planning.{Prepares};
ghost use Rattle.smt_session.specs.Sessions.{IsSession};

use crate::reach::roots;
use crate::taking::rewrite;
use crate::watching::watch;
use crate::workspace::Workspace;
use script_state::state::State;
use smt_terms::node::TermId;
use std::alloc::{AllocError, Global};
use watch_roots::live_terms;

/// Makes the terms that watch the arrays of a check, simplifies what these, the live assertions and the assumptions reach and that has
/// no bits, and gives bits to what needs them then; gives the terms that the check is about, and those that its arrays need.
pub(crate) fn encode(
    alloc: Global,
    state: &mut State,
    workspace: &mut Workspace,
) -> Result<Vec<TermId>, AllocError>
    requires session { IsSession state.old workspace.old.log }
    requires order { IsInOrder state.old.terms.nodes workspace.old.log.bits }
    requires fits { length (watched state.old.terms.nodes (roots state.old))
        ≤ state.old.terms.limit }
    ensures prepares { OnOk result
        (Prepares state.old workspace.old.log state.new workspace.new.log) }
    ensures live { IfOk result
        (λ live. AreLive (watched state.old.terms.nodes (roots state.old)) (roots state.old)
        live.items) }
    ensures bits { IfOk result (λ live. All (HasBits workspace.new.log) live.items) }
    ensures made { OnOk result ((more : List Node) × (state.new.terms.nodes
        ≡ watched state.old.terms.nodes (roots state.old) ++ more)) }
    ensures order { OnOk result (IsInOrder state.new.terms.nodes workspace.new.log.bits) }
    ensures searches { OnOk result (workspace.new.searches ≡ workspace.old.searches) }
    ensures steps { OnOk result (workspace.new.steps ≡ workspace.old.steps) }
{
    let roots = roots(alloc, state)?;
    watch(alloc, state, workspace, roots.as_slice())?;
    let live = live_terms(
        alloc,
        state.terms(),
        roots.as_slice(),
        &mut workspace.reached,
    )?;
    rewrite(alloc, state, workspace, live.as_slice())?;
    Ok(live)
}
