//! What workers that have ended came to together.

ghost use Rattle.std.specs.Prelude.{◌≡◌, ℕ, Bool, false, List, Option, Some, None};
ghost use Rattle.smt_terms.specs.declared.node.Node.{Node};
ghost use Rattle.proof_log.specs.Stored.{LogValue, Stands};
ghost use Rattle.proof_log.specs.declared.diary.Diary.{Diary as Written};
ghost use Rattle.hub_core.specs.declared.events.Event.{Event};
ghost use Rattle.hub_core.specs.Hubs.{HubValue};
ghost use Rattle.cube_workers.specs.declared.check.Check.{Check};
ghost use Rattle.cube_workers.specs.declared.kept.KeptSearch.{KeptSearch as Kept};
ghost use Rattle.cube_workers.specs.Searched.{IsModelOf};
ghost use Rattle.cube_workers.specs.Workers.{problem_in};
ghost use Rattle.cube_workers.specs.Crews.{Left, AreAtRest, values_in};
ghost use Rattle.cube_workers.specs.Closed.{IsClosedHub, IsSumOf, AreAllTried};

/// Where workers have ended over a hub that is closed, the searches that are kept, one for each, rest beside the log with the steps
/// of the whole history. Where one found a model, it is one under the values of the search that is named. Where each had memory
/// and none found a model, each cube is closed at the position that the history tells, or the lowest diary that a worker has is
/// that of the lowest cube that is spent, and the others were searched too.
pub fn ended_workers_tell_of_every_cube()
    ensures resting { (law : HubValue) (k : Check) (nodes : List Node) (log : LogValue)
        (all : List Event) (searches : List Kept) (model : Option ℕ) (wanting : Bool)
        (spent : Option Written) (count : ℕ) (xs : List Left) → IsClosedHub law k nodes log.entries
        all → IsSumOf law k all searches model wanting spent count xs → Stands nodes log
        → AreAtRest log searches }
    ensures model { (law : HubValue) (k : Check) (nodes : List Node) (log : LogValue)
        (all : List Event) (searches : List Kept) (by : ℕ) (wanting : Bool) (spent : Option Written)
        (count : ℕ) (xs : List Left) → IsClosedHub law k nodes log.entries all
        → IsSumOf law k all searches (Some by) wanting spent count xs
        → IsModelOf (problem_in law k) log.entries (values_in searches by) }
    ensures tried { (law : HubValue) (k : Check) (nodes : List Node) (log : LogValue)
        (all : List Event) (searches : List Kept) (wanting : Bool) (spent : Option Written)
        (count : ℕ) (xs : List Left) → IsClosedHub law k nodes log.entries all
        → IsSumOf law k all searches None wanting spent count xs → wanting ≡ false
        → AreAllTried law (problem_in law k) k.tree.now all log.entries spent }
{}
