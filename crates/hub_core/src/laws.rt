//! What the definition of the hub promises.

ghost use Rattle.std.specs.Prelude.{List};
ghost use Rattle.hub_core.specs.declared.events.Event.{Event};
ghost use Rattle.hub_core.specs.Hubs.{HubValue, IsOpening, IsHistory, IsSoundHistory, IsDone, IsAllTold, view_of};

/// Whatever passes do in whatever order, as far as it is permitted, the whole log is sound, and what was closed is closed
/// by its clause.
pub fn every_history_is_sound()
    ensures { (law : HubValue) (history : List Event) → IsOpening law → IsHistory law history
        → IsSoundHistory law history }
{}

/// Where no pass has a cube open and none is left to claim, a model was found, or each cube is closed by the clause at a
/// position or spent.
pub fn done_histories_tell_of_every_cube()
    ensures { (law : HubValue) (history : List Event) → IsOpening law → IsHistory law history →
        IsDone law (view_of law history) → IsAllTold law (view_of law history) }
{}
