//! The cubes of a check: how a pass claims them, and tells what became of them.

ghost use Rattle.std.specs.Prelude.{◌≡◌, ◌<◌, false, true, length, IfOk, OnOk, MatchOption};
ghost use Rattle.hub_core.specs.declared.events.Call.TheVariants as call;
ghost use Rattle.hub_core.specs.Hubs.{has_next, IsClosedAt};
ghost use Rattle.hub_board.specs.Boards.{view_in};
ghost use Rattle.hub_board.specs.Cubes.{IsIdle, IsBusy, IsOn, IsToldMore};

use crate::board::HubBoard;
use cnf_base::Pos;
use hub_core::{Call, Reply};
use std::alloc::AllocError;
use std::sync::Wait;

impl<'h, 'a, R: Wait> HubBoard<'h, 'a, R> {
    /// Claims the next cube; `None` where all are claimed, or a model was found.
    pub fn claim(&mut self) -> Result<Option<u32>, AllocError>
        requires idle { IsIdle self.old }
        ensures on { IsOn self.old self.new }
        ensures told { IsToldMore self.old self.new call.Claim }
        ensures news { self.new.news ≡ self.old.news }
        ensures claimed { IfOk result (λ o. MatchOption o
            (IsIdle self.new × (has_next self.new.hist.law (view_in self.new) ≡ false))
            (λ c. (c < length self.new.hist.law.cubes) × IsBusy self.new c)) }
    {
        let Ok(reply) = self.step(Call::Claim) else {
            return Err(AllocError);
        };
        let Reply::Cube(cube) = reply else {
            unreachable!()
        };
        Ok(cube)
    }

    /// Tells that the first clause of the position closes the cube.
    pub fn close(&mut self, cube: u32, at: Pos) -> Result<(), AllocError>
        requires busy { IsBusy self.old cube }
        requires closed { IsClosedAt self.old.hist.law (view_in self.old).log cube at }
        ensures on { IsOn self.old self.new }
        ensures told { IsToldMore self.old self.new (call.Close cube at) }
        ensures news { self.new.news ≡ self.old.news }
        ensures idle { OnOk result (IsIdle self.new) }
    {
        let Ok(_) = self.step(Call::Close(cube, at)) else {
            return Err(AllocError);
        };
        Ok(())
    }

    /// Tells that the budget of the cube is spent.
    pub fn spend(&mut self, cube: u32) -> Result<(), AllocError>
        requires busy { IsBusy self.old cube }
        ensures on { IsOn self.old self.new }
        ensures told { IsToldMore self.old self.new (call.Spend cube) }
        ensures news { self.new.news ≡ self.old.news }
        ensures idle { OnOk result (IsIdle self.new) }
    {
        let Ok(_) = self.step(Call::Spend(cube)) else {
            return Err(AllocError);
        };
        Ok(())
    }

    /// Tells that a model was found in the cube.
    pub fn tell_model(&mut self, cube: u32) -> Result<(), AllocError>
        requires busy { IsBusy self.old cube }
        ensures on { IsOn self.old self.new }
        ensures told { IsToldMore self.old self.new (call.Found cube) }
        ensures news { self.new.news ≡ self.old.news }
        ensures found { OnOk result ((view_in self.new).found ≡ true) }
    {
        let Ok(_) = self.step(Call::Found(cube)) else {
            return Err(AllocError);
        };
        Ok(())
    }
}
