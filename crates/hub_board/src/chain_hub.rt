//! The hub of searches that put chains alone.

ghost use Rattle.std.specs.Prelude.{◌≡◌};
ghost use Rattle.hub_core.specs.Hubs.{IsOpening};

use hub_core::{Call, Event, HubLaw, HubState, Reply};
use proof_log::Log;
use shared_history::{Back, Law, NoMemory};
use std::alloc::Global;
use std::marker::Model;

/// The law of a hub to which no equality and no lemma is put. Its calls, events and replies are those of the hub.
#[derive(Drop)]
pub struct ChainHub<'a> {
    hub: HubLaw<'a>,
}

impl<'a> Model for ChainHub<'a> {
    ghost use Rattle.hub_core.specs.Hubs.{HubValue};

    ghost Value = { HubValue };

    ghost view = { λ c. c.hub };
}

impl<'a> ChainHub<'a> {
    /// The law of this hub where chains alone are put.
    pub fn new(hub: HubLaw<'a>) -> ChainHub<'a>
        ensures { result ≡ hub.entry }
    {
        ChainHub { hub }
    }

    /// The hub.
    pub fn hub(&self) -> &HubLaw<'a>
        ensures { result.now ≡ self.now }
    {
        &self.hub
    }

    /// The hub, taken back.
    pub fn into_hub(self) -> HubLaw<'a>
        ensures { result ≡ self.entry }
    {
        self.hub
    }

    /// The opening log.
    pub fn log(&self) -> &Log
        ensures log { result.now ≡ self.now.log }
        ensures opening { IsOpening self.now }
    {
        self.hub.log()
    }
}

impl<'a> Law for ChainHub<'a> {
    type Entry = Event;

    type Call = Call;

    type Reply = Reply;

    type State = HubState;

    ghost use Rattle.std.specs.Prelude.{refl};
    ghost use Rattle.hub_core.specs.Hubs.{by_of, permitted, event, reply};
    ghost use Rattle.hub_core.specs.Stays.{stays_permitted};
    ghost use Rattle.hub_board.specs.Chains.{AddsChains, IsChainHub};

    ghost by = { by_of };

    ghost permits = { λ law h n c. AddsChains c × permitted law h n c };

    ghost entry_of = { λ law h n c. event n c };

    ghost reply_of = { λ law h n c. reply law h c };

    ghost stands = { IsChainHub };

    fn first(&self, alloc: Global) -> Result<HubState, NoMemory> {
        self.hub.first(alloc)
    }

    fn act(
        &self,
        alloc: Global,
        state: &mut HubState,
        pass: u32,
        call: Call,
    ) -> Result<(Event, Reply), Back<Call>> {
        self.hub.act(alloc, state, pass, call)
    }

    fn copy(&self, alloc: Global, entry: &Event) -> Result<Event, NoMemory> {
        self.hub.copy(alloc, entry)
    }

    ghost stamped = { λ law h n c. refl };

    ghost stays = { λ law h more n c none p. (p.0, stays_permitted law h more n c none p.1) };
}
