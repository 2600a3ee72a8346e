//! The law of the hub.

ghost use Rattle.std.specs.Prelude.{◌≡◌, ◌<◌, ◌^◌, [], ◌∷◌, ◌++◌, List, length, IfOk, MatchResult, slice_index_or};
ghost use Rattle.cnf_base.specs.Assignments.{AreBelow};
ghost use Rattle.smt_terms.specs.Terms.{IsTermList};
ghost use Rattle.proof_log.specs.Stored.{Stands};
ghost use Rattle.hub_core.specs.declared.events.Event.{Event};
ghost use Rattle.hub_core.specs.Hubs.{HubValue, IsOpening, IsHistory, IsSoundHistory, permitted, reply, event};
ghost use Rattle.hub_core.specs.Standing.{IsHub};

use crate::acting::{claim, define, end, place};
use crate::events::{Call, Event, Reply};
use crate::laws::every_history_is_sound;
use crate::state::{HubState, Stages};
use cnf_base::{Clause, Lit};
use proof_log::{Log, Pairs};
use shared_history::{Back, Law, NoMemory};
use smt_terms::terms::Terms;
use std::alloc::Global;
use std::marker::Model;

/// What the hub is opened over: a log, the terms that it stands over, the literals of each cube, and those that the check
/// assumes.
#[derive(Drop)]
pub struct HubLaw<'a> {
    log: Log,
    terms: &'a Terms,
    cubes: Vec<Clause>,
    assumed: Vec<Lit>,
}

impl<'a> Model for HubLaw<'a> {
    ghost use Rattle.hub_core.specs.Hubs.{HubValue, IsOpening};

    ghost Value = { HubValue };

    ghost view = { λ h.
        record {
          nodes = h.terms.now.nodes;
          log = h.log;
          cubes = h.cubes.items;
          assumed = h.assumed.items;
        } };

    ghost invariant = { λ h. IsOpening
        (record {
          nodes = h.terms.now.nodes;
          log = h.log;
          cubes = h.cubes.items;
          assumed = h.assumed.items;
        }) };
}

impl<'a> HubLaw<'a> {
    /// The law over this log, which stands over these terms.
    pub fn new(log: Log, terms: &'a Terms, cubes: Vec<Clause>, assumed: Vec<Lit>) -> HubLaw<'a>
        requires { IsOpening
            (record {
              nodes = terms.now.nodes;
              log = log;
              cubes = cubes.items;
              assumed = assumed.items;
            }) }
        ensures { result
            ≡ record {
              nodes = terms.now.nodes;
              log = log;
              cubes = cubes.items;
              assumed = assumed.items;
            } }
    {
        HubLaw {
            log,
            terms,
            cubes,
            assumed,
        }
    }

    /// The opening log.
    pub fn log(&self) -> &Log
        ensures log { result.now ≡ self.now.log }
        ensures opening { IsOpening self.now }
    {
        &self.log
    }

    /// The opening log, taken back.
    pub fn into_log(self) -> Log
        ensures { result ≡ self.entry.log }
    {
        self.log
    }

    /// The terms that the log stands over.
    pub fn terms(&self) -> &Terms
        ensures { result.now.nodes ≡ self.now.nodes }
    {
        self.terms
    }

    /// The literals that the check assumes.
    pub fn assumed(&self) -> &[Lit]
        ensures literals { result.now ≡ self.now.assumed }
        ensures below { AreBelow self.now.log.next result.now }
    {
        self.assumed.as_slice()
    }

    /// How many cubes there are.
    pub fn cubes(&self) -> u32
        ensures { result ≡ length self.now.cubes }
    {
        self.cubes.len() as u32
    }

    /// The literals of a cube.
    pub fn cube(&self, number: u32) -> &[Lit]
        requires { number < length self.now.cubes }
        ensures literals { result.now ≡ slice_index_or self.now.cubes number [] }
        ensures below { AreBelow self.now.log.next result.now }
    {
        self.cubes[number as usize].literals()
    }

    /// The state that stepping through a history leaves.
    pub fn replay(&self, alloc: Global, events: &[Event]) -> Result<HubState, NoMemory>
        requires { IsHistory self.now events.now }
        ensures { IfOk result (λ s. IsHub self.now s events.now) }
    {
        let mut state = self.first(alloc)?;
        for event in events {
            answer(self, &mut state, event.pass, &event.call)?;
        }
        Ok(state)
    }

    /// The state that stepping through a history leaves. Of each history that is permitted the whole log is sound.
    pub fn every_run(&self, alloc: Global, events: &[Event]) -> Result<HubState, NoMemory>
        requires { IsHistory self.now events.now }
        ensures state { IfOk result (λ s. IsHub self.now s events.now) }
        ensures sound { IsSoundHistory self.now events.now }
    {
        every_history_is_sound();
        // Tells that the log stands over the terms.
        let _opening = self.log();
        self.replay(alloc, events)
    }
}

// What the state becomes, and the answer.
fn answer<'a>(
    law: &HubLaw<'a>,
    state: &mut HubState,
    pass: u32,
    call: &Call,
) -> Result<Reply, NoMemory>
    requires { (history : List Event) × IsHub law.now state.old history
        × permitted law.now history pass call.now }
    ensures { (history : List Event) → IsHub law.now state.old history
        → permitted law.now history pass call.now →
        MatchResult result
        (λ r. (r ≡ reply law.now history call.now)
        × IsHub law.now state.new (history ++ event pass call.now ∷ []))
        (λ _. IsHub law.now state.new history) }
{
    match call {
        Call::Define(lower, upper) => {
            let opened = law.log.equals().place_of(*lower, *upper);
            let defined = define(state, opened, *lower, *upper)?;
            Ok(Reply::At(defined))
        }
        Call::PutLemma(_) => {
            let last = place(state)?;
            Ok(Reply::At(last))
        }
        Call::PutChain(_, _) => {
            let at = place(state)?;
            Ok(Reply::At(at))
        }
        Call::Claim => {
            let cube = claim(state, law.cubes(), pass)?;
            Ok(Reply::Cube(cube))
        }
        Call::Close(cube, at) => {
            end(state, *cube, Some(*at), false, false);
            Ok(Reply::Done)
        }
        Call::Spend(cube) => {
            end(state, *cube, None, true, false);
            Ok(Reply::Done)
        }
        Call::Found(cube) => {
            end(state, *cube, None, false, true);
            Ok(Reply::Done)
        }
    }
}

impl<'a> Law for HubLaw<'a> {
    type Entry = Event;

    type Call = Call;

    type Reply = Reply;

    type State = HubState;

    ghost use Rattle.std.specs.Prelude.{refl};
    ghost use Rattle.hub_core.specs.Hubs.{by_of, permitted, event, reply};
    ghost use Rattle.hub_core.specs.Standing.{IsHub};
    ghost use Rattle.hub_core.specs.Stays.{stays_permitted};

    ghost by = { by_of };

    ghost permits = { permitted };

    ghost entry_of = { λ law h n c. event n c };

    ghost reply_of = { λ law h n c. reply law h c };

    ghost stands = { IsHub };

    fn first(&self, alloc: Global) -> Result<HubState, NoMemory> {
        Ok(HubState {
            count: self.log.len(),
            pairs: Pairs::new(alloc),
            stages: Stages::new(alloc),
            found: false,
        })
    }

    fn act(
        &self,
        alloc: Global,
        state: &mut HubState,
        pass: u32,
        call: Call,
    ) -> Result<(Event, Reply), Back<Call>> {
        let _ = alloc;
        match answer(self, state, pass, &call) {
            Ok(reply) => Ok((Event { pass, call }, reply)),
            Err(_) => Err(Back { kept: call }),
        }
    }

    fn copy(&self, alloc: Global, entry: &Event) -> Result<Event, NoMemory> {
        match entry.call.copy(alloc) {
            Ok(call) => Ok(Event {
                pass: entry.pass,
                call,
            }),
            Err(_) => Err(NoMemory),
        }
    }

    ghost stamped = { λ law h n c. refl };

    ghost stays = { stays_permitted };
}
