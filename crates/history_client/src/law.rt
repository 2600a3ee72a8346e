//! The pool's law.
ghost use Rattle.std.specs.Prelude.{◌≡◌, ℕ, ◌<◌};

use shared_history::{Back, Law, NoMemory};
use std::alloc::Global;

/// What a pass asks of the pool.
#[derive(Clone, Copy, PartialEq)]
pub enum Call {
    /// Notes a topic, by its place among the pool's topics.
    Note(u64),
    /// Claims the next job.
    Claim,
    /// Finishes a job that the pass claimed.
    Finish,
}

/// A call and the number of the pass that made it.
#[derive(Clone, Copy, PartialEq)]
pub struct Event {
    pub pass: u32,
    pub call: Call,
}

#[derive(Clone, Copy, PartialEq)]
pub enum Reply {
    /// How many notes stood before this one.
    Noted(u64),
    /// The job's number, or `None` where all are claimed.
    Job(Option<u32>),
    Finished,
}

#[derive(Drop)]
pub struct Pool<'a> {
    pub topics: &'a [u64],
    pub jobs: u32,
}

/// How many notes there are, and how many jobs are claimed.
#[derive(Drop)]
pub struct Tally {
    pub notes: u64,
    pub claimed: u32,
}

impl<'a> Law for Pool<'a> {
    type Entry = Event;

    type Call = Call;

    type Reply = Reply;

    type State = Tally;

    ghost use Rattle.history_client.specs.Pools.{permitted, event, reply, IsTally, by_of};
    ghost use Rattle.history_client.specs.Staying.{permitted_stays};
    ghost use Rattle.std.specs.Prelude.{refl};

    ghost by = { by_of };

    ghost permits = { λ law h n c. permitted law.topics.now h n c };

    ghost entry_of = { λ law h n c. event n c };

    ghost reply_of = { λ law h n c. reply law.jobs h c };

    ghost stands = { λ law s h. IsTally law.jobs s h };

    fn first(&self, alloc: Global) -> Result<Tally, NoMemory> {
        Ok(Tally {
            notes: 0,
            claimed: 0,
        })
    }

    fn act(
        &self,
        alloc: Global,
        state: &mut Tally,
        pass: u32,
        call: Call,
    ) -> Result<(Event, Reply), Back<Call>> {
        let reply = match call {
            Call::Note(_) => {
                let before = state.notes;
                if before == u64::MAX {
                    return Err(Back { kept: call });
                }
                state.notes = before + 1;
                Reply::Noted(before)
            }
            Call::Claim => {
                if state.claimed < self.jobs {
                    let job = state.claimed;
                    state.claimed += 1;
                    Reply::Job(Some(job))
                } else {
                    Reply::Job(None)
                }
            }
            Call::Finish => Reply::Finished,
        };
        Ok((Event { pass, call }, reply))
    }

    fn copy(&self, alloc: Global, entry: &Event) -> Result<Event, NoMemory> {
        Ok(*entry)
    }

    ghost stamped = { λ law h n c. refl };

    ghost stays = { λ law h more n c none may. permitted_stays law.topics.now h more n c none may };
}
