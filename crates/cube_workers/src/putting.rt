//! The steps of a closed history, put into the log that its hub was opened over.

ghost use Rattle.std.specs.Prelude.{◌≡◌, ◌++◌, ◌∷◌, [], ℕ, List, length, take, IfOk, OnOk, OnErr};
ghost use Rattle.proof_log.specs.Stored.{Stands};
ghost use Rattle.hub_core.specs.Hubs.{HubValue, IsHistory, added, event};
ghost use Rattle.hub_core.specs.declared.events.Event.{Event as Made};
ghost use Rattle.cube_workers.specs.Histories.{MayPut, IsMadeBy, ArePlaces};

use cnf_base::Pos;
use hub_core::{Call, Event};
use proof_log::Log;
use proof_log::entry::Entry;
use shared_history::Pieces;
use smt_terms::terms::Terms;
use std::alloc::{AllocError, Global};

// Puts the step that a call adds, if it adds one: a pair of terms that has a variable gets no second one. For want of memory
// the log is as before.
fn put_step(alloc: Global, terms: &Terms, log: &mut Log, call: &Call) -> Result<(), AllocError>
    requires stands { Stands terms.now.nodes log.old }
    requires valid { MayPut terms.now.nodes log.old.entries call.now }
    ensures stands { Stands terms.now.nodes log.new }
    ensures ok { OnOk result
        (log.new.entries ≡ log.old.entries ++ added log.old.entries call.now) }
    ensures err { OnErr result (log.new ≡ log.old) }
{
    match call {
        Call::Define(lower, upper) => {
            if let Some(_) = log.equals().place_of(*lower, *upper) {
                return Ok(());
            }
            log.push(alloc, terms, Entry::Equal(*lower, *upper))?;
            Ok(())
        }
        Call::PutLemma(lemma) => {
            log.push(alloc, terms, Entry::Lemma(lemma.copy()?))?;
            Ok(())
        }
        Call::PutChain(clause, hints) => {
            let step = Entry::Chain(clause.copy(alloc)?, hints.copy(alloc)?);
            log.push(alloc, terms, step)?;
            Ok(())
        }
        Call::Claim => Ok(()),
        Call::Close(_, _) => Ok(()),
        Call::Spend(_) => Ok(()),
        Call::Found(_) => Ok(()),
    }
}

/// Puts the steps of a history, in its order, into the log that its hub was opened over: each stands at the position that its
/// event drew. For want of memory the log has the steps of a beginning of the history.
pub fn put_history(
    alloc: Global,
    terms: &Terms,
    log: &mut Log,
    events: &Pieces<Event>,
) -> Result<(), AllocError>
    requires stands { Stands terms.now.nodes log.old }
    requires made { (law : HubValue) × (law.nodes ≡ terms.now.nodes)
        × (law.log.entries ≡ log.old.entries) × IsHistory law events.now }
    ensures stands { Stands terms.now.nodes log.new }
    ensures part { (k : ℕ) × IsMadeBy (take k events.now) log.old.entries log.new.entries }
    ensures all { OnOk result (IsMadeBy events.now log.old.entries log.new.entries) }
{
    'events: for at in 0..events.len() {
        let Some(event) = events.get(at) else {
            unreachable!()
        };
        put_step(alloc, terms, log, &event.call)?;
    }
    Ok(())
}

// Keeps the position at which a cube was closed.
fn keep_place(places: &mut Vec<Pos>, call: &Call)
    ensures len { length places.new.items ≡ length places.old.items }
    ensures places { (law : HubValue) (seen : List Made) (n : ℕ)
        → ArePlaces law seen places.old.items
        → ArePlaces law (seen ++ event n call.now ∷ []) places.new.items }
{
    if let Call::Close(cube, at) = call {
        let place = *cube as usize;
        if place < places.len() {
            places[place] = *at;
        }
    }
}

/// The positions at which the cubes below a number were closed, by cube: of each that the history closed, the last one.
pub fn positions_in(
    alloc: Global,
    cubes: u32,
    events: &Pieces<Event>,
) -> Result<Vec<Pos>, AllocError>
    ensures len { IfOk result (λ v. length v.items ≡ cubes) }
    ensures places { IfOk result (λ v. (law : HubValue) → ArePlaces law events.now v.items) }
{
    let mut places = Vec::new(alloc);
    'cubes: for _ in 0..cubes {
        places.push(0)?;
    }
    'events: for at in 0..events.len() {
        let Some(event) = events.get(at) else {
            unreachable!()
        };
        keep_place(&mut places, &event.call);
    }
    Ok(places)
}
