//! Worked histories, with ample memory.

ghost use Rattle.std.specs.Prelude.{◌≡◌, [], ◌∷◌, List, IfOk};
ghost use Rattle.cnf_base.specs.Literals.{true_literal, false_literal};
ghost use Rattle.hub_core.specs.declared.events.Event.{Event};
ghost use Rattle.hub_core.specs.declared.events.Call.TheVariants.{Claim};
ghost use Rattle.hub_core.specs.Hubs.{event};
ghost use Rattle.hub_core.specs.Standing.{IsHub};

use crate::{Call, Event, HubLaw, HubState, Reply};
use cnf_base::{Clause, Lit};
use proof_log::Log;
use shared_history::Law;
use smt_terms::terms::Terms;
use std::alloc::{AllocError, Global};
use std::test::Fail;

// The two cubes of variable 1, which is true.
fn two_cubes(alloc: Global) -> Result<Vec<Clause>, AllocError>
    ensures { IfOk result (λ cubes. cubes.items ≡ (true_literal ∷ []) ∷ (false_literal ∷ []) ∷ []) }
{
    let mut cubes = Vec::new(alloc);
    cubes.push(Clause::of_one(alloc, Lit::TRUE)?)?;
    cubes.push(Clause::of_one(alloc, Lit::FALSE)?)?;
    Ok(cubes)
}

// The hub over a log without a step, with two cubes.
fn opened<'a>(alloc: Global, terms: &'a Terms) -> Result<HubLaw<'a>, AllocError> {
    let log = Log::new(alloc)?;
    let _held = terms.len();
    let cubes = two_cubes(alloc)?;
    Ok(HubLaw::new(log, terms, cubes, Vec::new(alloc)))
}

// What the law answers to a claim of a pass.
fn claimed(
    alloc: Global,
    law: &HubLaw<'_>,
    state: &mut HubState,
    pass: u32,
) -> Result<Reply, AllocError>
    requires { (history : List Event) × IsHub law.now state.old history }
    ensures { (history : List Event) × IsHub law.now state.new history }
{
    match law.act(alloc, state, pass, Call::Claim) {
        Ok((_, reply)) => Ok(reply),
        Err(_) => Err(AllocError),
    }
}

// What four claims of two passes are answered, one after another.
fn four_claims(alloc: Global, law: &HubLaw<'_>) -> Result<[Reply; 4], AllocError> {
    let Ok(mut state) = law.first(alloc) else {
        return Err(AllocError);
    };
    let first = claimed(alloc, law, &mut state, 0)?;
    let second = claimed(alloc, law, &mut state, 1)?;
    let third = claimed(alloc, law, &mut state, 0)?;
    let fourth = claimed(alloc, law, &mut state, 1)?;
    Ok([first, second, third, fourth])
}

#[test]
fn two_cubes_are_claimed_by_two_passes(rt: HostRuntime) -> Result<(), Fail> {
    let alloc = rt.alloc();
    let terms = Terms::new(alloc);
    let replies = four_claims(alloc, &opened(alloc, &terms)?)?;
    assert_eq!(rt; replies[0], Reply::Cube(Some(0)));
    assert_eq!(rt; replies[1], Reply::Cube(Some(1)));
    assert_eq!(rt; replies[2], Reply::Cube(None));
    assert_eq!(rt; replies[3], Reply::Cube(None));
    Ok(())
}

fn claim(pass: u32) -> Event
    ensures { result ≡ event pass Claim }
{
    Event {
        pass,
        call: Call::Claim,
    }
}

fn holder(state: &HubState, cube: u32) -> Option<u32> {
    match state.stages.get(cube) {
        Some(stage) => Some(stage.holder),
        None => None,
    }
}

// Which passes have the cubes 0, 1 and 2 after claims of these passes.
fn holders(
    alloc: Global,
    law: &HubLaw<'_>,
    passes: [u32; 3],
) -> Result<[Option<u32>; 3], AllocError> {
    let events = [claim(passes[0]), claim(passes[1]), claim(passes[2])];
    match law.every_run(alloc, &events) {
        Ok(state) => Ok([holder(&state, 0), holder(&state, 1), holder(&state, 2)]),
        Err(_) => Err(AllocError),
    }
}

#[test]
fn a_run_leaves_who_has_which_cube(rt: HostRuntime) -> Result<(), Fail> {
    let alloc = rt.alloc();
    let terms = Terms::new(alloc);
    let found = holders(alloc, &opened(alloc, &terms)?, [7, 3, 7])?;
    assert_eq!(rt; found[0], Some(7));
    assert_eq!(rt; found[1], Some(3));
    assert_eq!(rt; found[2], None);
    Ok(())
}

// Which pass has cube 0 after a claim of this pass, told by stepping through it.
fn replayed(alloc: Global, law: &HubLaw<'_>, pass: u32) -> Result<Option<u32>, AllocError> {
    match law.replay(alloc, &[claim(pass)]) {
        Ok(state) => Ok(holder(&state, 0)),
        Err(_) => Err(AllocError),
    }
}

#[test]
fn a_replay_leaves_who_has_which_cube(rt: HostRuntime) -> Result<(), Fail> {
    let alloc = rt.alloc();
    let terms = Terms::new(alloc);
    assert_eq!(rt; replayed(alloc, &opened(alloc, &terms)?, 5)?, Some(5));
    Ok(())
}

// A copy of the event in which a pass claims a cube.
fn copied(alloc: Global, law: &HubLaw<'_>, pass: u32) -> Result<Event, AllocError> {
    let claim = Event {
        pass,
        call: Call::Claim,
    };
    match law.copy(alloc, &claim) {
        Ok(copy) => Ok(copy),
        Err(_) => Err(AllocError),
    }
}

#[test]
fn a_copied_event_is_that_of_its_pass(rt: HostRuntime) -> Result<(), Fail> {
    let alloc = rt.alloc();
    let terms = Terms::new(alloc);
    let law = opened(alloc, &terms)?;
    let copy = copied(alloc, &law, 3)?;
    assert!(rt; copy.pass == 3 && matches!(copy.call, Call::Claim));
    Ok(())
}

#[test]
fn a_law_tells_what_it_was_made_of(rt: HostRuntime) -> Result<(), Fail> {
    let alloc = rt.alloc();
    let terms = Terms::new(alloc);
    let law = opened(alloc, &terms)?;
    assert_eq!(rt; law.cubes(), 2);
    assert!(rt; law.assumed().is_empty());
    assert_eq!(rt; law.terms().len(), 0);
    assert_eq!(rt; law.log().len(), 1);
    assert_eq!(rt; law.into_log().over(), 0);
    Ok(())
}
