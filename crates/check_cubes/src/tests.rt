//! Worked limits and cubes, with ample memory.

ghost use Rattle.proof_log.specs.Stored.{Stands};

use crate::{Limits, cube_literals, cube_variables, search};
use cnf_base::{Lit, Pos};
use proof_log::Log;
use script_state::state::State;
use std::alloc::{AllocError, Global};
use std::test::Fail;
use term_reach::Reached;

// Whether the cube of this number over the variables 5 and 7 has these literals; none where there is no such cube.
fn has_cube(alloc: Global, cube: u64, expected: Option<[Lit; 2]>) -> Result<bool, AllocError> {
    let literals = cube_literals(alloc, &[5, 7], cube)?;
    match (literals, expected) {
        (Some(literals), Some(expected)) => Ok(literals.as_slice() == expected.as_slice()),
        (None, None) => Ok(true),
        _ => Ok(false),
    }
}

#[test]
fn two_variables_have_four_cubes(rt: HostRuntime) -> Result<(), Fail> {
    let alloc = rt.alloc();
    let (a, b) = (Lit::new(5, true), Lit::new(7, true));
    assert!(rt; has_cube(alloc, 0, Some([a, b]))?);
    assert!(rt; has_cube(alloc, 1, Some([a.negated(), b]))?);
    assert!(rt; has_cube(alloc, 2, Some([a, b.negated()]))?);
    assert!(rt; has_cube(alloc, 3, Some([a.negated(), b.negated()]))?);
    assert!(rt; has_cube(alloc, 4, None)?);
    Ok(())
}

const TWO: Limits = Limits {
    cubes: 2,
    budget: 5,
};

// How many literals the search of a cube takes as true; none where it may not start.
fn taken(
    alloc: Global,
    state: &State,
    log: &Log,
    cube: u64,
    start: Pos,
) -> Result<Option<usize>, AllocError>
    requires { Stands state.now.terms.nodes log.now }
{
    let mut reached = Reached::new(alloc);
    let given = search(alloc, state, log, TWO, cube, start, &mut reached)?;
    Ok(given.map(|given| given.len()))
}

// Whether there is no variable to split, and one search of one cube, which takes nothing as true.
fn has_one_cube(alloc: Global, state: &State, log: &Log) -> Result<bool, AllocError>
    requires { Stands state.now.terms.nodes log.now }
{
    let mut reached = Reached::new(alloc);
    let variables = cube_variables(alloc, state, log, TWO, &mut reached)?;
    Ok(
        variables.is_empty()
            && taken(alloc, state, log, 0, 1)? == Some(0)
            && taken(alloc, state, log, 0, 2)?.is_none()
            && taken(alloc, state, log, 1, 1)?.is_none(),
    )
}

// The same before any command.
fn nothing_has_one_cube(alloc: Global) -> Result<bool, AllocError> {
    let state = State::new(alloc);
    let Ok(log) = Log::new(alloc) else {
        drop(state);
        return Err(AllocError);
    };
    let told = has_one_cube(alloc, &state, &log);
    drop((state, log));
    told
}

#[test]
fn a_check_of_nothing_has_one_cube(rt: HostRuntime) -> Result<(), Fail> {
    assert!(rt; nothing_has_one_cube(rt.alloc())?);
    Ok(())
}

#[test]
fn limits_end_at_ten_variables_and_a_thousand_million_chains(rt: HostRuntime) -> Result<(), Fail> {
    let most = Limits {
        cubes: 10,
        budget: 1_000_000_000,
    };
    assert!(rt; Limits::within(10, 1_000_000_000) == Some(most));
    assert!(rt; Limits::within(11, 0).is_none());
    assert!(rt; Limits::within(0, 1_000_000_001).is_none());
    Ok(())
}
