//! Clauses of one literal for what was forced at level 0.

ghost use Rattle.std.specs.Prelude.{OnOk};
ghost use Rattle.cdcl_loop.specs.Engines.{IsEngine};

use crate::Engine;
use crate::tests::begun;
use cnf_base::{ClauseId, Pos};
use std::alloc::AllocError;
use std::test::Fail;

// Keeps the next clause of one literal under this position: the place of its literal, and how many hints it has.
fn keep_next(engine: &mut Engine, at: Pos) -> Result<Option<(usize, usize)>, AllocError>
    requires { IsEngine engine.old }
    ensures { OnOk result (IsEngine engine.new) }
{
    if engine.clause(ClauseId { pos: at, part: 0 }).is_some() {
        return Err(AllocError);
    }
    let Some((place, clause, hints)) = engine.next_unit()? else {
        return Ok(None);
    };
    engine.keep_unit(clause, place, at)?;
    Ok(Some((place, hints.len())))
}

// The same of three in turn.
fn told(engine: &mut Engine) -> Result<[Option<(usize, usize)>; 3], AllocError>
    requires { IsEngine engine.old }
{
    if let Some(_) = engine.propagate() {
        return Err(AllocError);
    }
    let first = keep_next(engine, 7)?;
    let second = keep_next(engine, 8)?;
    let third = keep_next(engine, 9)?;
    Ok([first, second, third])
}

#[test]
fn what_was_forced_at_level_0_has_a_clause_of_its_own(rt: HostRuntime) -> Result<(), Fail> {
    let mut engine = begun(rt.alloc(), &[&[1], &[-1, 2], &[-1, -2, 3]], &[])?;
    let told = told(&mut engine);
    drop(engine);
    assert_eq!(rt; told?, [Some((1, 2)), Some((2, 3)), None]);
    Ok(())
}
