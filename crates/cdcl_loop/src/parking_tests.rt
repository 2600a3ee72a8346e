//! Clauses that are kept, woken and parked.

ghost use Rattle.std.specs.Prelude.{◌≡◌};
ghost use Rattle.cdcl_core.specs.Search.{level_of};
ghost use Rattle.cdcl_loop.specs.Engines.{IsEngine};

use crate::Engine;
use crate::tests::{begun, literals};
use cnf_base::{Clause, ClauseId};
use std::alloc::AllocError;
use std::test::Fail;

// Whether the clause is held, and how many literals are true at rest, at level 0.
fn at_rest(engine: &mut Engine, id: ClauseId) -> Result<(bool, usize), AllocError>
    requires engine { IsEngine engine.old }
    requires level { level_of engine.old.trail ≡ 0 }
    ensures engine { IsEngine engine.new }
    ensures level { level_of engine.new.trail ≡ 0 }
{
    if let Some(_) = engine.propagate() {
        return Err(AllocError);
    }
    Ok((engine.holds(id), engine.trail().literals().len()))
}

// The same of a clause that is stored, woken and parked, and then of another one before and after all are parked.
fn told(engine: &mut Engine, other: ClauseId) -> Result<[(bool, usize); 5], AllocError>
    requires { IsEngine engine.old }
{
    let id = ClauseId { pos: 9, part: 0 };
    if engine.clause(id).is_some() || engine.level() != 0 {
        return Err(AllocError);
    }
    let clause = Clause::from_vec(literals(engine.alloc, &[-1, 2])?);
    engine.store(id, clause)?;
    let stored = at_rest(engine, id)?;
    engine.wake(id);
    let woken = at_rest(engine, id)?;
    engine.park(id);
    let parked = at_rest(engine, id)?;
    let held = at_rest(engine, other)?;
    engine.park_all();
    let none = at_rest(engine, other)?;
    Ok([stored, woken, parked, held, none])
}

#[test]
fn a_clause_forces_nothing_before_it_is_woken(rt: HostRuntime) -> Result<(), Fail> {
    let mut engine = begun(rt.alloc(), &[&[1]], &[])?;
    let told = told(&mut engine, ClauseId { pos: 1, part: 0 });
    drop(engine);
    assert_eq!(rt;
        told?,
        [(false, 1), (true, 2), (false, 2), (true, 2), (false, 2)]
    );
    Ok(())
}
