//! Restarts of small searches, and the clauses that would go.

ghost use Rattle.std.specs.Prelude.{OnOk};
ghost use Rattle.cdcl_core.specs.Search.{IsConflict};
ghost use Rattle.cdcl_loop.specs.Engines.{IsEngine, IsOnCourse};

use crate::Engine;
use crate::tests::{assume, begun, list_below, literals};
use cdcl_learn::Clash;
use cnf_base::{ClauseId, Pos};
use std::alloc::{AllocError, Global};
use std::test::Fail;

// The level behind a restart without a conflict, the worse half of the clauses then, and the level behind them.
fn rested(engine: &mut Engine) -> Result<(u64, Vec<Pos>, u64), AllocError>
    requires engine { IsEngine engine.old }
    requires course { IsOnCourse engine.old }
{
    assume(engine)?;
    engine.restart();
    let level = engine.level();
    let worst = engine.worst()?;
    Ok((level, worst, engine.level()))
}

#[test]
fn the_longer_clause_is_the_worse_half(rt: HostRuntime) -> Result<(), Fail> {
    let mut engine = begun(rt.alloc(), &[&[1, 2, 3], &[4, 5, 6, 7], &[8, 9]], &[1, 2])?;
    let drops = engine.drops_now();
    let told = rested(&mut engine);
    drop(engine);
    let (level, worst, end) = told?;
    assert!(rt; !drops);
    assert_eq!(rt; (level, end), (2, 0));
    assert_eq!(rt; worst.as_slice(), [2].as_slice());
    Ok(())
}

// Learns so many times from a conflict above level 0, and holds nothing.
fn learn_often(engine: &mut Engine, conflict: ClauseId, times: u64) -> Result<(), AllocError>
    requires engine { IsEngine engine.old }
    requires conflict { IsConflict engine.old.watches engine.old.trail conflict }
    ensures { OnOk result (IsEngine engine.new) }
{
    if engine.level() == 0 {
        return Err(AllocError);
    }
    'rounds: for _ in 0..times {
        let _ = engine.learn(conflict)?;
    }
    Ok(())
}

// Decides a listed variable, where nothing contradicts the decisions before.
fn decide_next(engine: &mut Engine) -> Result<(), AllocError>
    requires engine { IsEngine engine.old }
    requires course { IsOnCourse engine.old }
    ensures engine { OnOk result (IsEngine engine.new) }
    ensures course { OnOk result (IsOnCourse engine.new) }
{
    assume(engine)?;
    if !engine.decide()? {
        return Err(AllocError);
    }
    Ok(())
}

// The same of the clause that is false where these literals are given, and so many variables decided behind them.
fn learn_under(
    engine: &mut Engine,
    given: &[i64],
    decisions: u64,
    times: u64,
) -> Result<(), AllocError>
    requires { IsEngine engine.old }
    ensures { OnOk result (IsEngine engine.new) }
{
    let given = literals(engine.alloc, given)?;
    engine.begin(given);
    'decisions: for _ in 0..decisions {
        decide_next(engine)?;
    }
    let Some(id) = engine.propagate() else {
        return Err(AllocError);
    };
    learn_often(engine, id, times)
}

// The level behind a decision and a restart, where sixty conflicts of one level came, and then so many under these literals.
fn restarted(
    engine: &mut Engine,
    given: &[i64],
    decisions: u64,
    times: u64,
) -> Result<u64, AllocError>
    requires { IsEngine engine.old }
{
    list_below(engine, 9)?;
    learn_under(engine, &[], 1, 60)?;
    learn_under(engine, given, decisions, times)?;
    let none = Vec::new(engine.alloc);
    engine.begin(none);
    decide_next(engine)?;
    engine.restart();
    Ok(engine.level())
}

fn level_behind(
    alloc: Global,
    given: &[i64],
    decisions: u64,
    times: u64,
) -> Result<u64, AllocError> {
    let wide: [&[i64]; 2] = [&[3, 4, 5, 6, 7], &[3, 4, 5, 6, -7]];
    let mut engine = begun(alloc, &[&[1, 2], &[1, -2], wide[0], wide[1]], &[])?;
    let level = restarted(&mut engine, given, decisions, times);
    drop(engine);
    level
}

#[test]
fn a_search_restarts_where_conflicts_span_more_levels(rt: HostRuntime) -> Result<(), Fail> {
    assert_eq!(rt; level_behind(rt.alloc(), &[1], 5, 0)?, 1);
    assert_eq!(rt; level_behind(rt.alloc(), &[1], 5, 30)?, 0);
    Ok(())
}

#[test]
fn levels_of_given_literals_count_for_nothing(rt: HostRuntime) -> Result<(), Fail> {
    assert_eq!(rt; level_behind(rt.alloc(), &[1, -3, -4, -5], 2, 30)?, 1);
    Ok(())
}
