//! Small searches. The numbers of the tables are literals: variables, negated where they are negative.

ghost use Rattle.std.specs.Prelude.{◌<◌, ◌^◌, IfOk, OnOk};
ghost use Rattle.cdcl_loop.specs.Engines.{IsEngine, IsOnCourse, IsAssumed};

use crate::Engine;
use cdcl_core::{Trail, Watches};
use cdcl_learn::Clash;
use cnf_base::{Clause, ClauseId, Lit, Pos};
use std::alloc::{AllocError, Global};
use std::test::Fail;

pub(crate) fn literals(alloc: Global, numbers: &[i64]) -> Result<Vec<Lit>, AllocError> {
    let mut literals = Vec::new(alloc);
    for number in numbers {
        let variable = number.unsigned_abs().clamp(1, 9);
        literals.push(Lit::new(variable, *number > 0))?;
    }
    Ok(literals)
}

// Whether there is such a clause, where one is wanted.
fn is_clause(
    alloc: Global,
    found: Option<&Clause>,
    wanted: Option<&[i64]>,
) -> Result<bool, AllocError> {
    match (found, wanted) {
        (Some(clause), Some(numbers)) => {
            let literals = literals(alloc, numbers)?;
            Ok(clause.literals() == literals.as_slice())
        }
        (None, None) => Ok(true),
        _ => Ok(false),
    }
}

// Holds a clause at a position that is free.
fn hold(engine: &mut Engine, at: Pos, numbers: &[i64]) -> Result<(), AllocError>
    requires { IsEngine engine.old }
    ensures engine { OnOk result (IsEngine engine.new) }
    ensures course { OnOk result (IsOnCourse engine.old → IsOnCourse engine.new) }
{
    let clause = Clause::from_vec(literals(engine.alloc, numbers)?);
    if engine.clause(ClauseId { pos: at, part: 0 }).is_some() {
        return Err(AllocError);
    }
    engine.admit(clause, at)
}

// Holds the clauses at the positions from 1 on.
fn hold_all(engine: &mut Engine, clauses: &[&[i64]]) -> Result<(), AllocError>
    requires engine { IsEngine engine.old }
    requires course { IsOnCourse engine.old }
    ensures engine { OnOk result (IsEngine engine.new) }
    ensures course { OnOk result (IsOnCourse engine.new) }
{
    'clauses: for i in 0..clauses.len() {
        hold(engine, i as u64 + 1, clauses[i])?;
    }
    Ok(())
}

// An engine without a clause.
fn empty(alloc: Global) -> Result<Engine, AllocError>
    ensures engine { IfOk result (λ e. IsEngine e) }
    ensures course { IfOk result (λ e. IsOnCourse e) }
{
    let watches = Watches::new(alloc)?;
    let trail = Trail::new(alloc);
    Ok(Engine::new(alloc, watches, trail))
}

// An engine over the clauses, where a search under the given literals begins.
pub(crate) fn begun(alloc: Global, clauses: &[&[i64]], given: &[i64]) -> Result<Engine, AllocError>
    ensures engine { IfOk result (λ e. IsEngine e) }
    ensures course { IfOk result (λ e. IsOnCourse e) }
{
    let given = literals(alloc, given)?;
    let mut engine = empty(alloc)?;
    match hold_all(&mut engine, clauses) {
        Ok(()) => {
            engine.begin(given);
            Ok(engine)
        }
        Err(error) => {
            drop(engine);
            Err(error)
        }
    }
}

// Decides the given literals, which nothing contradicts.
pub(crate) fn assume(engine: &mut Engine) -> Result<(), AllocError>
    requires engine { IsEngine engine.old }
    requires course { IsOnCourse engine.old }
    ensures engine { OnOk result (IsEngine engine.new) }
    ensures course { OnOk result (IsOnCourse engine.new) }
    ensures assumed { OnOk result
        (IsAssumed engine.new.watches engine.new.trail engine.new.given.items) }
{
    if let Some(_) = engine.propagate() {
        return Err(AllocError);
    }
    if let Some(_clash) = engine.assume()? {
        return Err(AllocError);
    }
    Ok(())
}

// Lists the variables from 1 on below the bound.
pub(crate) fn list_below(engine: &mut Engine, bound: u64) -> Result<(), AllocError>
    requires bound { bound < 2 ^ 63 }
    ensures engine { IsEngine engine.old → IsEngine engine.new }
    ensures course { IsOnCourse engine.old → IsOnCourse engine.new }
{
    'variables: for variable in 1..bound {
        engine.list(variable)?;
    }
    Ok(())
}

// ---- what closes a search

// The clause that closes the search before another variable is decided, None where nothing contradicts the given literals.
fn closing(engine: &mut Engine) -> Result<Option<Clause>, AllocError>
    requires engine { IsEngine engine.old }
    requires course { IsOnCourse engine.old }
{
    if let Some(id) = engine.propagate() {
        let (clause, _hints) = engine.final_clause(Clash::Held(id))?;
        return Ok(Some(clause));
    }
    let Some(clash) = engine.assume()? else {
        return Ok(None);
    };
    let (clause, _hints) = engine.final_clause(clash)?;
    Ok(Some(clause))
}

// Whether a search under the given literals is closed so, before a variable is decided.
fn is_closed(
    alloc: Global,
    clauses: &[&[i64]],
    given: &[i64],
    wanted: Option<&[i64]>,
) -> Result<bool, AllocError> {
    let mut engine = begun(alloc, clauses, given)?;
    let closed = closing(&mut engine);
    drop(engine);
    let closed = closed?;
    is_clause(alloc, closed.as_ref(), wanted)
}

// Clauses, given literals, of which the last is decided first, and the clause that closes their search.
const CLOSED: [(&[&[i64]], &[i64], Option<&[i64]>); 8] = [
    // a conflict at level 0
    (&[&[1], &[-1]], &[], Some(&[])),
    (&[&[1, 2], &[1, -2], &[-1]], &[5], Some(&[])),
    (&[&[]], &[5], Some(&[])),
    // a held clause that is false
    (&[&[-1, 2], &[-1, 3], &[-2, -3]], &[1, 5], Some(&[-1])),
    // a given literal that is false
    (&[&[-1, 2], &[-2, -7]], &[7, 1, 5], Some(&[-7, -1])),
    (&[&[7]], &[-7, 5], Some(&[7])),
    (&[], &[-1, 1, 5], Some(&[-1, 1])),
    // nothing
    (&[&[-1, 2], &[-2, 7]], &[7, 1, 5], None),
];

#[test]
fn a_search_is_closed_where_its_given_literals_are_refuted(rt: HostRuntime) -> Result<(), Fail> {
    for (clauses, given, wanted) in &CLOSED {
        let is_so = is_closed(rt.alloc(), clauses, given, *wanted)?;
        assert!(rt; is_so, "{} clauses under {}", clauses.len(), given.len());
    }
    Ok(())
}

// ---- the end of a search

// The values of the variables 1, 2 and 3 where each variable below the bound has one as soon as the given literals are true; None
// where one is decided.
fn values(engine: &mut Engine, bound: u64) -> Result<Option<[bool; 3]>, AllocError>
    requires engine { IsEngine engine.old }
    requires course { IsOnCourse engine.old }
    requires few { bound < 2 ^ 63 }
{
    list_below(engine, bound)?;
    assume(engine)?;
    if engine.decide()? {
        return Ok(None);
    }
    Ok(Some([
        engine.is_true(Lit::new(1, true)),
        engine.is_true(Lit::new(2, true)),
        !engine.is_true(Lit::new(3, false)),
    ]))
}

// The same under the given literals of a search over two clauses.
fn values_under(alloc: Global, given: &[i64], bound: u64) -> Result<Option<[bool; 3]>, AllocError>
    requires { bound < 2 ^ 63 }
{
    let mut engine = begun(alloc, &[&[-1, 2], &[-2, -3]], given)?;
    let found = values(&mut engine, bound);
    drop(engine);
    found
}

#[test]
fn a_search_ends_where_each_variable_has_a_value(rt: HostRuntime) -> Result<(), Fail> {
    let alloc = rt.alloc();
    assert_eq!(rt; values_under(alloc, &[1], 4)?, Some([true, true, false]));
    assert_eq!(rt; values_under(alloc, &[3], 4)?, Some([false, false, true]));
    assert_eq!(rt; values_under(alloc, &[1], 5)?, None);
    assert_eq!(rt; values_under(alloc, &[2], 4)?, None);
    Ok(())
}

// Decides once, and tells the variable; 0 where each listed variable has a value.
fn next_variable(engine: &mut Engine) -> Result<u64, AllocError>
    requires engine { IsEngine engine.old }
    requires course { IsOnCourse engine.old }
    ensures engine { OnOk result (IsEngine engine.new) }
    ensures course { OnOk result (IsOnCourse engine.new) }
{
    assume(engine)?;
    if !engine.decide()? {
        return Ok(0);
    }
    match engine.trail().literals().last() {
        Some(row) => Ok(row.literal().variable()),
        None => Ok(0),
    }
}

// The variables of two decisions, and of those behind the first until each listed variable has a value.
fn in_order(engine: &mut Engine) -> Result<[u64; 5], AllocError>
    requires engine { IsEngine engine.old }
    requires course { IsOnCourse engine.old }
{
    engine.list(5)?;
    engine.list(2)?;
    engine.list(7)?;
    engine.list(1)?;
    let first = next_variable(engine)?;
    let second = next_variable(engine)?;
    lower(engine, 1);
    let again = next_variable(engine)?;
    let third = next_variable(engine)?;
    let end = next_variable(engine)?;
    Ok([first, second, again, third, end])
}

#[test]
fn variables_are_decided_in_their_order(rt: HostRuntime) -> Result<(), Fail> {
    let mut engine = begun(rt.alloc(), &[&[5, 7]], &[])?;
    let told = in_order(&mut engine);
    drop(engine);
    assert_eq!(rt; told?, [5, 2, 2, 1, 0]);
    Ok(())
}

// ---- clauses that come, are learnt, and go

// The level, the base level and the number of true literals where a clause comes behind the given literals.
fn admitted(engine: &mut Engine, numbers: &[i64]) -> Result<(u64, u64, usize), AllocError>
    requires engine { IsEngine engine.old }
    requires course { IsOnCourse engine.old }
{
    assume(engine)?;
    hold(engine, 1, numbers)?;
    let count = engine.trail().literals().len();
    Ok((engine.level(), engine.base(), count))
}

// A clause, the level at which it comes behind the decisions 1, 2 and 3, and how many literals are true then.
const COME: [(&[i64], u64, usize); 8] = [
    (&[4, 5], 3, 3),
    (&[-1, 4], 1, 2),
    (&[-1, -2, -3], 2, 3),
    (&[-2, 1], 3, 3),
    (&[-2, 3], 2, 3),
    (&[4], 0, 1),
    (&[-1], 0, 1),
    (&[], 0, 0),
];

#[test]
fn a_clause_from_elsewhere_goes_back_where_it_asks(rt: HostRuntime) -> Result<(), Fail> {
    for (numbers, level, count) in &COME {
        let mut engine = begun(rt.alloc(), &[], &[3, 2, 1])?;
        let told = admitted(&mut engine, numbers);
        drop(engine);
        assert_eq!(rt; told?, (*level, *level, *count));
    }
    Ok(())
}

// The length and the level of what is learnt from the conflict of the next decision. It is held at position 9.
fn learn_next(engine: &mut Engine) -> Result<(usize, u64), AllocError>
    requires engine { IsEngine engine.old }
    requires course { IsOnCourse engine.old }
    ensures engine { OnOk result (IsEngine engine.new) }
    ensures course { OnOk result (IsOnCourse engine.new) }
{
    list_below(engine, 4)?;
    assume(engine)?;
    if !engine.decide()? {
        return Err(AllocError);
    }
    let Some(id) = engine.propagate() else {
        return Err(AllocError);
    };
    if engine.level() == 0 {
        return Err(AllocError);
    }
    let (clause, _hints, level) = engine.learn(id)?;
    let len = clause.len();
    if let Some(_) = engine.clause(ClauseId { pos: 9, part: 0 }) {
        return Err(AllocError);
    }
    engine.keep(clause, level, 9)?;
    Ok((len, level))
}

// The same, and the clause that closes the search then.
pub(crate) fn learn_and_close(
    engine: &mut Engine,
) -> Result<(usize, u64, Option<Clause>), AllocError>
    requires engine { IsEngine engine.old }
    requires course { IsOnCourse engine.old }
{
    let (len, level) = learn_next(engine)?;
    let closing = closing(engine)?;
    Ok((len, level, closing))
}

// Whether a search under 3 learns a clause of this length at this level, and is closed by this clause then.
fn is_learnt(
    alloc: Global,
    clauses: &[&[i64]],
    len: usize,
    level: u64,
    numbers: &[i64],
) -> Result<bool, AllocError> {
    let mut engine = begun(alloc, clauses, &[3])?;
    let told = learn_and_close(&mut engine);
    drop(engine);
    let (found, at, closing) = told?;
    let is_so = is_clause(alloc, closing.as_ref(), Some(numbers))?;
    Ok(is_so && found == len && at == level)
}

#[test]
fn a_learnt_clause_is_held_where_it_is_unit(rt: HostRuntime) -> Result<(), Fail> {
    let free: [&[i64]; 4] = [&[1, 2], &[1, -2], &[-1, 2], &[-1, -2]];
    let under: [&[i64]; 4] = [&[-3, 1, 2], &[-3, 1, -2], &[-3, -1, 2], &[-3, -1, -2]];
    assert!(rt; is_learnt(rt.alloc(), &free, 1, 0, &[])?);
    assert!(rt; is_learnt(rt.alloc(), &under, 2, 1, &[-3])?);
    Ok(())
}

// Goes back to a lower level.
fn lower(engine: &mut Engine, level: u64)
    requires { IsEngine engine.old }
    ensures engine { IsEngine engine.new }
    ensures course { IsOnCourse engine.old → IsOnCourse engine.new }
{
    if level < engine.level() {
        engine.go_back(level);
    }
}

// The first row that tells otherwise whether the clause of its position is dropped at its level.
fn first_other(engine: &mut Engine, rows: &[(u64, Pos, bool)]) -> Option<usize>
    requires { IsEngine engine.old }
{
    'rows: for row in 0..rows.len() {
        let (level, pos, told) = rows[row];
        lower(engine, level);
        if engine.drop_idle(ClauseId { pos, part: 0 }) != told {
            return Some(row);
        }
    }
    None
}

#[test]
fn a_reason_is_not_dropped(rt: HostRuntime) -> Result<(), Fail> {
    let rows: [(u64, Pos, bool); 8] = [
        (2, 1, false),
        (2, 2, false),
        (2, 3, true),
        (2, 3, false),
        (2, 9, false),
        (1, 2, true),
        (1, 1, false),
        (0, 1, true),
    ];
    let mut engine = begun(rt.alloc(), &[&[-1, 2], &[-2, -3, 4], &[5, 6]], &[3, 1])?;
    let other = match assume(&mut engine) {
        Ok(()) => Ok(first_other(&mut engine, &rows)),
        Err(error) => Err(error),
    };
    drop(engine);
    assert_eq!(rt; other?, None);
    Ok(())
}
