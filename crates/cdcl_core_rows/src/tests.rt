//! Small searches.

ghost use Rattle.cdcl_core.specs.State.{IsSettled};

use cdcl_core::{Trail, Watches};
use cnf_base::{Clause, ClauseId, Lit};
use std::alloc::{AllocError, Global};
use std::process::Abort;
use std::test::Fail;

const fn name(pos: u64) -> ClauseId {
    ClauseId { pos, part: 0 }
}

fn yes(variable: u64) -> Lit {
    Lit::new(variable.clamp(1, 9), true)
}

fn no(variable: u64) -> Lit {
    yes(variable).negated()
}

// Holds the clause at level 0, under a free name.
fn hold(
    alloc: Global,
    watches: &mut Watches,
    trail: &mut Trail,
    pos: u64,
    literals: &[Lit],
) -> Result<(), AllocError>
    requires { IsSettled watches.old trail.old }
    ensures { IsSettled watches.new trail.new }
{
    let clause = Clause::from_literals(alloc, literals)?;
    let id = name(pos);
    if watches.clause(id).is_some() || trail.level() != 0 {
        return Ok(());
    }
    watches.add(trail, id, clause)
}

// Decides the literal after propagation; the name of a false clause, or None.
fn assume(watches: &mut Watches, trail: &mut Trail, l: Lit) -> Option<ClauseId>
    requires { IsSettled watches.old trail.old }
    ensures { IsSettled watches.new trail.new }
{
    let conflict = watches.propagate(trail);
    if conflict.is_some() {
        return conflict;
    }
    if !trail.knows(l) || trail.value(l).is_some() {
        return None;
    }
    watches.decide(trail, l);
    watches.propagate(trail)
}

// Parks the clause at level 0, or wakes it.
fn turn(watches: &mut Watches, trail: &mut Trail, id: ClauseId, wakes: bool)
    requires { IsSettled watches.old trail.old }
    ensures { IsSettled watches.new trail.new }
{
    watches.backjump(trail, 0);
    if wakes {
        watches.wake(trail, id);
    } else {
        watches.park(trail, id);
    }
}

// Parks every clause, at level 0.
fn turn_off(watches: &mut Watches, trail: &mut Trail)
    requires { IsSettled watches.old trail.old }
    ensures { IsSettled watches.new trail.new }
{
    watches.backjump(trail, 0);
    watches.park_all(trail);
}

// Drops the clause where no literal is true; whether it did.
fn give_back(watches: &mut Watches, trail: &Trail, id: ClauseId) -> bool
    requires { IsSettled watches.old trail.now }
    ensures { IsSettled watches.new trail.now }
{
    if !trail.literals().is_empty() || watches.clause(id).is_none() {
        return false;
    }
    watches.drop_clause(trail, id);
    true
}

#[test]
fn a_decision_forces_a_chain_of_literals(rt: HostRuntime) -> Result<(), Fail> {
    let mut trail = Trail::new(rt.alloc());
    let mut watches = Watches::new(rt.alloc())?;
    hold(rt.alloc(), &mut watches, &mut trail, 1, &[no(1), yes(2)])?;
    hold(
        rt.alloc(),
        &mut watches,
        &mut trail,
        2,
        &[no(2), no(4), yes(3)],
    )?;
    hold(rt.alloc(), &mut watches, &mut trail, 3, &[yes(4), no(1)])?;
    assert_eq!(rt; assume(&mut watches, &mut trail, yes(1)), None);
    assert_eq!(rt; trail.literals().len(), 4);
    assert!(rt; watches.clause_at(&trail, 1, name(1)).is_some());
    assert!(rt; watches.clause_at(&trail, 1, name(9)).is_none());
    assert_eq!(rt; trail.value(yes(3)), Some(true));
    assert_eq!(rt; trail.value(no(4)), Some(false));
    assert_eq!(rt; trail.place(yes(1)), Some(0));
    assert_eq!(rt; trail.place(no(1)), None);
    assert!(rt; trail.is_true(yes(4)) && watches.is_reason(&trail, name(3)));
    assert!(rt; !watches.is_reason(&trail, name(9)));
    watches.backjump(&mut trail, 0);
    assert_eq!(rt; trail.literals().len(), 0);
    assert_eq!(rt; trail.value(yes(3)), None);
    Ok(())
}

#[test]
fn a_literal_is_decided_that_no_clause_has(rt: HostRuntime) -> Result<(), Fail> {
    let mut trail = Trail::new(rt.alloc());
    let mut watches = Watches::new(rt.alloc())?;
    assert!(rt; !trail.knows(yes(5)));
    watches.reserve(&mut trail, 6)?;
    assert_eq!(rt; assume(&mut watches, &mut trail, yes(5)), None);
    assert_eq!(rt; trail.value(yes(5)), Some(true));
    Ok(())
}

#[test]
fn a_false_clause_is_named(rt: HostRuntime) -> Result<(), Fail> {
    let mut trail = Trail::new(rt.alloc());
    let mut watches = Watches::new(rt.alloc())?;
    hold(rt.alloc(), &mut watches, &mut trail, 1, &[no(1), yes(2)])?;
    hold(rt.alloc(), &mut watches, &mut trail, 2, &[no(1), yes(3)])?;
    hold(rt.alloc(), &mut watches, &mut trail, 3, &[no(2), no(3)])?;
    assert_eq!(rt; assume(&mut watches, &mut trail, yes(1)), Some(name(3)));
    Ok(())
}

#[test]
fn clauses_of_at_most_one_literal_hold_at_level_0(rt: HostRuntime) -> Result<(), Fail> {
    let mut trail = Trail::new(rt.alloc());
    let mut watches = Watches::new(rt.alloc())?;
    hold(rt.alloc(), &mut watches, &mut trail, 1, &[yes(5)])?;
    hold(rt.alloc(), &mut watches, &mut trail, 2, &[no(6), no(6)])?;
    assert_eq!(rt; watches.propagate(&mut trail), None);
    assert_eq!(rt; trail.value(yes(5)), Some(true));
    assert_eq!(rt; trail.value(yes(6)), Some(false));
    hold(rt.alloc(), &mut watches, &mut trail, 9, &[])?;
    assert_eq!(rt; watches.propagate(&mut trail), Some(name(9)));
    Ok(())
}

#[test]
fn a_dropped_clause_is_gone(rt: HostRuntime) -> Result<(), Fail> {
    let mut trail = Trail::new(rt.alloc());
    let mut watches = Watches::new(rt.alloc())?;
    hold(rt.alloc(), &mut watches, &mut trail, 1, &[no(1), yes(2)])?;
    hold(rt.alloc(), &mut watches, &mut trail, 2, &[no(1), yes(3)])?;
    if !give_back(&mut watches, &trail, name(1)) {
        return Err(Fail::from("it is not held"));
    }
    assert!(rt; watches.clause(name(1)).is_none());
    assert_eq!(rt; assume(&mut watches, &mut trail, yes(1)), None);
    assert_eq!(rt; trail.literals().len(), 2);
    assert_eq!(rt; trail.stamp(yes(3)), 2);
    assert_eq!(rt; trail.stamp(no(3)), 0);
    assert!(rt; watches.reason(&trail, 0).is_none());
    assert!(rt; watches.reason(&trail, 1).is_some());
    assert!(rt; watches.reason(&trail, 2).is_none());
    Ok(())
}

#[test]
fn a_parked_clause_forces_nothing_until_it_is_woken(rt: HostRuntime) -> Result<(), Fail> {
    let mut trail = Trail::new(rt.alloc());
    let mut watches = Watches::new(rt.alloc())?;
    hold(rt.alloc(), &mut watches, &mut trail, 1, &[no(1), yes(2)])?;
    hold(rt.alloc(), &mut watches, &mut trail, 2, &[no(1), yes(3)])?;
    turn(&mut watches, &mut trail, name(1), false);
    assert!(rt; watches.clause(name(1)).is_some() && !watches.holds(name(1)));
    assert_eq!(rt; assume(&mut watches, &mut trail, yes(1)), None);
    assert_eq!(rt; trail.literals().len(), 2);
    turn(&mut watches, &mut trail, name(1), true);
    assert!(rt; watches.holds(name(1)));
    assert_eq!(rt; assume(&mut watches, &mut trail, yes(1)), None);
    assert_eq!(rt; trail.literals().len(), 3);
    Ok(())
}

#[test]
fn a_parked_unit_clause_stays_the_reason_at_level_0(rt: HostRuntime) -> Result<(), Fail> {
    let mut trail = Trail::new(rt.alloc());
    let mut watches = Watches::new(rt.alloc())?;
    hold(rt.alloc(), &mut watches, &mut trail, 1, &[yes(5)])?;
    hold(rt.alloc(), &mut watches, &mut trail, 2, &[no(5), yes(6)])?;
    assert_eq!(rt; watches.propagate(&mut trail), None);
    turn_off(&mut watches, &mut trail);
    assert!(rt; !watches.holds(name(1)) && !watches.holds(name(2)));
    assert_eq!(rt; trail.value(yes(6)), Some(true));
    assert!(rt; watches.clause_at(&trail, 1, name(2)).is_some());
    turn(&mut watches, &mut trail, name(2), true);
    assert!(rt; watches.holds(name(2)));
    assert_eq!(rt; watches.propagate(&mut trail), None);
    Ok(())
}

// The clause of these variables, negated where they are negative.
fn clause_of(alloc: Global, numbers: &[i64]) -> Result<Clause, AllocError> {
    let mut literals = Vec::new(alloc);
    for number in numbers {
        let variable = number.unsigned_abs().clamp(1, 9);
        literals.push(Lit::new(variable, *number > 0))?;
    }
    Ok(Clause::from_vec(literals))
}

// A clause, and the level at which it is to come where 9 is true at level 0 and 1, 2 and 3 were decided in turn.
const LEVELS: [(&[i64], u64); 18] = [
    // open
    (&[4, 5], 3),
    (&[-1, 4, -2, 5], 3),
    // unit at the end of a level
    (&[-1, 4], 1),
    (&[4, -1, -2], 2),
    (&[-3, 4, -1], 3),
    // false at level 3: unit at the end of the second highest level of its literals
    (&[-1, -2, -3], 2),
    (&[-3, -1], 1),
    (&[-3, -9], 0),
    // true at the end of the level at which its other literals are false, or only later
    (&[-2, 1], 3),
    (&[-1, 9], 3),
    (&[-1, 3], 1),
    (&[2, -1], 1),
    // of one literal
    (&[4], 0),
    (&[4, 4], 0),
    (&[-2], 0),
    (&[1], 0),
    (&[9], 3),
    // of none
    (&[], 0),
];

// Each clause of the table is told its level.
fn are_told(rt: &(impl Abort + AllocGlobal), watches: &Watches, trail: &Trail) -> Result<(), Fail>
    requires { IsSettled watches.now trail.now }
{
    for (numbers, level) in &LEVELS {
        let clause = clause_of(rt.alloc(), numbers)?;
        let told = watches.level_for(trail, &clause);
        drop(clause);
        assert!(rt; told == *level, "{told} in place of {level}");
    }
    Ok(())
}

#[test]
fn a_clause_comes_at_the_level_that_it_needs(rt: HostRuntime) -> Result<(), Fail> {
    let mut trail = Trail::new(rt.alloc());
    let mut watches = Watches::new(rt.alloc())?;
    hold(rt.alloc(), &mut watches, &mut trail, 1, &[yes(9)])?;
    watches.reserve(&mut trail, 10)?;
    assert_eq!(rt; assume(&mut watches, &mut trail, yes(1)), None);
    assert_eq!(rt; assume(&mut watches, &mut trail, yes(2)), None);
    assert_eq!(rt; assume(&mut watches, &mut trail, yes(3)), None);
    are_told(&rt, &watches, &trail)
}
