//! Small conflicts.

ghost use Rattle.std.specs.Prelude.{IfOk, IfSome, OnOk};
ghost use Rattle.cdcl_core.specs.Search.{literals_of, IsConflict};
ghost use Rattle.cdcl_core.specs.State.{IsSettled};
ghost use Rattle.cdcl_learn.specs.Rows.{AreDecidedFirst};

use crate::{Clash, final_clause, learn};
use cdcl_core::{Trail, Watches};
use cnf_base::{Clause, ClauseId, Lit};
use std::alloc::{AllocError, Global};
use std::test::Fail;

fn yes(variable: u64) -> Lit {
    Lit::new(variable.clamp(1, 9), true)
}

fn no(variable: u64) -> Lit {
    yes(variable).negated()
}

// Holds the clause at level 0, under a free name.
fn hold(
    alloc: Global,
    watches: &mut Watches,
    trail: &mut Trail,
    pos: u64,
    literals: &[Lit],
) -> Result<(), AllocError>
    requires settled { IsSettled watches.old trail.old }
    requires decided { AreDecidedFirst (literals_of trail.old) }
    ensures settled { IsSettled watches.new trail.new }
    ensures decided { OnOk result (AreDecidedFirst (literals_of trail.new)) }
{
    let clause = Clause::from_literals(alloc, literals)?;
    let id = ClauseId { pos, part: 0 };
    if watches.clause(id).is_some() || trail.level() != 0 {
        return Ok(());
    }
    watches.add(trail, id, clause)?;
    Ok(())
}

// Decides the literal after propagation; the name of a false clause, or None.
fn assume(watches: &mut Watches, trail: &mut Trail, l: Lit) -> Option<ClauseId>
    requires settled { IsSettled watches.old trail.old }
    requires decided { AreDecidedFirst (literals_of trail.old) }
    ensures settled { IsSettled watches.new trail.new }
    ensures decided { AreDecidedFirst (literals_of trail.new) }
    ensures conflict { IfSome result (λ id. IsConflict watches.new trail.new id) }
{
    let conflict = watches.propagate(trail);
    if conflict.is_some() || !trail.knows(l) || trail.value(l).is_some() {
        return conflict;
    }
    watches.decide(trail, l);
    watches.propagate(trail)
}

// The search of the clauses below after the decisions 1 and 5: 5 forces 2, which forces 4 and with 1 also 3, and 3 and 4 are
// not true at once. Variable 6 is true.
fn conflict(
    alloc: Global,
    watches: &mut Watches,
    trail: &mut Trail,
) -> Result<Option<ClauseId>, AllocError>
    requires settled { IsSettled watches.old trail.old }
    requires decided { AreDecidedFirst (literals_of trail.old) }
    ensures settled { IsSettled watches.new trail.new }
    ensures decided { OnOk result (AreDecidedFirst (literals_of trail.new)) }
    ensures conflict { IfOk result
        (λ found. IfSome found (λ id. IsConflict watches.new trail.new id)) }
{
    hold(alloc, watches, trail, 1, &[no(5), yes(2)])?;
    hold(alloc, watches, trail, 2, &[no(2), no(1), yes(3)])?;
    hold(alloc, watches, trail, 3, &[no(2), yes(4)])?;
    hold(alloc, watches, trail, 4, &[no(3), no(6), no(4)])?;
    hold(alloc, watches, trail, 5, &[yes(6)])?;
    if let Some(id) = assume(watches, trail, yes(1)) {
        return Ok(Some(id));
    }
    Ok(assume(watches, trail, yes(5)))
}

#[test]
fn the_first_unique_literal_is_learnt(rt: HostRuntime) -> Result<(), Fail> {
    let mut trail = Trail::new(rt.alloc());
    let mut watches = Watches::new(rt.alloc())?;
    let Some(id) = conflict(rt.alloc(), &mut watches, &mut trail)? else {
        return Err(Fail::from("no conflict"));
    };
    if trail.level() == 0 {
        return Err(Fail::from("no decision"));
    }
    let (clause, hints, level) = learn(rt.alloc(), &watches, &trail, id)?;
    assert_eq!(rt; clause.literals(), [no(2), no(1)].as_slice());
    assert_eq!(rt; level, 1);
    assert_eq!(rt; hints.len(), 4);
    Ok(())
}

#[test]
fn the_last_clause_has_decisions_alone(rt: HostRuntime) -> Result<(), Fail> {
    let mut trail = Trail::new(rt.alloc());
    let mut watches = Watches::new(rt.alloc())?;
    let Some(id) = conflict(rt.alloc(), &mut watches, &mut trail)? else {
        return Err(Fail::from("no conflict"));
    };
    let (clause, hints) = final_clause(rt.alloc(), &watches, &trail, Clash::Held(id))?;
    assert_eq!(rt; clause.literals(), [no(5), no(1)].as_slice());
    assert_eq!(rt; hints.len(), 5);
    Ok(())
}

#[test]
fn a_given_literal_is_refuted(rt: HostRuntime) -> Result<(), Fail> {
    let mut trail = Trail::new(rt.alloc());
    let mut watches = Watches::new(rt.alloc())?;
    hold(rt.alloc(), &mut watches, &mut trail, 1, &[no(1), yes(2)])?;
    hold(rt.alloc(), &mut watches, &mut trail, 2, &[no(2), no(7)])?;
    if assume(&mut watches, &mut trail, yes(1)).is_some() {
        return Err(Fail::from("a conflict"));
    }
    let given = yes(7);
    let Some(false) = trail.value(given) else {
        return Err(Fail::from("it is not false"));
    };
    let (clause, hints) = final_clause(rt.alloc(), &watches, &trail, Clash::Given(given))?;
    assert_eq!(rt; clause.literals(), [no(7), no(1)].as_slice());
    assert_eq!(rt; hints.len(), 2);
    Ok(())
}
