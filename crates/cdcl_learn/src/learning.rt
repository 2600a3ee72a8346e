//! The clause of the first unique implication point.

ghost use Rattle.std.specs.Prelude.{ℕ, ◌≡◌, ◌≢◌, ◌-◌, ◌<◌, ◌≤◌, Contains, IfOk, OnOk, MatchBool, length};
ghost use Rattle.cnf_base.specs.Literals.{Literal};
ghost use Rattle.hint_chain.specs.Chains.{IsChain};
ghost use Rattle.cdcl_core.specs.Search.{literals_of, level_of, clause_of, held_of, IsConflict};
ghost use Rattle.cdcl_core.specs.State.{IsSettled};
ghost use Rattle.cdcl_learn.specs.Rows.{level_at, AreDecidedFirst, AreRaised, AreRising, IsFrontOf, IsHistory};
ghost use Rattle.cdcl_learn.specs.Puts.{IsGoodPut, IsUnitAfter, StandsIn};
ghost use Rattle.cdcl_learn.specs.Walks.{IsSet, IsWalk, IsUnique, MeetsReasons};

use crate::walk::Walk;
use cdcl_core::{Row, Trail, Watches};
use cnf_base::{Clause, ClauseId};
use std::alloc::{AllocError, Global};

// Whether there is a row before `end`, and the last one is of the level.
fn ends_at(rows: &[Row], end: usize, level: u64) -> bool
    requires { end ≤ length rows.now }
    ensures { MatchBool result ((0 < end) × (level_at rows.now (end - 1) ≡ level)) (0 < end
        → level_at rows.now (end - 1) ≢ level) }
{
    if end == 0 {
        return false;
    }
    rows[end - 1].level() == level
}

// Resolves literals of the level from the last on, until one of them is left: its place.
fn find_unique(
    walk: &mut Walk,
    watches: &Watches,
    trail: &Trail,
    rows: &[Row],
    level: u64,
) -> Result<usize, AllocError>
    requires settled { IsSettled watches.now trail.now }
    requires front { IsFrontOf (literals_of trail.now) rows.now }
    requires history { IsHistory (clause_of watches.now) rows.now }
    requires walk { IsWalk (clause_of watches.now) rows.now walk.old }
    requires rising { AreRising rows.now level }
    requires decided { AreDecidedFirst rows.now }
    requires present { ((p : ℕ) → p < length rows.now → IsSet walk.old.marks p
        → level_at rows.now p < level) → ⊥ }
    ensures walk { OnOk result (IsWalk (clause_of watches.now) rows.now walk.new) }
    ensures met { OnOk result (MeetsReasons rows.now walk.old.hints.items walk.new.hints.items) }
    ensures unique { IfOk result (λ place. IsUnique rows.now walk.new.marks level place) }
{
    let mut end = walk.top(rows.len());
    let mut rest = walk.top(end - 1);
    'level: while ends_at(rows, rest, level) {
        walk.resolve(watches, trail, rows, end - 1)?;
        end = walk.top(end - 1);
        rest = walk.top(end - 1);
    }
    Ok(end - 1)
}

/// From a conflict above level 0, a clause with its hints, and the level to which the search may go back so that the clause
/// is unit there. Where no literal was decided at level 0, each literal of it stands in a hint that is held.
pub fn learn(
    alloc: Global,
    watches: &Watches,
    trail: &Trail,
    conflict: ClauseId,
) -> Result<(Clause, Vec<ClauseId>, u64), AllocError>
    requires settled { IsSettled watches.now trail.now }
    requires decided { AreDecidedFirst (literals_of trail.now) }
    requires above { 0 < level_of trail.now }
    requires conflict { IsConflict watches.now trail.now conflict }
    ensures chain { IfOk result (λ r. IsChain (clause_of watches.now) r.0 r.1.items) }
    ensures good { IfOk result
        (λ r. IsGoodPut (clause_of watches.now) (held_of watches.now) (literals_of trail.now)
        (level_of trail.now) r.0 r.1.items) }
    ensures among { IfOk result (λ r. AreRaised (literals_of trail.now) → (l : Literal)
        → Contains r.0 l → StandsIn (held_of watches.now) r.1.items l) }
    ensures lower { IfOk result (λ r. r.2 < level_of trail.now) }
    ensures unit { IfOk result (λ r. IsUnitAfter (literals_of trail.now) r.2 r.0) }
{
    let rows = trail.literals();
    let mut walk = Walk::start(alloc, watches, trail, rows, conflict)?;
    let place = find_unique(&mut walk, watches, trail, rows, trail.level())?;
    walk.explain(watches, trail, rows, place, false)?;
    let rest = walk.top(place);
    let level = if rest == 0 { 0 } else { rows[rest - 1].level() };
    let clause = walk.clause(alloc, rows)?;
    let hints = walk.into_hints();
    Ok((clause, hints, level))
}
