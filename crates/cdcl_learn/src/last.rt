//! The clause that ends a search.

ghost use Rattle.std.specs.Prelude.{◌≡◌, ◌<◌, List, IfOk, Contains, length};
ghost use Rattle.cnf_base.specs.Literals.{Literal, negated};
ghost use Rattle.hint_chain.specs.Chains.{IsChain};
ghost use Rattle.cdcl_core.specs.Levels.{IsFalseBy};
ghost use Rattle.cdcl_core.specs.Search.{literals_of, level_of, clause_of};
ghost use Rattle.cdcl_core.specs.State.{IsSettled};
ghost use Rattle.cdcl_learn.specs.Rows.{literal_at, IsFrontOf, IsHistory, IsRefutedIn};
ghost use Rattle.cdcl_learn.specs.Puts.{IsClash, AreGiven, IsAgainst, DecidesOnly};

use crate::walk::Walk;
use cdcl_core::{Row, Trail, Watches};
use cnf_base::{Clause, ClauseId, Lit};
use std::alloc::{AllocError, Global};

/// Why a search ends.
#[derive(Clone, Copy)]
pub enum Clash {
    /// A held clause is false.
    Held(ClauseId),
    /// A given literal is false before it is decided.
    Given(Lit),
}

/// A clause with its hints that has only opposites of given literals, where no other literal was decided.
pub fn final_clause(
    alloc: Global,
    watches: &Watches,
    trail: &Trail,
    conflict: Clash,
) -> Result<(Clause, Vec<ClauseId>), AllocError>
    requires settled { IsSettled watches.now trail.now }
    requires clash { IsClash watches.now trail.now conflict }
    ensures chain { IfOk result (λ r. IsChain (clause_of watches.now) r.0 r.1.items) }
    ensures against { IfOk result (λ r. (given : List Literal)
        → AreGiven given (literals_of trail.now) conflict → IsAgainst given r.0) }
{
    match conflict {
        Clash::Held(id) => explain_all(alloc, watches, trail, trail.literals(), id),
        Clash::Given(l) => refute(alloc, watches, trail, l),
    }
}

// The clause of the opposites of decided literals that a false clause rests on.
fn explain_all(
    alloc: Global,
    watches: &Watches,
    trail: &Trail,
    rows: &[Row],
    conflict: ClauseId,
) -> Result<(Clause, Vec<ClauseId>), AllocError>
    requires settled { IsSettled watches.now trail.now }
    requires front { IsFrontOf (literals_of trail.now) rows.now }
    requires history { IsHistory (clause_of watches.now) rows.now }
    requires conflict { IsRefutedIn (clause_of watches.now) rows.now conflict }
    ensures chain { IfOk result (λ r. IsChain (clause_of watches.now) r.0 r.1.items) }
    ensures against { IfOk result (λ r. (given : List Literal) → DecidesOnly given rows.now
        → IsAgainst given r.0) }
{
    let mut walk = Walk::start(alloc, watches, trail, rows, conflict)?;
    walk.explain(watches, trail, rows, rows.len(), true)?;
    let clause = walk.clause(alloc, rows)?;
    let hints = walk.into_hints();
    Ok((clause, hints))
}

// The clause of the opposites of given literals that refute a given one, whose opposite stands at this place.
fn refute_at(
    alloc: Global,
    watches: &Watches,
    trail: &Trail,
    place: usize,
    l: Lit,
) -> Result<(Clause, Vec<ClauseId>), AllocError>
    requires settled { IsSettled watches.now trail.now }
    requires within { place < length (literals_of trail.now) }
    requires opposite { literal_at (literals_of trail.now) place ≡ negated l }
    ensures chain { IfOk result (λ r. IsChain (clause_of watches.now) r.0 r.1.items) }
    ensures against { IfOk result (λ r. (given : List Literal)
        → DecidesOnly given (literals_of trail.now) → Contains given l → IsAgainst given r.0) }
{
    let rows = trail.literals();
    let row = rows[place];
    match row.reason() {
        None => Ok((Clause::of_two(alloc, l, l.negated())?, Vec::new(alloc))),
        Some(id) => {
            let mut before: Vec<Row> = Vec::from_slice(alloc, &rows[..place])?;
            before.push(row.opposite())?;
            explain_all(alloc, watches, trail, before.as_slice(), id)
        }
    }
}

// The clause of the opposites of given literals that refute a given one.
fn refute(
    alloc: Global,
    watches: &Watches,
    trail: &Trail,
    l: Lit,
) -> Result<(Clause, Vec<ClauseId>), AllocError>
    requires settled { IsSettled watches.now trail.now }
    requires refuted { IsFalseBy (literals_of trail.now) (level_of trail.now) l }
    ensures chain { IfOk result (λ r. IsChain (clause_of watches.now) r.0 r.1.items) }
    ensures against { IfOk result (λ r. (given : List Literal)
        → DecidesOnly given (literals_of trail.now) → Contains given l → IsAgainst given r.0) }
{
    match trail.place(l.negated()) {
        Some(place) => refute_at(alloc, watches, trail, place, l),
        None => Err(AllocError),
    }
}
