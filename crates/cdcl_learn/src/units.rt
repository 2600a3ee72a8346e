//! The clause of a literal alone that was forced at level 0.

ghost use Rattle.std.specs.Prelude.{◌≡◌, ◌<◌, [], ◌∷◌, Some, length, IsTrue, IfSome, IfOk};
ghost use Rattle.cnf_base.specs.Literals.{negated};
ghost use Rattle.cdcl_core.specs.Search.{literals_of, clause_of};
ghost use Rattle.cdcl_core.specs.State.{IsSettled};
ghost use Rattle.cdcl_learn.specs.Rows.{IsFalseBefore};
ghost use Rattle.cdcl_learn.specs.Units.{AreUnits, IsUnitAt};

use cdcl_core::{Trail, Watches};
use cnf_base::{Clause, ClauseId, Lit};
use std::alloc::{AllocError, Global};

// Whether the clause has this literal alone.
fn is_one(clause: &[Lit], l: Lit) -> bool
    ensures { IsTrue result → clause.now ≡ l ∷ [] }
{
    clause.len() == 1 && clause[0] == l
}

// The name of the clause of the opposite of a literal alone, where that opposite was forced by it before the end.
fn unit_against(watches: &Watches, trail: &Trail, l: Lit, end: usize) -> Option<ClauseId>
    requires { IsSettled watches.now trail.now }
    ensures { IfSome result (λ id. (clause_of watches.now id ≡ Some (negated l ∷ []))
        × IsFalseBefore (literals_of trail.now) end l) }
{
    let Some(place) = trail.place(l.negated()) else {
        return None;
    };
    if place >= end {
        return None;
    }
    let row = trail.literals()[place];
    let Some(id) = row.reason() else {
        return None;
    };
    let Some(clause) = watches.clause_at(trail, place, id) else {
        return None;
    };
    if is_one(clause.literals(), l.negated()) {
        return Some(id);
    }
    None
}

// For each literal of the clause but this one, the name of the clause of its opposite alone, that forced it before the end.
fn units_against(
    alloc: Global,
    watches: &Watches,
    trail: &Trail,
    clause: &[Lit],
    literal: Lit,
    end: usize,
) -> Result<Option<Vec<ClauseId>>, AllocError>
    requires { IsSettled watches.now trail.now }
    ensures { IfOk result (λ o. IfSome o
        (λ units. AreUnits (clause_of watches.now) (literals_of trail.now) end clause.now literal
        units.items)) }
{
    let mut units: Vec<ClauseId> = Vec::with_capacity(alloc, clause.len())?;
    'literals: for l in clause {
        if *l != literal {
            let Some(unit) = unit_against(watches, trail, *l, end) else {
                return Ok(None);
            };
            units.push(unit)?;
        }
    }
    Ok(Some(units))
}

/// A clause of the literal at a place alone with its hints, where a longer clause forced it, and each other literal of that is
/// false by a clause of one literal.
pub fn unit_clause(
    alloc: Global,
    watches: &Watches,
    trail: &Trail,
    place: usize,
) -> Result<Option<(Clause, Vec<ClauseId>)>, AllocError>
    requires settled { IsSettled watches.now trail.now }
    requires within { place < length (literals_of trail.now) }
    ensures { IfOk result (λ o. IfSome o
        (λ r. IsUnitAt (clause_of watches.now) (literals_of trail.now) place r.0 r.1.items)) }
{
    let row = trail.literals()[place];
    let Some(id) = row.reason() else {
        return Ok(None);
    };
    let Some(clause) = watches.clause_at(trail, place, id) else {
        return Ok(None);
    };
    if clause.len() < 2 {
        return Ok(None);
    }
    let literal = row.literal();
    let Some(mut hints) = units_against(alloc, watches, trail, clause.literals(), literal, place)?
    else {
        return Ok(None);
    };
    hints.push(id)?;
    Ok(Some((Clause::of_one(alloc, literal)?, hints)))
}
