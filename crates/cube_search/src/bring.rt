//! How the clauses of a position come, at level 0.

ghost use Rattle.std.specs.Prelude.{ℕ, ◌≡◌, ◌+◌, List, Some, OnOk, MatchBool};
ghost use Rattle.cnf_base.specs.Literals.{Literal};
ghost use Rattle.cnf_base.specs.declared.clause.ClauseId.{ClauseId};
ghost use Rattle.proof_log.specs.Logs.{clause_at, state_of};
ghost use Rattle.cdcl_core.specs.Search.{level_of, clause_of, held_of};
ghost use Rattle.cdcl_loop.specs.Engines.{IsEngine, IsSameBut};
ghost use Rattle.cube_search.specs.Holding.{AreAmong, IsForeign, IsListing, IsBrought};

use cdcl_loop::Engine;
use cnf_base::{Clause, ClauseId, Lit, Pos};
use proof_log::board::Board;
use std::alloc::{AllocError, Global};

// Lists the variables of these literals.
fn list_all(engine: &mut Engine, literals: &[Lit]) -> Result<(), AllocError>
    ensures same { OnOk result
        (engine.new ≡ record engine.old
        { choices = engine.new.choices; agenda = engine.new.agenda }) }
    ensures listed { OnOk result
        (IsListing engine.old.agenda.list literals.now engine.new.agenda.list) }
{
    'literals: for literal in literals {
        engine.list(literal.variable())?;
    }
    Ok(())
}

/// Whether each variable of these literals is listed.
pub(crate) fn are_listed(engine: &Engine, literals: &[Lit]) -> bool
    ensures { MatchBool result (AreAmong engine.now.agenda.list literals.now)
        (IsForeign engine.now.agenda.list literals.now) }
{
    'literals: for literal in literals {
        if !engine.lists(literal.variable()) {
            return false;
        }
    }
    true
}

// Keeps a clause under this name, where none is kept.
fn store(
    alloc: Global,
    engine: &mut Engine,
    id: ClauseId,
    clause: &Clause,
) -> Result<(), AllocError>
    requires engine { IsEngine engine.old }
    ensures same { engine.new
        ≡ record engine.old { watches = engine.new.watches; trail = engine.new.trail } }
    ensures engine { IsEngine engine.new }
    ensures level { level_of engine.new.trail ≡ level_of engine.old.trail }
    ensures kept { OnOk result
        (((c : List Literal) → clause_of engine.old.watches id ≡ Some c → c ≡ clause.now)
        → clause_of engine.new.watches id ≡ Some clause.now) }
    ensures others { IsSameBut id engine.old.watches engine.new.watches }
{
    if let Some(_) = engine.clause(id) {
        return Ok(());
    }
    let own = clause.copy(alloc)?;
    engine.store(id, own)?;
    Ok(())
}

// Holds a clause, at level 0.
fn hold(alloc: Global, engine: &mut Engine, id: ClauseId, clause: &Clause) -> Result<(), AllocError>
    requires engine { IsEngine engine.old }
    requires level { level_of engine.old.trail ≡ 0 }
    ensures engine { OnOk result (IsEngine engine.new) }
    ensures level { OnOk result (level_of engine.new.trail ≡ 0) }
    ensures listing { OnOk result
        (IsListing engine.old.agenda.list clause.now engine.new.agenda.list) }
    ensures held { OnOk result
        (((c : List Literal) → clause_of engine.old.watches id ≡ Some c → c ≡ clause.now) →
        (clause_of engine.new.watches id ≡ Some clause.now)
        × (held_of engine.new.watches id ≡ Some clause.now)) }
    ensures others { OnOk result (IsSameBut id engine.old.watches engine.new.watches) }
    ensures given { OnOk result (engine.new.given ≡ engine.old.given) }
{
    list_all(engine, clause.literals())?;
    store(alloc, engine, id, clause)?;
    engine.wake(id);
    Ok(())
}

// Holds the clauses of a position, at level 0.
fn hold_position<B: Board>(
    alloc: Global,
    board: &B,
    engine: &mut Engine,
    pos: Pos,
) -> Result<(), AllocError>
    requires engine { IsEngine engine.old }
    requires level { level_of engine.old.trail ≡ 0 }
    requires known { B.knows board.now pos }
    ensures engine { OnOk result (IsEngine engine.new) }
    ensures level { OnOk result (level_of engine.new.trail ≡ 0) }
    ensures given { OnOk result (engine.new.given ≡ engine.old.given) }
    ensures brought { OnOk result
        (((id : ClauseId) (c : List Literal) → clause_of engine.old.watches id ≡ Some c
        → clause_at (state_of (B.nodes board.now) (B.log board.now)).clauses id ≡ Some c) →
        IsBrought engine.old.watches engine.new.watches
        (state_of (B.nodes board.now) (B.log board.now)).clauses engine.old.agenda.list
        engine.new.agenda.list pos) }
{
    'parts: for part in 0..u32::MAX {
        let id = ClauseId { pos, part };
        let Some(clause) = board.clause(id) else {
            return Ok(());
        };
        hold(alloc, engine, id, clause)?;
    }
    Err(AllocError)
}

/// Holds the clauses of a position, at level 0, and propagates, so that what they fix is known when the next come.
pub(crate) fn bring<B: Board>(
    alloc: Global,
    board: &B,
    engine: &mut Engine,
    pos: Pos,
) -> Result<(), AllocError>
    requires engine { IsEngine engine.old }
    requires level { level_of engine.old.trail ≡ 0 }
    requires known { B.knows board.now pos }
    ensures engine { OnOk result (IsEngine engine.new) }
    ensures level { OnOk result (level_of engine.new.trail ≡ 0) }
    ensures given { OnOk result (engine.new.given ≡ engine.old.given) }
    ensures brought { OnOk result
        (((id : ClauseId) (c : List Literal) → clause_of engine.old.watches id ≡ Some c
        → clause_at (state_of (B.nodes board.now) (B.log board.now)).clauses id ≡ Some c) →
        IsBrought engine.old.watches engine.new.watches
        (state_of (B.nodes board.now) (B.log board.now)).clauses engine.old.agenda.list
        engine.new.agenda.list pos) }
{
    hold_position(alloc, board, engine, pos)?;
    let _conflict = engine.propagate();
    Ok(())
}
