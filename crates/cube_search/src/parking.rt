//! What a search keeps and holds no longer, at level 0.

ghost use Rattle.std.specs.Prelude.{ℕ, ◌≡◌, ◌≢◌, ◌+◌, List, Some, None, Contains, OnOk};
ghost use Rattle.cnf_base.specs.Literals.{Literal};
ghost use Rattle.cnf_base.specs.declared.clause.ClauseId.{ClauseId};
ghost use Rattle.cdcl_core.specs.Search.{level_of, clause_of, held_of};
ghost use Rattle.cdcl_loop.specs.Engines.{IsEngine};
ghost use Rattle.cube_search.specs.Holding.{IsThinned, IsParking, IsGapless};

use crate::learning::is_chain;
use cdcl_loop::Engine;
use cnf_base::{ClauseId, Pos};
use proof_log::board::Board;
use std::alloc::AllocError;
use variable_list::VariableList;

// Drops the chain at a position, where one is kept that forces no literal.
fn drop_chain<B: Board>(board: &B, engine: &mut Engine, at: Pos)
    requires engine { IsEngine engine.old }
    ensures same { engine.new ≡ record engine.old { watches = engine.new.watches } }
    ensures engine { IsEngine engine.new }
    ensures thinned { IsThinned (B.log board.now) engine.old.watches engine.new.watches }
{
    if !is_chain(board, at) {
        return;
    }
    let _dropped = engine.drop_idle(ClauseId { pos: at, part: 0 });
}

/// Drops the worse half of what was learnt, where it is time to.
pub(crate) fn thin<B: Board>(board: &B, engine: &mut Engine) -> Result<(), AllocError>
    requires engine { IsEngine engine.old }
    requires level { level_of engine.old.trail ≡ 0 }
    ensures engine { OnOk result (IsEngine engine.new) }
    ensures level { OnOk result (level_of engine.new.trail ≡ 0) }
    ensures listed { OnOk result (engine.new.agenda.list ≡ engine.old.agenda.list) }
    ensures thinned { OnOk result
        (IsThinned (B.log board.now) engine.old.watches engine.new.watches) }
{
    if !engine.drops_now() {
        return Ok(());
    }
    let worst = engine.worst()?;
    'worst: for at in &worst {
        drop_chain(board, engine, *at);
    }
    Ok(())
}

// Drops the chain at a position below the bound, where one is kept that is not held and forces no literal.
fn drop_parked<B: Board>(board: &B, engine: &mut Engine, at: Pos, bound: Pos)
    requires engine { IsEngine engine.old }
    ensures same { engine.new ≡ record engine.old { watches = engine.new.watches } }
    ensures engine { IsEngine engine.new }
    ensures thinned { IsThinned (B.log board.now) engine.old.watches engine.new.watches }
{
    if at >= bound || engine.holds(ClauseId { pos: at, part: 0 }) {
        return;
    }
    drop_chain(board, engine, at);
}

/// Drops those of these chains that stand below the bound and are not held.
pub(crate) fn forget<B: Board>(board: &B, engine: &mut Engine, taken: &[Pos], bound: Pos)
    requires engine { IsEngine engine.old }
    ensures same { engine.new ≡ record engine.old { watches = engine.new.watches } }
    ensures engine { IsEngine engine.new }
    ensures thinned { IsThinned (B.log board.now) engine.old.watches engine.new.watches }
{
    'taken: for at in taken {
        drop_parked(board, engine, *at, bound);
    }
}

// No position has this number, by far.
const MOST: u64 = 1 << 62;

/// Notes positions, each by one more than its number.
pub(crate) fn note(needed: &mut VariableList, positions: &[Pos]) -> Result<(), AllocError>
    ensures has { OnOk result ((p : ℕ) → Contains positions.now p → Contains needed.new (p + 1)) }
    ensures only { OnOk result ((p : ℕ) → Contains needed.new (p + 1) → Contains positions.now p) }
{
    needed.clear();
    'positions: for pos in positions {
        if *pos >= MOST {
            return Err(AllocError);
        }
        needed.add(*pos + 1)?;
    }
    Ok(())
}

// Holds the clauses of a position no longer.
fn park_position(engine: &mut Engine, pos: Pos) -> Result<(), AllocError>
    requires engine { IsEngine engine.old }
    requires level { level_of engine.old.trail ≡ 0 }
    ensures same { engine.new ≡ record engine.old { watches = engine.new.watches } }
    ensures engine { IsEngine engine.new }
    ensures parking { IsParking engine.old.watches engine.new.watches }
    ensures others { (q : ClauseId) → q.pos ≢ pos
        → held_of engine.new.watches q ≡ held_of engine.old.watches q }
    ensures parked { OnOk result (IsGapless (clause_of engine.old.watches) pos → (q : ClauseId)
        → q.pos ≡ pos → held_of engine.new.watches q ≡ None) }
{
    'parts: for part in 0..u32::MAX {
        let id = ClauseId { pos, part };
        let Some(_) = engine.clause(id) else {
            return Ok(());
        };
        engine.park(id);
    }
    Err(AllocError)
}

// Holds the clauses of a position no longer where it is not needed.
fn park_unneeded(engine: &mut Engine, needed: &VariableList, pos: Pos) -> Result<(), AllocError>
    requires engine { IsEngine engine.old }
    requires level { level_of engine.old.trail ≡ 0 }
    ensures same { engine.new ≡ record engine.old { watches = engine.new.watches } }
    ensures engine { IsEngine engine.new }
    ensures parking { IsParking engine.old.watches engine.new.watches }
    ensures needed { (q : ClauseId) → Contains needed.now (q.pos + 1)
        → held_of engine.new.watches q ≡ held_of engine.old.watches q }
    ensures parked { OnOk result (IsGapless (clause_of engine.old.watches) pos
        → (Contains needed.now (pos + 1) → ⊥) → (q : ClauseId) → q.pos ≡ pos
        → held_of engine.new.watches q ≡ None) }
{
    if pos >= MOST {
        return Err(AllocError);
    }
    if needed.has(pos + 1) {
        return Ok(());
    }
    park_position(engine, pos)
}

/// Holds the clauses of those of these positions no longer that are not needed.
pub(crate) fn park_others(
    engine: &mut Engine,
    needed: &VariableList,
    positions: &[Pos],
) -> Result<(), AllocError>
    requires engine { IsEngine engine.old }
    requires level { level_of engine.old.trail ≡ 0 }
    ensures same { engine.new ≡ record engine.old { watches = engine.new.watches } }
    ensures engine { IsEngine engine.new }
    ensures parking { IsParking engine.old.watches engine.new.watches }
    ensures needed { (q : ClauseId) → Contains needed.now (q.pos + 1)
        → held_of engine.new.watches q ≡ held_of engine.old.watches q }
    ensures parked { OnOk result
        (((p : ℕ) → Contains positions.now p → IsGapless (clause_of engine.old.watches) p) →
        (q : ClauseId) → Contains positions.now q.pos → (Contains needed.now (q.pos + 1) → ⊥)
        → held_of engine.new.watches q ≡ None) }
{
    'positions: for pos in positions {
        park_unneeded(engine, needed, *pos)?;
    }
    Ok(())
}
