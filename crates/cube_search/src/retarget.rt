//! How a search goes over to another check.

ghost use Rattle.std.specs.Prelude.{ℕ, ◌≡◌, ◌≢◌, ◌≤◌, ◌<◌, ◌⊎◌, ◌++◌, ◌∷◌, [], List, Some, None, false, suc, length, take, Contains, OnOk, IfOk};
ghost use Rattle.cnf_base.specs.Literals.{Literal};
ghost use Rattle.cnf_base.specs.declared.clause.ClauseId.{ClauseId};
ghost use Rattle.smt_terms.specs.Terms.{IsTermList};
ghost use Rattle.proof_log.specs.Logs.{entry_at, state_of, IsLog};
ghost use Rattle.proof_log.specs.Diaries.{is_chain};
ghost use Rattle.cdcl_core.specs.Search.{level_of, clause_of, held_of};
ghost use Rattle.cdcl_loop.specs.Engines.{IsEngine};
ghost use Rattle.cube_search.specs.Holding.{listed_before, IsFilling, IsSorted, AreLeft, AreStoredBelow};
ghost use Rattle.cube_search.specs.Running.{variables_in, IsResting, IsSearch};

use crate::bring::{are_listed, bring};
use crate::keeper::Keeper;
use crate::parking::{forget, note, park_others, thin};
use crate::search::Search;
use cdcl_loop::Engine;
use cnf_base::{ClauseId, Pos};
use proof_log::board::Board;
use std::alloc::{AllocError, Global};

// So many checks later a chain that is not held is dropped.
const TURNS: usize = 20;

// How many positions from the first on are the same.
fn shared(old: &[Pos], new: &[Pos]) -> usize
    ensures old { result ≤ length old.now }
    ensures new { result ≤ length new.now }
    ensures same { take result old.now ≡ take result new.now }
{
    'places: for place in 0..old.len() {
        if place >= new.len() || old[place] != new[place] {
            return place;
        }
    }
    old.len()
}

// Holds a chain that is kept, at level 0, where each of its variables is listed, and no longer else; notes its position.
fn sort_chain(engine: &mut Engine, at: Pos, left: &mut Vec<Pos>) -> Result<(), AllocError>
    requires engine { IsEngine engine.old }
    requires level { level_of engine.old.trail ≡ 0 }
    ensures engine { OnOk result (IsEngine engine.new) }
    ensures level { OnOk result (level_of engine.new.trail ≡ 0) }
    ensures listed { OnOk result (engine.new.agenda.list ≡ engine.old.agenda.list) }
    ensures given { OnOk result (engine.new.given ≡ engine.old.given) }
    ensures kept { OnOk result ((q : ClauseId)
        → clause_of engine.new.watches q ≡ clause_of engine.old.watches q) }
    ensures others { OnOk result ((q : ClauseId) → q ≢ record { pos = at; part = 0 }
        → held_of engine.new.watches q ≡ held_of engine.old.watches q) }
    ensures sorted { OnOk result
        (IsSorted engine.old.watches engine.new.watches engine.old.agenda.list at) }
    ensures noted { OnOk result
        (((clause_of engine.old.watches (record { pos = at; part = 0 }) ≡ None)
        × (left.new.items ≡ left.old.items))
        ⊎ ((c : List Literal)
        × (clause_of engine.old.watches (record { pos = at; part = 0 }) ≡ Some c)
        × (left.new.items ≡ left.old.items ++ at ∷ []))) }
{
    let id = ClauseId { pos: at, part: 0 };
    let Some(clause) = engine.clause(id) else {
        return Ok(());
    };
    let is_listed = are_listed(engine, clause.literals());
    left.push(at)?;
    if is_listed {
        engine.wake(id);
    } else {
        engine.park(id);
    }
    Ok(())
}

// Holds of the chains that are kept, at level 0, those whose variables are listed; gives the positions of what is kept.
pub(crate) fn sort_chains(
    alloc: Global,
    engine: &mut Engine,
    positions: &[Pos],
) -> Result<Vec<Pos>, AllocError>
    requires engine { IsEngine engine.old }
    requires level { level_of engine.old.trail ≡ 0 }
    ensures engine { IfOk result (λ left. IsEngine engine.new) }
    ensures listed { IfOk result (λ left. engine.new.agenda.list ≡ engine.old.agenda.list) }
    ensures given { IfOk result (λ left. engine.new.given ≡ engine.old.given) }
    ensures kept { IfOk result (λ left. (q : ClauseId)
        → clause_of engine.new.watches q ≡ clause_of engine.old.watches q) }
    ensures others { IfOk result (λ left. (q : ClauseId) → (Contains positions.now q.pos → ⊥)
        → held_of engine.new.watches q ≡ held_of engine.old.watches q) }
    ensures came { IfOk result (λ left. (q : ClauseId) (c : List Literal)
        → held_of engine.new.watches q ≡ Some c → (held_of engine.old.watches q ≡ Some c)
        ⊎ Contains positions.now q.pos) }
    ensures sorted { IfOk result (λ left. (p : ℕ) → Contains positions.now p
        → IsSorted engine.old.watches engine.new.watches engine.old.agenda.list p) }
    ensures left { IfOk result
        (λ left. AreLeft (clause_of engine.old.watches) positions.now left.items) }
{
    let mut left = Vec::new(alloc);
    'positions: for at in positions {
        sort_chain(engine, *at, &mut left)?;
    }
    Ok(left)
}

impl Search {
    // How many variables were listed before the opening position at this place: all of them, where it is past the last.
    fn listed_before(&self, place: usize) -> usize
        ensures { result ≡ listed_before (variables_in self.now) self.now.ends.items place }
    {
        match self.ends.get(place) {
            Some(end) => *end,
            None => self.engine.listed(),
        }
    }

    // Where the chains of the check began that was so many checks ago.
    fn turn(&self) -> Pos {
        let place = self.turns.len().saturating_sub(TURNS);
        self.turns.get(place).copied().unwrap_or(0)
    }

    // Keeps the opening positions with which the next check begins as well, and gives how many they are. The clauses of the others
    // are held no longer where the check does not need them.
    fn leave<B: Board>(&mut self, board: &B, positions: &[Pos]) -> Result<usize, AllocError>
        requires resting { IsResting self.old
            (state_of (B.nodes board.now) (B.log board.now)).clauses (B.log board.now) }
        ensures engine { IfOk result (λ stay. IsEngine self.new.engine) }
        ensures level { IfOk result (λ stay. level_of self.new.engine.trail ≡ 0) }
        ensures taken { IfOk result (λ stay. self.new.taken ≡ self.old.taken) }
        ensures within { IfOk result (λ stay. stay ≤ length positions.now) }
        ensures opening { IfOk result (λ stay. self.new.opening.items ≡ take stay positions.now) }
        ensures fewer { IfOk result (λ stay. (id : ClauseId) (c : List Literal)
            → clause_of self.new.engine.watches id ≡ Some c
            → clause_of self.old.engine.watches id ≡ Some c) }
        ensures filling { IfOk result
            (λ stay. IsFilling self.new.engine.watches
            (state_of (B.nodes board.now) (B.log board.now)).clauses (variables_in self.new)
            self.new.opening.items self.new.ends.items positions.now self.new.taken.items) }
    {
        let stay = shared(self.opening.as_slice(), positions);
        let count = self.listed_before(stay);
        self.engine.renew(count);
        thin(board, &mut self.engine)?;
        let bound = self.turn();
        forget(board, &mut self.engine, self.taken.as_slice(), bound);
        note(&mut self.needed, positions)?;
        park_others(&mut self.engine, &self.needed, self.opening.as_slice())?;
        self.opening.truncate(stay);
        self.ends.truncate(stay);
        Ok(stay)
    }

    // Holds the clauses of the positions from this place on.
    fn go_on<B: Board>(
        &mut self,
        board: &B,
        positions: &[Pos],
        stay: usize,
    ) -> Result<(), AllocError>
        requires engine { IsEngine self.old.engine }
        requires level { level_of self.old.engine.trail ≡ 0 }
        requires known { (p : ℕ) → Contains positions.now p → B.knows board.now p }
        requires within { stay ≤ length positions.now }
        requires opening { self.old.opening.items ≡ take stay positions.now }
        requires filling { IsFilling self.old.engine.watches
            (state_of (B.nodes board.now) (B.log board.now)).clauses (variables_in self.old)
            self.old.opening.items self.old.ends.items positions.now self.old.taken.items }
        ensures engine { OnOk result (IsEngine self.new.engine) }
        ensures level { OnOk result (level_of self.new.engine.trail ≡ 0) }
        ensures taken { OnOk result (self.new.taken ≡ self.old.taken) }
        ensures opening { OnOk result (self.new.opening.items ≡ positions.now) }
        ensures came { OnOk result ((id : ClauseId) (c : List Literal)
            → clause_of self.new.engine.watches id ≡ Some c
            → (clause_of self.old.engine.watches id ≡ Some c) ⊎ Contains positions.now id.pos) }
        ensures filling { OnOk result
            (IsFilling self.new.engine.watches
            (state_of (B.nodes board.now) (B.log board.now)).clauses (variables_in self.new)
            self.new.opening.items self.new.ends.items positions.now self.old.taken.items) }
    {
        'places: for place in stay..positions.len() {
            let end = self.engine.listed();
            self.ends.push(end)?;
            bring(self.alloc, board, &mut self.engine, positions[place])?;
            self.opening.push(positions[place])?;
        }
        Ok(())
    }

    /// Goes over to the positions of another check, which are known to the board, are no chains' and stand below `from`; from that
    /// position on every step of the log is a search's. It holds all clauses of these positions, and of the chains that it keeps
    /// those that speak of the variables of these clauses alone. What the last check held stays where this one needs it too.
    pub fn retarget<B: Board>(
        &mut self,
        board: &B,
        positions: &[Pos],
        from: Pos,
    ) -> Result<(), AllocError>
        requires resting { IsResting self.old
            (state_of (B.nodes board.now) (B.log board.now)).clauses (B.log board.now) }
        requires known { (p : ℕ) → Contains positions.now p → B.knows board.now p }
        requires plain { (p : ℕ) → Contains positions.now p
            → is_chain (entry_at (B.log board.now) p) ≡ false }
        requires below { (p : ℕ) → Contains positions.now p → p < from }
        requires stored { AreStoredBelow (clause_of self.old.engine.watches) (B.log board.now)
            from }
        requires from { from ≤ suc (length (B.log board.now)) }
        requires listed { IsTermList (B.nodes board.now) }
        requires stands { IsLog (B.nodes board.now) (B.log board.now) }
        ensures search { OnOk result (IsSearch self.new (B.nodes board.now) (B.log board.now)) }
        ensures opening { OnOk result (self.new.opening.items ≡ positions.now) }
        ensures from { OnOk result (self.new.from ≡ from) }
    {
        let stay = self.leave(board, positions)?;
        self.go_on(board, positions, stay)?;
        self.taken = sort_chains(self.alloc, &mut self.engine, self.taken.as_slice())?;
        self.turns.push(from)?;
        self.from = from;
        self.seen = from;
        self.diary = Keeper::new(self.alloc, from);
        Ok(())
    }
}
