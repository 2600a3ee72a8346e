//! What a search does at a conflict.

ghost use Rattle.std.specs.Prelude.{◌≡◌, ◌<◌, None, true, false, IfOk, OnOk};
ghost use Rattle.proof_log.specs.Logs.{state_of, entry_at};
ghost use Rattle.proof_log.specs.Diaries.{is_chain};
ghost use Rattle.proof_log.specs.Boards.{IsLater, KnowsOneMore};
ghost use Rattle.cdcl_core.specs.Search.{literals_of, level_of, clause_of, IsConflict};
ghost use Rattle.cdcl_learn.specs.Puts.{IsClash, AreGiven, IsUnitAfter};
ghost use Rattle.cdcl_loop.specs.Engines.{IsEngine, IsOnCourse};
ghost use Rattle.cube_search.specs.Running.{given_in, IsRunning, IsWriting, IsSameRun, IsLearnt, IsKeptAt};
ghost use Rattle.cube_search.specs.Ends.{IsClosing};

use crate::search::Search;
use cdcl_learn::Clash;
use cnf_base::{Clause, ClauseId, Pos};
use proof_log::board::Board;
use proof_log::entry::{Entry, Hints};
use std::alloc::AllocError;

// Whether a chain is known to stand at the position.
pub(crate) fn is_chain<B: Board>(board: &B, at: Pos) -> bool
    ensures shown { result ≡ true → is_chain (entry_at (B.log board.now) at) ≡ true }
    ensures other { result ≡ false → B.knows board.now at → is_chain (entry_at (B.log board.now) at)
        ≡ false }
{
    matches!(board.entry(at), Some(Entry::Chain(_, _)))
}

impl Search {
    /// Puts the clause that ends the search.
    pub(crate) fn close<B: Board>(&self, board: &mut B, clash: Clash) -> Result<Pos, AllocError>
        requires running { IsRunning self.now (B.nodes board.old) (B.log board.old) }
        requires clash { IsClash self.now.engine.watches self.now.engine.trail clash }
        requires given { AreGiven self.now.engine.given.items (literals_of self.now.engine.trail)
            clash }
        ensures later { IsLater (B.nodes board.old) (B.nodes board.new) (B.log board.old)
            (B.log board.new) (B.knows board.old) (B.knows board.new) }
        ensures told { B.told board.new ≡ B.told board.old }
        ensures closing { IfOk result
            (IsClosing (state_of (B.nodes board.new) (B.log board.new)).clauses
            (given_in self.now)) }
    {
        let (clause, hints) = self.engine.final_clause(clash)?;
        let chain = Hints::of(self.alloc, hints.as_slice())?;
        board.put(Entry::Chain(clause, chain))
    }

    /// Learns from a conflict above the given literals: the clause that it puts, the level to which the search may go back so that it
    /// is unit there, and its position.
    pub(crate) fn learn<B: Board>(
        &mut self,
        board: &mut B,
        conflict: ClauseId,
    ) -> Result<(Clause, u64, Pos), AllocError>
        requires running { IsRunning self.old (B.nodes board.old) (B.log board.old) }
        requires conflict { IsConflict self.old.engine.watches self.old.engine.trail conflict }
        requires above { self.old.engine.base < level_of self.old.engine.trail }
        ensures same { self.new
            ≡ record self.old
            { engine = record self.old.engine { choices = self.new.engine.choices } } }
        ensures later { IsLater (B.nodes board.old) (B.nodes board.new) (B.log board.old)
            (B.log board.new) (B.knows board.old) (B.knows board.new) }
        ensures told { B.told board.new ≡ B.told board.old }
        ensures learnt { IfOk result
            (λ r. IsLearnt self.old.engine.watches self.old.engine.trail (B.log board.old)
            (B.log board.new) r.0 r.1 r.2) }
        ensures known { IfOk result
            (λ r. KnowsOneMore (B.knows board.old) r.2 (B.knows board.new)) }
    {
        let (clause, hints, level) = self.engine.learn(conflict)?;
        let own = clause.copy(self.alloc)?;
        let chain = Hints::of(self.alloc, hints.as_slice())?;
        let at = board.put(Entry::Chain(own, chain))?;
        Ok((clause, level, at))
    }

    /// Holds a clause that was learnt and put, at the level where it is unit.
    pub(crate) fn keep(&mut self, clause: Clause, level: u64, at: Pos) -> Result<(), AllocError>
        requires engine { IsEngine self.old.engine }
        requires lower { level < level_of self.old.engine.trail }
        requires unit { IsUnitAfter (literals_of self.old.engine.trail) level clause }
        requires fresh { clause_of self.old.engine.watches (record { pos = at; part = 0 }) ≡ None }
        ensures run { IsSameRun self.old self.new }
        ensures engine { OnOk result (IsEngine self.new.engine) }
        ensures course { OnOk result (IsOnCourse self.old.engine → IsOnCourse self.new.engine) }
        ensures kept { OnOk result (IsKeptAt self.old self.new clause level at) }
    {
        self.taken.push(at)?;
        self.engine.keep(clause, level, at)?;
        self.diary.put(at)
    }

    // Drops a chain of a search that forces no literal, where one may be dropped.
    fn drop_idle<B: Board>(&mut self, board: &B, at: Pos) -> Result<(), AllocError>
        requires running { IsRunning self.old (B.nodes board.now) (B.log board.now) }
        ensures run { IsSameRun self.old self.new }
        ensures running { OnOk result (IsRunning self.new (B.nodes board.now) (B.log board.now)) }
        ensures writing { OnOk result (IsWriting self.old (B.nodes board.now) (B.log board.now)
            → IsWriting self.new (B.nodes board.now) (B.log board.now)) }
    {
        if self.diary.left == 0 {
            return Ok(());
        }
        if !is_chain(board, at) {
            return Ok(());
        }
        if !self.engine.drop_idle(ClauseId { pos: at, part: 0 }) {
            return Ok(());
        }
        self.diary.drop_chain(at)?;
        Ok(())
    }

    /// Drops chains where it is time to.
    pub(crate) fn clean<B: Board>(&mut self, board: &B) -> Result<(), AllocError>
        requires running { IsRunning self.old (B.nodes board.now) (B.log board.now) }
        ensures run { IsSameRun self.old self.new }
        ensures running { OnOk result (IsRunning self.new (B.nodes board.now) (B.log board.now)) }
        ensures writing { OnOk result (IsWriting self.old (B.nodes board.now) (B.log board.now)
            → IsWriting self.new (B.nodes board.now) (B.log board.now)) }
    {
        if self.diary.left == 0 || !self.engine.drops_now() {
            return Ok(());
        }
        let worst = self.engine.worst()?;
        'worst: for at in &worst {
            self.drop_idle(board, *at)?;
        }
        Ok(())
    }
}
