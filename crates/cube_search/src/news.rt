//! What others put on the board, and how a run begins.

ghost use Rattle.std.specs.Prelude.{ℕ, ◌≡◌, ◌<◌, ◌⊎◌, ◌++◌, ◌∷◌, [], List, Some, None, true, IfOk, OnOk, MatchBool};
ghost use Rattle.cnf_base.specs.Literals.{Literal};
ghost use Rattle.cnf_base.specs.Assignments.{AreBelow};
ghost use Rattle.smt_terms.specs.declared.node.Node.{Node};
ghost use Rattle.cdcl_core.specs.declared.watches.Watches.{Watches};
ghost use Rattle.cdcl_core.specs.Search.{clause_of};
ghost use Rattle.cdcl_loop.specs.Engines.{IsEngine, IsOnCourse, IsSameTask};
ghost use Rattle.proof_log.specs.declared.entry.Entry.{Entry};
ghost use Rattle.proof_log.specs.Logs.{state_of, entry_at};
ghost use Rattle.proof_log.specs.Boards.{IsLater};
ghost use Rattle.proof_log.specs.Diaries.{is_chain};
ghost use Rattle.cube_search.specs.Holding.{AreSeparate, IsAdmitted, AreLeft};
ghost use Rattle.cube_search.specs.Keeping.{HasLine, IsTaken, NotesTaken, NotesAdded};
ghost use Rattle.cube_search.specs.Running.{variables_in, given_in, IsSearch, IsRunning, IsWriting, IsReadyToPut, IsUpToDate, IsCaughtUp, IsSameRun};

use crate::bring::are_listed;
use crate::keeper::Keeper;
use crate::learning::is_chain;
use crate::search::Search;
use cdcl_loop::Engine;
use cnf_base::{Clause, ClauseId, Lit, Pos};
use proof_log::board::Board;
use std::alloc::{AllocError, Global};

// Notes a chain of an earlier run in a diary, and its position, where it is still kept.
fn note_kept(
    engine: &Engine,
    at: Pos,
    left: &mut Vec<Pos>,
    diary: &mut Keeper,
) -> Result<(), AllocError>
    ensures { OnOk result
        (((clause_of engine.now.watches (record { pos = at; part = 0 }) ≡ None)
        × (left.new.items ≡ left.old.items) × (diary.new ≡ diary.old))
        ⊎ ((c : List Literal)
        × (clause_of engine.now.watches (record { pos = at; part = 0 }) ≡ Some c)
        × (left.new.items ≡ left.old.items ++ at ∷ []) × IsTaken diary.old diary.new at)) }
{
    let Some(_) = engine.clause(ClauseId { pos: at, part: 0 }) else {
        return Ok(());
    };
    left.push(at)?;
    diary.take(at)?;
    Ok(())
}

// Notes the chains of earlier runs that are still kept; gives their positions.
fn note_taken(
    alloc: Global,
    engine: &Engine,
    positions: &[Pos],
    diary: &mut Keeper,
) -> Result<Vec<Pos>, AllocError>
    ensures noted { OnOk result
        (NotesTaken engine.now.watches positions.now positions.now diary.old diary.new) }
    ensures left { IfOk result
        (λ left. AreLeft (clause_of engine.now.watches) positions.now left.items) }
{
    let mut left = Vec::new(alloc);
    'positions: for at in positions {
        note_kept(engine, *at, &mut left, diary)?;
    }
    Ok(left)
}

// Notes a position in a diary where it is not below the bound.
fn note_from(at: Pos, bound: Pos, diary: &mut Keeper) -> Result<(), AllocError>
    ensures { OnOk result
        (((at < bound) × (diary.new ≡ diary.old)) ⊎ IsTaken diary.old diary.new at) }
{
    if at < bound {
        return Ok(());
    }
    diary.take(at)?;
    Ok(())
}

// Notes those of these positions in a diary that are not below the bound.
fn note_added(positions: &[Pos], bound: Pos, diary: &mut Keeper) -> Result<(), AllocError>
    ensures { OnOk result ((w : Watches)
        → NotesAdded w positions.now diary.old diary.new bound) }
{
    'positions: for at in positions {
        note_from(*at, bound, diary)?;
    }
    Ok(())
}

impl Search {
    // Holds the clause of a chain where each of its variables is listed, and keeps it alone where one is not.
    fn admit(&mut self, at: Pos, clause: &Clause) -> Result<(), AllocError>
        requires engine { IsEngine self.old.engine }
        requires fresh { clause_of self.old.engine.watches (record { pos = at; part = 0 }) ≡ None }
        ensures same { self.new ≡ record self.old { engine = self.new.engine } }
        ensures task { IsSameTask self.old.engine self.new.engine }
        ensures engine { OnOk result (IsEngine self.new.engine) }
        ensures course { OnOk result (IsOnCourse self.old.engine → IsOnCourse self.new.engine) }
        ensures admitted { OnOk result
            (IsAdmitted self.old.engine.watches self.new.engine.watches (variables_in self.old) at
            clause.now) }
    {
        let own = clause.copy(self.alloc)?;
        if !are_listed(&self.engine, clause.literals()) {
            self.engine.store(ClauseId { pos: at, part: 0 }, own)?;
            return Ok(());
        }
        self.engine.admit(own, at)?;
        Ok(())
    }

    // Takes a chain that another put: it is kept, and held where it speaks of the same variables.
    fn take<B: Board>(&mut self, board: &B, at: Pos) -> Result<(), AllocError>
        requires running { IsRunning self.old (B.nodes board.now) (B.log board.now) }
        requires known { B.knows board.now at }
        ensures run { IsSameRun self.old self.new }
        ensures seen { self.new.seen ≡ self.old.seen }
        ensures start { self.new.diary.start ≡ self.old.diary.start }
        ensures running { OnOk result (IsRunning self.new (B.nodes board.now) (B.log board.now)) }
        ensures writing { OnOk result (IsWriting self.old (B.nodes board.now) (B.log board.now)
            → IsWriting self.new (B.nodes board.now) (B.log board.now)) }
        ensures lined { OnOk result (IsWriting self.old (B.nodes board.now) (B.log board.now)
            → is_chain (entry_at (B.log board.now) at) ≡ true
            → HasLine self.new.diary.lines.items at) }
        ensures kept { OnOk result ((p : ℕ) → HasLine self.old.diary.lines.items p
            → HasLine self.new.diary.lines.items p) }
    {
        let id = ClauseId { pos: at, part: 0 };
        if let Some(_) = self.engine.clause(id) {
            return Ok(());
        }
        if !is_chain(board, at) {
            return Ok(());
        }
        let Some(clause) = board.clause(id) else {
            return Ok(());
        };
        self.diary.take(at)?;
        self.taken.push(at)?;
        self.admit(at, clause)
    }

    /// Takes what others put; true where one of them has found a model, and then nothing is taken.
    pub(crate) fn take_news<B: Board>(&mut self, board: &mut B) -> Result<bool, AllocError>
        requires running { IsRunning self.old (B.nodes board.old) (B.log board.old) }
        ensures run { IsSameRun self.old self.new }
        ensures later { IsLater (B.nodes board.old) (B.nodes board.new) (B.log board.old)
            (B.log board.new) (B.knows board.old) (B.knows board.new) }
        ensures running { OnOk result (IsRunning self.new (B.nodes board.new) (B.log board.new)) }
        ensures told { OnOk result (IsCaughtUp (B.told board.new) (B.log board.new)) }
        ensures news { IfOk result
            (λ found. MatchBool found ((B.found board.new ≡ true)
            × ((B.told board.new).found ≡ true))
            (IsReadyToPut self.old (B.nodes board.old) (B.log board.old)
            → IsUpToDate self.new (B.nodes board.new) (B.log board.new) (B.knows board.new))) }
    {
        let news = board.sync()?;
        if news.found {
            return Ok(true);
        }
        'news: for at in self.seen..news.upto {
            self.take(board, at)?;
        }
        self.seen = news.upto;
        Ok(false)
    }

    /// Begins a run under these literals.
    pub(crate) fn begin(&mut self, given: &[Lit]) -> Result<(), AllocError>
        requires engine { IsEngine self.old.engine }
        ensures opening { self.new.opening ≡ self.old.opening }
        ensures ends { self.new.ends ≡ self.old.ends }
        ensures listed { variables_in self.new ≡ variables_in self.old }
        ensures from { self.new.from ≡ self.old.from }
        ensures given { OnOk result (given_in self.new ≡ given.now) }
        ensures running { OnOk result ((nodes : List Node) (log : List Entry)
            → IsSearch self.old nodes log → AreBelow (state_of nodes log).next given.now
            → IsRunning self.new nodes log) }
        ensures writing { OnOk result ((nodes : List Node) (log : List Entry)
            → IsSearch self.old nodes log
            → AreSeparate (state_of nodes log).clauses log self.old.opening.items self.old.from
            → IsWriting self.new nodes log) }
    {
        let given = Vec::from_slice(self.alloc, given)?;
        self.engine.begin(given);
        let mut diary = Keeper::new(self.alloc, self.seen);
        note_added(self.opening.as_slice(), self.from, &mut diary)?;
        self.taken = note_taken(self.alloc, &self.engine, self.taken.as_slice(), &mut diary)?;
        self.diary = diary;
        Ok(())
    }

    // Begins again under the same literals, with the same diary.
    pub(crate) fn begin_again(&mut self, given: &[Lit]) -> Result<(), AllocError>
        requires engine { IsEngine self.old.engine }
        ensures opening { self.new.opening ≡ self.old.opening }
        ensures ends { self.new.ends ≡ self.old.ends }
        ensures listed { variables_in self.new ≡ variables_in self.old }
        ensures from { self.new.from ≡ self.old.from }
        ensures given { OnOk result (given_in self.new ≡ given.now) }
        ensures running { OnOk result ((nodes : List Node) (log : List Entry)
            → IsSearch self.old nodes log → AreBelow (state_of nodes log).next given.now
            → IsRunning self.new nodes log) }
        ensures writing { OnOk result ((nodes : List Node) (log : List Entry)
            → given_in self.old ≡ given.now → IsWriting self.old nodes log
            → IsWriting self.new nodes log) }
    {
        let given = Vec::from_slice(self.alloc, given)?;
        self.engine.begin(given);
        Ok(())
    }
}
