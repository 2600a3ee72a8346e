//! Equalities and lemmas that come while a check is searched.

ghost use Rattle.std.specs.Prelude.{ℕ, ◌≡◌, ◌≤◌, ◌<◌, ◌⊎◌, ◌++◌, ◌∷◌, [], suc, length, true, false, Contains, OnOk};
ghost use Rattle.proof_log.specs.Logs.{entry_at, state_of};
ghost use Rattle.cdcl_core.specs.Search.{level_of};
ghost use Rattle.cdcl_loop.specs.Engines.{IsEngine};
ghost use Rattle.cube_search.specs.Holding.{AreSeparate, IsLonger, IsFilling};
ghost use Rattle.cube_search.specs.Keeping.{HasLine, is_theory};
ghost use Rattle.cube_search.specs.Running.{variables_in, given_in, IsSearch, IsWriting, IsAdding};

use crate::bring::bring;
use crate::retarget::sort_chains;
use crate::search::Search;
use cnf_base::Pos;
use proof_log::board::Board;
use proof_log::entry::Entry;
use std::alloc::AllocError;

// Whether an equality or a lemma is known to stand at the position.
fn is_theory<B: Board>(board: &B, at: Pos) -> bool
    ensures shown { result ≡ true → is_theory (entry_at (B.log board.now) at) ≡ true }
    ensures other { result ≡ false → B.knows board.now at
        → is_theory (entry_at (B.log board.now) at) ≡ false }
{
    matches!(
        board.entry(at),
        Some(Entry::Equal(_, _)) | Some(Entry::Lemma(_))
    )
}

impl Search {
    // Holds the clauses of an equality or a lemma at level 0, and notes it in the diary.
    fn hold_step<B: Board>(&mut self, board: &B, at: Pos) -> Result<(), AllocError>
        requires engine { IsEngine self.old.engine }
        requires level { level_of self.old.engine.trail ≡ 0 }
        requires known { B.knows board.now at }
        requires theory { is_theory (entry_at (B.log board.now) at) ≡ true }
        requires filling { IsFilling self.old.engine.watches
            (state_of (B.nodes board.now) (B.log board.now)).clauses (variables_in self.old)
            self.old.opening.items self.old.ends.items self.old.opening.items self.old.taken.items }
        ensures engine { OnOk result (IsEngine self.new.engine) }
        ensures level { OnOk result (level_of self.new.engine.trail ≡ 0) }
        ensures adding { OnOk result
            (IsAdding (B.nodes board.now) (B.log board.now) self.old self.new) }
        ensures held { OnOk result (Contains self.new.opening.items at) }
        ensures pushed { OnOk result
            (self.new.opening.items ≡ self.old.opening.items ++ at ∷ []) }
    {
        let end = self.engine.listed();
        self.ends.push(end)?;
        bring(self.alloc, board, &mut self.engine, at)?;
        self.opening.push(at)?;
        self.diary.take(at)?;
        Ok(())
    }

    // Holds the clauses of an equality or a lemma; passes over any other step.
    fn take_step<B: Board>(&mut self, board: &B, at: Pos) -> Result<(), AllocError>
        requires engine { IsEngine self.old.engine }
        requires level { level_of self.old.engine.trail ≡ 0 }
        requires known { B.knows board.now at }
        requires filling { IsFilling self.old.engine.watches
            (state_of (B.nodes board.now) (B.log board.now)).clauses (variables_in self.old)
            self.old.opening.items self.old.ends.items self.old.opening.items self.old.taken.items }
        ensures engine { OnOk result (IsEngine self.new.engine) }
        ensures level { OnOk result (level_of self.new.engine.trail ≡ 0) }
        ensures adding { OnOk result
            (IsAdding (B.nodes board.now) (B.log board.now) self.old self.new) }
        ensures held { OnOk result (is_theory (entry_at (B.log board.now) at) ≡ true
            → Contains self.new.opening.items at) }
        ensures came { OnOk result ((p : ℕ) → Contains self.new.opening.items p
            → Contains self.old.opening.items p ⊎ (p ≡ at)) }
    {
        if !is_theory(board, at) {
            return Ok(());
        }
        self.hold_step(board, at)?;
        Ok(())
    }

    // Holds those that stand from the first position that it has not seen up to this one.
    fn hold_steps<B: Board>(&mut self, board: &B, upto: Pos) -> Result<(), AllocError>
        requires engine { IsEngine self.old.engine }
        requires level { level_of self.old.engine.trail ≡ 0 }
        requires known { (p : ℕ) → p < upto → B.knows board.now p }
        requires filling { IsFilling self.old.engine.watches
            (state_of (B.nodes board.now) (B.log board.now)).clauses (variables_in self.old)
            self.old.opening.items self.old.ends.items self.old.opening.items self.old.taken.items }
        ensures engine { OnOk result (IsEngine self.new.engine) }
        ensures level { OnOk result (level_of self.new.engine.trail ≡ 0) }
        ensures adding { OnOk result
            (IsAdding (B.nodes board.now) (B.log board.now) self.old self.new) }
        ensures all { OnOk result ((p : ℕ) → self.old.seen ≤ p → p < upto
            → is_theory (entry_at (B.log board.now) p) ≡ true
            → Contains self.new.opening.items p) }
        ensures came { OnOk result ((p : ℕ) → Contains self.new.opening.items p
            → Contains self.old.opening.items p ⊎ ((self.old.seen ≤ p) × (p < upto))) }
    {
        'steps: for at in self.seen..upto {
            self.take_step(board, at)?;
        }
        Ok(())
    }

    /// Takes the equalities and lemmas that stand from the first position that it has not seen up to this one, in their order. Each is
    /// held from here on with all its clauses, whose variables are listed behind the others, and has a line in the diary, where it
    /// counts as no chain. Of the chains that are kept those are held whose variables are listed now. Every decision is taken back, and
    /// the variables keep their signs; the search may go on by `resume`.
    pub fn take_steps<B: Board>(&mut self, board: &B, upto: Pos) -> Result<(), AllocError>
        requires search { IsSearch self.old (B.nodes board.now) (B.log board.now) }
        requires known { (p : ℕ) → p < upto → B.knows board.now p }
        ensures from { OnOk result (self.new.from ≡ self.old.from) }
        ensures given { OnOk result (given_in self.new ≡ given_in self.old) }
        ensures search { OnOk result (IsSearch self.new (B.nodes board.now) (B.log board.now)) }
        ensures longer { OnOk result (IsLonger self.old.opening.items self.new.opening.items) }
        ensures only { OnOk result ((p : ℕ) → Contains self.new.opening.items p
            → Contains self.old.opening.items p
            ⊎ (is_theory (entry_at (B.log board.now) p) ≡ true)) }
        ensures came { OnOk result ((p : ℕ) → Contains self.new.opening.items p
            → Contains self.old.opening.items p ⊎ ((self.old.seen ≤ p) × (p < upto))) }
        ensures all { OnOk result ((p : ℕ) → self.old.seen ≤ p → p < upto
            → is_theory (entry_at (B.log board.now) p) ≡ true
            → Contains self.new.opening.items p) }
        ensures lined { OnOk result ((p : ℕ) → Contains self.new.opening.items p
            → Contains self.old.opening.items p ⊎ HasLine self.new.diary.lines.items p) }
        ensures writing { OnOk result (IsWriting self.old (B.nodes board.now) (B.log board.now)
            → AreSeparate (state_of (B.nodes board.now) (B.log board.now)).clauses
            (B.log board.now) self.new.opening.items (suc (length (B.log board.now)))
            → IsWriting self.new (B.nodes board.now) (B.log board.now)) }
    {
        self.engine.go_back(0);
        self.hold_steps(board, upto)?;
        self.taken = sort_chains(self.alloc, &mut self.engine, self.taken.as_slice())?;
        Ok(())
    }
}
