//! A search that is kept from check to check.

ghost use Rattle.std.specs.Prelude.{◌≡◌, ◌<◌, ℕ, List, suc, false, length, Contains, IfOk, OnOk};
ghost use Rattle.cnf_base.specs.Literals.{Literal};
ghost use Rattle.smt_terms.specs.Terms.{IsTermList};
ghost use Rattle.proof_log.specs.declared.entry.Entry.{Entry as Step};
ghost use Rattle.proof_log.specs.Logs.{entry_at, state_of, IsLog};
ghost use Rattle.proof_log.specs.Diaries.{is_chain};
ghost use Rattle.cube_search.specs.Running.{IsResting, IsSearch};

use cnf_base::Pos;
use cube_search::Search;
use proof_log::board::Board;
use std::alloc::{AllocError, Global};

/// By how many steps the log may grow before a search is made anew: what a search keeps takes memory.
const KEPT_AT_LEAST: u64 = 20_000;

/// By how many further steps it may grow for each position that a check needs.
const KEPT_FOR_EACH: u64 = 8;

/// A search that is kept from check to check, with what it learnt.
#[derive(Drop)]
pub struct KeptSearch {
    pub search: Search,
    /// How long the log was when the search was made.
    pub made: Pos,
}

impl KeptSearch {
    /// A search that keeps nothing yet.
    pub fn new(alloc: Global) -> Result<KeptSearch, AllocError>
        ensures { IfOk result (λ k. (rows : List (List (List Literal))) (log : List Step)
            → IsResting k.search rows log) }
    {
        Ok(KeptSearch {
            search: Search::new(alloc)?,
            made: 0,
        })
    }

    // Makes the search anew where the log grew by far more than this check needs since it was made.
    fn make_room(&mut self, alloc: Global, from: Pos, needed: usize) -> Result<(), AllocError>
        ensures { OnOk result ((rows : List (List (List Literal))) (log : List Step)
            → IsResting self.old.search rows log → IsResting self.new.search rows log) }
    {
        let kept = (needed as u64)
            .saturating_mul(KEPT_FOR_EACH)
            .saturating_add(KEPT_AT_LEAST);
        if from.saturating_sub(self.made) <= kept {
            return Ok(());
        }
        self.search = Search::new(alloc)?;
        self.made = from;
        Ok(())
    }

    /// Goes over to the positions of another check, which are known to the board, are no chains' and stand below `from`, the
    /// board's next position.
    pub(crate) fn go_over<B: Board>(
        &mut self,
        alloc: Global,
        board: &B,
        positions: &[Pos],
        from: Pos,
    ) -> Result<(), AllocError>
        requires resting { IsResting self.old.search
            (state_of (B.nodes board.now) (B.log board.now)).clauses (B.log board.now) }
        requires known { (p : ℕ) → Contains positions.now p → B.knows board.now p }
        requires plain { (p : ℕ) → Contains positions.now p
            → is_chain (entry_at (B.log board.now) p) ≡ false }
        requires below { (p : ℕ) → Contains positions.now p → p < from }
        requires from { from ≡ suc (length (B.log board.now)) }
        requires listed { IsTermList (B.nodes board.now) }
        requires stands { IsLog (B.nodes board.now) (B.log board.now) }
        ensures search { OnOk result
            (IsSearch self.new.search (B.nodes board.now) (B.log board.now)) }
        ensures opening { OnOk result (self.new.search.opening.items ≡ positions.now) }
        ensures from { OnOk result (self.new.search.from ≡ from) }
    {
        self.make_room(alloc, from, positions.len())?;
        self.search.retarget(board, positions, from)
    }
}
