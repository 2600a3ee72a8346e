//! A run of a search.

ghost use Rattle.std.specs.Prelude.{◌≡◌, IfOk, OnOk, MatchOption};
ghost use Rattle.cnf_base.specs.Assignments.{AreBelow};
ghost use Rattle.proof_log.specs.Logs.{state_of};
ghost use Rattle.proof_log.specs.Boards.{IsLater};
ghost use Rattle.cdcl_core.specs.Search.{IsConflict};
ghost use Rattle.cube_search.specs.Holding.{NeedNoOther};
ghost use Rattle.cube_search.specs.Running.{given_in, IsSearch, IsRunning, IsWriting, IsReadyToPut, IsUpToDate, IsCaughtUp, HasLooked, IsSameRun, subject_of, valuation_of};
ghost use Rattle.cube_search.specs.Ends.{IsEnd, IsModelEnd};

use crate::ends::End;
use crate::search::Search;
use cdcl_learn::Clash;
use cnf_base::{ClauseId, Lit};
use proof_log::board::Board;
use std::alloc::AllocError;

impl Search {
    // What comes of a conflict.
    fn settle<B: Board>(
        &mut self,
        board: &mut B,
        conflict: ClauseId,
        cube: u32,
        budget: u64,
    ) -> Result<Option<End>, AllocError>
        requires running { IsRunning self.old (B.nodes board.old) (B.log board.old) }
        requires conflict { IsConflict self.old.engine.watches self.old.engine.trail conflict }
        requires told { IsCaughtUp (B.told board.old) (B.log board.old) }
        ensures run { IsSameRun self.old self.new }
        ensures later { IsLater (B.nodes board.old) (B.nodes board.new) (B.log board.old)
            (B.log board.new) (B.knows board.old) (B.knows board.new) }
        ensures running { OnOk result (IsRunning self.new (B.nodes board.new) (B.log board.new)) }
        ensures looked { OnOk result (HasLooked self.new (B.log board.old) (B.told board.new)) }
        ensures told { IfOk result
            (λ o. MatchOption o (IsCaughtUp (B.told board.new) (B.log board.new)) (λ e. Unit {0})) }
        ensures end { IfOk result (λ o. MatchOption o
            (IsUpToDate self.old (B.nodes board.old) (B.log board.old) (B.knows board.old)
            → IsUpToDate self.new (B.nodes board.new) (B.log board.new) (B.knows board.new))
            (IsEnd (IsUpToDate self.old (B.nodes board.old) (B.log board.old) (B.knows board.old))
            (subject_of self.old (B.nodes board.new) (B.log board.new)) (B.knows board.new)
            (B.found board.new) (B.told board.new) self.old.opening.items
            (valuation_of self.new) cube budget)) }
        ensures model { IfOk result (λ o. MatchOption o (Unit {0}) (λ e. IsModelEnd e
            → IsUpToDate self.old (B.nodes board.old) (B.log board.old) (B.knows board.old)
            → IsUpToDate self.new (B.nodes board.new) (B.log board.new) (B.knows board.new))) }
    {
        if self.engine.level() == self.engine.base() {
            return Ok(Some(End::Closed(self.close(board, Clash::Held(conflict))?)));
        }
        let (clause, level, at) = self.learn(board, conflict)?;
        if self.diary.puts == budget {
            return Ok(Some(End::Spent(self.diary.finish(self.alloc, cube, at)?)));
        }
        self.keep(clause, level, at)?;
        self.engine.restart();
        self.clean(board)?;
        if self.take_news(board)? {
            return Ok(Some(End::Stopped));
        }
        Ok(None)
    }

    // Propagates, and then answers a conflict or decides.
    fn step<B: Board>(
        &mut self,
        board: &mut B,
        cube: u32,
        budget: u64,
    ) -> Result<Option<End>, AllocError>
        requires running { IsRunning self.old (B.nodes board.old) (B.log board.old) }
        requires told { IsCaughtUp (B.told board.old) (B.log board.old) }
        ensures run { IsSameRun self.old self.new }
        ensures later { IsLater (B.nodes board.old) (B.nodes board.new) (B.log board.old)
            (B.log board.new) (B.knows board.old) (B.knows board.new) }
        ensures running { OnOk result (IsRunning self.new (B.nodes board.new) (B.log board.new)) }
        ensures looked { OnOk result (HasLooked self.new (B.log board.old) (B.told board.new)) }
        ensures told { IfOk result
            (λ o. MatchOption o (IsCaughtUp (B.told board.new) (B.log board.new)) (λ e. Unit {0})) }
        ensures end { IfOk result (λ o. MatchOption o
            (IsUpToDate self.old (B.nodes board.old) (B.log board.old) (B.knows board.old)
            → IsUpToDate self.new (B.nodes board.new) (B.log board.new) (B.knows board.new))
            (IsEnd (IsUpToDate self.old (B.nodes board.old) (B.log board.old) (B.knows board.old))
            (subject_of self.old (B.nodes board.new) (B.log board.new)) (B.knows board.new)
            (B.found board.new) (B.told board.new) self.old.opening.items
            (valuation_of self.new) cube budget)) }
        ensures model { IfOk result (λ o. MatchOption o (Unit {0}) (λ e. IsModelEnd e
            → IsUpToDate self.old (B.nodes board.old) (B.log board.old) (B.knows board.old)
            → IsUpToDate self.new (B.nodes board.new) (B.log board.new) (B.knows board.new))) }
    {
        if let Some(id) = self.engine.propagate() {
            return self.settle(board, id, cube, budget);
        }
        if let Some(clash) = self.engine.assume()? {
            return Ok(Some(End::Closed(self.close(board, clash)?)));
        }
        if self.engine.decide()? {
            return Ok(None);
        }
        Ok(Some(End::Model))
    }

    // Looks at what others put, and searches until the answer is known, or one more clause was put than the budget allows.
    fn go_to_end<B: Board>(
        &mut self,
        board: &mut B,
        cube: u32,
        budget: u64,
    ) -> Result<End, AllocError>
        requires running { IsRunning self.old (B.nodes board.old) (B.log board.old) }
        ensures later { IsLater (B.nodes board.old) (B.nodes board.new) (B.log board.old)
            (B.log board.new) (B.knows board.old) (B.knows board.new) }
        ensures run { IsSameRun self.old self.new }
        ensures running { OnOk result (IsRunning self.new (B.nodes board.new) (B.log board.new)) }
        ensures looked { OnOk result (HasLooked self.new (B.log board.old) (B.told board.new)) }
        ensures end { IfOk result
            (IsEnd (IsReadyToPut self.old (B.nodes board.old) (B.log board.old))
            (subject_of self.old (B.nodes board.new) (B.log board.new)) (B.knows board.new)
            (B.found board.new) (B.told board.new) self.old.opening.items
            (valuation_of self.new) cube budget) }
        ensures model { IfOk result (λ e. IsModelEnd e
            → IsReadyToPut self.old (B.nodes board.old) (B.log board.old)
            → IsWriting self.new (B.nodes board.new) (B.log board.new)) }
    {
        if self.take_news(board)? {
            return Ok(End::Stopped);
        }
        'steps: for _ in 0..u64::MAX {
            if let Some(end) = self.step(board, cube, budget)? {
                return Ok(end);
            }
        }
        Err(AllocError)
    }

    /// Searches under the given literals, those of the cube of this number among them, until the answer is known, or one more clause was
    /// put than the budget allows. It looks at what others put before its first decision, and after each put but one that ends it.
    pub fn run<B: Board>(
        &mut self,
        board: &mut B,
        cube: u32,
        given: &[Lit],
        budget: u64,
    ) -> Result<End, AllocError>
        requires search { IsSearch self.old (B.nodes board.old) (B.log board.old) }
        requires below { AreBelow (state_of (B.nodes board.old) (B.log board.old)).next given.now }
        ensures later { IsLater (B.nodes board.old) (B.nodes board.new) (B.log board.old)
            (B.log board.new) (B.knows board.old) (B.knows board.new) }
        ensures search { OnOk result (IsSearch self.new (B.nodes board.new) (B.log board.new)) }
        ensures opening { self.new.opening ≡ self.old.opening }
        ensures from { self.new.from ≡ self.old.from }
        ensures looked { OnOk result (HasLooked self.new (B.log board.old) (B.told board.new)) }
        ensures end { IfOk result
            (IsEnd (NeedNoOther (state_of (B.nodes board.old) (B.log board.old)).clauses
            (B.log board.old) self.old.opening.items self.old.from)
            (record {
              nodes = B.nodes board.new;
              log = B.log board.new;
              given = given.now;
              from = self.old.from;
            })
            (B.knows board.new) (B.found board.new) (B.told board.new) self.old.opening.items
            (valuation_of self.new) cube budget) }
        ensures given { OnOk result (given_in self.new ≡ given.now) }
        ensures model { IfOk result (λ e. IsModelEnd e
            → NeedNoOther (state_of (B.nodes board.old) (B.log board.old)).clauses
            (B.log board.old) self.old.opening.items self.old.from
            → IsWriting self.new (B.nodes board.new) (B.log board.new)) }
    {
        self.begin(given)?;
        self.go_to_end(board, cube, budget)
    }

    /// Goes on with the run that ended last, under the same given literals: its diary and what it has spent of the budget stay. So a
    /// search goes on that has found a model and then took lemmas that are false in it.
    pub fn resume<B: Board>(
        &mut self,
        board: &mut B,
        cube: u32,
        given: &[Lit],
        budget: u64,
    ) -> Result<End, AllocError>
        requires search { IsSearch self.old (B.nodes board.old) (B.log board.old) }
        requires below { AreBelow (state_of (B.nodes board.old) (B.log board.old)).next given.now }
        requires same { given_in self.old ≡ given.now }
        ensures later { IsLater (B.nodes board.old) (B.nodes board.new) (B.log board.old)
            (B.log board.new) (B.knows board.old) (B.knows board.new) }
        ensures search { OnOk result (IsSearch self.new (B.nodes board.new) (B.log board.new)) }
        ensures opening { self.new.opening ≡ self.old.opening }
        ensures from { self.new.from ≡ self.old.from }
        ensures looked { OnOk result (HasLooked self.new (B.log board.old) (B.told board.new)) }
        ensures end { IfOk result
            (IsEnd (IsReadyToPut self.old (B.nodes board.old) (B.log board.old))
            (subject_of self.old (B.nodes board.new) (B.log board.new)) (B.knows board.new)
            (B.found board.new) (B.told board.new) self.old.opening.items
            (valuation_of self.new) cube budget) }
        ensures given { OnOk result (given_in self.new ≡ given.now) }
        ensures model { IfOk result (λ e. IsModelEnd e
            → IsReadyToPut self.old (B.nodes board.old) (B.log board.old)
            → IsWriting self.new (B.nodes board.new) (B.log board.new)) }
    {
        self.begin_again(given)?;
        self.go_to_end(board, cube, budget)
    }
}
