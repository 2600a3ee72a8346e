//! Boards: where a search puts the clauses that it learns, and where it reads what was put.
//!
//! A board has seen a log, over terms that stay, and can show what stands at the positions that are known. It sees more of
//! the log at each call, where others put clauses on the same log. What it has seen stays, and what is known stays known.
//! What it told a search of others is what `sync` answered last: no other call changes that.
//!
//! Of the steps of a log a search puts chains alone. A board that takes equalities and lemmas too is a `LemmaBoard`
//! (`lemma_board`).

ghost use Rattle.std.specs.Prelude.{◌≡◌, ◌<◌, ℕ, Bool, suc, false, List, length, IfOk, MatchResult};
ghost use Rattle.std.specs.Option.{option_copied};
ghost use Rattle.smt_terms.specs.declared.node.Node.{Node};
ghost use Rattle.proof_log.specs.declared.board.Sync.{Sync as Told};
ghost use Rattle.proof_log.specs.declared.entry.Entry.{Entry};
ghost use Rattle.proof_log.specs.Logs.{state_of, IsStep, IsLog};
ghost use Rattle.proof_log.specs.Stored.{Stands};
ghost use Rattle.proof_log.specs.Boards.{IsOfSearch, IsLater, IsPutAt, KnowsOneMore, IsClauseOf, IsEntryOf, AreBitsIn, AreImagesIn};

use crate::entry::Entry;
use crate::log::Log;
use cnf_base::{Clause, ClauseId, Pos};
use smt_terms::bits::Bits;
use smt_terms::terms::Terms;
use std::alloc::{AllocError, Global};
use std::marker::Model;

/// What a board has seen.
#[derive(Clone, Copy, Debug)]
pub struct Sync {
    /// How many positions: exactly those below are known.
    pub upto: Pos,
    /// Whether another search has found a model.
    pub found: bool,
}

/// What a search reads, and puts its clauses on.
pub trait Board {
    /// The terms.
    ghost nodes: { Self → List Node };

    /// All steps that the board has seen.
    ghost log: { Self → List Entry };

    /// What stands at this position can be read.
    ghost knows: { Self → ℕ → Type 0 };

    /// The board has seen that a model was found.
    ghost found: { Self → Bool };

    /// What `sync` answered last.
    ghost told: { Self → Told };

    /// Puts a step that is valid; gives its position. What was told stays.
    fn put(&mut self, entry: Entry) -> Result<Pos, AllocError>
        requires kind { IsOfSearch entry }
        requires valid { IsStep (nodes self.old) (state_of (nodes self.old) (log self.old)) entry }
        ensures later { IsLater (nodes self.old) (nodes self.new) (log self.old) (log self.new)
            (knows self.old) (knows self.new) }
        ensures put { IfOk result (λ p. IsPutAt (log self.old) entry p (log self.new)) }
        ensures known { IfOk result (λ p. KnowsOneMore (knows self.old) p (knows self.new)) }
        ensures told { told self.new ≡ told self.old };

    /// Sees and reads what others put, and tells it. For want of memory nothing is told.
    fn sync(&mut self) -> Result<Sync, AllocError>
        ensures later { IsLater (nodes self.old) (nodes self.new) (log self.old) (log self.new)
            (knows self.old) (knows self.new) }
        ensures upto { IfOk result (λ s. s.upto ≡ suc (length (log self.new))) }
        ensures known { IfOk result (λ s. (p : ℕ) → p < s.upto → knows self.new p) }
        ensures only { IfOk result (λ s. (p : ℕ) → knows self.new p → p < s.upto) }
        ensures found { IfOk result (λ s. s.found ≡ found self.new) }
        ensures told { MatchResult result (λ s. told self.new ≡ s)
            (λ e. told self.new ≡ told self.old) };

    /// The clause of a name, where its position is known; takes no memory.
    fn clause(&self, id: ClauseId) -> Option<&Clause>
        ensures { IsClauseOf (nodes self.now) (log self.now) (knows self.now) id
            (option_copied result) };

    /// The step at a position that is known; takes no memory.
    fn entry(&self, at: Pos) -> Option<&Entry>
        ensures { IsEntryOf (log self.now) (knows self.now) at (option_copied result) };

    /// The bits of the terms and their images, which no call changes.
    fn bits(&self) -> &Bits
        ensures bits { AreBitsIn (nodes self.now) (log self.now) result.now }
        ensures images { AreImagesIn (nodes self.now) (log self.now) result.now }
        ensures stands { IsLog (nodes self.now) (log self.now) };
}

/// A board of one log alone, on which nobody else puts.
#[derive(Drop)]
pub struct LogBoard<'a> {
    pub(crate) alloc: Global,
    pub(crate) log: Log,
    pub(crate) terms: &'a Terms,
    // what `sync` answered last
    pub(crate) told: Sync,
}

impl<'a> Model for LogBoard<'a> {
    ghost use Rattle.proof_log.specs.Stored.{Stands};
    ghost use Rattle.proof_log.specs.Boards.{LogBoardValue};

    ghost Value = { LogBoardValue };

    ghost view = { λ b. record { terms = b.terms.now; log = b.log; told = b.told } };

    ghost invariant = { λ b. Stands b.terms.now.nodes b.log };
}

impl<'a> LogBoard<'a> {
    /// The board of a log that stands over these terms, which has told nothing.
    pub fn new(alloc: Global, log: Log, terms: &'a Terms) -> LogBoard<'a>
        requires { Stands terms.now.nodes log }
        ensures terms { result.terms ≡ terms.now }
        ensures log { result.log ≡ log }
        ensures told { result.told ≡ record { upto = 0; found = false } }
    {
        let told = Sync {
            upto: 0,
            found: false,
        };
        LogBoard {
            alloc,
            log,
            terms,
            told,
        }
    }

    /// The log with what was put.
    pub fn into_log(self) -> Log
        ensures log { result ≡ self.entry.log }
        ensures stands { Stands self.entry.terms.nodes result }
    {
        self.log
    }
}

impl<'a> Board for LogBoard<'a> {
    ghost use Rattle.std.specs.Prelude.{◌<◌, suc, length, false};

    ghost nodes = { λ b. b.terms.nodes };

    ghost log = { λ b. b.log.entries };

    ghost knows = { λ b p. p < suc (length b.log.entries) };

    ghost found = { λ b. false };

    ghost told = { λ b. b.told };

    fn put(&mut self, entry: Entry) -> Result<Pos, AllocError> {
        self.log.push(self.alloc, self.terms, entry)
    }

    fn sync(&mut self) -> Result<Sync, AllocError> {
        self.told = Sync {
            upto: self.log.len(),
            found: false,
        };
        Ok(self.told)
    }

    fn clause(&self, id: ClauseId) -> Option<&Clause> {
        self.log.clause(id)
    }

    fn entry(&self, at: Pos) -> Option<&Entry> {
        self.log.entry(at)
    }

    fn bits(&self) -> &Bits {
        self.log.bits()
    }
}
