//! Boards that take equalities and lemmas beside chains.
//!
//! A search that adds lemmas on functions and arrays names equalities of terms by variables. Such a board gives a pair of
//! terms its variable where it has none, puts the clauses of lemmas, and shows which pairs have one. The steps that others
//! put on the same log may be of these kinds too. A search of words alone needs no such board.

ghost use Rattle.std.specs.Prelude.{◌≡◌, IfOk, Some};
ghost use Rattle.proof_log.specs.declared.entry.Entry.TheVariants as step;
ghost use Rattle.proof_log.specs.Logs.{entry_at, state_of, IsPair, IsLemma};
ghost use Rattle.proof_log.specs.Boards.{IsPutAt};
ghost use Rattle.proof_log.specs.LemmaBoards.{IsLaterByMore, AreEqualsIn};

use crate::board::{Board, LogBoard};
use crate::entry::Entry;
use crate::equals::Equals;
use cnf_base::Pos;
use smt_terms::node::TermId;
use std::alloc::AllocError;
use theory_terms::lemma::Lemma;

/// What a search reads, and puts its clauses, equalities and lemmas on.
pub trait LemmaBoard: Board {
    /// The position of the step that gives the equality of two terms its variable, the lower term first. Where they have
    /// none, such a step is put.
    fn define(&mut self, lower: TermId, upper: TermId) -> Result<Pos, AllocError>
        requires pair { IsPair (Self.nodes self.old)
            (state_of (Self.nodes self.old) (Self.log self.old)) lower upper }
        ensures later { IsLaterByMore (Self.nodes self.old) (Self.nodes self.new)
            (Self.log self.old) (Self.log self.new) (Self.knows self.old) (Self.knows self.new) }
        ensures defined { IfOk result
            (λ p. entry_at (Self.log self.new) p ≡ Some (step.Equal lower upper)) }
        ensures known { IfOk result (λ p. Self.knows self.new p) }
        ensures told { Self.told self.new ≡ Self.told self.old };

    /// Puts the clause of a lemma; gives its position.
    fn put_lemma(&mut self, lemma: Lemma) -> Result<Pos, AllocError>
        requires valid { IsLemma (Self.nodes self.old)
            (state_of (Self.nodes self.old) (Self.log self.old)) lemma }
        ensures later { IsLaterByMore (Self.nodes self.old) (Self.nodes self.new)
            (Self.log self.old) (Self.log self.new) (Self.knows self.old) (Self.knows self.new) }
        ensures put { IfOk result
            (λ p. IsPutAt (Self.log self.old) (step.Lemma lemma) p (Self.log self.new)) }
        ensures known { IfOk result (λ p. Self.knows self.new p) }
        ensures told { Self.told self.new ≡ Self.told self.old };

    /// The variables of equalities, as far as their steps are known; takes no memory.
    fn equals(&self) -> &Equals
        ensures { AreEqualsIn (Self.nodes self.now) (Self.log self.now) (Self.knows self.now)
            result.now };
}

impl<'a> LemmaBoard for LogBoard<'a> {
    fn define(&mut self, lower: TermId, upper: TermId) -> Result<Pos, AllocError> {
        if let Some(at) = self.log.equals().place_of(lower, upper) {
            return Ok(at);
        }
        self.log
            .push(self.alloc, self.terms, Entry::Equal(lower, upper))
    }

    fn put_lemma(&mut self, lemma: Lemma) -> Result<Pos, AllocError> {
        self.log.push(self.alloc, self.terms, Entry::Lemma(lemma))
    }

    fn equals(&self) -> &Equals {
        self.log.equals()
    }
}
