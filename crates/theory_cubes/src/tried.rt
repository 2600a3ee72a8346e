//! What the cubes of a check came to, one after the other.

ghost use Rattle.std.specs.Prelude.{◌≡◌, ◌^◌, ◌+◌, ℕ, List, IfOk, OnOk, MatchOption, length};
ghost use Rattle.smt_terms.specs.Terms.{IsTermList};
ghost use Rattle.smt_values.specs.Held.{interpretation_of};
ghost use Rattle.proof_log.specs.declared.entry.Entry.{Entry as Step};
ghost use Rattle.proof_log.specs.Boards.{Grows};
ghost use Rattle.proof_log.specs.Stored.{Stands};
ghost use Rattle.theory_cubes.specs.Searched.{Problem, IsEndOf, HasModel, AreTried, IsFound};

use crate::outcome::Outcome;
use cnf_base::Pos;
use cube_tree::{Tree, join};
use proof_log::Log;
use proof_log::diary::Diary;
use smt_terms::terms::Terms;
use smt_values::interp::Interp;
use std::alloc::{AllocError, Global};
use theory_search::End;

/// What the cubes so far came to.
#[derive(Drop)]
pub(crate) struct Tried {
    /// The positions of the clauses that close them, up to the first that is spent.
    pub(crate) closed: Vec<Pos>,
    /// The first that is spent.
    pub(crate) spent: Option<Diary>,
}

impl Tried {
    /// No cube was tried.
    pub(crate) fn new(alloc: Global) -> Tried
        ensures { (p : Problem) (log : List Step)
            → AreTried p log 0 result.closed.items result.spent }
    {
        Tried {
            closed: Vec::new(alloc),
            spent: None,
        }
    }

    // The next cube is closed.
    fn close(&mut self, at: Pos) -> Result<(), AllocError>
        ensures { OnOk result ((p : Problem) (log : List Step) (cube : ℕ)
            → AreTried p log cube self.old.closed.items self.old.spent →
            IsEndOf p log cube (End.Closed at)
            → AreTried p log (cube + 1) self.new.closed.items self.new.spent) }
    {
        if self.spent.is_some() {
            return Ok(());
        }
        self.closed.push(at)?;
        Ok(())
    }

    // The next cube is spent.
    fn spend(&mut self, diary: Diary)
        ensures { (p : Problem) (log : List Step) (cube : ℕ)
            → AreTried p log cube self.old.closed.items self.old.spent →
            IsEndOf p log cube (End.Spent diary)
            → AreTried p log (cube + 1) self.new.closed.items self.new.spent }
    {
        if self.spent.is_none() {
            self.spent = Some(diary);
        }
    }

    /// Adds what the search of the next cube came to; gives its model, where it found one.
    pub(crate) fn add(&mut self, end: End) -> Result<Option<Interp>, AllocError>
        requires { end ≡ End.Stopped → ⊥ }
        ensures { IfOk result (λ found. (p : Problem) (log : List Step) (cube : ℕ)
            → AreTried p log cube self.old.closed.items self.old.spent →
            IsEndOf p log cube end
            → MatchOption found
            (AreTried p log (cube + 1) self.new.closed.items self.new.spent)
            (λ m. HasModel p log (interpretation_of m))) }
    {
        match end {
            End::Closed(at) => {
                self.close(at)?;
                Ok(None)
            }
            End::Model(model) => Ok(Some(model)),
            End::Spent(diary) => {
                self.spend(diary);
                Ok(None)
            }
            End::Stopped => unreachable!(),
        }
    }

    /// What all cubes came to together, of which none gave a model. Where each is closed, the
    /// clauses are joined.
    pub(crate) fn conclude(
        self,
        alloc: Global,
        terms: &Terms,
        log: &mut Log,
        tree: &Tree,
    ) -> Result<Outcome, AllocError>
        requires listed { IsTermList terms.now.nodes }
        requires stands { Stands terms.now.nodes log.old }
        requires tried { (p : Problem) × (p.nodes ≡ terms.now.nodes) × (p.variables ≡ tree.now)
            × AreTried p log.old.entries (2 ^ length tree.now) self.closed.items self.spent }
        ensures stands { Stands terms.now.nodes log.new }
        ensures grows { Grows log.old.entries log.new.entries }
        ensures found { IfOk result (λ found. (p : Problem)
            → p.nodes ≡ terms.now.nodes → p.variables ≡ tree.now →
            AreTried p log.old.entries (2 ^ length tree.now) self.closed.items self.spent
            → IsFound p log.new.entries found) }
    {
        let Tried { closed, spent } = self;
        if let Some(diary) = spent {
            return Ok(Outcome::Unknown(diary));
        }
        let at = join(alloc, tree, terms, log, closed.as_slice())?;
        Ok(Outcome::Unsat(at))
    }
}
