//! A search that takes lemmas until the answer is known.

ghost use Rattle.std.specs.Prelude.{ℕ, ◌≡◌, List, Contains, IfOk, OnOk, MatchOption};
ghost use Rattle.cnf_base.specs.Assignments.{AreBelow};
ghost use Rattle.theory_terms.specs.declared.lemma.Lemma.{Lemma};
ghost use Rattle.proof_log.specs.declared.entry.Entry.{Entry};
ghost use Rattle.proof_log.specs.Logs.{state_of};
ghost use Rattle.proof_log.specs.LemmaBoards.{IsLaterByMore};
ghost use Rattle.cube_search.specs.Running.{given_in, subject_of, valuation_of, IsSearch, IsWriting, IsReadyToPut, HasLooked};
ghost use Rattle.cube_search.specs.Ends as ends;
ghost use Rattle.theory_search.specs.Theories.{IsReady, IsTheory, IsTheoryApart, GoesOn};
ghost use Rattle.theory_search.specs.Ends.{IsEnd};
ghost use Rattle.theory_search.specs.Looks.{Becomes};

use crate::ends::End;
use crate::looking::Looked;
use crate::putting::put_all;
use crate::theory::Theory;
use access_walk::walking::Conflicts;
use cnf_base::Lit;
use cube_search::Search;
use proof_log::lemma_board::LemmaBoard;
use smt_terms::terms::Terms;
use std::alloc::AllocError;

impl Theory {
    // Puts the lemmas that a model makes false, and their siblings; the search takes them. None of the false ones was held, since the
    // model makes all held clauses true: so no assignment comes twice.
    fn refute<B: LemmaBoard>(
        &mut self,
        board: &mut B,
        terms: &Terms,
        search: &mut Search,
        found: Conflicts,
    ) -> Result<(), AllocError>
        requires nodes { B.nodes board.old ≡ terms.now.nodes }
        requires search { IsSearch search.old (B.nodes board.old) (B.log board.old) }
        requires theory { IsTheory (B.nodes board.old) (B.log board.old) search.old.opening.items
            self.old }
        requires falses { (l : Lemma) → Contains found.falses.items l
            → IsReady (B.nodes board.old) (B.log board.old) l }
        requires siblings { (l : Lemma) → Contains found.siblings.items l
            → IsReady (B.nodes board.old) (B.log board.old) l }
        ensures same { self.new ≡ record self.old { clauses = self.new.clauses } }
        ensures later { IsLaterByMore (B.nodes board.old) (B.nodes board.new) (B.log board.old)
            (B.log board.new) (B.knows board.old) (B.knows board.new) }
        ensures given { OnOk result (given_in search.new ≡ given_in search.old) }
        ensures kept { OnOk result
            (GoesOn (B.nodes board.old) (B.nodes board.new) (B.log board.old) (B.log board.new)
            self.old self.new search.old search.new) }
        ensures writing { OnOk result
            (IsTheoryApart (B.nodes board.old) (B.log board.old) self.old search.old
            → IsWriting search.old (B.nodes board.old) (B.log board.old)
            → IsWriting search.new (B.nodes board.new) (B.log board.new)) }
    {
        let told = board.sync()?;
        let Conflicts { falses, siblings } = found;
        put_all(
            self.alloc,
            board,
            terms,
            &mut self.clauses,
            falses.as_slice(),
        )?;
        put_all(
            self.alloc,
            board,
            terms,
            &mut self.clauses,
            siblings.as_slice(),
        )?;
        self.take(board, search, told.upto)?;
        Ok(())
    }

    // What comes of an end of the search: nothing yet where it has found a model that lemmas make false, which it holds then.
    fn settle<B: LemmaBoard>(
        &mut self,
        board: &mut B,
        terms: &Terms,
        search: &mut Search,
        end: cube_search::End,
    ) -> Result<Option<End>, AllocError>
        requires nodes { B.nodes board.old ≡ terms.now.nodes }
        requires search { IsSearch search.old (B.nodes board.old) (B.log board.old) }
        requires theory { IsTheory (B.nodes board.old) (B.log board.old) search.old.opening.items
            self.old }
        requires model { ends.IsModelEnd end
            → ends.IsModel (state_of (B.nodes board.old) (B.log board.old)).clauses
            search.old.opening.items (given_in search.old) (valuation_of search.old) }
        ensures live { self.new.live ≡ self.old.live }
        ensures later { IsLaterByMore (B.nodes board.old) (B.nodes board.new) (B.log board.old)
            (B.log board.new) (B.knows board.old) (B.knows board.new) }
        ensures given { OnOk result (given_in search.new ≡ given_in search.old) }
        ensures kept { OnOk result
            (GoesOn (B.nodes board.old) (B.nodes board.new) (B.log board.old) (B.log board.new)
            self.old self.new search.old search.new) }
        ensures none { IfOk result
            (λ o. MatchOption o (ends.IsModelEnd end
            × (IsTheoryApart (B.nodes board.old) (B.log board.old) self.old search.old
            → IsWriting search.old (B.nodes board.old) (B.log board.old)
            → IsWriting search.new (B.nodes board.new) (B.log board.new))) (λ e. Unit {0})) }
        ensures still { IfOk result
            (λ o. MatchOption o (Unit {0}) (λ e. (board.new ≡ board.old)
            × (search.new ≡ search.old))) }
        ensures end { IfOk result
            (λ o. MatchOption o (Unit {0})
            (Becomes (subject_of search.old (B.nodes board.old) (B.log board.old))
            self.old.live.items search.old.opening.items (valuation_of search.old) end)) }
    {
        match end {
            cube_search::End::Closed(at) => Ok(Some(End::Closed(at))),
            cube_search::End::Spent(diary) => Ok(Some(End::Spent(diary))),
            cube_search::End::Stopped => Ok(Some(End::Stopped)),
            cube_search::End::Model => match self.look(&*board, terms, &*search)? {
                Looked::Model(model) => Ok(Some(End::Model(model))),
                Looked::Lemmas(found) => {
                    self.refute(board, terms, search, found)?;
                    Ok(None)
                }
            },
        }
    }

    // The first part of a run.
    fn begin<B: LemmaBoard>(
        &mut self,
        board: &mut B,
        terms: &Terms,
        search: &mut Search,
        cube: u32,
        given: &[Lit],
        budget: u64,
    ) -> Result<Option<End>, AllocError>
        requires nodes { B.nodes board.old ≡ terms.now.nodes }
        requires search { IsSearch search.old (B.nodes board.old) (B.log board.old) }
        requires below { AreBelow (state_of (B.nodes board.old) (B.log board.old)).next given.now }
        requires theory { IsTheory (B.nodes board.old) (B.log board.old) search.old.opening.items
            self.old }
        ensures live { self.new.live ≡ self.old.live }
        ensures later { IsLaterByMore (B.nodes board.old) (B.nodes board.new) (B.log board.old)
            (B.log board.new) (B.knows board.old) (B.knows board.new) }
        ensures given { OnOk result (given_in search.new ≡ given.now) }
        ensures kept { OnOk result
            (GoesOn (B.nodes board.old) (B.nodes board.new) (B.log board.old) (B.log board.new)
            self.old self.new search.old search.new) }
        ensures writing { IfOk result
            (λ o. MatchOption o
            (IsTheoryApart (B.nodes board.old) (B.log board.old) self.old search.old
            → IsWriting search.new (B.nodes board.new) (B.log board.new)) (λ e. Unit {0})) }
        ensures looked { IfOk result
            (λ o. MatchOption o (Unit {0}) (λ e.
            HasLooked search.new (B.log board.old) (B.told board.new))) }
        ensures end { IfOk result
            (λ o. MatchOption o (Unit {0})
            (IsEnd (IsTheoryApart (B.nodes board.old) (B.log board.old) self.old search.old)
            (subject_of search.new (B.nodes board.new) (B.log board.new)) (B.knows board.new)
            (B.found board.new) (B.told board.new) self.old.live.items search.new.opening.items
            (valuation_of search.new) cube budget)) }
    {
        let end = search.run(board, cube, given, budget)?;
        let ended = self.settle(board, terms, search, end)?;
        Ok(ended)
    }

    // A further part of a run, behind lemmas that were taken.
    fn go_on<B: LemmaBoard>(
        &mut self,
        board: &mut B,
        terms: &Terms,
        search: &mut Search,
        cube: u32,
        given: &[Lit],
        budget: u64,
    ) -> Result<Option<End>, AllocError>
        requires nodes { B.nodes board.old ≡ terms.now.nodes }
        requires search { IsSearch search.old (B.nodes board.old) (B.log board.old) }
        requires below { AreBelow (state_of (B.nodes board.old) (B.log board.old)).next given.now }
        requires same { given_in search.old ≡ given.now }
        requires theory { IsTheory (B.nodes board.old) (B.log board.old) search.old.opening.items
            self.old }
        ensures live { self.new.live ≡ self.old.live }
        ensures later { IsLaterByMore (B.nodes board.old) (B.nodes board.new) (B.log board.old)
            (B.log board.new) (B.knows board.old) (B.knows board.new) }
        ensures given { OnOk result (given_in search.new ≡ given.now) }
        ensures kept { OnOk result
            (GoesOn (B.nodes board.old) (B.nodes board.new) (B.log board.old) (B.log board.new)
            self.old self.new search.old search.new) }
        ensures writing { IfOk result
            (λ o. MatchOption o
            (IsTheoryApart (B.nodes board.old) (B.log board.old) self.old search.old
            → IsWriting search.old (B.nodes board.old) (B.log board.old)
            → IsWriting search.new (B.nodes board.new) (B.log board.new)) (λ e. Unit {0})) }
        ensures looked { IfOk result
            (λ o. MatchOption o (Unit {0}) (λ e.
            HasLooked search.new (B.log board.old) (B.told board.new))) }
        ensures end { IfOk result
            (λ o. MatchOption o (Unit {0})
            (IsEnd (IsReadyToPut search.old (B.nodes board.old) (B.log board.old))
            (subject_of search.new (B.nodes board.new) (B.log board.new)) (B.knows board.new)
            (B.found board.new) (B.told board.new) self.old.live.items search.new.opening.items
            (valuation_of search.new) cube budget)) }
    {
        let end = search.resume(board, cube, given, budget)?;
        let ended = self.settle(board, terms, search, end)?;
        Ok(ended)
    }

    /// Searches under the given literals, as `Search::run` does, and takes the lemmas that a model makes false, until the answer is
    /// known or one more clause was put than the budget allows. Equalities and lemmas count as no put.
    pub fn run<B: LemmaBoard>(
        &mut self,
        board: &mut B,
        terms: &Terms,
        search: &mut Search,
        cube: u32,
        given: &[Lit],
        budget: u64,
    ) -> Result<End, AllocError>
        requires nodes { B.nodes board.old ≡ terms.now.nodes }
        requires search { IsSearch search.old (B.nodes board.old) (B.log board.old) }
        requires below { AreBelow (state_of (B.nodes board.old) (B.log board.old)).next given.now }
        requires theory { IsTheory (B.nodes board.old) (B.log board.old) search.old.opening.items
            self.old }
        ensures live { self.new.live ≡ self.old.live }
        ensures later { IsLaterByMore (B.nodes board.old) (B.nodes board.new) (B.log board.old)
            (B.log board.new) (B.knows board.old) (B.knows board.new) }
        ensures given { OnOk result (given_in search.new ≡ given.now) }
        ensures kept { OnOk result
            (GoesOn (B.nodes board.old) (B.nodes board.new) (B.log board.old) (B.log board.new)
            self.old self.new search.old search.new) }
        ensures looked { OnOk result (HasLooked search.new (B.log board.old) (B.told board.new)) }
        ensures end { IfOk result
            (IsEnd (IsTheoryApart (B.nodes board.old) (B.log board.old) self.old search.old)
            (record {
              nodes = B.nodes board.new;
              log = B.log board.new;
              given = given.now;
              from = search.old.from;
            })
            (B.knows board.new) (B.found board.new) (B.told board.new) self.old.live.items
            search.new.opening.items (valuation_of search.new) cube budget) }
    {
        let begun = self.begin(board, terms, search, cube, given, budget)?;
        if let Some(end) = begun {
            return Ok(end);
        }
        'rounds: for _ in 0..u64::MAX {
            if let Some(end) = self.go_on(board, terms, search, cube, given, budget)? {
                return Ok(end);
            }
        }
        Err(AllocError)
    }
}
