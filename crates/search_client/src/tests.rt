//! Worked searches for the assertions.

ghost use Rattle.std.specs.Prelude.{◌≤◌, suc, length, IfSome};
ghost use Rattle.cnf_base.specs.Assignments.{AreBelow};
ghost use Rattle.proof_log.specs.Stored.{Stands};
ghost use Rattle.search_client.specs.Putting.{MayBePut};

use crate::assertions::{Proof, asserted, told_chain};
use crate::runs::{CUBE, Ended, comes_back_on, ends_on, ends_twice_on, two_close_on};
use cnf_base::{Clause, ClauseId, Lit, Pos};
use proof_log::board::{Board, LogBoard, Sync};
use proof_log::entry::Entry;
use smt_terms::bits::Bits;
use std::alloc::{AllocError, Global};
use std::marker::Model;
use std::test::Fail;

// A board whose first `sync` puts a chain.
#[derive(Drop)]
struct FirstPut<'a> {
    board: LogBoard<'a>,
    chain: Option<Entry>,
}

impl<'a> Model for FirstPut<'a> {
    ghost use Rattle.std.specs.Prelude.{IfSome};
    ghost use Rattle.proof_log.specs.Boards.{LogBoardValue};
    ghost use Rattle.search_client.specs.Putting.{MayBePut};

    ghost Value = { LogBoardValue };

    ghost view = { λ b. b.board };

    ghost invariant = { λ b. IfSome b.chain (MayBePut b.board.terms.nodes b.board.log.entries) };
}

impl<'a> Board for FirstPut<'a> {
    ghost use Rattle.std.specs.Prelude.{◌<◌, suc, length, false};

    ghost nodes = { λ b. b.terms.nodes };

    ghost log = { λ b. b.log.entries };

    ghost knows = { λ b p. p < suc (length b.log.entries) };

    ghost found = { λ b. false };

    ghost told = { λ b. b.told };

    fn put(&mut self, entry: Entry) -> Result<Pos, AllocError> {
        self.board.put(entry)
    }

    fn sync(&mut self) -> Result<Sync, AllocError> {
        if let Some(chain) = self.chain.take() {
            self.board.put(chain)?;
        }
        self.board.sync()
    }

    fn clause(&self, id: ClauseId) -> Option<&Clause> {
        self.board.clause(id)
    }

    fn entry(&self, at: Pos) -> Option<&Entry> {
        self.board.entry(at)
    }

    fn bits(&self) -> &Bits {
        self.board.bits()
    }
}

// Whether a search over the whole log ends so, where the first `sync` of its board puts this chain.
fn log_ends(
    alloc: Global,
    proof: Proof,
    chain: Option<Entry>,
    given: &[Lit],
    budget: u64,
    wanted: Ended,
) -> Result<bool, AllocError>
    requires stands { Stands proof.terms.nodes proof.log }
    requires chain { IfSome chain (MayBePut proof.terms.nodes proof.log.entries) }
    requires given { AreBelow proof.log.next given.now }
{
    let _terms = proof.terms.len();
    let from = proof.log.len();
    let board = LogBoard::new(alloc, proof.log, &proof.terms);
    let mut board = FirstPut { board, chain };
    let is_so = ends_on(alloc, &mut board, from, given, budget, wanted);
    drop(board);
    drop(proof.terms);
    is_so
}

// Whether two runs of a search end so that holds the positions below the bound.
fn log_ends_twice(
    alloc: Global,
    proof: Proof,
    bound: u64,
    given: &[Lit],
    first: Ended,
    second: Ended,
) -> Result<bool, AllocError>
    requires stands { Stands proof.terms.nodes proof.log }
    requires given { AreBelow proof.log.next given.now }
    requires within { bound ≤ suc (length proof.log.entries) }
{
    let _terms = proof.terms.len();
    let from = proof.log.len();
    let mut board = LogBoard::new(alloc, proof.log, &proof.terms);
    let ended = ends_twice_on(alloc, &mut board, bound, from, given, first, second);
    drop(board);
    drop(proof.terms);
    ended
}

// Whether two searches over the whole log end closed, the second without a put behind the first.
fn log_closes_twice(alloc: Global, proof: Proof, given: &[Lit]) -> Result<bool, AllocError>
    requires stands { Stands proof.terms.nodes proof.log }
    requires given { AreBelow proof.log.next given.now }
{
    let _terms = proof.terms.len();
    let from = proof.log.len();
    let mut board = LogBoard::new(alloc, proof.log, &proof.terms);
    let are_closed = two_close_on(alloc, &mut board, from, given);
    drop(board);
    drop(proof.terms);
    are_closed
}

// The model of the clause of position 0 under the selectors.
const GIVEN: Ended = Ended::ModelOf(&[1, 5, 7, 9, 11]);

// Whether a search over the whole log ends closed within one put, and without any after it went over to the positions below the bound,
// where it had this model, and came back.
fn log_comes_back(
    alloc: Global,
    proof: Proof,
    bound: u64,
    given: &[Lit],
    model: Ended,
) -> Result<bool, AllocError>
    requires stands { Stands proof.terms.nodes proof.log }
    requires given { AreBelow proof.log.next given.now }
{
    let _terms = proof.terms.len();
    let from = proof.log.len();
    let bound = if bound < from { bound } else { from };
    let mut board = LogBoard::new(alloc, proof.log, &proof.terms);
    let is_so = comes_back_on(alloc, &mut board, bound, from, given, model);
    drop(board);
    drop(proof.terms);
    is_so
}

// Whether a search for the first assertions, so many of them, ends so, where the first `sync` of its board tells that chain or
// nothing.
fn ends(
    alloc: Global,
    assertions: u32,
    tells: bool,
    budget: u64,
    wanted: Ended,
) -> Result<bool, AllocError>
    requires { assertions ≤ 4 }
{
    let (proof, given) = asserted(alloc, assertions)?;
    match told_chain(alloc, &proof, tells) {
        Ok(chain) => log_ends(alloc, proof, chain, given.as_slice(), budget, wanted),
        Err(error) => {
            drop(proof);
            Err(error)
        }
    }
}

#[test]
fn four_clauses_need_one_put(rt: HostRuntime) -> Result<(), Fail> {
    let alloc = rt.alloc();
    assert!(rt; ends(alloc, 4, false, 0, Ended::Spent(CUBE, 1))?);
    assert!(rt; ends(alloc, 4, false, 1, Ended::Closed)?);
    Ok(())
}

#[test]
fn a_clause_that_the_first_sync_tells_saves_the_put(rt: HostRuntime) -> Result<(), Fail> {
    assert!(rt; ends(rt.alloc(), 4, true, 0, Ended::ClosedAt(14))?);
    Ok(())
}

#[test]
fn a_clause_of_another_search_saves_the_put(rt: HostRuntime) -> Result<(), Fail> {
    let (proof, given) = asserted(rt.alloc(), 4)?;
    assert!(rt; log_closes_twice(rt.alloc(), proof, given.as_slice())?);
    Ok(())
}

#[test]
fn three_clauses_have_a_model(rt: HostRuntime) -> Result<(), Fail> {
    assert!(rt; ends(rt.alloc(), 3, false, 1, Ended::Model)?);
    Ok(())
}

#[test]
fn a_second_run_has_what_the_first_learnt(rt: HostRuntime) -> Result<(), Fail> {
    let alloc = rt.alloc();
    let (proof, given) = asserted(alloc, 4)?;
    let bound = proof.log.len();
    let given = given.as_slice();
    assert!(rt; log_ends_twice(alloc, proof, bound, given, Ended::Closed, Ended::Closed)?);
    Ok(())
}

#[test]
fn given_literals_without_a_clause_are_true(rt: HostRuntime) -> Result<(), Fail> {
    let (proof, given) = asserted(rt.alloc(), 4)?;
    let given = given.as_slice();
    assert!(rt; log_ends_twice(rt.alloc(), proof, 1, given, Ended::Model, GIVEN)?);
    Ok(())
}

#[test]
fn what_was_learnt_is_held_again_where_its_variables_come_back(
    rt: HostRuntime,
) -> Result<(), Fail> {
    let (proof, given) = asserted(rt.alloc(), 4)?;
    assert!(rt; log_comes_back(rt.alloc(), proof, 1, given.as_slice(), GIVEN)?);
    Ok(())
}

#[test]
fn the_steps_of_the_first_assertions_stay_where_the_others_go(rt: HostRuntime) -> Result<(), Fail> {
    // Positions 5 to 10 are of the first three assertions, which p and q alone make true.
    let (proof, given) = asserted(rt.alloc(), 4)?;
    let model = Ended::ModelOf(&[1, 2, 3, 5, 7, 9, 11]);
    assert!(rt; log_comes_back(rt.alloc(), proof, 11, given.as_slice(), model)?);
    Ok(())
}
