//! Searches of small scripts.

ghost use Rattle.std.specs.Prelude.{ℕ, ◌≡◌, ◌<◌, suc, length, IfOk, OnOk};
ghost use Rattle.cnf_base.specs.Assignments.{AreBelow};
ghost use Rattle.smt_terms.specs.Terms.{IsTermList};
ghost use Rattle.proof_log.specs.Logs.{state_of};
ghost use Rattle.proof_log.specs.Stored.{Stands};
ghost use Rattle.cube_search.specs.Running.{IsSearch};
ghost use Rattle.theory_search.specs.Theories.{IsTheory};
ghost use Rattle.theory_client.specs.Posed.{AreAll, IsPosed};

use crate::posing::{Posed, logged, pose};
use crate::scripts::{Made, terms_of};
use cnf_base::{Lit, Pos};
use cube_search::Search;
use proof_log::Log;
use proof_log::board::{Board, LogBoard};
use proof_log::entry::Entry;
use proof_log::lemma_board::LemmaBoard;
use smt_eval::Values;
use smt_terms::node::TermId;
use smt_terms::terms::Terms;
use smt_values::interp::Interp;
use smt_values::value::Value;
use std::alloc::{AllocError, Global};
use theory_search::{End, Theory};
use walk_rows::fitting::are_suited;

/// How a search of a script ends.
#[derive(Clone, Copy, Debug, PartialEq, Eq)]
pub(crate) enum Outcome {
    Closed,
    /// With an interpretation that makes each assertion true.
    Model,
    Spent,
    /// Otherwise than it may.
    Wrong,
}

// How many lemmas stand on the board.
fn lemmas<B: Board>(board: &B) -> u64 {
    let mut count: u64 = 0;
    'steps: for at in 1..u64::MAX {
        match board.entry(at) {
            Some(Entry::Lemma(_)) => count = count.saturating_add(1),
            Some(_) => {}
            None => return count,
        }
    }
    count
}

/// Whether each of these terms is true.
pub(crate) fn are_true(
    alloc: Global,
    terms: &Terms,
    interp: &Interp,
    roots: &[TermId],
) -> Result<bool, AllocError> {
    if !are_suited(terms, interp) {
        return Ok(false);
    }
    let values = Values::of(alloc, terms, interp)?;
    let mut all = true;
    for root in roots {
        if *root >= terms.len() || !matches!(values.get(*root), Value::Bool(true)) {
            all = false;
        }
    }
    Ok(all)
}

fn outcome_of(
    alloc: Global,
    terms: &Terms,
    roots: &[TermId],
    end: End,
) -> Result<Outcome, AllocError> {
    match end {
        End::Closed(_) => Ok(Outcome::Closed),
        End::Spent(_) => Ok(Outcome::Spent),
        End::Stopped => Ok(Outcome::Wrong),
        End::Model(interp) => {
            if are_true(alloc, terms, &interp, roots)? {
                Ok(Outcome::Model)
            } else {
                Ok(Outcome::Wrong)
            }
        }
    }
}

// A search that holds these positions, which are all of the board.
fn begun<B: Board>(
    alloc: Global,
    board: &B,
    positions: &[Pos],
    from: u64,
) -> Result<Search, AllocError>
    requires listed { IsTermList (B.nodes board.now) }
    requires known { (p : ℕ) → p < from → B.knows board.now p }
    requires from { from ≡ suc (length (B.log board.now)) }
    requires all { AreAll (B.log board.now) positions.now }
    ensures search { IfOk result (λ s. IsSearch s (B.nodes board.now) (B.log board.now)) }
    ensures opening { IfOk result (λ s. s.opening.items ≡ positions.now) }
{
    let _stands = board.bits();
    let mut search = Search::new(alloc)?;
    search.retarget(board, positions, from)?;
    Ok(search)
}

// How a run ends, and how many lemmas stand on the board then.
fn run<B: LemmaBoard>(
    alloc: Global,
    board: &mut B,
    terms: &Terms,
    search: &mut Search,
    theory: &mut Theory,
    roots: &[TermId],
    given: &[Lit],
    budget: u64,
) -> Result<(Outcome, u64), AllocError>
    requires nodes { B.nodes board.old ≡ terms.now.nodes }
    requires search { IsSearch search.old (B.nodes board.old) (B.log board.old) }
    requires below { AreBelow (state_of (B.nodes board.old) (B.log board.old)).next given.now }
    requires theory { IsTheory (B.nodes board.old) (B.log board.old) search.old.opening.items
        theory.old }
    ensures nodes { OnOk result (B.nodes board.new ≡ terms.now.nodes) }
    ensures search { OnOk result (IsSearch search.new (B.nodes board.new) (B.log board.new)) }
    ensures below { OnOk result
        (AreBelow (state_of (B.nodes board.new) (B.log board.new)).next given.now) }
    ensures theory { OnOk result
        (IsTheory (B.nodes board.new) (B.log board.new) search.new.opening.items theory.new) }
{
    let _given = given;
    let end = theory.run(board, terms, search, 0, given, budget)?;
    let outcome = outcome_of(alloc, terms, roots, end)?;
    Ok((outcome, lemmas(&*board)))
}

// Runs twice. The second run is to put no lemma, and to end as the first did, unless that spent its budget.
fn run_twice<B: LemmaBoard>(
    alloc: Global,
    board: &mut B,
    terms: &Terms,
    search: &mut Search,
    theory: &mut Theory,
    roots: &[TermId],
    given: &[Lit],
    budget: u64,
) -> Result<(Outcome, u64), AllocError>
    requires nodes { B.nodes board.old ≡ terms.now.nodes }
    requires search { IsSearch search.old (B.nodes board.old) (B.log board.old) }
    requires below { AreBelow (state_of (B.nodes board.old) (B.log board.old)).next given.now }
    requires theory { IsTheory (B.nodes board.old) (B.log board.old) search.old.opening.items
        theory.old }
{
    let (first, count) = run(alloc, board, terms, search, theory, roots, given, budget)?;
    let (second, again) = run(alloc, board, terms, search, theory, roots, given, budget)?;
    if again != count || (second != first && first != Outcome::Spent) {
        return Ok((Outcome::Wrong, count));
    }
    Ok((first, count))
}

// The same of a search that begins over all positions of a board.
fn ends_on<B: LemmaBoard>(
    alloc: Global,
    board: &mut B,
    terms: &Terms,
    roots: &[TermId],
    posed: &Posed,
    from: u64,
    next: u64,
    budget: u64,
) -> Result<(Outcome, u64), AllocError>
    requires nodes { B.nodes board.old ≡ terms.now.nodes }
    requires listed { IsTermList (B.nodes board.old) }
    requires known { (p : ℕ) → p < from → B.knows board.old p }
    requires from { from ≡ suc (length (B.log board.old)) }
    requires posed { IsPosed (B.nodes board.old) (B.log board.old) roots.now
        posed.now.positions.items posed.now.given.items }
{
    let positions = posed.positions.as_slice();
    let mut search = begun(alloc, &*board, positions, from)?;
    let mut theory = Theory::new(alloc, &*board, terms, &search, roots, next)?;
    let given = posed.given.as_slice();
    run_twice(
        alloc,
        board,
        terms,
        &mut search,
        &mut theory,
        roots,
        given,
        budget,
    )
}

// The same over a log.
fn log_ends(
    alloc: Global,
    terms: &Terms,
    log: Log,
    roots: &[TermId],
    posed: &Posed,
    budget: u64,
) -> Result<(Outcome, u64), AllocError>
    requires stands { Stands terms.now.nodes log }
    requires posed { IsPosed terms.now.nodes log.entries roots.now posed.now.positions.items
        posed.now.given.items }
{
    let _terms = terms.len();
    let from = log.len();
    let next = log.next();
    let mut board = LogBoard::new(alloc, log, terms);
    ends_on(alloc, &mut board, terms, roots, posed, from, next, budget)
}

/// How the search of these terms ends under these assertions, and how many lemmas it puts. For want of memory there is no answer, nor
/// where a walk from the assertions may not be called for.
pub(crate) fn search(
    alloc: Global,
    table: &[Made],
    roots: &[TermId],
    budget: u64,
) -> Result<(Outcome, u64), AllocError> {
    let Some(terms) = terms_of(alloc, table) else {
        return Ok((Outcome::Wrong, 0));
    };
    let log = logged(alloc, &terms)?;
    let posed = pose(alloc, &terms, &log, roots)?;
    log_ends(alloc, &terms, log, roots, &posed, budget)
}
