//! The search of a check's cubes by one worker, one after the other (M. Heule, O. Kullmann, S.
//! Wieringa and A. Biere, "Cube and Conquer: Guiding CDCL SAT Solvers by Lookaheads", 2011).

ghost use Rattle.std.specs.Prelude.{◌≡◌, ◌<◌, ◌^◌, List, suc, IfOk, IfErr, OnOk, MatchOption, length};
ghost use Rattle.smt_terms.specs.Terms.{IsTermList};
ghost use Rattle.smt_values.specs.Held.{interpretation_of};
ghost use Rattle.proof_log.specs.declared.entry.Entry.{Entry as Step};
ghost use Rattle.proof_log.specs.LemmaBoards.{Adds};
ghost use Rattle.proof_log.specs.Logs.{state_of};
ghost use Rattle.proof_log.specs.Stored.{Stands};
ghost use Rattle.cube_search.specs.Running.{IsResting};
ghost use Rattle.theory_search.specs.Theories.{IsWalkableLog, AreEnough};
ghost use Rattle.theory_cubes.specs.Searched.{Problem, IsProblem, IsSearching, IsEndOf, HasModel, AreTried, AreApart, IsFound, RestsBeside, StartsAt, problem, problem_over};

use crate::check::TheoryCheck;
use crate::outcome::Outcome;
use crate::tried::Tried;
use cnf_base::Pos;
use cube_search::Search;
use proof_log::Log;
use proof_log::board::{Board, LogBoard};
use proof_log::diary::Diary;
use smt_terms::terms::Terms;
use smt_values::interp::Interp;
use std::alloc::{AllocError, Global};
use theory_search::{End, Theory};

// The diary of a spent cube begins where the searches of the check began: what an earlier cube left
// has lines of its own.
fn started_at(end: End, from: Pos) -> End
    ensures { StartsAt from end result }
{
    match end {
        End::Spent(diary) => {
            let Diary { cube, lines, .. } = diary;
            End::Spent(Diary {
                cube,
                start: from,
                lines,
            })
        }
        other => other,
    }
}

// Goes over to a check, and makes ready once what all its walks need.
fn begun(
    alloc: Global,
    terms: &Terms,
    board: &LogBoard<'_>,
    search: &mut Search,
    check: &TheoryCheck<'_>,
    from: Pos,
    next: u64,
) -> Result<Theory, AllocError>
    requires nodes { board.now.terms.nodes ≡ terms.now.nodes }
    requires from { from ≡ suc (length board.now.log.entries) }
    requires next { next ≡ (state_of board.now.terms.nodes board.now.log.entries).next }
    requires resting { IsResting search.old
        (state_of board.now.terms.nodes board.now.log.entries).clauses board.now.log.entries }
    requires problem { IsProblem (problem board.now.terms.nodes from check.now)
        board.now.log.entries }
    requires walkable { IsWalkableLog board.now.terms.nodes board.now.log.entries
        check.now.live.now }
    requires enough { AreEnough board.now.terms.nodes board.now.log.entries check.now.live.now
        check.now.positions.now }
    requires apart { AreApart board.now.terms.nodes board.now.log.entries check.now.live.now
        check.now.positions.now }
    ensures searching { IfOk result
        (λ t. IsSearching (problem board.now.terms.nodes from check.now) search.new t board.now) }
{
    let _count = terms.len();
    let _stands = board.bits();
    search.retarget(board, check.positions, from)?;
    let theory = Theory::new(alloc, board, terms, search, check.live, next)?;
    Ok(theory)
}

// Searches a cube: under its literals and those that are assumed.
fn search_cube(
    alloc: Global,
    terms: &Terms,
    board: &mut LogBoard<'_>,
    search: &mut Search,
    theory: &mut Theory,
    check: &TheoryCheck<'_>,
    from: Pos,
    cube: u32,
) -> Result<End, AllocError>
    requires nodes { board.old.terms.nodes ≡ terms.now.nodes }
    requires cube { cube < 2 ^ length check.now.tree.now }
    requires searching { IsSearching (problem board.old.terms.nodes from check.now) search.old
        theory.old board.old }
    ensures nodes { board.new.terms.nodes ≡ board.old.terms.nodes }
    ensures adds { Adds board.old.log.entries board.new.log.entries }
    ensures searching { OnOk result
        (IsSearching (problem board.new.terms.nodes from check.now) search.new theory.new
        board.new) }
    ensures end { IfOk result
        (IsEndOf (problem board.new.terms.nodes from check.now) board.new.log.entries cube) }
{
    let mut given = Vec::from_slice(alloc, check.tree.cube(cube))?;
    given.extend_from_slice(check.assumed)?;
    let end = theory.run(board, terms, search, cube, given.as_slice(), check.budget)?;
    Ok(started_at(end, from))
}

// Searches the cubes in the order of their numbers, also behind one that is spent, until one gives
// a model, which it answers.
fn search_cubes(
    alloc: Global,
    terms: &Terms,
    board: &mut LogBoard<'_>,
    search: &mut Search,
    theory: &mut Theory,
    check: &TheoryCheck<'_>,
    from: Pos,
    tried: &mut Tried,
) -> Result<Option<Interp>, AllocError>
    requires nodes { board.old.terms.nodes ≡ terms.now.nodes }
    requires searching { IsSearching (problem board.old.terms.nodes from check.now) search.old
        theory.old board.old }
    requires tried { (p : Problem) (log : List Step)
        → AreTried p log 0 tried.old.closed.items tried.old.spent }
    ensures nodes { board.new.terms.nodes ≡ board.old.terms.nodes }
    ensures adds { Adds board.old.log.entries board.new.log.entries }
    ensures searching { OnOk result
        (IsSearching (problem board.new.terms.nodes from check.now) search.new theory.new
        board.new) }
    ensures tried { IfOk result (λ found. MatchOption found
        (AreTried (problem board.new.terms.nodes from check.now) board.new.log.entries
        (2 ^ length check.now.tree.now) tried.new.closed.items tried.new.spent)
        (λ m. HasModel (problem board.new.terms.nodes from check.now) board.new.log.entries
        (interpretation_of m))) }
{
    'cubes: for cube in 0..check.tree.leaves() {
        let end = search_cube(alloc, terms, board, search, theory, check, from, cube)?;
        let found = tried.add(end)?;
        if let Some(model) = found {
            return Ok(Some(model));
        }
    }
    Ok(None)
}

/// Searches the cubes of a check over the log, one after the other, with the search that the last
/// check left: finds a model, a clause of opposites of assumed literals, or that the budget was
/// spent. The log gains chains, equalities and lemmas. For want of memory, which is the one error,
/// the log comes back, and the search is to be made anew.
pub fn solve(
    alloc: Global,
    terms: &Terms,
    log: Log,
    search: &mut Search,
    check: &TheoryCheck<'_>,
) -> Result<(Log, Outcome), Log>
    requires listed { IsTermList terms.now.nodes }
    requires stands { Stands terms.now.nodes log }
    requires resting { RestsBeside log search.old }
    requires problem { IsProblem (problem_over terms.now.nodes log.entries check.now) log.entries }
    requires walkable { IsWalkableLog terms.now.nodes log.entries check.now.live.now }
    requires enough { AreEnough terms.now.nodes log.entries check.now.live.now
        check.now.positions.now }
    requires apart { AreApart terms.now.nodes log.entries check.now.live.now
        check.now.positions.now }
    ensures stands { IfOk result (λ r. Stands terms.now.nodes r.0) }
    ensures adds { IfOk result (λ r. Adds log.entries r.0.entries) }
    ensures resting { IfOk result (λ r. RestsBeside r.0 search.new) }
    ensures found { IfOk result
        (λ r. IsFound (problem_over terms.now.nodes log.entries check.now) r.0.entries r.1) }
    ensures lost { IfErr result (λ lost. Stands terms.now.nodes lost
        × Adds log.entries lost.entries) }
{
    let from = log.len();
    let next = log.next();
    let mut board = LogBoard::new(alloc, log, terms);
    let Ok(mut theory) = begun(alloc, terms, &board, search, check, from, next) else {
        return Err(board.into_log());
    };
    let mut tried = Tried::new(alloc);
    let searched = search_cubes(
        alloc,
        terms,
        &mut board,
        search,
        &mut theory,
        check,
        from,
        &mut tried,
    );
    drop(theory);
    let mut log = board.into_log();
    let Ok(found) = searched else {
        drop(tried);
        return Err(log);
    };
    if let Some(model) = found {
        drop(tried);
        return Ok((log, Outcome::Sat(model)));
    }
    let Ok(found) = tried.conclude(alloc, terms, &mut log, check.tree) else {
        return Err(log);
    };
    Ok((log, found))
}
