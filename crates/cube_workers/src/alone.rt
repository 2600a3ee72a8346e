//! The search of a check's cubes by one worker, one after the other (M. Heule, O. Kullmann, S. Wieringa and A. Biere, "Cube and
//! Conquer: Guiding CDCL SAT Solvers by Lookaheads", 2011).

ghost use Rattle.std.specs.Prelude.{◌≡◌, ◌<◌, ◌^◌, List, IfOk, IfErr, OnOk, MatchBool, length};
ghost use Rattle.smt_terms.specs.Terms.{IsTermList};
ghost use Rattle.proof_log.specs.declared.entry.Entry.{Entry as Step};
ghost use Rattle.proof_log.specs.Boards.{Grows};
ghost use Rattle.proof_log.specs.Stored.{Stands};
ghost use Rattle.cube_search.specs.Running.{valuation_of};
ghost use Rattle.cube_workers.specs.Searched.{Problem, IsProblem, IsSearching, IsEndOf, IsModelOf, AreTried, IsFound, RestsBeside, problem_of, problem};

use crate::check::Check;
use crate::kept::KeptSearch;
use crate::outcome::Outcome;
use crate::tried::Tried;
use cnf_base::Lit;
use cube_search::{End, Search};
use cube_tree::Tree;
use proof_log::Log;
use proof_log::board::LogBoard;
use smt_terms::terms::Terms;
use std::alloc::{AllocError, Global};

/// Searches a cube: under its literals and those that are assumed.
fn search_cube(
    alloc: Global,
    search: &mut Search,
    board: &mut LogBoard<'_>,
    tree: &Tree,
    assumed: &[Lit],
    cube: u32,
    budget: u64,
) -> Result<End, AllocError>
    requires cube { cube < 2 ^ length tree.now }
    requires searching { IsSearching search.old board.old tree.now assumed.now budget }
    ensures same { problem_of search.new board.new tree.now assumed.now budget
        ≡ problem_of search.old board.old tree.now assumed.now budget }
    ensures grows { Grows board.old.log.entries board.new.log.entries }
    ensures searching { OnOk result (IsSearching search.new board.new tree.now assumed.now budget) }
    ensures end { IfOk result
        (IsEndOf (problem_of search.new board.new tree.now assumed.now budget) board.new.log.entries
        (valuation_of search.new) cube) }
{
    let mut given = Vec::from_slice(alloc, tree.cube(cube))?;
    given.extend_from_slice(assumed)?;
    search.run(board, cube, given.as_slice(), budget)
}

/// Searches the cubes in the order of their numbers, also behind one that is spent, until one gives a model; says whether one did.
fn search_cubes(
    alloc: Global,
    search: &mut Search,
    board: &mut LogBoard<'_>,
    tree: &Tree,
    assumed: &[Lit],
    budget: u64,
    tried: &mut Tried,
) -> Result<bool, AllocError>
    requires searching { IsSearching search.old board.old tree.now assumed.now budget }
    requires tried { (p : Problem) (log : List Step)
        → AreTried p log 0 tried.old.closed.items tried.old.spent }
    ensures same { problem_of search.new board.new tree.now assumed.now budget
        ≡ problem_of search.old board.old tree.now assumed.now budget }
    ensures grows { Grows board.old.log.entries board.new.log.entries }
    ensures searching { OnOk result (IsSearching search.new board.new tree.now assumed.now budget) }
    ensures tried { IfOk result (λ found. MatchBool found
        (IsModelOf (problem_of search.new board.new tree.now assumed.now budget)
        board.new.log.entries (valuation_of search.new))
        (AreTried (problem_of search.new board.new tree.now assumed.now budget)
        board.new.log.entries (2 ^ length tree.now) tried.new.closed.items tried.new.spent)) }
{
    'cubes: for cube in 0..tree.leaves() {
        let end = search_cube(alloc, search, board, tree, assumed, cube, budget)?;
        let found = tried.add(end)?;
        if found {
            return Ok(true);
        }
    }
    Ok(false)
}

/// Searches the cubes of a check over the log, one after the other, with the search that the last check left: finds a model, a
/// clause of opposites of assumed literals, or that the budget was spent. The log gains chains alone, and comes back for want of
/// memory too, which is the one error.
pub(crate) fn search_alone(
    alloc: Global,
    log: Log,
    terms: &Terms,
    kept: &mut KeptSearch,
    check: &Check<'_>,
) -> Result<(Log, Outcome), Log>
    requires listed { IsTermList terms.now.nodes }
    requires stands { Stands terms.now.nodes log }
    requires resting { RestsBeside log kept.old.search }
    requires problem { IsProblem
        (problem terms.now.nodes log.entries check.now.positions.now check.now.tree.now
        check.now.assumed.now check.now.settings.budget) log.entries }
    ensures stands { IfOk result (λ r. Stands terms.now.nodes r.0) }
    ensures grows { IfOk result (λ r. Grows log.entries r.0.entries) }
    ensures resting { IfOk result (λ r. RestsBeside r.0 kept.new.search) }
    ensures found { IfOk result
        (λ r. IsFound
        (problem terms.now.nodes log.entries check.now.positions.now check.now.tree.now
        check.now.assumed.now check.now.settings.budget) r.0.entries (valuation_of kept.new.search)
        r.1) }
    ensures lost { IfErr result (λ lost. Stands terms.now.nodes lost
        × Grows log.entries lost.entries) }
{
    let from = log.len();
    let mut board = LogBoard::new(alloc, log, terms);
    let Ok(()) = kept.go_over(alloc, &board, check.positions, from) else {
        return Err(board.into_log());
    };
    let mut tried = Tried::new(alloc);
    let Ok(found) = search_cubes(
        alloc,
        &mut kept.search,
        &mut board,
        check.tree,
        check.assumed,
        check.settings.budget,
        &mut tried,
    ) else {
        drop(tried);
        return Err(board.into_log());
    };
    let mut log = board.into_log();
    if found {
        drop(tried);
        return Ok((log, Outcome::Sat));
    }
    let Ok(found) = tried.conclude(alloc, terms, &mut log, check.tree) else {
        return Err(log);
    };
    Ok((log, found))
}
