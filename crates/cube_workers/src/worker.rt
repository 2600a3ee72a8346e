//! A worker: it claims cubes and searches them, one after the other.

ghost use Rattle.std.specs.Prelude.{◌≡◌, ◌<◌, ◌≤◌, ◌⊎◌, ◌^◌, ◌++◌, ℕ, length, IfOk, OnOk, MatchOption, None};
ghost use Rattle.cube_tree.specs.Cubes.{cube_of};
ghost use Rattle.cube_search.specs.declared.ends.End.TheVariants as ending;
ghost use Rattle.cube_search.specs.Running.{valuation_of};
ghost use Rattle.cube_search.specs.declared.search.Search.{Search as Kept};
ghost use Rattle.hub_core.specs.Hubs.{IsClosedAt};
ghost use Rattle.hub_board.specs.Boards.{view_in, told, footing_of, IsMoved};
ghost use Rattle.hub_board.specs.Cubes.{IsIdle, IsBusy, IsOn};
ghost use Rattle.cube_workers.specs.Searched.{Problem, IsProblem};
ghost use Rattle.cube_workers.specs.Workers.{problem_in, IsOpenFor, IsAbout, IsCubeEnd, IsQuiet, IsSpentBy, IsReached, RestsAfter};

use crate::check::Check;
use crate::gate::{Gate, Point};
use crate::moving::{Moving, Origin};
use cnf_base::Lit;
use cube_search::{End, Search};
use hub_board::HubBoard;
use proof_log::diary::Diary;
use std::alloc::{AllocError, Global};
use std::marker::Brand;
use std::sync::Wait;

/// How a worker ended.
#[derive(Clone, Copy, Debug, PartialEq, Eq)]
pub enum Reached {
    /// No cube was left, and it has none open.
    Done,
    /// Another worker has found a model.
    Stopped,
    /// It found a model: the values that its search has.
    Model,
    /// There was no memory.
    NoMemory,
}

// The literals under which a cube is searched.
fn given(alloc: Global, check: &Check<'_>, cube: u32) -> Result<Vec<Lit>, AllocError>
    requires { cube < 2 ^ length check.now.tree.now }
    ensures { IfOk result
        (λ g. g.items ≡ cube_of check.now.tree.now cube ++ check.now.assumed.now) }
{
    let mut given = Vec::from_slice(alloc, check.tree.cube(cube))?;
    given.extend_from_slice(check.assumed)?;
    Ok(given)
}

// Searches a cube on a board that is lent meanwhile.
fn search_lent<'h, 'a, K: Origin, R: Wait>(
    board: HubBoard<'h, 'a, R>,
    search: &mut Search,
    check: &Check<'_>,
    given: &[Lit],
    cube: u32,
) -> (HubBoard<'h, 'a, R>, Result<End, AllocError>)
    requires from { footing_of board ≡ K.from }
    requires open { IsOpenFor board.hist.law check.now }
    requires about { IsAbout search.old board (problem_in board.hist.law check.now) }
    requires given { given.now ≡ cube_of check.now.tree.now cube ++ check.now.assumed.now }
    requires cube { cube < 2 ^ length check.now.tree.now }
    ensures moved { IsMoved (footing_of board.entry) result.0 }
    ensures about { OnOk result.1
        (IsAbout search.new result.0 (problem_in board.entry.hist.law check.now)) }
    ensures end { IfOk result.1
        (IsCubeEnd (problem_in board.entry.hist.law check.now) result.0 (valuation_of search.new)
        cube) }
{
    board.facts();
    let mut lent = Moving::<'h, 'a, K, R>::new(board);
    let end = search.run(&mut lent, cube, given, check.settings.budget);
    let board = lent.into_board();
    board.facts();
    (board, end)
}

// Searches a cube.
fn search_cube<'h, 'a, R: Wait>(
    board: HubBoard<'h, 'a, R>,
    search: &mut Search,
    check: &Check<'_>,
    given: &[Lit],
    cube: u32,
) -> (HubBoard<'h, 'a, R>, Result<End, AllocError>)
    requires open { IsOpenFor board.hist.law check.now }
    requires about { IsAbout search.old board (problem_in board.hist.law check.now) }
    requires given { given.now ≡ cube_of check.now.tree.now cube ++ check.now.assumed.now }
    requires cube { cube < 2 ^ length check.now.tree.now }
    ensures moved { IsMoved (footing_of board.entry) result.0 }
    ensures about { OnOk result.1
        (IsAbout search.new result.0 (problem_in board.entry.hist.law check.now)) }
    ensures end { IfOk result.1
        (IsCubeEnd (problem_in board.entry.hist.law check.now) result.0 (valuation_of search.new)
        cube) }
{
    search_lent::<Brand, R>(board, search, check, given, cube)
}

/// The lower of two spent cubes.
pub(crate) fn lower(spent: Option<Diary>, diary: Diary) -> Diary
    ensures { MatchOption spent (result ≡ diary)
        (λ d. ((result ≡ d) × (d.cube ≤ diary.cube)) ⊎ ((result ≡ diary) × (diary.cube ≤ d.cube))) }
{
    match spent {
        None => diary,
        Some(old) => { if old.cube <= diary.cube { old } else { diary } }
    }
}

// Tells what became of a cube that is open; gives the lowest spent cube, and how the worker ended, if it did.
fn tell<'h, 'a, R: Wait>(
    board: &mut HubBoard<'h, 'a, R>,
    cube: u32,
    end: End,
    spent: Option<Diary>,
) -> (Option<Diary>, Option<Reached>)
    requires busy { IsBusy board.old cube }
    requires closed { (at : ℕ) → end ≡ ending.Closed at
        → IsClosedAt board.old.hist.law (view_in board.old).log cube at }
    ensures on { IsOn board.old board.new }
    ensures told { (p : Problem) (s : Kept) → IsProblem p (view_in board.old).log
        → IsCubeEnd p board.old (valuation_of s) cube end → IsQuiet (told board.old.pass.mine)
        → IsSpentBy p board.old spent →
        MatchOption result.1
        (IsIdle board.new × IsQuiet (told board.new.pass.mine) × IsSpentBy p board.new result.0)
        (IsReached p board.new result.0 s) }
{
    match end {
        End::Closed(at) => {
            let Ok(()) = board.close(cube, at) else {
                return (spent, Some(Reached::NoMemory));
            };
            board.facts();
            (spent, None)
        }
        End::Spent(diary) => {
            let Ok(()) = board.spend(cube) else {
                return (spent, Some(Reached::NoMemory));
            };
            board.facts();
            (Some(lower(spent, diary)), None)
        }
        End::Model => {
            // For want of memory the others are not told, and go on.
            let _ = board.tell_model(cube);
            board.facts();
            (spent, Some(Reached::Model))
        }
        End::Stopped => (spent, Some(Reached::Stopped)),
    }
}

// Claims a cube, searches it and tells what became of it; gives the lowest spent cube, and how the worker ended, if it did.
fn one_cube<'h, 'a, R: Wait, G: Gate>(
    alloc: Global,
    gate: &G,
    number: u32,
    board: HubBoard<'h, 'a, R>,
    search: &mut Search,
    spent: Option<Diary>,
    check: &Check<'_>,
) -> (HubBoard<'h, 'a, R>, Option<Diary>, Option<Reached>)
    requires open { IsOpenFor board.hist.law check.now }
    requires about { IsAbout search.old board (problem_in board.hist.law check.now) }
    requires rest { IsIdle board × IsQuiet (told board.pass.mine)
        × IsSpentBy (problem_in board.hist.law check.now) board spent }
    ensures on { IsOn board.entry result.0 }
    ensures reached { MatchOption result.2
        (IsAbout search.new result.0 (problem_in board.entry.hist.law check.now)
        × (IsIdle result.0 × IsQuiet (told result.0.pass.mine)
        × IsSpentBy (problem_in board.entry.hist.law check.now) result.0 result.1))
        (λ r. IsReached (problem_in board.entry.hist.law check.now) result.0 result.1 search.new r
        × RestsAfter result.0 search.new r) }
{
    let mut board = board;
    let Ok(claimed) = board.claim() else {
        return (board, spent, Some(Reached::NoMemory));
    };
    board.facts();
    let Some(cube) = claimed else {
        return (board, spent, Some(Reached::Done));
    };
    gate.pass(number, Point::Claimed);
    let Ok(given) = given(alloc, check, cube) else {
        return (board, spent, Some(Reached::NoMemory));
    };
    let (mut back, end) = search_cube(board, search, check, given.as_slice(), cube);
    back.facts();
    let Ok(end) = end else {
        return (back, spent, Some(Reached::NoMemory));
    };
    let (spent, reached) = tell(&mut back, cube, end, spent);
    back.facts();
    gate.pass(number, Point::Put);
    (back, spent, reached)
}

/// Claims cubes and searches them until none is left, a model is found, or memory is wanting.
pub fn work_cubes<'h, 'a, R: Wait, G: Gate>(
    alloc: Global,
    gate: &G,
    number: u32,
    board: HubBoard<'h, 'a, R>,
    search: &mut Search,
    check: &Check<'_>,
) -> (HubBoard<'h, 'a, R>, Option<Diary>, Reached)
    requires open { IsOpenFor board.hist.law check.now }
    requires about { IsAbout search.old board (problem_in board.hist.law check.now) }
    requires rest { IsIdle board × IsQuiet (told board.pass.mine)
        × IsSpentBy (problem_in board.hist.law check.now) board None }
    ensures on { IsOn board.entry result.0 }
    ensures reached { IsReached (problem_in board.entry.hist.law check.now) result.0 result.1
        search.new result.2 }
    ensures resting { RestsAfter result.0 search.new result.2 }
{
    let mut board = board;
    let mut spent = None;
    'cubes: for _ in 0..u64::MAX {
        let (back, low, reached) = one_cube(alloc, gate, number, board, search, spent, check);
        board = back;
        spent = low;
        if let Some(reached) = reached {
            return (board, spent, reached);
        }
    }
    (board, spent, Reached::NoMemory)
}
