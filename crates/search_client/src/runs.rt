//! Searches over a board, and how their runs end.

ghost use Rattle.std.specs.Prelude.{ℕ, ◌≡◌, ◌<◌, ◌≤◌, ◌⊎◌, ◌++◌, ◌∷◌, [], false, suc, length, IfOk, OnOk, Contains};
ghost use Rattle.cnf_base.specs.Assignments.{AreBelow};
ghost use Rattle.smt_terms.specs.Terms.{IsTermList};
ghost use Rattle.proof_log.specs.Boards.{IsLater};
ghost use Rattle.proof_log.specs.Logs.{state_of, entry_at};
ghost use Rattle.proof_log.specs.Diaries.{is_chain};
ghost use Rattle.cdcl_core.specs.Search.{clause_of};
ghost use Rattle.cube_search.specs.Holding.{AreStoredBelow};
ghost use Rattle.cube_search.specs.Running.{given_in, IsResting, IsSearch};

use cnf_base::{Lit, Pos};
use cube_search::{End, Search};
use proof_log::board::Board;
use proof_log::entry::Entry;
use std::alloc::{AllocError, Global};

pub(crate) const CUBE: u32 = 3;

// Whether a chain stands at a position that is known.
fn is_chain<B: Board>(board: &B, at: Pos) -> bool
    requires { B.knows board.now at }
    ensures { result ≡ false → is_chain (entry_at (B.log board.now) at) ≡ false }
{
    matches!(board.entry(at), Some(Entry::Chain(_, _)))
}

// Adds a position that is known, where it is no chain's.
fn add_plain<B: Board>(board: &B, at: Pos, positions: &mut Vec<Pos>) -> Result<(), AllocError>
    requires { B.knows board.now at }
    ensures { OnOk result ((positions.new.items ≡ positions.old.items)
        ⊎ ((positions.new.items ≡ positions.old.items ++ at ∷ [])
        × (is_chain (entry_at (B.log board.now) at) ≡ false))) }
{
    if is_chain(board, at) {
        return Ok(());
    }
    positions.push(at)?;
    Ok(())
}

// The positions below the bound that are no chains'.
fn positions<B: Board>(alloc: Global, board: &B, bound: u64) -> Result<Vec<Pos>, AllocError>
    requires { (p : ℕ) → p < bound → B.knows board.now p }
    ensures below { IfOk result (λ ps. (p : ℕ) → Contains ps.items p → p < bound) }
    ensures plain { IfOk result (λ ps. (p : ℕ) → Contains ps.items p
        → is_chain (entry_at (B.log board.now) p) ≡ false) }
{
    let mut positions = Vec::new(alloc);
    'positions: for at in 0..bound {
        add_plain(board, at, &mut positions)?;
    }
    Ok(positions)
}

// Goes over to the positions of the board below the bound.
fn go_over<B: Board>(
    alloc: Global,
    board: &B,
    search: &mut Search,
    bound: u64,
    from: u64,
) -> Result<(), AllocError>
    requires resting { IsResting search.old (state_of (B.nodes board.now) (B.log board.now)).clauses
        (B.log board.now) }
    requires stored { AreStoredBelow (clause_of search.old.engine.watches) (B.log board.now) from }
    requires listed { IsTermList (B.nodes board.now) }
    requires known { (p : ℕ) → p < bound → B.knows board.now p }
    requires within { bound ≤ from }
    requires from { from ≤ suc (length (B.log board.now)) }
    ensures search { OnOk result (IsSearch search.new (B.nodes board.now) (B.log board.now)) }
    ensures from { OnOk result (search.new.from ≡ from) }
    ensures opening { OnOk result
        ((p : ℕ) → Contains search.new.opening.items p → p < search.new.from) }
{
    let _stands = board.bits();
    let positions = positions(alloc, board, bound)?;
    search.retarget(board, positions.as_slice(), from)?;
    Ok(())
}

// A search that holds the positions of the board below the bound.
pub(crate) fn begun<B: Board>(
    alloc: Global,
    board: &B,
    bound: u64,
    from: u64,
) -> Result<Search, AllocError>
    requires listed { IsTermList (B.nodes board.now) }
    requires known { (p : ℕ) → p < bound → B.knows board.now p }
    requires within { bound ≤ from }
    requires from { from ≤ suc (length (B.log board.now)) }
    ensures search { IfOk result (λ s. IsSearch s (B.nodes board.now) (B.log board.now)) }
    ensures from { IfOk result (λ s. s.from ≡ from) }
    ensures opening { IfOk result
        (λ s. (p : ℕ) → Contains s.opening.items p → p < s.from) }
{
    let mut search = Search::new(alloc)?;
    match go_over(alloc, board, &mut search, bound, from) {
        Ok(()) => Ok(search),
        Err(error) => {
            drop(search);
            Err(error)
        }
    }
}

// How a search is to end.
#[derive(Clone, Copy)]
pub(crate) enum Ended {
    Closed,
    ClosedAt(Pos),
    Model,
    // these variables below 12 are true, and no others
    ModelOf(&'static [u64]),
    // this variable below 12 is true
    ModelWith(u64),
    // with so many lines in the diary of this cube
    Spent(u32, usize),
}

// Whether these variables below 12 are true, and no others.
fn are_true(search: &Search, variables: &[u64]) -> bool {
    for variable in 1..12 {
        let is_wanted = variables.contains(&variable);
        if search.is_true(Lit::new(variable, true)) != is_wanted {
            return false;
        }
    }
    true
}

// Whether this variable below 12 is true.
fn has_true(search: &Search, wanted: u64) -> bool {
    for variable in 1..12 {
        if variable == wanted && search.is_true(Lit::new(variable, true)) {
            return true;
        }
    }
    false
}

pub(crate) fn is_end(search: &Search, end: &End, wanted: Ended) -> bool {
    match (end, wanted) {
        (End::Closed(_), Ended::Closed) => true,
        (End::Closed(at), Ended::ClosedAt(pos)) => *at == pos,
        (End::Model, Ended::Model) => true,
        (End::Model, Ended::ModelOf(variables)) => are_true(search, variables),
        (End::Model, Ended::ModelWith(variable)) => has_true(search, variable),
        (End::Spent(diary), Ended::Spent(cube, lines)) => {
            diary.cube == cube && diary.lines.as_slice().len() == lines
        }
        _ => false,
    }
}

// Whether a run of a search ends so.
pub(crate) fn is_run<B: Board>(
    board: &mut B,
    search: &mut Search,
    given: &[Lit],
    budget: u64,
    wanted: Ended,
) -> Result<bool, AllocError>
    requires search { IsSearch search.old (B.nodes board.old) (B.log board.old) }
    requires below { AreBelow (state_of (B.nodes board.old) (B.log board.old)).next given.now }
    ensures later { IsLater (B.nodes board.old) (B.nodes board.new) (B.log board.old)
        (B.log board.new) (B.knows board.old) (B.knows board.new) }
    ensures search { OnOk result (IsSearch search.new (B.nodes board.new) (B.log board.new)) }
    ensures from { search.new.from ≡ search.old.from }
    ensures opening { search.new.opening ≡ search.old.opening }
    ensures given { OnOk result (given_in search.new ≡ given.now) }
{
    let end = search.run(board, CUBE, given, budget)?;
    let is_so = is_end(&*search, &end, wanted);
    drop(end);
    Ok(is_so)
}

// Whether a search over the whole log ends so.
pub(crate) fn ends_on<B: Board>(
    alloc: Global,
    board: &mut B,
    from: u64,
    given: &[Lit],
    budget: u64,
    wanted: Ended,
) -> Result<bool, AllocError>
    requires listed { IsTermList (B.nodes board.old) }
    requires known { (p : ℕ) → p < from → B.knows board.old p }
    requires from { from ≤ suc (length (B.log board.old)) }
    requires below { AreBelow (state_of (B.nodes board.old) (B.log board.old)).next given.now }
{
    let mut search = begun(alloc, &*board, from, from)?;
    let is_so = is_run(board, &mut search, given, budget, wanted);
    drop(search);
    is_so
}

// Whether two runs of a search end so, the first within one put and the second without any.
fn are_runs<B: Board>(
    board: &mut B,
    search: &mut Search,
    given: &[Lit],
    first: Ended,
    second: Ended,
) -> Result<bool, AllocError>
    requires search { IsSearch search.old (B.nodes board.old) (B.log board.old) }
    requires below { AreBelow (state_of (B.nodes board.old) (B.log board.old)).next given.now }
{
    let is_first = is_run(board, search, given, 1, first)?;
    let is_second = is_run(board, search, given, 0, second)?;
    Ok(is_first && is_second)
}

// The same of a search that holds the positions below the bound.
pub(crate) fn ends_twice_on<B: Board>(
    alloc: Global,
    board: &mut B,
    bound: u64,
    from: u64,
    given: &[Lit],
    first: Ended,
    second: Ended,
) -> Result<bool, AllocError>
    requires listed { IsTermList (B.nodes board.old) }
    requires known { (p : ℕ) → p < bound → B.knows board.old p }
    requires within { bound ≤ from }
    requires from { from ≤ suc (length (B.log board.old)) }
    requires below { AreBelow (state_of (B.nodes board.old) (B.log board.old)).next given.now }
{
    let mut search = begun(alloc, &*board, bound, from)?;
    let are_so = are_runs(board, &mut search, given, first, second);
    drop(search);
    are_so
}

// Whether two searches end closed, the first within one put and the other behind it without any.
fn are_both_closed<B: Board>(
    board: &mut B,
    first: &mut Search,
    second: &mut Search,
    given: &[Lit],
) -> Result<bool, AllocError>
    requires first { IsSearch first.old (B.nodes board.old) (B.log board.old) }
    requires second { IsSearch second.old (B.nodes board.old) (B.log board.old) }
    requires below { AreBelow (state_of (B.nodes board.old) (B.log board.old)).next given.now }
{
    let is_first = is_run(board, first, given, 1, Ended::Closed)?;
    let is_second = is_run(board, second, given, 0, Ended::Closed)?;
    Ok(is_first && is_second)
}

// The same of this search and one that begins over the whole log before it runs.
fn second_closes<B: Board>(
    alloc: Global,
    board: &mut B,
    first: &mut Search,
    from: u64,
    given: &[Lit],
) -> Result<bool, AllocError>
    requires first { IsSearch first.old (B.nodes board.old) (B.log board.old) }
    requires listed { IsTermList (B.nodes board.old) }
    requires known { (p : ℕ) → p < from → B.knows board.old p }
    requires from { from ≤ suc (length (B.log board.old)) }
    requires below { AreBelow (state_of (B.nodes board.old) (B.log board.old)).next given.now }
{
    let mut second = begun(alloc, &*board, from, from)?;
    let are_closed = are_both_closed(board, first, &mut second, given);
    drop(second);
    are_closed
}

// The same of two searches over the whole log.
pub(crate) fn two_close_on<B: Board>(
    alloc: Global,
    board: &mut B,
    from: u64,
    given: &[Lit],
) -> Result<bool, AllocError>
    requires listed { IsTermList (B.nodes board.old) }
    requires known { (p : ℕ) → p < from → B.knows board.old p }
    requires from { from ≤ suc (length (B.log board.old)) }
    requires below { AreBelow (state_of (B.nodes board.old) (B.log board.old)).next given.now }
{
    let mut first = begun(alloc, &*board, from, from)?;
    let are_closed = second_closes(alloc, board, &mut first, from, given);
    drop(first);
    are_closed
}

// Whether a run of a search that goes over to the positions below the bound ends so.
fn is_run_over<B: Board>(
    alloc: Global,
    board: &mut B,
    search: &mut Search,
    bound: u64,
    from: u64,
    given: &[Lit],
    wanted: Ended,
) -> Result<bool, AllocError>
    requires search { IsSearch search.old (B.nodes board.old) (B.log board.old) }
    requires own { search.old.from ≡ from }
    requires opening { (p : ℕ) → Contains search.old.opening.items p → p < search.old.from }
    requires listed { IsTermList (B.nodes board.old) }
    requires known { (p : ℕ) → p < bound → B.knows board.old p }
    requires within { bound ≤ from }
    requires below { AreBelow (state_of (B.nodes board.old) (B.log board.old)).next given.now }
    ensures later { OnOk result
        (IsLater (B.nodes board.old) (B.nodes board.new) (B.log board.old) (B.log board.new)
        (B.knows board.old) (B.knows board.new)) }
    ensures search { OnOk result (IsSearch search.new (B.nodes board.new) (B.log board.new)) }
    ensures own { OnOk result (search.new.from ≡ from) }
    ensures opening { OnOk result
        ((p : ℕ) → Contains search.new.opening.items p → p < search.new.from) }
{
    go_over(alloc, &*board, search, bound, from)?;
    let is_so = is_run(board, search, given, 0, wanted)?;
    Ok(is_so)
}

// Whether a search over the whole log ends closed within one put, then has this model over the positions below the bound alone, and
// then over the whole log again ends closed without any put.
fn goes_and_comes<B: Board>(
    alloc: Global,
    board: &mut B,
    search: &mut Search,
    bound: u64,
    from: u64,
    given: &[Lit],
    model: Ended,
) -> Result<bool, AllocError>
    requires search { IsSearch search.old (B.nodes board.old) (B.log board.old) }
    requires own { search.old.from ≡ from }
    requires opening { (p : ℕ) → Contains search.old.opening.items p → p < search.old.from }
    requires listed { IsTermList (B.nodes board.old) }
    requires known { (p : ℕ) → p < from → B.knows board.old p }
    requires within { bound ≤ from }
    requires below { AreBelow (state_of (B.nodes board.old) (B.log board.old)).next given.now }
{
    let is_closed = is_run(board, search, given, 1, Ended::Closed)?;
    let is_model = is_run_over(alloc, board, search, bound, from, given, model)?;
    let is_kept = is_run_over(alloc, board, search, from, from, given, Ended::Closed)?;
    Ok(is_closed && is_model && is_kept)
}

// The same of a search that begins over the whole log.
pub(crate) fn comes_back_on<B: Board>(
    alloc: Global,
    board: &mut B,
    bound: u64,
    from: u64,
    given: &[Lit],
    model: Ended,
) -> Result<bool, AllocError>
    requires listed { IsTermList (B.nodes board.old) }
    requires known { (p : ℕ) → p < from → B.knows board.old p }
    requires from { from ≤ suc (length (B.log board.old)) }
    requires within { bound ≤ from }
    requires below { AreBelow (state_of (B.nodes board.old) (B.log board.old)).next given.now }
{
    let mut search = begun(alloc, &*board, from, from)?;
    let is_so = goes_and_comes(alloc, board, &mut search, bound, from, given, model);
    drop(search);
    is_so
}
