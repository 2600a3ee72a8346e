//! Worked turns of two boards over one hub, with ample memory.

ghost use Rattle.std.specs.Prelude.{◌≡◌, [], ◌∷◌, IfOk};
ghost use Rattle.cnf_base.specs.Literals.{true_literal, false_literal};
ghost use Rattle.hub_board.specs.Cubes.{IsIdle};

use crate::{ChainHub, HubBoard};
use cnf_base::{Clause, ClauseId, Lit, Pos};
use hub_core::HubLaw;
use proof_log::Log;
use proof_log::board::{Board, Sync};
use proof_log::entry::{Entry, Hints};
use shared_history::Hist;
use smt_terms::terms::Terms;
use std::alloc::{AllocError, Global};
use std::sync::Wait;
use std::test::Fail;

// The two cubes of variable 1, which is true.
fn two_cubes(alloc: Global) -> Result<Vec<Clause>, AllocError>
    ensures { IfOk result (λ cubes. cubes.items ≡ (true_literal ∷ []) ∷ (false_literal ∷ []) ∷ []) }
{
    let mut cubes = Vec::new(alloc);
    cubes.push(Clause::of_one(alloc, Lit::TRUE)?)?;
    cubes.push(Clause::of_one(alloc, Lit::FALSE)?)?;
    Ok(cubes)
}

// The hub over a log without a step, with two cubes.
fn opened<'a>(alloc: Global, terms: &'a Terms) -> Result<ChainHub<'a>, AllocError> {
    let cubes = two_cubes(alloc)?;
    let log = Log::new(alloc)?;
    let _held = terms.len();
    Ok(ChainHub::new(HubLaw::new(log, terms, cubes, Vec::new(alloc))))
}

const fn first_of(pos: Pos) -> ClauseId {
    ClauseId { pos, part: 0 }
}

// Puts the clause that variable 1 is true.
fn put_truth<R: Wait>(alloc: Global, board: &mut HubBoard<'_, '_, R>) -> Result<Pos, AllocError> {
    board.facts();
    let clause = Clause::of_one(alloc, Lit::TRUE)?;
    let hints = Hints::of(alloc, &[ClauseId { pos: 0, part: 0 }])?;
    board.put(Entry::Chain(clause, hints))
}

// Whether the board shows a clause at the position, and a step there.
fn shows<R: Wait>(board: &HubBoard<'_, '_, R>, pos: Pos) -> (bool, bool) {
    (
        board.clause(first_of(pos)).is_some(),
        board.entry(pos).is_some(),
    )
}

// What two boards tell that put a clause each, one after the other, and then read.
#[derive(Drop)]
struct Told {
    places: (Pos, Pos),
    // what the second board shows at the first position before it reads, and of its own put
    gap: (bool, bool),
    own: (bool, bool),
    news: Sync,
    // what it shows then, and what the first board shows of the second's put after reading
    read: (bool, bool),
    others: (bool, bool),
}

fn exchange<R: Wait>(
    alloc: Global,
    one: &mut HubBoard<'_, '_, R>,
    two: &mut HubBoard<'_, '_, R>,
) -> Result<Told, AllocError> {
    let first = put_truth(alloc, one)?;
    let second = put_truth(alloc, two)?;
    let gap = shows(two, 1);
    let own = shows(two, 2);
    let news = two.sync()?;
    let read = shows(two, 1);
    let _ = one.sync()?;
    Ok(Told {
        places: (first, second),
        gap,
        own,
        news,
        read,
        others: shows(one, 2),
    })
}

#[test]
fn each_board_reads_what_the_other_put(rt: HostRuntime) -> Result<(), Fail> {
    let alloc = rt.alloc();
    let terms = Terms::new(alloc);
    let Ok((hist, mut first)) = Hist::start(alloc, opened(alloc, &terms)?) else {
        panic!(rt; "memory")
    };
    let other = hist.pass(&mut first);
    let mut one = HubBoard::new(&rt, alloc, &hist, first);
    let mut two = HubBoard::new(&rt, alloc, &hist, other);
    let told = exchange(alloc, &mut one, &mut two);
    drop(one);
    drop(two);
    drop(hist);
    let told = told?;
    assert!(rt; told.places == (1, 2));
    assert!(rt; told.gap == (false, false) && told.own == (true, true));
    assert!(rt; told.news.upto == 3 && !told.news.found);
    assert!(rt; told.read == (true, true) && told.others == (true, true));
    Ok(())
}

// What two boards are told of their cubes, where the first spends its own and the second finds a model: the cubes that they get,
// whether the first reads that a model was found, and what it gets then.
fn cubes_of<R: Wait>(
    one: &mut HubBoard<'_, '_, R>,
    two: &mut HubBoard<'_, '_, R>,
) -> Result<(Option<u32>, Option<u32>, bool, Option<u32>), AllocError>
    requires one { IsIdle one.old }
    requires two { IsIdle two.old }
{
    let Some(first) = one.claim()? else {
        return Err(AllocError);
    };
    let Some(second) = two.claim()? else {
        return Err(AllocError);
    };
    one.spend(first)?;
    two.tell_model(second)?;
    let left = one.claim()?;
    let after = one.sync()?.found;
    Ok((Some(first), Some(second), after, left))
}

#[test]
fn a_found_model_ends_the_claims(rt: HostRuntime) -> Result<(), Fail> {
    let alloc = rt.alloc();
    let terms = Terms::new(alloc);
    let Ok((hist, mut first)) = Hist::start(alloc, opened(alloc, &terms)?) else {
        panic!(rt; "memory")
    };
    let other = hist.pass(&mut first);
    let mut one = HubBoard::new(&rt, alloc, &hist, first);
    let mut two = HubBoard::new(&rt, alloc, &hist, other);
    let told = cubes_of(&mut one, &mut two);
    drop(one);
    drop(two);
    drop(hist);
    assert!(rt; told? == (Some(0), Some(1), true, None));
    Ok(())
}
