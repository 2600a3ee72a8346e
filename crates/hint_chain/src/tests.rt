//! Worked chains and lists of hints, with ample memory.

ghost use Rattle.std.specs.Prelude.{◌≡◌, [], ◌∷◌, ◌==◌, if◌then◌else◌, Some, None, IfOk};
ghost use Rattle.cnf_base.specs.Literals.{negative_of, true_literal, false_literal};
ghost use Rattle.cnf_base.specs.Assignments.{AreBelow};

use crate::{ChainFault, Clauses, FaultKind, Hints, Marks, follows};
use cnf_base::{Clause, ClauseId, Lit};
use std::alloc::{AllocError, Global};
use std::test::Fail;

// A holder of two clauses, at positions 0 and 1.
#[derive(Drop)]
struct Pair {
    first: Clause,
    second: Clause,
}

impl Clauses for Pair {
    ghost look = { λ pair id. if id.pos == 0 then Some pair.first else
        (if id.pos == 1 then Some pair.second else None) };

    fn clause(&self, id: ClauseId) -> Option<&Clause> {
        match id.pos {
            0 => Some(&self.first),
            1 => Some(&self.second),
            _ => None,
        }
    }
}

const TRUE: ClauseId = ClauseId { pos: 0, part: 0 };

const NOT_BOTH: ClauseId = ClauseId { pos: 1, part: 0 };

// The clauses {1} and {-2, -1}.
fn make_pair(alloc: Global) -> Result<Pair, AllocError>
    ensures first { IfOk result (λ pair. pair.first ≡ true_literal ∷ []) }
    ensures second { IfOk result (λ pair. pair.second ≡ negative_of 2 ∷ false_literal ∷ []) }
{
    let first = Clause::of_one(alloc, Lit::TRUE)?;
    let second = Clause::of_two(alloc, Lit::new(2, false), Lit::FALSE)?;
    Ok(Pair { first, second })
}

fn answer(
    alloc: Global,
    clause: &Clause,
    hints: &[ClauseId],
) -> Result<Result<(), ChainFault>, AllocError>
    requires { AreBelow 3 clause.now }
{
    let hints = Hints::of(alloc, hints)?;
    let pair = make_pair(alloc)?;
    let mut marks = Marks::new(alloc);
    marks.reserve(3)?;
    Ok(follows(&pair, clause, &hints, &mut marks))
}

fn fault(hint: u64, kind: FaultKind) -> Result<(), ChainFault> {
    Err(ChainFault { hint, kind })
}

#[test]
fn a_clause_follows_from_a_chain_alone(rt: HostRuntime) -> Result<(), Fail> {
    let clause = Clause::of_one(rt.alloc(), Lit::new(2, false))?;
    assert_eq!(rt; answer(rt.alloc(), &clause, &[TRUE, NOT_BOTH])?, Ok(()));
    assert_eq!(rt;
        answer(rt.alloc(), &clause, &[NOT_BOTH])?,
        fault(0, FaultKind::Loose)
    );
    assert_eq!(rt;
        answer(rt.alloc(), &clause, &[])?,
        fault(0, FaultKind::Empty)
    );
    Ok(())
}

#[test]
fn a_clause_that_is_always_true_has_no_hint(rt: HostRuntime) -> Result<(), Fail> {
    let clause = Clause::of_two(rt.alloc(), Lit::new(2, true), Lit::new(2, false))?;
    assert_eq!(rt; answer(rt.alloc(), &clause, &[])?, Ok(()));
    assert_eq!(rt;
        answer(rt.alloc(), &clause, &[TRUE])?,
        fault(0, FaultKind::Needless)
    );
    Ok(())
}

#[test]
fn the_first_fault_is_told(rt: HostRuntime) -> Result<(), Fail> {
    let clause = Clause::of_one(rt.alloc(), Lit::new(2, false))?;
    let missing = ClauseId { pos: 7, part: 0 };
    assert_eq!(rt;
        answer(rt.alloc(), &clause, &[TRUE, missing])?,
        fault(1, FaultKind::Missing)
    );
    assert_eq!(rt;
        answer(rt.alloc(), &clause, &[TRUE, NOT_BOTH, missing])?,
        fault(1, FaultKind::Early)
    );
    let empty = Clause::empty(rt.alloc());
    assert_eq!(rt;
        answer(rt.alloc(), &empty, &[NOT_BOTH, TRUE])?,
        fault(0, FaultKind::Wide)
    );
    Ok(())
}

#[test]
fn marks_of_one_chain_are_gone_in_the_next(rt: HostRuntime) -> Result<(), Fail> {
    let pair = make_pair(rt.alloc())?;
    let clause = Clause::of_one(rt.alloc(), Lit::new(2, false))?;
    let both = Hints::of(rt.alloc(), &[TRUE, NOT_BOTH])?;
    let second = Hints::of(rt.alloc(), &[NOT_BOTH])?;
    let mut marks = Marks::new(rt.alloc());
    marks.reserve(3)?;
    assert_eq!(rt; follows(&pair, &clause, &both, &mut marks), Ok(()));
    assert_eq!(rt;
        follows(&pair, &clause, &second, &mut marks),
        fault(0, FaultKind::Loose)
    );
    Ok(())
}

// Whether the hints are these names, in order.
fn are(hints: &Hints, ids: &[ClauseId]) -> bool {
    if hints.len() != ids.len() {
        return false;
    }
    for k in 0..ids.len() {
        if hints.hint(k) != ids[k] {
            return false;
        }
    }
    hints.is_empty() == ids.is_empty()
}

const LAST_SHORT: ClauseId = ClauseId {
    pos: u32::MAX as u64,
    part: u32::MAX,
};

const FIRST_WHOLE: ClauseId = ClauseId {
    pos: 1 << 32,
    part: 0,
};

const LAST: ClauseId = ClauseId {
    pos: u64::MAX,
    part: u32::MAX,
};

// Names that are all short, and names of which one has to be whole, in each place.
const ROWS: [&[ClauseId]; 7] = [
    &[],
    &[TRUE],
    &[NOT_BOTH, TRUE, LAST_SHORT, NOT_BOTH],
    &[FIRST_WHOLE],
    &[FIRST_WHOLE, LAST_SHORT],
    &[LAST_SHORT, LAST, TRUE],
    &[TRUE, LAST_SHORT, FIRST_WHOLE],
];

#[test]
fn hints_are_the_names_of_which_they_were_made(rt: HostRuntime) -> Result<(), Fail> {
    for ids in ROWS {
        let hints = Hints::of(rt.alloc(), ids)?;
        assert!(rt; are(&hints, ids));
        assert!(rt; are(&hints.copy(rt.alloc())?, ids));
    }
    Ok(())
}
