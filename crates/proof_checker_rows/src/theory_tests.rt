//! Models of functions and arrays, judged through the checker.

use accepted_proof::refusal::{Refusal, RuleName};
use proof_checker::checking::{Checking, Progress};
use std::alloc::{AllocError, Global};
use std::test::Fail;

/// Feeds both texts whole.
fn feed(checking: &mut Checking, script: &[u8], proof: &[u8]) -> Result<(), AllocError> {
    checking.feed_script(script)?;
    checking.end_script();
    checking.feed_proof(proof)?;
    checking.end_proof();
    Ok(())
}

/// How many records are accepted, and the first bad line, where both texts are whole.
fn judged(
    alloc: Global,
    script: &[u8],
    proof: &[u8],
) -> Result<Option<(usize, Option<Refusal>)>, AllocError> {
    let mut checking = Checking::new(alloc);
    if feed(&mut checking, script, proof).is_err() {
        drop(checking);
        return Err(AllocError);
    }
    for _ in 0..3 {
        match checking.advance(alloc)? {
            Progress::Shown(next, _) => checking = next,
            Progress::Done(judgement) => {
                let told = (judgement.verdicts().len(), judgement.refusal);
                drop(judgement);
                return Ok(Some(told));
            }
            Progress::Script(held) | Progress::Proof(held) => {
                drop(held);
                return Ok(None);
            }
        }
    }
    drop(checking);
    Ok(None)
}

/// Nothing is accepted, and this line is refused since the values are no model.
fn no_model(line: u64) -> Option<(usize, Option<Refusal>)> {
    Some((
        0,
        Some(Refusal {
            line,
            rule: RuleName::Sat,
        }),
    ))
}

/// The one record is accepted.
const WHOLE: Option<(usize, Option<Refusal>)> = Some((1, None));

/// A function that turns a bit.
const TURNS: &[u8] = b"(declare-fun f ((_ BitVec 1)) (_ BitVec 1))\n\
(assert (= (f #b0) #b1))\n(assert (= (f #b1) #b0))\n(check-sat)\n";

#[test]
fn a_table_is_a_model_of_its_function(rt: HostRuntime) -> Result<(), Fail> {
    let by_row: &[u8] = b"smt_proof 1 cubes 0 budget 100000\nsat 1\nv 0 f #b0 #b0 #b1\n";
    assert!(rt; judged(rt.alloc(), TURNS, by_row)? == WHOLE);
    let by_two: &[u8] = b"smt_proof 1 cubes 0 budget 100000\nsat 1\nv 0 f #b0 #b0 #b1 #b1 #b0\n";
    assert!(rt; judged(rt.alloc(), TURNS, by_two)? == WHOLE);
    let same: &[u8] = b"smt_proof 1 cubes 0 budget 100000\nsat 1\nv 0 f #b1\n";
    assert!(rt; judged(rt.alloc(), TURNS, same)? == no_model(3));
    let turned: &[u8] = b"smt_proof 1 cubes 0 budget 100000\nsat 1\nv 0 f #b0 #b1 #b1 #b0 #b1\n";
    assert!(rt; judged(rt.alloc(), TURNS, turned)? == no_model(3));
    let short: &[u8] = b"smt_proof 1 cubes 0 budget 100000\nsat 1\nv 0 f #b0 #b0\n";
    assert!(rt; judged(rt.alloc(), TURNS, short)? == no_model(3));
    let wide: &[u8] = b"smt_proof 1 cubes 0 budget 100000\nsat 1\nv 0 f #b0 #b00 #b1\n";
    assert!(rt; judged(rt.alloc(), TURNS, wide)? == no_model(3));
    let word: &[u8] = b"smt_proof 1 cubes 0 budget 100000\nsat 1\nv 0 #b1\n";
    assert!(rt; judged(rt.alloc(), TURNS, word)? == no_model(3));
    Ok(())
}

/// Two equal arrays with one bit of index.
const EQUAL: &[u8] = b"(declare-const a (Array (_ BitVec 1) (_ BitVec 1)))\n\
(declare-const b (Array (_ BitVec 1) (_ BitVec 1)))\n(assert (= a b))\n\
(assert (distinct (select a #b0) (select a #b1)))\n(check-sat)\n";

#[test]
fn a_default_that_is_never_reached_is_not_compared(rt: HostRuntime) -> Result<(), Fail> {
    let unlike: &[u8] = b"smt_proof 1 cubes 0 budget 100000\nsat 2\n\
v 0 a #b0 #b0 #b1 #b1 #b0\nv 1 a #b1 #b0 #b1 #b1 #b0\n";
    assert!(rt; judged(rt.alloc(), EQUAL, unlike)? == WHOLE);
    let fewer: &[u8] = b"smt_proof 1 cubes 0 budget 100000\nsat 2\n\
v 0 a #b0 #b0 #b1\nv 1 a #b1 #b1 #b0\n";
    assert!(rt; judged(rt.alloc(), EQUAL, fewer)? == WHOLE);
    let other: &[u8] = b"smt_proof 1 cubes 0 budget 100000\nsat 2\n\
v 0 a #b0 #b0 #b1\nv 1 a #b1 #b0 #b0\n";
    assert!(rt; judged(rt.alloc(), EQUAL, other)? == no_model(4));
    let falling: &[u8] = b"smt_proof 1 cubes 0 budget 100000\nsat 2\n\
v 0 a #b0 #b1 #b0 #b0 #b1\n";
    assert!(rt; judged(rt.alloc(), EQUAL, falling)? == no_model(3));
    let twice: &[u8] = b"smt_proof 1 cubes 0 budget 100000\nsat 2\n\
v 0 a #b0 #b0 #b1 #b0 #b1\n";
    assert!(rt; judged(rt.alloc(), EQUAL, twice)? == no_model(3));
    let wide: &[u8] = b"smt_proof 1 cubes 0 budget 100000\nsat 2\nv 0 a #b00\n";
    assert!(rt; judged(rt.alloc(), EQUAL, wide)? == no_model(3));
    Ok(())
}

/// An array that a store into it leaves as it was, and one of two that differ.
const STORED: &[u8] = b"(declare-const a (Array (_ BitVec 4) (_ BitVec 4)))\n\
(declare-const i (_ BitVec 4))\n(declare-const b (Array (_ BitVec 4) (_ BitVec 4)))\n\
(assert (= (store a i #x3) a))\n(assert (distinct a b))\n\
(assert (= (select (ite (= i #x0) a b) #x7) #x5))\n(check-sat)\n";

#[test]
fn stores_and_choices_are_evaluated(rt: HostRuntime) -> Result<(), Fail> {
    let model: &[u8] = b"smt_proof 1 cubes 0 budget 100000\nsat 3\n\
v 0 a #b0011\nv 1 #b0010\nv 2 a #b0011 #b0111 #b0101\n";
    assert!(rt; judged(rt.alloc(), STORED, model)? == WHOLE);
    let chosen: &[u8] = b"smt_proof 1 cubes 0 budget 100000\nsat 3\n\
v 0 a #b0011\nv 1 #b0000\nv 2 a #b0011 #b0111 #b0101\n";
    assert!(rt; judged(rt.alloc(), STORED, chosen)? == no_model(5));
    let lost: &[u8] = b"smt_proof 1 cubes 0 budget 100000\nsat 3\n\
v 0 a #b0011 #b0010 #b0100\nv 1 #b0010\nv 2 a #b0011 #b0111 #b0101\n";
    assert!(rt; judged(rt.alloc(), STORED, lost)? == no_model(5));
    Ok(())
}
