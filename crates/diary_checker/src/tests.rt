//! Worked diaries, with ample memory. Each test is a table of lines, each with whether it is taken.

ghost use Rattle.std.specs.Prelude.{IfOk};
ghost use Rattle.faded_log.specs.Faded.{IsHeld};
ghost use Rattle.proof_log.specs.Faults.{IsDeclared};

use crate::positions::Positions;
use crate::{DiaryReader, DiaryStart};
use cnf_base::{Clause, ClauseId, Lit, Pos};
use faded_log::FadedLog;
use proof_log::diary::DiaryLine;
use proof_log::entry::{Entry, Hints};
use smt_terms::node::{Node, Op};
use smt_terms::operator::Operator;
use smt_terms::terms::Terms;
use std::alloc::{AllocError, Global};
use std::process::Abort;
use std::test::Fail;

// A log, and the terms that it stands over.
#[derive(Drop)]
struct Proof {
    log: FadedLog,
    terms: Terms,
}

const TRUE: ClauseId = ClauseId { pos: 0, part: 0 };

const IMPLIED: ClauseId = ClauseId { pos: 2, part: 0 };

// A valid step more.
fn step(proof: &mut Proof, alloc: Global, entry: Entry) -> Result<(), AllocError>
    requires stands { IsHeld proof.old.terms.nodes proof.old.log }
    requires declared { IsDeclared proof.old.terms entry }
    ensures { IsHeld proof.new.terms.nodes proof.new.log }
{
    match proof.log.try_push(alloc, &mut proof.terms, entry) {
        Ok(true) => Ok(()),
        _ => Err(AllocError),
    }
}

fn chain(
    proof: &mut Proof,
    alloc: Global,
    clause: Clause,
    hints: &[ClauseId],
) -> Result<(), AllocError>
    requires { IsHeld proof.old.terms.nodes proof.old.log }
    ensures { IsHeld proof.new.terms.nodes proof.new.log }
{
    let hints = Hints::of(alloc, hints)?;
    step(proof, alloc, Entry::Chain(clause, hints))
}

// No step yet, over the term false.
fn begun(alloc: Global) -> Result<Proof, AllocError>
    ensures { IfOk result (λ p. IsHeld p.terms.nodes p.log) }
{
    let mut terms = Terms::new(alloc);
    let made = terms.make(Node::leaf(alloc, Op::Plain(Operator::False)));
    match (made, FadedLog::new(alloc)) {
        (Ok(_), Ok(log)) => Ok(Proof { log, terms }),
        (_, log) => {
            drop((log, terms));
            Err(AllocError)
        }
    }
}

// False is asserted: its selector is variable 2, and position 2 has the clause {-2, -1}. Position 3 derives {-2}, twice
// over with position 4, position 5 has the clause of position 2 again, and position 6 is {-2, -2}.
fn refute(proof: &mut Proof, alloc: Global) -> Result<(), AllocError>
    requires { IsHeld proof.old.terms.nodes proof.old.log }
    ensures { IsHeld proof.new.terms.nodes proof.new.log }
{
    step(proof, alloc, Entry::Encode(0))?;
    step(proof, alloc, Entry::Selector(0, 0))?;
    let negated = Lit::new(2, false);
    let once = Clause::of_one(alloc, negated)?;
    chain(proof, alloc, once, &[TRUE, IMPLIED])?;
    let twice = Clause::of_one(alloc, negated)?;
    chain(proof, alloc, twice, &[TRUE, IMPLIED])?;
    let wider = Clause::of_two(alloc, negated, Lit::FALSE)?;
    chain(proof, alloc, wider, &[IMPLIED])?;
    let repeated = Clause::of_two(alloc, negated, negated)?;
    chain(proof, alloc, repeated, &[TRUE, IMPLIED])
}

// The first line that is taken where it is not told so, or is not where it is, counted from 0.
fn first_other(
    reader: &mut DiaryReader,
    log: &FadedLog,
    lines: &[(DiaryLine, bool)],
) -> Result<Option<usize>, AllocError> {
    for at in 0..lines.len() {
        let (line, taken) = lines[at];
        if reader.line(log, line)? != taken {
            return Ok(Some(at));
        }
    }
    Ok(None)
}

// The same of a diary of this log, and whether the lines spent a budget of 0.
fn first_other_of(
    alloc: Global,
    log: &FadedLog,
    given: Lit,
    from: Pos,
    lines: &[(DiaryLine, bool)],
) -> Result<(Option<usize>, bool), AllocError> {
    let deleted = Positions::new(alloc);
    let mut reader = DiaryReader::new(
        alloc,
        log,
        DiaryStart::new(alloc),
        &deleted,
        &[],
        &[given],
        from,
    )?;
    let other = first_other(&mut reader, log, lines);
    let spent = reader.is_spent(0);
    drop(reader);
    Ok((other?, spent))
}

// Each of the lines of a diary is taken or is not, as is told, and they spend a budget of 0 or do not.
fn read(
    rt: &(impl Abort + AllocGlobal),
    given: Lit,
    from: Pos,
    lines: &[(DiaryLine, bool)],
    spends: bool,
) -> Result<(), Fail> {
    let mut proof = begun(rt.alloc())?;
    let refuted = refute(&mut proof, rt.alloc());
    let read = first_other_of(rt.alloc(), &proof.log, given, from, lines);
    drop(proof);
    refuted?;
    let (other, spent) = read?;
    if let Some(at) = other {
        panic!(rt; "line {at}");
    }
    assert!(rt; spent == spends);
    Ok(())
}

#[test]
fn a_good_put_spends_a_budget_of_none(rt: HostRuntime) -> Result<(), Fail> {
    read(
        &rt,
        Lit::new(2, true),
        3,
        &[(DiaryLine::Put(3), true)],
        true,
    )
}

#[test]
fn a_held_clause_bars_wider_ones(rt: HostRuntime) -> Result<(), Fail> {
    let lines = [
        (DiaryLine::Put(5), false),
        (DiaryLine::Put(3), true),
        (DiaryLine::Put(3), false),
        (DiaryLine::Put(4), false),
    ];
    read(&rt, Lit::new(2, true), 3, &lines, true)
}

#[test]
fn a_literal_that_stands_twice_counts_once(rt: HostRuntime) -> Result<(), Fail> {
    let lines = [
        (DiaryLine::Put(6), true),
        (DiaryLine::Put(3), false),
        (DiaryLine::Put(6), false),
    ];
    read(&rt, Lit::new(2, true), 3, &lines, true)?;
    let lines = [(DiaryLine::Put(3), true), (DiaryLine::Put(6), false)];
    read(&rt, Lit::new(2, true), 3, &lines, true)
}

#[test]
fn a_given_literal_bars_its_clauses(rt: HostRuntime) -> Result<(), Fail> {
    read(
        &rt,
        Lit::new(2, false),
        3,
        &[(DiaryLine::Put(3), false)],
        false,
    )
}

#[test]
fn hints_are_taken_before_they_are_used(rt: HostRuntime) -> Result<(), Fail> {
    let lines = [
        (DiaryLine::Put(3), false),
        (DiaryLine::Take(7), false),
        (DiaryLine::Take(2), true),
        (DiaryLine::Put(3), true),
        (DiaryLine::Drop(3), false),
    ];
    read(&rt, Lit::new(2, true), 2, &lines, true)
}
