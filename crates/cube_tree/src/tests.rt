//! Worked cubes and joinings, with ample memory.

ghost use Rattle.std.specs.Prelude.{◌≤◌, IfOk, IsTrue};
ghost use Rattle.proof_log.specs.Logs.{clause_at};
ghost use Rattle.proof_log.specs.Stored.{Stands};
ghost use Rattle.proof_log.specs.Faults.{IsDeclared};
ghost use Rattle.cube_tree.specs.Cubes.{AreVariables};
ghost use Rattle.cube_tree.specs.Closing.{HaveClauses};

use crate::{Tree, join};
use cnf_base::{ClauseId, Lit, Pos};
use proof_log::entry::Entry;
use proof_log::{Log, PushError};
use smt_terms::list::Arguments;
use smt_terms::node::{Node, Op};
use smt_terms::operator::Operator;
use smt_terms::sort::Sort;
use smt_terms::terms::Terms;
use std::alloc::{AllocError, Global};
use std::process::Abort;
use std::test::Fail;

// There are so many cubes over these variables.
fn are_leaves(
    rt: &(impl Abort + AllocGlobal),
    variables: &[u64],
    depth: u32,
    wanted: u32,
) -> Result<(), Fail>
    requires variables { AreVariables variables.now }
    requires depth { depth ≤ 10 }
{
    let tree = Tree::split(rt.alloc(), variables, depth)?;
    let leaves = tree.leaves();
    drop(tree);
    assert!(rt; leaves == wanted, "{leaves} at the depth {depth}");
    Ok(())
}

// The cube over the variables 5, 7 and 9 has these literals.
fn is_cube(
    rt: &(impl Abort + AllocGlobal),
    depth: u32,
    number: u32,
    expected: &[Lit],
) -> Result<(), Fail>
    requires { depth ≤ 10 }
{
    let tree = Tree::split(rt.alloc(), &[5, 7, 9], depth)?;
    let has = number < tree.leaves() && tree.cube(number) == expected;
    drop(tree);
    assert!(rt; has, "cube {number} at the depth {depth}");
    Ok(())
}

#[test]
fn there_are_two_cubes_for_each_variable_up_to_the_depth(rt: HostRuntime) -> Result<(), Fail> {
    are_leaves(&rt, &[5, 7], 0, 1)?;
    are_leaves(&rt, &[5, 7], 1, 2)?;
    are_leaves(&rt, &[5, 7], 10, 4)?;
    are_leaves(&rt, &[], 3, 1)
}

#[test]
fn cubes_count_in_binary_from_the_first_variable_on(rt: HostRuntime) -> Result<(), Fail> {
    let (a, b) = (Lit::new(5, true), Lit::new(7, true));
    is_cube(&rt, 0, 0, &[])?;
    is_cube(&rt, 1, 1, &[a.negated()])?;
    is_cube(&rt, 2, 1, &[a.negated(), b])?;
    is_cube(&rt, 3, 6, &[a, b.negated(), Lit::new(9, false)])
}

// A log, and the terms that it stands over.
#[derive(Drop)]
struct Check {
    log: Log,
    terms: Terms,
}

// A step is put; for want of memory, and where it is not valid, it is none.
fn put(check: &mut Check, alloc: Global, entry: Entry) -> Result<Pos, AllocError>
    requires stands { Stands check.old.terms.nodes check.old.log }
    requires declared { IsDeclared check.old.terms entry }
    ensures { Stands check.new.terms.nodes check.new.log }
{
    match check.log.try_push(alloc, &mut check.terms, entry) {
        Ok(at) => Ok(at),
        Err(PushError::Fault(_)) => Err(AllocError),
        Err(PushError::NoMemory) => Err(AllocError),
    }
}

// The terms p and (not p).
fn opposites(alloc: Global) -> Result<Terms, AllocError> {
    let opposite = Node {
        op: Op::Plain(Operator::Not),
        args: Arguments::of(alloc, &[0])?,
    };
    let op = Op::Constant {
        declaration: 0,
        sort: Sort::Bool,
    };
    let mut terms = Terms::new(alloc);
    let first = terms.make(Node::leaf(alloc, op));
    let second = terms.make(opposite);
    if first.is_err() || second.is_err() {
        drop(terms);
        return Err(AllocError);
    }
    Ok(terms)
}

// p and (not p) are asserted: p has the variable 2. The first clause of position 3 is -3 2, and that of position 4 is -4 -2.
fn contradict(check: &mut Check, alloc: Global) -> Result<(), AllocError>
    requires { Stands check.old.terms.nodes check.old.log }
    ensures { Stands check.new.terms.nodes check.new.log }
{
    put(check, alloc, Entry::Leaf(0))?;
    put(check, alloc, Entry::Encode(1))?;
    put(check, alloc, Entry::Selector(0, 0))?;
    put(check, alloc, Entry::Selector(1, 1))?;
    Ok(())
}

// The log over p and (not p) without a step.
fn begun(alloc: Global) -> Result<Check, AllocError>
    ensures { IfOk result (λ c. Stands c.terms.nodes c.log) }
{
    let log = Log::new(alloc)?;
    match opposites(alloc) {
        Ok(terms) => Ok(Check { log, terms }),
        Err(error) => {
            drop(log);
            Err(error)
        }
    }
}

fn are_there(log: &Log, places: &[Pos]) -> bool
    ensures { IsTrue result → HaveClauses (clause_at log.now.clauses) places.now }
{
    for place in places {
        if log
            .clause(ClauseId {
                pos: *place,
                part: 0,
            })
            .is_none()
        {
            return false;
        }
    }
    true
}

// The position of the clause that is joined over a tree from the clauses of these positions.
fn joined_over(
    check: &mut Check,
    alloc: Global,
    tree: &Tree,
    places: &[Pos],
) -> Result<Option<Pos>, AllocError>
    requires { Stands check.old.terms.nodes check.old.log }
    ensures { Stands check.new.terms.nodes check.new.log }
{
    let _terms = check.terms.len();
    if tree.leaves() as usize != places.len() || !are_there(&check.log, places) {
        return Ok(None);
    }
    Ok(Some(join(alloc, tree, &check.terms, &mut check.log, places)?))
}

// The same over these variables.
fn joined(
    check: &mut Check,
    alloc: Global,
    variables: &[u64],
    places: &[Pos],
) -> Result<Option<Pos>, AllocError>
    requires stands { Stands check.old.terms.nodes check.old.log }
    requires variables { AreVariables variables.now }
    ensures { Stands check.new.terms.nodes check.new.log }
{
    let tree = Tree::split(alloc, variables, 10)?;
    let at = joined_over(check, alloc, &tree, places);
    drop(tree);
    at
}

fn is_refutation(check: &Check, at: Pos) -> bool {
    let selectors = [Lit::new(4, false), Lit::new(3, false)];
    match check.log.clause(ClauseId { pos: at, part: 0 }) {
        Some(clause) => clause.literals() == selectors.as_slice(),
        None => false,
    }
}

// Whether the clauses of these positions are joined at this one, by a clause that both assertions are not true, and the
// log then has so many positions.
fn is_refuted(
    check: &mut Check,
    alloc: Global,
    variables: &[u64],
    places: &[Pos],
    at: Pos,
    positions: u64,
) -> Result<bool, AllocError>
    requires stands { Stands check.old.terms.nodes check.old.log }
    requires variables { AreVariables variables.now }
{
    contradict(check, alloc)?;
    let found = joined(check, alloc, variables, places)?;
    Ok(found == Some(at) && is_refutation(check, at) && check.log.len() == positions)
}

// It is so.
fn refute(
    rt: &(impl Abort + AllocGlobal),
    variables: &[u64],
    places: &[Pos],
    at: Pos,
    positions: u64,
) -> Result<(), Fail>
    requires { AreVariables variables.now }
{
    let mut check = begun(rt.alloc())?;
    let refuted = is_refuted(&mut check, rt.alloc(), variables, places, at, positions);
    drop(check);
    assert!(rt; refuted?, "the clauses of {places:?}");
    Ok(())
}

#[test]
fn clauses_of_two_and_of_four_cubes_are_resolved(rt: HostRuntime) -> Result<(), Fail> {
    refute(&rt, &[2], &[4, 3], 5, 6)?;
    refute(&rt, &[2, 9], &[4, 3, 4, 3], 5, 7)?;
    refute(&rt, &[9, 2], &[4, 4, 3, 3], 5, 6)
}

// A joining where no clause has the variable.
fn stay(rt: &(impl Abort + AllocGlobal), check: &mut Check) -> Result<(), Fail>
    requires { Stands check.old.terms.nodes check.old.log }
{
    let alloc = rt.alloc();
    contradict(check, alloc)?;
    assert!(rt; joined(check, alloc, &[], &[3])? == Some(3));
    assert!(rt; joined(check, alloc, &[9], &[3, 4])? == Some(3));
    assert!(rt; check.log.len() == 5);
    Ok(())
}

#[test]
fn a_clause_without_the_variable_stays_where_it_stands(rt: HostRuntime) -> Result<(), Fail> {
    let mut check = begun(rt.alloc())?;
    let stayed = stay(&rt, &mut check);
    drop(check);
    stayed
}
