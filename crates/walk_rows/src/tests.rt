//! All small terms over two arrays, and all assignments of their bits, with ample memory.
//!
//! Over two declared arrays of index width 1 and element width 1, two declared indexes, two declared
//! words and a declared Bool there are sixteen arrays with at most one operator. Of each two of them,
//! and of each with itself, the terms are the equality, the selects of both sides at both indexes,
//! and what is below them; each Bool and each word among these has bits of its own. All assignments
//! of these bits are enumerated. The terms over a declared function of one argument are three
//! applications, to two words and to a select, under all assignments too.

ghost use Rattle.std.specs.Prelude.{Contains};
ghost use Rattle.smt_terms.specs.Bits.{image_in};
ghost use Rattle.term_reach.specs.Reach.{IsReach};
ghost use Rattle.access_tables.specs.Leading.{leads};
ghost use Rattle.access_walk.specs.Searched.{IsPrepared};
ghost use Rattle.access_walk.specs.Walked.{IsWalkable};
ghost use Rattle.walk_rows.specs.Fitting.{AreUnlinked};

use crate::bridge::{model_of, reached_from};
use crate::fitting::{are_suited, is_ready, is_walkable};
use crate::own::{OwnBits, apply, apply_again, apply_first, declare};
use access_tables::table::AccessTable;
use access_walk::walking::{Prepared, Walked, Workspace, prepare, walk};
use bit_blast::Assignment;
use cnf_base::Lit;
use smt_eval::Values;
use smt_terms::bits::Bits;
use smt_terms::list::Sorts;
use smt_terms::node::{Op, TermId};
use smt_terms::operator::Operator;
use smt_terms::sort::{DeclId, Signature, Sort};
use smt_terms::terms::Terms;
use smt_values::interp::Interp;
use smt_values::value::Value;
use std::alloc::{AllocError, Global};
use std::test::Fail;
use term_reach::Reached;
use theory_lemmas::atoms::atoms_of;
use theory_terms::atom::Atom;
use theory_terms::lemma::Lemma;

const WORD: Sort = Sort::Word(1);

const ARRAY: Sort = Sort::Array(1, 1);

/// All assignments of so many variables can be enumerated.
const MOST_VARIABLES: u64 = 30;

/// The condition of each choice.
const CONDITION: DeclId = 6;

/// The function that is applied.
const FUNCTION: DeclId = 7;

/// An array, over the declared arrays 0 and 1, indexes 2 and 3, and elements 4 and 5.
#[derive(Clone, Copy)]
enum Form {
    Declared(DeclId),
    Stored(DeclId, DeclId, DeclId),
    Chosen(DeclId, DeclId),
    Filled(DeclId),
}

/// The arrays of one operator at most.
const FORMS: [Form; 16] = [
    Form::Declared(0),
    Form::Declared(1),
    Form::Stored(0, 2, 4),
    Form::Stored(0, 2, 5),
    Form::Stored(0, 3, 4),
    Form::Stored(0, 3, 5),
    Form::Stored(1, 2, 4),
    Form::Stored(1, 2, 5),
    Form::Stored(1, 3, 4),
    Form::Stored(1, 3, 5),
    Form::Chosen(0, 0),
    Form::Chosen(0, 1),
    Form::Chosen(1, 0),
    Form::Chosen(1, 1),
    Form::Filled(4),
    Form::Filled(5),
];

/// What a walk answered, and whether it was right.
#[derive(Clone, Copy, Debug, PartialEq, Eq)]
enum Outcome {
    Table,
    Conflicts,
    Wrong,
}

/// How often each came.
#[derive(Clone, Copy, Debug)]
struct Tally {
    tables: u32,
    conflicts: u32,
    wrong: u32,
}

const NONE: Tally = Tally {
    tables: 0,
    conflicts: 0,
    wrong: 0,
};

fn array_of(alloc: Global, terms: &mut Terms, form: Form) -> Option<TermId> {
    match form {
        Form::Declared(array) => declare(alloc, terms, array, ARRAY),
        Form::Stored(array, index, element) => {
            let array = declare(alloc, terms, array, ARRAY)?;
            let index = declare(alloc, terms, index, WORD)?;
            let element = declare(alloc, terms, element, WORD)?;
            let op = Op::Plain(Operator::Store);
            apply(alloc, terms, op, &[array, index, element])
        }
        Form::Chosen(yes, no) => {
            let condition = declare(alloc, terms, CONDITION, Sort::Bool)?;
            let yes = declare(alloc, terms, yes, ARRAY)?;
            let no = declare(alloc, terms, no, ARRAY)?;
            apply(
                alloc,
                terms,
                Op::Plain(Operator::Ite),
                &[condition, yes, no],
            )
        }
        Form::Filled(element) => {
            let element = declare(alloc, terms, element, WORD)?;
            apply(alloc, terms, Op::Word { width: 1, value: 0 }, &[])?;
            apply(alloc, terms, Op::Word { width: 1, value: 1 }, &[])?;
            apply(alloc, terms, Op::ConstantArray(1), &[element])
        }
    }
}

/// An equality of two arrays with its selects, and the selects of each at both indexes.
fn roots_of(alloc: Global, terms: &mut Terms, left: Form, right: Form) -> Option<[TermId; 5]> {
    let left = array_of(alloc, terms, left)?;
    let right = array_of(alloc, terms, right)?;
    let equality = apply(alloc, terms, Op::Plain(Operator::Equal), &[left, right])?;
    let witness = apply(alloc, terms, Op::Plain(Operator::Witness), &[left, right])?;
    apply(alloc, terms, Op::Plain(Operator::Select), &[left, witness])?;
    apply(alloc, terms, Op::Plain(Operator::Select), &[right, witness])?;
    let first = declare(alloc, terms, 2, WORD)?;
    let second = declare(alloc, terms, 3, WORD)?;
    Some([
        equality,
        apply(alloc, terms, Op::Plain(Operator::Select), &[left, first])?,
        apply(alloc, terms, Op::Plain(Operator::Select), &[left, second])?,
        apply(alloc, terms, Op::Plain(Operator::Select), &[right, first])?,
        apply(alloc, terms, Op::Plain(Operator::Select), &[right, second])?,
    ])
}

/// A function from words to words, applied.
fn function(alloc: Global) -> Option<Op> {
    let signature = Signature {
        args: Sorts::of(alloc, &[WORD]).ok()?,
        value: WORD,
    };
    Some(Op::Apply {
        declaration: FUNCTION,
        signature,
    })
}

/// Applications of one function to two words and to a select.
fn calls_of(alloc: Global, terms: &mut Terms) -> Option<[TermId; 3]> {
    let array = declare(alloc, terms, 0, ARRAY)?;
    let first = declare(alloc, terms, 2, WORD)?;
    let second = declare(alloc, terms, 3, WORD)?;
    let read = apply(alloc, terms, Op::Plain(Operator::Select), &[array, first])?;
    let op = function(alloc)?;
    let call = apply_first(alloc, terms, op, &[first])?;
    let op = function(alloc)?;
    let other = apply_again(alloc, terms, call, op, &[second])?;
    let op = function(alloc)?;
    Some([call, other, apply_again(alloc, terms, call, op, &[read])?])
}

/// Gives each Bool and each word a bit; answers how many variables there are then, the first of
/// which is true. More than are enumerated are told as want of memory.
fn give_bits(terms: &Terms, own: &mut OwnBits) -> Result<u64, AllocError> {
    let mut variables: u64 = 1;
    for term in 0..terms.len() {
        match (terms.sort(term), &terms.node(term).op) {
            (Sort::Array(..), _) => {}
            (_, Op::Word { value, .. }) => {
                own.give(term, &[if *value == 1 { Lit::TRUE } else { Lit::FALSE }])?;
            }
            _ => {
                if variables >= MOST_VARIABLES {
                    return Err(AllocError);
                }
                variables += 1;
                own.give(term, &[Lit::new(variables, true)])?;
            }
        }
    }
    Ok(variables)
}

/// The assignment of these variables that has this number.
fn assignment_of(alloc: Global, variables: u64, number: u32) -> Result<Assignment, AllocError> {
    let mut values = Vec::new(alloc);
    values.push(true)?;
    let mut rest = number;
    for _variable in 1..variables {
        values.push(rest % 2 == 1)?;
        rest /= 2;
    }
    Ok(Assignment::new(values))
}

fn is_bit_true(bits: &Bits, assignment: &Assignment, term: TermId) -> bool {
    match bits.of(term) {
        Some(row) => !row.is_empty() && assignment.value(row[0]),
        None => false,
    }
}

fn is_atom_true(bits: &Bits, assignment: &Assignment, atom: Atom) -> bool {
    let holds = |term| is_bit_true(bits, assignment, term);
    match atom {
        Atom::Same(left, right) => holds(left) == holds(right),
        Atom::Differ(left, right) => holds(left) != holds(right),
        Atom::Holds(term) => holds(term),
        Atom::Fails(term) => !holds(term),
    }
}

/// Whether nothing that a lemma says is true.
fn is_false(
    alloc: Global,
    terms: &Terms,
    bits: &Bits,
    assignment: &Assignment,
    lemma: &Lemma,
) -> Result<bool, AllocError> {
    let Some(atoms) = atoms_of(alloc, terms, lemma)? else {
        return Ok(false);
    };
    for atom in &atoms {
        if is_atom_true(bits, assignment, *atom) {
            return Ok(false);
        }
    }
    Ok(true)
}

/// Whether there are lemmas, and all are false.
fn are_false(
    alloc: Global,
    terms: &Terms,
    bits: &Bits,
    assignment: &Assignment,
    lemmas: &[Lemma],
) -> Result<bool, AllocError> {
    for lemma in lemmas {
        if !is_false(alloc, terms, bits, assignment, lemma)? {
            return Ok(false);
        }
    }
    Ok(!lemmas.is_empty())
}

/// Of each term, whether a witness stands in it.
fn witnessed(alloc: Global, terms: &Terms) -> Result<Vec<bool>, AllocError> {
    let mut found: Vec<bool> = Vec::new(alloc);
    for term in 0..terms.len() {
        let node = terms.node(term);
        let mut has = matches!(node.op, Op::Plain(Operator::Witness));
        for arg in node.args.as_slice() {
            if found.get(*arg as usize) == Some(&true) {
                has = true;
            }
        }
        found.push(has)?;
    }
    Ok(found)
}

fn is_worth(value: &Value, bit: bool) -> bool {
    match value {
        Value::Bool(truth) => *truth == bit,
        Value::Word(word) => word.value() == u128::from(bit),
        Value::Array(_) => true,
        Value::Fun(_) => false,
    }
}

/// Whether each term of a table in which no witness stands has the value of its bits.
fn has_values(
    alloc: Global,
    terms: &Terms,
    bits: &Bits,
    assignment: &Assignment,
    table: &AccessTable,
    interp: &Interp,
) -> Result<bool, AllocError> {
    if !are_suited(terms, interp) {
        return Ok(false);
    }
    let values = Values::of(alloc, terms, interp)?;
    let passed = witnessed(alloc, terms)?;
    let mut all = !table.terms().is_empty();
    for term in table.terms() {
        let free = passed.get(*term as usize) == Some(&false);
        let bit = is_bit_true(bits, assignment, *term);
        if free && *term < terms.len() && !is_worth(values.get(*term), bit) {
            all = false;
        }
    }
    drop(values);
    Ok(all)
}

fn outcome_at(
    alloc: Global,
    terms: &Terms,
    bits: &Bits,
    assignment: &Assignment,
    live: &[TermId],
    reached: &Reached,
    prepared: &Prepared,
    workspace: &mut Workspace,
) -> Result<Outcome, AllocError>
    requires unlinked { AreUnlinked bits.now }
    requires walkable { IsWalkable terms.now.nodes bits.now live.now }
    requires reach { IsReach (leads terms.now.nodes (image_in bits.now)) live.now reached.now }
    requires prepared { IsPrepared terms.now.nodes bits.now reached.now prepared.now }
{
    if !is_ready(terms, bits, assignment) {
        return Ok(Outcome::Wrong);
    }
    let right = match walk(
        alloc, terms, bits, assignment, live, reached, prepared, workspace,
    )? {
        Walked::Table(table) => {
            let interp = model_of(alloc, terms, bits, assignment, live, &table)?;
            let has = has_values(alloc, terms, bits, assignment, &table, &interp)?;
            return Ok(if has { Outcome::Table } else { Outcome::Wrong });
        }
        Walked::Conflicts(found) => {
            are_false(alloc, terms, bits, assignment, found.falses.as_slice())?
        }
    };
    Ok(if right {
        Outcome::Conflicts
    } else {
        Outcome::Wrong
    })
}

/// Walks under all assignments of these variables.
fn walk_all(
    alloc: Global,
    terms: &Terms,
    bits: &Bits,
    live: &[TermId],
    variables: u64,
    tally: &mut Tally,
) -> Result<(), AllocError>
    requires unlinked { AreUnlinked bits.now }
{
    if !is_walkable(alloc, terms, bits, live)? {
        tally.wrong = tally.wrong.saturating_add(1);
        return Ok(());
    }
    let reached = reached_from(alloc, terms, bits, live)?;
    let prepared = prepare(alloc, terms, bits, live, &reached)?;
    let mut workspace = Workspace::new(alloc);
    let mut count: u32 = 1;
    for _variable in 1..variables {
        count = count.saturating_mul(2);
    }
    for number in 0..count {
        let assignment = assignment_of(alloc, variables, number)?;
        let outcome = outcome_at(
            alloc,
            terms,
            bits,
            &assignment,
            live,
            &reached,
            &prepared,
            &mut workspace,
        )?;
        match outcome {
            Outcome::Table => tally.tables = tally.tables.saturating_add(1),
            Outcome::Conflicts => tally.conflicts = tally.conflicts.saturating_add(1),
            Outcome::Wrong => tally.wrong = tally.wrong.saturating_add(1),
        }
    }
    Ok(())
}

/// Walks over two arrays.
fn walk_over(alloc: Global, left: Form, right: Form, tally: &mut Tally) -> Result<(), AllocError> {
    let mut terms = Terms::new(alloc);
    let mut own = OwnBits::new(alloc);
    let Some(live) = roots_of(alloc, &mut terms, left, right) else {
        tally.wrong = tally.wrong.saturating_add(1);
        return Ok(());
    };
    let variables = give_bits(&terms, &mut own)?;
    walk_all(alloc, &terms, own.bits(), &live, variables, tally)
}

/// Walks over each of these arrays and itself and each later one, of all.
fn walk_pairs(alloc: Global, from: usize, to: usize) -> Result<Tally, AllocError> {
    let mut tally = NONE;
    for place in from..to.min(FORMS.len()) {
        for other in place..FORMS.len() {
            walk_over(alloc, FORMS[place], FORMS[other], &mut tally)?;
        }
    }
    Ok(tally)
}

/// Walks over applications.
fn walk_calls(alloc: Global) -> Result<Tally, AllocError> {
    let mut tally = NONE;
    let mut terms = Terms::new(alloc);
    let mut own = OwnBits::new(alloc);
    let Some(live) = calls_of(alloc, &mut terms) else {
        return Ok(tally);
    };
    let variables = give_bits(&terms, &mut own)?;
    walk_all(alloc, &terms, own.bits(), &live, variables, &mut tally)?;
    Ok(tally)
}

#[test]
fn walks_over_declared_arrays(rt: HostRuntime) -> Result<(), Fail> {
    let tally = walk_pairs(rt.alloc(), 0, 2)?;
    assert!(rt; tally.wrong == 0 && tally.tables > 0 && tally.conflicts > 0);
    Ok(())
}

#[test]
fn walks_over_stores(rt: HostRuntime) -> Result<(), Fail> {
    let tally = walk_pairs(rt.alloc(), 2, 10)?;
    assert!(rt; tally.wrong == 0 && tally.tables > 0 && tally.conflicts > 0);
    Ok(())
}

#[test]
fn walks_over_choices_and_constant_arrays(rt: HostRuntime) -> Result<(), Fail> {
    let tally = walk_pairs(rt.alloc(), 10, 16)?;
    assert!(rt; tally.wrong == 0 && tally.tables > 0 && tally.conflicts > 0);
    Ok(())
}

#[test]
fn walks_over_applications(rt: HostRuntime) -> Result<(), Fail> {
    let tally = walk_calls(rt.alloc())?;
    assert!(rt; tally.wrong == 0 && tally.tables > 0 && tally.conflicts > 0);
    Ok(())
}
