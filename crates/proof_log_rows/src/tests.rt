//! Worked proofs, with ample memory. Each test is a table of steps that are tried, and of what is then seen of the log.

ghost use Rattle.std.specs.Prelude.{◌≡◌, ◌^◌, [], ◌∷◌, IfOk, OnOk};
ghost use Rattle.smt_terms.specs.declared.node.Op.TheVariants.{Plain};
ghost use Rattle.smt_terms.specs.Nodes.{leaf};
ghost use Rattle.smt_terms.specs.Terms.{TermsValue, no_terms, with_node};
ghost use Rattle.proof_log.specs.declared.entry.Entry.TheVariants as step;
ghost use Rattle.proof_log.specs.Stored.{Stands};
ghost use Rattle.proof_log.specs.Faults.{IsDeclared};

use cnf_base::{Clause, ClauseId, Lit, Pos};
use hint_chain::{ChainFault, FaultKind};
use proof_log::entry::{AssertId, Entry, Hints, RuleUse};
use proof_log::{Kept, Log, PushError, StepFault, StepKind};
use smt_terms::list::Arguments;
use smt_terms::node::{Node, Op, TermId};
use smt_terms::operator::Operator;
use smt_terms::sort::Sort;
use smt_terms::terms::Terms;
use std::alloc::{AllocError, Global};
use std::process::Abort;
use std::test::Fail;
use theory_lemmas::clauses::Equalities;
use theory_lemmas::fault::LemmaFault;
use theory_terms::lemma::{Access, Lemma, Path, Start};

// A log, and the terms that it stands over.
#[derive(Drop)]
pub(crate) struct Proof {
    pub(crate) log: Log,
    pub(crate) terms: Terms,
}

// No step yet, over one term.
pub(crate) fn begun(alloc: Global, op: Op) -> Result<Proof, AllocError>
    ensures { IfOk result (λ p. Stands p.terms.nodes p.log) }
{
    let mut terms = Terms::new(alloc);
    let made = terms.make(Node::leaf(alloc, op));
    match (made, Log::new(alloc)) {
        (Ok(_), Ok(log)) => Ok(Proof { log, terms }),
        (_, log) => {
            drop((log, terms));
            Err(AllocError)
        }
    }
}

// A step is tried; for want of memory it is no step.
pub(crate) fn answer(
    proof: &mut Proof,
    alloc: Global,
    entry: Entry,
) -> Result<Result<Pos, StepFault>, AllocError>
    requires stands { Stands proof.old.terms.nodes proof.old.log }
    requires declared { IsDeclared proof.old.terms entry }
    ensures { Stands proof.new.terms.nodes proof.new.log }
{
    match proof.log.try_push(alloc, &mut proof.terms, entry) {
        Ok(at) => Ok(Ok(at)),
        Err(PushError::Fault(fault)) => Ok(Err(fault)),
        Err(PushError::NoMemory) => Err(AllocError),
    }
}

// A step.
#[derive(Clone, Copy)]
pub(crate) enum Given {
    // The term true.
    True,
    // The term of an operator over these.
    Over(Operator, &'static [TermId]),
    // The array with indexes of one bit that is this term everywhere.
    Filled(TermId),
    Leaf(TermId),
    Encode(TermId),
    Selector(AssertId, TermId),
    // The clause that variable 2 is false, by these hints.
    Refuted(&'static [ClauseId]),
    // The rule of this number takes the first term to the second.
    Rewrite(u8, TermId, TermId),
    Equal(TermId, TermId),
    // That two applications of a declaration to equal arguments are equal.
    Congruence(TermId, TermId),
    // That the element of this constant array at this index is what this select of it is.
    Filling(TermId, TermId, TermId),
}

// What is seen of a log. A literal is its variable, and whether it is positive.
#[derive(Clone, Copy)]
enum Seen {
    // The clause of a name, if there is one.
    Clause(ClauseId, Option<&'static [(u64, bool)]>),
    // The step at this position makes the term of an operator over these terms, whose number is the last.
    Node(Pos, Operator, &'static [TermId], TermId),
    // The step at this position is the circuit of this term.
    Encode(Pos, TermId),
    // The literal of an assertion.
    Selector(AssertId, (u64, bool)),
    StepOf(TermId, Option<Pos>),
    SelectorStepOf(AssertId, Option<Pos>),
    // The next variable.
    Next(u64),
    // The term whose bits a term was given, if it was given those of one.
    Image(TermId, Option<TermId>),
    // The bits of a term.
    Bits(TermId, &'static [(u64, bool)]),
    // The variable of the equality of these terms, which is positive, and the position of its step, if it has one.
    Equal(TermId, TermId, Option<(u64, Pos)>),
    // So many positions, over so many terms.
    Counts(u64, u32),
}

#[derive(Clone, Copy)]
enum Step {
    // A step that is tried gets this position, or has this fault.
    Try(Given, Result<Pos, StepFault>),
    See(Seen),
}

pub(crate) fn is_literal(literal: Lit, parts: (u64, bool)) -> bool {
    literal.variable() == parts.0 && literal.is_positive() == parts.1
}

fn are_literals(literals: &[Lit], parts: &[(u64, bool)]) -> bool {
    if literals.len() != parts.len() {
        return false;
    }
    for i in 0..literals.len() {
        if !is_literal(literals[i], parts[i]) {
            return false;
        }
    }
    true
}

fn has_clause(log: &Log, id: ClauseId, parts: Option<&[(u64, bool)]>) -> bool {
    match (log.clause(id), parts) {
        (Some(clause), Some(parts)) => are_literals(clause.literals(), parts),
        (None, None) => true,
        _ => false,
    }
}

fn is_encoded(log: &Log, at: Pos, term: TermId) -> bool {
    match log.entry(at) {
        Some(Entry::Encode(encoded)) => *encoded == term,
        _ => false,
    }
}

fn has_selector(log: &Log, assertion: AssertId, parts: (u64, bool)) -> bool {
    match log.selector(assertion) {
        Some(literal) => is_literal(literal, parts),
        None => false,
    }
}

fn has_bits(log: &Log, term: TermId, parts: &[(u64, bool)]) -> bool {
    match log.bits().of(term) {
        Some(bits) => are_literals(bits, parts),
        None => false,
    }
}

fn has_equal(log: &Log, lower: TermId, upper: TermId, parts: Option<(u64, Pos)>) -> bool {
    let equals = log.equals();
    match (equals.of(lower, upper), parts) {
        (Some(literal), Some((variable, place))) => {
            is_literal(literal, (variable, true)) && equals.place_of(lower, upper) == Some(place)
        }
        (None, None) => equals.place_of(lower, upper).is_none(),
        _ => false,
    }
}

fn is_plain(op: &Op, operator: Operator) -> bool {
    match op {
        Op::Plain(held) => *held == operator,
        _ => false,
    }
}

fn has_node(proof: &Proof, at: Pos, operator: Operator, args: &[TermId], term: TermId) -> bool {
    match proof.log.entry(at) {
        Some(Entry::Node(node)) => {
            is_plain(&node.op, operator)
                && node.args.as_slice() == args
                && proof.terms.find(node) == Some(term)
        }
        _ => false,
    }
}

fn is_seen(proof: &Proof, seen: Seen) -> bool {
    let log = &proof.log;
    match seen {
        Seen::Node(at, operator, args, term) => has_node(proof, at, operator, args, term),
        Seen::Clause(id, parts) => has_clause(log, id, parts),
        Seen::Encode(at, term) => is_encoded(log, at, term),
        Seen::Selector(assertion, parts) => has_selector(log, assertion, parts),
        Seen::StepOf(term, at) => log.step_of(term) == at,
        Seen::SelectorStepOf(assertion, at) => log.selector_step_of(assertion) == at,
        Seen::Next(next) => log.next() == next,
        Seen::Image(term, image) => log.bits().image(term) == image,
        Seen::Bits(term, parts) => has_bits(log, term, parts),
        Seen::Equal(lower, upper, parts) => has_equal(log, lower, upper, parts),
        Seen::Counts(positions, terms) => log.len() == positions && log.over() == terms,
    }
}

// The clause that variable 2 is false, by these hints.
fn refuted(alloc: Global, hints: &[ClauseId]) -> Result<Entry, AllocError>
    ensures { IfOk result (λ e. (v : TermsValue) → IsDeclared v e) }
{
    let hints = Hints::of(alloc, hints)?;
    let clause = Clause::of_one(alloc, Lit::new(2, false))?;
    Ok(Entry::Chain(clause, hints))
}

// An access without a move.
fn access(alloc: Global, start: Start) -> Access {
    Access {
        start,
        path: Path::none(alloc),
    }
}

pub(crate) fn entry_of(alloc: Global, given: Given) -> Result<Entry, AllocError>
    ensures { IfOk result (λ e. (v : TermsValue) → IsDeclared v e) }
{
    match given {
        Given::True => Ok(Entry::Node(Node::leaf(alloc, Op::Plain(Operator::True)))),
        Given::Over(operator, args) => Ok(Entry::Node(Node {
            op: Op::Plain(operator),
            args: Arguments::of(alloc, args)?,
        })),
        Given::Filled(term) => Ok(Entry::Node(Node {
            op: Op::ConstantArray(1),
            args: Arguments::of(alloc, &[term])?,
        })),
        Given::Leaf(term) => Ok(Entry::Leaf(term)),
        Given::Encode(term) => Ok(Entry::Encode(term)),
        Given::Selector(assertion, term) => Ok(Entry::Selector(assertion, term)),
        Given::Refuted(hints) => refuted(alloc, hints),
        Given::Rewrite(rule, from, to) => Ok(Entry::Rewrite(RuleUse { rule, from, to })),
        Given::Equal(first, second) => Ok(Entry::Equal(first, second)),
        Given::Congruence(first, second) => { Ok(Entry::Lemma(Lemma::Congruence(first, second))) }
        Given::Filling(array, index, select) => Ok(Entry::Lemma(Lemma::Arrays(
            access(alloc, Start::Const(array, index)),
            access(alloc, Start::Term(select)),
        ))),
    }
}

// Whether the proof does the step.
fn is_done(proof: &mut Proof, alloc: Global, step: Step) -> Result<bool, AllocError>
    requires { Stands proof.old.terms.nodes proof.old.log }
    ensures { Stands proof.new.terms.nodes proof.new.log }
{
    match step {
        Step::Try(given, wanted) => {
            let entry = entry_of(alloc, given)?;
            Ok(answer(proof, alloc, entry)? == wanted)
        }
        Step::See(seen) => Ok(is_seen(proof, seen)),
    }
}

// The number of the first step that the proof does not do, counted from 0.
fn first_not_done(
    proof: &mut Proof,
    alloc: Global,
    steps: &[Step],
) -> Result<Option<usize>, AllocError>
    requires { Stands proof.old.terms.nodes proof.old.log }
{
    for at in 0..steps.len() {
        if !is_done(proof, alloc, steps[at])? {
            return Ok(Some(at));
        }
    }
    Ok(None)
}

// Fails where a step was not done.
fn tell(rt: &impl Abort, failed: Option<usize>) -> Result<(), Fail> {
    if let Some(at) = failed {
        panic!(rt; "step {at}");
    }
    Ok(())
}

// A proof that begins with one term does each of the steps.
fn walk(rt: &(impl Abort + AllocGlobal), op: Op, steps: &[Step]) -> Result<(), Fail> {
    let mut proof = begun(rt.alloc(), op)?;
    let failed = first_not_done(&mut proof, rt.alloc(), steps);
    drop(proof);
    tell(rt, failed?)
}

fn fault(kind: StepKind, kept: Kept) -> Result<Pos, StepFault> {
    Err(StepFault { kind, kept })
}

const TRUE: ClauseId = ClauseId { pos: 0, part: 0 };

const IMPLIED: ClauseId = ClauseId { pos: 2, part: 0 };

#[test]
fn a_proof_that_false_is_refuted(rt: HostRuntime) -> Result<(), Fail> {
    let loose = ChainFault {
        hint: 0,
        kind: FaultKind::Loose,
    };
    walk(
        &rt,
        Op::Plain(Operator::False),
        &[
            Step::Try(Given::Encode(0), Ok(1)),
            Step::Try(Given::Selector(0, 0), Ok(2)),
            Step::Try(
                Given::Refuted(&[IMPLIED]),
                fault(StepKind::Chain, Kept::Chain(loose)),
            ),
            Step::Try(Given::Refuted(&[TRUE, IMPLIED]), Ok(3)),
        ],
    )
}

#[test]
fn clauses_are_found_by_position_and_part(rt: HostRuntime) -> Result<(), Fail> {
    walk(
        &rt,
        Op::Plain(Operator::False),
        &[
            Step::Try(Given::Encode(0), Ok(1)),
            Step::Try(Given::Selector(0, 0), Ok(2)),
            Step::See(Seen::Clause(IMPLIED, Some(&[(2, false), (1, false)]))),
            Step::See(Seen::Clause(ClauseId { pos: 2, part: 1 }, None)),
            Step::See(Seen::Encode(1, 0)),
            Step::See(Seen::Selector(0, (2, true))),
            Step::See(Seen::StepOf(0, Some(1))),
            Step::See(Seen::SelectorStepOf(0, Some(2))),
            Step::See(Seen::SelectorStepOf(1, None)),
        ],
    )
}

#[test]
fn a_refused_step_shows_its_term(rt: HostRuntime) -> Result<(), Fail> {
    walk(
        &rt,
        Op::Plain(Operator::True),
        &[
            Step::Try(Given::Leaf(0), fault(StepKind::Leaf, Kept::Term(0))),
            Step::Try(
                Given::Selector(5, 0),
                fault(StepKind::Selector, Kept::Term(0)),
            ),
            Step::Try(Given::True, fault(StepKind::Node, Kept::Term(0))),
        ],
    )
}

#[test]
fn a_rule_gives_a_term_the_bits_of_another(rt: HostRuntime) -> Result<(), Fail> {
    let unmatched = fault(StepKind::Rewrite, Kept::Terms(2, 0));
    let constant = Op::Constant {
        declaration: 0,
        sort: Sort::Bool,
    };
    walk(
        &rt,
        constant,
        &[
            Step::Try(Given::Over(Operator::Not, &[0]), Ok(1)),
            Step::Try(Given::Over(Operator::Not, &[1]), Ok(2)),
            Step::Try(Given::Over(Operator::And, &[2, 1]), Ok(3)),
            Step::Try(Given::Over(Operator::And, &[0, 1]), Ok(4)),
            Step::Try(
                Given::Rewrite(0, 2, 0),
                fault(StepKind::Rewrite, Kept::NoRule(0)),
            ),
            Step::Try(
                Given::Rewrite(41, 2, 0),
                fault(StepKind::Rewrite, Kept::NoRule(41)),
            ),
            Step::Try(Given::Rewrite(1, 2, 0), unmatched),
            Step::Try(Given::Rewrite(34, 2, 0), unmatched),
            Step::Try(
                Given::Rewrite(35, 2, 9),
                fault(StepKind::Rewrite, Kept::Terms(2, 9)),
            ),
            // The term from which the rule leads is not yet rewritten, and the one to which it leads has no bits.
            Step::Try(
                Given::Rewrite(40, 3, 4),
                fault(StepKind::Rewrite, Kept::Terms(3, 4)),
            ),
            Step::Try(
                Given::Rewrite(35, 2, 0),
                fault(StepKind::Rewrite, Kept::Term(0)),
            ),
            Step::Try(Given::Leaf(0), Ok(5)),
            Step::Try(Given::Rewrite(35, 2, 0), Ok(6)),
            Step::See(Seen::Bits(2, &[(2, true)])),
            Step::See(Seen::Image(2, Some(0))),
            Step::See(Seen::Image(0, None)),
            Step::See(Seen::StepOf(2, Some(6))),
            Step::See(Seen::Next(3)),
            Step::See(Seen::Clause(ClauseId { pos: 6, part: 0 }, None)),
            Step::Try(
                Given::Rewrite(35, 2, 0),
                fault(StepKind::Rewrite, Kept::Term(2)),
            ),
            Step::Try(Given::Encode(1), Ok(7)),
            Step::Try(Given::Encode(4), Ok(8)),
            // By the image of its first argument.
            Step::Try(Given::Rewrite(40, 3, 4), Ok(9)),
            Step::See(Seen::Bits(3, &[(3, true)])),
            Step::See(Seen::Counts(10, 5)),
        ],
    )
}

const SHAPE: Kept = Kept::Lemma(LemmaFault::Shape);

#[test]
fn two_terms_with_bits_have_one_equality(rt: HostRuntime) -> Result<(), Fail> {
    let constant = Op::Constant {
        declaration: 0,
        sort: Sort::Bool,
    };
    walk(
        &rt,
        constant,
        &[
            Step::Try(Given::True, Ok(1)),
            Step::Try(Given::Leaf(0), Ok(2)),
            Step::Try(
                Given::Equal(0, 1),
                fault(StepKind::Equal, Kept::Terms(0, 1)),
            ),
            Step::Try(Given::Encode(1), Ok(3)),
            Step::Try(
                Given::Equal(1, 0),
                fault(StepKind::Equal, Kept::Terms(1, 0)),
            ),
            Step::Try(
                Given::Equal(0, 0),
                fault(StepKind::Equal, Kept::Terms(0, 0)),
            ),
            Step::Try(
                Given::Equal(0, 2),
                fault(StepKind::Equal, Kept::Terms(0, 2)),
            ),
            Step::See(Seen::Equal(0, 1, None)),
            Step::Try(Given::Equal(0, 1), Ok(4)),
            Step::See(Seen::Equal(0, 1, Some((4, 4)))),
            Step::See(Seen::Next(5)),
            Step::See(Seen::Counts(5, 2)),
            Step::See(Seen::Clause(
                ClauseId { pos: 4, part: 0 },
                Some(&[(3, false), (2, true), (1, true)]),
            )),
            Step::Try(
                Given::Equal(0, 1),
                fault(StepKind::Equal, Kept::Variable(4)),
            ),
            Step::Try(Given::Congruence(0, 1), fault(StepKind::Lemma, SHAPE)),
        ],
    )
}

#[test]
fn elements_of_arrays_are_leaves_and_have_lemmas(rt: HostRuntime) -> Result<(), Fail> {
    let constant = Op::Constant {
        declaration: 0,
        sort: Sort::Word(1),
    };
    let unequal = Kept::Lemma(LemmaFault::NoEqual(0, 2));
    walk(
        &rt,
        constant,
        &[
            Step::Try(Given::Filled(0), Ok(1)),
            Step::Try(Given::Over(Operator::Select, &[1, 0]), Ok(2)),
            Step::Try(Given::Over(Operator::Equal, &[1, 1]), Ok(3)),
            Step::Try(Given::Leaf(0), Ok(4)),
            Step::Try(Given::Leaf(1), fault(StepKind::Leaf, Kept::Term(1))),
            Step::Try(Given::Leaf(2), Ok(5)),
            Step::Try(Given::Encode(3), fault(StepKind::Encode, Kept::Term(3))),
            Step::Try(Given::Leaf(3), Ok(6)),
            Step::See(Seen::Bits(3, &[(4, true)])),
            Step::Try(
                Given::Equal(1, 1),
                fault(StepKind::Equal, Kept::Terms(1, 1)),
            ),
            Step::Try(
                Given::Equal(0, 3),
                fault(StepKind::Equal, Kept::Terms(0, 3)),
            ),
            Step::Try(Given::Filling(1, 0, 2), fault(StepKind::Lemma, unequal)),
            Step::Try(Given::Filling(1, 3, 2), fault(StepKind::Lemma, SHAPE)),
            Step::Try(Given::Equal(0, 2), Ok(7)),
            Step::See(Seen::Equal(0, 2, Some((6, 7)))),
            Step::Try(Given::Filling(1, 0, 2), Ok(8)),
            Step::See(Seen::Clause(ClauseId { pos: 8, part: 0 }, Some(&[(1, false), (6, true)]))),
            Step::See(Seen::Next(7)),
        ],
    )
}

#[test]
fn a_leaf_has_a_variable_for_each_bit(rt: HostRuntime) -> Result<(), Fail> {
    let constant = Op::Constant {
        declaration: 0,
        sort: Sort::Word(3),
    };
    walk(
        &rt,
        constant,
        &[
            Step::Try(Given::Leaf(0), Ok(1)),
            Step::See(Seen::Next(5)),
            Step::See(Seen::Bits(0, &[(2, true), (3, true), (4, true)])),
        ],
    )
}

// The first step on no terms: the term true is put. Gives its position.
fn put_true(proof: &mut Proof, alloc: Global) -> Result<Pos, AllocError>
    requires stands { Stands proof.old.terms.nodes proof.old.log }
    requires terms { proof.old.terms ≡ no_terms (2 ^ 24) }
    requires steps { proof.old.log.entries ≡ [] }
    ensures stands { Stands proof.new.terms.nodes proof.new.log }
    ensures terms { OnOk result
        (proof.new.terms ≡ with_node (no_terms (2 ^ 24)) (leaf (Plain Operator.True))) }
    ensures steps { OnOk result (proof.new.log.entries ≡ step.Node (leaf (Plain Operator.True))
        ∷ []) }
{
    let node = Node::leaf(alloc, Op::Plain(Operator::True));
    proof.log.push_node(alloc, &mut proof.terms, node)
}

// The terms true and (not true) are put. Gives their positions.
fn put_nodes(proof: &mut Proof, alloc: Global) -> Result<(Pos, Pos), AllocError>
    requires stands { Stands proof.old.terms.nodes proof.old.log }
    requires terms { proof.old.terms ≡ no_terms (2 ^ 24) }
    requires steps { proof.old.log.entries ≡ [] }
    ensures { Stands proof.new.terms.nodes proof.new.log }
{
    let node = Node {
        op: Op::Plain(Operator::Not),
        args: Arguments::of(alloc, &[0])?,
    };
    match put_true(proof, alloc) {
        Ok(first) => Ok((first, proof.log.push_node(alloc, &mut proof.terms, node)?)),
        Err(error) => {
            drop(node);
            Err(error)
        }
    }
}

// The term true is put, then its circuit, then the selector of its assertion. Gives the positions of these two.
fn put_assertion(proof: &mut Proof, alloc: Global) -> Result<(Pos, Pos), AllocError>
    requires stands { Stands proof.old.terms.nodes proof.old.log }
    requires terms { proof.old.terms ≡ no_terms (2 ^ 24) }
    requires steps { proof.old.log.entries ≡ [] }
    ensures { Stands proof.new.terms.nodes proof.new.log }
{
    let _first = put_true(proof, alloc)?;
    let second = proof.log.push(alloc, &proof.terms, Entry::Encode(0))?;
    let third = proof.log.push(alloc, &proof.terms, Entry::Selector(0, 0))?;
    Ok((second, third))
}

// No step yet, over no terms.
fn blank(alloc: Global) -> Result<Proof, AllocError>
    ensures stands { IfOk result (λ p. Stands p.terms.nodes p.log) }
    ensures terms { IfOk result (λ p. p.terms ≡ no_terms (2 ^ 24)) }
    ensures steps { IfOk result (λ p. p.log.entries ≡ []) }
{
    let log = Log::new(alloc)?;
    Ok(Proof {
        log,
        terms: Terms::new(alloc),
    })
}

#[test]
fn new_nodes_are_put_one_behind_the_other(rt: HostRuntime) -> Result<(), Fail> {
    let mut proof = blank(rt.alloc())?;
    let places = put_nodes(&mut proof, rt.alloc());
    let steps = [
        Step::See(Seen::Counts(3, 2)),
        Step::See(Seen::Node(1, Operator::True, &[], 0)),
        Step::See(Seen::Node(2, Operator::Not, &[0], 1)),
        Step::Try(Given::Encode(0), Ok(3)),
        Step::Try(Given::Encode(1), Ok(4)),
    ];
    let failed = first_not_done(&mut proof, rt.alloc(), &steps);
    drop(proof);
    assert!(rt; places? == (1, 2));
    tell(&rt, failed?)
}

#[test]
fn valid_steps_are_put_one_behind_the_other(rt: HostRuntime) -> Result<(), Fail> {
    let mut proof = blank(rt.alloc())?;
    let places = put_assertion(&mut proof, rt.alloc());
    let clause = ClauseId { pos: 3, part: 0 };
    let steps = [
        Step::See(Seen::Counts(4, 1)),
        Step::See(Seen::Encode(2, 0)),
        Step::See(Seen::StepOf(0, Some(2))),
        Step::See(Seen::Bits(0, &[(1, true)])),
        Step::See(Seen::SelectorStepOf(0, Some(3))),
        Step::See(Seen::Selector(0, (2, true))),
        Step::See(Seen::Clause(clause, Some(&[(2, false), (1, true)]))),
        Step::See(Seen::Next(3)),
    ];
    let failed = first_not_done(&mut proof, rt.alloc(), &steps);
    drop(proof);
    assert!(rt; places? == (2, 3));
    tell(&rt, failed?)
}
