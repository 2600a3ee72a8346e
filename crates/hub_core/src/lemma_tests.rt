//! Worked histories of equalities and lemmas, with ample memory. A call is made where it is seen to be permitted.

ghost use Rattle.std.specs.Prelude.{◌≡◌, true, IfOk, IsSome, List};
ghost use Rattle.smt_terms.specs.Terms.{TermsValue};
ghost use Rattle.proof_log.specs.Logs.{state_of, IsPair, IsLemma};
ghost use Rattle.proof_log.specs.Stored.{Stands};
ghost use Rattle.proof_log.specs.Faults.{IsDeclared};
ghost use Rattle.hub_core.specs.declared.events.Event.{Event};
ghost use Rattle.hub_core.specs.Hubs.{permitted};
ghost use Rattle.hub_core.specs.Standing.{IsHub};

use crate::{Call, Event, HubLaw, HubState, Reply};
use cnf_base::{Clause, Pos};
use proof_log::Log;
use proof_log::entry::Entry;
use shared_history::Law;
use smt_terms::list::Arguments;
use smt_terms::node::{Node, Op, TermId};
use smt_terms::operator::Operator;
use smt_terms::sort::Sort;
use smt_terms::terms::Terms;
use std::alloc::{AllocError, Global};
use std::test::Fail;
use theory_lemmas::clauses::clause_of;
use theory_terms::lemma::{Access, Lemma, Path, Start};

// A log, and the terms that it stands over.
#[derive(Drop)]
struct Proof {
    log: Log,
    terms: Terms,
}

// No step yet, over one word of one bit.
fn begun(alloc: Global) -> Result<Proof, AllocError>
    ensures { IfOk result (λ p. Stands p.terms.nodes p.log) }
{
    let word = Op::Constant {
        declaration: 0,
        sort: Sort::Word(1),
    };
    let mut terms = Terms::new(alloc);
    let made = terms.make(Node::leaf(alloc, word));
    match (made, Log::new(alloc)) {
        (Ok(_), Ok(log)) => Ok(Proof { log, terms }),
        (_, log) => {
            drop((log, terms));
            Err(AllocError)
        }
    }
}

// A step is tried.
fn tried(proof: &mut Proof, alloc: Global, entry: Entry) -> Result<Pos, AllocError>
    requires stands { Stands proof.old.terms.nodes proof.old.log }
    requires declared { IsDeclared proof.old.terms entry }
    ensures { Stands proof.new.terms.nodes proof.new.log }
{
    match proof.log.try_push(alloc, &mut proof.terms, entry) {
        Ok(at) => Ok(at),
        Err(_) => Err(AllocError),
    }
}

// The step of each number: the array that is the word everywhere, 1, its element at the word, 2, and the literal 1, 3; the bits of
// the three words; and the equality of the first two.
fn step(alloc: Global, number: u32) -> Result<Entry, AllocError>
    ensures { IfOk result (λ e. (v : TermsValue) → IsDeclared v e) }
{
    match number {
        0 => Ok(Entry::Node(Node {
            op: Op::ConstantArray(1),
            args: Arguments::of(alloc, &[0])?,
        })),
        1 => Ok(Entry::Node(Node {
            op: Op::Plain(Operator::Select),
            args: Arguments::of(alloc, &[1, 0])?,
        })),
        2 => Ok(Entry::Node(Node::leaf(alloc, Op::Word { width: 1, value: 1 }))),
        3 => Ok(Entry::Leaf(0)),
        4 => Ok(Entry::Leaf(2)),
        5 => Ok(Entry::Encode(3)),
        _ => Ok(Entry::Equal(0, 2)),
    }
}

// All these steps are tried.
fn fill(proof: &mut Proof, alloc: Global) -> Result<(), AllocError>
    requires { Stands proof.old.terms.nodes proof.old.log }
    ensures { Stands proof.new.terms.nodes proof.new.log }
{
    for number in 0..7 {
        let entry = step(alloc, number)?;
        let _ = tried(proof, alloc, entry)?;
    }
    Ok(())
}

// The log with all these steps, the last of which has position 7.
fn opening(alloc: Global) -> Result<Proof, AllocError>
    ensures { IfOk result (λ p. Stands p.terms.nodes p.log) }
{
    let mut proof = begun(alloc)?;
    match fill(&mut proof, alloc) {
        Ok(()) => Ok(proof),
        Err(error) => {
            drop(proof);
            Err(error)
        }
    }
}

// The hub over this log, without a cube.
fn opened<'a>(alloc: Global, log: Log, terms: &'a Terms) -> HubLaw<'a>
    requires { Stands terms.now.nodes log }
{
    let _held = terms.len();
    HubLaw::new(log, terms, Vec::new(alloc), Vec::new(alloc))
}

// Whether a term has bits.
fn has_bits(law: &HubLaw<'_>, term: TermId) -> bool
    ensures { result ≡ true → IsSome ((state_of law.now.nodes law.now.log.entries).bits term) }
{
    match law.log().bits().of(term) {
        Some(_) => true,
        None => false,
    }
}

// Whether the equality of two terms may be given a variable.
fn are_pair(law: &HubLaw<'_>, lower: TermId, upper: TermId) -> bool
    ensures { result ≡ true
        → IsPair law.now.nodes (state_of law.now.nodes law.now.log.entries) lower upper }
{
    let terms = law.terms();
    lower < upper
        && upper < terms.len()
        && terms.sort(lower) == terms.sort(upper)
        && has_bits(law, lower)
        && has_bits(law, upper)
}

// The clause of a lemma, if it has one.
fn lemma_clause(alloc: Global, law: &HubLaw<'_>, lemma: &Lemma) -> Option<Clause>
    ensures { IsSome result
        → IsLemma law.now.nodes (state_of law.now.nodes law.now.log.entries) lemma.now }
{
    let log = law.log();
    match clause_of(alloc, law.terms(), log.bits(), log.equals(), lemma) {
        Ok(clause) => Some(clause),
        Err(_) => None,
    }
}

// What the law answers to a call that is permitted.
fn acted(
    alloc: Global,
    law: &HubLaw<'_>,
    state: &mut HubState,
    pass: u32,
    call: Call,
) -> Result<Reply, AllocError>
    requires { (history : List Event) × IsHub law.now state.old history
        × permitted law.now history pass call }
    ensures { (history : List Event) × IsHub law.now state.new history }
{
    match law.act(alloc, state, pass, call) {
        Ok((_, reply)) => Ok(reply),
        Err(_) => Err(AllocError),
    }
}

// What it answers to a pair that is permitted.
fn defined(
    alloc: Global,
    law: &HubLaw<'_>,
    state: &mut HubState,
    pass: u32,
    pair: (TermId, TermId),
) -> Result<Option<Reply>, AllocError>
    requires { (history : List Event) × IsHub law.now state.old history }
    ensures { (history : List Event) × IsHub law.now state.new history }
{
    if !are_pair(law, pair.0, pair.1) {
        return Ok(None);
    }
    let reply = acted(alloc, law, state, pass, Call::Define(pair.0, pair.1))?;
    Ok(Some(reply))
}

// What it answers to a lemma that has a clause.
fn put(
    alloc: Global,
    law: &HubLaw<'_>,
    state: &mut HubState,
    pass: u32,
    lemma: Lemma,
) -> Result<Option<Reply>, AllocError>
    requires { (history : List Event) × IsHub law.now state.old history }
    ensures { (history : List Event) × IsHub law.now state.new history }
{
    let Some(_) = lemma_clause(alloc, law, &lemma) else {
        return Ok(None);
    };
    let reply = acted(alloc, law, state, pass, Call::PutLemma(lemma))?;
    Ok(Some(reply))
}

// That the element of the array at this index is the word.
fn filling(alloc: Global, index: TermId) -> Lemma {
    let array = Access {
        start: Start::Const(1, index),
        path: Path::none(alloc),
    };
    let select = Access {
        start: Start::Term(2),
        path: Path::none(alloc),
    };
    Lemma::Arrays(array, select)
}

// What is answered to a pair without a variable, to one that the opening log has, to a lemma, again to the first pair, to a word
// and an array, and to a lemma one of whose equalities has no variable.
fn six_replies(
    alloc: Global,
    law: &HubLaw<'_>,
    state: &mut HubState,
) -> Result<[Option<Reply>; 6], AllocError>
    requires { (history : List Event) × IsHub law.now state.old history }
{
    let fresh = defined(alloc, law, state, 0, (0, 3))?;
    let held = defined(alloc, law, state, 1, (0, 2))?;
    let lemma = put(alloc, law, state, 1, filling(alloc, 0))?;
    let again = defined(alloc, law, state, 1, (0, 3))?;
    let array = defined(alloc, law, state, 0, (0, 1))?;
    let other = put(alloc, law, state, 0, filling(alloc, 3))?;
    Ok([fresh, held, lemma, again, array, other])
}

// The same, from the first state on.
fn all_replies(alloc: Global, law: &HubLaw<'_>) -> Result<[Option<Reply>; 6], AllocError> {
    let Ok(mut state) = law.first(alloc) else {
        return Err(AllocError);
    };
    let replies = six_replies(alloc, law, &mut state);
    drop(state);
    replies
}

#[test]
fn a_pair_has_one_position_and_a_lemma_the_next(rt: HostRuntime) -> Result<(), Fail> {
    let Proof { log, terms } = opening(rt.alloc())?;
    let law = opened(rt.alloc(), log, &terms);
    let replies = all_replies(rt.alloc(), &law);
    drop(law);
    let replies = replies?;
    assert_eq!(rt; replies[0], Some(Reply::At(8)));
    assert_eq!(rt; replies[1], Some(Reply::At(7)));
    assert_eq!(rt; replies[2], Some(Reply::At(9)));
    assert_eq!(rt; replies[3], Some(Reply::At(8)));
    assert_eq!(rt; replies[4], None);
    assert_eq!(rt; replies[5], None);
    Ok(())
}

// Whether a call is a pair, or the lemma about the literal.
fn is_copied(call: &Call) -> bool {
    match call {
        Call::Define(lower, upper) => *lower == 0 && *upper == 3,
        Call::PutLemma(Lemma::Arrays(first, _)) => matches!(first.start, Start::Const(1, 3)),
        _ => false,
    }
}

#[test]
fn pairs_and_lemmas_are_copied(rt: HostRuntime) -> Result<(), Fail> {
    let pair = Call::Define(0, 3).copy(rt.alloc())?;
    let lemma = Call::PutLemma(filling(rt.alloc(), 3)).copy(rt.alloc())?;
    assert!(rt; matches!(pair, Call::Define(_, _)) && is_copied(&pair));
    assert!(rt; matches!(lemma, Call::PutLemma(_)) && is_copied(&lemma));
    Ok(())
}
