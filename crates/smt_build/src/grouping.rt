// Operators on two or more arguments, as applications to two.

ghost use Rattle.std.specs.Prelude.{◌≡◌, List, [], ◌∷◌};
ghost use Rattle.smt_terms.specs.Terms.{held_sort};
ghost use Rattle.smt_terms.specs.declared.sort.Signature.{Signature as SignatureValue};
ghost use Rattle.smt_build.specs.Building.{Builds, Means, Grows};
ghost use Rattle.smt_build.specs.Grouping.{has_sort, are_alike, is_word_sort, are_words, width_in, joins_within, are_taken, of_one, of_two, left, right, chain, apart, apart_from, all_apart, all_true, chained, pairwise, joined, by_arity, grouped, operation, Lists, Chains};

use crate::fault::{BuildError, BuildFault};
use crate::making::made;
use crate::operators::Arity;
use smt_terms::list::Arguments;
use smt_terms::node::{Node, Op, TermId};
use smt_terms::operator::Operator;
use smt_terms::sort::Sort;
use smt_terms::terms::Terms;
use std::alloc::Global;

/// The sort of a term, if it is held.
pub(crate) fn held_sort(terms: &Terms, term: TermId) -> Option<Sort>
    ensures { result ≡ held_sort terms.now.nodes term }
{
    if term < terms.len() {
        Some(terms.sort(term))
    } else {
        None
    }
}

pub(crate) fn has_sort(sort: Sort, held: Option<Sort>) -> bool
    ensures { result ≡ has_sort sort held }
{
    match held {
        None => false,
        Some(other) => sort == other,
    }
}

/// Whether these terms have the sort of the first.
fn are_alike(terms: &Terms, first: TermId, rest: &[TermId]) -> bool
    ensures { result ≡ are_alike terms.now.nodes first rest.now }
{
    let Some(sort) = held_sort(terms, first) else {
        return false;
    };
    for term in rest {
        if !has_sort(sort, held_sort(terms, *term)) {
            return false;
        }
    }
    true
}

fn is_word_sort(held: Option<Sort>) -> bool
    ensures { result ≡ is_word_sort held }
{
    matches!(held, Some(Sort::Word(_)))
}

/// Whether these terms are words.
fn are_words(terms: &Terms, first: TermId, rest: &[TermId]) -> bool
    ensures { result ≡ are_words terms.now.nodes (first ∷ rest.now) }
{
    if !is_word_sort(held_sort(terms, first)) {
        return false;
    }
    for term in rest {
        if !is_word_sort(held_sort(terms, *term)) {
            return false;
        }
    }
    true
}

pub(crate) fn width_in(held: Option<Sort>) -> u32
    ensures { result ≡ width_in held }
{
    match held {
        None => 0,
        Some(sort) => sort.width(),
    }
}

/// Whether these words have 128 bits at most, all together.
fn joins_within(terms: &Terms, first: TermId, rest: &[TermId]) -> bool
    ensures { result ≡ joins_within terms.now.nodes 0 (first ∷ rest.now) }
{
    let mut bits = u64::from(width_in(held_sort(terms, first)));
    if bits > 128 {
        return false;
    }
    for term in rest {
        bits += u64::from(width_in(held_sort(terms, *term)));
        if bits > 128 {
            return false;
        }
    }
    true
}

/// Whether an operator takes two or more terms of these sorts.
fn are_taken(terms: &Terms, arity: Arity, first: TermId, rest: &[TermId]) -> bool
    ensures { result ≡ are_taken arity terms.now.nodes first rest.now }
{
    match arity {
        Arity::Joining => are_words(terms, first, rest),
        _ => are_alike(terms, first, rest),
    }
}

/// The term of an operator and a term.
fn of_one(
    alloc: Global,
    terms: &mut Terms,
    operator: Operator,
    a: TermId,
) -> Result<TermId, BuildError>
    ensures builds { Builds (of_one operator terms.old a) result terms.old terms.new }
    ensures grows { (signatures : List SignatureValue) → Grows signatures terms.old terms.new }
{
    let args = Arguments::of(alloc, &[a])?;
    let op = Op::Plain(operator);
    made(terms, Node { op, args })
}

/// The term of an operator and two terms.
fn of_two(
    alloc: Global,
    terms: &mut Terms,
    operator: Operator,
    a: TermId,
    b: TermId,
) -> Result<TermId, BuildError>
    ensures builds { Builds (of_two operator terms.old a b) result terms.old terms.new }
    ensures grows { (signatures : List SignatureValue) → Grows signatures terms.old terms.new }
{
    let args = Arguments::of(alloc, &[a, b])?;
    let op = Op::Plain(operator);
    made(terms, Node { op, args })
}

/// The term of an operator that is grouped from the left.
fn left(
    alloc: Global,
    terms: &mut Terms,
    operator: Operator,
    first: TermId,
    rest: &[TermId],
) -> Result<TermId, BuildError>
    ensures means { Means (left operator terms.old first rest.now) result terms.new }
    ensures grows { (signatures : List SignatureValue) → Grows signatures terms.old terms.new }
{
    let mut term = first;
    for next in rest {
        term = of_two(alloc, terms, operator, term, *next)?;
    }
    Ok(term)
}

/// The term of an operator that is grouped from the right.
fn right(
    alloc: Global,
    terms: &mut Terms,
    operator: Operator,
    first: TermId,
    rest: &[TermId],
) -> Result<TermId, BuildError>
    ensures means { Means (right operator terms.old first rest.now) result terms.new }
    ensures grows { (signatures : List SignatureValue) → Grows signatures terms.old terms.new }
{
    let mut place = rest.len();
    if place == 0 {
        return Ok(first);
    }
    place -= 1;
    let mut term = rest[place];
    while place > 0 {
        place -= 1;
        term = of_two(alloc, terms, operator, rest[place], term)?;
    }
    of_two(alloc, terms, operator, first, term)
}

/// The equalities of neighbours.
fn chain(
    alloc: Global,
    terms: &mut Terms,
    first: TermId,
    rest: &[TermId],
    found: &mut Vec<TermId>,
) -> Result<(), BuildError>
    requires { found.old.items ≡ [] }
    ensures chains { Chains (chain terms.old first rest.now) result found.new.items terms.new }
    ensures grows { (signatures : List SignatureValue) → Grows signatures terms.old terms.new }
{
    let mut last = first;
    for next in rest {
        let term = of_two(alloc, terms, Operator::Equal, last, *next)?;
        found.push(term)?;
        last = *next;
    }
    Ok(())
}

/// Two terms are not equal.
fn apart(alloc: Global, terms: &mut Terms, a: TermId, b: TermId) -> Result<TermId, BuildError>
    ensures means { Means (apart terms.old a b) result terms.new }
    ensures grows { (signatures : List SignatureValue) → Grows signatures terms.old terms.new }
{
    let equal = of_two(alloc, terms, Operator::Equal, a, b)?;
    of_one(alloc, terms, Operator::Not, equal)
}

/// A term is none of these.
fn apart_from(
    alloc: Global,
    terms: &mut Terms,
    a: TermId,
    rest: &[TermId],
    found: &mut Vec<TermId>,
) -> Result<(), BuildError>
    ensures lists { Lists (apart_from a terms.old found.old.items rest.now) result found.new.items
        terms.new }
    ensures grows { (signatures : List SignatureValue) → Grows signatures terms.old terms.new }
{
    for b in rest {
        let term = apart(alloc, terms, a, *b)?;
        found.push(term)?;
    }
    Ok(())
}

/// No two of these are equal.
fn all_apart(
    alloc: Global,
    terms: &mut Terms,
    first: TermId,
    rest: &[TermId],
    found: &mut Vec<TermId>,
) -> Result<(), BuildError>
    ensures lists { Lists (all_apart terms.old found.old.items (first ∷ rest.now)) result
        found.new.items terms.new }
    ensures grows { (signatures : List SignatureValue) → Grows signatures terms.old terms.new }
{
    apart_from(alloc, terms, first, rest, found)?;
    let mut rest = rest;
    while let [a, tail @ ..] = rest {
        apart_from(alloc, terms, *a, tail, found)?;
        rest = tail;
    }
    Ok(())
}

/// All of these are true.
fn all_true(alloc: Global, terms: &mut Terms, args: &[TermId]) -> Result<TermId, BuildError>
    ensures means { Means (all_true terms.old args.now) result terms.new }
    ensures grows { (signatures : List SignatureValue) → Grows signatures terms.old terms.new }
{
    match args {
        [] => {
            let op = Op::Plain(Operator::True);
            made(terms, Node::leaf(alloc, op))
        }
        [first, rest @ ..] => left(alloc, terms, Operator::And, *first, rest),
    }
}

fn chained(
    alloc: Global,
    terms: &mut Terms,
    first: TermId,
    rest: &[TermId],
) -> Result<TermId, BuildError>
    ensures means { Means (chained terms.old first rest.now) result terms.new }
    ensures grows { (signatures : List SignatureValue) → Grows signatures terms.old terms.new }
{
    let mut found = Vec::new(alloc);
    chain(alloc, terms, first, rest, &mut found)?;
    all_true(alloc, terms, found.as_slice())
}

fn pairwise(
    alloc: Global,
    terms: &mut Terms,
    first: TermId,
    rest: &[TermId],
) -> Result<TermId, BuildError>
    ensures means { Means (pairwise terms.old first rest.now) result terms.new }
    ensures grows { (signatures : List SignatureValue) → Grows signatures terms.old terms.new }
{
    let mut found = Vec::new(alloc);
    all_apart(alloc, terms, first, rest, &mut found)?;
    all_true(alloc, terms, found.as_slice())
}

/// The term of words one behind the other.
fn joined(
    alloc: Global,
    terms: &mut Terms,
    first: TermId,
    rest: &[TermId],
) -> Result<TermId, BuildError>
    ensures means { Means (joined terms.old first rest.now) result terms.new }
    ensures grows { (signatures : List SignatureValue) → Grows signatures terms.old terms.new }
{
    if !joins_within(terms, first, rest) {
        return Err(BuildError::Fault(BuildFault::Width));
    }
    left(alloc, terms, Operator::Concat, first, rest)
}

fn by_arity(
    alloc: Global,
    terms: &mut Terms,
    operator: Operator,
    arity: Arity,
    first: TermId,
    rest: &[TermId],
) -> Result<TermId, BuildError>
    ensures means { Means (by_arity operator arity terms.old first rest.now) result terms.new }
    ensures grows { (signatures : List SignatureValue) → Grows signatures terms.old terms.new }
{
    match arity {
        Arity::Ranked => Err(BuildError::Fault(BuildFault::WrongSort)),
        Arity::LeftAssociative => left(alloc, terms, operator, first, rest),
        Arity::RightAssociative => right(alloc, terms, operator, first, rest),
        Arity::Chainable => chained(alloc, terms, first, rest),
        Arity::Pairwise => pairwise(alloc, terms, first, rest),
        Arity::Joining => joined(alloc, terms, first, rest),
    }
}

/// The term of an operator on two or more arguments.
fn grouped(
    alloc: Global,
    terms: &mut Terms,
    operator: Operator,
    arity: Arity,
    args: &[TermId],
) -> Result<TermId, BuildError>
    ensures means { Means (grouped operator arity terms.old args.now) result terms.new }
    ensures grows { (signatures : List SignatureValue) → Grows signatures terms.old terms.new }
{
    let [first, rest @ ..] = args else {
        return Err(BuildError::Fault(BuildFault::WrongSort));
    };
    if rest.is_empty() || !are_taken(terms, arity, *first, rest) {
        return Err(BuildError::Fault(BuildFault::WrongSort));
    }
    by_arity(alloc, terms, operator, arity, *first, rest)
}

/// The term of an operator and its arguments.
pub fn operation(
    alloc: Global,
    terms: &mut Terms,
    operator: Operator,
    arity: Arity,
    args: Vec<TermId>,
) -> Result<TermId, BuildError>
    ensures means { Means (operation operator arity terms.old args.items) result terms.new }
    ensures grows { (signatures : List SignatureValue) → Grows signatures terms.old terms.new }
{
    match arity {
        Arity::Ranked => {
            let op = Op::Plain(operator);
            let args = Arguments::from_vec(args);
            made(terms, Node { op, args })
        }
        _ => grouped(alloc, terms, operator, arity, args.as_slice()),
    }
}
