// Applications that have different values though they are of one declaration to arguments of equal
// values.

ghost use Rattle.std.specs.Prelude.{◌≡◌, ◌↔◌, ◌++◌, [], Contains, IfOk, OnOk, MatchOption, IsPermutation, map, not, ◌&&◌, ◌==◌};
ghost use Rattle.std.specs.List.{AllByRecursion};
ghost use Rattle.std.specs.List.Sorted.{IsSortedBy};
ghost use Rattle.std.specs.Ordering.{is_lt, is_eq};
ghost use Rattle.smt_terms.specs.Bits.{image_in};
ghost use Rattle.smt_terms.specs.Nodes.{node_at};
ghost use Rattle.bit_blast.specs.Assigned.{assigned};
ghost use Rattle.term_reach.specs.Reach.{IsClosed};
ghost use Rattle.access_tables.specs.Leading.{leads};
ghost use Rattle.access_tables.specs.Encoded.{HaveBits};
ghost use Rattle.access_tables.specs.Held.{assigned_value};
ghost use Rattle.access_walk.specs.Networks.{AreCongruent};
ghost use Rattle.access_walk.specs.Congruent.{IsScalarTerm, IsApplied, IsNoApplication, AreApplications, code_of, key_of, AreCongruenceConflicts};
ghost use Rattle.access_walk.specs.Called.{key_in, call_cmp, AreCalls, IsWhole, IsBroken};
ghost use Rattle.theory_terms.specs.declared.lemma.Lemma.TheVariants.{Congruence};

use crate::putting::put;
use access_tables::values::value_of;
use bit_blast::Assignment;
use smt_terms::bits::Bits;
use smt_terms::node::TermId;
use smt_terms::scalar::Scalar;
use smt_terms::sort::DeclId;
use smt_terms::terms::Terms;
use std::alloc::{AllocError, Global};
use std::cmp::Ordering;
use term_reach::Reached;
use theory_terms::lemma::Lemma;
use theory_terms::shape::{Shape, shape_at};

/// An application of a declared function.
#[derive(Clone, Copy, Debug)]
pub struct Application {
    pub term: TermId,
    pub declaration: DeclId,
}

/// An application, and from where to where its key stands among the keys.
#[derive(Clone, Copy, Debug)]
pub struct Call {
    term: TermId,
    from: usize,
    to: usize,
}

/// The keys of applications under an assignment, one behind another: the declaration, and the
/// numbers of the arguments. Kept from one assignment to the next for their memory alone.
#[derive(Debug, Drop)]
pub struct Calls {
    keys: Vec<u128>,
    calls: Vec<Call>,
}

/// The application that a term without an image is, if it is one.
fn application_at(
    terms: &Terms,
    bits: &Bits,
    reached: &Reached,
    term: TermId,
) -> Option<Application>
    requires bits { HaveBits terms.now.nodes bits.now (Contains reached.now) }
    requires closed { IsClosed (leads terms.now.nodes (image_in bits.now)) (Contains reached.now) }
    requires here { Contains reached.now term }
    ensures { MatchOption result (IsNoApplication terms.now.nodes bits.now term)
        (λ a. IsApplied terms.now.nodes bits.now (Contains reached.now) a × (a.term ≡ term)) }
{
    let _count = terms.len();
    match bits.image(term) {
        Some(_) => None,
        None => match shape_at(terms, term) {
            Shape::Applying { declaration } => Some(Application { term, declaration }),
            _ => None,
        },
    }
}

/// The applications among reached terms without images.
pub fn applications_of(
    alloc: Global,
    terms: &Terms,
    bits: &Bits,
    reached: &Reached,
) -> Result<Vec<Application>, AllocError>
    requires bits { HaveBits terms.now.nodes bits.now (Contains reached.now) }
    requires closed { IsClosed (leads terms.now.nodes (image_in bits.now)) (Contains reached.now) }
    ensures { IfOk result
        (λ found. AreApplications terms.now.nodes bits.now (Contains reached.now) found.items) }
{
    let mut found = Vec::new(alloc);
    for term in reached.terms() {
        put(&mut found, application_at(terms, bits, reached, *term))?;
    }
    Ok(found)
}

/// The number of a word; of a truth value 0 or 1.
fn code_of(terms: &Terms, bits: &Bits, assignment: &Assignment, term: TermId) -> u128
    requires { IsScalarTerm terms.now.nodes bits.now term }
    ensures { result
        ≡ code_of (assigned_value terms.now.nodes bits.now (assigned assignment.now) term) }
{
    match value_of(terms, bits, assignment, term) {
        Scalar::Bool(truth) => u128::from(truth),
        Scalar::Word(word) => word.value(),
    }
}

/// Puts the numbers of arguments behind others.
fn push_codes(
    terms: &Terms,
    bits: &Bits,
    assignment: &Assignment,
    args: &[TermId],
    keys: &mut Vec<u128>,
) -> Result<(), AllocError>
    requires { AllByRecursion (IsScalarTerm terms.now.nodes bits.now) args.now }
    ensures { OnOk result (keys.new.items ≡ keys.old.items ++ map (λ t. code_of
        (assigned_value terms.now.nodes bits.now (assigned assignment.now) t)) args.now) }
{
    for arg in args {
        keys.push(code_of(terms, bits, assignment, *arg))?;
    }
    Ok(())
}

/// Puts the key of an application behind others.
fn push_key(
    terms: &Terms,
    bits: &Bits,
    assignment: &Assignment,
    application: Application,
    keys: &mut Vec<u128>,
) -> Result<(), AllocError>
    requires held { IsScalarTerm terms.now.nodes bits.now application.term }
    requires args { AllByRecursion (IsScalarTerm terms.now.nodes bits.now)
        (node_at terms.now.nodes application.term).args }
    ensures { OnOk result (keys.new.items ≡ keys.old.items
        ++ key_of terms.now.nodes
        (assigned_value terms.now.nodes bits.now (assigned assignment.now)) application) }
{
    keys.push(u128::from(application.declaration))?;
    let args = terms.node(application.term).args.as_slice();
    push_codes(terms, bits, assignment, args, keys)
}

/// The keys of all applications.
fn enter_calls(
    terms: &Terms,
    bits: &Bits,
    assignment: &Assignment,
    reached: &Reached,
    applications: &[Application],
    keys: &mut Vec<u128>,
    calls: &mut Vec<Call>,
) -> Result<(), AllocError>
    requires { AreApplications terms.now.nodes bits.now (Contains reached.now) applications.now }
    ensures { OnOk result (AreCalls terms.now.nodes
        (assigned_value terms.now.nodes bits.now (assigned assignment.now)) applications.now
        keys.new.items calls.new.items) }
{
    keys.clear();
    calls.clear();
    for application in applications {
        let from = keys.len();
        push_key(terms, bits, assignment, *application, keys)?;
        let to = keys.len();
        let term = application.term;
        calls.push(Call { term, from, to })?;
    }
    Ok(())
}

/// The key of a call; none where there is no such place.
fn key_in(keys: &[u128], call: Call) -> &[u128]
    ensures { result.now ≡ key_in keys.now call }
{
    let to = call.to.min(keys.len());
    let from = call.from.min(to);
    &keys[from..to]
}

/// Calls by their keys.
fn compare(keys: &[u128], left: Call, right: Call) -> Ordering
    ensures { result ≡ call_cmp keys.now left right }
{
    key_in(keys, left).cmp(key_in(keys, right))
}

/// Calls in the order of their keys.
fn sort_calls(keys: &[u128], calls: &mut Vec<Call>)
    ensures permutation { IsPermutation calls.old.items calls.new.items }
    ensures sorted { IsSortedBy (λ a b. is_lt (call_cmp keys.now a b)) calls.new.items }
{
    calls.sort_unstable_by(|left, right| compare(keys, *left, *right));
}

/// Whether two calls of one key have different values.
fn is_broken(
    terms: &Terms,
    bits: &Bits,
    assignment: &Assignment,
    keys: &[u128],
    left: Call,
    right: Call,
) -> bool
    requires left { IsScalarTerm terms.now.nodes bits.now left.term }
    requires right { IsScalarTerm terms.now.nodes bits.now right.term }
    ensures { result ≡ (is_eq (call_cmp keys.now left right)
        && not (code_of
        (assigned_value terms.now.nodes bits.now (assigned assignment.now) left.term)
        == code_of
        (assigned_value terms.now.nodes bits.now (assigned assignment.now) right.term))) }
{
    compare(keys, left, right).is_eq()
        && code_of(terms, bits, assignment, left.term)
            != code_of(terms, bits, assignment, right.term)
}

/// The lemma of two calls of one key that have different values.
fn conflict_of(
    terms: &Terms,
    bits: &Bits,
    assignment: &Assignment,
    keys: &[u128],
    left: Call,
    right: Call,
) -> Option<Lemma>
    requires left { IsScalarTerm terms.now.nodes bits.now left.term }
    requires right { IsScalarTerm terms.now.nodes bits.now right.term }
    ensures { MatchOption result
        (IsWhole (assigned_value terms.now.nodes bits.now (assigned assignment.now)) keys.now left
        right)
        (λ l. IsBroken (assigned_value terms.now.nodes bits.now (assigned assignment.now)) keys.now
        left right × (l ≡ Congruence left.term right.term)) }
{
    if is_broken(terms, bits, assignment, keys, left, right) {
        Some(Lemma::Congruence(left.term, right.term))
    } else {
        None
    }
}

/// The lemmas of neighbours of one key that have different values.
fn conflicts_in(
    alloc: Global,
    terms: &Terms,
    bits: &Bits,
    assignment: &Assignment,
    reached: &Reached,
    applications: &[Application],
    keys: &[u128],
    calls: &[Call],
) -> Result<Vec<Lemma>, AllocError>
    requires applications { AreApplications terms.now.nodes bits.now (Contains reached.now)
        applications.now }
    requires calls { AreCalls terms.now.nodes
        (assigned_value terms.now.nodes bits.now (assigned assignment.now)) applications.now
        keys.now calls.now }
    requires sorted { IsSortedBy (λ a b. is_lt (call_cmp keys.now a b)) calls.now }
    ensures { IfOk result
        (λ found. AreCongruenceConflicts terms.now.nodes bits.now (assigned assignment.now)
        (Contains reached.now) found.items) }
{
    let _count = terms.len();
    let mut conflicts = Vec::new(alloc);
    for place in 1..calls.len() {
        let (left, right) = (calls[place - 1], calls[place]);
        let found = conflict_of(terms, bits, assignment, keys, left, right);
        put(&mut conflicts, found)?;
    }
    Ok(conflicts)
}

impl Calls {
    /// No keys; takes no memory.
    pub fn new(alloc: Global) -> Calls {
        Calls {
            keys: Vec::new(alloc),
            calls: Vec::new(alloc),
        }
    }
}

/// The lemmas of applications of one declaration to arguments of equal values that have different
/// values: for all applications with such arguments at least one lemma, where any of them break
/// congruence. None exactly where all are congruent.
pub fn congruence_conflicts(
    alloc: Global,
    terms: &Terms,
    bits: &Bits,
    assignment: &Assignment,
    reached: &Reached,
    applications: &[Application],
    calls: &mut Calls,
) -> Result<Vec<Lemma>, AllocError>
    requires { AreApplications terms.now.nodes bits.now (Contains reached.now) applications.now }
    ensures conflicts { IfOk result
        (λ found. AreCongruenceConflicts terms.now.nodes bits.now (assigned assignment.now)
        (Contains reached.now) found.items) }
    ensures none { IfOk result (λ found. (found.items ≡ []) ↔ AreCongruent terms.now.nodes
        (image_in bits.now) (Contains reached.now)
        (assigned_value terms.now.nodes bits.now (assigned assignment.now))) }
{
    let _count = terms.len();
    enter_calls(
        terms,
        bits,
        assignment,
        reached,
        applications,
        &mut calls.keys,
        &mut calls.calls,
    )?;
    sort_calls(calls.keys.as_slice(), &mut calls.calls);
    let (keys, calls) = (calls.keys.as_slice(), calls.calls.as_slice());
    let found = conflicts_in(
        alloc,
        terms,
        bits,
        assignment,
        reached,
        applications,
        keys,
        calls,
    )?;
    Ok(found)
}
