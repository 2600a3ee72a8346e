//! Logs of scripts, and what is asked of a search over one.

ghost use Rattle.std.specs.Prelude.{ℕ, ◌≡◌, ◌↔◌, true, IsTrue, IfOk};
ghost use Rattle.cnf_base.specs.Assignments.{AreBelow};
ghost use Rattle.proof_log.specs.Logs.{entry_at};
ghost use Rattle.proof_log.specs.Stored.{Stands};
ghost use Rattle.proof_log.specs.Faults.{MakesNoTerm};
ghost use Rattle.proof_log.specs.Diaries.{is_chain};
ghost use Rattle.theory_client.specs.Posed.{AreAll, IsPlaced, IsPosed};

use cnf_base::{Lit, Pos};
use proof_log::entry::Entry;
use proof_log::{Log, stored_logs_are_settled};
use smt_terms::node::TermId;
use smt_terms::terms::Terms;
use std::alloc::{AllocError, Global};
use walk_rows::fitting::is_walkable;

/// The positions that a search is to hold, and its given literals.
#[derive(Drop)]
pub(crate) struct Posed {
    pub(crate) positions: Vec<Pos>,
    pub(crate) given: Vec<Lit>,
}

// Adds a step, if it is valid; whether it was added.
fn try_add(alloc: Global, terms: &Terms, log: &mut Log, entry: Entry) -> bool
    requires stands { Stands terms.now.nodes log.old }
    requires kind { MakesNoTerm entry }
    ensures { Stands terms.now.nodes log.new }
{
    log.try_put(alloc, terms, entry).is_ok()
}

/// The log in which each of these terms that may have bits has them: a leaf's, or those of its circuit.
pub(crate) fn logged(alloc: Global, terms: &Terms) -> Result<Log, AllocError>
    ensures { IfOk result (λ l. Stands terms.now.nodes l) }
{
    let mut log = Log::new(alloc)?;
    'terms: for term in 0..terms.len() {
        if !try_add(alloc, terms, &mut log, Entry::Leaf(term)) {
            try_add(alloc, terms, &mut log, Entry::Encode(term));
        }
    }
    Ok(log)
}

// Whether a chain stands at a position.
fn is_chain(log: &Log, at: Pos) -> bool
    ensures { result ≡ is_chain (entry_at log.now.entries at) }
{
    matches!(log.entry(at), Some(Entry::Chain(_, _)))
}

// The positions of a log without a chain.
fn positions(alloc: Global, log: &Log) -> Result<Vec<Pos>, AllocError>
    ensures { IfOk result (λ v. AreAll log.now.entries v.items) }
{
    let mut positions = Vec::new(alloc);
    'steps: for at in 0..log.len() {
        if is_chain(log, at) {
            return Err(AllocError);
        }
        positions.push(at)?;
    }
    Ok(positions)
}

// Whether a term has no bits, or bits of its own, by a step that is found.
fn is_placed(log: &Log, term: TermId) -> bool
    ensures { result ≡ true → IsPlaced log.now term }
{
    if log.bits().image(term).is_some() {
        return false;
    }
    match log.step_of(term) {
        Some(_) => true,
        None => log.bits().of(term).is_none(),
    }
}

// Whether it is so with all terms.
fn are_placed(terms: &Terms, log: &Log) -> bool
    requires { Stands terms.now.nodes log.now }
    ensures { result ≡ true → (t : ℕ) → IsPlaced log.now t }
{
    stored_logs_are_settled();
    'terms: for term in 0..terms.len() {
        if !is_placed(log, term) {
            return false;
        }
    }
    true
}

fn are_below(variables: u64, literals: &[Lit]) -> bool
    ensures { IsTrue result ↔ AreBelow variables literals.now }
{
    literals.iter().all(|l| l.variable() < variables)
}

// The bits of these truth values.
fn given(alloc: Global, log: &Log, roots: &[TermId]) -> Result<Vec<Lit>, AllocError>
    ensures { IfOk result (λ v. AreBelow log.now.next v.items) }
{
    let mut literals = Vec::new(alloc);
    for root in roots {
        if let Some([bit]) = log.bits().of(*root) {
            literals.push(*bit)?;
        }
    }
    if !are_below(log.next(), literals.as_slice()) {
        return Err(AllocError);
    }
    Ok(literals)
}

/// What is asked of a search over a log under these assertions. For want of memory there is no answer, nor where a walk from them may
/// not be called for.
pub(crate) fn pose(
    alloc: Global,
    terms: &Terms,
    log: &Log,
    roots: &[TermId],
) -> Result<Posed, AllocError>
    requires { Stands terms.now.nodes log.now }
    ensures { IfOk result
        (λ p. IsPosed terms.now.nodes log.now.entries roots.now p.positions.items p.given.items) }
{
    if !are_placed(terms, log) {
        return Err(AllocError);
    }
    let fits = is_walkable(alloc, terms, log.bits(), roots)?;
    if !fits {
        return Err(AllocError);
    }
    Ok(Posed {
        positions: positions(alloc, log)?,
        given: given(alloc, log, roots)?,
    })
}
