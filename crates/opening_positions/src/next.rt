//! Which variables a step made.

ghost use Rattle.std.specs.Prelude.{◌≡◌, ◌<◌, ◌≤◌, ◌^◌, ℕ, suc, IfOk, Some, Contains, take};
ghost use Rattle.smt_terms.specs.Terms.{IsTermList};
ghost use Rattle.proof_log.specs.Logs.{entry_at, state_of};
ghost use Rattle.proof_log.specs.Stored.{Stands};
ghost use Rattle.opening_positions.specs.Reading.{IsBehind, IsAt, leaf_of, adds_gates};

use cnf_base::{ClauseId, Lit, Pos};
use proof_log::Log;
use proof_log::entry::Entry;
use smt_terms::node::TermId;
use smt_terms::terms::Terms;
use std::alloc::AllocError;

// The term whose bits are new variables.
fn leaf(entry: &Entry) -> Option<TermId>
    ensures { result ≡ leaf_of entry.now }
{
    match entry {
        Entry::Leaf(term) => Some(*term),
        _ => None,
    }
}

// Whether the clauses name all new variables.
fn has_gates(entry: &Entry) -> bool
    ensures { result ≡ adds_gates entry.now }
{
    match entry {
        Entry::Encode(_) => true,
        Entry::Selector(_, _) => true,
        Entry::Equal(_, _) => true,
        _ => false,
    }
}

// The lowest number from `next` on that is above the variable.
fn above(next: u64, variable: u64) -> u64
    requires { variable < 2 ^ 63 }
    ensures kept { next ≤ result }
    ensures own { variable < result }
    ensures lowest { (n : ℕ) → next ≤ n → variable < n → result ≤ n }
{
    next.max(variable + 1)
}

// The same of the variables of these literals.
fn behind(literals: &[Lit], next: u64) -> u64
    ensures { IsBehind (Contains literals.now) next result }
{
    let mut found = next;
    'literals: for literal in literals {
        found = above(found, literal.variable());
    }
    found
}

// The same of the clauses of a position, of which there are fewer than names.
fn behind_clauses(log: &Log, at: Pos, next: u64) -> Result<u64, AllocError>
    ensures { IfOk result (IsBehind (IsAt log.now.clauses at) next) }
{
    let mut found = next;
    'parts: for part in 0..u32::MAX {
        let Some(clause) = log.clause(ClauseId { pos: at, part }) else {
            return Ok(found);
        };
        found = behind(clause.literals(), found);
    }
    Err(AllocError)
}

/// The next variable after the step at a position, where `next` was the next before it.
pub(crate) fn next_after(
    terms: &Terms,
    log: &Log,
    entry: &Entry,
    at: Pos,
    next: u64,
) -> Result<u64, AllocError>
    requires listed { IsTermList terms.now.nodes }
    requires stands { Stands terms.now.nodes log.now }
    requires entry { entry_at log.now.entries at ≡ Some entry.now }
    ensures { IfOk result (λ n. (p : ℕ) → at ≡ suc p
        → next ≡ (state_of terms.now.nodes (take p log.now.entries)).next
        → n ≡ (state_of terms.now.nodes (take (suc p) log.now.entries)).next) }
{
    if has_gates(entry) {
        return behind_clauses(log, at, next);
    }
    let Some(term) = leaf(entry) else {
        return Ok(next);
    };
    let Some(bits) = log.bits().of(term) else {
        return Ok(next);
    };
    Ok(behind(bits, next))
}
