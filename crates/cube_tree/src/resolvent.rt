//! Resolution of two clauses, with the hints that show the clause.

ghost use Rattle.std.specs.Prelude.{◌≡◌, ◌≢◌, ◌⊎◌, ◌↔◌, All, Contains, IfOk, OnOk, IsTrue};
ghost use Rattle.cnf_base.specs.Literals.{Literal};
ghost use Rattle.hint_chain.specs.Chains.{HasPair};
ghost use Rattle.cube_tree.specs.Resolvents.{IsResolvent, AreHintsOf};

use cnf_base::{Clause, ClauseId, Lit};
use std::alloc::{AllocError, Global};

/// Whether the clause has the literal.
pub(crate) fn has(clause: &[Lit], literal: Lit) -> bool
    ensures { IsTrue result ↔ Contains clause.now literal }
{
    clause.contains(&literal)
}

/// Whether the clause has a literal and its opposite.
pub(crate) fn has_pair(clause: &[Lit]) -> bool
    ensures { IsTrue result ↔ HasPair clause.now }
{
    for literal in clause {
        if has(clause, literal.negated()) {
            return true;
        }
    }
    false
}

// Puts a literal at the end, unless it is the one to be left out.
fn push_unless(literal: Lit, skip: Lit, into: &mut Vec<Lit>) -> Result<(), AllocError>
    ensures kept { OnOk result ((m : Literal) → Contains into.old.items m
        → Contains into.new.items m) }
    ensures has { OnOk result ((literal ≡ skip) ⊎ Contains into.new.items literal) }
    ensures only { OnOk result ((m : Literal) → Contains into.new.items m
        → Contains into.old.items m ⊎ ((m ≡ literal) × (literal ≢ skip))) }
{
    if literal == skip {
        return Ok(());
    }
    into.push(literal)?;
    Ok(())
}

// Puts the literals at the end but for the one to be left out.
fn add_without(from: &[Lit], skip: Lit, into: &mut Vec<Lit>) -> Result<(), AllocError>
    ensures kept { OnOk result ((k : Literal) → Contains into.old.items k
        → Contains into.new.items k) }
    ensures has { OnOk result (All (λ k. (k ≡ skip) ⊎ Contains into.new.items k) from.now) }
    ensures only { OnOk result ((k : Literal) → Contains into.new.items k
        → Contains into.old.items k ⊎ (Contains from.now k × (k ≢ skip))) }
{
    for literal in from {
        push_unless(*literal, skip, into)?;
    }
    Ok(())
}

/// What follows from two clauses, the first without the literal and the second without its opposite.
pub(crate) fn resolvent(
    alloc: Global,
    first: &[Lit],
    second: &[Lit],
    literal: Lit,
) -> Result<Clause, AllocError>
    ensures { IfOk result (λ c. IsResolvent first.now second.now c literal) }
{
    let mut literals = Vec::new(alloc);
    add_without(first, literal, &mut literals)?;
    add_without(second, literal.negated(), &mut literals)?;
    Ok(Clause::from_vec(literals))
}

/// The hints of a resolvent of the clauses `first` and `second`, the first of which has the literal.
pub(crate) fn hints_of(
    alloc: Global,
    clause: &[Lit],
    literal: Lit,
    first: ClauseId,
    second: ClauseId,
) -> Result<Vec<ClauseId>, AllocError>
    ensures { IfOk result (λ h. AreHintsOf clause.now literal first second h.items) }
{
    let mut hints = Vec::new(alloc);
    if has_pair(clause) {
        return Ok(hints);
    }
    hints.push(first)?;
    if !has(clause, literal) {
        hints.push(second)?;
    }
    Ok(hints)
}
