//! Which positions a check holds.

ghost use Rattle.std.specs.Prelude.{◌≡◌, ◌<◌, ℕ, IsSome, MatchBool, OnOk, Some, All, Contains, slice_get};
ghost use Rattle.scope_selectors.specs.declared.live.Live.{Live as LiveValue};
ghost use Rattle.proof_log.specs.Places.{GivesBits};
ghost use Rattle.proof_log.specs.Stored.{Stands, selector_in};
ghost use Rattle.opening_positions.specs.Positions.{IsWith, Gains};
ghost use Rattle.opening_positions.specs.Holding.{IsTermStep, IsAssertionStep, IsHeldTerm, IsHeldWithBits, IsHeldAssertion, IsHeldPair, IsHeldMaker, AreHeld, HasOther, IsClauseHeld, HasOtherMaker, IsHeldLemma, IsDecided, pair_of};

use crate::position_list::PositionList;
use cnf_base::{ClauseId, Lit, Pos};
use proof_log::Log;
use proof_log::entry::Entry;
use scope_selectors::live::Live;
use smt_terms::node::TermId;
use smt_terms::terms::Terms;
use std::alloc::AllocError;

// Holds the position of the step that gave a term its bits, where there is one.
fn hold_term(held: &mut PositionList, log: &Log, term: TermId) -> Result<(), AllocError>
    ensures gains { OnOk result (Gains held.old (GivesBits log.now.entries term) held.new) }
    ensures held { OnOk result (IsHeldWithBits log.now.entries held.new term) }
{
    match log.step_of(term) {
        Some(at) => held.add(at),
        None => Ok(()),
    }
}

/// Holds the positions of the steps that gave these terms their bits.
pub(crate) fn hold_terms(
    held: &mut PositionList,
    log: &Log,
    reached: &[TermId],
) -> Result<(), AllocError>
    ensures gains { OnOk result
        (Gains held.old (IsTermStep log.now.entries reached.now) held.new) }
    ensures all { OnOk result (All (IsHeldWithBits log.now.entries held.new) reached.now) }
{
    'terms: for term in reached {
        hold_term(held, log, *term)?;
    }
    Ok(())
}

/// Holds the positions of the steps that gave these assertions their selectors.
pub(crate) fn hold_selectors(
    held: &mut PositionList,
    terms: &Terms,
    log: &Log,
    live: &[Live],
) -> Result<(), AllocError>
    requires stands { Stands terms.now.nodes log.now }
    requires selectors { All (λ (a : LiveValue). IsSome (selector_in log.now.selectors a.assertion))
        live.now }
    ensures gains { OnOk result
        (Gains held.old (IsAssertionStep log.now.entries live.now) held.new) }
    ensures all { OnOk result (All (IsHeldAssertion log.now.entries held.new) live.now) }
{
    'live: for assertion in live {
        held.add(log.selector_step_of(assertion.assertion).unwrap())?;
    }
    Ok(())
}

// Whether the position of the step that gave the term its bits is held.
fn has_term(held: &PositionList, terms: &Terms, log: &Log, term: TermId) -> bool
    requires stands { Stands terms.now.nodes log.now }
    ensures { MatchBool result (IsHeldTerm log.now.entries held.now term)
        (IsHeldTerm log.now.entries held.now term → ⊥) }
{
    match log.step_of(term) {
        Some(at) => held.has(at),
        None => false,
    }
}

// The terms of an equality that gets a variable.
fn pair(entry: &Entry) -> Option<(TermId, TermId)>
    ensures { result ≡ pair_of entry.now }
{
    match entry {
        Entry::Equal(lower, upper) => Some((*lower, *upper)),
        _ => None,
    }
}

// Whether an equality gets its variable at the position, and both its terms have their steps held.
fn has_pair(held: &PositionList, terms: &Terms, log: &Log, at: Pos) -> bool
    requires stands { Stands terms.now.nodes log.now }
    ensures { MatchBool result (IsHeldPair log.now.entries held.now at)
        (IsHeldPair log.now.entries held.now at → ⊥) }
{
    let Some(entry) = log.entry(at) else {
        return false;
    };
    match pair(entry) {
        Some((lower, upper)) => {
            if !has_term(held, terms, log, lower) {
                return false;
            }
            has_term(held, terms, log, upper)
        }
        None => false,
    }
}

// Holds a position where it is wanted.
fn hold_where(held: &mut PositionList, wanted: bool, at: Pos) -> Result<(), AllocError>
    ensures { OnOk result (MatchBool wanted (IsWith held.old at held.new) (held.new ≡ held.old)) }
{
    if wanted { held.add(at) } else { Ok(()) }
}

/// Holds those of these equalities whose terms both have their steps held.
pub(crate) fn hold_equalities(
    held: &mut PositionList,
    terms: &Terms,
    log: &Log,
    equalities: &[Pos],
) -> Result<(), AllocError>
    requires stands { Stands terms.now.nodes log.now }
    ensures gains { OnOk result
        (Gains held.old (IsHeldPair log.now.entries held.new) held.new) }
    ensures all { OnOk result (All (λ p. IsHeldPair log.now.entries held.old p
        → Contains held.new p) equalities.now) }
{
    'equalities: for at in equalities {
        let wanted = has_pair(held, terms, log, *at);
        hold_where(held, wanted, *at)?;
    }
    Ok(())
}

// Whether the position of the step that made the variable is held.
fn has_maker(held: &PositionList, makers: &[Pos], variable: u64) -> bool
    ensures { MatchBool result (IsHeldMaker makers.now held.now variable)
        (IsHeldMaker makers.now held.now variable → ⊥) }
{
    match makers.get(variable as usize) {
        Some(at) => held.has(*at),
        None => false,
    }
}

// Whether it is so with all of these literals.
fn has_makers(held: &PositionList, makers: &[Pos], literals: &[Lit]) -> bool
    ensures { MatchBool result (AreHeld makers.now held.now literals.now)
        (HasOther makers.now held.now literals.now) }
{
    'literals: for literal in literals {
        if !has_maker(held, makers, literal.variable()) {
            return false;
        }
    }
    true
}

// Whether it is so with those of the clause of a lemma.
fn has_lemma(held: &PositionList, makers: &[Pos], log: &Log, at: Pos) -> bool
    ensures { MatchBool result (IsClauseHeld log.now.clauses makers.now held.now at)
        (HasOtherMaker log.now.clauses makers.now held.now at) }
{
    match log.clause(ClauseId { pos: at, part: 0 }) {
        Some(clause) => has_makers(held, makers, clause.literals()),
        None => false,
    }
}

/// Holds those of these lemmas whose variables were all made by steps at held positions. No lemma makes a variable.
pub(crate) fn hold_lemmas(
    held: &mut PositionList,
    makers: &[Pos],
    log: &Log,
    lemmas: &[Pos],
) -> Result<(), AllocError>
    requires { (x p : ℕ) → 0 < x → slice_get makers.now x ≡ Some p
        → Contains lemmas.now p → ⊥ }
    ensures gains { OnOk result (Gains held.old
        (IsHeldLemma log.now.clauses makers.now lemmas.now held.new) held.new) }
    ensures all { OnOk result (All (IsDecided log.now.clauses makers.now held.new) lemmas.now) }
{
    'lemmas: for at in lemmas {
        let wanted = has_lemma(held, makers, log, *at);
        hold_where(held, wanted, *at)?;
    }
    Ok(())
}
