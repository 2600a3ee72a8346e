// Refutations.

ghost use Rattle.std.specs.Prelude.{◌≡◌, ◌==◌, ◌&&◌, ◌||◌, ℕ, true, IfOk, MatchBool};
ghost use Rattle.std.specs.List.{list_any, list_all};
ghost use Rattle.std.specs.Ordering.{nat_cmp};
ghost use Rattle.std.specs.BTreeSet.{contains};
ghost use Rattle.cnf_base.specs.Literals.{code_of};
ghost use Rattle.faded_log.specs.Faded.{IsHeld};
ghost use Rattle.accepted_proof.specs.Turns.{IsRefutation};
ghost use Rattle.proof_checker.specs.Checkers.{is_against, is_against_bit};

use check_cubes::bit_of;
use cnf_base::{ClauseId, Lit, Pos};
use faded_log::FadedLog;
use proof_log::Log;
use scope_selectors::live::Live;
use script_state::answer::Asked;
use script_state::state::State;
use std::alloc::{AllocError, Global};
use std::collections::BTreeSet;

/// The codes of the negated selectors of these assertions.
fn codes_of(alloc: Global, log: &Log, live: &[Live]) -> Result<BTreeSet<u64>, AllocError>
    ensures { IfOk result (λ codes. (q : ℕ)
        → contains nat_cmp codes q ≡ list_any (λ a. is_against log.now.selectors a q) live.now) }
{
    let mut codes = BTreeSet::new(alloc);
    for assertion in live {
        if let Some(selector) = log.selector(assertion.assertion) {
            codes.insert(selector.negated().code())?;
        }
    }
    Ok(codes)
}

/// These codes, and those of the negated bits of these assumptions.
fn and_assumed(
    log: &Log,
    assumed: &[Asked],
    codes: BTreeSet<u64>,
) -> Result<BTreeSet<u64>, AllocError>
    ensures { IfOk result (λ all. (q : ℕ)
        → contains nat_cmp all q
        ≡ (contains nat_cmp codes q || list_any (λ a. is_against_bit log.now.bits a q)
        assumed.now)) }
{
    let mut all = codes;
    for assumption in assumed {
        if let Some(bit) = bit_of(log, assumption.term) {
            all.insert(bit.negated().code())?;
        }
    }
    Ok(all)
}

/// Whether each literal is of one of these codes.
fn are_among(literals: &[Lit], codes: &BTreeSet<u64>) -> bool
    ensures { result ≡ list_all (λ l. contains nat_cmp codes.now (code_of l)) literals.now }
{
    for literal in literals {
        if !codes.contains(&literal.code()) {
            return false;
        }
    }
    true
}

/// Whether the first clause of a position has negated selectors of live assertions and negated bits of assumptions alone.
pub fn is_refutation(
    alloc: Global,
    state: &State,
    log: &FadedLog,
    pos: Pos,
) -> Result<bool, AllocError>
    requires { IsHeld state.now.terms.nodes log.now }
    ensures { IfOk result (λ b. MatchBool b
        (IsRefutation state.now state.now.terms.nodes log.now.entries pos)
        (IsRefutation state.now state.now.terms.nodes log.now.entries pos → ⊥)) }
{
    let Some(clause) = log.clause(ClauseId { pos, part: 0 }) else {
        return Ok(false)
    };
    let selectors = codes_of(alloc, log.base(), state.live())?;
    let codes = and_assumed(log.base(), state.assumptions(), selectors)?;
    Ok(are_among(clause.literals(), &codes))
}
