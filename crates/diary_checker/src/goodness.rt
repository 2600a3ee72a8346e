//! Which chains may be put.

ghost use Rattle.std.specs.Prelude.{◌≡◌, List, IfOk, MatchBool};
ghost use Rattle.cnf_base.specs.Literals.{Literal};
ghost use Rattle.proof_log.specs.Logs.{clause_at};
ghost use Rattle.proof_log.specs.Diaries.{Subject, look_of, IsGoodPut};
ghost use Rattle.diary_checker.specs.Tables.{bit_in, IsSetOf};
ghost use Rattle.diary_checker.specs.Uses.{AreFiled, IsApart, IsDerived};

use crate::conditions::{are_all_in, are_held, has_pair, is_none_in, is_subsumed, negate};
use crate::literals::ClauseLiterals;
use crate::positions::Positions;
use crate::table::LiteralNumbers;
use crate::uses::{are_used, find_lasts};
use crate::watches::Watches;
use cnf_base::Lit;
use faded_log::FadedLog;
use proof_log::entry::Hints;
use std::alloc::{AllocError, Global};

/// Tables that are filled anew for each clause: its literals, those that are true while the hints are read, and the last
/// hint with each literal.
#[derive(Debug, Drop)]
pub(crate) struct Scratch {
    pub(crate) own: ClauseLiterals,
    trues: LiteralNumbers,
    lasts: LiteralNumbers,
}

impl Scratch {
    pub(crate) fn new(alloc: Global) -> Scratch {
        Scratch {
            own: ClauseLiterals::new(alloc),
            trues: LiteralNumbers::new(alloc),
            lasts: LiteralNumbers::new(alloc),
        }
    }
}

// Whether a clause follows from held clauses, of which each of its literals and each step has need.
fn is_derived(
    log: &FadedLog,
    held: &Positions,
    trues: &mut LiteralNumbers,
    lasts: &mut LiteralNumbers,
    clause: &[Lit],
    hints: &Hints,
) -> Result<bool, AllocError>
    ensures { IfOk result (λ b. MatchBool b
        (IsDerived (clause_at log.now.clauses) (bit_in held.now) clause.now hints.now)
        (¬ (IsDerived (clause_at log.now.clauses) (bit_in held.now) clause.now hints.now))) }
{
    if !are_held(held, hints) {
        return Ok(false);
    }
    find_lasts(log, lasts, hints)?;
    if !are_all_in(lasts, clause) {
        return Ok(false);
    }
    negate(trues, clause)?;
    are_used(log, trues, lasts, hints)
}

// Whether a clause says something that neither the held clauses nor the given literals say by themselves.
fn is_apart(
    log: &FadedLog,
    held: &Positions,
    given: &LiteralNumbers,
    watches: &Watches,
    own: &mut ClauseLiterals,
    clause: &[Lit],
) -> Result<bool, AllocError>
    ensures { IfOk result (λ b. (literals : List Literal) → IsSetOf given.now literals →
        AreFiled (clause_at log.now.clauses) (bit_in held.now) watches.now → MatchBool b
        (IsApart (clause_at log.now.clauses) (bit_in held.now) literals clause.now)
        (¬ (IsApart (clause_at log.now.clauses) (bit_in held.now) literals clause.now))) }
{
    if !is_none_in(given, clause) {
        return Ok(false);
    }
    own.collect(clause)?;
    let each = own.each.as_slice();
    if has_pair(&own.table, each) {
        return Ok(false);
    }
    Ok(!is_subsumed(log, held, watches, &own.table, each))
}

/// Whether a chain of this clause and these hints is a good put, where each held clause is filed.
pub(crate) fn is_good_put(
    log: &FadedLog,
    held: &Positions,
    given: &LiteralNumbers,
    watches: &Watches,
    scratch: &mut Scratch,
    clause: &[Lit],
    hints: &Hints,
) -> Result<bool, AllocError>
    ensures { IfOk result (λ b. (g : Subject) → look_of g ≡ clause_at log.now.clauses
        → IsSetOf given.now g.given →
        AreFiled (clause_at log.now.clauses) (bit_in held.now) watches.now →
        MatchBool b (IsGoodPut g (bit_in held.now) clause.now hints.now)
        (¬ (IsGoodPut g (bit_in held.now) clause.now hints.now))) }
{
    if !is_derived(
        log,
        held,
        &mut scratch.trues,
        &mut scratch.lasts,
        clause,
        hints,
    )? {
        return Ok(false);
    }
    is_apart(log, held, given, watches, &mut scratch.own, clause)
}
