//! Where the literals of hints stand, and whether each hint is used.

ghost use Rattle.std.specs.Prelude.{◌≡◌, ◌≢◌, ◌<◌, ◌⊎◌, ℕ, List, Some, Contains, IfOk, OnOk, MatchBool, MatchOption};
ghost use Rattle.cnf_base.specs.Literals.{Literal, negated};
ghost use Rattle.hint_chain.specs.Chains.{IsUnit};
ghost use Rattle.proof_log.specs.Logs.{clause_at};
ghost use Rattle.proof_log.specs.Diaries.{EachIsUsed};
ghost use Rattle.diary_checker.specs.Tables.{number_of, IsSetOf};
ghost use Rattle.diary_checker.specs.Uses.{HasIn, IsGiven, AreLasts};

use crate::table::LiteralNumbers;
use cnf_base::{ClauseId, Lit};
use faded_log::FadedLog;
use proof_log::entry::Hints;
use std::alloc::AllocError;

// Gives each literal of a clause a number.
fn mark(table: &mut LiteralNumbers, clause: &[Lit], number: u64) -> Result<(), AllocError>
    ensures { OnOk result ((l : Literal)
        → IsGiven (Contains clause.now l) number table.old table.new l) }
{
    for l in clause {
        table.set(*l, number)?;
    }
    Ok(())
}

// Gives each literal of a hint's clause a number.
fn mark_hint(
    log: &FadedLog,
    table: &mut LiteralNumbers,
    id: ClauseId,
    number: u64,
) -> Result<(), AllocError>
    ensures { OnOk result ((l : Literal)
        → IsGiven (HasIn (clause_at log.now.clauses) id l) number table.old table.new l) }
{
    match log.clause(id) {
        Some(clause) => mark(table, clause.literals(), number),
        None => Ok(()),
    }
}

// Gives each literal the number of the last hint with it, counted from 1, and 0 where no hint has it.
pub(crate) fn find_lasts(
    log: &FadedLog,
    lasts: &mut LiteralNumbers,
    hints: &Hints,
) -> Result<(), AllocError>
    ensures { OnOk result (AreLasts (clause_at log.now.clauses) lasts.new hints.now) }
{
    lasts.clear();
    for k in 0..hints.len() {
        mark_hint(log, lasts, hints.hint(k), k as u64 + 1)?;
    }
    Ok(())
}

// The first literal of a clause whose opposite is not in the table.
fn first_open(trues: &LiteralNumbers, clause: &[Lit]) -> Option<Lit>
    ensures { MatchOption result
        ((k : Literal) → Contains clause.now k → 0 < number_of trues.now (negated k))
        (λ l. Contains clause.now l × (number_of trues.now (negated l) ≡ 0)) }
{
    for l in clause {
        if trues.get(l.negated()) == 0 {
            return Some(*l);
        }
    }
    None
}

// Whether the opposite of each literal of a clause but this one is in the table.
fn is_only_open(trues: &LiteralNumbers, clause: &[Lit], sole: Lit) -> bool
    ensures { MatchBool result
        ((k : Literal) → Contains clause.now k → (k ≡ sole) ⊎ (0 < number_of trues.now (negated k)))
        ((k : Literal) × Contains clause.now k × (k ≢ sole)
        × (number_of trues.now (negated k) ≡ 0)) }
{
    for l in clause {
        if !is_closed(trues, *l, sole) {
            return false;
        }
    }
    true
}

// Whether a literal is the one that may be open, or false.
fn is_closed(trues: &LiteralNumbers, l: Lit, sole: Lit) -> bool
    ensures { MatchBool result ((l ≡ sole) ⊎ (0 < number_of trues.now (negated l))) ((l ≢ sole)
        × (number_of trues.now (negated l) ≡ 0)) }
{
    if l == sole {
        return true;
    }
    trues.get(l.negated()) != 0
}

// The one literal of a clause that is not false, if there is just one.
fn sole_open(trues: &LiteralNumbers, clause: &[Lit]) -> Option<Lit>
    ensures { (known : List Literal) → IsSetOf trues.now known
        → MatchOption result ((l : Literal) → ¬ (IsUnit known clause.now l))
        (IsUnit known clause.now) }
{
    let Some(l) = first_open(trues, clause) else {
        return None;
    };
    if !is_only_open(trues, clause, l) {
        return None;
    }
    Some(l)
}

// The one literal of a hint's clause that is not false, if there is just one.
fn open_at(log: &FadedLog, trues: &LiteralNumbers, id: ClauseId) -> Option<Lit>
    ensures { (known : List Literal) → IsSetOf trues.now known → MatchOption result
        ((h : List Literal) (l : Literal) → clause_at log.now.clauses id ≡ Some h
        → ¬ (IsUnit known h l))
        (λ l. (h : List Literal) × (clause_at log.now.clauses id ≡ Some h) × IsUnit known h l) }
{
    match log.clause(id) {
        Some(clause) => sole_open(trues, clause.literals()),
        None => None,
    }
}

// Whether each hint before the last makes a literal true whose opposite stands in a later hint.
pub(crate) fn are_used(
    log: &FadedLog,
    trues: &mut LiteralNumbers,
    lasts: &LiteralNumbers,
    hints: &Hints,
) -> Result<bool, AllocError>
    requires { AreLasts (clause_at log.now.clauses) lasts.now hints.now }
    ensures { IfOk result (λ b. (known : List Literal) → IsSetOf trues.old known →
        MatchBool b (EachIsUsed (clause_at log.now.clauses) known hints.now)
        (¬ (EachIsUsed (clause_at log.now.clauses) known hints.now))) }
{
    let count = hints.len();
    for k in 0..count {
        if k + 1 == count {
            return Ok(true);
        }
        let Some(l) = open_at(log, trues, hints.hint(k)) else {
            return Ok(false);
        };
        if lasts.get(l.negated()) <= k as u64 + 1 {
            return Ok(false);
        }
        trues.set(l, 1)?;
    }
    Ok(true)
}
