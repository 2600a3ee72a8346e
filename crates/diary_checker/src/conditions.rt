//! The conditions on what may be put.

ghost use Rattle.std.specs.Prelude.{◌≡◌, ◌≢◌, ◌<◌, ℕ, true, List, Option, Contains, IfOk, OnOk, MatchBool, map};
ghost use Rattle.cnf_base.specs.Literals.{Literal, negated};
ghost use Rattle.cnf_base.specs.declared.clause.ClauseId.{ClauseId};
ghost use Rattle.hint_chain.specs.Chains.{HasPair};
ghost use Rattle.proof_log.specs.Logs.{clause_at};
ghost use Rattle.diary_checker.specs.Tables.{number_of, bit_in, filed_under, IsSetOf};
ghost use Rattle.diary_checker.specs.Uses.{MayBeUnder, Subsumes};

use crate::positions::Positions;
use crate::table::LiteralNumbers;
use crate::watches::Watches;
use cnf_base::{ClauseId, Lit};
use faded_log::FadedLog;
use proof_log::entry::Hints;
use std::alloc::AllocError;

// Makes the table the set of these literals.
pub(crate) fn insert(table: &mut LiteralNumbers, literals: &[Lit]) -> Result<(), AllocError>
    ensures { OnOk result (IsSetOf table.new literals.now) }
{
    table.clear();
    for l in literals {
        table.set(*l, 1)?;
    }
    Ok(())
}

// Makes the table the set of the opposites of a clause's literals.
pub(crate) fn negate(trues: &mut LiteralNumbers, clause: &[Lit]) -> Result<(), AllocError>
    ensures { OnOk result (IsSetOf trues.new (map negated clause.now)) }
{
    trues.clear();
    for l in clause {
        trues.set(l.negated(), 1)?;
    }
    Ok(())
}

// Whether each literal of a clause has a number that is not 0.
pub(crate) fn are_all_in(table: &LiteralNumbers, clause: &[Lit]) -> bool
    ensures { MatchBool result
        ((l : Literal) → Contains clause.now l → 0 < number_of table.now l)
        ((l : Literal) × Contains clause.now l × (number_of table.now l ≡ 0)) }
{
    for l in clause {
        if table.get(*l) == 0 {
            return false;
        }
    }
    true
}

// Whether each literal of a clause has the number 0.
pub(crate) fn is_none_in(table: &LiteralNumbers, clause: &[Lit]) -> bool
    ensures { MatchBool result
        ((l : Literal) → Contains clause.now l → number_of table.now l ≡ 0)
        ((l : Literal) × Contains clause.now l × (0 < number_of table.now l)) }
{
    for l in clause {
        if table.get(*l) != 0 {
            return false;
        }
    }
    true
}

// Whether one of the literals, of which this is the table, stands beside its opposite.
pub(crate) fn has_pair(own: &LiteralNumbers, clause: &[Lit]) -> bool
    requires { IsSetOf own.now clause.now }
    ensures { MatchBool result (HasPair clause.now) (¬ (HasPair clause.now)) }
{
    for l in clause {
        if own.get(l.negated()) != 0 {
            return true;
        }
    }
    false
}

// Whether each hint is held.
pub(crate) fn are_held(held: &Positions, hints: &Hints) -> bool
    ensures { MatchBool result
        ((id : ClauseId) → Contains hints.now id → bit_in held.now id.pos ≡ true)
        ((id : ClauseId) × Contains hints.now id × (bit_in held.now id.pos ≢ true)) }
{
    for k in 0..hints.len() {
        if !held.has(hints.hint(k).pos) {
            return false;
        }
    }
    true
}

// Whether a held clause of this name has no literal out of the table.
fn is_within(log: &FadedLog, held: &Positions, own: &LiteralNumbers, id: ClauseId) -> bool
    ensures { MatchBool result
        (Subsumes (clause_at log.now.clauses) (bit_in held.now) own.now id)
        (¬ (Subsumes (clause_at log.now.clauses) (bit_in held.now) own.now id)) }
{
    if !held.has(id.pos) {
        return false;
    }
    match log.clause(id) {
        Some(clause) => are_all_in(own, clause.literals()),
        None => false,
    }
}

// Whether one of these clauses is held and has no literal out of the table.
fn is_one_within(log: &FadedLog, held: &Positions, own: &LiteralNumbers, ids: &[ClauseId]) -> bool
    ensures { MatchBool result
        ((id : ClauseId) × Subsumes (clause_at log.now.clauses) (bit_in held.now) own.now id)
        ((id : ClauseId) → Contains ids.now id
        → ¬ (Subsumes (clause_at log.now.clauses) (bit_in held.now) own.now id)) }
{
    for id in ids {
        if is_within(log, held, own, *id) {
            return true;
        }
    }
    false
}

// Whether a held clause that is filed under a literal of the clause, or is empty, has no literal out of the table.
pub(crate) fn is_subsumed(
    log: &FadedLog,
    held: &Positions,
    watches: &Watches,
    own: &LiteralNumbers,
    clause: &[Lit],
) -> bool
    ensures { MatchBool result
        ((id : ClauseId) × Subsumes (clause_at log.now.clauses) (bit_in held.now) own.now id)
        ((id : ClauseId) (key : Option Literal) → MayBeUnder clause.now key
        → Contains (filed_under watches.now key) id
        → ¬ (Subsumes (clause_at log.now.clauses) (bit_in held.now) own.now id)) }
{
    if is_one_within(log, held, own, watches.under(None)) {
        return true;
    }
    for l in clause {
        if is_one_within(log, held, own, watches.under(Some(*l))) {
            return true;
        }
    }
    false
}
