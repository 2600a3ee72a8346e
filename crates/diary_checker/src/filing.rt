//! What is held, with its clauses filed.

ghost use Rattle.std.specs.Prelude.{◌≡◌, ◌≢◌, ◌≤◌, ◌⊎◌, ◌&&◌, ◌||◌, ◌+◌, not, ltb, true, false, Bool, ℕ, List, Option, Some, Contains, OnOk, OnErr, length};
ghost use Rattle.cnf_base.specs.Literals.{Literal};
ghost use Rattle.cnf_base.specs.declared.clause.ClauseId.{ClauseId};
ghost use Rattle.proof_log.specs.Logs.{clause_at, entry_at};
ghost use Rattle.proof_log.specs.Diaries.{is_chain, with_held};
ghost use Rattle.diary_checker.specs.Tables.{bit_in, filed_under, IsFiled, IsShortest};
ghost use Rattle.proof_text.specs.Deletions.{is_deleted};
ghost use Rattle.diary_checker.specs.Uses.{AreFiled, MayBeUnder};
ghost use Rattle.diary_checker.specs.Starts.{IsBroughtTo};

use crate::literals::ClauseLiterals;
use crate::positions::Positions;
use crate::watches::Watches;
use cnf_base::{ClauseId, Lit, Pos};
use faded_log::FadedLog;
use proof_log::entry::Entry;
use std::alloc::AllocError;

// Whether a chain stands at a position.
pub(crate) fn is_chain_at(log: &FadedLog, at: Pos) -> bool
    ensures { result ≡ is_chain (entry_at log.now.entries at) }
{
    match log.entry(at) {
        Some(Entry::Chain(_, _)) => true,
        _ => false,
    }
}

// Of a literal and the key so far, the one under which fewer clauses are filed.
fn shorter(watches: &Watches, key: Option<Lit>, l: Lit) -> Lit
    ensures one { (result ≡ l) ⊎ (key ≡ Some result) }
    ensures here { length (filed_under watches.now (Some result))
        ≤ length (filed_under watches.now (Some l)) }
    ensures before { (k : Literal) → key ≡ Some k → length (filed_under watches.now (Some result))
        ≤ length (filed_under watches.now (Some k)) }
{
    let Some(k) = key else {
        return l;
    };
    if watches.under(Some(l)).len() < watches.under(key).len() {
        l
    } else {
        k
    }
}

// The literal of a clause under which fewest clauses are filed.
fn key_of(watches: &Watches, clause: &[Lit]) -> Option<Lit>
    ensures { IsShortest watches.now clause.now result }
{
    let mut key = None;
    for l in clause {
        key = Some(shorter(watches, key, *l));
    }
    key
}

// Files each clause of a position under the literal whose list is shortest. A position with as many clauses as there are names has no room.
fn file(watches: &mut Watches, log: &FadedLog, at: Pos) -> Result<(), AllocError>
    ensures kept { (k : Option Literal) (i : ClauseId) → Contains (filed_under watches.old k) i
        → Contains (filed_under watches.new k) i }
    ensures filed { OnOk result ((id : ClauseId) (c : List Literal) → id.pos ≡ at
        → clause_at log.now.clauses id ≡ Some c → IsFiled watches.new id c) }
{
    for part in 0..u32::MAX {
        let id = ClauseId { pos: at, part };
        let Some(clause) = log.clause(id) else {
            return Ok(());
        };
        let key = key_of(watches, clause.literals());
        watches.add(key, id)?;
    }
    Err(AllocError)
}

// Holds a position, and files its clauses unless they are. For want of memory the same is held, and what was filed stays.
pub(crate) fn hold(
    held: &mut Positions,
    watches: &mut Watches,
    log: &FadedLog,
    at: Pos,
) -> Result<(), AllocError>
    ensures held { OnOk result ((p : ℕ)
        → bit_in held.new p ≡ with_held (bit_in held.old) at true p) }
    ensures filed { OnOk result (AreFiled (clause_at log.now.clauses) (bit_in held.old) watches.old
        → AreFiled (clause_at log.now.clauses) (bit_in held.new) watches.new) }
    ensures kept { (k : Option Literal) (i : ClauseId) → Contains (filed_under watches.old k) i
        → Contains (filed_under watches.new k) i }
    ensures err { OnErr result ((p : ℕ) → bit_in held.new p ≡ bit_in held.old p) }
{
    if held.has(at) {
        return Ok(());
    }
    file(watches, log, at)?;
    held.set(at, true)
}

// Holds a position for a diary's own line, and notes it where it was not held.
pub(crate) fn bring(
    held: &mut Positions,
    watches: &mut Watches,
    brought: &mut Vec<Pos>,
    log: &FadedLog,
    at: Pos,
) -> Result<(), AllocError>
    ensures held { OnOk result ((p : ℕ)
        → bit_in held.new p ≡ with_held (bit_in held.old) at true p) }
    ensures filed { OnOk result (AreFiled (clause_at log.now.clauses) (bit_in held.old) watches.old
        → AreFiled (clause_at log.now.clauses) (bit_in held.new) watches.new) }
    ensures kept { (k : Option Literal) (i : ClauseId) → Contains (filed_under watches.old k) i
        → Contains (filed_under watches.new k) i }
    ensures err { OnErr result ((p : ℕ) → bit_in held.new p ≡ bit_in held.old p) }
    ensures back { (start : ℕ → Bool) → IsBroughtTo start (bit_in held.old) brought.old.items
        → IsBroughtTo start (bit_in held.new) brought.new.items }
{
    if held.has(at) {
        return Ok(());
    }
    brought.push(at)?;
    hold(held, watches, log, at)
}

// Takes a position out of the lists in which its clause may be filed.
pub(crate) fn unfile(watches: &mut Watches, at: Pos, clause: &[Lit])
    ensures kept { (k : Option Literal) (i : ClauseId) → i.pos ≢ at
        → Contains (filed_under watches.old k) i → Contains (filed_under watches.new k) i }
    ensures gone { (k : Option Literal) (i : ClauseId) → MayBeUnder clause.now k
        → Contains (filed_under watches.new k) i → i.pos ≢ at }
{
    watches.remove(None, at);
    for l in clause {
        watches.remove(Some(*l), at);
    }
}

// Takes a position out of the lists in which its clauses may be filed, of each once.
fn unfile_all(
    watches: &mut Watches,
    own: &mut ClauseLiterals,
    log: &FadedLog,
    at: Pos,
) -> Result<(), AllocError>
    ensures { (k : Option Literal) (i : ClauseId) → i.pos ≢ at
        → Contains (filed_under watches.old k) i → Contains (filed_under watches.new k) i }
{
    for part in 0..u32::MAX {
        let Some(clause) = log.clause(ClauseId { pos: at, part }) else {
            return Ok(());
        };
        own.collect(clause.literals())?;
        unfile(watches, at, own.each.as_slice());
    }
    Ok(())
}

// Gives up a position that a diary brought.
fn take_back(
    held: &mut Positions,
    watches: &mut Watches,
    own: &mut ClauseLiterals,
    log: &FadedLog,
    at: Pos,
) -> Result<(), AllocError>
    ensures held { OnOk result ((p : ℕ)
        → bit_in held.new p ≡ with_held (bit_in held.old) at false p) }
    ensures filed { OnOk result (AreFiled (clause_at log.now.clauses) (bit_in held.old) watches.old
        → AreFiled (clause_at log.now.clauses) (bit_in held.new) watches.new) }
{
    unfile_all(watches, own, log, at)?;
    held.set(at, false)
}

// Gives up all positions that a diary brought.
pub(crate) fn take_all_back(
    held: &mut Positions,
    watches: &mut Watches,
    own: &mut ClauseLiterals,
    log: &FadedLog,
    brought: &[Pos],
) -> Result<(), AllocError>
    ensures held { OnOk result ((start : ℕ → Bool)
        → IsBroughtTo start (bit_in held.old) brought.now
        → (p : ℕ) → bit_in held.new p ≡ start p) }
    ensures filed { OnOk result (AreFiled (clause_at log.now.clauses) (bit_in held.old) watches.old
        → AreFiled (clause_at log.now.clauses) (bit_in held.new) watches.new) }
{
    for at in brought {
        take_back(held, watches, own, log, *at)?;
    }
    Ok(())
}

// Leaves out these places.
pub(crate) fn leave_out(held: &mut Positions, places: &[u64]) -> Result<(), AllocError>
    ensures { OnOk result ((p : ℕ)
        → bit_in held.new p ≡ (bit_in held.old p && not (is_deleted places.now p))) }
{
    for place in places {
        held.set(*place, false)?;
    }
    Ok(())
}

// Whether a position is deleted or a chain's.
fn is_left_out(log: &FadedLog, deleted: &Positions, at: Pos) -> bool
    ensures { result ≡ (bit_in deleted.now at || is_chain (entry_at log.now.entries at)) }
{
    deleted.has(at) || is_chain_at(log, at)
}

// Holds a position unless it is deleted or a chain's.
fn hold_plain(
    held: &mut Positions,
    watches: &mut Watches,
    log: &FadedLog,
    deleted: &Positions,
    at: Pos,
) -> Result<(), AllocError>
    ensures held { OnOk result
        (((p : ℕ) → bit_in held.old p
        ≡ (ltb p at && not (bit_in deleted.now p || is_chain (entry_at log.now.entries p))))
        → (p : ℕ) → bit_in held.new p
        ≡ (ltb p (at + 1)
        && not (bit_in deleted.now p || is_chain (entry_at log.now.entries p)))) }
    ensures filed { OnOk result (AreFiled (clause_at log.now.clauses) (bit_in held.old) watches.old
        → AreFiled (clause_at log.now.clauses) (bit_in held.new) watches.new) }
{
    if is_left_out(log, deleted, at) {
        return Ok(());
    }
    hold(held, watches, log, at)
}

// Holds all positions from one on and before another that are neither deleted nor a chain's, where those before the first are.
pub(crate) fn hold_from(
    held: &mut Positions,
    watches: &mut Watches,
    log: &FadedLog,
    deleted: &Positions,
    first: Pos,
    from: Pos,
) -> Result<(), AllocError>
    requires order { first ≤ from }
    requires before { (p : ℕ) → bit_in held.old p
        ≡ (ltb p first
        && not (bit_in deleted.now p || is_chain (entry_at log.now.entries p))) }
    requires filed { AreFiled (clause_at log.now.clauses) (bit_in held.old) watches.old }
    ensures held { OnOk result ((p : ℕ) → bit_in held.new p
        ≡ (ltb p from && not (bit_in deleted.now p || is_chain (entry_at log.now.entries p)))) }
    ensures filed { OnOk result
        (AreFiled (clause_at log.now.clauses) (bit_in held.new) watches.new) }
{
    for at in first..from {
        hold_plain(held, watches, log, deleted, at)?;
    }
    Ok(())
}
