//! The reading of a chain.

ghost use Rattle.std.specs.Prelude.{◌≡◌, ◌≢◌, ◌<◌, ◌≤◌, [], List, Option, Some, None, OnOk, IfSome, MatchBool, MatchOption, MatchResult, length, map};
ghost use Rattle.std.specs.Bool.{OnFalse};
ghost use Rattle.std.specs.Option.{option_copied};
ghost use Rattle.cnf_base.specs.Literals.{Literal, negated};
ghost use Rattle.cnf_base.specs.Assignments.{AreBelow};
ghost use Rattle.cnf_base.specs.declared.clause.ClauseId.{ClauseId};
ghost use Rattle.hint_chain.specs.Chains.{HasPair, ChainFrom, IsChain, Follows};
ghost use Rattle.hint_chain.specs.Faults.{FaultFrom, FirstFault, HasShape, fault_at};
ghost use Rattle.hint_chain.specs.Marks.{Agrees, HasPlace, HasRoom};

use crate::marks::{Marks, Rounds};
use crate::shape::{Shape, shape_of};
use crate::{ChainFault, FaultKind, Hints};
use cnf_base::{Clause, ClauseId, Lit};

/// A holder of clauses, each under a name.
pub trait Clauses {
    /// The clause of a name.
    ghost look: { Self → ClauseId → Option (List Literal) };

    /// The clause of a name, if there is one.
    fn clause(&self, id: ClauseId) -> Option<&Clause>
        ensures { option_copied result ≡ look self.now id };
}

/// Ok where the hints are a chain for the clause, else their first fault. It takes no memory, and a
/// time that is linear in the literals of the clause and of those that it reads, but for a sweep of
/// the marks once in 2^32 calls.
pub fn follows<C: Clauses>(
    clauses: &C,
    clause: &Clause,
    hints: &Hints,
    marks: &mut Marks,
) -> Result<(), ChainFault>
    requires room { AreBelow marks.old clause.now }
    requires rooms { (id : ClauseId) (h : List Literal) → C.look clauses.now id ≡ Some h
        → AreBelow marks.old h }
    ensures exactly { MatchResult result
        (λ _. IsChain (C.look clauses.now) clause.now hints.now)
        (FirstFault (C.look clauses.now) clause.now hints.now) }
    ensures sound { OnOk result (Follows (C.look clauses.now) clause.now hints.now) }
    ensures marks { marks.new ≡ marks.old }
{
    let trues = &mut marks.rounds;
    trues.begin();
    if !negate(trues, clause.literals()) {
        return read(clauses, trues, hints);
    }
    if hints.is_empty() {
        return Ok(());
    }
    Err(ChainFault::at(0, FaultKind::Needless))
}

// Marks the opposites of a clause's literals, as far as none of them stands beside its opposite: true where one does.
fn negate(trues: &mut Rounds, clause: &[Lit]) -> bool
    requires room { HasRoom trues.old clause.now }
    requires none { Agrees trues.old [] }
    ensures room { length trues.new.stamps ≡ length trues.old.stamps }
    ensures pair { MatchBool result (HasPair clause.now) (¬ (HasPair clause.now)) }
    ensures agrees { OnFalse result (Agrees trues.new (map negated clause.now)) }
{
    for l in clause {
        if trues.is_marked(*l) {
            return true;
        }
        trues.mark(l.negated());
    }
    false
}

// Reads the hints in order, from the marked literals.
fn read<C: Clauses>(clauses: &C, trues: &mut Rounds, hints: &Hints) -> Result<(), ChainFault>
    requires { (id : ClauseId) (h : List Literal) → C.look clauses.now id ≡ Some h
        → HasRoom trues.old h }
    ensures room { length trues.new.stamps ≡ length trues.old.stamps }
    ensures exactly { (known : List Literal) → Agrees trues.old known → MatchResult result
        (λ _. ChainFrom (C.look clauses.now) known hints.now)
        (FaultFrom (C.look clauses.now) known 0 hints.now) }
{
    let count = hints.len();
    for k in 0..count {
        let Some(shape) = shape_at(clauses, trues, hints.hint(k)) else {
            return Err(ChainFault::at(k, FaultKind::Missing));
        };
        if k + 1 == count {
            return last(k, shape);
        }
        match shape {
            Shape::AllFalse => return Err(ChainFault::at(k, FaultKind::Early)),
            Shape::Many => return Err(ChainFault::at(k, FaultKind::Wide)),
            Shape::OneOpen(l) => trues.mark(l),
        }
    }
    Err(ChainFault::at(0, FaultKind::Empty))
}

// The shape of the clause that a hint names, if there is one.
fn shape_at<C: Clauses>(clauses: &C, trues: &Rounds, id: ClauseId) -> Option<Shape>
    requires { (i : ClauseId) (h : List Literal) → C.look clauses.now i ≡ Some h
        → HasRoom trues.now h }
    ensures shape { MatchOption result (C.look clauses.now id ≡ None) (λ s.
        (h : List Literal) × (C.look clauses.now id ≡ Some h)
        × ((known : List Literal) → Agrees trues.now known → HasShape known h s)) }
    ensures room { IfSome result (λ s. (l : Literal) → s ≡ Shape.OneOpen l → HasPlace trues.now l) }
{
    match clauses.clause(id) {
        None => None,
        Some(clause) => Some(shape_of(trues, clause.literals())),
    }
}

// What the last hint says, by the shape of its clause.
fn last(k: usize, shape: Shape) -> Result<(), ChainFault>
    ensures { MatchResult result (λ _. shape ≡ Shape.AllFalse) (λ f. (shape ≢ Shape.AllFalse)
        × (f ≡ fault_at k FaultKind.Loose)) }
{
    match shape {
        Shape::AllFalse => Ok(()),
        _ => Err(ChainFault::at(k, FaultKind::Loose)),
    }
}
