//! What follows from the definitions of gates and assignments alone.

ghost use Rattle.std.specs.Prelude.{◌≡◌, ℕ, ◌↔◌, Bool, true, List};
ghost use Rattle.cnf_base.specs.Literals.{Literal};
ghost use Rattle.cnf_base.specs.Clauses.{all_true};
ghost use Rattle.cnf_base.specs.declared.gate.GateKind.{GateKind};
ghost use Rattle.cnf_base.specs.Gates.{gates_clauses, HaveMeaning, AreOrdered};
ghost use Rattle.cnf_base.specs.Assignments.{AgreeBelow, ClausesBelow};
ghost use Rattle.cnf_base.specs.Circuits.{CircuitValue, Gains, MeansGates, IsDetermined};

/// The clauses of a row of gates are true exactly where each gate's variable has the gate's value.
pub fn gates_mean()
    ensures { (v : ℕ → Bool) (g : ℕ) (gates : List GateKind) →
        (all_true v (gates_clauses g gates) ≡ true) ↔ HaveMeaning v g gates }
{}

/// A circuit that gained gates has true clauses exactly where it had before and each gate has its meaning.
pub fn gains_mean()
    ensures { (old new : CircuitValue) (gates : List GateKind) → Gains old new gates
        → MeansGates old new gates }
{}

/// Where the inputs of each gate stand before it, the inputs alone decide what the gates are.
pub fn gates_are_determined()
    ensures { (f : ℕ → Bool) (g : ℕ) (gates : List GateKind) → AreOrdered g gates
        → IsDetermined f g gates }
{}

/// Clauses of variables below a number are true in two assignments alike that agree below it.
pub fn agreement_keeps_truth()
    ensures { (n : ℕ) (f g : ℕ → Bool) → AgreeBelow n f g → (clauses : List (List Literal))
        → ClausesBelow n clauses →
        all_true g clauses ≡ all_true f clauses }
{}
