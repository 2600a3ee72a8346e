//! Circuits under construction.

ghost use Rattle.std.specs.Prelude.{◌≡◌, ℕ, ◌+◌, ◌<◌, ◌≤◌, ◌^◌, ◌↔◌, ◌++◌, [], ◌∷◌, Bool, true, List, IfOk, OnOk, OnErr, length};
ghost use Rattle.cnf_base.specs.Literals.{positive_of};
ghost use Rattle.cnf_base.specs.Clauses.{lit_true, all_true};
ghost use Rattle.cnf_base.specs.declared.gate.GateKind.{GateKind};
ghost use Rattle.cnf_base.specs.Gates.{gate_value, gate_clauses};
ghost use Rattle.cnf_base.specs.Circuits.{Gains, Extends};

use crate::{Clause, GateKind, Lit};
use std::alloc::{AllocError, Global};
use std::marker::Model;

/// A circuit under construction: the next variable, and the clauses of its gates.
#[derive(Debug, Drop)]
pub struct Circuit {
    next: u64,
    clauses: Vec<Clause>,
    alloc: Global,
}

impl Model for Circuit {
    ghost use Rattle.std.specs.Prelude.{◌<◌};
    ghost use Rattle.cnf_base.specs.Circuits.{CircuitValue};

    ghost Value = { CircuitValue };

    ghost view = { λ c. record { next = c.next; clauses = c.clauses.items } };

    ghost invariant = { λ c. 1 < c.next };
}

impl Circuit {
    /// The circuit without a gate, whose variables begin at `next`; variable 1 is the one that is always true.
    pub fn new(alloc: Global, next: u64) -> Circuit
        requires { 1 < next }
        ensures next { result.next ≡ next }
        ensures clauses { result.clauses ≡ [] }
    {
        Circuit {
            next,
            clauses: Vec::new(alloc),
            alloc,
        }
    }

    /// The variable that the next gate takes.
    pub fn next(&self) -> u64
        ensures next { result ≡ self.now.next }
        ensures above_one { 1 < result }
    {
        self.next
    }

    /// What takes the memory of the circuit.
    pub fn alloc(&self) -> Global {
        self.alloc
    }

    /// The clauses of the gates, in the order in which these were made.
    pub fn clauses(&self) -> &[Clause]
        ensures { result.now ≡ self.now.clauses }
    {
        self.clauses.as_slice()
    }

    /// The clauses of the gates, in the order in which these were made.
    pub fn into_clauses(self) -> Vec<Clause>
        ensures { result.items ≡ self.clauses }
    {
        self.clauses
    }

    /// The literal of the next variable, of which no clause speaks.
    pub fn fresh(&mut self) -> Lit
        requires { self.old.next < 2 ^ 63 }
        ensures literal { result ≡ positive_of self.old.next }
        ensures new { self.new ≡ record { next = self.old.next + 1; clauses = self.old.clauses } }
    {
        let literal = Lit::new(self.next, true);
        self.next += 1;
        literal
    }

    /// The literal of one gate more, whose variable is the next one.
    pub fn gate(&mut self, kind: GateKind) -> Result<Lit, AllocError>
        requires { self.old.next < 2 ^ 63 }
        ensures literal { IfOk result (λ l. l ≡ positive_of self.old.next) }
        ensures gains { OnOk result (Gains self.old self.new (kind ∷ [])) }
        ensures meaning { IfOk result (λ l. (v : ℕ → Bool) →
            (all_true v self.new.clauses ≡ true)
            ↔ ((all_true v self.old.clauses ≡ true) × (lit_true v l ≡ gate_value v kind))) }
        ensures err { OnErr result (self.new ≡ self.old) }
    {
        self.put_gate(kind)
    }

    /// The circuit without a gate that begins at this one's next variable.
    pub fn part(&self) -> Circuit
        ensures { result ≡ record { next = self.now.next; clauses = [] } }
    {
        Circuit::new(self.alloc, self.next)
    }

    /// Adds what a circuit has that began at this one's next variable.
    pub fn append(&mut self, part: Circuit) -> Result<(), AllocError>
        ensures ok { OnOk result
            (self.new ≡ record { next = part.next; clauses = self.old.clauses ++ part.clauses }) }
        ensures gains { OnOk result ((gates : List GateKind) →
            Gains (record { next = self.old.next; clauses = [] }) part gates
            → Gains self.old self.new gates) }
        ensures err { OnErr result (self.new ≡ self.old) }
    {
        let mut part = part;
        self.clauses.append(&mut part.clauses)?;
        self.next = part.next;
        Ok(())
    }

    fn put_gate(&mut self, kind: GateKind) -> Result<Lit, AllocError>
        requires { self.old.next < 2 ^ 63 }
        ensures literal { IfOk result (λ l. l ≡ positive_of self.old.next) }
        ensures gains { OnOk result (Gains self.old self.new (kind ∷ [])) }
        ensures err { OnErr result (self.new ≡ self.old) }
    {
        let held = self.clauses.len();
        let gate = Lit::new(self.next, true);
        match self.put_clauses(gate, kind) {
            Ok(()) => {
                self.next += 1;
                Ok(gate)
            }
            Err(error) => {
                self.clauses.truncate(held);
                Err(error)
            }
        }
    }

    // The clauses of a gate; where memory is wanting, some of them stand.
    fn put_clauses(&mut self, gate: Lit, kind: GateKind) -> Result<(), AllocError>
        requires { gate ≡ positive_of self.old.next }
        ensures next { self.new.next ≡ self.old.next }
        ensures clauses { OnOk result
            (self.new.clauses ≡ self.old.clauses ++ gate_clauses self.old.next kind) }
        ensures err { OnErr result (Extends self.old self.new) }
    {
        let not_gate = gate.negated();
        match kind {
            GateKind::And(a, b) => {
                self.put_two(not_gate, a)?;
                self.put_two(not_gate, b)?;
                self.put_three(gate, a.negated(), b.negated())
            }
            GateKind::Xor(a, b) => {
                self.put_three(not_gate, a, b)?;
                self.put_three(not_gate, a.negated(), b.negated())?;
                self.put_three(gate, a.negated(), b)?;
                self.put_three(gate, a, b.negated())
            }
            GateKind::Ite(c, a, b) => {
                self.put_three(not_gate, c.negated(), a)?;
                self.put_three(gate, c.negated(), a.negated())?;
                self.put_three(not_gate, c, b)?;
                self.put_three(gate, c, b.negated())
            }
        }
    }

    fn put_two(&mut self, a: Lit, b: Lit) -> Result<(), AllocError>
        ensures next { self.new.next ≡ self.old.next }
        ensures clauses { OnOk result (self.new.clauses ≡ self.old.clauses ++ (a ∷ b ∷ []) ∷ []) }
        ensures err { OnErr result (self.new ≡ self.old) }
    {
        let clause = Clause::of_two(self.alloc, a, b)?;
        self.clauses.push(clause)?;
        Ok(())
    }

    fn put_three(&mut self, a: Lit, b: Lit, c: Lit) -> Result<(), AllocError>
        ensures next { self.new.next ≡ self.old.next }
        ensures clauses { OnOk result (self.new.clauses ≡ self.old.clauses ++ (a ∷ b ∷ c ∷ [])
            ∷ []) }
        ensures err { OnErr result (self.new ≡ self.old) }
    {
        let clause = Clause::of_three(self.alloc, a, b, c)?;
        self.clauses.push(clause)?;
        Ok(())
    }
}
