//! The choice between two rows of bits, and their equality.

ghost use Rattle.std.specs.Prelude.{◌≡◌, ℕ, ◌+◌, ◌*◌, ◌^◌, ◌≤◌, ◌==◌, ◌&&◌, [], ◌∷◌, if◌then◌else◌, Bool, true, IfOk, OnOk, OnErr, length};
ghost use Rattle.cnf_base.specs.Literals.{positive_of, true_literal};
ghost use Rattle.cnf_base.specs.Clauses.{lit_true, all_true, number};
ghost use Rattle.cnf_base.specs.Assignments.{fresh_bits};
ghost use Rattle.cnf_base.specs.Choices.{mux_gates, equal_gates, equal_bit};
ghost use Rattle.cnf_base.specs.Circuits.{Gains};

use crate::{Circuit, GateKind, Lit};
use std::alloc::AllocError;

impl Circuit {
    /// The bits of the first row where `c` is true, else those of the second, which is as long.
    pub fn mux(&mut self, c: Lit, a: &[Lit], b: &[Lit]) -> Result<Vec<Lit>, AllocError>
        requires same { length a.now ≡ length b.now }
        requires room { self.old.next + length a.now ≤ 2 ^ 63 }
        ensures gains { OnOk result (Gains self.old self.new (mux_gates c a.now b.now)) }
        ensures bits { IfOk result (λ r. r.items ≡ fresh_bits self.old.next (length a.now)) }
        ensures choice { IfOk result (λ r. (v : ℕ → Bool) → all_true v self.new.clauses ≡ true →
            number v r.items ≡ (if lit_true v c then number v a.now else number v b.now)) }
        ensures err { OnErr result (self.new ≡ self.old) }
    {
        let mut added = self.part();
        let bits = added.mux_places(c, a, b)?;
        self.append(added)?;
        Ok(bits)
    }

    /// The literal that is true where two rows of equally many bits are equal.
    pub fn equal(&mut self, a: &[Lit], b: &[Lit]) -> Result<Lit, AllocError>
        requires same { length a.now ≡ length b.now }
        requires room { self.old.next + 2 * length a.now ≤ 2 ^ 63 }
        ensures gains { OnOk result
            (Gains self.old self.new (equal_gates self.old.next true_literal a.now b.now)) }
        ensures literal { IfOk result (λ l. l ≡ equal_bit self.old.next true_literal a.now b.now) }
        ensures equality { IfOk result (λ l. (v : ℕ → Bool) → all_true v self.new.clauses ≡ true →
            lit_true v l ≡ (lit_true v true_literal && (number v a.now == number v b.now))) }
        ensures err { OnErr result (self.new ≡ self.old) }
    {
        let mut added = self.part();
        let literal = added.equal_places(a, b)?;
        self.append(added)?;
        Ok(literal)
    }

    // A choice; where memory is wanting, some of its gates stand.
    fn mux_places(&mut self, c: Lit, a: &[Lit], b: &[Lit]) -> Result<Vec<Lit>, AllocError>
        requires same { length a.now ≡ length b.now }
        requires room { self.old.next + length a.now ≤ 2 ^ 63 }
        ensures gains { OnOk result (Gains self.old self.new (mux_gates c a.now b.now)) }
        ensures bits { IfOk result (λ r. r.items ≡ fresh_bits self.old.next (length a.now)) }
    {
        let mut bits = Vec::with_capacity(self.alloc(), a.len())?;
        for k in 0..a.len() {
            let bit = self.gate(GateKind::Ite(c, a[k], b[k]))?;
            bits.push(bit)?;
        }
        Ok(bits)
    }

    // An equality; where memory is wanting, some of its gates stand.
    fn equal_places(&mut self, a: &[Lit], b: &[Lit]) -> Result<Lit, AllocError>
        requires same { length a.now ≡ length b.now }
        requires room { self.old.next + 2 * length a.now ≤ 2 ^ 63 }
        ensures gains { OnOk result
            (Gains self.old self.new (equal_gates self.old.next true_literal a.now b.now)) }
        ensures literal { IfOk result (λ l. l ≡ equal_bit self.old.next true_literal a.now b.now) }
    {
        let places = a.len();
        let mut equal = Lit::TRUE;
        for k in 0..places {
            equal = self.equal_place(equal, a[k], b[k])?;
        }
        Ok(equal)
    }

    // One place of an equality: whether it and those before it are equal.
    fn equal_place(&mut self, before: Lit, a: Lit, b: Lit) -> Result<Lit, AllocError>
        requires { self.old.next + 2 ≤ 2 ^ 63 }
        ensures gains { OnOk result
            (Gains self.old self.new (equal_gates self.old.next before (a ∷ []) (b ∷ []))) }
        ensures literal { IfOk result (λ l. l ≡ positive_of (self.old.next + 1)) }
    {
        let differ = self.gate(GateKind::Xor(a, b))?;
        let both = self.gate(GateKind::And(before, differ.negated()))?;
        Ok(both)
    }
}
