//! Sums.

ghost use Rattle.std.specs.Prelude.{◌≡◌, ℕ, ◌+◌, ◌*◌, ◌^◌, ◌≤◌, ◌<◌, [], ◌∷◌, Bool, true, IfOk, OnOk, OnErr, length};
ghost use Rattle.cnf_base.specs.Literals.{positive_of};
ghost use Rattle.cnf_base.specs.Clauses.{lit_true, all_true, number, bit};
ghost use Rattle.cnf_base.specs.Adders.{add_gates, add_bits, add_carry};
ghost use Rattle.cnf_base.specs.Circuits.{Gains};

use crate::{Circuit, GateKind, Lit};
use std::alloc::AllocError;

impl Circuit {
    /// The sum of two numbers of equally many bits, the lowest bit first, and a carry: its bits, and the last carry.
    pub fn add_with(
        &mut self,
        a: &[Lit],
        b: &[Lit],
        carry: Lit,
    ) -> Result<(Vec<Lit>, Lit), AllocError>
        requires same { length a.now ≡ length b.now }
        requires room { self.old.next + 3 * length a.now ≤ 2 ^ 63 }
        ensures gains { OnOk result
            (Gains self.old self.new (add_gates self.old.next a.now b.now carry)) }
        ensures bits { IfOk result (λ r. r.0.items ≡ add_bits self.old.next a.now b.now) }
        ensures carry { IfOk result (λ r. r.1 ≡ add_carry self.old.next a.now b.now carry) }
        ensures sum { IfOk result (λ r. (v : ℕ → Bool) → all_true v self.new.clauses ≡ true →
            number v r.0.items + 2 ^ length a.now * bit (lit_true v r.1)
            ≡ number v a.now + number v b.now + bit (lit_true v carry)) }
        ensures err { OnErr result (self.new ≡ self.old) }
    {
        let mut added = self.part();
        let sum = added.add_places(a, b, carry)?;
        self.append(added)?;
        Ok(sum)
    }

    // A sum; where memory is wanting, some of its gates stand.
    fn add_places(
        &mut self,
        a: &[Lit],
        b: &[Lit],
        carry: Lit,
    ) -> Result<(Vec<Lit>, Lit), AllocError>
        requires same { length a.now ≡ length b.now }
        requires room { self.old.next + 3 * length a.now ≤ 2 ^ 63 }
        ensures gains { OnOk result
            (Gains self.old self.new (add_gates self.old.next a.now b.now carry)) }
        ensures bits { IfOk result (λ r. r.0.items ≡ add_bits self.old.next a.now b.now) }
        ensures carry { IfOk result (λ r. r.1 ≡ add_carry self.old.next a.now b.now carry) }
    {
        let mut bits = Vec::with_capacity(self.alloc(), a.len())?;
        let mut last = carry;
        for k in 0..a.len() {
            let (bit, next) = self.add_place(a[k], b[k], last)?;
            bits.push(bit)?;
            last = next;
        }
        Ok((bits, last))
    }

    // One place of a sum: its bit, and its carry.
    fn add_place(&mut self, a: Lit, b: Lit, carry: Lit) -> Result<(Lit, Lit), AllocError>
        requires { self.old.next + 3 ≤ 2 ^ 63 }
        ensures gains { OnOk result
            (Gains self.old self.new (add_gates self.old.next (a ∷ []) (b ∷ []) carry)) }
        ensures bit { IfOk result (λ r. r.0 ≡ positive_of (self.old.next + 1)) }
        ensures carry { IfOk result (λ r. r.1 ≡ positive_of (self.old.next + 2)) }
    {
        let differ = self.gate(GateKind::Xor(a, b))?;
        let bit = self.gate(GateKind::Xor(differ, carry))?;
        let next = self.gate(GateKind::Ite(differ, carry, a))?;
        Ok((bit, next))
    }
}
