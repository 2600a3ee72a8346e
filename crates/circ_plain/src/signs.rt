//! Negation, chosen by a literal too, and absolute value in two's complement.

ghost use Rattle.std.specs.Prelude.{◌≡◌, ℕ, ◌<◌, ◌≤◌, ◌+◌, ◌*◌, ◌^◌, Bool, true, if◌then◌else◌, IfOk, OnOk, OnErr, length};
ghost use Rattle.cnf_base.specs.Clauses.{lit_true, all_true, number};
ghost use Rattle.cnf_base.specs.Circuits.{Gains};
ghost use Rattle.smt_words.specs.Words.{neg_of, abs_of};
ghost use Rattle.circ_plain.specs.Signs.{neg_gates, neg_bits, signed_gates, signed_bits, abs_gates};

use crate::rows::{complement, repeated, sign};
use cnf_base::{Circuit, Lit};
use std::alloc::AllocError;

/// The negation: the complement of the bits, and one.
pub fn neg(circuit: &mut Circuit, a: &[Lit]) -> Result<Vec<Lit>, AllocError>
    requires room { circuit.old.next + 3 * length a.now ≤ 2 ^ 63 }
    ensures gains { OnOk result (Gains circuit.old circuit.new (neg_gates circuit.old.next a.now)) }
    ensures bits { IfOk result (λ r. r.items ≡ neg_bits circuit.old.next a.now) }
    ensures number { IfOk result (λ r. (v : ℕ → Bool) → v 1 ≡ true
        → all_true v circuit.new.clauses ≡ true →
        number v r.items ≡ neg_of (length a.now) (number v a.now)) }
    ensures err { OnErr result (circuit.new ≡ circuit.old) }
{
    let opposite = complement(circuit.alloc(), a)?;
    let zeros = repeated(circuit.alloc(), Lit::FALSE, a.len())?;
    let (bits, _carry) = circuit.add_with(opposite.as_slice(), zeros.as_slice(), Lit::TRUE)?;
    Ok(bits)
}

/// The negation where a literal is true, else the bits.
pub fn signed(circuit: &mut Circuit, negative: Lit, a: &[Lit]) -> Result<Vec<Lit>, AllocError>
    requires room { circuit.old.next + 4 * length a.now ≤ 2 ^ 63 }
    ensures gains { OnOk result
        (Gains circuit.old circuit.new (signed_gates circuit.old.next negative a.now)) }
    ensures bits { IfOk result (λ r. r.items ≡ signed_bits circuit.old.next a.now) }
    ensures number { IfOk result (λ r. (v : ℕ → Bool) → v 1 ≡ true
        → all_true v circuit.new.clauses ≡ true →
        number v r.items
        ≡ (if lit_true v negative then neg_of (length a.now) (number v a.now) else number v
        a.now)) }
    ensures err { OnErr result (circuit.new ≡ circuit.old) }
{
    let mut added = circuit.part();
    let negation = neg(&mut added, a)?;
    let bits = added.mux(negative, negation.as_slice(), a)?;
    circuit.append(added)?;
    Ok(bits)
}

/// The absolute value: the negation where the sign is true, else the bits.
pub fn abs(circuit: &mut Circuit, a: &[Lit]) -> Result<Vec<Lit>, AllocError>
    requires some { 0 < length a.now }
    requires room { circuit.old.next + 4 * length a.now ≤ 2 ^ 63 }
    ensures gains { OnOk result (Gains circuit.old circuit.new (abs_gates circuit.old.next a.now)) }
    ensures bits { IfOk result (λ r. r.items ≡ signed_bits circuit.old.next a.now) }
    ensures number { IfOk result (λ r. (v : ℕ → Bool) → v 1 ≡ true
        → all_true v circuit.new.clauses ≡ true →
        number v r.items ≡ abs_of (length a.now) (number v a.now)) }
    ensures err { OnErr result (circuit.new ≡ circuit.old) }
{
    signed(circuit, sign(a), a)
}
