//! Signed quotients, remainders and moduli, of words in two's complement.

ghost use Rattle.std.specs.Prelude.{◌≡◌, ℕ, ◌+◌, ◌^◌, ◌≤◌, ◌<◌, Bool, true, IfOk, OnOk, OnErr, length};
ghost use Rattle.cnf_base.specs.Clauses.{all_true, number};
ghost use Rattle.cnf_base.specs.Circuits.{Gains};
ghost use Rattle.smt_words.specs.Words.{sdiv_of, srem_of, smod_of};
ghost use Rattle.circ_muldiv.specs.Signed.{magnitudes, sdiv_gates, sdiv_bits, srem_gates, srem_bits, smod_gates, smod_bits};
ghost use Rattle.circ_muldiv.specs.Sizes.{magnitudes_size, sdiv_size, srem_size, smod_size};

use crate::products::put_sum;
use crate::quotients::put_division;
use crate::rows::zeros;
use circ_plain::{abs, neg, sign, signed};
use cnf_base::{Circuit, GateKind, Lit};
use std::alloc::AllocError;

/// The quotient of two words of one width, lowest bits first, rounded towards 0: that of the absolute values, negated
/// where one word is negative and the other is not.
pub fn sdiv(circuit: &mut Circuit, a: &[Lit], b: &[Lit]) -> Result<Vec<Lit>, AllocError>
    requires same { length a.now ≡ length b.now }
    requires some { 0 < length a.now }
    requires room { circuit.old.next + sdiv_size (length a.now) ≤ 2 ^ 63 }
    ensures gains { OnOk result
        (Gains circuit.old circuit.new (sdiv_gates circuit.old.next a.now b.now)) }
    ensures bits { IfOk result (λ r. r.items ≡ sdiv_bits circuit.old.next a.now b.now) }
    ensures quotient { IfOk result (λ r. (v : ℕ → Bool) → v 1 ≡ true
        → all_true v circuit.new.clauses ≡ true →
        number v r.items ≡ sdiv_of (length a.now) (number v a.now) (number v b.now)) }
    ensures err { OnErr result (circuit.new ≡ circuit.old) }
{
    let mut added = circuit.part();
    let bits = put_quotient(&mut added, a, b)?;
    circuit.append(added)?;
    Ok(bits)
}

/// The remainder of two words of one width, lowest bits first, with the dividend's sign: that of the absolute values,
/// negated where the dividend is negative.
pub fn srem(circuit: &mut Circuit, a: &[Lit], b: &[Lit]) -> Result<Vec<Lit>, AllocError>
    requires same { length a.now ≡ length b.now }
    requires some { 0 < length a.now }
    requires room { circuit.old.next + srem_size (length a.now) ≤ 2 ^ 63 }
    ensures gains { OnOk result
        (Gains circuit.old circuit.new (srem_gates circuit.old.next a.now b.now)) }
    ensures bits { IfOk result (λ r. r.items ≡ srem_bits circuit.old.next a.now b.now) }
    ensures remainder { IfOk result (λ r. (v : ℕ → Bool) → v 1 ≡ true
        → all_true v circuit.new.clauses ≡ true →
        number v r.items ≡ srem_of (length a.now) (number v a.now) (number v b.now)) }
    ensures err { OnErr result (circuit.new ≡ circuit.old) }
{
    let mut added = circuit.part();
    let bits = put_remainder(&mut added, a, b)?;
    circuit.append(added)?;
    Ok(bits)
}

/// The remainder of two words of one width, lowest bits first, with the divisor's sign: that with the dividend's sign,
/// and the divisor more where it is not 0 and one word is negative and the other is not.
pub fn smod(circuit: &mut Circuit, a: &[Lit], b: &[Lit]) -> Result<Vec<Lit>, AllocError>
    requires same { length a.now ≡ length b.now }
    requires some { 0 < length a.now }
    requires room { circuit.old.next + smod_size (length a.now) ≤ 2 ^ 63 }
    ensures gains { OnOk result
        (Gains circuit.old circuit.new (smod_gates circuit.old.next a.now b.now)) }
    ensures bits { IfOk result (λ r. r.items ≡ smod_bits circuit.old.next a.now b.now) }
    ensures modulus { IfOk result (λ r. (v : ℕ → Bool) → v 1 ≡ true
        → all_true v circuit.new.clauses ≡ true →
        number v r.items ≡ smod_of (length a.now) (number v a.now) (number v b.now)) }
    ensures err { OnErr result (circuit.new ≡ circuit.old) }
{
    let mut added = circuit.part();
    let bits = put_modulus(&mut added, a, b)?;
    circuit.append(added)?;
    Ok(bits)
}

// A signed quotient; where memory is wanting, some of its gates stand.
fn put_quotient(circuit: &mut Circuit, a: &[Lit], b: &[Lit]) -> Result<Vec<Lit>, AllocError>
    requires same { length a.now ≡ length b.now }
    requires some { 0 < length a.now }
    requires room { circuit.old.next + sdiv_size (length a.now) ≤ 2 ^ 63 }
    ensures gains { OnOk result
        (Gains circuit.old circuit.new (sdiv_gates circuit.old.next a.now b.now)) }
    ensures bits { IfOk result (λ r. r.items ≡ sdiv_bits circuit.old.next a.now b.now) }
{
    let (quotient, _remainder) = put_magnitudes(circuit, a, b)?;
    let negation = neg(circuit, quotient.as_slice())?;
    let differ = circuit.gate(GateKind::Xor(sign(a), sign(b)))?;
    let bits = circuit.mux(differ, negation.as_slice(), quotient.as_slice())?;
    Ok(bits)
}

// A signed remainder; where memory is wanting, some of its gates stand.
fn put_remainder(circuit: &mut Circuit, a: &[Lit], b: &[Lit]) -> Result<Vec<Lit>, AllocError>
    requires same { length a.now ≡ length b.now }
    requires some { 0 < length a.now }
    requires room { circuit.old.next + srem_size (length a.now) ≤ 2 ^ 63 }
    ensures gains { OnOk result
        (Gains circuit.old circuit.new (srem_gates circuit.old.next a.now b.now)) }
    ensures bits { IfOk result (λ r. r.items ≡ srem_bits circuit.old.next a.now b.now) }
{
    let (_quotient, remainder) = put_magnitudes(circuit, a, b)?;
    let bits = signed(circuit, sign(a), remainder.as_slice())?;
    Ok(bits)
}

// A signed modulus; where memory is wanting, some of its gates stand.
fn put_modulus(circuit: &mut Circuit, a: &[Lit], b: &[Lit]) -> Result<Vec<Lit>, AllocError>
    requires same { length a.now ≡ length b.now }
    requires some { 0 < length a.now }
    requires room { circuit.old.next + smod_size (length a.now) ≤ 2 ^ 63 }
    ensures gains { OnOk result
        (Gains circuit.old circuit.new (smod_gates circuit.old.next a.now b.now)) }
    ensures bits { IfOk result (λ r. r.items ≡ smod_bits circuit.old.next a.now b.now) }
{
    let (_quotient, remainder) = put_magnitudes(circuit, a, b)?;
    let negative = sign(a);
    let truncated = signed(circuit, negative, remainder.as_slice())?;
    let differ = circuit.gate(GateKind::Xor(negative, sign(b)))?;
    let zero = zeros(circuit.alloc(), remainder.len())?;
    let is_zero = circuit.equal(remainder.as_slice(), zero.as_slice())?;
    let moves = circuit.gate(GateKind::And(differ, is_zero.negated()))?;
    let bits = put_sum(circuit, truncated.as_slice(), b, moves)?;
    Ok(bits)
}

// The quotient and the remainder of the absolute values.
fn put_magnitudes(
    circuit: &mut Circuit,
    a: &[Lit],
    b: &[Lit],
) -> Result<(Vec<Lit>, Vec<Lit>), AllocError>
    requires same { length a.now ≡ length b.now }
    requires some { 0 < length a.now }
    requires room { circuit.old.next + magnitudes_size (length a.now) ≤ 2 ^ 63 }
    ensures gains { OnOk result
        (Gains circuit.old circuit.new (magnitudes circuit.old.next a.now b.now).gates) }
    ensures quotient { IfOk result
        (λ r. r.0.items ≡ (magnitudes circuit.old.next a.now b.now).quotient) }
    ensures remainder { IfOk result
        (λ r. r.1.items ≡ (magnitudes circuit.old.next a.now b.now).remainder) }
{
    let dividend = abs(circuit, a)?;
    let divisor = abs(circuit, b)?;
    let parts = put_division(circuit, dividend.as_slice(), divisor.as_slice())?;
    Ok(parts)
}
