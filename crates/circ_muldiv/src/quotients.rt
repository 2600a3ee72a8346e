//! Quotients and remainders.

ghost use Rattle.std.specs.Prelude.{◌≡◌, ℕ, ◌+◌, ◌*◌, ◌-◌, ◌^◌, ◌≤◌, ◌<◌, ◌∷◌, Bool, true, IfOk, OnOk, OnErr, length};
ghost use Rattle.cnf_base.specs.Clauses.{all_true, number};
ghost use Rattle.cnf_base.specs.Circuits.{Gains};
ghost use Rattle.smt_words.specs.Words.{udiv_of, urem_of};
ghost use Rattle.circ_muldiv.specs.Quotients.{shifted, complement_of, place_gates, place_bit, place_rest, divide_gates, quotient_bits, remainder_bits};
ghost use Rattle.circ_muldiv.specs.Sizes.{divide_size};

use crate::rows::{negated, zeros};
use cnf_base::{Circuit, Lit};
use std::alloc::{AllocError, Global};

/// The quotient and the remainder of two words of one width, lowest bits first. By 0 every bit of the quotient is 1,
/// and the remainder is the dividend.
pub fn divide(
    circuit: &mut Circuit,
    a: &[Lit],
    b: &[Lit],
) -> Result<(Vec<Lit>, Vec<Lit>), AllocError>
    requires same { length a.now ≡ length b.now }
    requires some { 0 < length a.now }
    requires room { circuit.old.next + divide_size (length a.now) ≤ 2 ^ 63 }
    ensures gains { OnOk result
        (Gains circuit.old circuit.new (divide_gates circuit.old.next a.now b.now)) }
    ensures quotient_bits { IfOk result
        (λ r. r.0.items ≡ quotient_bits circuit.old.next a.now b.now) }
    ensures remainder_bits { IfOk result
        (λ r. r.1.items ≡ remainder_bits circuit.old.next a.now b.now) }
    ensures quotient { IfOk result (λ r. (v : ℕ → Bool) → v 1 ≡ true
        → all_true v circuit.new.clauses ≡ true →
        number v r.0.items ≡ udiv_of (length a.now) (number v a.now) (number v b.now)) }
    ensures remainder { IfOk result (λ r. (v : ℕ → Bool) → v 1 ≡ true
        → all_true v circuit.new.clauses ≡ true →
        number v r.1.items ≡ urem_of (length a.now) (number v a.now) (number v b.now)) }
    ensures err { OnErr result (circuit.new ≡ circuit.old) }
{
    let mut added = circuit.part();
    let parts = put_division(&mut added, a, b)?;
    circuit.append(added)?;
    Ok(parts)
}

// A division; where memory is wanting, some of its gates stand.
pub fn put_division(
    circuit: &mut Circuit,
    a: &[Lit],
    b: &[Lit],
) -> Result<(Vec<Lit>, Vec<Lit>), AllocError>
    requires same { length a.now ≡ length b.now }
    requires room { circuit.old.next + divide_size (length a.now) ≤ 2 ^ 63 }
    ensures gains { OnOk result
        (Gains circuit.old circuit.new (divide_gates circuit.old.next a.now b.now)) }
    ensures quotient_bits { IfOk result
        (λ r. r.0.items ≡ quotient_bits circuit.old.next a.now b.now) }
    ensures remainder_bits { IfOk result
        (λ r. r.1.items ≡ remainder_bits circuit.old.next a.now b.now) }
{
    let alloc = circuit.alloc();
    let mut quotient = Vec::with_capacity(alloc, a.len())?;
    let mut rest = zeros(alloc, b.len() + 1)?;
    for i in (0..a.len()).rev() {
        let (bit, left) = put_place(circuit, a[i], rest.as_slice(), b)?;
        quotient.push(bit)?;
        rest = left;
    }
    quotient.reverse();
    rest.truncate(b.len());
    Ok((quotient, rest))
}

// One place of a division: its bit of the quotient, and what is left.
fn put_place(
    circuit: &mut Circuit,
    bit: Lit,
    rest: &[Lit],
    divisor: &[Lit],
) -> Result<(Lit, Vec<Lit>), AllocError>
    requires longer { length rest.now ≡ length divisor.now + 1 }
    requires room { circuit.old.next + 4 * (length divisor.now + 1) ≤ 2 ^ 63 }
    ensures gains { OnOk result
        (Gains circuit.old circuit.new (place_gates circuit.old.next bit rest.now divisor.now)) }
    ensures bit { IfOk result (λ r. r.0 ≡ place_bit circuit.old.next bit rest.now divisor.now) }
    ensures rest { IfOk result
        (λ r. r.1.items ≡ place_rest circuit.old.next bit rest.now divisor.now) }
{
    let alloc = circuit.alloc();
    let up = shifted(alloc, bit, &rest[..divisor.len()])?;
    let complement = complement(alloc, divisor)?;
    let (difference, carry) = circuit.add_with(up.as_slice(), complement.as_slice(), Lit::TRUE)?;
    let left = circuit.mux(carry, difference.as_slice(), up.as_slice())?;
    Ok((carry, left))
}

// A word one place up, with a new lowest bit.
fn shifted(alloc: Global, bit: Lit, rest: &[Lit]) -> Result<Vec<Lit>, AllocError>
    ensures { IfOk result (λ r. r.items ≡ bit ∷ rest.now) }
{
    let mut up = Vec::with_capacity(alloc, rest.len() + 1)?;
    up.push(bit)?;
    up.extend_from_slice(rest)?;
    Ok(up)
}

// The bits that are false where those of `b` are true, and a true one on top.
fn complement(alloc: Global, b: &[Lit]) -> Result<Vec<Lit>, AllocError>
    ensures { IfOk result (λ r. r.items ≡ complement_of b.now) }
{
    let mut complement = negated(alloc, b)?;
    complement.push(Lit::TRUE)?;
    Ok(complement)
}
