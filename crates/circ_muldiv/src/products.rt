//! Products.

ghost use Rattle.std.specs.Prelude.{◌≡◌, ℕ, ◌+◌, ◌*◌, ◌-◌, ◌^◌, ◌≤◌, ◌<◌, Bool, true, IfOk, OnOk, OnErr, length, take, drop};
ghost use Rattle.cnf_base.specs.Clauses.{all_true, number};
ghost use Rattle.cnf_base.specs.Assignments.{fresh_bits};
ghost use Rattle.cnf_base.specs.Circuits.{Gains};
ghost use Rattle.smt_words.specs.Words.{mul_of};
ghost use Rattle.circ_muldiv.specs.Products.{row_gates, sum_gates, sum_bits, mul_gates, mul_bits};
ghost use Rattle.circ_muldiv.specs.Sizes.{mul_size};

use cnf_base::{Circuit, GateKind, Lit};
use std::alloc::AllocError;

/// The product of two words of one width, lowest bits first, modulo two to the width.
pub fn mul(circuit: &mut Circuit, a: &[Lit], b: &[Lit]) -> Result<Vec<Lit>, AllocError>
    requires same { length a.now ≡ length b.now }
    requires some { 0 < length a.now }
    requires room { circuit.old.next + mul_size (length a.now) ≤ 2 ^ 63 }
    ensures gains { OnOk result
        (Gains circuit.old circuit.new (mul_gates circuit.old.next a.now b.now)) }
    ensures bits { IfOk result (λ r. r.items ≡ mul_bits circuit.old.next a.now b.now) }
    ensures product { IfOk result (λ r. (v : ℕ → Bool) → v 1 ≡ true
        → all_true v circuit.new.clauses ≡ true →
        number v r.items ≡ mul_of (length a.now) (number v a.now) (number v b.now)) }
    ensures err { OnErr result (circuit.new ≡ circuit.old) }
{
    let mut added = circuit.part();
    let bits = put_product(&mut added, a, b)?;
    circuit.append(added)?;
    Ok(bits)
}

// A product; where memory is wanting, some of its gates stand.
fn put_product(circuit: &mut Circuit, a: &[Lit], b: &[Lit]) -> Result<Vec<Lit>, AllocError>
    requires same { length a.now ≡ length b.now }
    requires some { 0 < length a.now }
    requires room { circuit.old.next + mul_size (length a.now) ≤ 2 ^ 63 }
    ensures gains { OnOk result
        (Gains circuit.old circuit.new (mul_gates circuit.old.next a.now b.now)) }
    ensures bits { IfOk result (λ r. r.items ≡ mul_bits circuit.old.next a.now b.now) }
{
    let mut product = Vec::with_capacity(circuit.alloc(), a.len())?;
    let mut places = put_row(circuit, a, b[0])?;
    product.push(places[0])?;
    for i in 1..b.len() {
        places = add_row(circuit, places.as_slice(), a, b[i], a.len() - i)?;
        product.push(places[0])?;
    }
    Ok(product)
}

// The sum of the places above the lowest and of a partial product with as many low bits of `a`.
fn add_row(
    circuit: &mut Circuit,
    places: &[Lit],
    a: &[Lit],
    b: Lit,
    left: usize,
) -> Result<Vec<Lit>, AllocError>
    requires places { length places.now ≡ left + 1 }
    requires bits { left ≤ length a.now }
    requires room { circuit.old.next + 4 * left ≤ 2 ^ 63 }
    ensures gains { OnOk result (Gains circuit.old circuit.new
        (sum_gates circuit.old.next (drop 1 places.now) (take left a.now) b)) }
    ensures bits { IfOk result
        (λ r. r.items ≡ sum_bits circuit.old.next (drop 1 places.now) (take left a.now)) }
{
    put_sum(circuit, &places[1..], &a[..left], b)
}

/// The sum of some places and of a partial product, without the last carry. Where memory is wanting, some of its gates
/// stand.
pub fn put_sum(
    circuit: &mut Circuit,
    places: &[Lit],
    a: &[Lit],
    b: Lit,
) -> Result<Vec<Lit>, AllocError>
    requires same { length places.now ≡ length a.now }
    requires room { circuit.old.next + 4 * length a.now ≤ 2 ^ 63 }
    ensures gains { OnOk result
        (Gains circuit.old circuit.new (sum_gates circuit.old.next places.now a.now b)) }
    ensures bits { IfOk result (λ r. r.items ≡ sum_bits circuit.old.next places.now a.now) }
{
    let row = put_row(circuit, a, b)?;
    let (sum, _carry) = circuit.add_with(places, row.as_slice(), Lit::FALSE)?;
    Ok(sum)
}

// A partial product: each bit of `a` with `b`.
fn put_row(circuit: &mut Circuit, a: &[Lit], b: Lit) -> Result<Vec<Lit>, AllocError>
    requires room { circuit.old.next + length a.now ≤ 2 ^ 63 }
    ensures gains { OnOk result (Gains circuit.old circuit.new (row_gates a.now b)) }
    ensures bits { IfOk result (λ r. r.items ≡ fresh_bits circuit.old.next (length a.now)) }
{
    let mut bits = Vec::with_capacity(circuit.alloc(), a.len())?;
    for k in 0..a.len() {
        let bit = circuit.gate(GateKind::And(a[k], b))?;
        bits.push(bit)?;
    }
    Ok(bits)
}
