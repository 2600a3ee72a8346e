//! Rows of bits: wires without a gate, and rows of one gate a place.

ghost use Rattle.std.specs.Prelude.{◌≡◌, if◌then◌else◌, ◌+◌, ◌-◌, ◌^◌, ◌≤◌, ◌<◌, ◌++◌, Some, ◌*◌, IfOk, OnOk, OnErr, length, map, replicate};
ghost use Rattle.cnf_base.specs.Literals.{negated, true_literal, false_literal};
ghost use Rattle.cnf_base.specs.Circuits.{Gains};
ghost use Rattle.cnf_base.specs.Assignments.{fresh_bits};
ghost use Rattle.circ_plain.specs.Signs.{sign_of};
ghost use Rattle.bit_blast.specs.Circuits.{gate_of, each_gate, literal_bits, rotated as rotated_row, repeated as repeated_row, extracted as extracted_row, turned_left, turned_right, by_gate, sum as sum_block, difference as difference_block, equality as equality_block, below as below_block, not_above as not_above_block, signed_below as signed_below_block, signed_not_above as signed_not_above_block};
ghost use Rattle.bit_blast.specs.Blocks.{connective_of, IsBuilt};

use circ_plain::{sign, sle, slt, ule, ult};
use cnf_base::{Circuit, GateKind, Lit};
use smt_terms::operator::Operator;
use std::alloc::{AllocError, Global};

/// A gate of two inputs.
#[derive(Clone, Copy, Debug)]
pub enum Connective {
    /// Both inputs are true.
    Both,
    /// Neither input is true.
    Neither,
    /// The first input is true and the second is not.
    ButNot,
    /// One input is true and the other is not.
    Differ,
}

impl Connective {
    /// The gate over these inputs.
    pub fn gate(self, a: Lit, b: Lit) -> GateKind
        ensures { result ≡ gate_of self a b }
    {
        match self {
            Connective::Both => GateKind::And(a, b),
            Connective::Neither => GateKind::And(a.negated(), b.negated()),
            Connective::ButNot => GateKind::And(a, b.negated()),
            Connective::Differ => GateKind::Xor(a, b),
        }
    }
}

/// The gate of a connective at each place of two rows of one length.
pub fn gate_row(
    kind: Connective,
    a: &[Lit],
    b: &[Lit],
    circuit: &mut Circuit,
) -> Result<Vec<Lit>, AllocError>
    requires same { length a.now ≡ length b.now }
    requires room { circuit.old.next + length a.now ≤ 2 ^ 63 }
    ensures gains { OnOk result (Gains circuit.old circuit.new (each_gate kind a.now b.now)) }
    ensures bits { IfOk result (λ r. r.items ≡ fresh_bits circuit.old.next (length a.now)) }
    ensures err { OnErr result (circuit.new ≡ circuit.old) }
{
    let mut added = circuit.part();
    let bits = gate_places(kind, a, b, &mut added)?;
    circuit.append(added)?;
    Ok(bits)
}

// The gates; where memory is wanting, some of them stand.
fn gate_places(
    kind: Connective,
    a: &[Lit],
    b: &[Lit],
    circuit: &mut Circuit,
) -> Result<Vec<Lit>, AllocError>
    requires same { length a.now ≡ length b.now }
    requires room { circuit.old.next + length a.now ≤ 2 ^ 63 }
    ensures gains { OnOk result (Gains circuit.old circuit.new (each_gate kind a.now b.now)) }
    ensures bits { IfOk result (λ r. r.items ≡ fresh_bits circuit.old.next (length a.now)) }
{
    let mut bits = Vec::with_capacity(circuit.alloc(), a.len())?;
    for k in 0..a.len() {
        let bit = circuit.gate(kind.gate(a[k], b[k]))?;
        bits.push(bit)?;
    }
    Ok(bits)
}

/// The opposite of each literal.
pub fn negated_row(alloc: Global, a: &[Lit]) -> Result<Vec<Lit>, AllocError>
    ensures { IfOk result (λ r. r.items ≡ map negated a.now) }
{
    let mut bits = Vec::with_capacity(alloc, a.len())?;
    for k in 0..a.len() {
        bits.push(a[k].negated())?;
    }
    Ok(bits)
}

/// The literal that is always true, or the one that is always false.
pub fn constant_literal(value: bool) -> Lit
    ensures { result ≡ (if value then true_literal else false_literal) }
{
    if value { Lit::TRUE } else { Lit::FALSE }
}

/// The lowest bits of a number.
pub fn literal_row(alloc: Global, width: u64, value: u128) -> Result<Vec<Lit>, AllocError>
    ensures { IfOk result (λ r. r.items ≡ literal_bits width value) }
{
    let mut bits = Vec::new(alloc);
    let mut rest = value;
    for _place in 0..width {
        bits.push(constant_literal(rest % 2 == 1))?;
        rest /= 2;
    }
    Ok(bits)
}

/// The first row, then the second.
pub fn joined(alloc: Global, low: &[Lit], high: &[Lit]) -> Result<Vec<Lit>, AllocError>
    ensures { IfOk result (λ r. r.items ≡ low.now ++ high.now) }
{
    let mut bits = Vec::from_slice(alloc, low)?;
    bits.extend_from_slice(high)?;
    Ok(bits)
}

/// A row with a literal so many times above it.
pub fn extended(alloc: Global, a: &[Lit], more: u64, by: Lit) -> Result<Vec<Lit>, AllocError>
    ensures { IfOk result (λ r. r.items ≡ a.now ++ replicate more by) }
{
    let mut bits = Vec::from_slice(alloc, a)?;
    for _place in 0..more {
        bits.push(by)?;
    }
    Ok(bits)
}

/// The highest literal of a row, false where there is none.
pub fn top(a: &[Lit]) -> Lit
    ensures { result ≡ sign_of a.now }
{
    if a.len() == 0 {
        return Lit::FALSE;
    }
    sign(a)
}

/// The row moved some places up, what stood at the top to the bottom.
pub fn rotated(alloc: Global, places: usize, a: &[Lit]) -> Result<Vec<Lit>, AllocError>
    requires { places ≤ length a.now }
    ensures { IfOk result (λ r. r.items ≡ rotated_row places a.now) }
{
    let cut = a.len() - places;
    joined(alloc, &a[cut..], &a[..cut])
}

/// A row so many times.
pub fn repeated(alloc: Global, copies: u64, a: &[Lit]) -> Result<Vec<Lit>, AllocError>
    ensures { IfOk result (λ r. r.items ≡ repeated_row copies a.now) }
{
    let mut bits = Vec::new(alloc);
    for _copy in 0..copies {
        bits.extend_from_slice(a)?;
    }
    Ok(bits)
}

/// The bits from `low` to `high`, as far as there are such.
pub fn extracted(alloc: Global, high: u64, low: u64, a: &[Lit]) -> Result<Vec<Lit>, AllocError>
    ensures { IfOk result (λ r. r.items ≡ extracted_row high low a.now) }
{
    let start = a.len().min(low as usize);
    let rest = &a[start..];
    if high < low {
        return Vec::from_slice(alloc, &rest[..0]);
    }
    let end = rest.len().min((high - low) as usize);
    let cut = rest.len().min(end + 1);
    Vec::from_slice(alloc, &rest[..cut])
}

/// The row moved so many places up, modulo its length.
pub fn rotated_left(alloc: Global, places: u64, a: &[Lit]) -> Result<Vec<Lit>, AllocError>
    ensures { IfOk result (λ r. r.items ≡ turned_left places a.now) }
{
    if a.len() == 0 {
        return Ok(Vec::new(alloc));
    }
    rotated(alloc, places as usize % a.len(), a)
}

/// The row moved so many places down, modulo its length.
pub fn rotated_right(alloc: Global, places: u64, a: &[Lit]) -> Result<Vec<Lit>, AllocError>
    ensures { IfOk result (λ r. r.items ≡ turned_right places a.now) }
{
    if a.len() == 0 {
        return Ok(Vec::new(alloc));
    }
    rotated(alloc, a.len() - places as usize % a.len(), a)
}

/// The connective of an operator that works bit by bit, and whether its gates' literals are the bits or their opposites.
pub fn bitwise_kind(operator: Operator) -> Option<(Connective, bool)>
    ensures { result ≡ connective_of operator }
{
    match operator {
        Operator::And | Operator::Bvand => Some((Connective::Both, true)),
        Operator::Or | Operator::Bvor => Some((Connective::Neither, false)),
        Operator::Xor | Operator::Bvxor => Some((Connective::Differ, true)),
        Operator::Implies => Some((Connective::ButNot, false)),
        Operator::Bvnand => Some((Connective::Both, false)),
        Operator::Bvnor => Some((Connective::Neither, true)),
        Operator::Bvxnor => Some((Connective::Differ, false)),
        _ => None,
    }
}

/// The literals of a row of gates, or their opposites.
pub fn bitwise(
    kind: Connective,
    positive: bool,
    a: &[Lit],
    b: &[Lit],
    circuit: &mut Circuit,
) -> Result<Vec<Lit>, AllocError>
    requires same { length a.now ≡ length b.now }
    requires room { circuit.old.next + length a.now ≤ 2 ^ 63 }
    ensures ok { IfOk result
        (λ row. IsBuilt (Some (by_gate kind positive a.now b.now circuit.old.next)) row.items
        circuit.old circuit.new) }
    ensures err { OnErr result (circuit.new ≡ circuit.old) }
{
    let mut added = circuit.part();
    let bits = gate_row(kind, a, b, &mut added)?;
    let bits = if positive {
        bits
    } else {
        negated_row(circuit.alloc(), bits.as_slice())?
    };
    circuit.append(added)?;
    Ok(bits)
}

/// The sum of two rows of one length and a carry.
pub fn sum(carry: Lit, a: &[Lit], b: &[Lit], circuit: &mut Circuit) -> Result<Vec<Lit>, AllocError>
    requires same { length a.now ≡ length b.now }
    requires room { circuit.old.next + 3 * length a.now ≤ 2 ^ 63 }
    ensures ok { IfOk result
        (λ row. IsBuilt (Some (sum_block carry a.now b.now circuit.old.next)) row.items circuit.old
        circuit.new) }
    ensures err { OnErr result (circuit.new ≡ circuit.old) }
{
    let (bits, _carry) = circuit.add_with(a, b, carry)?;
    Ok(bits)
}

/// The difference of two rows of one length.
pub fn difference(a: &[Lit], b: &[Lit], circuit: &mut Circuit) -> Result<Vec<Lit>, AllocError>
    requires same { length a.now ≡ length b.now }
    requires room { circuit.old.next + 3 * length a.now ≤ 2 ^ 63 }
    ensures ok { IfOk result
        (λ row. IsBuilt (Some (difference_block a.now b.now circuit.old.next)) row.items circuit.old
        circuit.new) }
    ensures err { OnErr result (circuit.new ≡ circuit.old) }
{
    let negated = negated_row(circuit.alloc(), b)?;
    sum(Lit::TRUE, a, negated.as_slice(), circuit)
}

/// The one bit that says whether two rows of one length are equal.
pub fn equality(a: &[Lit], b: &[Lit], circuit: &mut Circuit) -> Result<Vec<Lit>, AllocError>
    requires same { length a.now ≡ length b.now }
    requires room { circuit.old.next + 2 * length a.now ≤ 2 ^ 63 }
    ensures ok { IfOk result
        (λ row. IsBuilt (Some (equality_block a.now b.now circuit.old.next)) row.items circuit.old
        circuit.new) }
    ensures err { OnErr result (circuit.new ≡ circuit.old) }
{
    let mut bits = Vec::with_capacity(circuit.alloc(), 1)?;
    let bit = circuit.equal(a, b)?;
    bits.push_reserved(bit);
    Ok(bits)
}

/// The one bit that says whether the first number is below the second.
pub fn below(a: &[Lit], b: &[Lit], circuit: &mut Circuit) -> Result<Vec<Lit>, AllocError>
    requires same { length a.now ≡ length b.now }
    requires room { circuit.old.next + 2 * length a.now ≤ 2 ^ 63 }
    ensures ok { IfOk result
        (λ row. IsBuilt (Some (below_block a.now b.now circuit.old.next)) row.items circuit.old
        circuit.new) }
    ensures err { OnErr result (circuit.new ≡ circuit.old) }
{
    let mut bits = Vec::with_capacity(circuit.alloc(), 1)?;
    let bit = ult(circuit, a, b)?;
    bits.push_reserved(bit);
    Ok(bits)
}

/// The one bit that says whether the first number is not above the second.
pub fn not_above(a: &[Lit], b: &[Lit], circuit: &mut Circuit) -> Result<Vec<Lit>, AllocError>
    requires same { length a.now ≡ length b.now }
    requires room { circuit.old.next + 2 * length a.now ≤ 2 ^ 63 }
    ensures ok { IfOk result
        (λ row. IsBuilt (Some (not_above_block a.now b.now circuit.old.next)) row.items circuit.old
        circuit.new) }
    ensures err { OnErr result (circuit.new ≡ circuit.old) }
{
    let mut bits = Vec::with_capacity(circuit.alloc(), 1)?;
    let bit = ule(circuit, a, b)?;
    bits.push_reserved(bit);
    Ok(bits)
}

/// The one bit that says whether the first signed number is below the second.
pub fn signed_below(a: &[Lit], b: &[Lit], circuit: &mut Circuit) -> Result<Vec<Lit>, AllocError>
    requires same { length a.now ≡ length b.now }
    requires some { 0 < length a.now }
    requires room { circuit.old.next + 2 * length a.now ≤ 2 ^ 63 }
    ensures ok { IfOk result
        (λ row. IsBuilt (Some (signed_below_block a.now b.now circuit.old.next)) row.items
        circuit.old circuit.new) }
    ensures err { OnErr result (circuit.new ≡ circuit.old) }
{
    let mut bits = Vec::with_capacity(circuit.alloc(), 1)?;
    let bit = slt(circuit, a, b)?;
    bits.push_reserved(bit);
    Ok(bits)
}

/// The one bit that says whether the first signed number is not above the second.
pub fn signed_not_above(a: &[Lit], b: &[Lit], circuit: &mut Circuit) -> Result<Vec<Lit>, AllocError>
    requires same { length a.now ≡ length b.now }
    requires some { 0 < length a.now }
    requires room { circuit.old.next + 2 * length a.now ≤ 2 ^ 63 }
    ensures ok { IfOk result
        (λ row. IsBuilt (Some (signed_not_above_block a.now b.now circuit.old.next)) row.items
        circuit.old circuit.new) }
    ensures err { OnErr result (circuit.new ≡ circuit.old) }
{
    let mut bits = Vec::with_capacity(circuit.alloc(), 1)?;
    let bit = sle(circuit, a, b)?;
    bits.push_reserved(bit);
    Ok(bits)
}
