//! Shifts by a number of places that is itself a row of bits.
//!
//! A barrel shifter: one stage for each low bit of the amount moves the row by a power of two or
//! leaves it, and the bits of the amount above these stages decide whether anything is left.

ghost use Rattle.std.specs.Prelude.{◌≡◌, ℕ, ◌<◌, ◌≤◌, ◌+◌, ◌*◌, ◌^◌, Bool, true, IfOk, OnOk, OnErr, length};
ghost use Rattle.cnf_base.specs.Literals.{false_literal};
ghost use Rattle.cnf_base.specs.Clauses.{all_true, number};
ghost use Rattle.cnf_base.specs.Assignments.{fresh_bits};
ghost use Rattle.cnf_base.specs.Circuits.{Gains};
ghost use Rattle.smt_words.specs.Words.{shl_of, lshr_of, ashr_of};
ghost use Rattle.circ_plain.specs.Shifts.{stages, AreNear, stage_gates, stage_bits, any_gates, any_bit, mask_gates, move_gates, move_bits, over_bit, logical_gates, logical_bits, shl_gates, shl_bits, lshr_gates, lshr_bits, ashr_gates, ashr_bits};

use crate::moves::{Direction, moved};
use crate::rows::{repeated, sign};
use cnf_base::{Circuit, GateKind, Lit};
use std::alloc::AllocError;

/// The bits moved up by the amount; false comes in.
pub fn shl(circuit: &mut Circuit, a: &[Lit], amount: &[Lit]) -> Result<Vec<Lit>, AllocError>
    requires room { circuit.old.next + length (shl_gates circuit.old.next a.now amount.now)
        ≤ 2 ^ 63 }
    ensures gains { OnOk result
        (Gains circuit.old circuit.new (shl_gates circuit.old.next a.now amount.now)) }
    ensures bits { IfOk result (λ r. r.items ≡ shl_bits circuit.old.next a.now amount.now) }
    ensures number { IfOk result (λ r. (v : ℕ → Bool) → v 1 ≡ true
        → all_true v circuit.new.clauses ≡ true →
        number v r.items ≡ shl_of (length a.now) (number v a.now) (number v amount.now)) }
    ensures err { OnErr result (circuit.new ≡ circuit.old) }
{
    let mut added = circuit.part();
    let bits = put_logical(&mut added, Direction::Up, a, amount)?;
    circuit.append(added)?;
    Ok(bits)
}

/// The bits moved down by the amount; false comes in.
pub fn lshr(circuit: &mut Circuit, a: &[Lit], amount: &[Lit]) -> Result<Vec<Lit>, AllocError>
    requires room { circuit.old.next + length (lshr_gates circuit.old.next a.now amount.now)
        ≤ 2 ^ 63 }
    ensures gains { OnOk result
        (Gains circuit.old circuit.new (lshr_gates circuit.old.next a.now amount.now)) }
    ensures bits { IfOk result (λ r. r.items ≡ lshr_bits circuit.old.next a.now amount.now) }
    ensures number { IfOk result (λ r. (v : ℕ → Bool) → v 1 ≡ true
        → all_true v circuit.new.clauses ≡ true →
        number v r.items ≡ lshr_of (length a.now) (number v a.now) (number v amount.now)) }
    ensures err { OnErr result (circuit.new ≡ circuit.old) }
{
    let mut added = circuit.part();
    let bits = put_logical(&mut added, Direction::Down, a, amount)?;
    circuit.append(added)?;
    Ok(bits)
}

/// The bits moved down by the amount; the sign comes in.
pub fn ashr(circuit: &mut Circuit, a: &[Lit], amount: &[Lit]) -> Result<Vec<Lit>, AllocError>
    requires some { 0 < length a.now }
    requires room { circuit.old.next + length (ashr_gates circuit.old.next a.now amount.now)
        ≤ 2 ^ 63 }
    ensures gains { OnOk result
        (Gains circuit.old circuit.new (ashr_gates circuit.old.next a.now amount.now)) }
    ensures bits { IfOk result (λ r. r.items ≡ ashr_bits circuit.old.next a.now amount.now) }
    ensures number { IfOk result (λ r. (v : ℕ → Bool) → v 1 ≡ true
        → all_true v circuit.new.clauses ≡ true →
        number v r.items ≡ ashr_of (length a.now) (number v a.now) (number v amount.now)) }
    ensures err { OnErr result (circuit.new ≡ circuit.old) }
{
    let mut added = circuit.part();
    let bits = put_arithmetic(&mut added, a, amount)?;
    circuit.append(added)?;
    Ok(bits)
}

// A logical shift; where memory is wanting, some of its gates stand.
fn put_logical(
    circuit: &mut Circuit,
    way: Direction,
    a: &[Lit],
    amount: &[Lit],
) -> Result<Vec<Lit>, AllocError>
    requires room { circuit.old.next + length (logical_gates way circuit.old.next a.now amount.now)
        ≤ 2 ^ 63 }
    ensures gains { OnOk result
        (Gains circuit.old circuit.new (logical_gates way circuit.old.next a.now amount.now)) }
    ensures bits { IfOk result (λ r. r.items ≡ logical_bits way circuit.old.next a.now amount.now) }
{
    let (row, over) = put_moves(circuit, way, Lit::FALSE, a, amount)?;
    let bits = put_mask(circuit, over.negated(), row.as_slice())?;
    Ok(bits)
}

// An arithmetic shift; where memory is wanting, some of its gates stand.
fn put_arithmetic(circuit: &mut Circuit, a: &[Lit], amount: &[Lit]) -> Result<Vec<Lit>, AllocError>
    requires some { 0 < length a.now }
    requires room { circuit.old.next + length (ashr_gates circuit.old.next a.now amount.now)
        ≤ 2 ^ 63 }
    ensures gains { OnOk result
        (Gains circuit.old circuit.new (ashr_gates circuit.old.next a.now amount.now)) }
    ensures bits { IfOk result (λ r. r.items ≡ ashr_bits circuit.old.next a.now amount.now) }
{
    let fill = sign(a);
    let (row, over) = put_moves(circuit, Direction::Down, fill, a, amount)?;
    let signs = repeated(circuit.alloc(), fill, a.len())?;
    let bits = circuit.mux(over, signs.as_slice(), row.as_slice())?;
    Ok(bits)
}

// The row after the stages of the amount's low bits, and whether one of its other bits is true.
fn put_moves(
    circuit: &mut Circuit,
    way: Direction,
    fill: Lit,
    a: &[Lit],
    amount: &[Lit],
) -> Result<(Vec<Lit>, Lit), AllocError>
    requires room { circuit.old.next + length
        (move_gates way fill circuit.old.next a.now amount.now) ≤ 2 ^ 63 }
    ensures gains { OnOk result
        (Gains circuit.old circuit.new (move_gates way fill circuit.old.next a.now amount.now)) }
    ensures bits { IfOk result (λ r. r.0.items ≡ move_bits circuit.old.next a.now amount.now) }
    ensures over { IfOk result (λ r. r.1 ≡ over_bit way fill circuit.old.next a.now amount.now) }
{
    let near = stages_of(a.len()).min(amount.len());
    let row = put_stages(circuit, way, fill, a, &amount[..near])?;
    let over = put_any(circuit, &amount[near..])?;
    Ok((row, over))
}

// The least number of bits with which an amount reaches the width.
fn stages_of(width: usize) -> usize
    ensures { result ≡ stages width }
{
    for count in 0..64 {
        if width <= 1 << count {
            return count;
        }
    }
    64
}

// A stage for each bit of the amount, the lowest first.
fn put_stages(
    circuit: &mut Circuit,
    way: Direction,
    fill: Lit,
    a: &[Lit],
    near: &[Lit],
) -> Result<Vec<Lit>, AllocError>
    requires near { AreNear (length a.now) 0 near.now }
    requires room { circuit.old.next + length a.now * length near.now ≤ 2 ^ 63 }
    ensures gains { OnOk result
        (Gains circuit.old circuit.new (stage_gates way fill circuit.old.next 0 a.now near.now)) }
    ensures bits { IfOk result (λ r. r.items ≡ stage_bits circuit.old.next a.now near.now) }
{
    let mut row = Vec::from_slice(circuit.alloc(), a)?;
    for place in 0..near.len() {
        let shifted = moved(circuit.alloc(), way, fill, 1 << place, row.as_slice())?;
        row = circuit.mux(near[place], shifted.as_slice(), row.as_slice())?;
    }
    Ok(row)
}

// Whether one of the bits is true.
fn put_any(circuit: &mut Circuit, bits: &[Lit]) -> Result<Lit, AllocError>
    requires { circuit.old.next + length bits.now ≤ 2 ^ 63 }
    ensures gains { OnOk result
        (Gains circuit.old circuit.new (any_gates circuit.old.next false_literal bits.now)) }
    ensures literal { IfOk result (λ l. l ≡ any_bit circuit.old.next false_literal bits.now) }
{
    let mut any = Lit::FALSE;
    for k in 0..bits.len() {
        let none = circuit.gate(GateKind::And(any.negated(), bits[k].negated()))?;
        any = none.negated();
    }
    Ok(any)
}

// The row where `keep` is true, else false at each place.
fn put_mask(circuit: &mut Circuit, keep: Lit, row: &[Lit]) -> Result<Vec<Lit>, AllocError>
    requires { circuit.old.next + length row.now ≤ 2 ^ 63 }
    ensures gains { OnOk result (Gains circuit.old circuit.new (mask_gates keep row.now)) }
    ensures bits { IfOk result (λ r. r.items ≡ fresh_bits circuit.old.next (length row.now)) }
{
    let mut bits = Vec::with_capacity(circuit.alloc(), row.len())?;
    for k in 0..row.len() {
        let bit = circuit.gate(GateKind::And(row[k], keep))?;
        bits.push(bit)?;
    }
    Ok(bits)
}
