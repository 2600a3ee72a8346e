//! Orders, with and without sign.

ghost use Rattle.std.specs.Prelude.{◌≡◌, ℕ, ◌<◌, ◌≤◌, ◌+◌, ◌*◌, ◌^◌, [], ◌∷◌, Bool, true, IfOk, OnOk, OnErr, length};
ghost use Rattle.cnf_base.specs.Literals.{positive_of};
ghost use Rattle.cnf_base.specs.Clauses.{lit_true, all_true, number};
ghost use Rattle.cnf_base.specs.Circuits.{Gains};
ghost use Rattle.smt_words.specs.Words.{ult_of, ule_of, slt_of, sle_of};
ghost use Rattle.circ_plain.specs.Orders.{below_gates, ult_gates, ult_bit, ule_gates, ule_bit, slt_gates, slt_bit, sle_gates, sle_bit};

use crate::rows::{sign, with_sign};
use cnf_base::{Circuit, GateKind, Lit};
use std::alloc::AllocError;

/// Whether the first number is below the second.
pub fn ult(circuit: &mut Circuit, a: &[Lit], b: &[Lit]) -> Result<Lit, AllocError>
    requires same { length a.now ≡ length b.now }
    requires room { circuit.old.next + 2 * length a.now ≤ 2 ^ 63 }
    ensures gains { OnOk result
        (Gains circuit.old circuit.new (ult_gates circuit.old.next a.now b.now)) }
    ensures literal { IfOk result (λ l. l ≡ ult_bit circuit.old.next a.now b.now) }
    ensures order { IfOk result (λ l. (v : ℕ → Bool) → v 1 ≡ true
        → all_true v circuit.new.clauses ≡ true →
        lit_true v l ≡ ult_of (length a.now) (number v a.now) (number v b.now)) }
    ensures err { OnErr result (circuit.new ≡ circuit.old) }
{
    let mut added = circuit.part();
    let below = below_places(&mut added, a, b)?;
    circuit.append(added)?;
    Ok(below)
}

/// Whether the first number is at most the second.
pub fn ule(circuit: &mut Circuit, a: &[Lit], b: &[Lit]) -> Result<Lit, AllocError>
    requires same { length a.now ≡ length b.now }
    requires room { circuit.old.next + 2 * length a.now ≤ 2 ^ 63 }
    ensures gains { OnOk result
        (Gains circuit.old circuit.new (ule_gates circuit.old.next a.now b.now)) }
    ensures literal { IfOk result (λ l. l ≡ ule_bit circuit.old.next a.now b.now) }
    ensures order { IfOk result (λ l. (v : ℕ → Bool) → v 1 ≡ true
        → all_true v circuit.new.clauses ≡ true →
        lit_true v l ≡ ule_of (length a.now) (number v a.now) (number v b.now)) }
    ensures err { OnErr result (circuit.new ≡ circuit.old) }
{
    Ok(ult(circuit, b, a)?.negated())
}

/// Whether the first signed number is below the second.
pub fn slt(circuit: &mut Circuit, a: &[Lit], b: &[Lit]) -> Result<Lit, AllocError>
    requires some { 0 < length a.now }
    requires same { length a.now ≡ length b.now }
    requires room { circuit.old.next + 2 * length a.now ≤ 2 ^ 63 }
    ensures gains { OnOk result
        (Gains circuit.old circuit.new (slt_gates circuit.old.next a.now b.now)) }
    ensures literal { IfOk result (λ l. l ≡ slt_bit circuit.old.next a.now b.now) }
    ensures order { IfOk result (λ l. (v : ℕ → Bool) → v 1 ≡ true
        → all_true v circuit.new.clauses ≡ true →
        lit_true v l ≡ slt_of (length a.now) (number v a.now) (number v b.now)) }
    ensures err { OnErr result (circuit.new ≡ circuit.old) }
{
    let left = with_sign(circuit.alloc(), a, sign(b))?;
    let right = with_sign(circuit.alloc(), b, sign(a))?;
    let below = ult(circuit, left.as_slice(), right.as_slice())?;
    Ok(below)
}

/// Whether the first signed number is at most the second.
pub fn sle(circuit: &mut Circuit, a: &[Lit], b: &[Lit]) -> Result<Lit, AllocError>
    requires some { 0 < length a.now }
    requires same { length a.now ≡ length b.now }
    requires room { circuit.old.next + 2 * length a.now ≤ 2 ^ 63 }
    ensures gains { OnOk result
        (Gains circuit.old circuit.new (sle_gates circuit.old.next a.now b.now)) }
    ensures literal { IfOk result (λ l. l ≡ sle_bit circuit.old.next a.now b.now) }
    ensures order { IfOk result (λ l. (v : ℕ → Bool) → v 1 ≡ true
        → all_true v circuit.new.clauses ≡ true →
        lit_true v l ≡ sle_of (length a.now) (number v a.now) (number v b.now)) }
    ensures err { OnErr result (circuit.new ≡ circuit.old) }
{
    Ok(slt(circuit, b, a)?.negated())
}

// A comparison from the lowest place up; where memory is wanting, some of its gates stand.
fn below_places(circuit: &mut Circuit, a: &[Lit], b: &[Lit]) -> Result<Lit, AllocError>
    requires same { length a.now ≡ length b.now }
    requires room { circuit.old.next + 2 * length a.now ≤ 2 ^ 63 }
    ensures gains { OnOk result
        (Gains circuit.old circuit.new (ult_gates circuit.old.next a.now b.now)) }
    ensures literal { IfOk result (λ l. l ≡ ult_bit circuit.old.next a.now b.now) }
{
    let mut below = Lit::FALSE;
    for k in 0..a.len() {
        below = below_place(circuit, below, a[k], b[k])?;
    }
    Ok(below)
}

// One place: where the bits differ the second one, else what the places below it say.
fn below_place(circuit: &mut Circuit, before: Lit, a: Lit, b: Lit) -> Result<Lit, AllocError>
    requires { circuit.old.next + 2 ≤ 2 ^ 63 }
    ensures gains { OnOk result
        (Gains circuit.old circuit.new (below_gates circuit.old.next before (a ∷ []) (b ∷ []))) }
    ensures literal { IfOk result (λ l. l ≡ positive_of (circuit.old.next + 1)) }
{
    let differ = circuit.gate(GateKind::Xor(a, b))?;
    let below = circuit.gate(GateKind::Ite(differ, b, before))?;
    Ok(below)
}
