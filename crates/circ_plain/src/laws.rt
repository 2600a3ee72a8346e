//! Each circuit is built of gates whose inputs stand before them.
//!
//! With this the inputs alone decide every variable that a circuit makes. The functions are empty:
//! their contracts are the laws.

ghost use Rattle.std.specs.Prelude.{ℕ, ◌+◌, ◌<◌, List, length};
ghost use Rattle.cnf_base.specs.Literals.{Literal};
ghost use Rattle.cnf_base.specs.Gates.{AreOrdered};
ghost use Rattle.cnf_base.specs.Assignments.{AreBelow};
ghost use Rattle.circ_plain.specs.Signs.{neg_gates, neg_bits, signed_gates, signed_bits, abs_gates};
ghost use Rattle.circ_plain.specs.Orders.{ult_gates, ult_bit, slt_gates, slt_bit};
ghost use Rattle.circ_plain.specs.Shifts.{shl_gates, shl_bits, lshr_gates, lshr_bits, ashr_gates, ashr_bits};

/// The gates of a negation, of one chosen by a literal and of an absolute value, and the variables of their bits.
pub fn signs_are_ordered()
    ensures neg { (g : ℕ) (a : List Literal) → 1 < g → AreBelow g a → AreOrdered g (neg_gates g a) }
    ensures neg_bits { (g : ℕ) (a : List Literal)
        → AreBelow (g + length (neg_gates g a)) (neg_bits g a) }
    ensures signed { (g : ℕ) (c : Literal) (a : List Literal) → 1 < g → c.variable < g
        → AreBelow g a → AreOrdered g (signed_gates g c a) }
    ensures signed_bits { (g : ℕ) (c : Literal) (a : List Literal)
        → AreBelow (g + length (signed_gates g c a)) (signed_bits g a) }
    ensures abs { (g : ℕ) (a : List Literal) → 1 < g → AreBelow g a → AreOrdered g (abs_gates g a) }
{}

/// The gates of the orders, and the variables of their literals.
pub fn orders_are_ordered()
    ensures unsigned { (g : ℕ) (a b : List Literal) → 1 < g → AreBelow g a → AreBelow g b
        → AreOrdered g (ult_gates g a b) }
    ensures unsigned_bit { (g : ℕ) (a b : List Literal) → 1 < g
        → (ult_bit g a b).variable < g + length (ult_gates g a b) }
    ensures signed { (g : ℕ) (a b : List Literal) → 1 < g → AreBelow g a → AreBelow g b
        → AreOrdered g (slt_gates g a b) }
    ensures signed_bit { (g : ℕ) (a b : List Literal) → 1 < g
        → (slt_bit g a b).variable < g + length (slt_gates g a b) }
{}

/// The gates of the shifts, and the variables of their bits.
pub fn shifts_are_ordered()
    ensures left { (g : ℕ) (a t : List Literal) → 1 < g → AreBelow g a → AreBelow g t
        → AreOrdered g (shl_gates g a t) }
    ensures left_bits { (g : ℕ) (a t : List Literal)
        → AreBelow (g + length (shl_gates g a t)) (shl_bits g a t) }
    ensures right { (g : ℕ) (a t : List Literal) → 1 < g → AreBelow g a → AreBelow g t
        → AreOrdered g (lshr_gates g a t) }
    ensures right_bits { (g : ℕ) (a t : List Literal)
        → AreBelow (g + length (lshr_gates g a t)) (lshr_bits g a t) }
    ensures arithmetic { (g : ℕ) (a t : List Literal) → 1 < g → AreBelow g a → AreBelow g t
        → AreOrdered g (ashr_gates g a t) }
    ensures arithmetic_bits { (g : ℕ) (a t : List Literal)
        → AreBelow (g + length (ashr_gates g a t)) (ashr_bits g a t) }
{}
