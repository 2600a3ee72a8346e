//! What follows from the definitions of the circuits alone.
//!
//! The functions are empty: their contracts are the laws.

ghost use Rattle.std.specs.Prelude.{◌≡◌, ◌<◌, ◌≤◌, ◌+◌, ◌^◌, ℕ, Bool, true, List, length};
ghost use Rattle.cnf_base.specs.Literals.{Literal};
ghost use Rattle.cnf_base.specs.Clauses.{number};
ghost use Rattle.cnf_base.specs.Gates.{HaveMeaning, AreOrdered};
ghost use Rattle.cnf_base.specs.Assignments.{AreBelow};
ghost use Rattle.smt_words.specs.Words.{mul_of, udiv_of, urem_of, sdiv_of, srem_of, smod_of};
ghost use Rattle.circ_muldiv.specs.Products.{mul_gates, mul_bits};
ghost use Rattle.circ_muldiv.specs.Quotients.{divide_gates, quotient_bits, remainder_bits};
ghost use Rattle.circ_muldiv.specs.Signed.{sdiv_gates, sdiv_bits, srem_gates, srem_bits, smod_gates, smod_bits};
ghost use Rattle.circ_muldiv.specs.Sizes.{mul_size, divide_size, sdiv_size, srem_size, smod_size};

/// Where variable 1 is true and each gate has its meaning, the bits are those of the operator's number, by 0 too.
pub fn circuits_mean_their_numbers()
    ensures product { (v : ℕ → Bool) (g : ℕ) (a b : List Literal) → v 1 ≡ true → length a ≡ length b
        → HaveMeaning v g (mul_gates g a b) →
        number v (mul_bits g a b) ≡ mul_of (length a) (number v a) (number v b) }
    ensures quotient { (v : ℕ → Bool) (g : ℕ) (a b : List Literal) → v 1 ≡ true
        → length a ≡ length b → HaveMeaning v g (divide_gates g a b) →
        number v (quotient_bits g a b) ≡ udiv_of (length a) (number v a) (number v b) }
    ensures remainder { (v : ℕ → Bool) (g : ℕ) (a b : List Literal) → v 1 ≡ true
        → length a ≡ length b → HaveMeaning v g (divide_gates g a b) →
        number v (remainder_bits g a b) ≡ urem_of (length a) (number v a) (number v b) }
    ensures signed_quotient { (v : ℕ → Bool) (g : ℕ) (a b : List Literal) → v 1 ≡ true
        → 0 < length a → length a ≡ length b → HaveMeaning v g (sdiv_gates g a b) →
        number v (sdiv_bits g a b) ≡ sdiv_of (length a) (number v a) (number v b) }
    ensures signed_remainder { (v : ℕ → Bool) (g : ℕ) (a b : List Literal) → v 1 ≡ true
        → 0 < length a → length a ≡ length b → HaveMeaning v g (srem_gates g a b) →
        number v (srem_bits g a b) ≡ srem_of (length a) (number v a) (number v b) }
    ensures signed_modulus { (v : ℕ → Bool) (g : ℕ) (a b : List Literal) → v 1 ≡ true → 0 < length a
        → length a ≡ length b → HaveMeaning v g (smod_gates g a b) →
        number v (smod_bits g a b) ≡ smod_of (length a) (number v a) (number v b) }
{}

/// How many gates each circuit has.
pub fn circuits_have_their_sizes()
    ensures product { (g : ℕ) (a b : List Literal) → length a ≡ length b
        → length (mul_gates g a b) ≡ mul_size (length a) }
    ensures division { (g : ℕ) (a b : List Literal) → length a ≡ length b
        → length (divide_gates g a b) ≡ divide_size (length a) }
    ensures signed_quotient { (g : ℕ) (a b : List Literal) → length a ≡ length b
        → length (sdiv_gates g a b) ≡ sdiv_size (length a) }
    ensures signed_remainder { (g : ℕ) (a b : List Literal) → length a ≡ length b
        → length (srem_gates g a b) ≡ srem_size (length a) }
    ensures signed_modulus { (g : ℕ) (a b : List Literal) → length a ≡ length b
        → length (smod_gates g a b) ≡ smod_size (length a) }
{}

/// At the widths of words no circuit has more than 131,072 gates.
pub fn sizes_are_small()
    ensures product { (n : ℕ) → n ≤ 128 → mul_size n ≤ 2 ^ 17 }
    ensures division { (n : ℕ) → n ≤ 128 → divide_size n ≤ 2 ^ 17 }
    ensures signed_quotient { (n : ℕ) → n ≤ 128 → sdiv_size n ≤ 2 ^ 17 }
    ensures signed_remainder { (n : ℕ) → n ≤ 128 → srem_size n ≤ 2 ^ 17 }
    ensures signed_modulus { (n : ℕ) → n ≤ 128 → smod_size n ≤ 2 ^ 17 }
{}

/// The inputs of each gate stand before it, so that the inputs alone decide every variable that a circuit makes.
pub fn circuits_are_ordered()
    ensures product { (g : ℕ) (a b : List Literal) → 1 < g → AreBelow g a → AreBelow g b
        → AreOrdered g (mul_gates g a b) }
    ensures division { (g : ℕ) (a b : List Literal) → 1 < g → AreBelow g a → AreBelow g b
        → AreOrdered g (divide_gates g a b) }
    ensures signed_quotient { (g : ℕ) (a b : List Literal) → 1 < g → length a ≡ length b
        → AreBelow g a → AreBelow g b → AreOrdered g (sdiv_gates g a b) }
    ensures signed_remainder { (g : ℕ) (a b : List Literal) → 1 < g → AreBelow g a → AreBelow g b
        → AreOrdered g (srem_gates g a b) }
    ensures signed_modulus { (g : ℕ) (a b : List Literal) → 1 < g → AreBelow g a → AreBelow g b
        → AreOrdered g (smod_gates g a b) }
{}

/// The bits of a result are of variables below the next one.
pub fn bits_are_below()
    ensures product { (g : ℕ) (a b : List Literal) → 1 < g → AreBelow g a → AreBelow g b
        → AreBelow (g + length (mul_gates g a b)) (mul_bits g a b) }
    ensures quotient { (g : ℕ) (a b : List Literal) → 1 < g → AreBelow g a → AreBelow g b
        → AreBelow (g + length (divide_gates g a b)) (quotient_bits g a b) }
    ensures remainder { (g : ℕ) (a b : List Literal) → 1 < g → AreBelow g a → AreBelow g b
        → AreBelow (g + length (divide_gates g a b)) (remainder_bits g a b) }
    ensures signed_quotient { (g : ℕ) (a b : List Literal) → 1 < g → length a ≡ length b
        → AreBelow g a → AreBelow g b → AreBelow (g + length (sdiv_gates g a b)) (sdiv_bits g a b) }
    ensures signed_remainder { (g : ℕ) (a b : List Literal) → 1 < g → AreBelow g a → AreBelow g b
        → AreBelow (g + length (srem_gates g a b)) (srem_bits g a b) }
    ensures signed_modulus { (g : ℕ) (a b : List Literal) → 1 < g → AreBelow g a → AreBelow g b
        → AreBelow (g + length (smod_gates g a b)) (smod_bits g a b) }
{}
