//! Laws of the number functions that the operators' contracts cite.
//!
//! Each function is empty: its contract is the law.

ghost use Rattle.std.specs.Prelude.{ℕ, ◌≡◌, ◌≢◌, ◌<◌, ◌≤◌, ◌+◌, ◌*◌};
ghost use Rattle.smt_words.specs.Words.{IsWord, add_of, neg_of, sub_of, udiv_of, urem_of, signed_of, sign_extend_of, rotate_left_of, rotate_right_of};

/// A word is a multiple of the divisor and a remainder below the divisor.
pub fn quotient_and_remainder_give_the_dividend()
    ensures whole { (n x y : ℕ) → y ≢ 0 → udiv_of n x y * y + urem_of n x y ≡ x }
    ensures below { (n x y : ℕ) → y ≢ 0 → urem_of n x y < y }
{}

/// A word and its negation add up to zero, and a difference is the sum with the negation.
pub fn negation_cancels()
    ensures zero { (n x : ℕ) → IsWord n x → add_of n x (neg_of n x) ≡ 0 }
    ensures difference { (n x y : ℕ) → IsWord n x → IsWord n y
        → sub_of n x y ≡ add_of n x (neg_of n y) }
{}

/// A word that is extended by its sign has the signed value that it had.
pub fn sign_extension_keeps_the_signed_value()
    ensures { (n i x : ℕ) → IsWord n x → signed_of (n + i) (sign_extend_of n i x) ≡ signed_of n x }
{}

/// A rotation by the width changes nothing, and a rotation to the right undoes one to the left.
pub fn rotations_turn_round()
    ensures left { (n x : ℕ) → IsWord n x → rotate_left_of n n x ≡ x }
    ensures right { (n x : ℕ) → IsWord n x → rotate_right_of n n x ≡ x }
    ensures back { (n i x : ℕ) → IsWord n x → rotate_right_of n i (rotate_left_of n i x) ≡ x }
{}
