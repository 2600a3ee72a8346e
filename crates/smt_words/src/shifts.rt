//! Shifts by any amount, and rotations.

ghost use Rattle.std.specs.Prelude.{◌≡◌};
ghost use Rattle.smt_words.specs.Words.{ashr_of, lshr_of, rotate_left_of, rotate_right_of, shl_of, word};

use crate::Word;
use crate::masks::{low, shifted_left, shifted_right};

impl Word {
    /// Shift to the left; zeros come in, and nothing is left past the width.
    pub fn bvshl(self, other: Word) -> Word
        requires { self.width ≡ other.width }
        ensures { result ≡ word self.width (shl_of self.width self.value other.value) }
    {
        self.wrapped(shifted_left(self.value, other.value))
    }

    /// Logical shift to the right; zeros come in.
    pub fn bvlshr(self, other: Word) -> Word
        requires { self.width ≡ other.width }
        ensures { result ≡ word self.width (lshr_of self.width self.value other.value) }
    {
        Word {
            width: self.width,
            value: shifted_right(self.value, other.value),
        }
    }

    /// Arithmetic shift to the right; copies of the sign bit come in.
    pub fn bvashr(self, other: Word) -> Word
        requires { self.width ≡ other.width }
        ensures { result ≡ word self.width (ashr_of self.width self.value other.value) }
    {
        if self.is_negative() {
            self.bvnot().bvlshr(other).bvnot()
        } else {
            self.bvlshr(other)
        }
    }

    /// Rotation to the left by the index modulo the width.
    pub fn rotate_left(places: u32, of: Word) -> Word
        ensures { result ≡ word of.width (rotate_left_of of.width places of.value) }
    {
        let by = places % of.width;
        let rest = of.width - by;
        Word {
            width: of.width,
            value: (low(rest, of.value) << by) | shifted_right(of.value, u128::from(rest)),
        }
    }

    /// Rotation to the right by the index modulo the width.
    pub fn rotate_right(places: u32, of: Word) -> Word
        ensures { result ≡ word of.width (rotate_right_of of.width places of.value) }
    {
        Word::rotate_left(of.width - places % of.width, of)
    }
}
