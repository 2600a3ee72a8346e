//! Arithmetic modulo two to the width.

ghost use Rattle.std.specs.Prelude.{◌≡◌};
ghost use Rattle.smt_words.specs.Words.{add_of, mul_of, neg_of, sub_of, word};

use crate::Word;
use crate::masks::ones;

impl Word {
    /// Two's complement negation.
    pub fn bvneg(self) -> Word
        ensures { result ≡ word self.width (neg_of self.width self.value) }
    {
        self.wrapped((ones(self.width) - self.value).wrapping_add(1))
    }

    /// The sum modulo two to the width.
    pub fn bvadd(self, other: Word) -> Word
        requires { self.width ≡ other.width }
        ensures { result ≡ word self.width (add_of self.width self.value other.value) }
    {
        self.wrapped(self.value.wrapping_add(other.value))
    }

    /// The difference modulo two to the width.
    pub fn bvsub(self, other: Word) -> Word
        requires { self.width ≡ other.width }
        ensures { result ≡ word self.width (sub_of self.width self.value other.value) }
    {
        self.wrapped(self.value.wrapping_sub(other.value))
    }

    /// The product modulo two to the width.
    pub fn bvmul(self, other: Word) -> Word
        requires { self.width ≡ other.width }
        ensures { result ≡ word self.width (mul_of self.width self.value other.value) }
    {
        self.wrapped(self.value.wrapping_mul(other.value))
    }
}
