//! Orders and comparison.

ghost use Rattle.std.specs.Prelude.{◌≡◌};
ghost use Rattle.smt_words.specs.Words.{comp_of, sle_of, slt_of, ule_of, ult_of, word};

use crate::Word;

impl Word {
    /// Unsigned below.
    pub fn bvult(self, other: Word) -> bool
        requires { self.width ≡ other.width }
        ensures { result ≡ ult_of self.width self.value other.value }
    {
        self.value < other.value
    }

    /// Unsigned at most.
    pub fn bvule(self, other: Word) -> bool
        requires { self.width ≡ other.width }
        ensures { result ≡ ule_of self.width self.value other.value }
    {
        self.value <= other.value
    }

    /// Unsigned above.
    pub fn bvugt(self, other: Word) -> bool
        requires { self.width ≡ other.width }
        ensures { result ≡ ult_of self.width other.value self.value }
    {
        other.bvult(self)
    }

    /// Unsigned at least.
    pub fn bvuge(self, other: Word) -> bool
        requires { self.width ≡ other.width }
        ensures { result ≡ ule_of self.width other.value self.value }
    {
        other.bvule(self)
    }

    /// Signed below.
    pub fn bvslt(self, other: Word) -> bool
        requires { self.width ≡ other.width }
        ensures { result ≡ slt_of self.width self.value other.value }
    {
        if self.is_negative() == other.is_negative() {
            self.bvult(other)
        } else {
            self.is_negative()
        }
    }

    /// Signed at most.
    pub fn bvsle(self, other: Word) -> bool
        requires { self.width ≡ other.width }
        ensures { result ≡ sle_of self.width self.value other.value }
    {
        !other.bvslt(self)
    }

    /// Signed above.
    pub fn bvsgt(self, other: Word) -> bool
        requires { self.width ≡ other.width }
        ensures { result ≡ slt_of self.width other.value self.value }
    {
        other.bvslt(self)
    }

    /// Signed at least.
    pub fn bvsge(self, other: Word) -> bool
        requires { self.width ≡ other.width }
        ensures { result ≡ sle_of self.width other.value self.value }
    {
        other.bvsle(self)
    }

    /// One bit, 1 exactly where both are equal.
    pub fn bvcomp(self, other: Word) -> Word
        requires { self.width ≡ other.width }
        ensures { result ≡ word 1 (comp_of self.width self.value other.value) }
    {
        Word {
            width: 1,
            value: if self.value == other.value { 1 } else { 0 },
        }
    }
}
