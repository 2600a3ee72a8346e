//! Operators that work bit by bit.

ghost use Rattle.std.specs.Prelude.{◌≡◌};
ghost use Rattle.smt_words.specs.Words.{and_of, nand_of, nor_of, not_of, or_of, word, xnor_of, xor_of};

use crate::Word;
use crate::masks::ones;

impl Word {
    /// Each bit negated.
    pub fn bvnot(self) -> Word
        ensures { result ≡ word self.width (not_of self.width self.value) }
    {
        Word {
            width: self.width,
            value: ones(self.width) - self.value,
        }
    }

    /// Bitwise conjunction.
    pub fn bvand(self, other: Word) -> Word
        requires { self.width ≡ other.width }
        ensures { result ≡ word self.width (and_of self.width self.value other.value) }
    {
        Word {
            width: self.width,
            value: self.value & other.value,
        }
    }

    /// Bitwise disjunction.
    pub fn bvor(self, other: Word) -> Word
        requires { self.width ≡ other.width }
        ensures { result ≡ word self.width (or_of self.width self.value other.value) }
    {
        Word {
            width: self.width,
            value: self.value | other.value,
        }
    }

    /// Bitwise exclusive disjunction.
    pub fn bvxor(self, other: Word) -> Word
        requires { self.width ≡ other.width }
        ensures { result ≡ word self.width (xor_of self.width self.value other.value) }
    {
        Word {
            width: self.width,
            value: self.value ^ other.value,
        }
    }

    /// `bvand`, each bit negated.
    pub fn bvnand(self, other: Word) -> Word
        requires { self.width ≡ other.width }
        ensures { result ≡ word self.width (nand_of self.width self.value other.value) }
    {
        self.bvand(other).bvnot()
    }

    /// `bvor`, each bit negated.
    pub fn bvnor(self, other: Word) -> Word
        requires { self.width ≡ other.width }
        ensures { result ≡ word self.width (nor_of self.width self.value other.value) }
    {
        self.bvor(other).bvnot()
    }

    /// `bvxor`, each bit negated.
    pub fn bvxnor(self, other: Word) -> Word
        requires { self.width ≡ other.width }
        ensures { result ≡ word self.width (xnor_of self.width self.value other.value) }
    {
        self.bvxor(other).bvnot()
    }
}
