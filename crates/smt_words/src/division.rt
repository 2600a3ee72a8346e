//! Quotients and remainders, total at a divisor of 0.

ghost use Rattle.std.specs.Prelude.{◌≡◌};
ghost use Rattle.smt_words.specs.Words.{abs_of, sdiv_of, smod_of, srem_of, udiv_of, urem_of, word};

use crate::Word;
use crate::masks::ones;

impl Word {
    /// The quotient, rounded down; all ones where the divisor is 0.
    pub fn bvudiv(self, other: Word) -> Word
        requires { self.width ≡ other.width }
        ensures { result ≡ word self.width (udiv_of self.width self.value other.value) }
    {
        Word {
            width: self.width,
            value: self
                .value
                .checked_div(other.value)
                .unwrap_or(ones(self.width)),
        }
    }

    /// The remainder; the dividend where the divisor is 0.
    pub fn bvurem(self, other: Word) -> Word
        requires { self.width ≡ other.width }
        ensures { result ≡ word self.width (urem_of self.width self.value other.value) }
    {
        Word {
            width: self.width,
            value: self.value.checked_rem(other.value).unwrap_or(self.value),
        }
    }

    /// The absolute value of the two's complement value.
    fn abs(self) -> Word
        ensures { result ≡ word self.width (abs_of self.width self.value) }
    {
        if self.is_negative() {
            self.bvneg()
        } else {
            self
        }
    }

    /// The signed quotient, rounded towards 0.
    pub fn bvsdiv(self, other: Word) -> Word
        requires { self.width ≡ other.width }
        ensures { result ≡ word self.width (sdiv_of self.width self.value other.value) }
    {
        let quotient = self.abs().bvudiv(other.abs());
        if self.is_negative() == other.is_negative() {
            quotient
        } else {
            quotient.bvneg()
        }
    }

    /// The signed remainder, with the sign of the dividend.
    pub fn bvsrem(self, other: Word) -> Word
        requires { self.width ≡ other.width }
        ensures { result ≡ word self.width (srem_of self.width self.value other.value) }
    {
        let rest = self.abs().bvurem(other.abs());
        if self.is_negative() {
            rest.bvneg()
        } else {
            rest
        }
    }

    /// The signed remainder, with the sign of the divisor.
    pub fn bvsmod(self, other: Word) -> Word
        requires { self.width ≡ other.width }
        ensures { result ≡ word self.width (smod_of self.width self.value other.value) }
    {
        let rest = self.abs().bvurem(other.abs());
        if rest.value() == 0 {
            return rest;
        }
        match (self.is_negative(), other.is_negative()) {
            (false, false) => rest,
            (true, false) => rest.bvneg().bvadd(other),
            (false, true) => rest.bvadd(other),
            (true, true) => rest.bvneg(),
        }
    }
}
