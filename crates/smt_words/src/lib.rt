//! Words of 1 to 128 bits, and the operators of SMT-LIB over them.
//!
//! A `Word` is a width and a number below two to the width. Each operator of the theory
//! FixedSizeBitVectors and each abbreviation of the logic QF_BV is one total call, whose contract
//! says that the result is the operator's number function of `specs/Words.antt`; the condition of a
//! call is the operator's rank. [`laws`] proves of those functions what their readers expect of
//! them. The crate stands on no other.
#![tactic(auto)]

ghost use Rattle.std.specs.Prelude.{◌≡◌, ◌%◌, ◌^◌, ◌↔◌, IsSome, IfSome};
ghost use Rattle.smt_words.specs.Words.{IsWord, word, is_negative};

mod arithmetic;
mod bitwise;
mod division;
pub mod laws;
mod masks;
mod orders;
mod shifts;
#[cfg(test)]
mod tests;
mod widths;

use masks::{low, ones};
use std::marker::Model;

/// A word: a width of 1 to 128 bits and a value below two to the width.
#[derive(Clone, Copy, Debug, PartialEq, Eq, PartialOrd, Ord, Hash)]
pub struct Word {
    width: u32,
    value: u128,
}

impl Model for Word {
    ghost use Rattle.smt_words.specs.Words.{WordValue, IsWord, word};

    ghost Value = { WordValue };

    ghost view = { λ w. word w.width w.value };

    ghost invariant = { λ w. IsWord w.width w.value };

    ghost inverse = { λ w. record { width = w.width; value = w.value } };
}

impl Word {
    /// The word of this width and value; `None` exactly where the width is not 1 to 128 or the value needs more bits.
    pub fn new(width: u32, value: u128) -> Option<Word>
        ensures found { IsSome result ↔ IsWord width value }
        ensures value { IfSome result (λ w. w ≡ word width value) }
    {
        if width < 1 || width > 128 {
            return None;
        }
        if value > ones(width) {
            return None;
        }
        Some(Word { width, value })
    }

    /// The number of bits, 1 to 128.
    pub fn width(self) -> u32
        ensures { result ≡ self.width }
    {
        self.width
    }

    /// The value, below two to the width.
    pub fn value(self) -> u128
        ensures { result ≡ self.value }
    {
        self.value
    }

    /// Whether the sign bit is 1.
    fn is_negative(self) -> bool
        ensures { result ≡ is_negative self.width self.value }
    {
        1 << (self.width - 1) <= self.value
    }

    /// A number modulo two to the width of this word.
    fn wrapped(self, value: u128) -> Word
        ensures { result ≡ word self.width (value % 2 ^ self.width) }
    {
        Word {
            width: self.width,
            value: low(self.width, value),
        }
    }
}
