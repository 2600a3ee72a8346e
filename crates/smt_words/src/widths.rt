//! Operators whose result has another width.

ghost use Rattle.std.specs.Prelude.{◌≡◌, ◌<◌, ◌≤◌, ◌+◌, ◌-◌, ◌*◌};
ghost use Rattle.smt_words.specs.Words.{concat_of, extract_of, repeat_of, sign_extend_of, word};

use crate::Word;
use crate::masks::{low, ones};

impl Word {
    /// Both side by side, this word as the high part.
    pub fn concat(self, other: Word) -> Word
        requires { self.width + other.width ≤ 128 }
        ensures { result
            ≡ word (self.width + other.width) (concat_of other.width self.value other.value) }
    {
        Word {
            width: self.width + other.width,
            value: (self.value << other.width) | other.value,
        }
    }

    /// The bits from `low_place` to `high_place`, both included; place 0 is the lowest.
    pub fn extract(high_place: u32, low_place: u32, of: Word) -> Word
        requires order { low_place ≤ high_place }
        requires within { high_place < of.width }
        ensures { result
            ≡ word (high_place - low_place + 1) (extract_of high_place low_place of.value) }
    {
        Word {
            width: high_place - low_place + 1,
            value: low(high_place - low_place + 1, of.value >> low_place),
        }
    }

    /// This many zeros more on top.
    pub fn zero_extend(more: u32, of: Word) -> Word
        requires { of.width + more ≤ 128 }
        ensures { result ≡ word (of.width + more) of.value }
    {
        Word {
            width: of.width + more,
            value: of.value,
        }
    }

    /// This many copies of the sign bit more on top.
    pub fn sign_extend(more: u32, of: Word) -> Word
        requires { of.width + more ≤ 128 }
        ensures { result ≡ word (of.width + more) (sign_extend_of of.width more of.value) }
    {
        let value = if of.is_negative() {
            ones(of.width + more) - ones(of.width) + of.value
        } else {
            of.value
        };
        Word {
            width: of.width + more,
            value,
        }
    }

    /// This many copies side by side.
    pub fn repeat(copies: u32, of: Word) -> Word
        requires some { 0 < copies }
        requires fits { of.width * copies ≤ 128 }
        ensures { result ≡ word (of.width * copies) (repeat_of of.width copies of.value) }
    {
        let mut value = of.value;
        for _done in 1..copies {
            value = (value << of.width) | of.value;
        }
        Word {
            width: of.width * copies,
            value,
        }
    }
}
