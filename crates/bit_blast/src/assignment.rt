//! Assignments of truth values to the variables.

ghost use Rattle.std.specs.Prelude.{◌≡◌, ◌<◌, length, IsSomeAnd, IfSome};
ghost use Rattle.cnf_base.specs.Clauses.{lit_true, number};
ghost use Rattle.smt_words.specs.Words.{word};
ghost use Rattle.smt_terms.specs.Bits.{bits_in};
ghost use Rattle.bit_blast.specs.Assigned.{assigned, IsLongAsWord};

use cnf_base::Lit;
use smt_terms::bits::Bits;
use smt_terms::node::TermId;
use smt_words::Word;
use std::marker::Model;

/// The truth values of the variables from 1 on; every further variable is false.
#[derive(Debug, Drop)]
pub struct Assignment {
    values: Vec<bool>,
}

impl Model for Assignment {
    ghost use Rattle.std.specs.Prelude.{List, Bool};

    ghost Value = { List Bool };

    ghost view = { λ a. a.values.items };
}

impl Assignment {
    /// These are the values of the variables from 1 on.
    pub fn new(values: Vec<bool>) -> Assignment
        ensures { result ≡ values.items }
    {
        Assignment { values }
    }

    /// Whether a literal is true.
    pub fn value(&self, literal: Lit) -> bool
        ensures { result ≡ lit_true (assigned self.now) literal }
    {
        let place = literal.variable() - 1;
        let value = self.values.get(place as usize).copied().unwrap_or(false);
        value == literal.is_positive()
    }

    /// The word whose bits are those of a term.
    pub fn word_of(&self, bits: &Bits, t: TermId) -> Word
        requires { IsSomeAnd (bits_in bits.now t) IsLongAsWord }
        ensures { IfSome (bits_in bits.now t)
            (λ row. result ≡ word (length row) (number (assigned self.now) row)) }
    {
        let row = bits.of(t).unwrap();
        let mut value: u128 = 0;
        for i in (0..row.len()).rev() {
            value = value * 2 + u128::from(self.value(row[i]));
        }
        Word::new(row.len() as u32, value).unwrap()
    }
}
