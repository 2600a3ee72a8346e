// Values.

ghost use Rattle.std.specs.Prelude.{◌≡◌, ◌%◌, ◌^◌, IfOk};
ghost use Rattle.smt_words.specs.Words.{IsWidth, word};
ghost use Rattle.smt_terms.specs.Terms.{IsSort};
ghost use Rattle.smt_terms.specs.Values.{default_of};
ghost use Rattle.smt_values.specs.Held.{meaning, IsOfSort};

use crate::array::ArrayValue;
use crate::table::FunTable;
use smt_terms::scalar::Scalar;
use smt_terms::sort::Sort;
use smt_words::Word;
use std::alloc::{AllocError, Global};

/// The value of a declared constant or of a term, or the table of a declared function.
#[derive(Clone, Debug, Drop)]
pub enum Value {
    Bool(bool),
    Word(Word),
    Array(ArrayValue),
    Fun(FunTable),
}

/// The word of this width whose value is a number modulo two to the width.
pub fn word_from(width: u32, number: u128) -> Word
    requires { IsWidth width }
    ensures { result ≡ word width (number % 2 ^ width) }
{
    let low = if width < 128 {
        number % (1 << width)
    } else {
        number
    };
    Word::new(width, low).unwrap()
}

impl Value {
    /// False, zero, or the array of zeros; takes no memory.
    pub fn default(alloc: Global, sort: Sort) -> Value
        requires { IsSort sort }
        ensures meaning { meaning result ≡ default_of sort }
        ensures sort { IsOfSort sort result }
    {
        match sort {
            Sort::Bool => Value::Bool(false),
            Sort::Word(width) => Value::Word(word_from(width, 0)),
            Sort::Array(index, element) => {
                Value::Array(ArrayValue::constant(alloc, index, word_from(element, 0)))
            }
        }
    }

    /// An equal value.
    pub fn copy(&self) -> Result<Value, AllocError>
        ensures { IfOk result (λ v. v ≡ self.now) }
    {
        self.clone()
    }
}

impl From<Scalar> for Value {
    ghost use Rattle.std.specs.Prelude.{◌≡◌};
    ghost use Rattle.smt_values.specs.Held.{value_of};

    ghost from_gives = { λ s v. v ≡ value_of s };

    fn from(scalar: Scalar) -> Value {
        match scalar {
            Scalar::Bool(holds) => Value::Bool(holds),
            Scalar::Word(word) => Value::Word(word),
        }
    }
}
