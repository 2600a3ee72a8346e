// Truth values and words.

ghost use Rattle.std.specs.Prelude.{◌≡◌};
ghost use Rattle.smt_terms.specs.Scalars.{scalar_sort};

use crate::sort::Sort;
use smt_words::Word;

/// A value of a sort that is Bool or a word.
#[derive(Clone, Copy, Debug, PartialEq, Eq, PartialOrd, Ord)]
pub enum Scalar {
    Bool(bool),
    Word(Word),
}

impl Scalar {
    pub fn sort(self) -> Sort
        ensures { result ≡ scalar_sort self }
    {
        match self {
            Scalar::Bool(_) => Sort::Bool,
            Scalar::Word(word) => Sort::Word(word.width()),
        }
    }
}
