// Truth values and words read at a sort.

ghost use Rattle.std.specs.Prelude.{◌≡◌};
ghost use Rattle.smt_terms.specs.Terms.{IsSort};
ghost use Rattle.smt_values.specs.Readings.{scalar_read};

use crate::value::word_from;
use smt_terms::scalar::Scalar;
use smt_terms::sort::Sort;

/// A truth value or a word read at a sort.
pub fn read_scalar(sort: Sort, scalar: Scalar) -> Scalar
    requires { IsSort sort }
    ensures { result ≡ scalar_read sort scalar }
{
    match sort {
        Sort::Bool => match scalar {
            Scalar::Bool(_) => scalar,
            Scalar::Word(_) => Scalar::Bool(false),
        },
        Sort::Word(width) => match scalar {
            Scalar::Word(word) => Scalar::Word(word_from(width, word.value())),
            Scalar::Bool(_) => Scalar::Word(word_from(width, 0)),
        },
        Sort::Array(..) => Scalar::Bool(false),
    }
}
