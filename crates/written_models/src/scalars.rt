//! Truth values and words, and the sorts that functions take.

ghost use Rattle.std.specs.Prelude.{◌≡◌, true};
ghost use Rattle.smt_terms.specs.Ranks.{is_plain};
ghost use Rattle.smt_terms.specs.Same.{same_sort};
ghost use Rattle.smt_terms.specs.Scalars.{scalar_value, scalar_sort};
ghost use Rattle.smt_terms.specs.Terms.{IsSort};
ghost use Rattle.smt_terms.specs.Values.{read_at};
ghost use Rattle.smt_values.specs.Held.{value_of};
ghost use Rattle.written_models.specs.Fitting.{are_of};
ghost use Rattle.accepted_proof.specs.Models.{IsOfKind, AreOfKinds};

use smt_terms::scalar::Scalar;
use smt_terms::sort::Sort;
use smt_values::value::word_from;

/// A truth value or a word read at a sort.
pub(crate) fn scalar_at(sort: Sort, scalar: Scalar) -> Scalar
    requires sort { IsSort sort }
    requires plain { is_plain sort ≡ true }
    ensures kind { IsOfKind sort (value_of result) }
    ensures reads { scalar_value result ≡ read_at sort (scalar_value scalar) }
{
    match sort {
        Sort::Word(width) => match scalar {
            Scalar::Word(word) => Scalar::Word(word_from(width, word.value())),
            Scalar::Bool(_) => Scalar::Word(word_from(width, 0)),
        },
        _ => match scalar {
            Scalar::Word(_) => Scalar::Bool(false),
            Scalar::Bool(_) => scalar,
        },
    }
}

/// Whether a truth value or a word is of a sort.
fn is_of(sort: Sort, scalar: Scalar) -> bool
    ensures is { result ≡ same_sort sort (scalar_sort scalar) }
    ensures kind { result ≡ true → IsOfKind sort (value_of scalar) }
{
    match scalar {
        Scalar::Bool(_) => sort == Sort::Bool,
        Scalar::Word(word) => sort == Sort::Word(word.width()),
    }
}

/// Whether truth values and words are of these sorts, one by one.
pub(crate) fn are_of(sorts: &[Sort], args: &[Scalar]) -> bool
    ensures is { result ≡ are_of sorts.now args.now }
    ensures kinds { result ≡ true → AreOfKinds sorts.now args.now }
{
    match sorts {
        [] => args.is_empty(),
        [sort, sorts @ ..] => match args {
            [] => false,
            [arg, args @ ..] => is_of(*sort, *arg) && are_of(sorts, args),
        },
    }
}
