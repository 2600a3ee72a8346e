// The values that a search gives to bits.

ghost use Rattle.std.specs.Prelude.{◌≡◌, ℕ, None, Some, MatchOption, length};
ghost use Rattle.cnf_base.specs.Clauses.{number};
ghost use Rattle.smt_words.specs.Words.{word};
ghost use Rattle.smt_terms.specs.Terms.{IsSort};
ghost use Rattle.smt_values.specs.Held.{meaning};
ghost use Rattle.bit_blast.specs.Assigned.{IsLongAsWord};
ghost use Rattle.bit_blast.specs.Meanings.{AreBitsOf};
ghost use Rattle.proof_log.specs.Logs.{plain_width};
ghost use Rattle.cube_search.specs.Running.{valuation_of};

use cnf_base::Lit;
use cube_search::Search;
use smt_terms::sort::Sort;
use smt_values::Value;
use smt_words::Word;

/// The word with these bits.
fn word_value(search: &Search, row: &[Lit]) -> Word
    requires { IsLongAsWord row.now }
    ensures { result ≡ word (length row.now) (number (valuation_of search.now) row.now) }
{
    let mut value: u128 = 0;
    for i in (0..row.len()).rev() {
        value = value * 2 + u128::from(search.is_true(row[i]));
    }
    Word::new(row.len() as u32, value).unwrap()
}

/// The Bool or the word with these bits; `None` exactly where the sort is that of arrays.
pub(crate) fn value_of(search: &Search, row: &[Lit], sort: Sort) -> Option<Value>
    requires sort { IsSort sort }
    requires long { (n : ℕ) → plain_width sort ≡ Some n → n ≡ length row.now }
    ensures { MatchOption result (plain_width sort ≡ None)
        (λ x. AreBitsOf (valuation_of search.now) sort row.now (meaning x)) }
{
    match sort {
        Sort::Bool => Some(Value::Bool(search.is_true(row[0]))),
        Sort::Word(_) => Some(Value::Word(word_value(search, row))),
        Sort::Array(_, _) => None,
    }
}
