// The values of terms under an assignment of the variables.

ghost use Rattle.std.specs.Prelude.{◌≡◌, ◌<◌, true, length};
ghost use Rattle.smt_words.specs.Words.{word};
ghost use Rattle.smt_terms.specs.declared.sort.Sort.TheVariants as sort;
ghost use Rattle.smt_terms.specs.Ranks.{is_word, is_plain, width_of};
ghost use Rattle.smt_terms.specs.Scalars.{scalar_value};
ghost use Rattle.smt_terms.specs.Terms.{sort_of};
ghost use Rattle.smt_terms.specs.Values.{number_of, is_true};
ghost use Rattle.bit_blast.specs.Assigned.{assigned};
ghost use Rattle.access_tables.specs.Held.{HasRow, assigned_value};

use bit_blast::Assignment;
use smt_terms::bits::Bits;
use smt_terms::node::TermId;
use smt_terms::scalar::Scalar;
use smt_terms::sort::Sort;
use smt_terms::terms::Terms;
use smt_words::Word;

/// The value of a word; takes no memory.
pub fn word_of(terms: &Terms, bits: &Bits, assignment: &Assignment, term: TermId) -> Word
    requires held { term < length terms.now.nodes }
    requires sort { is_word (sort_of terms.now.nodes term) ≡ true }
    requires row { HasRow terms.now.nodes bits.now term }
    ensures { result
        ≡ word (width_of (sort_of terms.now.nodes term))
        (number_of (assigned_value terms.now.nodes bits.now (assigned assignment.now) term)) }
{
    let _count = terms.len();
    assignment.word_of(bits, term)
}

/// The value of a Bool; takes no memory.
pub fn truth_of(terms: &Terms, bits: &Bits, assignment: &Assignment, term: TermId) -> bool
    requires sort { sort_of terms.now.nodes term ≡ sort.Bool }
    requires row { HasRow terms.now.nodes bits.now term }
    ensures { result
        ≡ is_true (assigned_value terms.now.nodes bits.now (assigned assignment.now) term) }
{
    let row = bits.of(term).unwrap();
    assignment.value(row[0])
}

/// The value of a Bool or a word; takes no memory.
pub fn value_of(terms: &Terms, bits: &Bits, assignment: &Assignment, term: TermId) -> Scalar
    requires held { term < length terms.now.nodes }
    requires plain { is_plain (sort_of terms.now.nodes term) ≡ true }
    requires row { HasRow terms.now.nodes bits.now term }
    ensures { scalar_value result
        ≡ assigned_value terms.now.nodes bits.now (assigned assignment.now) term }
{
    match terms.sort(term) {
        Sort::Bool => Scalar::Bool(truth_of(terms, bits, assignment, term)),
        _ => Scalar::Word(word_of(terms, bits, assignment, term)),
    }
}
