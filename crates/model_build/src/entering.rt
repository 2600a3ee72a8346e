// The values of declared constants and of applications.

ghost use Rattle.std.specs.Prelude.{◌≡◌, ◌<◌, ℕ, true, None, Contains, IfOk, OnOk, length, map};
ghost use Rattle.std.specs.List.{AllByRecursion};
ghost use Rattle.smt_terms.specs.Ranks.{is_plain};
ghost use Rattle.smt_terms.specs.Scalars.{scalar_value};
ghost use Rattle.smt_terms.specs.Terms.{sort_of, IsSort};
ghost use Rattle.smt_terms.specs.Bits.{image_in};
ghost use Rattle.theory_terms.specs.Shapes.{shape_at};
ghost use Rattle.bit_blast.specs.Assigned.{assigned};
ghost use Rattle.access_tables.specs.Encoded.{HaveBits};
ghost use Rattle.access_tables.specs.Held.{HasRow, assigned_value, IsClosedUnder};
ghost use Rattle.model_build.specs.Drafts.{IsPlainTerm, zero_of, IsFirstOf, EntersShape, Enters, HasDefaults, AreSorted};

use crate::draft::Draft;
use access_tables::table::AccessTable;
use access_tables::values::{truth_of, value_of, word_of};
use bit_blast::Assignment;
use smt_terms::bits::Bits;
use smt_terms::node::TermId;
use smt_terms::scalar::Scalar;
use smt_terms::sort::Sort;
use smt_terms::terms::Terms;
use smt_values::array::ArrayValue;
use smt_values::table::Scalars;
use smt_values::value::{Value, word_from};
use std::alloc::{AllocError, Global};
use theory_terms::shape::{Shape, shape_at};

/// The values of arguments.
fn argument_values(
    alloc: Global,
    terms: &Terms,
    bits: &Bits,
    assignment: &Assignment,
    args: &[TermId],
) -> Result<Scalars, AllocError>
    requires { AllByRecursion (IsPlainTerm terms.now.nodes bits.now) args.now }
    ensures { IfOk result
        (λ vs. map scalar_value vs
        ≡ map (assigned_value terms.now.nodes bits.now (assigned assignment.now)) args.now) }
{
    let mut values = Scalars::none(alloc);
    for arg in args {
        values.push(value_of(terms, bits, assignment, *arg))?;
    }
    Ok(values)
}

/// The first value of a declared constant: that of a Bool or a word, and the array of zeros.
fn constant(
    alloc: Global,
    terms: &Terms,
    bits: &Bits,
    assignment: &Assignment,
    term: TermId,
    sort: Sort,
) -> Value
    requires held { term < length terms.now.nodes }
    requires sort { sort_of terms.now.nodes term ≡ sort }
    requires widths { IsSort sort }
    requires row { is_plain sort ≡ true → HasRow terms.now.nodes bits.now term }
    ensures { IsFirstOf (assigned_value terms.now.nodes bits.now (assigned assignment.now) term)
        sort result }
{
    match sort {
        Sort::Bool => Value::Bool(truth_of(terms, bits, assignment, term)),
        Sort::Word(_) => Value::Word(word_of(terms, bits, assignment, term)),
        Sort::Array(index, element) => {
            Value::Array(ArrayValue::constant(alloc, index, word_from(element, 0)))
        }
    }
}

/// False, or the word zero.
fn zero(sort: Sort) -> Scalar
    requires { IsSort sort }
    ensures { result ≡ zero_of sort }
{
    match sort {
        Sort::Word(width) => Scalar::Word(word_from(width, 0)),
        _ => Scalar::Bool(false),
    }
}

/// Enters a term without an image, if it is a declared constant or an application.
fn enter_own(
    alloc: Global,
    terms: &Terms,
    bits: &Bits,
    assignment: &Assignment,
    table: &AccessTable,
    term: TermId,
    draft: &mut Draft,
) -> Result<(), AllocError>
    requires bits { HaveBits terms.now.nodes bits.now (Contains table.now.terms) }
    requires closed { IsClosedUnder terms.now.nodes bits.now (assigned assignment.now) table.now }
    requires here { Contains table.now.terms term }
    requires free { image_in bits.now term ≡ None }
    ensures { OnOk result
        (EntersShape terms.now.nodes
        (assigned_value terms.now.nodes bits.now (assigned assignment.now)) term
        (shape_at terms.now.nodes term) draft.old draft.new) }
{
    let _count = terms.len();
    match shape_at(terms, term) {
        Shape::Declaring { declaration, sort } => {
            let value = constant(alloc, terms, bits, assignment, term, sort);
            draft.set(declaration, value)
        }
        Shape::Applying { declaration } => {
            let args = terms.node(term).args.as_slice();
            let args = argument_values(alloc, terms, bits, assignment, args)?;
            let value = value_of(terms, bits, assignment, term);
            let default = zero(terms.sort(term));
            draft.add_row(alloc, declaration, default, args, value)
        }
        _ => Ok(()),
    }
}

/// Enters a term, if it is a declared constant or an application and has no image.
fn enter_term(
    alloc: Global,
    terms: &Terms,
    bits: &Bits,
    assignment: &Assignment,
    table: &AccessTable,
    term: TermId,
    draft: &mut Draft,
) -> Result<(), AllocError>
    requires bits { HaveBits terms.now.nodes bits.now (Contains table.now.terms) }
    requires closed { IsClosedUnder terms.now.nodes bits.now (assigned assignment.now) table.now }
    requires here { Contains table.now.terms term }
    ensures { OnOk result
        (Enters terms.now.nodes bits.now (assigned assignment.now) term draft.old draft.new) }
{
    match bits.image(term) {
        Some(_) => Ok(()),
        None => enter_own(alloc, terms, bits, assignment, table, term, draft),
    }
}

/// The values of declared Bools and words, the rows of functions, and zeros for declared arrays.
pub(crate) fn enter_terms(
    alloc: Global,
    terms: &Terms,
    bits: &Bits,
    assignment: &Assignment,
    table: &AccessTable,
) -> Result<Draft, AllocError>
    requires bits { HaveBits terms.now.nodes bits.now (Contains table.now.terms) }
    requires closed { IsClosedUnder terms.now.nodes bits.now (assigned assignment.now) table.now }
    ensures entered { IfOk result
        (λ d. HasDefaults terms.now.nodes bits.now (assigned assignment.now) table.now
        (length table.now.terms) 0 d) }
    ensures sorted { IfOk result (λ d. AreSorted terms.now.nodes bits.now table.now.terms d) }
{
    let _count = terms.len();
    let mut draft = Draft::new(alloc);
    for term in table.terms() {
        enter_term(alloc, terms, bits, assignment, table, *term, &mut draft)?;
    }
    Ok(draft)
}
