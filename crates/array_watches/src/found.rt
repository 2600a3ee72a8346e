// The equalities of arrays among reached terms.

ghost use Rattle.std.specs.Prelude.{◌≡◌, ◌<◌, ◌++◌, ◌∷◌, [], filter, length, All, IfOk, OnOk, if◌then◌else◌};
ghost use Rattle.term_reach.specs.Reach.{arguments, IsReach};
ghost use Rattle.array_watches.specs.Needed.{is_array_equality, equalities};

use smt_terms::node::TermId;
use smt_terms::sort::Sort;
use smt_terms::terms::Terms;
use std::alloc::{AllocError, Global};
use term_reach::Reached;
use theory_terms::shape::{Shape, shape_at};

/// Puts a term behind others, if it is wanted.
pub(crate) fn put_if(
    found: &mut Vec<TermId>,
    term: TermId,
    is_wanted: bool,
) -> Result<(), AllocError>
    ensures { OnOk result (found.new.items
        ≡ (if is_wanted then found.old.items ++ term ∷ [] else found.old.items)) }
{
    if is_wanted {
        found.push(term)?;
    }
    Ok(())
}

/// Whether a term is an equality of arrays.
fn is_array_equality(terms: &Terms, term: TermId) -> bool
    requires { term < length terms.now.nodes }
    ensures { result ≡ is_array_equality terms.now.nodes term }
{
    let _count = terms.len();
    match shape_at(terms, term) {
        Shape::Equating { left, .. } => match terms.sort(left) {
            Sort::Array(_, _) => true,
            _ => false,
        },
        _ => false,
    }
}

/// The equalities of arrays among these terms, in their order.
fn equalities_among(
    alloc: Global,
    terms: &Terms,
    among: &[TermId],
) -> Result<Vec<TermId>, AllocError>
    requires { All (λ t. t < length terms.now.nodes) among.now }
    ensures { IfOk result (λ v. v.items ≡ filter (is_array_equality terms.now.nodes) among.now) }
{
    let mut found = Vec::new(alloc);
    for term in among {
        put_if(&mut found, *term, is_array_equality(terms, *term))?;
    }
    Ok(found)
}

/// The equalities of arrays that these terms reach, the lowest first.
pub(crate) fn equalities_of(
    alloc: Global,
    terms: &Terms,
    roots: &[TermId],
    reached: &Reached,
) -> Result<Vec<TermId>, AllocError>
    requires held { All (λ t. t < length terms.now.nodes) roots.now }
    requires reach { IsReach (arguments terms.now.nodes) roots.now reached.now }
    ensures { IfOk result (λ v. v.items ≡ equalities terms.now.nodes roots.now) }
{
    let _roots = roots;
    let _count = terms.len();
    let mut found = equalities_among(alloc, terms, reached.terms())?;
    found.sort_unstable();
    Ok(found)
}
