//! The terms whose bits a check needs.

ghost use Rattle.std.specs.Prelude.{◌≡◌, All, IfOk};
ghost use Rattle.watch_roots.specs.Roots.{AreLive, IsScalar};

use crate::finding::found_among;
use smt_terms::node::TermId;
use smt_terms::terms::Terms;
use std::alloc::{AllocError, Global};
use term_reach::{Reached, reach_by_arguments};

/// The terms that a check is about, and before them those that its arrays need: the selects of each equality of arrays that is
/// reached through arguments at the witness of its sides, those of the lowest equality first, and for each constant array the words
/// of its index width from 0 up to the first that is not held. What `reached` had is forgotten. The work goes by what is reached.
pub fn live_terms(
    alloc: Global,
    terms: &Terms,
    roots: &[TermId],
    reached: &mut Reached,
) -> Result<Vec<TermId>, AllocError>
    requires { All (IsScalar terms.now.nodes) roots.now }
    ensures { IfOk result (λ live. AreLive terms.now.nodes roots.now live.items) }
{
    reach_by_arguments(alloc, terms, roots, reached)?;
    let mut live = found_among(alloc, terms, reached.terms())?;
    live.extend_from_slice(roots)?;
    Ok(live)
}
