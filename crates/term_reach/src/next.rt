// To which terms a term leads.

ghost use Rattle.std.specs.Prelude.{◌≡◌, ◌<◌, ◌^◌, ℕ, List, IfOk, length, slice_get};
ghost use Rattle.smt_terms.specs.declared.node.Node.{Node};

use smt_terms::node::TermId;
use smt_terms::terms::Terms;
use std::alloc::AllocError;

/// What tells the terms to which a term leads.
pub trait Next {
    /// The terms to which a term leads, among these terms.
    ghost next_of: { Self → List Node → ℕ → List ℕ };

    /// The one at this place of the terms to which a term leads, and none past their end.
    fn next(&self, terms: &Terms, term: TermId, place: usize) -> Result<Option<TermId>, AllocError>
        requires held { term < length terms.now.nodes }
        ensures next { IfOk result
            (λ o. o ≡ slice_get (next_of self.now terms.now.nodes term) place) }
        ensures few { length (next_of self.now terms.now.nodes term) < 2 ^ 63 };
}

/// A term leads to its arguments.
#[derive(Clone, Copy, Debug)]
pub struct Arguments;

impl Next for Arguments {
    ghost use Rattle.term_reach.specs.Reach.{arguments};

    ghost next_of = { λ n nodes. arguments nodes };

    fn next(
        &self,
        terms: &Terms,
        term: TermId,
        place: usize,
    ) -> Result<Option<TermId>, AllocError> {
        Ok(terms.node(term).args.as_slice().get(place).copied())
    }
}
