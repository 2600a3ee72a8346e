// Which terms a check needs.

ghost use Rattle.std.specs.Prelude.{◌≡◌, All, IfOk, OnOk, Contains};
ghost use Rattle.smt_terms.specs.Bits.{image_in};
ghost use Rattle.script_state.specs.States.{roots};
ghost use Rattle.proof_log.specs.Assigned.{AreClosed};
ghost use Rattle.session_terms.specs.Placed.{IsInOrder};
ghost use Rattle.smt_session.specs.Growing.{HasBits};
ghost use Rattle.smt_session.specs.Sessions.{IsSession};

use proof_log::Log;
use script_state::state::State;
use smt_terms::bits::Bits;
use smt_terms::node::TermId;
use smt_terms::terms::Terms;
use std::alloc::{AllocError, Global};
use term_reach::{Next, Reached, reach};

/// The terms of the live assertions, and then those of the assumptions.
pub(crate) fn roots(alloc: Global, state: &State) -> Result<Vec<TermId>, AllocError>
    ensures { IfOk result (λ r. r.items ≡ roots state.now) }
{
    state.roots(alloc)
}

/// A term leads to its image, where these bits tell one, and else to its arguments.
#[derive(Clone, Copy, Debug)]
struct ByImages<'a> {
    bits: &'a Bits,
}

impl<'a> Next for ByImages<'a> {
    ghost use Rattle.smt_terms.specs.Bits.{image_in};
    ghost use Rattle.session_terms.specs.Placed.{by_images};

    ghost next_of = { λ n nodes. by_images nodes (image_in n.bits.now) };

    fn next(
        &self,
        terms: &Terms,
        term: TermId,
        place: usize,
    ) -> Result<Option<TermId>, AllocError> {
        let Some(image) = self.bits.image(term) else {
            return Ok(terms.node(term).args.as_slice().get(place).copied())
        };
        if place == 0 {
            return Ok(Some(image));
        }
        Ok(None)
    }
}

/// The terms on whose bits those of these stand, themselves among them, and no others.
pub(crate) fn reach_by_images(
    alloc: Global,
    state: &State,
    log: &Log,
    from: &[TermId],
    reached: &mut Reached,
) -> Result<(), AllocError>
    requires session { IsSession state.now log.now }
    requires order { IsInOrder state.now.terms.nodes log.now.bits }
    requires bits { All (HasBits log.now) from.now }
    ensures closed { OnOk result
        (AreClosed state.now.terms.nodes (image_in log.now.bits) (Contains reached.new)) }
    ensures from { OnOk result (All (Contains reached.new) from.now) }
{
    let terms = state.terms();
    // The contract of `len` says that no two terms are equal.
    let _count = terms.len();
    reach(alloc, terms, &ByImages { bits: log.bits() }, from, reached)?;
    Ok(())
}
