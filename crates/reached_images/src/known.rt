// Terms whose bits are there, or planned.

ghost use Rattle.std.specs.Prelude.{◌≡◌, ◌<◌, ℕ, length, slice_get};
ghost use Rattle.reached_images.specs.Plans.{is_known};

use crate::plan::Plan;
use bv_rewrite::kept::{Kept, stays_difference};
use bv_rules::images::Images;
use smt_terms::bits::Bits;
use smt_terms::node::TermId;
use smt_terms::terms::Terms;
use std::alloc::AllocError;
use term_reach::Next;

/// The terms that have bits, and those of a plan.
#[derive(Clone, Copy)]
pub struct Known<'a> {
    bits: &'a Bits,
    plan: &'a Plan,
}

impl<'a> Known<'a> {
    /// Those with these bits, and those of this plan; takes no memory.
    pub fn new(bits: &'a Bits, plan: &'a Plan) -> Known<'a>
        ensures bits { result.bits.now ≡ bits.now }
        ensures plan { result.plan.now ≡ plan.now }
    {
        Known { bits, plan }
    }

    /// Whether a term is one of them; takes no memory.
    pub fn has(&self, term: TermId) -> bool
        ensures { result ≡ is_known self.now.bits.now self.now.plan.now term }
    {
        self.bits.of(term).is_some() || self.plan.planned(term).is_some()
    }
}

/// A term that has bits has the image that they tell, and one of the plan that to which its use
/// leads.
impl<'a> Images for Known<'a> {
    ghost use Rattle.reached_images.specs.Plans.{known_image};

    ghost image_of = { λ k. known_image k.bits.now k.plan.now };

    fn image(&self, term: TermId) -> Option<TermId> {
        if self.bits.of(term).is_some() {
            return self.bits.image(term);
        }
        match self.plan.planned(term) {
            Some(step) => match step.used {
                Some(used) => Some(used.to),
                None => None,
            },
            None => None,
        }
    }
}

/// Terms that are known are kept, and so are differences whose sums no rule takes further.
impl<'a> Kept for Known<'a> {
    ghost use Rattle.reached_images.specs.Plans.{keeps_known};

    ghost keeps = { λ k. keeps_known k.bits.now k.plan.now };

    fn keeps(&self, terms: &Terms, term: TermId) -> bool {
        self.has(term) || stays_difference(terms, term)
    }
}

/// A term that is not known leads to its arguments, and any other to no term.
impl<'a> Next for Known<'a> {
    ghost use Rattle.reached_images.specs.Plans.{open_arguments};

    ghost next_of = { λ k nodes. open_arguments nodes k.bits.now k.plan.now };

    fn next(
        &self,
        terms: &Terms,
        term: TermId,
        place: usize,
    ) -> Result<Option<TermId>, AllocError> {
        if self.has(term) {
            return Ok(None);
        }
        Ok(terms.node(term).args.as_slice().get(place).copied())
    }
}
