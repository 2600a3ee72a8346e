// To which terms a term leads where terms may have images.

ghost use Rattle.std.specs.Prelude.{◌≡◌, ◌<◌, IfOk, length, slice_get};
ghost use Rattle.theory_terms.specs.Shapes.{shape_at};
ghost use Rattle.access_tables.specs.Leading.{watched};

use smt_terms::bits::Bits;
use smt_terms::node::TermId;
use smt_terms::terms::Terms;
use std::alloc::{AllocError, Global};
use term_reach::Next;
use theory_lemmas::atoms::watch;
use theory_terms::shape::{Shape, shape_at};

/// A term with an image leads to it alone. Any other leads to its arguments, and an equality of
/// arrays to the selects of its sides at their witness too.
#[derive(Drop)]
pub struct Links<'a> {
    bits: &'a Bits,
    alloc: Global,
}

/// The one at this place of the selects to which an equality of arrays leads.
fn watched_at(
    alloc: Global,
    terms: &Terms,
    term: TermId,
    place: usize,
) -> Result<Option<TermId>, AllocError>
    ensures { IfOk result
        (λ o. o ≡ slice_get (watched terms.now.nodes (shape_at terms.now.nodes term)) place) }
{
    let Shape::Equating { left, right } = shape_at(terms, term) else {
        return Ok(None);
    };
    let Some(found) = watch(alloc, terms, left, right)? else {
        return Ok(None);
    };
    match place {
        0 => Ok(Some(found.left)),
        1 => Ok(Some(found.right)),
        _ => Ok(None),
    }
}

impl<'a> Links<'a> {
    /// By the images of the terms that have bits; takes no memory.
    pub fn new(alloc: Global, bits: &'a Bits) -> Links<'a>
        ensures { result.bits.now ≡ bits.now }
    {
        Links { bits, alloc }
    }
}

impl<'a> Next for Links<'a> {
    ghost use Rattle.smt_terms.specs.Bits.{image_in};
    ghost use Rattle.access_tables.specs.Leading.{leads};

    ghost next_of = { λ l nodes. leads nodes (image_in l.bits.now) };

    fn next(
        &self,
        terms: &Terms,
        term: TermId,
        place: usize,
    ) -> Result<Option<TermId>, AllocError> {
        if let Some(image) = self.bits.image(term) {
            return Ok(if place == 0 { Some(image) } else { None });
        }
        let args = terms.node(term).args.as_slice();
        if place < args.len() {
            return Ok(Some(args[place]));
        }
        watched_at(self.alloc, terms, term, place - args.len())
    }
}
