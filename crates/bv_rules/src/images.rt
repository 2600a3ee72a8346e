// Images, and what the arguments of a term become.

ghost use Rattle.std.specs.Prelude.{◌≡◌, ◌<◌, ℕ, Option, length};
ghost use Rattle.std.specs.Cmp.Lexicographic.{pointwise};
ghost use Rattle.bv_rules.specs.Arguments.{commutes_in, reaches, has_reached};

use crate::reading::{arg, commutes};
use smt_terms::bits::Bits;
use smt_terms::node::{Op, TermId};
use smt_terms::terms::Terms;

/// What tells the images of terms.
pub trait Images {
    ghost image_of: { Self → ℕ → Option ℕ };

    /// The image of a term, if it has one; takes no memory.
    fn image(&self, term: TermId) -> Option<TermId>
        ensures { result ≡ image_of self.now term };
}

impl Images for Bits {
    ghost use Rattle.smt_terms.specs.Bits.{image_in};

    ghost image_of = { λ bits. image_in bits };

    fn image(&self, term: TermId) -> Option<TermId> {
        Bits::image(self, term)
    }
}

/// Whether a term is another, or is reached from it by so many images at most.
fn reaches<I: Images>(images: &I, steps: u32, from: TermId, to: TermId) -> bool
    ensures { result ≡ reaches (I.image_of images.now) steps from to }
{
    let mut at = from;
    for _step in 0..steps {
        if at == to {
            return true;
        }
        match images.image(at) {
            Some(next) => at = next,
            None => return false,
        }
    }
    at == to
}

/// The same of each pair of two lists of one length.
fn each_reaches<I: Images>(images: &I, steps: u32, from: &[TermId], to: &[TermId]) -> bool
    ensures { result ≡ pointwise (reaches (I.image_of images.now) steps) from.now to.now }
{
    if from.len() != to.len() {
        return false;
    }
    for place in 0..from.len() {
        if !reaches(images, steps, from[place], to[place]) {
            return false;
        }
    }
    true
}

/// Whether the two arguments of an operator match in either order.
fn commutes_in(op: &Op) -> bool
    ensures { result ≡ commutes_in op.now }
{
    match op {
        Op::Plain(operator) => commutes(*operator),
        _ => false,
    }
}

/// Whether u is the operator of t on arguments to which those of t lead.
pub fn has_reached<I: Images>(terms: &Terms, images: &I, t: TermId, u: TermId) -> bool
    requires from { t < length terms.now.nodes }
    requires to { u < length terms.now.nodes }
    ensures { result ≡ has_reached terms.now.nodes (I.image_of images.now) t u }
{
    let steps = terms.len();
    let (from, to) = (terms.node(t), terms.node(u));
    from.op == to.op
        && (each_reaches(images, steps, from.args.as_slice(), to.args.as_slice())
            || (commutes_in(&from.op)
                && (reaches(images, steps, arg(terms, 0, t), arg(terms, 1, u))
                    && reaches(images, steps, arg(terms, 1, t), arg(terms, 0, u)))))
}
