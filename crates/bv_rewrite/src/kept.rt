// Terms that stay what they are.

ghost use Rattle.std.specs.Prelude.{◌≡◌, ◌<◌, ℕ, Bool, List, length};
ghost use Rattle.smt_terms.specs.declared.node.Node.{Node};
ghost use Rattle.bv_rewrite.specs.Kept.{is_negated, stays_difference};

use crate::finding::becomes;
use bv_rules::reading::{Constant, arg, has_constant, is, of_term};
use bv_rules::rule::Rule;
use smt_terms::bits::Bits;
use smt_terms::node::TermId;
use smt_terms::operator::Operator;
use smt_terms::terms::Terms;

/// What tells the terms from which no rule is followed.
pub trait Kept {
    ghost keeps: { Self → List Node → ℕ → Bool };

    /// Whether a term is kept; takes no memory.
    fn keeps(&self, terms: &Terms, term: TermId) -> bool
        requires held { term < length terms.now.nodes }
        ensures { result ≡ keeps self.now terms.now.nodes term };
}

/// Terms that have bits are kept, and so are differences whose sums no rule takes further.
impl Kept for Bits {
    ghost use Rattle.bv_rewrite.specs.Kept.{keeps_bits};

    ghost keeps = { keeps_bits };

    fn keeps(&self, terms: &Terms, term: TermId) -> bool {
        self.of(term).is_some() || stays_difference(terms, term)
    }
}

/// Whether x is the negation of y, or the negation of that.
fn is_negated(terms: &Terms, x: TermId, y: TermId) -> bool
    requires held { x < length terms.now.nodes }
    ensures { result ≡ is_negated terms.now.nodes x y }
{
    let z = arg(terms, 0, x);
    is(terms, Operator::Bvneg, x) && (z == y || of_term(terms, Operator::Bvneg, y, z))
}

/// Whether a term is a difference that no rule takes further but that by which it becomes a sum, and whose sum none does.
pub fn stays_difference(terms: &Terms, t: TermId) -> bool
    requires held { t < length terms.now.nodes }
    ensures { result ≡ stays_difference terms.now.nodes t }
{
    let (x, y) = (arg(terms, 0, t), arg(terms, 1, t));
    is(terms, Operator::Bvsub, t)
        && becomes(terms, Rule::Fold, t).is_none()
        && !has_constant(terms, Constant::Zero, x)
        && x != y
        && !is_negated(terms, x, y)
}
