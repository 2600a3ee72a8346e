// Operators on literals.

ghost use Rattle.std.specs.Prelude.{◌≡◌, ◌<◌, [], ◌∷◌, map, true, length, IsOk, IfSome};
ghost use Rattle.smt_terms.specs.Scalars.{is_fixed, scalar_sort, scalar_value};
ghost use Rattle.smt_terms.specs.Terms.{op_rank, sort_of};
ghost use Rattle.smt_terms.specs.Values.{same_value};
ghost use Rattle.bv_rules.specs.Reading.{op_at};
ghost use Rattle.bv_rules.specs.Arguments.{are_literals, folded_value, folds, has_literals};
ghost use Rattle.bv_rules.specs.Arguments.{is_literal, literal_at, value_on, IsGiven};

use crate::reading::arg;
use smt_terms::apply::apply;
use smt_terms::node::{Op, TermId};
use smt_terms::operator::Operator;
use smt_terms::scalar::Scalar;
use smt_terms::terms::Terms;

fn is_literal(op: &Op) -> bool
    ensures { result ≡ is_literal op.now }
{
    match op {
        Op::Plain(operator) => *operator == Operator::True || *operator == Operator::False,
        Op::Word { .. } => true,
        _ => false,
    }
}

/// Whether an operator is one of the theories that gives no array, or a literal.
fn is_fixed(op: &Op) -> bool
    ensures { result ≡ is_fixed op.now }
{
    match op {
        Op::ConstantArray(_) | Op::Constant { .. } | Op::Apply { .. } | Op::Param { .. } => false,
        _ => true,
    }
}

/// The value of a term that is a literal.
pub fn literal(terms: &Terms, term: TermId) -> Option<Scalar>
    requires held { term < length terms.now.nodes }
    ensures value { IsGiven (is_literal (op_at terms.now.nodes term))
        (literal_at terms.now.nodes term) result }
    ensures sort { IfSome result (λ s. scalar_sort s ≡ sort_of terms.now.nodes term) }
{
    let node = terms.node(term);
    if is_literal(&node.op) {
        apply(&node.op, &[])
    } else {
        None
    }
}

fn fold_one(terms: &Terms, op: &Op, a: TermId) -> Option<Scalar>
    requires fixed { is_fixed op.now ≡ true }
    requires held { a < length terms.now.nodes }
    requires rank { IsOk (op_rank op.now (map (sort_of terms.now.nodes) (a ∷ []))) }
    ensures { IsGiven (are_literals terms.now.nodes (a ∷ []))
        (value_on terms.now.nodes op.now (a ∷ [])) result }
{
    let Some(x) = literal(terms, a) else {
        return None;
    };
    apply(op, &[x])
}

fn fold_two(terms: &Terms, op: &Op, a: TermId, b: TermId) -> Option<Scalar>
    requires fixed { is_fixed op.now ≡ true }
    requires first { a < length terms.now.nodes }
    requires second { b < length terms.now.nodes }
    requires rank { IsOk (op_rank op.now (map (sort_of terms.now.nodes) (a ∷ b ∷ []))) }
    ensures { IsGiven (are_literals terms.now.nodes (a ∷ b ∷ []))
        (value_on terms.now.nodes op.now (a ∷ b ∷ [])) result }
{
    let Some(x) = literal(terms, a) else {
        return None;
    };
    let Some(y) = literal(terms, b) else {
        return None;
    };
    apply(op, &[x, y])
}

fn fold_three(terms: &Terms, op: &Op, a: TermId, b: TermId, c: TermId) -> Option<Scalar>
    requires fixed { is_fixed op.now ≡ true }
    requires first { a < length terms.now.nodes }
    requires second { b < length terms.now.nodes }
    requires third { c < length terms.now.nodes }
    requires rank { IsOk (op_rank op.now (map (sort_of terms.now.nodes) (a ∷ b ∷ c ∷ []))) }
    ensures { IsGiven (are_literals terms.now.nodes (a ∷ b ∷ c ∷ []))
        (value_on terms.now.nodes op.now (a ∷ b ∷ c ∷ [])) result }
{
    let Some(x) = literal(terms, a) else {
        return None;
    };
    let Some(y) = literal(terms, b) else {
        return None;
    };
    let Some(z) = literal(terms, c) else {
        return None;
    };
    apply(op, &[x, y, z])
}

/// What an operator of the theories gives on literals.
pub fn fold(terms: &Terms, term: TermId) -> Option<Scalar>
    requires held { term < length terms.now.nodes }
    ensures { IsGiven (has_literals terms.now.nodes term)
        (folded_value terms.now.nodes term) result }
{
    let node = terms.node(term);
    if !is_fixed(&node.op) {
        return None;
    }
    let (a, b, c) = (
        arg(terms, 0, term),
        arg(terms, 1, term),
        arg(terms, 2, term),
    );
    let count = node.args.as_slice().len();
    if count == 1 {
        return fold_one(terms, &node.op, a);
    }
    if count == 2 {
        return fold_two(terms, &node.op, a, b);
    }
    if count == 3 {
        return fold_three(terms, &node.op, a, b, c);
    }
    None
}

/// Whether values are the same.
fn is_same(a: Scalar, b: Scalar) -> bool
    ensures { result ≡ same_value (scalar_value a) (scalar_value b) }
{
    match a {
        Scalar::Bool(x) => match b {
            Scalar::Bool(y) => x == y,
            Scalar::Word(_) => false,
        },
        Scalar::Word(x) => match b {
            Scalar::Bool(_) => false,
            Scalar::Word(y) => x.width() == y.width() && x.value() == y.value(),
        },
    }
}

/// Whether a term is the literal that an operator gives on literals.
pub fn folds(terms: &Terms, t: TermId, u: TermId) -> bool
    requires from { t < length terms.now.nodes }
    requires to { u < length terms.now.nodes }
    ensures { result ≡ folds terms.now.nodes t u }
{
    let Some(value) = fold(terms, t) else {
        return false;
    };
    let Some(given) = literal(terms, u) else {
        return false;
    };
    is_same(value, given)
}
