// Whether a check needs more than the values of bits: functions or arrays.

ghost use Rattle.std.specs.Prelude.{◌≡◌, IsSome, None, MatchBool};
ghost use Rattle.smt_terms.specs.Terms.{AreTerms};
ghost use Rattle.proof_log.specs.Logs.{constant_width};
ghost use Rattle.proof_log.specs.Stored.{Stands};
ghost use Rattle.word_models.specs.Models.{IsOtherLeaf, HasOtherLeaf};

use cnf_base::Pos;
use proof_log::Log;
use proof_log::entry::Entry;
use smt_terms::node::Op;
use smt_terms::sort::Sort;
use smt_terms::terms::Terms;

// Whether the operator is that of a declared Bool or word.
fn is_plain(op: &Op) -> bool
    ensures { MatchBool result (IsSome (constant_width op.now)) (constant_width op.now ≡ None) }
{
    match op {
        Op::Constant { sort, .. } => match sort {
            Sort::Bool | Sort::Word(_) => true,
            _ => false,
        },
        _ => false,
    }
}

// Whether the step at the position gave bits to a leaf that is no declared Bool or word.
fn is_other_leaf(terms: &Terms, log: &Log, at: Pos) -> bool
    requires terms { AreTerms terms.now }
    requires stands { Stands terms.now.nodes log.now }
    ensures { MatchBool result (IsOtherLeaf terms.now.nodes log.now.entries at)
        (IsOtherLeaf terms.now.nodes log.now.entries at → ⊥) }
{
    let Some(Entry::Leaf(term)) = log.entry(at) else {
        return false;
    };
    let op = &terms.node(*term).op;
    !is_plain(op)
}

/// Whether a leaf at one of these positions is no declared Bool or word: so it is where a function or an array is reached, and the
/// values of bits alone are no model.
pub fn has_other_leaf(terms: &Terms, log: &Log, positions: &[Pos]) -> bool
    requires stands { Stands terms.now.nodes log.now }
    ensures { MatchBool result (HasOtherLeaf terms.now.nodes log.now.entries positions.now)
        (HasOtherLeaf terms.now.nodes log.now.entries positions.now → ⊥) }
{
    // The contract of `len` says, beside their number, that no two terms are equal.
    let _count = terms.len();
    'positions: for at in positions {
        if is_other_leaf(terms, log, *at) {
            return true;
        }
    }
    false
}
