// The interpretation of the declared constants whose leaves a search holds.

ghost use Rattle.std.specs.Prelude.{◌≡◌, ℕ, true, IfOk, IfSome, MatchBool, MatchOption, Contains};
ghost use Rattle.smt_terms.specs.Terms.{AreTerms};
ghost use Rattle.proof_log.specs.Assigned.{IsTrueAt};
ghost use Rattle.proof_log.specs.Stored.{Stands};
ghost use Rattle.cube_search.specs.Running.{valuation_of};
ghost use Rattle.word_models.specs.Models.{interpretation_of, IsOtherLeaf, HasOtherLeaf, HaveTheirBits, IsReadLeaf, KeepsRead};

use crate::values::value_of;
use cnf_base::Pos;
use cube_search::Search;
use proof_log::Log;
use proof_log::entry::Entry;
use smt_terms::node::Op;
use smt_terms::sort::DeclId;
use smt_terms::terms::Terms;
use smt_values::Value;
use std::alloc::{AllocError, Global};
use std::collections::BTreeMap;

// Gives the declared Bool or word that got its bits at the position, if a leaf did, the value that they have; false exactly where
// that leaf is none.
fn read_step(
    found: &mut BTreeMap<DeclId, Value>,
    terms: &Terms,
    log: &Log,
    search: &Search,
    at: Pos,
) -> Result<bool, AllocError>
    requires terms { AreTerms terms.now }
    requires stands { Stands terms.now.nodes log.now }
    ensures read { IfOk result (λ done. MatchBool done
        (IsReadLeaf (interpretation_of found.new) terms.now.nodes log.now
        (valuation_of search.now) at)
        (IsOtherLeaf terms.now.nodes log.now.entries at)) }
    ensures kept { IfOk result (λ done. done ≡ true → KeepsRead terms.now.nodes log.now
        (valuation_of search.now) (interpretation_of found.old) (interpretation_of found.new)) }
{
    let Some(Entry::Leaf(term)) = log.entry(at) else {
        return Ok(true);
    };
    let Op::Constant { declaration, sort } = &terms.node(*term).op else {
        return Ok(false);
    };
    let row = log.bits().of(*term).unwrap();
    let Some(value) = value_of(search, row, *sort) else {
        return Ok(false);
    };
    found.insert(*declaration, value)?;
    Ok(true)
}

/// The values that a search holds of the declared constants that have leaves at its positions; `None` exactly where one of these
/// leaves is no declared Bool or word. With them each term of which these are the positions has the value of its bits. The work goes
/// by the positions, the room by these leaves: no declaration that the check does not reach costs anything.
pub fn word_model(
    alloc: Global,
    terms: &Terms,
    log: &Log,
    search: &Search,
    positions: &[Pos],
) -> Result<Option<BTreeMap<DeclId, Value>>, AllocError>
    requires stands { Stands terms.now.nodes log.now }
    requires model { (p : ℕ) → Contains positions.now p
        → IsTrueAt log.now (valuation_of search.now) p }
    ensures none { IfOk result (λ found. MatchOption found
        (HasOtherLeaf terms.now.nodes log.now.entries positions.now)
        (λ m. HasOtherLeaf terms.now.nodes log.now.entries positions.now → ⊥)) }
    ensures values { IfOk result (λ found. IfSome found (λ m. HaveTheirBits
        (interpretation_of m) terms.now.nodes log.now (valuation_of search.now)
        positions.now)) }
{
    // The contract of `len` says, beside their number, that no two terms are equal.
    let _count = terms.len();
    let mut found = BTreeMap::new(alloc);
    'positions: for at in positions {
        if !read_step(&mut found, terms, log, search, *at)? {
            return Ok(None);
        }
    }
    Ok(Some(found))
}
