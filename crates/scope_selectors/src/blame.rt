//! Which assertions a clause blames.

ghost use Rattle.std.specs.Prelude.{◌≡◌, ◌==◌, ℕ, IfOk};
ghost use Rattle.std.specs.List.{list_any};
ghost use Rattle.std.specs.Ordering.{nat_cmp};
ghost use Rattle.std.specs.BTreeSet.{contains};
ghost use Rattle.cnf_base.specs.Literals.{code_of};
ghost use Rattle.scope_selectors.specs.Cores.{is_blamed, core_among};

use crate::live::{AssertId, Live};
use cnf_base::{Clause, Lit};
use std::alloc::{AllocError, Global};
use std::collections::BTreeSet;

/// The codes of the clause's literals.
pub(crate) fn codes_of(alloc: Global, clause: &Clause) -> Result<BTreeSet<u64>, AllocError>
    ensures { IfOk result (λ codes. (q : ℕ)
        → contains nat_cmp codes q ≡ list_any (λ k. code_of k == q) clause.now) }
{
    let mut codes = BTreeSet::new(alloc);
    for literal in clause.literals() {
        codes.insert(literal.code())?;
    }
    Ok(codes)
}

/// The assertions whose negated selectors are of these codes.
pub(crate) fn blamed(
    alloc: Global,
    codes: &BTreeSet<u64>,
    selectors: &[(AssertId, Lit)],
) -> Result<BTreeSet<AssertId>, AllocError>
    ensures { IfOk result (λ assertions. (a : ℕ)
        → contains nat_cmp assertions a
        ≡ is_blamed (λ l. contains nat_cmp codes.now (code_of l)) selectors.now a) }
{
    let mut assertions = BTreeSet::new(alloc);
    for (assertion, selector) in selectors {
        if codes.contains(&selector.negated().code()) {
            assertions.insert(*assertion)?;
        }
    }
    Ok(assertions)
}

/// The numbers of the named ones among these assertions, in order.
pub(crate) fn named_among(
    alloc: Global,
    live: &[Live],
    assertions: &BTreeSet<AssertId>,
) -> Result<Vec<AssertId>, AllocError>
    ensures { IfOk result
        (λ core. core.items ≡ core_among (contains nat_cmp assertions.now) live.now) }
{
    let mut core = Vec::new(alloc);
    for assertion in live {
        if assertion.name.is_some() && assertions.contains(&assertion.assertion) {
            core.push(assertion.assertion)?;
        }
    }
    Ok(core)
}
