// The plan of a check.

ghost use Rattle.std.specs.Prelude.{◌≡◌, ◌<◌, ◌++◌, ℕ, List, [], true, false, All, length};
ghost use Rattle.std.specs.Prelude.{IfOk, OnOk, MatchBool, MatchOption};
ghost use Rattle.smt_terms.specs.declared.node.Node.{Node};
ghost use Rattle.smt_terms.specs.Nodes.{node_at};
ghost use Rattle.smt_terms.specs.Bits.{image_in};
ghost use Rattle.smt_terms.specs.Ranks.{is_plain};
ghost use Rattle.smt_terms.specs.Terms.{TermsValue, AreTerms, sort_of};
ghost use Rattle.term_reach.specs.Reach.{InReachOrder};
ghost use Rattle.bv_rules.specs.Matches.{AreImages};
ghost use Rattle.bv_rewrite.specs.Simplifying.{AreNeeded, IsCrowded, IsGrown, IsSimplified, IsWay};
ghost use Rattle.reached_images.specs.declared.plan.Planned.{Planned as Step};
ghost use Rattle.reached_images.specs.Plans.{keeps_known, known_image, open_arguments};
ghost use Rattle.reached_images.specs.Plans.{start_at, uses_of};
ghost use Rattle.reached_images.specs.Plans.{AreAmong, AreInnerFirst, HasKnownArguments, IsKnown};
ghost use Rattle.reached_images.specs.Plans.{IsLater, IsPlan, IsPlannedBy, IsWholePlan, StaysWhole};
ghost use Rattle.reached_images.specs.Settled.{way_steps, with_end, AreOwn, IsSettled};
ghost use Rattle.reached_images.specs.Settled.{IsInTheWay, IsSupported, KeepsItself};

use crate::known::Known;
use crate::plan::{Plan, Planned};
use bv_rewrite::finding::find;
use bv_rewrite::kept::stays_difference;
use bv_rewrite::simplifying::{Simplified, Use, simplify};
use smt_terms::bits::Bits;
use smt_terms::fault::MakeError;
use smt_terms::node::TermId;
use smt_terms::terms::Terms;
use std::alloc::{AllocError, Global};
use term_reach::{Reached, reach};

/// The term from which the use at a place leads, where the first leads from this one.
fn from_at(term: TermId, uses: &[Use], place: usize) -> TermId
    requires { place < length uses.now }
    ensures { result ≡ start_at term uses.now place }
{
    if place == 0 { term } else { uses[place - 1].to }
}

/// Plans the uses of rules that lead from a term to one that is known, the last of them first;
/// false, and not all of them, where a term from which one leads is known by then.
fn plan_uses(bits: &Bits, term: TermId, uses: &[Use], plan: &mut Plan) -> Result<bool, AllocError>
    ensures later { OnOk result (IsLater plan.old plan.new) }
    ensures planned { IfOk result (λ all. all ≡ true
        → (nodes : List Node) (before : List Step) (last : ℕ)
        → IsPlan nodes bits.now plan.old → IsLater before plan.old
        → IsWay nodes (known_image bits.now before) term uses.now last
        → IsKnown bits.now plan.old last
        → IsPlannedBy nodes bits.now plan.old plan.new term) }
    ensures whole { IfOk result (λ all. all ≡ true
        → (nodes : List Node) (before : List Step) (last : ℕ)
        → IsPlan nodes bits.now plan.old → IsLater before plan.old
        → IsWay nodes (known_image bits.now before) term uses.now last
        → IsKnown bits.now plan.old last → AreInnerFirst uses.now
        → HasKnownArguments nodes bits.now plan.old term
        → StaysWhole nodes bits.now plan.old plan.new) }
    ensures own { OnOk result ((w : TermsValue)
        → AreOwn w bits.now plan.old → AreOwn w bits.now plan.new) }
    ensures blocked { IfOk result (λ all. all ≡ false → (nodes : List Node)
        → IsPlan nodes bits.now (plan.old ++ way_steps term uses.now) → ⊥) }
    ensures uses { IfOk result (λ all. all ≡ true → AreAmong uses.now (uses_of plan.new)) }
{
    'uses: for place in (0..uses.len()).rev() {
        let step = Planned {
            term: from_at(term, uses, place),
            used: Some(uses[place]),
        };
        if !plan.add(bits, step)? {
            return Ok(false);
        }
    }
    Ok(true)
}

/// Whether no rule takes a term further, or it is a difference that stays.
fn is_settled(terms: &Terms, term: TermId) -> bool
    requires held { term < length terms.now.nodes }
    ensures { MatchBool result (IsSettled terms.now.nodes term)
        (IsSettled terms.now.nodes term → ⊥) }
{
    if stays_difference(terms, term) {
        return true;
    }
    match find(terms, term) {
        Some(_) => false,
        None => true,
    }
}

/// Whether all arguments of a term are known.
fn has_known_arguments(terms: &Terms, bits: &Bits, plan: &Plan, term: TermId) -> bool
    requires held { term < length terms.now.nodes }
    ensures { MatchBool result (HasKnownArguments terms.now.nodes bits.now plan.now term)
        (HasKnownArguments terms.now.nodes bits.now plan.now term → ⊥) }
{
    let known = Known::new(bits, plan);
    let args = terms.node(term).args.as_slice();
    'arguments: for argument in args {
        if !known.has(*argument) {
            return false;
        }
    }
    true
}

/// Whether a term is known, or could have a step of its own.
fn is_supported(terms: &Terms, bits: &Bits, plan: &Plan, term: TermId) -> bool
    requires held { term < length terms.now.nodes }
    ensures { MatchBool result (IsSupported terms.now.nodes bits.now plan.now term)
        (IsSupported terms.now.nodes bits.now plan.now term → ⊥) }
{
    if Known::new(bits, plan).has(term) {
        return true;
    }
    if !is_settled(terms, term) {
        return false;
    }
    has_known_arguments(terms, bits, plan, term)
}

/// Whether each of these terms is known, or could have a step of its own.
fn are_supported(terms: &Terms, bits: &Bits, plan: &Plan, some: &[TermId]) -> bool
    requires held { All (λ t. t < length terms.now.nodes) some.now }
    ensures { MatchBool result (All (IsSupported terms.now.nodes bits.now plan.now) some.now)
        (All (IsSupported terms.now.nodes bits.now plan.now) some.now → ⊥) }
{
    'terms: for term in some {
        if !is_supported(terms, bits, plan, *term) {
            return false;
        }
    }
    true
}

/// Plans a term that no rule takes further, unless it is known, and its arguments before it; false,
/// and nothing, where one of them is neither known nor stands.
fn plan_end(terms: &Terms, bits: &Bits, term: TermId, plan: &mut Plan) -> Result<bool, AllocError>
    requires held { term < length terms.now.nodes }
    requires plan { IsPlan terms.now.nodes bits.now plan.old }
    requires settled { (IsKnown bits.now plan.old term → ⊥) → IsSettled terms.now.nodes term }
    ensures planned { OnOk result (IsPlan terms.now.nodes bits.now plan.new
        × IsLater plan.old plan.new) }
    ensures known { IfOk result (λ b. b ≡ true → IsKnown bits.now plan.new term) }
    ensures steps { IfOk result (λ b. b ≡ true
        → plan.new ≡ with_end terms.now.nodes bits.now plan.old term) }
    ensures whole { OnOk result (StaysWhole terms.now.nodes bits.now plan.old plan.new) }
    ensures own { OnOk result (AreOwn terms.now bits.now plan.old
        → AreOwn terms.now bits.now plan.new) }
    ensures unsupported { IfOk result (λ b. b ≡ false
        → All (IsSupported terms.now.nodes bits.now plan.old) (node_at terms.now.nodes term).args
        → ⊥) }
{
    if Known::new(bits, plan).has(term) {
        return Ok(true);
    }
    let args = terms.node(term).args.as_slice();
    if !are_supported(terms, bits, plan, args) {
        return Ok(false);
    }
    'arguments: for argument in args {
        plan.add(
            bits,
            Planned {
                term: *argument,
                used: None,
            },
        )?;
    }
    plan.add(bits, Planned { term, used: None })?;
    Ok(true)
}

/// What a Bool or a word becomes over the images that are known; nothing where the limit of terms
/// leaves no room for it.
fn simplified(
    alloc: Global,
    terms: &mut Terms,
    bits: &Bits,
    plan: &Plan,
    term: TermId,
) -> Result<Option<Simplified>, AllocError>
    requires terms { AreTerms terms.old }
    requires held { term < length terms.old.nodes }
    requires plain { is_plain (sort_of terms.old.nodes term) ≡ true }
    requires images { AreImages terms.old.nodes (known_image bits.now plan.now) }
    ensures { IfOk result (λ o. MatchOption o
        ((terms.new ≡ terms.old) × IsCrowded terms.old (known_image bits.now plan.now) term)
        (λ s. IsSimplified (keeps_known bits.now plan.now) terms.old terms.new
        (known_image bits.now plan.now) term s)) }
{
    let (images, kept) = (Known::new(bits, plan), Known::new(bits, plan));
    match simplify(alloc, terms, &images, &kept, term) {
        Ok(simplified) => Ok(Some(simplified)),
        Err(MakeError::NoMemory) => Err(AllocError),
        Err(MakeError::Fault(_)) => Ok(None),
    }
}

/// Plans what a term becomes, and then the uses that lead there; false, and not all, where an
/// argument of that is not supported, or the steps of the uses are none behind it.
fn plan_way(
    terms: &Terms,
    bits: &Bits,
    term: TermId,
    simplified: &Simplified,
    plan: &mut Plan,
) -> Result<bool, AllocError>
    requires held { simplified.now.term < length terms.now.nodes }
    requires plan { IsPlan terms.now.nodes bits.now plan.old }
    requires settled { (IsKnown bits.now plan.old simplified.now.term → ⊥)
        → IsSettled terms.now.nodes simplified.now.term }
    requires way { IsWay terms.now.nodes (known_image bits.now plan.old) term
        simplified.now.uses.items simplified.now.term }
    requires inner { AreInnerFirst simplified.now.uses.items }
    ensures planned { IfOk result (λ all. all ≡ true
        → IsPlannedBy terms.now.nodes bits.now plan.old plan.new term) }
    ensures later { OnOk result (IsLater plan.old plan.new) }
    ensures whole { IfOk result (λ all. all ≡ true
        → HasKnownArguments terms.now.nodes bits.now plan.old term
        → StaysWhole terms.now.nodes bits.now plan.old plan.new) }
    ensures own { OnOk result (AreOwn terms.now bits.now plan.old
        → AreOwn terms.now bits.now plan.new) }
    ensures tangled { IfOk result (λ all. all ≡ false
        → IsInTheWay terms.now.nodes bits.now plan.old term simplified.now) }
    ensures uses { IfOk result (λ all. all ≡ true
        → AreAmong simplified.now.uses.items (uses_of plan.new)) }
{
    if !plan_end(terms, bits, simplified.term, plan)? {
        return Ok(false);
    }
    let all = plan_uses(bits, term, simplified.uses.as_slice(), plan)?;
    Ok(all)
}

/// Plans a Bool or a word for what it becomes: that, and then the uses that lead there; false where
/// the limit of terms leaves no room or these cannot be planned, and then all is as before.
fn plan_simplified(
    alloc: Global,
    terms: &mut Terms,
    bits: &Bits,
    term: TermId,
    plan: &mut Plan,
) -> Result<bool, AllocError>
    requires terms { AreTerms terms.old }
    requires held { term < length terms.old.nodes }
    requires images { AreImages terms.old.nodes (image_in bits.now) }
    requires plan { IsPlan terms.old.nodes bits.now plan.old }
    ensures grown { IfOk result (λ b. b ≡ true → IsGrown terms.old terms.new) }
    ensures planned { IfOk result (λ b. b ≡ true
        → IsPlannedBy terms.new.nodes bits.now plan.old plan.new term) }
    ensures whole { IfOk result (λ b. b ≡ true
        → HasKnownArguments terms.old.nodes bits.now plan.old term
        → IsWholePlan terms.old.nodes bits.now plan.old
        → IsWholePlan terms.new.nodes bits.now plan.new) }
    ensures own { IfOk result (λ b. b ≡ true
        → AreOwn terms.old bits.now plan.old → AreOwn terms.new bits.now plan.new) }
    ensures needed { IfOk result (λ b. b ≡ true
        → AreNeeded (length terms.old.nodes) terms.new.nodes (uses_of plan.new)) }
    ensures kept { IfOk result (λ b. b ≡ false
        → (terms.new ≡ terms.old) × (plan.new ≡ plan.old)
        × KeepsItself terms.old bits.now plan.old term) }
{
    if !terms.sort(term).is_plain() {
        return Ok(false);
    }
    let (count, len) = (terms.len(), plan.steps().len());
    let simplified = match simplified(alloc, terms, bits, plan, term)? {
        Some(simplified) => simplified,
        None => return Ok(false),
    };
    if plan_way(terms, bits, term, &simplified, plan)? {
        return Ok(true);
    }
    terms.cut(count);
    plan.cut(len);
    Ok(false)
}

/// Plans a term whose arguments are known, unless it is known: for what it becomes, or its own
/// bits.
fn plan_one(
    alloc: Global,
    terms: &mut Terms,
    bits: &Bits,
    term: TermId,
    plan: &mut Plan,
) -> Result<(), AllocError>
    requires terms { AreTerms terms.old }
    requires held { term < length terms.old.nodes }
    requires images { AreImages terms.old.nodes (image_in bits.now) }
    requires plan { IsPlan terms.old.nodes bits.now plan.old }
    requires arguments { (IsKnown bits.now plan.old term → ⊥)
        → HasKnownArguments terms.old.nodes bits.now plan.old term }
    ensures grown { OnOk result (IsGrown terms.old terms.new) }
    ensures planned { OnOk result
        (IsPlannedBy terms.new.nodes bits.now plan.old plan.new term) }
    ensures whole { OnOk result (IsWholePlan terms.old.nodes bits.now plan.old
        → IsWholePlan terms.new.nodes bits.now plan.new) }
    ensures own { OnOk result (AreOwn terms.old bits.now plan.old
        → AreOwn terms.new bits.now plan.new) }
    ensures needed { OnOk result
        (AreNeeded (length terms.old.nodes) terms.new.nodes (uses_of plan.new)) }
{
    if Known::new(bits, plan).has(term) {
        return Ok(());
    }
    if plan_simplified(alloc, terms, bits, term, plan)? {
        return Ok(());
    }
    plan.add(bits, Planned { term, used: None })?;
    Ok(())
}

/// Plans terms of which each stands behind those of its arguments that are not known.
fn plan_in_order(
    alloc: Global,
    terms: &mut Terms,
    bits: &Bits,
    order: &[TermId],
    plan: &mut Plan,
) -> Result<(), AllocError>
    requires terms { AreTerms terms.old }
    requires held { All (λ t. t < length terms.old.nodes) order.now }
    requires images { AreImages terms.old.nodes (image_in bits.now) }
    requires plan { IsPlan terms.old.nodes bits.now plan.old }
    requires order { InReachOrder (open_arguments terms.old.nodes bits.now plan.old) order.now }
    ensures grown { OnOk result (IsGrown terms.old terms.new) }
    ensures plan { OnOk result (IsPlan terms.new.nodes bits.now plan.new
        × IsLater plan.old plan.new) }
    ensures whole { OnOk result (IsWholePlan terms.old.nodes bits.now plan.old
        → IsWholePlan terms.new.nodes bits.now plan.new) }
    ensures own { OnOk result (AreOwn terms.old bits.now plan.old
        → AreOwn terms.new bits.now plan.new) }
    ensures order { OnOk result (All (IsKnown bits.now plan.new) order.now) }
    ensures needed { OnOk result
        (AreNeeded (length terms.old.nodes) terms.new.nodes (uses_of plan.new)) }
{
    'terms: for term in order {
        plan_one(alloc, terms, bits, *term, plan)?;
    }
    Ok(())
}

/// Plans a term, unless it is known: for what it becomes; where that cannot be, all that it reaches
/// and that is not known is planned before it, and it is tried once more.
fn plan_term(
    alloc: Global,
    terms: &mut Terms,
    bits: &Bits,
    term: TermId,
    plan: &mut Plan,
    reached: &mut Reached,
) -> Result<(), AllocError>
    requires terms { AreTerms terms.old }
    requires held { term < length terms.old.nodes }
    requires images { AreImages terms.old.nodes (image_in bits.now) }
    requires plan { IsPlan terms.old.nodes bits.now plan.old }
    ensures grown { OnOk result (IsGrown terms.old terms.new) }
    ensures planned { OnOk result
        (IsPlannedBy terms.new.nodes bits.now plan.old plan.new term) }
    ensures whole { OnOk result (((IsKnown bits.now plan.old term → ⊥)
        → HasKnownArguments terms.old.nodes bits.now plan.old term)
        → IsWholePlan terms.old.nodes bits.now plan.old
        → IsWholePlan terms.new.nodes bits.now plan.new) }
    ensures own { OnOk result (AreOwn terms.old bits.now plan.old
        → AreOwn terms.new bits.now plan.new) }
    ensures needed { OnOk result
        (AreNeeded (length terms.old.nodes) terms.new.nodes (uses_of plan.new)) }
{
    if Known::new(bits, plan).has(term) {
        return Ok(());
    }
    if plan_simplified(alloc, terms, bits, term, plan)? {
        return Ok(());
    }
    reach(alloc, terms, &Known::new(bits, plan), &[term], reached)?;
    plan_in_order(alloc, terms, bits, reached.terms(), plan)?;
    Ok(())
}

/// Plans bits for these terms in their order, each for what it becomes by the rules of rewriting
/// over the images that are known by then. Where that cannot be, it is planned behind all that it
/// reaches and that has no bits. No term is made but those to which uses of the plan lead and their
/// arguments. What the plan had is forgotten.
pub fn plan_each(
    alloc: Global,
    terms: &mut Terms,
    bits: &Bits,
    order: &[TermId],
    plan: &mut Plan,
    reached: &mut Reached,
) -> Result<(), AllocError>
    requires held { All (λ t. t < length terms.old.nodes) order.now }
    requires images { AreImages terms.old.nodes (image_in bits.now) }
    ensures grown { OnOk result (IsGrown terms.old terms.new) }
    ensures plan { OnOk result (IsPlan terms.new.nodes bits.now plan.new) }
    // where each of the terms stands behind its arguments, or has bits
    ensures whole { OnOk result
        (InReachOrder (open_arguments terms.old.nodes bits.now []) order.now
        → IsWholePlan terms.new.nodes bits.now plan.new) }
    // each Bool and word that keeps its operator is settled, or there is no room or no place for
    // what it becomes
    ensures own { OnOk result (AreOwn terms.new bits.now plan.new) }
    ensures order { OnOk result (All (IsKnown bits.now plan.new) order.now) }
    ensures needed { OnOk result
        (AreNeeded (length terms.old.nodes) terms.new.nodes (uses_of plan.new)) }
{
    // The contract of `len` says that arguments come before their term.
    let _count = terms.len();
    plan.clear();
    'terms: for term in order {
        plan_term(alloc, terms, bits, *term, plan, reached)?;
    }
    Ok(())
}

/// Plans bits for all that some terms reach and that has none, arguments first, each for what it
/// becomes by the rules of rewriting over the images that are known by then. What a term becomes is
/// behind the terms that there were, and no term is made but those to which uses of the plan lead
/// and their arguments. What the plan had is forgotten.
pub fn plan_terms(
    alloc: Global,
    terms: &mut Terms,
    bits: &Bits,
    roots: &[TermId],
    plan: &mut Plan,
    reached: &mut Reached,
) -> Result<(), AllocError>
    requires held { All (λ t. t < length terms.old.nodes) roots.now }
    requires images { AreImages terms.old.nodes (image_in bits.now) }
    ensures grown { OnOk result (IsGrown terms.old terms.new) }
    ensures plan { OnOk result (IsWholePlan terms.new.nodes bits.now plan.new) }
    // each Bool and word that keeps its operator is settled, or there is no room or no place for
    // what it becomes
    ensures own { OnOk result (AreOwn terms.new bits.now plan.new) }
    ensures roots { OnOk result (All (IsKnown bits.now plan.new) roots.now) }
    ensures needed { OnOk result
        (AreNeeded (length terms.old.nodes) terms.new.nodes (uses_of plan.new)) }
{
    // The contract of `len` says that arguments come before their term.
    let _count = terms.len();
    plan.clear();
    reach(alloc, terms, &Known::new(bits, plan), roots, reached)?;
    plan_in_order(alloc, terms, bits, reached.terms(), plan)?;
    Ok(())
}
