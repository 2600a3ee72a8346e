// From a term along the rules to one to which none applies.

ghost use Rattle.std.specs.Prelude.{◌≡◌, ◌≢◌, ◌<◌, ℕ, true, None, Some, IfOk, IfErr, OnErr, MatchOption, length, map};
ghost use Rattle.smt_terms.specs.Ranks.{is_plain};
ghost use Rattle.smt_terms.specs.Terms.{AreTerms, sort_of};
ghost use Rattle.smt_terms.specs.declared.fault.MakeError.{MakeError as MakeErrorValue};
ghost use Rattle.smt_terms.specs.declared.fault.MakeFault.TheVariants.{TermLimit};
ghost use Rattle.smt_terms.specs.declared.fault.MakeError.TheVariants.{Fault};
ghost use Rattle.bv_rules.specs.Arguments.{commutes_in};
ghost use Rattle.bv_rules.specs.Matches.{AreImages};
ghost use Rattle.bv_rules.specs.declared.rule.Rule.{Rule as RuleValue};
ghost use Rattle.bv_rewrite.specs.Becoming.{becomes};
ghost use Rattle.bv_rewrite.specs.Simplifying.{end_in, first_use, in_order, settled, IsSimplified, IsCause, IsEnd};
ghost use Rattle.bv_rewrite.specs.Simplifying.{IsCrowded, IsFollowed, IsRefused, IsStopped};

use crate::finding::{Found, becomes, find};
use crate::kept::Kept;
use crate::laws::{
    made_shapes_are_of_their_shape, rules_lower_weights, shapes_are_made_by_rules,
    shapes_have_the_sort_of_the_term,
};
use crate::making::make;
use bv_rules::images::Images;
use bv_rules::reading::commutes;
use bv_rules::rule::Rule;
use smt_terms::fault::MakeError;
use smt_terms::list::Arguments;
use smt_terms::node::{Node, Op, TermId};
use smt_terms::terms::Terms;
use std::alloc::{AllocError, Global};

/// A use of a rule, and the term to which it leads.
#[derive(Clone, Copy, Debug)]
pub struct Use {
    pub rule: Rule,
    pub to: TermId,
}

/// What a term becomes, and the uses of rules that lead to it, one after the other.
#[derive(Debug, Drop)]
pub struct Simplified {
    pub term: TermId,
    pub uses: Vec<Use>,
}

/// The last of the images of a term, of so many at most.
fn end_of<I: Images>(images: &I, steps: u32, term: TermId) -> TermId
    ensures { result ≡ end_in (I.image_of images.now) steps term }
{
    let mut at = term;
    for _step in 0..steps {
        match images.image(at) {
            Some(next) => at = next,
            None => return at,
        }
    }
    at
}

/// The last of the images of each of these terms.
fn ends_of<I: Images>(
    alloc: Global,
    images: &I,
    steps: u32,
    args: &[TermId],
) -> Result<Vec<TermId>, AllocError>
    ensures { IfOk result (λ v. v.items ≡ map (end_in (I.image_of images.now) steps) args.now) }
{
    let mut ends = Vec::new(alloc);
    for place in 0..args.len() {
        ends.push(end_of(images, steps, args[place]))?;
    }
    Ok(ends)
}

/// Whether the arguments of an operator may be exchanged.
fn may_turn(op: &Op) -> bool
    ensures { result ≡ commutes_in op.now }
{
    match op {
        Op::Plain(operator) => commutes(*operator),
        _ => false,
    }
}

/// These arguments of an operator, the lower of two first where they may be exchanged.
fn order(alloc: Global, op: &Op, args: &[TermId]) -> Result<Arguments, AllocError>
    ensures { IfOk result (λ list. list ≡ in_order op.now args.now) }
{
    if args.len() == 2 && may_turn(op) && args[1] < args[0] {
        Arguments::of(alloc, &[args[1], args[0]])
    } else {
        Arguments::of(alloc, args)
    }
}

/// The node of a term's operator on the last images of its arguments, in order.
fn settle<I: Images>(
    alloc: Global,
    terms: &Terms,
    images: &I,
    t: TermId,
) -> Result<Node, AllocError>
    requires held { t < length terms.now.nodes }
    ensures { IfOk result (λ n. n ≡ settled terms.now.nodes (I.image_of images.now) t) }
{
    let node = terms.node(t);
    let ends = ends_of(alloc, images, terms.len(), node.args.as_slice())?;
    let args = order(alloc, &node.op, ends.as_slice())?;
    let op = node.op.copy()?;
    Ok(Node { op, args })
}

/// The use that leads from a term to that on settled arguments, where it is another.
fn first_uses(alloc: Global, t: TermId, start: TermId) -> Result<Vec<Use>, AllocError>
    ensures { IfOk result (λ uses. uses.items ≡ first_use t start) }
{
    let mut uses = Vec::new(alloc);
    if start != t {
        uses.push(Use {
            rule: Rule::Inner,
            to: start,
        })?;
    }
    Ok(uses)
}

/// A rule of the table that applies to a term that is not kept: that on literals before the others, so that a difference of
/// literals is one.
fn next<K: Kept>(terms: &Terms, kept: &K, t: TermId) -> Option<Found>
    requires held { t < length terms.now.nodes }
    ensures { MatchOption result (IsEnd (K.keeps kept.now) terms.now.nodes t)
        (λ f. becomes terms.now.nodes f.rule t ≡ Some f.shape) }
{
    if kept.keeps(terms, t) {
        return None;
    }
    match becomes(terms, Rule::Fold, t) {
        Some(shape) => Some(Found {
            rule: Rule::Fold,
            shape,
        }),
        None => find(terms, t),
    }
}

/// Follows the rules of the table from a held Bool or word to a term that is kept, or to which none of them applies.
fn follow<K: Kept>(
    alloc: Global,
    terms: &mut Terms,
    kept: &K,
    t: TermId,
    uses: &mut Vec<Use>,
) -> Result<TermId, MakeError>
    requires terms { AreTerms terms.old }
    requires held { t < length terms.old.nodes }
    requires plain { is_plain (sort_of terms.old.nodes t) ≡ true }
    ensures followed { IfOk result
        (λ u. IsFollowed (K.keeps kept.now) terms.old terms.new t uses.old.items uses.new.items u) }
    ensures refused { IfErr result (λ e. IsRefused terms.old terms.new e) }
    ensures stopped { IfErr result
        (λ e. e ≡ Fault TermLimit → IsStopped terms.old t uses.old.items) }
{
    shapes_are_made_by_rules();
    shapes_have_the_sort_of_the_term();
    made_shapes_are_of_their_shape();
    rules_lower_weights();
    let mut at = t;
    'rules: while let Some(found) = next(terms, kept, at) {
        let sort = terms.sort(at);
        at = make(alloc, terms, found.shape, sort)?;
        uses.push(Use {
            rule: found.rule,
            to: at,
        })?;
    }
    Ok(at)
}

/// Settles the arguments of a held Bool or word, and follows the rules from there. The terms may have grown where it is refused.
fn walk<I: Images, K: Kept>(
    alloc: Global,
    terms: &mut Terms,
    images: &I,
    kept: &K,
    t: TermId,
) -> Result<Simplified, MakeError>
    requires terms { AreTerms terms.old }
    requires held { t < length terms.old.nodes }
    requires plain { is_plain (sort_of terms.old.nodes t) ≡ true }
    requires images { AreImages terms.old.nodes (I.image_of images.now) }
    ensures simplified { IfOk result
        (λ s. IsSimplified (K.keeps kept.now) terms.old terms.new (I.image_of images.now) t s) }
    ensures refused { IfErr result (λ e. IsRefused terms.old terms.new e) }
    ensures crowded { IfErr result
        (λ e. e ≡ Fault TermLimit → IsCrowded terms.old (I.image_of images.now) t) }
{
    let node = settle(alloc, terms, images, t)?;
    let start = terms.make(node)?;
    let mut uses = first_uses(alloc, t, start)?;
    let term = follow(alloc, terms, kept, start, &mut uses)?;
    Ok(Simplified { term, uses })
}

/// What a held Bool or word becomes over these images: its arguments are settled first, and then the rules of the table are
/// followed, that on literals before the others by number, to a term that is kept, or to which none of them applies. It tells
/// each use of a rule, and makes no term but those of the uses and their arguments. Where the limit of terms or memory refuses
/// a term that a rule needs, the terms are as before; the limit does so only where uses of rules with what they need leave no
/// room to go on.
pub fn simplify<I: Images, K: Kept>(
    alloc: Global,
    terms: &mut Terms,
    images: &I,
    kept: &K,
    t: TermId,
) -> Result<Simplified, MakeError>
    requires held { t < length terms.old.nodes }
    requires plain { is_plain (sort_of terms.old.nodes t) ≡ true }
    requires images { AreImages terms.old.nodes (I.image_of images.now) }
    ensures simplified { IfOk result
        (λ s. IsSimplified (K.keeps kept.now) terms.old terms.new (I.image_of images.now) t s) }
    ensures refused { IfErr result (λ e. (terms.new ≡ terms.old) × IsCause e) }
    ensures crowded { IfErr result
        (λ e. e ≡ Fault TermLimit → IsCrowded terms.old (I.image_of images.now) t) }
{
    let before = terms.len();
    match walk(alloc, terms, images, kept, t) {
        Ok(simplified) => Ok(simplified),
        Err(error) => {
            terms.cut(before);
            Err(error)
        }
    }
}
