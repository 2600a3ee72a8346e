// The accesses of constant arrays.

ghost use Rattle.std.specs.Prelude.{◌≡◌, ◌↔◌, ◌<◌, ◌≤◌, ℕ, List, Contains, All, IfOk, OnOk, MatchOption, None, Some, map};
ghost use Rattle.smt_terms.specs.declared.sort.Sort.TheVariants as sort;
ghost use Rattle.smt_terms.specs.Bits.{image_in};
ghost use Rattle.smt_terms.specs.Terms.{sort_of};
ghost use Rattle.term_reach.specs.Reach.{IsClosed};
ghost use Rattle.theory_terms.specs.declared.shape.Shape.TheVariants.{Filling};
ghost use Rattle.theory_terms.specs.Shapes.{shape_at};
ghost use Rattle.access_tables.specs.Leading.{leads};
ghost use Rattle.theory_terms.specs.declared.atom.Landing.{Landing};
ghost use Rattle.theory_terms.specs.declared.lemma.Start.TheVariants.{Const};
ghost use Rattle.theory_terms.specs.Lemmas.{landing_of};
ghost use Rattle.access_tables.specs.Ready.{IsOwn};
ghost use Rattle.access_tables.specs.Encoded.{HaveBits};
ghost use Rattle.access_tables.specs.Held.{IsAccess};
ghost use Rattle.access_walk.specs.Building.{IsWhole, IsEntered, IsSound, Grows};
ghost use Rattle.access_walk.specs.Filled.{IsFilling, AreIndexTerms, HasFillings};
ghost use Rattle.access_walk.specs.Maps.{IsWordOf, IsMap};
ghost use Rattle.access_walk.specs.Valued.{IsWordTerm, IsGuarded};
ghost use Rattle.access_walk.specs.Walked.{IsHeldWord, HasHeldWords};

use crate::network::Network;
use smt_terms::bits::Bits;
use smt_terms::node::{Node, Op, TermId};
use smt_terms::sort::Sort;
use smt_terms::terms::Terms;
use std::alloc::{AllocError, Global};
use term_reach::Reached;
use theory_lemmas::atoms::landing_of;
use theory_terms::lemma::Start;
use theory_terms::shape::{Shape, shape_at};

/// The word of a width and a number, if it is made and has bits.
fn word_with_bits(
    alloc: Global,
    terms: &Terms,
    bits: &Bits,
    width: u32,
    number: u128,
) -> Option<TermId>
    ensures { MatchOption result (IsHeldWord terms.now.nodes bits.now width number → ⊥)
        (λ w. IsWordOf terms.now.nodes width number w × IsWordTerm terms.now.nodes bits.now w) }
{
    let _count = terms.len();
    let node = Node::leaf(
        alloc,
        Op::Word {
            width: u64::from(width),
            value: number,
        },
    );
    let Some(term) = terms.find(&node) else {
        return None
    };
    let Sort::Word(found) = terms.sort(term) else {
        return None
    };
    let Some(row) = bits.of(term) else {
        return None
    };
    if found == width && row.len() == width as usize {
        Some(term)
    } else {
        None
    }
}

/// Puts the words of a width from 0 up, as long as they are made and have bits, and at most so
/// many.
fn push_words(
    alloc: Global,
    terms: &Terms,
    bits: &Bits,
    width: u32,
    count: usize,
    indexes: &mut Vec<TermId>,
) -> Result<(), AllocError>
    requires words { AreIndexTerms terms.now.nodes bits.now indexes.old.items }
    ensures words { OnOk result (AreIndexTerms terms.now.nodes bits.now indexes.new.items) }
    ensures kept { OnOk result ((j : ℕ) → Contains indexes.old.items j
        → Contains indexes.new.items j) }
    ensures has { OnOk result ((k : ℕ) → k < count
        → ((i : ℕ) → i ≤ k → IsHeldWord terms.now.nodes bits.now width i) → (w : ℕ)
        × IsWordOf terms.now.nodes width k w × Contains indexes.new.items w) }
{
    for number in 0..count {
        match word_with_bits(alloc, terms, bits, width, number as u128) {
            Some(term) => indexes.push(term)?,
            None => return Ok(()),
        }
    }
    Ok(())
}

/// Puts the words of all these widths.
fn push_all_words(
    alloc: Global,
    terms: &Terms,
    bits: &Bits,
    widths: &[u32],
    count: usize,
    indexes: &mut Vec<TermId>,
) -> Result<(), AllocError>
    requires words { AreIndexTerms terms.now.nodes bits.now indexes.old.items }
    ensures words { OnOk result (AreIndexTerms terms.now.nodes bits.now indexes.new.items) }
    ensures kept { OnOk result ((j : ℕ) → Contains indexes.old.items j
        → Contains indexes.new.items j) }
    ensures has { OnOk result ((n k : ℕ) → Contains widths.now n → k < count
        → ((i : ℕ) → i ≤ k → IsHeldWord terms.now.nodes bits.now n i) → (w : ℕ)
        × IsWordOf terms.now.nodes n k w × Contains indexes.new.items w) }
{
    for width in widths {
        push_words(alloc, terms, bits, *width, count, indexes)?;
    }
    Ok(())
}

/// The access of a constant array at an index, if the index may be one of the array's.
fn fill_at(
    network: &mut Network,
    terms: &Terms,
    bits: &Bits,
    reached: &Reached,
    indexes: &[TermId],
    term: TermId,
    index: TermId,
) -> Result<(), AllocError>
    requires bits { HaveBits terms.now.nodes bits.now (Contains reached.now) }
    requires filling { IsFilling terms.now.nodes bits.now reached.now indexes.now network.old }
    requires whole { IsWhole terms.now.nodes reached.now term }
    requires among { Contains indexes.now index }
    requires word { IsWordTerm terms.now.nodes bits.now index }
    ensures filling { OnOk result
        (IsFilling terms.now.nodes bits.now reached.now indexes.now network.new) }
    ensures grows { OnOk result (Grows network.old network.new) }
    ensures has { OnOk result ((l : Landing) → landing_of terms.now.nodes (Const term index)
        ≡ Some l → Contains network.new.landings.items l) }
{
    let _count = terms.len();
    let origin = Start::Const(term, index);
    if let Some(landing) = landing_of(terms, origin) {
        network.origins.push(origin)?;
        network.landings.push(landing)?;
    }
    Ok(())
}

/// The accesses of a constant array at these indexes.
fn fill(
    network: &mut Network,
    terms: &Terms,
    bits: &Bits,
    reached: &Reached,
    indexes: &[TermId],
    term: TermId,
) -> Result<(), AllocError>
    requires bits { HaveBits terms.now.nodes bits.now (Contains reached.now) }
    requires filling { IsFilling terms.now.nodes bits.now reached.now indexes.now network.old }
    requires whole { IsWhole terms.now.nodes reached.now term }
    requires words { AreIndexTerms terms.now.nodes bits.now indexes.now }
    ensures filling { OnOk result
        (IsFilling terms.now.nodes bits.now reached.now indexes.now network.new) }
    ensures grows { OnOk result (Grows network.old network.new) }
    ensures has { OnOk result (HasFillings terms.now.nodes indexes.now network.new term) }
{
    for index in indexes {
        fill_at(network, terms, bits, reached, indexes, term, *index)?;
    }
    Ok(())
}

/// The accesses of a term at these indexes, if it is a constant array without an image.
fn fill_term(
    network: &mut Network,
    terms: &Terms,
    bits: &Bits,
    reached: &Reached,
    indexes: &[TermId],
    term: TermId,
) -> Result<(), AllocError>
    requires bits { HaveBits terms.now.nodes bits.now (Contains reached.now) }
    requires closed { IsClosed (leads terms.now.nodes (image_in bits.now)) (Contains reached.now) }
    requires here { Contains reached.now term }
    requires filling { IsFilling terms.now.nodes bits.now reached.now indexes.now network.old }
    requires words { AreIndexTerms terms.now.nodes bits.now indexes.now }
    ensures filling { OnOk result
        (IsFilling terms.now.nodes bits.now reached.now indexes.now network.new) }
    ensures grows { OnOk result (Grows network.old network.new) }
    ensures has { OnOk result (image_in bits.now term ≡ None
        → HasFillings terms.now.nodes indexes.now network.new term) }
{
    let _count = terms.len();
    match bits.image(term) {
        Some(_) => Ok(()),
        None => match shape_at(terms, term) {
            Shape::Filling { .. } => fill(network, terms, bits, reached, indexes, term),
            _ => Ok(()),
        },
    }
}

/// The accesses of all constant arrays without images at these indexes.
fn fill_all(
    network: &mut Network,
    terms: &Terms,
    bits: &Bits,
    reached: &Reached,
    indexes: &[TermId],
) -> Result<(), AllocError>
    requires bits { HaveBits terms.now.nodes bits.now (Contains reached.now) }
    requires closed { IsClosed (leads terms.now.nodes (image_in bits.now)) (Contains reached.now) }
    requires filling { IsFilling terms.now.nodes bits.now reached.now indexes.now network.old }
    requires words { AreIndexTerms terms.now.nodes bits.now indexes.now }
    ensures filling { OnOk result
        (IsFilling terms.now.nodes bits.now reached.now indexes.now network.new) }
    ensures grows { OnOk result (Grows network.old network.new) }
    ensures has { OnOk result ((t : ℕ) → IsOwn (Contains reached.now) (image_in bits.now) t
        → HasFillings terms.now.nodes indexes.now network.new t) }
{
    for term in reached.terms() {
        fill_term(network, terms, bits, reached, indexes, *term)?;
    }
    Ok(())
}

/// The indexes of all accesses.
fn indexes_in(alloc: Global, network: &Network) -> Result<Vec<TermId>, AllocError>
    ensures { IfOk result (λ v. v.items ≡ map (λ l. l.index) network.now.landings.items) }
{
    let mut indexes = Vec::new(alloc);
    for landing in &network.landings {
        indexes.push(landing.index)?;
    }
    Ok(indexes)
}

/// Leaves each index once.
fn leave_once(indexes: &mut Vec<TermId>)
    ensures { (i : ℕ) → Contains indexes.new.items i ↔ Contains indexes.old.items i }
{
    indexes.sort_unstable();
    indexes.dedup();
}

/// The accesses and the moves of reached terms without images; of a constant array at each index
/// that a select or a store has, and at the first words of its index width. These are the widths of
/// all constant arrays.
pub fn network_of(
    alloc: Global,
    terms: &Terms,
    bits: &Bits,
    reached: &Reached,
    widths: &[u32],
) -> Result<Network, AllocError>
    requires bits { HaveBits terms.now.nodes bits.now (Contains reached.now) }
    requires closed { IsClosed (leads terms.now.nodes (image_in bits.now)) (Contains reached.now) }
    requires widths { (t x n m : ℕ) → IsOwn (Contains reached.now) (image_in bits.now) t
        → shape_at terms.now.nodes t ≡ Filling x → sort_of terms.now.nodes t ≡ sort.Array n m
        → Contains widths.now n }
    requires words { (t x n m : ℕ) → IsOwn (Contains reached.now) (image_in bits.now) t
        → shape_at terms.now.nodes t ≡ Filling x → sort_of terms.now.nodes t ≡ sort.Array n m
        → HasHeldWords terms.now.nodes bits.now (Contains reached.now) n }
    ensures sound { IfOk result (λ n. IsSound terms.now.nodes reached.now n) }
    ensures map { IfOk result
        (λ n. IsMap terms.now.nodes (image_in bits.now) (Contains reached.now) reached.now
        n.moves.items n.guards.items n.origins.items n.landings.items n.graph) }
    ensures guards { IfOk result (λ n. All (IsGuarded terms.now.nodes bits.now) n.guards.items) }
    ensures accesses { IfOk result
        (λ n. All (IsAccess terms.now.nodes bits.now reached.now) n.landings.items) }
{
    let _count = terms.len();
    let _once = reached.terms();
    let mut network = Network::of_terms(alloc, terms, bits, reached)?;
    let mut indexes = indexes_in(alloc, &network)?;
    let count = indexes.len() + 1;
    push_all_words(alloc, terms, bits, widths, count, &mut indexes)?;
    leave_once(&mut indexes);
    fill_all(&mut network, terms, bits, reached, &indexes)?;
    Ok(network)
}
