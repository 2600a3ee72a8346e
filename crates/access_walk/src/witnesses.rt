// Arrays that are said to differ and have one word at their witness.

ghost use Rattle.std.specs.Prelude.{◌≡◌, ◌↔◌, [], None, Contains, IfOk, MatchBool, MatchOption};
ghost use Rattle.smt_terms.specs.Bits.{image_in};
ghost use Rattle.bit_blast.specs.Assigned.{assigned};
ghost use Rattle.term_reach.specs.Reach.{IsClosed};
ghost use Rattle.theory_terms.specs.declared.lemma.Lemma.TheVariants.{Witness};
ghost use Rattle.access_tables.specs.Leading.{leads};
ghost use Rattle.access_tables.specs.Encoded.{HaveBits};
ghost use Rattle.access_tables.specs.Held.{assigned_value};
ghost use Rattle.access_walk.specs.Networks.{AreApart};
ghost use Rattle.access_walk.specs.Watched.{HaveWatches, IsNoEquality, IsWatched, AreWatches, IsJoined, AreWitnessConflicts};

use crate::putting::put;
use access_tables::values::{truth_of, word_of};
use bit_blast::Assignment;
use smt_terms::bits::Bits;
use smt_terms::node::TermId;
use smt_terms::sort::Sort;
use smt_terms::terms::Terms;
use std::alloc::{AllocError, Global};
use term_reach::Reached;
use theory_lemmas::atoms::watch;
use theory_terms::atom::Watch;
use theory_terms::lemma::Lemma;
use theory_terms::shape::{Shape, shape_at};

/// An equality of arrays, and the selects of its sides at their witness.
#[derive(Clone, Copy, Debug)]
pub struct Watched {
    pub equality: TermId,
    pub watch: Watch,
}

/// The equality of arrays that a term without an image is, if it is one.
fn watched_own(
    alloc: Global,
    terms: &Terms,
    bits: &Bits,
    reached: &Reached,
    term: TermId,
) -> Result<Option<Watched>, AllocError>
    requires bits { HaveBits terms.now.nodes bits.now (Contains reached.now) }
    requires closed { IsClosed (leads terms.now.nodes (image_in bits.now)) (Contains reached.now) }
    requires watches { HaveWatches terms.now.nodes bits.now (Contains reached.now) }
    requires here { Contains reached.now term }
    requires free { image_in bits.now term ≡ None }
    ensures { IfOk result
        (λ o. MatchOption o (IsNoEquality terms.now.nodes bits.now term)
        (λ w. IsWatched terms.now.nodes bits.now (Contains reached.now) w × (w.equality ≡ term))) }
{
    let _count = terms.len();
    let Shape::Equating { left, right } = shape_at(terms, term) else {
        return Ok(None);
    };
    let Sort::Array(_, _) = terms.sort(left) else {
        return Ok(None);
    };
    match watch(alloc, terms, left, right)? {
        Some(watch) => Ok(Some(Watched {
            equality: term,
            watch,
        })),
        None => Ok(None),
    }
}

/// The equality of arrays that a term is, if it is one and has no image.
fn watched_at(
    alloc: Global,
    terms: &Terms,
    bits: &Bits,
    reached: &Reached,
    term: TermId,
) -> Result<Option<Watched>, AllocError>
    requires bits { HaveBits terms.now.nodes bits.now (Contains reached.now) }
    requires closed { IsClosed (leads terms.now.nodes (image_in bits.now)) (Contains reached.now) }
    requires watches { HaveWatches terms.now.nodes bits.now (Contains reached.now) }
    requires here { Contains reached.now term }
    ensures { IfOk result
        (λ o. MatchOption o (IsNoEquality terms.now.nodes bits.now term)
        (λ w. IsWatched terms.now.nodes bits.now (Contains reached.now) w × (w.equality ≡ term))) }
{
    match bits.image(term) {
        Some(_) => Ok(None),
        None => watched_own(alloc, terms, bits, reached, term),
    }
}

/// The equalities of arrays among reached terms without images.
pub fn watches_of(
    alloc: Global,
    terms: &Terms,
    bits: &Bits,
    reached: &Reached,
) -> Result<Vec<Watched>, AllocError>
    requires bits { HaveBits terms.now.nodes bits.now (Contains reached.now) }
    requires closed { IsClosed (leads terms.now.nodes (image_in bits.now)) (Contains reached.now) }
    requires watches { HaveWatches terms.now.nodes bits.now (Contains reached.now) }
    ensures { IfOk result
        (λ w. AreWatches terms.now.nodes bits.now (Contains reached.now) w.items) }
{
    let mut watches = Vec::new(alloc);
    for term in reached.terms() {
        let found = watched_at(alloc, terms, bits, reached, *term)?;
        put(&mut watches, found)?;
    }
    Ok(watches)
}

/// Whether an equality is false although the selects at its witness have one value.
fn is_joined(
    terms: &Terms,
    bits: &Bits,
    assignment: &Assignment,
    reached: &Reached,
    watched: Watched,
) -> bool
    requires { IsWatched terms.now.nodes bits.now (Contains reached.now) watched }
    ensures { MatchBool result
        (IsJoined (assigned_value terms.now.nodes bits.now (assigned assignment.now)) watched)
        (IsJoined (assigned_value terms.now.nodes bits.now (assigned assignment.now)) watched → ⊥) }
{
    let _count = terms.len();
    let left = word_of(terms, bits, assignment, watched.watch.left);
    let right = word_of(terms, bits, assignment, watched.watch.right);
    !truth_of(terms, bits, assignment, watched.equality) && left.value() == right.value()
}

/// The lemma of an equality that is false although the selects at its witness have one value.
fn conflict_of(
    terms: &Terms,
    bits: &Bits,
    assignment: &Assignment,
    reached: &Reached,
    watched: Watched,
) -> Option<Lemma>
    requires { IsWatched terms.now.nodes bits.now (Contains reached.now) watched }
    ensures { MatchOption result
        (IsJoined (assigned_value terms.now.nodes bits.now (assigned assignment.now)) watched → ⊥)
        (λ l. IsJoined (assigned_value terms.now.nodes bits.now (assigned assignment.now)) watched
        × (l ≡ Witness watched.equality)) }
{
    if is_joined(terms, bits, assignment, reached, watched) {
        Some(Lemma::Witness(watched.equality))
    } else {
        None
    }
}

/// The lemmas of all equalities that are false although the selects at their witness have one
/// value; none exactly where there is no such equality.
pub fn witness_conflicts(
    alloc: Global,
    terms: &Terms,
    bits: &Bits,
    assignment: &Assignment,
    reached: &Reached,
    watches: &[Watched],
) -> Result<Vec<Lemma>, AllocError>
    requires { AreWatches terms.now.nodes bits.now (Contains reached.now) watches.now }
    ensures conflicts { IfOk result
        (λ found. AreWitnessConflicts terms.now.nodes bits.now (assigned assignment.now)
        (Contains reached.now) found.items) }
    ensures none { IfOk result (λ found. (found.items ≡ []) ↔ AreApart terms.now.nodes
        (image_in bits.now) (Contains reached.now)
        (assigned_value terms.now.nodes bits.now (assigned assignment.now))) }
{
    let mut conflicts = Vec::new(alloc);
    for watched in watches {
        let found = conflict_of(terms, bits, assignment, reached, *watched);
        put(&mut conflicts, found)?;
    }
    Ok(conflicts)
}
