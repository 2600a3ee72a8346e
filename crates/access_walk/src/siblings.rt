// Lemmas like a given one, of accesses that pass a choice by its other branch.

ghost use Rattle.std.specs.Prelude.{MatchBool, IfOk, OnOk};
ghost use Rattle.std.specs.List.{AllByRecursion};
ghost use Rattle.theory_terms.specs.declared.atom.Atom.TheVariants.{Same};
ghost use Rattle.access_walk.specs.Spread.{AreEncodedLemmas, IsHeldRow};
ghost use Rattle.access_walk.specs.Walked.{IsEncodedAtom};

use smt_terms::bits::Bits;
use smt_terms::node::TermId;
use smt_terms::sort::Sort;
use smt_terms::terms::Terms;
use std::alloc::{AllocError, Global};
use theory_lemmas::atoms::{atoms_of, landing_of, turn_of};
use theory_terms::atom::Atom;
use theory_terms::lemma::{Access, Lemma, Move, Path};
use theory_terms::shape::{Shape, shape_at};

/// Moves over stores at most, before a way round leads back.
const LONGEST: usize = 3;

/// Whether a term is held and has as many bits as its sort.
fn has_row(terms: &Terms, bits: &Bits, term: TermId) -> bool
    ensures { MatchBool result (IsHeldRow terms.now.nodes bits.now term) (Unit {0}) }
{
    let _count = terms.len();
    if term >= terms.len() {
        return false;
    }
    let Some(row) = bits.of(term) else {
        return false;
    };
    match terms.sort(term) {
        Sort::Bool => row.len() == 1,
        Sort::Word(width) => width > 0 && row.len() == width as usize,
        Sort::Array(..) => false,
    }
}

/// Whether two terms have bits and one sort.
fn are_alike(terms: &Terms, bits: &Bits, left: TermId, right: TermId) -> bool
    ensures { MatchBool result (IsEncodedAtom terms.now.nodes bits.now (Same left right))
        (Unit {0}) }
{
    has_row(terms, bits, left)
        && has_row(terms, bits, right)
        && terms.sort(left) == terms.sort(right)
}

/// Whether the terms that an atom names have bits, and those that it compares one sort.
fn is_encoded(terms: &Terms, bits: &Bits, atom: Atom) -> bool
    ensures { MatchBool result (IsEncodedAtom terms.now.nodes bits.now atom) (Unit {0}) }
{
    match atom {
        Atom::Same(left, right) => are_alike(terms, bits, left, right),
        Atom::Differ(left, right) => are_alike(terms, bits, left, right),
        Atom::Holds(term) => has_row(terms, bits, term),
        Atom::Fails(term) => has_row(terms, bits, term),
    }
}

/// Whether it is so with all of these.
fn are_encoded(terms: &Terms, bits: &Bits, atoms: &[Atom]) -> bool
    ensures { MatchBool result
        (AllByRecursion (IsEncodedAtom terms.now.nodes bits.now) atoms.now) (Unit {0}) }
{
    for atom in atoms {
        if !is_encoded(terms, bits, *atom) {
            return false;
        }
    }
    true
}

/// Puts a lemma, if it has its shape and its terms have bits.
fn put_encoded(
    alloc: Global,
    terms: &Terms,
    bits: &Bits,
    lemma: Lemma,
    lemmas: &mut Vec<Lemma>,
) -> Result<(), AllocError>
    requires { AreEncodedLemmas terms.now.nodes bits.now lemmas.old.items }
    ensures { OnOk result (AreEncodedLemmas terms.now.nodes bits.now lemmas.new.items) }
{
    let Some(atoms) = atoms_of(alloc, terms, &lemma)? else {
        return Ok(());
    };
    if are_encoded(terms, bits, &atoms) {
        lemmas.push(lemma)?;
    }
    Ok(())
}

/// The arrays that an access comes to, from its start on.
fn arrays_on(alloc: Global, terms: &Terms, access: &Access) -> Result<Vec<TermId>, AllocError> {
    let mut arrays = Vec::new(alloc);
    let Some(landing) = landing_of(terms, access.start) else {
        return Ok(arrays);
    };
    let mut here = landing.array;
    arrays.push(here)?;
    for by in access.path.as_slice() {
        let Some(turn) = turn_of(terms, landing.index, here, *by) else {
            break;
        };
        here = turn.to;
        arrays.push(here)?;
    }
    Ok(arrays)
}

/// The move to the other branch of a choice, and the array that it is.
fn other_branch(terms: &Terms, here: TermId, by: Move) -> Option<(Move, TermId)> {
    let Shape::Choosing { yes, no, .. } = shape_at(terms, here) else {
        return None;
    };
    match by {
        Move::Then(choice) if choice == here => Some((Move::Else(here), no)),
        Move::Else(choice) if choice == here => Some((Move::Then(here), yes)),
        _ => None,
    }
}

/// Goes on from an array over its stores, at most so far, up to one of the arrays where it is led
/// back; the moves are put. Gives the place among these arrays.
fn lead_back(
    terms: &Terms,
    start: TermId,
    arrays: &[TermId],
    moves: &mut Vec<Move>,
) -> Result<Option<usize>, AllocError> {
    let mut here = start;
    for _ in 0..LONGEST {
        if let Some(place) = arrays.iter().position(|array| *array == here) {
            return Ok(Some(place));
        }
        let Shape::Storing { array, .. } = shape_at(terms, here) else {
            return Ok(None);
        };
        moves.push(Move::Store(here))?;
        here = array;
    }
    Ok(arrays.iter().position(|array| *array == here))
}

/// An access like this one, but for the choice that the move at a place passes: by its other
/// branch, if that leads back.
fn sibling_at(
    alloc: Global,
    terms: &Terms,
    access: &Access,
    arrays: &[TermId],
    place: usize,
) -> Result<Option<Access>, AllocError> {
    let path = access.path.as_slice();
    if place >= path.len() || path.len() >= arrays.len() {
        return Ok(None);
    }
    let Some((by, start)) = other_branch(terms, arrays[place], path[place]) else {
        return Ok(None);
    };
    let mut moves = Vec::from_slice(alloc, &path[..place])?;
    moves.push(by)?;
    let Some(back) = lead_back(terms, start, &arrays[place + 1..], &mut moves)? else {
        return Ok(None);
    };
    let rest = (place + 1).saturating_add(back).min(path.len());
    moves.extend_from_slice(&path[rest..])?;
    Ok(Some(Access {
        start: access.start,
        path: Path::from_vec(moves),
    }))
}

/// Puts the lemma of an access, if there is one, and of one beside it.
fn put_sibling(
    alloc: Global,
    terms: &Terms,
    bits: &Bits,
    sibling: Option<Access>,
    beside: &Access,
    siblings: &mut Vec<Lemma>,
) -> Result<(), AllocError>
    requires { AreEncodedLemmas terms.now.nodes bits.now siblings.old.items }
    ensures { OnOk result (AreEncodedLemmas terms.now.nodes bits.now siblings.new.items) }
{
    let Some(access) = sibling else {
        return Ok(());
    };
    let lemma = Lemma::Arrays(access, beside.clone()?);
    put_encoded(alloc, terms, bits, lemma, siblings)?;
    Ok(())
}

/// Puts the lemmas of the accesses like this one, and of one beside them.
fn put_siblings_of(
    alloc: Global,
    terms: &Terms,
    bits: &Bits,
    access: &Access,
    beside: &Access,
    siblings: &mut Vec<Lemma>,
) -> Result<(), AllocError>
    requires { AreEncodedLemmas terms.now.nodes bits.now siblings.old.items }
    ensures { OnOk result (AreEncodedLemmas terms.now.nodes bits.now siblings.new.items) }
{
    let arrays = arrays_on(alloc, terms, access)?;
    for place in 0..arrays.len() {
        let sibling = sibling_at(alloc, terms, access, &arrays, place)?;
        put_sibling(alloc, terms, bits, sibling, beside, siblings)?;
    }
    Ok(())
}

/// Puts the lemmas like this one.
fn put_siblings(
    alloc: Global,
    terms: &Terms,
    bits: &Bits,
    lemma: &Lemma,
    siblings: &mut Vec<Lemma>,
) -> Result<(), AllocError>
    requires { AreEncodedLemmas terms.now.nodes bits.now siblings.old.items }
    ensures { OnOk result (AreEncodedLemmas terms.now.nodes bits.now siblings.new.items) }
{
    let Lemma::Arrays(left, right) = lemma else {
        return Ok(());
    };
    put_siblings_of(alloc, terms, bits, left, right, siblings)?;
    put_siblings_of(alloc, terms, bits, right, left, siblings)?;
    Ok(())
}

/// The lemmas like these, of accesses that pass one choice by its other branch where that leads
/// back within few moves. Each has its shape, and its terms have bits; none needs to be false.
pub fn siblings_of(
    alloc: Global,
    terms: &Terms,
    bits: &Bits,
    lemmas: &[Lemma],
) -> Result<Vec<Lemma>, AllocError>
    ensures { IfOk result (λ v. AreEncodedLemmas terms.now.nodes bits.now v.items) }
{
    let mut siblings = Vec::new(alloc);
    for lemma in lemmas {
        put_siblings(alloc, terms, bits, lemma, &mut siblings)?;
    }
    Ok(siblings)
}
