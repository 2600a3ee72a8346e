// The atoms of lemmas: where accesses start, how they move, and what lemmas say.

ghost use Rattle.std.specs.Prelude.{◌≡◌, ◌∷◌, [], IfOk};
ghost use Rattle.theory_terms.specs.Lemmas.{start_of, is_index, constant_start, landing_of, between, turn_of, arrival_of, atoms_of, watch, congruence_atoms, arrays_atoms, witness_atoms, pairs_atoms};
ghost use Rattle.theory_terms.specs.Shapes.{shape_at};
ghost use Rattle.theory_lemmas.specs.Arriving.{HasArrived, pair_term, AreAtoms};

use smt_terms::list::Arguments;
use smt_terms::node::{Node, Op, TermId};
use smt_terms::operator::Operator;
use smt_terms::terms::Terms;
use std::alloc::{AllocError, Global};
use theory_terms::atom::{Atom, Landing, Turn, Watch};
use theory_terms::lemma::{Access, Lemma, Move, Start};
use theory_terms::shape::{Shape, shape_at};

/// The access that a select or a store is.
fn start_of(terms: &Terms, term: TermId) -> Option<Landing>
    ensures { result ≡ start_of term (shape_at terms.now.nodes term) }
{
    match shape_at(terms, term) {
        Shape::Selecting { array, index } => Some(Landing {
            array,
            index,
            value: term,
        }),
        Shape::Storing { index, value, .. } => Some(Landing {
            array: term,
            index,
            value,
        }),
        _ => None,
    }
}

/// Whether a held term may be an index of a held array.
fn is_index(terms: &Terms, array: TermId, index: TermId) -> bool
    ensures { result ≡ is_index terms.now.nodes array index }
{
    array < terms.len() && index < terms.len() && terms.sort(array).index() == terms.sort(index)
}

/// The access of a constant array with an index.
fn constant_start(terms: &Terms, array: TermId, index: TermId) -> Option<Landing>
    ensures { result ≡ constant_start terms.now.nodes array index (shape_at terms.now.nodes array) }
{
    let Shape::Filling { element } = shape_at(terms, array) else {
        return None;
    };
    if is_index(terms, array, index) {
        Some(Landing {
            array,
            index,
            value: element,
        })
    } else {
        None
    }
}

/// The access that a start begins.
pub fn landing_of(terms: &Terms, start: Start) -> Option<Landing>
    ensures { result ≡ landing_of terms.now.nodes start }
{
    match start {
        Start::Term(term) => start_of(terms, term),
        Start::Const(array, index) => constant_start(terms, array, index),
    }
}

fn between(here: TermId, a: TermId, b: TermId, unless: Atom) -> Option<Turn>
    ensures { result ≡ between here a b unless }
{
    if here == a {
        return Some(Turn { to: b, unless });
    }
    if here == b {
        return Some(Turn { to: a, unless });
    }
    None
}

/// A move of an access with this index from this array.
pub fn turn_of(terms: &Terms, index: TermId, here: TermId, by: Move) -> Option<Turn>
    ensures { result ≡ turn_of terms.now.nodes index here by }
{
    match by {
        Move::Store(store) => match shape_at(terms, store) {
            Shape::Storing {
                array,
                index: at,
                ..
            } => between(here, store, array, Atom::Same(index, at)),
            _ => None,
        },
        Move::Then(choice) => match shape_at(terms, choice) {
            Shape::Choosing { condition, yes, .. } => between(
                here,
                choice,
                yes,
                Atom::Fails(condition),
            ),
            _ => None,
        },
        Move::Else(choice) => match shape_at(terms, choice) {
            Shape::Choosing { condition, no, .. } => between(
                here,
                choice,
                no,
                Atom::Holds(condition),
            ),
            _ => None,
        },
        Move::Sides(equality) => match shape_at(terms, equality) {
            Shape::Equating { left, right } => between(here, left, right, Atom::Fails(equality)),
            _ => None,
        },
    }
}

/// Where an access comes to; the atoms of its moves are put behind those that there are.
pub fn arrive(
    terms: &Terms,
    access: &Access,
    atoms: &mut Vec<Atom>,
) -> Result<Option<Landing>, AllocError>
    ensures { IfOk result
        (λ o. HasArrived (arrival_of terms.now.nodes access.now) atoms.old.items o
        atoms.new.items) }
{
    let Some(landing) = landing_of(terms, access.start) else {
        return Ok(None);
    };
    let mut here = landing.array;
    for by in access.path.as_slice() {
        let Some(turn) = turn_of(terms, landing.index, here, *by) else {
            return Ok(None);
        };
        atoms.push(turn.unless)?;
        here = turn.to;
    }
    Ok(Some(Landing {
        array: here,
        index: landing.index,
        value: landing.value,
    }))
}

/// The term of an operator without an index and two arguments, if there is one.
fn find_pair(
    alloc: Global,
    terms: &Terms,
    operator: Operator,
    left: TermId,
    right: TermId,
) -> Result<Option<TermId>, AllocError>
    ensures { IfOk result (λ o. o ≡ pair_term terms.now.nodes operator left right) }
{
    let args = vec![in alloc; left, right]?;
    let node = Node {
        op: Op::Plain(operator),
        args: Arguments::from_vec(args),
    };
    Ok(terms.find(&node))
}

/// The witness of two arrays and their selects there, if the three terms are held.
pub fn watch(
    alloc: Global,
    terms: &Terms,
    left: TermId,
    right: TermId,
) -> Result<Option<Watch>, AllocError>
    ensures { IfOk result (λ o. o ≡ watch terms.now.nodes left right) }
{
    let Some(witness) = find_pair(alloc, terms, Operator::Witness, left, right)? else {
        return Ok(None);
    };
    let Some(at_left) = find_pair(alloc, terms, Operator::Select, left, witness)? else {
        return Ok(None);
    };
    let Some(at_right) = find_pair(alloc, terms, Operator::Select, right, witness)? else {
        return Ok(None);
    };
    Ok(Some(Watch {
        witness,
        left: at_left,
        right: at_right,
    }))
}

fn arrays(
    alloc: Global,
    terms: &Terms,
    a: &Access,
    b: &Access,
) -> Result<Option<Vec<Atom>>, AllocError>
    ensures { IfOk result
        (λ o. AreAtoms
        (arrays_atoms (arrival_of terms.now.nodes a.now) (arrival_of terms.now.nodes b.now)) o) }
{
    let mut atoms = Vec::new(alloc);
    let Some(left) = arrive(terms, a, &mut atoms)? else {
        return Ok(None);
    };
    let Some(right) = arrive(terms, b, &mut atoms)? else {
        return Ok(None);
    };
    if left.array != right.array {
        return Ok(None);
    }
    atoms.push(Atom::Differ(left.index, right.index))?;
    atoms.push(Atom::Same(left.value, right.value))?;
    Ok(Some(atoms))
}

fn witness(alloc: Global, terms: &Terms, term: TermId) -> Result<Option<Vec<Atom>>, AllocError>
    ensures { IfOk result
        (λ o. AreAtoms (witness_atoms terms.now.nodes term (shape_at terms.now.nodes term)) o) }
{
    let Shape::Equating { left, right } = shape_at(terms, term) else {
        return Ok(None);
    };
    let Some(watch) = watch(alloc, terms, left, right)? else {
        return Ok(None);
    };
    let atoms = vec![in alloc; Atom::Holds(term), Atom::Differ(watch.left, watch.right)]?;
    Ok(Some(atoms))
}

/// An atom for each pair of arguments, and one more.
fn pairs(
    alloc: Global,
    left: &[TermId],
    right: &[TermId],
    last: Atom,
) -> Result<Option<Vec<Atom>>, AllocError>
    ensures { IfOk result (λ o. AreAtoms (pairs_atoms left.now right.now (last ∷ [])) o) }
{
    if left.len() != right.len() {
        return Ok(None);
    }
    let mut atoms = Vec::new(alloc);
    for i in 0..left.len() {
        atoms.push(Atom::Differ(left[i], right[i]))?;
    }
    atoms.push(last)?;
    Ok(Some(atoms))
}

fn congruence(
    alloc: Global,
    terms: &Terms,
    t: TermId,
    u: TermId,
) -> Result<Option<Vec<Atom>>, AllocError>
    ensures { IfOk result (λ o. AreAtoms (congruence_atoms terms.now.nodes t u) o) }
{
    let Shape::Applying { .. } = shape_at(terms, t) else {
        return Ok(None);
    };
    let Shape::Applying { .. } = shape_at(terms, u) else {
        return Ok(None);
    };
    if t >= terms.len() || u >= terms.len() {
        return Ok(None);
    }
    let left = terms.node(t);
    let right = terms.node(u);
    if left.op != right.op {
        return Ok(None);
    }
    pairs(
        alloc,
        left.args.as_slice(),
        right.args.as_slice(),
        Atom::Same(t, u),
    )
}

/// The atoms of a lemma, if it has its shape.
pub fn atoms_of(
    alloc: Global,
    terms: &Terms,
    lemma: &Lemma,
) -> Result<Option<Vec<Atom>>, AllocError>
    ensures { IfOk result (λ o. AreAtoms (atoms_of terms.now.nodes lemma.now) o) }
{
    match lemma {
        Lemma::Congruence(t, u) => congruence(alloc, terms, *t, *u),
        Lemma::Arrays(a, b) => arrays(alloc, terms, a, b),
        Lemma::Witness(t) => witness(alloc, terms, *t),
    }
}
