// Definitions of functions, and the terms of their uses.

ghost use Rattle.std.specs.Prelude.{◌≡◌, ◌≢◌, ◌<◌, ℕ, List, [], Contains, map, length, IfOk};
ghost use Rattle.smt_terms.specs.declared.sort.Signature.{Signature as SignatureValue};
ghost use Rattle.smt_terms.specs.Nodes.{node_of, node_at};
ghost use Rattle.smt_build.specs.Building.{made, Builds, Means, Grows};
ghost use Rattle.smt_build.specs.Definitions.{have_sorts, image, argument, instance, used};
ghost use Rattle.smt_build.specs.Reached.{placed, again, AreRising};

use crate::fault::{BuildError, BuildFault};
use crate::grouping::{has_sort, held_sort};
use crate::making::made;
use smt_terms::list::{Arguments, Sorts};
use smt_terms::node::{Node, Op, TermId};
use smt_terms::sort::Sort;
use smt_terms::terms::Terms;
use std::alloc::{AllocError, Global};
use term_reach::{Reached, reach_by_arguments};

/// What a defined name stands for: a term over parameters of these sorts.
#[derive(Debug, Drop)]
pub struct Definition {
    pub parameters: Sorts,
    pub body: TermId,
}

impl Definition {
    /// The definition of a name without parameters; takes no memory.
    pub(crate) fn of_term(alloc: Global, body: TermId) -> Definition
        ensures { result ≡ record { parameters = []; body = body } }
    {
        Definition {
            parameters: Sorts::none(alloc),
            body,
        }
    }
}

/// Whether there are as many terms as sorts, each of its sort.
pub(crate) fn have_sorts(terms: &Terms, sorts: &[Sort], args: &[TermId]) -> bool
    ensures { result ≡ have_sorts terms.now.nodes sorts.now args.now }
{
    if sorts.len() != args.len() {
        return false;
    }
    for place in 0..sorts.len() {
        if !has_sort(sorts[place], held_sort(terms, args[place])) {
            return false;
        }
    }
    true
}

/// The terms below a body that it reaches, in rising order; `reached` has them with their places.
fn rising(
    alloc: Global,
    terms: &Terms,
    body: TermId,
    reached: &mut Reached,
) -> Result<Vec<TermId>, AllocError>
    requires { body < length terms.now.nodes }
    ensures { IfOk result (λ order. AreRising terms.now.nodes body reached.new order.items) }
{
    let arguments = terms.node(body).args.as_slice();
    reach_by_arguments(alloc, terms, arguments, reached)?;
    let mut order = Vec::from_slice(alloc, reached.terms())?;
    order.sort_unstable();
    Ok(order)
}

/// The number at a place, 0 past the end.
fn number_at(numbers: &[TermId], place: usize) -> TermId
    ensures { result ≡ image numbers.now place }
{
    match numbers.get(place) {
        Some(number) => *number,
        None => 0,
    }
}

/// What stands for a term: the image at its place.
fn image(reached: &Reached, images: &[TermId], term: TermId) -> TermId
    ensures { result ≡ placed reached.now images.now term }
{
    match reached.place_of(term) {
        Some(place) => number_at(images, place),
        None => 0,
    }
}

/// What stands for these terms.
fn images_of(
    alloc: Global,
    reached: &Reached,
    images: &[TermId],
    terms: &[TermId],
) -> Result<Vec<TermId>, AllocError>
    ensures { IfOk result (λ v. v.items ≡ map (placed reached.now images.now) terms.now) }
{
    let mut found = Vec::new(alloc);
    for term in terms {
        found.push(image(reached, images, *term))?;
    }
    Ok(found)
}

/// The term of a term's operator over what stands for its arguments.
fn remade(
    alloc: Global,
    terms: &mut Terms,
    reached: &Reached,
    images: &[TermId],
    term: TermId,
) -> Result<TermId, BuildError>
    requires { term < length terms.old.nodes }
    ensures builds { Builds
        (made terms.old
        (node_of (node_at terms.old.nodes term).op
        (map (placed reached.now images.now) (node_at terms.old.nodes term).args))) result terms.old
        terms.new }
    ensures grows { (signatures : List SignatureValue) → Grows signatures terms.old terms.new }
{
    let node = terms.node(term);
    let op = node.op.copy()?;
    let args = images_of(alloc, reached, images, node.args.as_slice())?;
    let args = Arguments::from_vec(args);
    made(terms, Node { op, args })
}

/// The argument at the place of a parameter; none for another term.
fn argument(terms: &Terms, args: &[TermId], term: TermId) -> Option<TermId>
    requires { term < length terms.now.nodes }
    ensures { result ≡ argument args.now (node_at terms.now.nodes term).op }
{
    match &terms.node(term).op {
        Op::Param { place, .. } => args.get(*place as usize).copied(),
        _ => None,
    }
}

/// What stands for a term, where a parameter is the argument at its place.
fn again(
    alloc: Global,
    terms: &mut Terms,
    reached: &Reached,
    images: &[TermId],
    args: &[TermId],
    term: TermId,
) -> Result<TermId, BuildError>
    requires { term < length terms.old.nodes }
    ensures means { Means (again (placed reached.now images.now) args.now terms.old term) result
        terms.new }
    ensures grows { (signatures : List SignatureValue) → Grows signatures terms.old terms.new }
{
    match argument(terms, args, term) {
        Some(argument) => Ok(argument),
        None => remade(alloc, terms, reached, images, term),
    }
}

/// Puts what stands for a term at the term's place.
fn put(reached: &Reached, images: &mut Vec<TermId>, term: TermId, number: TermId)
    requires there { Contains reached.now term }
    requires size { length images.old.items ≡ length reached.now }
    ensures size { length images.new.items ≡ length reached.now }
    ensures here { placed reached.now images.new.items term ≡ number }
    ensures others { (t : ℕ) → Contains reached.now t → t ≢ term
        → placed reached.now images.new.items t ≡ placed reached.now images.old.items t }
{
    let Some(place) = reached.place_of(term) else {
        return;
    };
    images[place] = number;
}

/// A body with these arguments in place of its parameters. Looks at the terms that it reaches in rising order, and at no
/// others.
fn made_in_order(
    alloc: Global,
    terms: &mut Terms,
    body: TermId,
    reached: &Reached,
    order: &[TermId],
    args: &[TermId],
) -> Result<TermId, BuildError>
    requires held { body < length terms.old.nodes }
    requires rising { AreRising terms.old.nodes body reached.now order.now }
    ensures means { Means (instance terms.old body args.now) result terms.new }
    ensures grows { (signatures : List SignatureValue) → Grows signatures terms.old terms.new }
{
    let mut images: Vec<TermId> = vec![in alloc; 0; order.len()]?;
    'order: for term in order {
        let image = again(alloc, terms, reached, images.as_slice(), args, *term)?;
        put(reached, &mut images, *term, image);
    }
    again(alloc, terms, reached, images.as_slice(), args, body)
}

/// A body with these arguments in place of its parameters. `reached` is room for the walk, which its owner keeps from use to
/// use; what it had may be forgotten.
fn instance(
    alloc: Global,
    terms: &mut Terms,
    reached: &mut Reached,
    body: TermId,
    args: &[TermId],
) -> Result<TermId, BuildError>
    ensures means { Means (instance terms.old body args.now) result terms.new }
    ensures grows { (signatures : List SignatureValue) → Grows signatures terms.old terms.new }
{
    if body >= terms.len() {
        return Ok(body);
    }
    let order = rising(alloc, terms, body, reached)?;
    made_in_order(alloc, terms, body, reached, order.as_slice(), args)
}

/// The term of a defined name and its arguments.
pub(crate) fn used(
    alloc: Global,
    terms: &mut Terms,
    reached: &mut Reached,
    definition: &Definition,
    args: &[TermId],
) -> Result<TermId, BuildError>
    ensures means { Means (used terms.old definition.now args.now) result terms.new }
    ensures grows { (signatures : List SignatureValue) → Grows signatures terms.old terms.new }
{
    if !have_sorts(terms, definition.parameters.as_slice(), args) {
        return Err(BuildError::Fault(BuildFault::WrongSort));
    }
    if args.is_empty() {
        return Ok(definition.body);
    }
    instance(alloc, terms, reached, definition.body, args)
}
