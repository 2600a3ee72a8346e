//! Which terms are live, with ample memory.

ghost use Rattle.std.specs.Prelude.{◌≡◌, All, IfOk, MatchBool, None};
ghost use Rattle.smt_terms.specs.Terms.{declaration_of};
ghost use Rattle.watch_roots.specs.Roots.{IsScalar};

use crate::live::live_terms;
use smt_terms::list::Arguments;
use smt_terms::node::{Node, Op, TermId};
use smt_terms::operator::Operator;
use smt_terms::sort::Sort;
use smt_terms::terms::Terms;
use std::alloc::{AllocError, Global};
use std::test::Fail;
use term_reach::Reached;

/// A term that is made.
#[derive(Clone, Copy)]
enum Made {
    /// The parameter of this place and sort.
    Param(u32, Sort),
    /// The array with indexes of this width that has this element everywhere.
    Filled(u64, TermId),
    /// The word of this width and value.
    Word(u64, u128),
    Plain(Operator, &'static [TermId]),
}

/// Terms, of which the first is a declared array of index width 4, and what a check of some of them needs.
#[derive(Clone, Copy)]
struct Scene {
    /// The terms from 1 on.
    terms: &'static [Made],
    roots: &'static [TermId],
    live: &'static [TermId],
}

const SCENES: [Scene; 6] = [
    // The selects of both sides at their witness come before the equality.
    Scene {
        terms: &[
            Made::Param(0, Sort::Word(4)),
            Made::Param(1, Sort::Word(8)),
            Made::Plain(Operator::Store, &[0, 1, 2]),
            Made::Plain(Operator::Equal, &[0, 3]),
            Made::Plain(Operator::Witness, &[0, 3]),
            Made::Plain(Operator::Select, &[0, 5]),
            Made::Plain(Operator::Select, &[3, 5]),
        ],
        roots: &[4],
        live: &[6, 7, 4],
    },
    // Those of the inner equality come before those of the outer one.
    Scene {
        terms: &[
            Made::Plain(Operator::Equal, &[0, 0]),
            Made::Plain(Operator::Ite, &[1, 0, 0]),
            Made::Plain(Operator::Equal, &[2, 0]),
            Made::Plain(Operator::Witness, &[0, 0]),
            Made::Plain(Operator::Select, &[0, 4]),
            Made::Plain(Operator::Witness, &[2, 0]),
            Made::Plain(Operator::Select, &[2, 6]),
            Made::Plain(Operator::Select, &[0, 6]),
        ],
        roots: &[3],
        live: &[5, 5, 7, 8, 3],
    },
    // An equality that nothing watches, and one of words, need nothing.
    Scene {
        terms: &[
            Made::Plain(Operator::Equal, &[0, 0]),
            Made::Param(0, Sort::Word(4)),
            Made::Plain(Operator::Equal, &[2, 2]),
            Made::Plain(Operator::And, &[1, 3]),
        ],
        roots: &[4],
        live: &[4],
    },
    // The index words of a constant array, up to the first that is not held; those of a width once.
    Scene {
        terms: &[
            Made::Param(0, Sort::Word(8)),
            Made::Filled(4, 1),
            Made::Param(1, Sort::Word(4)),
            Made::Plain(Operator::Select, &[2, 3]),
            Made::Word(4, 0),
            Made::Word(4, 1),
            Made::Word(4, 3),
            Made::Filled(4, 4),
            Made::Plain(Operator::Select, &[8, 3]),
        ],
        roots: &[9],
        live: &[5, 6, 9],
    },
    // Index width 1 has two words.
    Scene {
        terms: &[
            Made::Param(0, Sort::Word(8)),
            Made::Filled(1, 1),
            Made::Param(1, Sort::Word(1)),
            Made::Plain(Operator::Select, &[2, 3]),
            Made::Word(1, 0),
            Made::Word(1, 1),
        ],
        roots: &[4],
        live: &[5, 6, 4],
    },
    // What is not reached needs nothing.
    Scene {
        terms: &[
            Made::Param(0, Sort::Word(8)),
            Made::Filled(4, 1),
            Made::Word(4, 0),
            Made::Plain(Operator::Bvnot, &[1]),
        ],
        roots: &[4, 1],
        live: &[4, 1],
    },
];

fn node_of(alloc: Global, made: Made) -> Result<Node, AllocError>
    ensures { IfOk result (λ n. declaration_of n.op ≡ None) }
{
    match made {
        Made::Param(place, sort) => Ok(Node::leaf(alloc, Op::Param { place, sort })),
        Made::Filled(width, element) => Ok(Node {
            op: Op::ConstantArray(width),
            args: Arguments::of(alloc, &[element])?,
        }),
        Made::Word(width, value) => Ok(Node::leaf(alloc, Op::Word { width, value })),
        Made::Plain(operator, args) => Ok(Node {
            op: Op::Plain(operator),
            args: Arguments::of(alloc, args)?,
        }),
    }
}

/// Terms, a declared array alone; none where it gets another number.
fn array_alone(alloc: Global) -> Option<Terms> {
    let mut terms = Terms::with_limit(alloc, 64);
    let op = Op::Constant {
        declaration: 0,
        sort: Sort::Array(4, 8),
    };
    if terms.make(Node::leaf(alloc, op)) == Ok(0) {
        Some(terms)
    } else {
        None
    }
}

/// The terms of a scene; none where one gets another number.
fn terms_of(alloc: Global, scene: &Scene) -> Result<Option<Terms>, AllocError> {
    let Some(mut terms) = array_alone(alloc) else {
        return Ok(None);
    };
    for made in scene.terms {
        let number = terms.len();
        let node = node_of(alloc, *made)?;
        if terms.make(node) != Ok(number) {
            return Ok(None);
        }
    }
    Ok(Some(terms))
}

/// Whether a term is a Bool or a word.
fn is_scalar(terms: &Terms, term: TermId) -> bool
    ensures { MatchBool result (IsScalar terms.now.nodes term) (Unit {0}) }
{
    term < terms.len() && terms.sort(term).is_plain()
}

/// Whether these are Bools and words.
fn are_scalars(terms: &Terms, roots: &[TermId]) -> bool
    ensures { MatchBool result (All (IsScalar terms.now.nodes) roots.now) (Unit {0}) }
{
    roots.iter().all(|term| is_scalar(terms, *term))
}

/// Whether the live terms of a scene are these.
fn is_so(alloc: Global, scene: &Scene) -> Result<bool, AllocError> {
    let Some(terms) = terms_of(alloc, scene)? else {
        return Ok(false);
    };
    if !are_scalars(&terms, scene.roots) {
        return Ok(false);
    }
    let mut reached = Reached::new(alloc);
    let live = live_terms(alloc, &terms, scene.roots, &mut reached)?;
    Ok(live.as_slice() == scene.live)
}

#[test]
fn arrays_bring_selects_and_index_words(rt: HostRuntime) -> Result<(), Fail> {
    for scene in &SCENES {
        assert!(rt; is_so(rt.alloc(), scene)?);
    }
    Ok(())
}
