//! Which terms are made, with ample memory.

ghost use Rattle.std.specs.Prelude.{◌≡◌, ◌<◌, All, IfOk, MatchBool, None, length};
ghost use Rattle.smt_terms.specs.Terms.{declaration_of};

use crate::watches::{count_watches, make_watches};
use smt_terms::fault::{MakeError, MakeFault};
use smt_terms::list::Arguments;
use smt_terms::node::{Node, Op, TermId};
use smt_terms::operator::Operator;
use smt_terms::sort::Sort;
use smt_terms::terms::{TERM_LIMIT, Terms};
use std::alloc::{AllocError, Global};
use std::test::Fail;
use term_reach::Reached;

/// A term that is made.
#[derive(Clone, Copy)]
enum Made {
    /// The parameter of this place and sort.
    Param(u32, Sort),
    /// The array with indexes of this width that has this element everywhere.
    Filled(u64, TermId),
    /// The word of this width and value.
    Word(u64, u128),
    Plain(Operator, &'static [TermId]),
}

/// Terms from which a check starts, and those that it makes.
#[derive(Clone, Copy)]
struct Scene {
    /// The sort of term 0, a declared constant.
    array: Sort,
    /// The terms from 1 on.
    terms: &'static [Made],
    roots: &'static [TermId],
    made: &'static [Made],
}

const BYTES: Sort = Sort::Array(4, 8);

/// An array, an index, an element, a store and the equality of both arrays.
const STORED: [Made; 4] = [
    Made::Param(0, Sort::Word(4)),
    Made::Param(1, Sort::Word(8)),
    Made::Plain(Operator::Store, &[0, 1, 2]),
    Made::Plain(Operator::Equal, &[0, 3]),
];

const SCENES: [Scene; 12] = [
    // The witness of the sides, and their selects there, the left one first.
    Scene {
        array: BYTES,
        terms: &STORED,
        roots: &[4],
        made: &[
            Made::Plain(Operator::Witness, &[0, 3]),
            Made::Plain(Operator::Select, &[0, 5]),
            Made::Plain(Operator::Select, &[3, 5]),
        ],
    },
    // An equality that two roots reach is watched once.
    Scene {
        array: BYTES,
        terms: &[
            Made::Param(0, Sort::Word(4)),
            Made::Param(1, Sort::Word(8)),
            Made::Plain(Operator::Store, &[0, 1, 2]),
            Made::Plain(Operator::Equal, &[0, 3]),
            Made::Plain(Operator::Not, &[4]),
        ],
        roots: &[5, 4, 5],
        made: &[
            Made::Plain(Operator::Witness, &[0, 3]),
            Made::Plain(Operator::Select, &[0, 6]),
            Made::Plain(Operator::Select, &[3, 6]),
        ],
    },
    // One equality inside another: the lower one comes first.
    Scene {
        array: BYTES,
        terms: &[
            Made::Param(0, Sort::Word(4)),
            Made::Param(1, Sort::Word(8)),
            Made::Plain(Operator::Store, &[0, 1, 2]),
            Made::Plain(Operator::Equal, &[0, 3]),
            Made::Plain(Operator::Ite, &[4, 0, 3]),
            Made::Plain(Operator::Equal, &[5, 0]),
        ],
        roots: &[6],
        made: &[
            Made::Plain(Operator::Witness, &[0, 3]),
            Made::Plain(Operator::Select, &[0, 7]),
            Made::Plain(Operator::Select, &[3, 7]),
            Made::Plain(Operator::Witness, &[5, 0]),
            Made::Plain(Operator::Select, &[5, 10]),
            Made::Plain(Operator::Select, &[0, 10]),
        ],
    },
    // What is there is not made again.
    Scene {
        array: BYTES,
        terms: &[
            Made::Param(0, Sort::Word(4)),
            Made::Param(1, Sort::Word(8)),
            Made::Plain(Operator::Store, &[0, 1, 2]),
            Made::Plain(Operator::Equal, &[0, 3]),
            Made::Plain(Operator::Witness, &[0, 3]),
            Made::Plain(Operator::Select, &[3, 5]),
        ],
        roots: &[4],
        made: &[Made::Plain(Operator::Select, &[0, 5])],
    },
    // An array with itself has one select.
    Scene {
        array: BYTES,
        terms: &[Made::Plain(Operator::Equal, &[0, 0])],
        roots: &[1],
        made: &[
            Made::Plain(Operator::Witness, &[0, 0]),
            Made::Plain(Operator::Select, &[0, 2]),
        ],
    },
    // An equality of words, and one that is not reached, are not watched.
    Scene {
        array: BYTES,
        terms: &[
            Made::Param(0, Sort::Word(4)),
            Made::Plain(Operator::Equal, &[1, 1]),
            Made::Plain(Operator::Equal, &[0, 0]),
        ],
        roots: &[2],
        made: &[],
    },
    // Index width 1: both words, for one index.
    Scene {
        array: BYTES,
        terms: &[
            Made::Param(0, Sort::Word(1)),
            Made::Filled(1, 1),
            Made::Plain(Operator::Select, &[2, 1]),
        ],
        roots: &[3],
        made: &[Made::Word(1, 0), Made::Word(1, 1)],
    },
    // Index width 2, with two selects at one index and one at a word: the words 0, 1 and 2, of which 1 is there.
    Scene {
        array: Sort::Array(2, 8),
        terms: &[
            Made::Param(0, Sort::Word(8)),
            Made::Filled(2, 1),
            Made::Param(1, Sort::Word(2)),
            Made::Plain(Operator::Select, &[2, 3]),
            Made::Plain(Operator::Select, &[0, 3]),
            Made::Word(2, 1),
            Made::Plain(Operator::Select, &[0, 6]),
            Made::Plain(Operator::Bvadd, &[4, 5]),
            Made::Plain(Operator::Bvadd, &[8, 7]),
        ],
        roots: &[9],
        made: &[Made::Word(2, 0), Made::Word(2, 2)],
    },
    // Index width 128: the words 0 and 1, since the witness is the one index.
    Scene {
        array: Sort::Array(128, 8),
        terms: &[
            Made::Param(0, Sort::Word(8)),
            Made::Filled(128, 1),
            Made::Plain(Operator::Equal, &[0, 2]),
        ],
        roots: &[3],
        made: &[
            Made::Plain(Operator::Witness, &[0, 2]),
            Made::Plain(Operator::Select, &[0, 4]),
            Made::Plain(Operator::Select, &[2, 4]),
            Made::Word(128, 0),
            Made::Word(128, 1),
        ],
    },
    // Two index widths, with one index each: the lower width first.
    Scene {
        array: BYTES,
        terms: &[
            Made::Param(0, Sort::Word(8)),
            Made::Filled(5, 1),
            Made::Filled(3, 1),
            Made::Param(1, Sort::Word(5)),
            Made::Param(2, Sort::Word(3)),
            Made::Plain(Operator::Select, &[2, 4]),
            Made::Plain(Operator::Select, &[3, 5]),
            Made::Plain(Operator::Bvadd, &[6, 7]),
        ],
        roots: &[8],
        made: &[
            Made::Word(3, 0),
            Made::Word(3, 1),
            Made::Word(5, 0),
            Made::Word(5, 1),
        ],
    },
    // A constant array alone, without an index: the word 0.
    Scene {
        array: BYTES,
        terms: &[Made::Param(0, Sort::Word(8)), Made::Filled(7, 1)],
        roots: &[2],
        made: &[Made::Word(7, 0)],
    },
    // A constant array that is not reached brings no words.
    Scene {
        array: BYTES,
        terms: &[
            Made::Param(0, Sort::Word(8)),
            Made::Filled(4, 1),
            Made::Param(1, Sort::Word(4)),
            Made::Plain(Operator::Select, &[0, 3]),
        ],
        roots: &[4],
        made: &[],
    },
];

fn node_of(alloc: Global, made: Made) -> Result<Node, AllocError>
    ensures { IfOk result (λ n. declaration_of n.op ≡ None) }
{
    match made {
        Made::Param(place, sort) => Ok(Node::leaf(alloc, Op::Param { place, sort })),
        Made::Filled(width, element) => Ok(Node {
            op: Op::ConstantArray(width),
            args: Arguments::of(alloc, &[element])?,
        }),
        Made::Word(width, value) => Ok(Node::leaf(alloc, Op::Word { width, value })),
        Made::Plain(operator, args) => Ok(Node {
            op: Op::Plain(operator),
            args: Arguments::of(alloc, args)?,
        }),
    }
}

/// Terms, a declared constant of this sort alone; none where it gets another number.
fn constant_alone(alloc: Global, sort: Sort, limit: u32) -> Option<Terms> {
    if limit > TERM_LIMIT {
        return None;
    }
    let mut terms = Terms::with_limit(alloc, limit);
    let op = Op::Constant {
        declaration: 0,
        sort,
    };
    if terms.make(Node::leaf(alloc, op)) == Ok(0) {
        Some(terms)
    } else {
        None
    }
}

/// The terms of a scene, of which so many may be held; none where one gets another number.
fn terms_of(alloc: Global, scene: &Scene, limit: u32) -> Result<Option<Terms>, AllocError> {
    let Some(mut terms) = constant_alone(alloc, scene.array, limit) else {
        return Ok(None);
    };
    for made in scene.terms {
        let number = terms.len();
        let node = node_of(alloc, *made)?;
        if terms.make(node) != Ok(number) {
            return Ok(None);
        }
    }
    Ok(Some(terms))
}

/// Whether these are all terms.
fn are_held(terms: &Terms, live: &[TermId]) -> bool
    ensures { MatchBool result (All (λ t. t < length terms.now.nodes) live.now) (Unit {0}) }
{
    let count = terms.len();
    live.iter().all(|term| *term < count)
}

/// Whether the terms from a number on are these, and no more.
fn ends_with(alloc: Global, terms: &Terms, from: u32, made: &[Made]) -> Result<bool, AllocError> {
    let mut number = from;
    for one in made {
        if number >= terms.len() || *terms.node(number) != node_of(alloc, *one)? {
            return Ok(false);
        }
        number += 1;
    }
    Ok(number == terms.len())
}

/// How many terms a check over the roots of a scene makes, if it makes these and as many as are
/// counted before.
fn made_in(alloc: Global, scene: &Scene, limit: u32) -> Result<Option<u32>, MakeError> {
    let Some(mut terms) = terms_of(alloc, scene, limit)? else {
        return Ok(None);
    };
    if !are_held(&terms, scene.roots) {
        return Ok(None);
    }
    let from = terms.len();
    let mut reached = Reached::new(alloc);
    let count = count_watches(alloc, &mut terms, scene.roots, &mut reached)?;
    make_watches(alloc, &mut terms, scene.roots, &mut reached)?;
    if ends_with(alloc, &terms, from, scene.made)? {
        Ok(Some(count))
    } else {
        Ok(None)
    }
}

/// How many terms are held when those of a check are refused; none where they are made.
fn held_when_refused(alloc: Global, scene: &Scene, limit: u32) -> Result<Option<u32>, AllocError> {
    let Some(mut terms) = terms_of(alloc, scene, limit)? else {
        return Ok(None);
    };
    if !are_held(&terms, scene.roots) {
        return Ok(None);
    }
    let mut reached = Reached::new(alloc);
    match make_watches(alloc, &mut terms, scene.roots, &mut reached) {
        Err(MakeError::Fault(MakeFault::TermLimit)) => Ok(Some(terms.len())),
        _ => Ok(None),
    }
}

#[test]
fn checks_make_watches_and_index_words(rt: HostRuntime) -> Result<(), Fail> {
    for scene in &SCENES {
        let made = made_in(rt.alloc(), scene, 64);
        assert!(rt; made == Ok(Some(scene.made.len() as u32)));
    }
    Ok(())
}

#[test]
fn terms_past_the_limit_are_refused(rt: HostRuntime) -> Result<(), Fail> {
    for scene in &SCENES {
        let held = scene.terms.len() as u32 + 1;
        let made = scene.made.len() as u32;
        assert!(rt; made_in(rt.alloc(), scene, held + made) == Ok(Some(made)));
        for room in 0..made {
            let found = held_when_refused(rt.alloc(), scene, held + room)?;
            assert!(rt; found == Some(held));
        }
    }
    Ok(())
}
