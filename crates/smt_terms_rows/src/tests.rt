//! Calls with ample memory.

use cnf_base::Lit;
use smt_terms::bits::Bits;
use smt_terms::fault::{MakeError, MakeFault};
use smt_terms::list::{Arguments, Sorts};
use smt_terms::node::{Node, Op, TermId};
use smt_terms::operator::Operator;
use smt_terms::rank::node_sort;
use smt_terms::sort::{Signature, Sort};
use smt_terms::terms::Terms;
use std::test::Fail;

fn constant() -> Op {
    Op::Constant {
        declaration: 0,
        sort: Sort::Word(8),
    }
}

#[test]
fn a_refused_node_tells_its_first_fault(rt: HostRuntime) -> Result<(), Fail> {
    let mut terms = Terms::new(rt.alloc());
    let x = terms.make(Node::leaf(rt.alloc(), constant()));
    assert!(rt; x == Ok(0));
    let past = Op::Extract { high: 8, low: 0 };
    let args = Arguments::of(rt.alloc(), &[0])?;
    let made = terms.make(Node { op: past, args });
    assert!(rt; made == Err(MakeError::Fault(MakeFault::WrongSort(0))));
    let args = Arguments::of(rt.alloc(), &[0])?;
    let made = terms.make(Node {
        op: Op::ZeroExtend(121),
        args,
    });
    assert!(rt; made == Err(MakeError::Fault(MakeFault::WidthOutOfRange(129))));
    let args = Arguments::of(rt.alloc(), &[0])?;
    let made = terms.make(Node {
        op: Op::Plain(Operator::Not),
        args,
    });
    assert!(rt; made == Err(MakeError::Fault(MakeFault::WrongSort(0))));
    assert_eq!(rt; terms.len(), 1);
    Ok(())
}

#[test]
fn an_equal_node_keeps_its_number_and_a_cut_forgets_it(rt: HostRuntime) -> Result<(), Fail> {
    let mut terms = Terms::with_limit(rt.alloc(), 3);
    assert!(rt; terms.make(Node::leaf(rt.alloc(), constant())) == Ok(0));
    let args = Arguments::of(rt.alloc(), &[0, 0])?;
    let sum = Node {
        op: Op::Plain(Operator::Bvadd),
        args,
    };
    assert!(rt; terms.find(&sum) == None);
    assert!(rt; terms.make(sum.copy()?) == Ok(1));
    assert!(rt; terms.make(sum.copy()?) == Ok(1));
    assert!(rt; terms.find(&sum) == Some(1));
    assert!(rt;
        terms.make(Node::leaf(
            rt.alloc(),
            Op::Word {
                width: 8,
                value: 255
            }
        )) == Ok(2)
    );
    let full = terms.make(Node::leaf(rt.alloc(), Op::Plain(Operator::True)));
    assert!(rt; full == Err(MakeError::Fault(MakeFault::TermLimit)));
    assert!(rt; terms.make(sum.copy()?) == Ok(1));
    assert!(rt; terms.len() == 3);
    terms.cut(1);
    assert!(rt; terms.find(&sum) == None && terms.len() == 1);
    assert!(rt; terms.make(Node::leaf(rt.alloc(), Op::Plain(Operator::True))) == Ok(1));
    assert!(rt; terms.len() == 2);
    assert_eq!(rt; terms.sort(1), Sort::Bool);
    assert_eq!(rt; terms.sort(0), Sort::Word(8));
    assert!(rt; terms.node(1).args.as_slice().is_empty());
    Ok(())
}

#[test]
fn an_application_takes_the_sorts_of_its_signature(rt: HostRuntime) -> Result<(), Fail> {
    let held = [Sort::Bool, Sort::Word(8)];
    let sorts = Sorts::from_vec(Vec::from_array(rt.alloc(), [Sort::Word(8), Sort::Bool])?);
    let op = Op::Apply {
        declaration: 3,
        signature: Signature {
            args: sorts,
            value: Sort::Word(4),
        },
    };
    let good = Node {
        op: op.copy()?,
        args: Arguments::of(rt.alloc(), &[1, 0])?,
    };
    assert!(rt; node_sort(&held, &good) == Ok(Sort::Word(4)));
    let wrong = Node {
        op: op.copy()?,
        args: Arguments::of(rt.alloc(), &[1, 1])?,
    };
    assert!(rt; node_sort(&held, &wrong) == Err(MakeFault::WrongSort(1)));
    let missing = Node {
        op: op.copy()?,
        args: Arguments::of(rt.alloc(), &[1])?,
    };
    assert!(rt; node_sort(&held, &missing) == Err(MakeFault::WrongSort(1)));
    let much = Node {
        op,
        args: Arguments::of(rt.alloc(), &[1, 0, 0])?,
    };
    assert!(rt; node_sort(&held, &much) == Err(MakeFault::WrongSort(2)));
    assert!(rt; Sorts::none(rt.alloc()).as_slice().is_empty());
    Ok(())
}

/// An index width, the arguments over the held sorts, and what the array of one element everywhere is.
const FILLED: [(u64, &[TermId], Result<Sort, MakeFault>); 10] = [
    (4, &[1], Ok(Sort::Array(4, 8))),
    (1, &[1], Ok(Sort::Array(1, 8))),
    (128, &[1], Ok(Sort::Array(128, 8))),
    (0, &[1], Err(MakeFault::WidthOutOfRange(0))),
    (129, &[1], Err(MakeFault::WidthOutOfRange(129))),
    (0, &[0], Err(MakeFault::WrongSort(0))),
    (4, &[2], Err(MakeFault::WrongSort(0))),
    (4, &[3], Err(MakeFault::WrongSort(0))),
    (4, &[], Err(MakeFault::WrongSort(0))),
    (4, &[1, 1], Err(MakeFault::WrongSort(1))),
];

#[test]
fn a_constant_array_takes_one_word(rt: HostRuntime) -> Result<(), Fail> {
    let held = [Sort::Bool, Sort::Word(8), Sort::Array(4, 8)];
    for (index, args, sort) in FILLED {
        let node = Node {
            op: Op::ConstantArray(index),
            args: Arguments::of(rt.alloc(), args)?,
        };
        assert!(rt; node_sort(&held, &node) == sort);
    }
    assert!(rt; Op::ConstantArray(4) == Op::ConstantArray(4));
    assert!(rt; Op::ConstantArray(4) != Op::ConstantArray(5));
    assert!(rt; Op::ConstantArray(4) != Op::Repeat(4));
    Ok(())
}

#[test]
fn a_linked_term_has_the_bits_of_its_image(rt: HostRuntime) -> Result<(), Fail> {
    let mut bits = Bits::new(rt.alloc());
    let own = [Lit::new(2, true), Lit::new(3, false)];
    bits.set(5, &own)?;
    bits.link(1, 5)?;
    assert!(rt; bits.of(5) == Some(own.as_slice()));
    assert!(rt; bits.of(1) == Some(own.as_slice()));
    assert!(rt; bits.of(0) == None && bits.of(9) == None);
    assert!(rt; bits.image(1) == Some(5) && bits.image(5) == None);
    Ok(())
}
