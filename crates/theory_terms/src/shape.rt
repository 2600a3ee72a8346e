// What terms are to functions and arrays.

ghost use Rattle.std.specs.Prelude.{◌≡◌};
ghost use Rattle.theory_terms.specs.Shapes.{shape_of, operator_shape, filling, shape_at};

use smt_terms::node::{Node, Op, TermId};
use smt_terms::operator::Operator;
use smt_terms::sort::{DeclId, Sort};
use smt_terms::terms::Terms;

/// What a term is, with its arguments.
#[derive(Clone, Copy, Debug)]
pub enum Shape {
    /// An element of an array.
    Selecting {
        array: TermId,
        index: TermId,
    },
    /// An array with one element changed.
    Storing {
        array: TermId,
        index: TermId,
        value: TermId,
    },
    /// The array that has this element everywhere.
    Filling {
        element: TermId,
    },
    /// One of two terms of one sort.
    Choosing {
        condition: TermId,
        yes: TermId,
        no: TermId,
    },
    /// An equality of two terms of one sort.
    Equating {
        left: TermId,
        right: TermId,
    },
    /// The witness of two arrays.
    Witnessing {
        left: TermId,
        right: TermId,
    },
    /// An application of a declared function.
    Applying {
        declaration: DeclId,
    },
    /// A declared constant.
    Declaring {
        declaration: DeclId,
        sort: Sort,
    },
    /// Any other term.
    Other,
}

fn filling(args: &[TermId]) -> Shape
    ensures { result ≡ filling args.now }
{
    match args {
        [element] => Shape::Filling { element: *element },
        _ => Shape::Other,
    }
}

fn operator_shape(operator: Operator, args: &[TermId]) -> Shape
    ensures { result ≡ operator_shape operator args.now }
{
    match operator {
        Operator::Select => match args {
            [array, index] => Shape::Selecting {
                array: *array,
                index: *index,
            },
            _ => Shape::Other,
        },
        Operator::Store => match args {
            [array, index, value] => Shape::Storing {
                array: *array,
                index: *index,
                value: *value,
            },
            _ => Shape::Other,
        },
        Operator::Ite => match args {
            [condition, yes, no] => Shape::Choosing {
                condition: *condition,
                yes: *yes,
                no: *no,
            },
            _ => Shape::Other,
        },
        Operator::Equal => match args {
            [left, right] => Shape::Equating {
                left: *left,
                right: *right,
            },
            _ => Shape::Other,
        },
        Operator::Witness => match args {
            [left, right] => Shape::Witnessing {
                left: *left,
                right: *right,
            },
            _ => Shape::Other,
        },
        _ => Shape::Other,
    }
}

/// What a node is.
pub fn shape_of(node: &Node) -> Shape
    ensures { result ≡ shape_of node.now.op node.now.args }
{
    match &node.op {
        Op::Plain(operator) => operator_shape(*operator, node.args.as_slice()),
        Op::ConstantArray(_) => filling(node.args.as_slice()),
        Op::Constant { declaration, sort } => Shape::Declaring {
            declaration: *declaration,
            sort: *sort,
        },
        Op::Apply { declaration, .. } => Shape::Applying {
            declaration: *declaration,
        },
        _ => Shape::Other,
    }
}

/// What a term is; a number of no term is no application, access or comparison.
pub fn shape_at(terms: &Terms, term: TermId) -> Shape
    ensures { result ≡ shape_at terms.now.nodes term }
{
    if term < terms.len() {
        shape_of(terms.node(term))
    } else {
        Shape::Other
    }
}
