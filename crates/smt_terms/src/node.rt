// Nodes of terms.

ghost use Rattle.std.specs.Prelude.{◌≡◌, IfOk};
ghost use Rattle.smt_terms.specs.Nodes.{leaf};
ghost use Rattle.smt_terms.specs.Same.{tag_of};

use crate::list::Arguments;
use crate::operator::Operator;
use crate::sort::{DeclId, Signature, Sort};
use std::alloc::{AllocError, Global};
use std::hash::{Hash, Hasher};

/// The number of a term: its place in the list of terms.
pub type TermId = u32;

/// What a term is made by. Indexes stand as they were given, so that a fault can tell them.
#[derive(Clone, Debug, Drop)]
pub enum Op {
    /// An operator without an index.
    Plain(Operator),
    /// A literal, `(_ bvX n)`.
    Word {
        width: u64,
        value: u128,
    },
    /// The bits from `low` to `high`.
    Extract {
        high: u64,
        low: u64,
    },
    /// So many bits 0 on top.
    ZeroExtend(u64),
    /// So many copies of the sign bit on top.
    SignExtend(u64),
    /// A rotation towards the high bits.
    RotateLeft(u64),
    /// A rotation towards the low bits.
    RotateRight(u64),
    /// So many copies.
    Repeat(u64),
    /// The array with indexes of this width that has one element everywhere.
    ConstantArray(u64),
    /// A declared constant, with its sort.
    Constant {
        declaration: DeclId,
        sort: Sort,
    },
    /// The application of a declared function, with its signature.
    Apply {
        declaration: DeclId,
        signature: Signature,
    },
    /// The parameter of a definition at this place, with its sort. Its value is zero.
    Param {
        place: u32,
        sort: Sort,
    },
}

/// An operator and the terms that it is applied to.
#[derive(Clone, Debug, Drop)]
pub struct Node {
    pub op: Op,
    pub args: Arguments,
}

impl Op {
    // A number of its own for each kind of operator. That of an operator without an index is below 64.
    fn tag(&self) -> u8
        ensures { result ≡ tag_of self.now }
    {
        match self {
            Op::Plain(operator) => operator.code(),
            Op::Word { .. } => 64,
            Op::Extract { .. } => 65,
            Op::ZeroExtend(_) => 66,
            Op::SignExtend(_) => 67,
            Op::RotateLeft(_) => 68,
            Op::RotateRight(_) => 69,
            Op::Repeat(_) => 70,
            Op::Constant { .. } => 71,
            Op::Apply { .. } => 72,
            Op::Param { .. } => 73,
            Op::ConstantArray(_) => 74,
        }
    }
}

impl PartialEq for Op {
    ghost use Rattle.smt_terms.specs.Same.{same_op, op_equivalence};
    ghost use Rattle.std.specs.Cmp.{partial_equiv_from_equiv};

    ghost eq = { same_op };

    ghost laws = { partial_equiv_from_equiv op_equivalence };

    fn eq(&self, other: &Op) -> bool {
        match self {
            Op::Plain(a) => matches!(other, Op::Plain(b) if a == b),
            Op::Word { width: n, value: x } => {
                matches!(other, Op::Word { width: m, value: y } if n == m && x == y)
            }
            Op::Extract { high: i, low: j } => {
                matches!(other, Op::Extract { high: k, low: l } if i == k && j == l)
            }
            Op::ZeroExtend(i) => matches!(other, Op::ZeroExtend(j) if i == j),
            Op::SignExtend(i) => matches!(other, Op::SignExtend(j) if i == j),
            Op::RotateLeft(i) => matches!(other, Op::RotateLeft(j) if i == j),
            Op::RotateRight(i) => matches!(other, Op::RotateRight(j) if i == j),
            Op::Repeat(i) => matches!(other, Op::Repeat(j) if i == j),
            Op::ConstantArray(i) => matches!(other, Op::ConstantArray(j) if i == j),
            Op::Constant {
                declaration: c,
                sort: s,
            } => { matches!(other, Op::Constant { declaration: d, sort: t } if c == d && s == t) }
            Op::Apply {
                declaration: c,
                signature: s,
            } => { matches!(other, Op::Apply { declaration: d, signature: t } if c == d && s == t) }
            Op::Param { place: c, sort: s } => {
                matches!(other, Op::Param { place: d, sort: t } if c == d && s == t)
            }
        }
    }
}

impl Eq for Op {
    ghost use Rattle.smt_terms.specs.Same.{op_equivalence};

    ghost laws = { op_equivalence };
}

impl Hash for Op {
    ghost use Rattle.smt_terms.specs.Same.{op_input, op_respects};

    ghost hash_input = { op_input };

    ghost respects_eq = { op_respects };

    fn hash<H: Hasher>(&self, state: &mut H) {
        state.write_u8(self.tag());
        match self {
            Op::Plain(_) => {}
            Op::Word { width, value } => {
                width.hash(state);
                value.hash(state);
            }
            Op::Extract { high, low } => {
                high.hash(state);
                low.hash(state);
            }
            Op::ZeroExtend(index)
            | Op::SignExtend(index)
            | Op::RotateLeft(index)
            | Op::RotateRight(index)
            | Op::Repeat(index)
            | Op::ConstantArray(index) => index.hash(state),
            Op::Constant { declaration, .. } | Op::Apply { declaration, .. } => {
                declaration.hash(state)
            }
            Op::Param { place, .. } => place.hash(state),
        }
    }
}

impl PartialEq for Node {
    ghost use Rattle.smt_terms.specs.Same.{same_node, node_equivalence};
    ghost use Rattle.std.specs.Cmp.{partial_equiv_from_equiv};

    ghost eq = { same_node };

    ghost laws = { partial_equiv_from_equiv node_equivalence };

    fn eq(&self, other: &Node) -> bool {
        self.op == other.op && self.args == other.args
    }
}

impl Eq for Node {
    ghost use Rattle.smt_terms.specs.Same.{node_equivalence};

    ghost laws = { node_equivalence };
}

impl Hash for Node {
    ghost use Rattle.smt_terms.specs.Same.{node_input, node_respects};

    ghost hash_input = { node_input };

    ghost respects_eq = { node_respects };

    fn hash<H: Hasher>(&self, state: &mut H) {
        self.op.hash(state);
        self.args.hash(state);
    }
}

impl Op {
    /// An equal operator.
    pub fn copy(&self) -> Result<Op, AllocError>
        ensures { IfOk result (λ op. op ≡ self.now) }
    {
        self.clone()
    }
}

impl Node {
    /// A node without arguments; takes no memory.
    pub fn leaf(alloc: Global, op: Op) -> Node
        ensures { result ≡ leaf op }
    {
        Node {
            op,
            args: Arguments::none(alloc),
        }
    }

    /// An equal node.
    pub fn copy(&self) -> Result<Node, AllocError>
        ensures { IfOk result (λ node. node ≡ self.now) }
    {
        self.clone()
    }
}
