// The operators without an index.

ghost use Rattle.std.specs.Prelude.{◌≡◌, ◌<◌};
ghost use Rattle.smt_terms.specs.Operators.{code_of};

use std::hash::{Hash, Hasher};

/// An operator of the theories Core, FixedSizeBitVectors and ArraysEx that has no index, or `Witness`, which gives the
/// least index at which two arrays differ.
#[derive(Clone, Copy, Debug)]
pub enum Operator {
    True,
    False,
    Not,
    And,
    Or,
    Xor,
    Implies,
    Ite,
    Equal,
    Bvnot,
    Bvneg,
    Bvadd,
    Bvsub,
    Bvmul,
    Bvand,
    Bvor,
    Bvxor,
    Bvnand,
    Bvnor,
    Bvxnor,
    Bvudiv,
    Bvurem,
    Bvsdiv,
    Bvsrem,
    Bvsmod,
    Bvshl,
    Bvlshr,
    Bvashr,
    Bvult,
    Bvule,
    Bvugt,
    Bvuge,
    Bvslt,
    Bvsle,
    Bvsgt,
    Bvsge,
    Bvcomp,
    Concat,
    Select,
    Store,
    Witness,
}

impl Operator {
    /// A number of its own for each operator, below 64.
    pub fn code(self) -> u8
        ensures { result ≡ code_of self }
    {
        match self {
            Operator::True => 0,
            Operator::False => 1,
            Operator::Not => 2,
            Operator::And => 3,
            Operator::Or => 4,
            Operator::Xor => 5,
            Operator::Implies => 6,
            Operator::Ite => 7,
            Operator::Equal => 8,
            Operator::Bvnot => 9,
            Operator::Bvneg => 10,
            Operator::Bvadd => 11,
            Operator::Bvsub => 12,
            Operator::Bvmul => 13,
            Operator::Bvand => 14,
            Operator::Bvor => 15,
            Operator::Bvxor => 16,
            Operator::Bvnand => 17,
            Operator::Bvnor => 18,
            Operator::Bvxnor => 19,
            Operator::Bvudiv => 20,
            Operator::Bvurem => 21,
            Operator::Bvsdiv => 22,
            Operator::Bvsrem => 23,
            Operator::Bvsmod => 24,
            Operator::Bvshl => 25,
            Operator::Bvlshr => 26,
            Operator::Bvashr => 27,
            Operator::Bvult => 28,
            Operator::Bvule => 29,
            Operator::Bvugt => 30,
            Operator::Bvuge => 31,
            Operator::Bvslt => 32,
            Operator::Bvsle => 33,
            Operator::Bvsgt => 34,
            Operator::Bvsge => 35,
            Operator::Bvcomp => 36,
            Operator::Concat => 37,
            Operator::Select => 38,
            Operator::Store => 39,
            Operator::Witness => 40,
        }
    }
}

impl PartialEq for Operator {
    ghost use Rattle.smt_terms.specs.Operators.{same_operator, operator_equivalence};
    ghost use Rattle.std.specs.Cmp.{partial_equiv_from_equiv};

    ghost eq = { same_operator };

    ghost laws = { partial_equiv_from_equiv operator_equivalence };

    fn eq(&self, other: &Operator) -> bool {
        self.code() == other.code()
    }
}

impl Eq for Operator {
    ghost use Rattle.smt_terms.specs.Operators.{operator_equivalence};

    ghost laws = { operator_equivalence };
}

impl Hash for Operator {
    ghost use Rattle.smt_terms.specs.Operators.{operator_input, operator_respects};

    ghost hash_input = { operator_input };

    ghost respects_eq = { operator_respects };

    fn hash<H: Hasher>(&self, state: &mut H) {
        state.write_u8(self.code());
    }
}
