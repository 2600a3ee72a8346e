// How operators without a number are named.

ghost use Rattle.std.specs.Prelude.{◌≡◌};
ghost use Rattle.proof_text.specs.Operators.{name_of};

use smt_terms::operator::Operator;

/// The names of the operators without a number, by their codes.
pub(crate) const OPERATOR_NAMES: [(&[u8], Operator); 41] = [
    (b"true", Operator::True),
    (b"false", Operator::False),
    (b"not", Operator::Not),
    (b"and", Operator::And),
    (b"or", Operator::Or),
    (b"xor", Operator::Xor),
    (b"=>", Operator::Implies),
    (b"ite", Operator::Ite),
    (b"=", Operator::Equal),
    (b"bvnot", Operator::Bvnot),
    (b"bvneg", Operator::Bvneg),
    (b"bvadd", Operator::Bvadd),
    (b"bvsub", Operator::Bvsub),
    (b"bvmul", Operator::Bvmul),
    (b"bvand", Operator::Bvand),
    (b"bvor", Operator::Bvor),
    (b"bvxor", Operator::Bvxor),
    (b"bvnand", Operator::Bvnand),
    (b"bvnor", Operator::Bvnor),
    (b"bvxnor", Operator::Bvxnor),
    (b"bvudiv", Operator::Bvudiv),
    (b"bvurem", Operator::Bvurem),
    (b"bvsdiv", Operator::Bvsdiv),
    (b"bvsrem", Operator::Bvsrem),
    (b"bvsmod", Operator::Bvsmod),
    (b"bvshl", Operator::Bvshl),
    (b"bvlshr", Operator::Bvlshr),
    (b"bvashr", Operator::Bvashr),
    (b"bvult", Operator::Bvult),
    (b"bvule", Operator::Bvule),
    (b"bvugt", Operator::Bvugt),
    (b"bvuge", Operator::Bvuge),
    (b"bvslt", Operator::Bvslt),
    (b"bvsle", Operator::Bvsle),
    (b"bvsgt", Operator::Bvsgt),
    (b"bvsge", Operator::Bvsge),
    (b"bvcomp", Operator::Bvcomp),
    (b"concat", Operator::Concat),
    (b"select", Operator::Select),
    (b"store", Operator::Store),
    (b"witness", Operator::Witness),
];

/// The name of an operator.
pub fn operator_name(operator: Operator) -> &'static [u8]
    ensures { result.now ≡ name_of operator }
{
    OPERATOR_NAMES[operator.code() as usize].0
}
