// The operators that scripts name, and the names that nothing can be declared with.

ghost use Rattle.std.specs.Prelude.{◌≡◌, map};
ghost use Rattle.std.specs.List.{list_any};
ghost use Rattle.std.specs.Str.{bytes_eq};
ghost use Rattle.smt_build.specs.Operators.{look_up, operator_named, is_reserved};

use smt_terms::operator::Operator;

/// How many arguments the standard gives an operator.
#[derive(Clone, Copy, Debug)]
pub enum Arity {
    /// As many as its rank says.
    Ranked,
    /// Two or more of one sort, grouped from the left.
    LeftAssociative,
    /// Two or more of one sort, grouped from the right.
    RightAssociative,
    /// Two or more of one sort, holding of each two neighbours.
    Chainable,
    /// Two or more of one sort, holding of no two of them.
    Pairwise,
    /// Two or more words, joined from the left.
    Joining,
}

/// Operators with indices.
#[derive(Clone, Copy, Debug)]
pub enum Family {
    Extract,
    ZeroExtend,
    SignExtend,
    RotateLeft,
    RotateRight,
    Repeat,
}

/// What an operator's name stands for.
#[derive(Clone, Copy, Debug)]
pub enum Named {
    /// An operator on so many arguments.
    Applies(Operator, Arity),
    /// An operator with indices.
    Indexed(Family),
}

/// The names of the operators of Core, FixedSizeBitVectors and ArraysEx.
const OPERATORS: [(&[u8], Named); 47] = [
    (b"true", Named::Applies(Operator::True, Arity::Ranked)),
    (b"false", Named::Applies(Operator::False, Arity::Ranked)),
    (b"not", Named::Applies(Operator::Not, Arity::Ranked)),
    (
        b"and",
        Named::Applies(Operator::And, Arity::LeftAssociative),
    ),
    (b"or", Named::Applies(Operator::Or, Arity::LeftAssociative)),
    (
        b"xor",
        Named::Applies(Operator::Xor, Arity::LeftAssociative),
    ),
    (
        b"=>",
        Named::Applies(Operator::Implies, Arity::RightAssociative),
    ),
    (b"ite", Named::Applies(Operator::Ite, Arity::Ranked)),
    (b"=", Named::Applies(Operator::Equal, Arity::Chainable)),
    (
        b"distinct",
        Named::Applies(Operator::Equal, Arity::Pairwise),
    ),
    (b"bvnot", Named::Applies(Operator::Bvnot, Arity::Ranked)),
    (b"bvneg", Named::Applies(Operator::Bvneg, Arity::Ranked)),
    (
        b"bvadd",
        Named::Applies(Operator::Bvadd, Arity::LeftAssociative),
    ),
    (b"bvsub", Named::Applies(Operator::Bvsub, Arity::Ranked)),
    (
        b"bvmul",
        Named::Applies(Operator::Bvmul, Arity::LeftAssociative),
    ),
    (
        b"bvand",
        Named::Applies(Operator::Bvand, Arity::LeftAssociative),
    ),
    (
        b"bvor",
        Named::Applies(Operator::Bvor, Arity::LeftAssociative),
    ),
    (
        b"bvxor",
        Named::Applies(Operator::Bvxor, Arity::LeftAssociative),
    ),
    (b"bvnand", Named::Applies(Operator::Bvnand, Arity::Ranked)),
    (b"bvnor", Named::Applies(Operator::Bvnor, Arity::Ranked)),
    (b"bvxnor", Named::Applies(Operator::Bvxnor, Arity::Ranked)),
    (b"bvudiv", Named::Applies(Operator::Bvudiv, Arity::Ranked)),
    (b"bvurem", Named::Applies(Operator::Bvurem, Arity::Ranked)),
    (b"bvsdiv", Named::Applies(Operator::Bvsdiv, Arity::Ranked)),
    (b"bvsrem", Named::Applies(Operator::Bvsrem, Arity::Ranked)),
    (b"bvsmod", Named::Applies(Operator::Bvsmod, Arity::Ranked)),
    (b"bvshl", Named::Applies(Operator::Bvshl, Arity::Ranked)),
    (b"bvlshr", Named::Applies(Operator::Bvlshr, Arity::Ranked)),
    (b"bvashr", Named::Applies(Operator::Bvashr, Arity::Ranked)),
    (b"bvult", Named::Applies(Operator::Bvult, Arity::Ranked)),
    (b"bvule", Named::Applies(Operator::Bvule, Arity::Ranked)),
    (b"bvugt", Named::Applies(Operator::Bvugt, Arity::Ranked)),
    (b"bvuge", Named::Applies(Operator::Bvuge, Arity::Ranked)),
    (b"bvslt", Named::Applies(Operator::Bvslt, Arity::Ranked)),
    (b"bvsle", Named::Applies(Operator::Bvsle, Arity::Ranked)),
    (b"bvsgt", Named::Applies(Operator::Bvsgt, Arity::Ranked)),
    (b"bvsge", Named::Applies(Operator::Bvsge, Arity::Ranked)),
    (b"bvcomp", Named::Applies(Operator::Bvcomp, Arity::Ranked)),
    (b"concat", Named::Applies(Operator::Concat, Arity::Joining)),
    (b"extract", Named::Indexed(Family::Extract)),
    (b"zero_extend", Named::Indexed(Family::ZeroExtend)),
    (b"sign_extend", Named::Indexed(Family::SignExtend)),
    (b"rotate_left", Named::Indexed(Family::RotateLeft)),
    (b"rotate_right", Named::Indexed(Family::RotateRight)),
    (b"repeat", Named::Indexed(Family::Repeat)),
    (b"select", Named::Applies(Operator::Select, Arity::Ranked)),
    (b"store", Named::Applies(Operator::Store, Arity::Ranked)),
];

/// The reserved words.
const RESERVED: [&[u8]; 43] = [
    b"_",
    b"!",
    b"as",
    b"exists",
    b"forall",
    b"let",
    b"match",
    b"par",
    b"BINARY",
    b"DECIMAL",
    b"HEXADECIMAL",
    b"NUMERAL",
    b"STRING",
    b"assert",
    b"check-sat",
    b"check-sat-assuming",
    b"declare-const",
    b"declare-datatype",
    b"declare-datatypes",
    b"declare-fun",
    b"declare-sort",
    b"define-fun",
    b"define-fun-rec",
    b"define-funs-rec",
    b"define-sort",
    b"echo",
    b"exit",
    b"get-assertions",
    b"get-assignment",
    b"get-info",
    b"get-model",
    b"get-option",
    b"get-proof",
    b"get-unsat-assumptions",
    b"get-unsat-core",
    b"get-value",
    b"pop",
    b"push",
    b"reset",
    b"reset-assertions",
    b"set-info",
    b"set-logic",
    b"set-option",
];

fn look_up(mut entries: &[(&[u8], Named)], name: &[u8]) -> Option<Named>
    ensures { result ≡ look_up (map (λ entry. (entry.0.now, entry.1)) entries.entry.now) name.now }
{
    while let [entry, rest @ ..] = entries {
        if name == entry.0 {
            return Some(entry.1);
        }
        entries = rest;
    }
    None
}

/// What the name of an operator stands for; `None` for any other name.
pub fn operator_named(name: &[u8]) -> Option<Named>
    ensures { result ≡ operator_named name.now }
{
    look_up(&OPERATORS, name)
}

fn is_among(names: &[&[u8]], name: &[u8]) -> bool
    ensures { result ≡ list_any (bytes_eq name.now) (map (λ n. n.now) names.now) }
{
    for n in names {
        if name == *n {
            return true;
        }
    }
    false
}

/// Whether nothing can be declared with the name: it is a reserved word or an operator's.
pub fn is_reserved(name: &[u8]) -> bool
    ensures { result ≡ is_reserved name.now }
{
    is_among(&RESERVED, name) || operator_named(name).is_some()
}
