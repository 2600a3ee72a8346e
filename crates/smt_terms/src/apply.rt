// What an operator gives for truth values and words.

ghost use Rattle.smt_terms.specs.Ranks.{is_word};
ghost use Rattle.std.specs.Prelude.{◌≡◌, ◌≢◌, [], ◌∷◌, map, true};
ghost use Rattle.smt_terms.specs.declared.sort.Sort.TheVariants as sort;
ghost use Rattle.smt_terms.specs.declared.operator.Operator.TheVariants as plain;
ghost use Rattle.smt_terms.specs.declared.node.Op.TheVariants.{Plain, Word as OpWord, Extract, ZeroExtend, SignExtend, RotateLeft, RotateRight, Repeat};
ghost use Rattle.smt_terms.specs.Values.{VBool, VWord};
ghost use Rattle.smt_terms.specs.Scalars.{Gives, scalar_sort, scalar_value, is_fixed, is_indexed};

use crate::node::Op;
use crate::operator::Operator;
use crate::scalar::Scalar;
use smt_words::Word;

fn of_none(operator: Operator) -> Option<Scalar>
    ensures { Gives (Plain operator) [] [] result }
{
    match operator {
        Operator::True => Some(Scalar::Bool(true)),
        Operator::False => Some(Scalar::Bool(false)),
        _ => None,
    }
}

fn of_truth(operator: Operator, a: bool) -> Option<Scalar>
    ensures { Gives (Plain operator) (sort.Bool ∷ []) (VBool a ∷ []) result }
{
    match operator {
        Operator::Not => Some(Scalar::Bool(!a)),
        _ => None,
    }
}

fn of_truths(operator: Operator, a: bool, b: bool) -> Option<Scalar>
    ensures { Gives (Plain operator) (sort.Bool ∷ sort.Bool ∷ []) (VBool a ∷ VBool b ∷ []) result }
{
    match operator {
        Operator::And => Some(Scalar::Bool(a && b)),
        Operator::Or => Some(Scalar::Bool(a || b)),
        Operator::Xor => Some(Scalar::Bool(a != b)),
        Operator::Implies => Some(Scalar::Bool(!a || b)),
        Operator::Equal => Some(Scalar::Bool(a == b)),
        _ => None,
    }
}

fn of_word(operator: Operator, a: Word) -> Option<Scalar>
    ensures { Gives (Plain operator) (sort.Word a.width ∷ []) (VWord a.width a.value ∷ []) result }
{
    match operator {
        Operator::Bvnot => Some(Scalar::Word(a.bvnot())),
        Operator::Bvneg => Some(Scalar::Word(a.bvneg())),
        _ => None,
    }
}

fn concat(a: Word, b: Word) -> Option<Scalar>
    ensures { Gives (Plain plain.Concat) (sort.Word a.width ∷ sort.Word b.width ∷ [])
        (VWord a.width a.value ∷ VWord b.width b.value ∷ []) result }
{
    if a.width() + b.width() <= 128 {
        Some(Scalar::Word(a.concat(b)))
    } else {
        None
    }
}

fn of_words(operator: Operator, a: Word, b: Word) -> Option<Scalar>
    requires { a.width ≡ b.width }
    ensures { Gives (Plain operator) (sort.Word a.width ∷ sort.Word b.width ∷ [])
        (VWord a.width a.value ∷ VWord b.width b.value ∷ []) result }
{
    let word = match operator {
        Operator::Bvadd => a.bvadd(b),
        Operator::Bvsub => a.bvsub(b),
        Operator::Bvmul => a.bvmul(b),
        Operator::Bvand => a.bvand(b),
        Operator::Bvor => a.bvor(b),
        Operator::Bvxor => a.bvxor(b),
        Operator::Bvnand => a.bvnand(b),
        Operator::Bvnor => a.bvnor(b),
        Operator::Bvxnor => a.bvxnor(b),
        Operator::Bvudiv => a.bvudiv(b),
        Operator::Bvurem => a.bvurem(b),
        Operator::Bvsdiv => a.bvsdiv(b),
        Operator::Bvsrem => a.bvsrem(b),
        Operator::Bvsmod => a.bvsmod(b),
        Operator::Bvshl => a.bvshl(b),
        Operator::Bvlshr => a.bvlshr(b),
        Operator::Bvashr => a.bvashr(b),
        Operator::Bvcomp => a.bvcomp(b),
        Operator::Concat => return concat(a, b),
        Operator::Bvult => return Some(Scalar::Bool(a.bvult(b))),
        Operator::Bvule => return Some(Scalar::Bool(a.bvule(b))),
        Operator::Bvugt => return Some(Scalar::Bool(a.bvugt(b))),
        Operator::Bvuge => return Some(Scalar::Bool(a.bvuge(b))),
        Operator::Bvslt => return Some(Scalar::Bool(a.bvslt(b))),
        Operator::Bvsle => return Some(Scalar::Bool(a.bvsle(b))),
        Operator::Bvsgt => return Some(Scalar::Bool(a.bvsgt(b))),
        Operator::Bvsge => return Some(Scalar::Bool(a.bvsge(b))),
        Operator::Equal => return Some(Scalar::Bool(a == b)),
        _ => return None,
    };
    Some(Scalar::Word(word))
}

fn of_other_words(operator: Operator, a: Word, b: Word) -> Option<Scalar>
    requires { a.width ≢ b.width }
    ensures { Gives (Plain operator) (sort.Word a.width ∷ sort.Word b.width ∷ [])
        (VWord a.width a.value ∷ VWord b.width b.value ∷ []) result }
{
    match operator {
        Operator::Concat => concat(a, b),
        _ => None,
    }
}

fn of_two(operator: Operator, a: Scalar, b: Scalar) -> Option<Scalar>
    ensures { Gives (Plain operator) (scalar_sort a ∷ scalar_sort b ∷ [])
        (scalar_value a ∷ scalar_value b ∷ []) result }
{
    match a {
        Scalar::Bool(x) => match b {
            Scalar::Bool(y) => of_truths(operator, x, y),
            Scalar::Word(_) => of_unlike(operator, a, b),
        },
        Scalar::Word(x) => match b {
            Scalar::Bool(_) => of_unlike(operator, a, b),
            Scalar::Word(y) => {
                if x.width() == y.width() {
                    of_words(operator, x, y)
                } else {
                    of_other_words(operator, x, y)
                }
            }
        },
    }
}

fn of_three(operator: Operator, a: Scalar, b: Scalar, c: Scalar) -> Option<Scalar>
    ensures { Gives (Plain operator) (scalar_sort a ∷ scalar_sort b ∷ scalar_sort c ∷ [])
        (scalar_value a ∷ scalar_value b ∷ scalar_value c ∷ []) result }
{
    match operator {
        Operator::Ite => choice(a, b, c),
        _ => None,
    }
}

fn choice(condition: Scalar, a: Scalar, b: Scalar) -> Option<Scalar>
    ensures { Gives (Plain plain.Ite) (scalar_sort condition ∷ scalar_sort a ∷ scalar_sort b ∷ [])
        (scalar_value condition ∷ scalar_value a ∷ scalar_value b ∷ []) result }
{
    match condition {
        Scalar::Bool(holds) => {
            if a.sort() == b.sort() {
                Some(if holds { a } else { b })
            } else {
                None
            }
        }
        Scalar::Word(_) => None,
    }
}

/// A truth value beside a word.
fn of_unlike(operator: Operator, a: Scalar, b: Scalar) -> Option<Scalar>
    requires { is_word (scalar_sort a) ≢ is_word (scalar_sort b) }
    ensures { Gives (Plain operator) (scalar_sort a ∷ scalar_sort b ∷ [])
        (scalar_value a ∷ scalar_value b ∷ []) result }
{
    None
}

fn apply_operator(operator: Operator, args: &[Scalar]) -> Option<Scalar>
    ensures { Gives (Plain operator) (map scalar_sort args.now) (map scalar_value args.now) result }
{
    match args {
        [] => of_none(operator),
        [a] => of_one(operator, *a),
        [a, b] => of_two(operator, *a, *b),
        [a, b, c] => of_three(operator, *a, *b, *c),
        _ => None,
    }
}

fn of_one(operator: Operator, a: Scalar) -> Option<Scalar>
    ensures { Gives (Plain operator) (scalar_sort a ∷ []) (scalar_value a ∷ []) result }
{
    match a {
        Scalar::Bool(holds) => of_truth(operator, holds),
        Scalar::Word(word) => of_word(operator, word),
    }
}

fn extracted(high: u64, low: u64, a: Word) -> Option<Scalar>
    ensures { Gives (Extract high low) (sort.Word a.width ∷ []) (VWord a.width a.value ∷ [])
        result }
{
    if low <= high && high < u64::from(a.width()) {
        Some(Scalar::Word(Word::extract(high as u32, low as u32, a)))
    } else {
        None
    }
}

fn zero_extended(by: u64, a: Word) -> Option<Scalar>
    ensures { Gives (ZeroExtend by) (sort.Word a.width ∷ []) (VWord a.width a.value ∷ []) result }
{
    if by <= 128 && a.width() + by as u32 <= 128 {
        Some(Scalar::Word(Word::zero_extend(by as u32, a)))
    } else {
        None
    }
}

fn sign_extended(by: u64, a: Word) -> Option<Scalar>
    ensures { Gives (SignExtend by) (sort.Word a.width ∷ []) (VWord a.width a.value ∷ []) result }
{
    if by <= 128 && a.width() + by as u32 <= 128 {
        Some(Scalar::Word(Word::sign_extend(by as u32, a)))
    } else {
        None
    }
}

fn rotated_left(by: u64, a: Word) -> Option<Scalar>
    ensures { Gives (RotateLeft by) (sort.Word a.width ∷ []) (VWord a.width a.value ∷ []) result }
{
    let places = by % u64::from(a.width());
    Some(Scalar::Word(Word::rotate_left(places as u32, a)))
}

fn rotated_right(by: u64, a: Word) -> Option<Scalar>
    ensures { Gives (RotateRight by) (sort.Word a.width ∷ []) (VWord a.width a.value ∷ []) result }
{
    let places = by % u64::from(a.width());
    Some(Scalar::Word(Word::rotate_right(places as u32, a)))
}

fn repeated(copies: u64, a: Word) -> Option<Scalar>
    ensures { Gives (Repeat copies) (sort.Word a.width ∷ []) (VWord a.width a.value ∷ []) result }
{
    if 1 <= copies && copies <= 128 && a.width() * copies as u32 <= 128 {
        Some(Scalar::Word(Word::repeat(copies as u32, a)))
    } else {
        None
    }
}

/// An operator with an index, of one word.
fn of_indexed(op: &Op, a: Word) -> Option<Scalar>
    requires { is_indexed op.now ≡ true }
    ensures { Gives op.now (sort.Word a.width ∷ []) (VWord a.width a.value ∷ []) result }
{
    match op {
        Op::Extract { high, low } => extracted(*high, *low, a),
        Op::ZeroExtend(by) => zero_extended(*by, a),
        Op::SignExtend(by) => sign_extended(*by, a),
        Op::RotateLeft(by) => rotated_left(*by, a),
        Op::RotateRight(by) => rotated_right(*by, a),
        Op::Repeat(copies) => repeated(*copies, a),
        _ => None,
    }
}

fn apply_indexed(op: &Op, args: &[Scalar]) -> Option<Scalar>
    requires { is_indexed op.now ≡ true }
    ensures { Gives op.now (map scalar_sort args.now) (map scalar_value args.now) result }
{
    match args {
        [Scalar::Word(word)] => of_indexed(op, *word),
        _ => None,
    }
}

fn literal(width: u64, value: u128, args: &[Scalar]) -> Option<Scalar>
    ensures { Gives (OpWord width value) (map scalar_sort args.now) (map scalar_value args.now)
        result }
{
    if !args.is_empty() || width > 128 {
        return None;
    }
    Some(Scalar::Word(Word::new(width as u32, value)?))
}

/// What an operator of the theories or a literal gives for arguments of these values, in every interpretation; `None`
/// exactly where it does not take their sorts.
pub fn apply(op: &Op, args: &[Scalar]) -> Option<Scalar>
    requires { is_fixed op.now ≡ true }
    ensures { Gives op.now (map scalar_sort args.now) (map scalar_value args.now) result }
{
    match op {
        Op::Plain(operator) => apply_operator(*operator, args),
        Op::Word { width, value } => literal(*width, *value, args),
        _ => apply_indexed(op, args),
    }
}
