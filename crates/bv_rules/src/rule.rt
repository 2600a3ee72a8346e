// The rules by their names.

ghost use Rattle.std.specs.Prelude.{◌≡◌, MatchOption};
ghost use Rattle.bv_rules.specs.declared.rule.Rule.{Rule};
ghost use Rattle.bv_rules.specs.Numbers.{number_of};

/// A rule by which a Bool or a word becomes another term of the same value. x and y are any terms, n is the width of
/// the word, 2^k a word with k from 1 to n - 1; the arguments of `bvand bvor bvxor bvadd bvmul and or` match in either
/// order.
#[derive(Clone, Copy, Debug, PartialEq, Eq)]
pub enum Rule {
    /// `bvnot (bvnot x)`: x.
    BvnotTwice,
    /// `bvneg (bvneg x)`: x.
    BvnegTwice,
    /// `bvand x x`: x.
    AndSame,
    /// `bvand x 0`: 0.
    AndZero,
    /// `bvand x ~0`: x.
    AndOnes,
    /// `bvor x x`: x.
    OrSame,
    /// `bvor x 0`: x.
    OrZero,
    /// `bvor x ~0`: ~0.
    OrOnes,
    /// `bvxor x x`: 0.
    XorSame,
    /// `bvxor x 0`: x.
    XorZero,
    /// `bvxor x ~0`: `bvnot x`.
    XorOnes,
    /// `bvadd x 0`: x.
    AddZero,
    /// `bvadd x (bvneg x)`: 0.
    AddOpposite,
    /// `bvsub x y`: `bvadd x (bvneg y)`.
    Subtract,
    /// `bvadd x x`: `bvshl x 1`.
    AddSame,
    /// `bvmul x 0`: 0.
    MultiplyZero,
    /// `bvmul x 1`: x.
    MultiplyOne,
    /// `bvmul x 2^k`: `bvshl x k`.
    MultiplyPower,
    /// `bvudiv x 1`: x.
    DivideOne,
    /// `bvudiv x 0`: ~0.
    DivideZero,
    /// `bvudiv x 2^k`: `bvlshr x k`.
    DividePower,
    /// `bvurem x 0`: x.
    RemainderZero,
    /// `bvurem x 1`: 0.
    RemainderOne,
    /// `bvurem x 2^k`: `bvand x (2^k - 1)`.
    RemainderPower,
    /// `bvshl`, `bvlshr`, `bvashr` of x by 0: x.
    ShiftZero,
    /// `bvshl`, `bvlshr` of x by n or more: 0.
    ShiftPast,
    /// `extract (n-1) 0 x`: x.
    ExtractAll,
    /// `extract i j (extract k l x)`: `extract (i+l) (j+l) x`.
    ExtractExtract,
    /// `extract i j (concat x y)`, y of m bits: `extract i j y` where i < m, `extract (i-m) (j-m) x` where j >= m.
    ExtractConcat,
    /// `zero_extend 0`, `sign_extend 0`, `repeat 1`, a rotation by a multiple of n: x.
    Idle,
    /// `bvult x x`, `bvult x 0`: false.
    Less,
    /// `bvule x x`, `bvule 0 x`: true.
    AtMost,
    /// `bvugt bvuge bvsgt bvsge` of x, y: `bvult bvule bvslt bvsle` of y, x.
    Greater,
    /// `= x x`: true, at every sort.
    EqualSame,
    /// `not (not p)`: p.
    NotTwice,
    /// `and p p`, `and p true`, `or p p`, `or p false`: p; `and p false`: false; `or p true`: true.
    Connective,
    /// `ite true x y`: x; `ite false x y`: y; `ite c x x`: x.
    Choice,
    /// `select (store a i v) i`: v; `select (store a i v) j`: `select a j` where i and j are different words.
    SelectStore,
    /// A theory's operator whose arguments, one at least, are all `true`, `false` or words: its value.
    Fold,
    /// The same operator, on arguments that are the same or are reached by earlier images.
    Inner,
}

impl Rule {
    /// The rule's number, from 1 to 40.
    pub fn number(self) -> u8
        ensures { result ≡ number_of self }
    {
        match self {
            Rule::BvnotTwice => 1,
            Rule::BvnegTwice => 2,
            Rule::AndSame => 3,
            Rule::AndZero => 4,
            Rule::AndOnes => 5,
            Rule::OrSame => 6,
            Rule::OrZero => 7,
            Rule::OrOnes => 8,
            Rule::XorSame => 9,
            Rule::XorZero => 10,
            Rule::XorOnes => 11,
            Rule::AddZero => 12,
            Rule::AddOpposite => 13,
            Rule::Subtract => 14,
            Rule::AddSame => 15,
            Rule::MultiplyZero => 16,
            Rule::MultiplyOne => 17,
            Rule::MultiplyPower => 18,
            Rule::DivideOne => 19,
            Rule::DivideZero => 20,
            Rule::DividePower => 21,
            Rule::RemainderZero => 22,
            Rule::RemainderOne => 23,
            Rule::RemainderPower => 24,
            Rule::ShiftZero => 25,
            Rule::ShiftPast => 26,
            Rule::ExtractAll => 27,
            Rule::ExtractExtract => 28,
            Rule::ExtractConcat => 29,
            Rule::Idle => 30,
            Rule::Less => 31,
            Rule::AtMost => 32,
            Rule::Greater => 33,
            Rule::EqualSame => 34,
            Rule::NotTwice => 35,
            Rule::Connective => 36,
            Rule::Choice => 37,
            Rule::SelectStore => 38,
            Rule::Fold => 39,
            Rule::Inner => 40,
        }
    }

    /// The rule of a number; `None` exactly where no rule has it.
    pub fn numbered(number: u64) -> Option<Rule>
        ensures { MatchOption result ((rule : Rule) → number_of rule ≡ number → ⊥)
            (λ rule. number_of rule ≡ number) }
    {
        let rule = match number {
            1 => Rule::BvnotTwice,
            2 => Rule::BvnegTwice,
            3 => Rule::AndSame,
            4 => Rule::AndZero,
            5 => Rule::AndOnes,
            6 => Rule::OrSame,
            7 => Rule::OrZero,
            8 => Rule::OrOnes,
            9 => Rule::XorSame,
            10 => Rule::XorZero,
            11 => Rule::XorOnes,
            12 => Rule::AddZero,
            13 => Rule::AddOpposite,
            14 => Rule::Subtract,
            15 => Rule::AddSame,
            16 => Rule::MultiplyZero,
            17 => Rule::MultiplyOne,
            18 => Rule::MultiplyPower,
            19 => Rule::DivideOne,
            20 => Rule::DivideZero,
            21 => Rule::DividePower,
            22 => Rule::RemainderZero,
            23 => Rule::RemainderOne,
            24 => Rule::RemainderPower,
            25 => Rule::ShiftZero,
            26 => Rule::ShiftPast,
            27 => Rule::ExtractAll,
            28 => Rule::ExtractExtract,
            29 => Rule::ExtractConcat,
            30 => Rule::Idle,
            31 => Rule::Less,
            32 => Rule::AtMost,
            33 => Rule::Greater,
            34 => Rule::EqualSame,
            35 => Rule::NotTwice,
            36 => Rule::Connective,
            37 => Rule::Choice,
            38 => Rule::SelectStore,
            39 => Rule::Fold,
            40 => Rule::Inner,
            _ => return None,
        };
        Some(rule)
    }
}
