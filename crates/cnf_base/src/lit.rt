//! Literals.

ghost use Rattle.std.specs.Prelude.{◌≡◌, ◌<◌, ◌≤◌, ◌^◌};
ghost use Rattle.cnf_base.specs.Literals.{negated, code_of, literal_of};

use std::marker::Model;

/// A variable, counted from 1, or its negation.
#[derive(Clone, Copy, Debug, PartialEq, Eq, PartialOrd, Ord, Hash)]
pub struct Lit {
    code: u64,
}

impl Model for Lit {
    ghost use Rattle.std.specs.Prelude.{◌≤◌};
    ghost use Rattle.cnf_base.specs.Literals.{Literal, literal_of, code_of};

    ghost Value = { Literal };

    ghost view = { λ l. literal_of l.code };

    ghost invariant = { λ l. 2 ≤ l.code };

    ghost inverse = { λ l. record { code = code_of l } };
}

impl Lit {
    /// The literal that is true in every assignment in which variable 1 is.
    pub const TRUE: Lit = Lit { code: 2 };

    /// The literal that is false in every assignment in which variable 1 is true.
    pub const FALSE: Lit = Lit { code: 3 };

    /// The variable where `positive` is true, else its negation.
    pub fn new(variable: u64, positive: bool) -> Lit
        requires from_one { 0 < variable }
        requires bound { variable < 2 ^ 63 }
        ensures { result ≡ record { variable = variable; positive = positive } }
    {
        Lit {
            code: 2 * variable + if positive { 0 } else { 1 },
        }
    }

    /// The number of the variable.
    pub fn variable(self) -> u64
        ensures value { result ≡ self.variable }
        ensures positive { 0 < result }
        ensures bound { result < 2 ^ 63 }
    {
        self.code / 2
    }

    /// Whether the literal is its variable, and not the negation.
    pub fn is_positive(self) -> bool
        ensures { result ≡ self.positive }
    {
        self.code % 2 == 0
    }

    /// The opposite literal.
    pub fn negated(self) -> Lit
        ensures { result ≡ negated self }
    {
        Lit {
            code: self.code ^ 1,
        }
    }

    /// The row of the literal in a table by literal: rows 0 and 1 are no literal's.
    pub fn code(self) -> u64
        ensures code { result ≡ code_of self }
        ensures from_two { 2 ≤ result }
    {
        self.code
    }

    /// The literal of a row.
    pub fn from_code(code: u64) -> Lit
        requires { 2 ≤ code }
        ensures literal { result ≡ literal_of code }
        ensures code { code_of result ≡ code }
    {
        Lit { code }
    }
}
