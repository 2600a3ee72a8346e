//! The variables of equalities.

ghost use Rattle.std.specs.Prelude.{◌≡◌, ℕ, [], None, OnOk, OnErr};
ghost use Rattle.proof_log.specs.Pairs.{found, with_pair};
ghost use Rattle.proof_log.specs.Stored.{pair_place};

use crate::pairs::Pairs;
use cnf_base::{Lit, Pos};
use smt_terms::node::TermId;
use std::alloc::{AllocError, Global};
use std::marker::Model;
use theory_lemmas::clauses::Equalities;

/// The literal of an equality, and the position of the step that made it.
#[derive(Clone, Copy, Debug)]
pub struct EqualRow {
    pub literal: Lit,
    pub place: Pos,
}

/// The equalities that have a variable, by the lower and the upper term.
#[derive(Debug, Drop)]
pub struct Equals {
    pairs: Pairs<EqualRow>,
}

impl Model for Equals {
    ghost use Rattle.proof_log.specs.Stored.{EqualRows};

    ghost Value = { EqualRows };

    ghost view = { λ e. e.pairs };
}

impl Equalities for Equals {
    ghost use Rattle.proof_log.specs.Stored.{equal_in};

    ghost equal = { λ e. equal_in e };

    fn of(&self, t: TermId, u: TermId) -> Option<Lit> {
        match self.pairs.get(t, u) {
            Some(row) => Some(row.literal),
            None => None,
        }
    }
}

impl Equals {
    /// No equality has a variable; takes no memory.
    pub(crate) fn new(alloc: Global) -> Equals
        ensures { result ≡ [] }
    {
        Equals {
            pairs: Pairs::new(alloc),
        }
    }

    /// The variable of the equality of these terms with the position of its step, the lower term first.
    pub(crate) fn row(&self, lower: TermId, upper: TermId) -> Option<EqualRow>
        ensures { result ≡ found self.now lower upper }
    {
        self.pairs.get(lower, upper)
    }

    /// The position of the step that gave the equality of these terms its variable, the lower term first.
    pub fn place_of(&self, lower: TermId, upper: TermId) -> Option<Pos>
        ensures { result ≡ pair_place self.now lower upper }
    {
        match self.pairs.get(lower, upper) {
            Some(row) => Some(row.place),
            None => None,
        }
    }

    /// Keeps the variable of an equality that has none.
    pub(crate) fn insert(
        &mut self,
        lower: TermId,
        upper: TermId,
        row: EqualRow,
    ) -> Result<(), AllocError>
        requires new { found self.old lower upper ≡ None }
        ensures ok { OnOk result ((t u : ℕ)
            → found self.new t u ≡ with_pair (found self.old) lower upper row t u) }
        ensures err { OnErr result (self.new ≡ self.old) }
    {
        self.pairs.insert(lower, upper, row)
    }
}
