//! Clauses and their names.

ghost use Rattle.std.specs.Prelude.{◌≡◌, [], ◌∷◌, IfOk, length, ◌==◌};

use crate::Lit;
use std::alloc::{AllocError, Global};
use std::marker::Model;

/// A place in a log of clauses.
pub type Pos = u64;

/// The name of a clause: the place of what made it, and which of its clauses it is.
#[derive(Clone, Copy, Debug, PartialEq, Eq, PartialOrd, Ord, Hash)]
pub struct ClauseId {
    pub pos: Pos,
    pub part: u32,
}

/// A clause: the list of its literals, in the order in which it was made.
#[derive(Debug, Drop)]
pub struct Clause {
    literals: Vec<Lit>,
}

impl Model for Clause {
    ghost use Rattle.std.specs.Prelude.{List};
    ghost use Rattle.cnf_base.specs.Literals.{Literal};

    ghost Value = { List Literal };

    ghost view = { λ c. c.literals.items };
}

impl Clause {
    /// The clause without a literal.
    pub fn empty(alloc: Global) -> Clause
        ensures { result ≡ [] }
    {
        Clause {
            literals: Vec::new(alloc),
        }
    }

    /// The clause of these literals.
    pub fn from_vec(literals: Vec<Lit>) -> Clause
        ensures { result ≡ literals.items }
    {
        Clause { literals }
    }

    /// The literals.
    pub fn into_vec(self) -> Vec<Lit>
        ensures { result.items ≡ self }
    {
        self.literals
    }

    /// The literals, in order.
    pub fn literals(&self) -> &[Lit]
        ensures { result.now ≡ self.now }
    {
        self.literals.as_slice()
    }

    /// How many literals there are.
    pub fn len(&self) -> usize
        ensures { result ≡ length self.now }
    {
        self.literals.len()
    }

    /// Whether there is no literal.
    pub fn is_empty(&self) -> bool
        ensures { result ≡ (length self.now == 0) }
    {
        self.literals.is_empty()
    }

    /// An equal clause.
    pub fn copy(&self, alloc: Global) -> Result<Clause, AllocError>
        ensures { IfOk result (λ c. c ≡ self.now) }
    {
        Clause::from_literals(alloc, self.literals.as_slice())
    }

    /// The clause of these literals, copied.
    pub fn from_literals(alloc: Global, literals: &[Lit]) -> Result<Clause, AllocError>
        ensures { IfOk result (λ c. c ≡ literals.now) }
    {
        Ok(Clause::from_vec(Vec::from_slice(alloc, literals)?))
    }

    /// The clause of one literal.
    pub fn of_one(alloc: Global, a: Lit) -> Result<Clause, AllocError>
        ensures { IfOk result (λ c. c ≡ a ∷ []) }
    {
        Ok(Clause::from_vec(Vec::from_array(alloc, [a])?))
    }

    /// The clause of two literals.
    pub fn of_two(alloc: Global, a: Lit, b: Lit) -> Result<Clause, AllocError>
        ensures { IfOk result (λ clause. clause ≡ a ∷ b ∷ []) }
    {
        Ok(Clause::from_vec(Vec::from_array(alloc, [a, b])?))
    }

    /// The clause of three literals.
    pub fn of_three(alloc: Global, a: Lit, b: Lit, c: Lit) -> Result<Clause, AllocError>
        ensures { IfOk result (λ clause. clause ≡ a ∷ b ∷ c ∷ []) }
    {
        Ok(Clause::from_vec(Vec::from_array(alloc, [a, b, c])?))
    }

    /// The clause of four literals.
    pub fn of_four(alloc: Global, a: Lit, b: Lit, c: Lit, d: Lit) -> Result<Clause, AllocError>
        ensures { IfOk result (λ clause. clause ≡ a ∷ b ∷ c ∷ d ∷ []) }
    {
        Ok(Clause::from_vec(Vec::from_array(alloc, [a, b, c, d])?))
    }
}

impl PartialEq for Clause {
    ghost use Rattle.std.specs.Cmp.Lexicographic.{pointwise};
    ghost use Rattle.std.specs.Cmp.{partial_equiv_from_equiv};
    ghost use Rattle.std.proofs.lemmas.Cmp.{lists_equiv, on_equiv, nat_eq_equiv};
    ghost use Rattle.std.specs.Prelude.{◌==◌};
    ghost use Rattle.std.specs.Ordering.{on};
    ghost use Rattle.cnf_base.specs.Literals.{code_of};

    ghost eq = { pointwise (on code_of ◌==◌) };

    ghost laws = { partial_equiv_from_equiv (lists_equiv (on_equiv code_of nat_eq_equiv)) };

    fn eq(&self, other: &Self) -> bool {
        self.literals.as_slice() == other.literals.as_slice()
    }
}

impl Eq for Clause {
    ghost use Rattle.std.proofs.lemmas.Cmp.{lists_equiv, on_equiv, nat_eq_equiv};
    ghost use Rattle.cnf_base.specs.Literals.{code_of};

    ghost laws = { lists_equiv (on_equiv code_of nat_eq_equiv) };
}
