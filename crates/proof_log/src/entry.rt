//! The steps of a log.

ghost use Rattle.std.specs.Prelude.{◌≡◌};
ghost use Rattle.proof_log.specs.Roles.{role_of};

use cnf_base::Clause;
pub use hint_chain::Hints;
use smt_terms::node::{Node, TermId};
use theory_terms::lemma::Lemma;

/// The number of an assertion, counted from 0 over a script.
pub type AssertId = u32;

/// A use of a rewrite rule: which rule, counted from 1, and the terms from which and to which it leads.
#[derive(Clone, Copy, Debug, PartialEq, Eq)]
pub struct RuleUse {
    pub rule: u8,
    pub from: TermId,
    pub to: TermId,
}

/// A step of a log.
#[derive(Debug, Drop)]
pub enum Entry {
    /// A term that no command made.
    Node(Node),
    /// New variables for the bits of a declared constant.
    Leaf(TermId),
    /// The circuit of a term.
    Encode(TermId),
    /// A variable that stands for an assertion, and the assertion's term.
    Selector(AssertId, TermId),
    /// A clause that follows from earlier ones.
    Chain(Clause, Hints),
    /// The bits of the term to which a rewrite rule leads, for the term from which it leads.
    Rewrite(RuleUse),
    /// A variable that is true exactly where two terms are equal.
    Equal(TermId, TermId),
    /// The clause of a lemma on functions or arrays.
    Lemma(Lemma),
}

/// What a step leaves to those behind it.
#[derive(Clone, Copy, Debug, PartialEq, Eq)]
pub enum Role {
    /// A term.
    Term,
    /// The bits of this term.
    Bits(TermId),
    /// The selector of this assertion.
    Selector(AssertId),
    /// What a search adds.
    Search,
}

impl Entry {
    /// What the step leaves.
    pub fn role(&self) -> Role
        ensures { result ≡ role_of self.now }
    {
        match self {
            Entry::Node(_) => Role::Term,
            Entry::Leaf(term) => Role::Bits(*term),
            Entry::Encode(term) => Role::Bits(*term),
            Entry::Rewrite(used) => Role::Bits(used.from),
            Entry::Selector(assertion, _) => Role::Selector(*assertion),
            Entry::Chain(_, _) => Role::Search,
            Entry::Equal(_, _) => Role::Search,
            Entry::Lemma(_) => Role::Search,
        }
    }
}
