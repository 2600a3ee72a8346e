//! What a pass asks of the hub.

ghost use Rattle.std.specs.Prelude.{◌≡◌, IfOk};

use cnf_base::{Clause, Pos};
use proof_log::entry::Hints;
use smt_terms::node::TermId;
use std::alloc::{AllocError, Global};
use theory_terms::lemma::Lemma;

/// A call of the hub.
#[derive(Debug, Drop)]
pub enum Call {
    /// Gives the equality of two terms a variable where it has none, the lower term first.
    Define(TermId, TermId),
    /// Adds the clause of a lemma.
    PutLemma(Lemma),
    /// Adds a clause that follows by its hints.
    PutChain(Clause, Hints),
    /// Claims the next cube.
    Claim,
    /// The cube is closed by the first clause of the position.
    Close(u32, Pos),
    /// The budget of the cube is spent.
    Spend(u32),
    /// A model was found in the cube.
    Found(u32),
}

/// What a call answers.
#[derive(Clone, Copy, Debug, PartialEq, Eq)]
pub enum Reply {
    /// The position of the step; of a pair that had a variable, that of the step that gave it.
    At(Pos),
    /// The cube that was claimed; `None` where all are, or a model was found.
    Cube(Option<u32>),
    Done,
}

/// A call, and the number of the pass that made it.
#[derive(Debug, Drop)]
pub struct Event {
    pub pass: u32,
    pub call: Call,
}

impl Call {
    /// An equal call.
    pub fn copy(&self, alloc: Global) -> Result<Call, AllocError>
        ensures { IfOk result (λ c. c ≡ self.now) }
    {
        Ok(match self {
            Call::Define(lower, upper) => Call::Define(*lower, *upper),
            Call::PutLemma(lemma) => Call::PutLemma(lemma.copy()?),
            Call::PutChain(clause, hints) => {
                Call::PutChain(clause.copy(alloc)?, hints.copy(alloc)?)
            }
            Call::Claim => Call::Claim,
            Call::Close(cube, at) => Call::Close(*cube, *at),
            Call::Spend(cube) => Call::Spend(*cube),
            Call::Found(cube) => Call::Found(*cube),
        })
    }
}
