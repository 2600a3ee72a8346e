//! Why a step is refused.

use hint_chain::ChainFault;
use smt_terms::fault::MakeFault;
use smt_terms::node::TermId;
use std::alloc::{AllocError, AllocFailed};
use theory_lemmas::fault::LemmaFault;

/// Of what kind a step is.
#[derive(Clone, Copy, Debug, PartialEq, Eq)]
pub enum StepKind {
    Node,
    Leaf,
    Encode,
    Selector,
    Chain,
    Rewrite,
    Equal,
    Lemma,
}

/// What shows that a step is not valid.
#[derive(Clone, Copy, Debug, PartialEq, Eq)]
pub enum Kept {
    /// The node's operator is a declared constant or the parameter of a definition, which no step makes.
    Operator,
    /// The first fault of the node.
    Make(MakeFault),
    /// The term that the node is already, or the term without what the step asks for, or with bits where it asks for none.
    Term(TermId),
    /// The terms that are no pair of one sort with bits, the lower first; or of which the rule does not take the first to the
    /// second.
    Terms(TermId, TermId),
    /// A variable of the clause that no step made, or the one that the assertion or the equality has already.
    Variable(u64),
    /// The first fault of the hints.
    Chain(ChainFault),
    /// The first fault of the lemma.
    Lemma(LemmaFault),
    /// The number that no rule has.
    NoRule(u8),
}

/// Why a step is not valid: of what kind it is, and what shows it.
#[derive(Clone, Copy, Debug, PartialEq, Eq)]
pub struct StepFault {
    pub kind: StepKind,
    pub kept: Kept,
}

/// Why no step was added.
#[derive(Clone, Copy, Debug, PartialEq, Eq)]
pub enum PushError {
    NoMemory,
    Fault(StepFault),
}

impl From<AllocError> for PushError {
    ghost use Rattle.std.specs.Prelude.{◌≡◌};
    ghost use Rattle.proof_log.specs.declared.fault.PushError.TheVariants.{NoMemory};

    ghost from_gives = { λ _ e. e ≡ NoMemory };

    fn from(_error: AllocError) -> PushError {
        PushError::NoMemory
    }
}

impl<T: Drop> From<AllocFailed<T>> for PushError {
    ghost use Rattle.std.specs.Prelude.{◌≡◌};
    ghost use Rattle.proof_log.specs.declared.fault.PushError.TheVariants.{NoMemory};

    ghost from_gives = { λ _ e. e ≡ NoMemory };

    fn from(_error: AllocFailed<T>) -> PushError {
        PushError::NoMemory
    }
}
