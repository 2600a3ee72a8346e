//! What follows from the definitions of chains and faults alone.

ghost use Rattle.std.specs.Prelude.{◌≡◌, List};
ghost use Rattle.cnf_base.specs.Literals.{Literal};
ghost use Rattle.cnf_base.specs.declared.clause.ClauseId.{ClauseId};
ghost use Rattle.hint_chain.specs.declared.fault.ChainFault.{ChainFault};
ghost use Rattle.hint_chain.specs.Chains.{Lookup, IsChain, Follows, FindsMore};
ghost use Rattle.hint_chain.specs.Faults.{FirstFault};

/// A clause with a chain is true wherever the clauses are that its hints name.
pub fn chains_are_sound()
    ensures { (look : Lookup) (clause : List Literal) (hints : List ClauseId) →
        IsChain look clause hints → Follows look clause hints }
{}

/// A chain has no first fault.
pub fn chains_have_no_fault()
    ensures { (look : Lookup) (clause : List Literal) (hints : List ClauseId) (fault : ChainFault) →
        IsChain look clause hints → FirstFault look clause hints fault → ⊥ }
{}

/// Hints have at most one first fault.
pub fn first_fault_is_one()
    ensures { (look : Lookup) (clause : List Literal) (hints : List ClauseId)
        (fault other : ChainFault) →
        FirstFault look clause hints fault → FirstFault look clause hints other → fault ≡ other }
{}

/// A chain stays one where more clauses can be looked up.
pub fn more_clauses_keep_chains()
    ensures { (look more : Lookup) → FindsMore look more
        → (clause : List Literal) (hints : List ClauseId) →
        IsChain look clause hints → IsChain more clause hints }
{}
