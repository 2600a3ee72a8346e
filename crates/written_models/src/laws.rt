//! What follows from the definitions alone.

ghost use Rattle.std.specs.Prelude.{ℕ, Bool};
ghost use Rattle.smt_terms.specs.Values.{Interpretation};
ghost use Rattle.script_state.specs.States.{StateValue, IsState};
ghost use Rattle.proof_log.specs.Stored.{LogValue, Stands};
ghost use Rattle.accepted_proof.specs.Models.{IsModel};
ghost use Rattle.written_models.specs.Found.{IsFound};

/// An interpretation that a search found is a model of the live assertions and the assumptions.
pub fn found_interpretations_are_models()
    ensures { (s : StateValue) (log : LogValue) (v : ℕ → Bool) (M : Interpretation)
        → Stands s.terms.nodes log → IsFound s log v M → IsModel s M }
{}
