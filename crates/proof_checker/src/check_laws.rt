//! What is judged of two texts.

ghost use Rattle.std.specs.Prelude.{◌≡◌, ◌++◌, ℕ, List, Option};
ghost use Rattle.script_state.specs.declared.answer.Verdict.{Verdict};
ghost use Rattle.script_state.specs.States.{no_state};
ghost use Rattle.accepted_proof.specs.declared.refusal.Refusal.{Refusal};
ghost use Rattle.accepted_proof.specs.Searching.{Limits};
ghost use Rattle.accepted_proof.specs.Turns.{Turn};
ghost use Rattle.accepted_proof.specs.Accepted.{Accepted, AcceptedSoFar};
ghost use Rattle.accepted_proof.specs.Right.{AreRight};
ghost use Rattle.proof_checker.specs.Checked.{IsJudged, IsAccepted, IsAcceptedSoFar, verdicts_of};

use accepted_proof::{
    accepted_proofs_are_judged, accepted_proofs_are_right, judged_proofs_are_accepted,
};

/// One thing at most is judged of a script and a proof: it is not both accepted and refused, nor refused in two ways.
pub fn texts_are_judged_one_way()
    ensures { (script proof : List ℕ) (vs us : List Verdict)
        (o q : Option Refusal) → IsJudged script proof vs o
        → IsJudged script proof us q → (vs ≡ us) × (o ≡ q) }
{}

/// What is accepted of fronts of a script and of its proof stays so: whatever is judged of the whole texts, the first verdicts are
/// these.
pub fn accepted_fronts_stay()
    ensures { (script proof : List ℕ) (vs us : List Verdict)
        (o : Option Refusal) → IsAcceptedSoFar script proof vs
        → IsJudged script proof us o → (rest : List Verdict) × (us ≡ vs ++ rest) }
{}

/// What a check accepts is right, whoever wrote it: within some limits it is, byte by byte, the accepted proof of turns with these
/// verdicts, each `sat` stands beside a model, and where there is an `unsat` there is none.
pub fn what_is_accepted_is_right()
    ensures { (script proof : List ℕ) (vs : List Verdict) → IsAccepted script proof vs
        → (limits : Limits) × (turns : List Turn) × Accepted limits script proof turns
        × AreRight no_state turns × (vs ≡ verdicts_of turns) }
{
    judged_proofs_are_accepted();
    accepted_proofs_are_right();
}

/// What is accepted of fronts of a script and of its proof is right: within some limits the proof begins with the accepted proof of
/// turns of the first commands, which have these verdicts, each `sat` stands beside a model, and where there is an `unsat` there is none.
pub fn accepted_fronts_are_right()
    ensures { (script proof : List ℕ) (vs : List Verdict)
        → IsAcceptedSoFar script proof vs
        → (limits : Limits) × (turns : List Turn)
        × AcceptedSoFar limits script proof turns
        × AreRight no_state turns × (vs ≡ verdicts_of turns) }
{}

/// A check accepts each accepted proof, with the verdicts of its turns.
pub fn accepted_proofs_pass()
    ensures { (limits : Limits) (script proof : List ℕ) (turns : List Turn)
        → Accepted limits script proof turns → IsAccepted script proof (verdicts_of turns) }
{
    accepted_proofs_are_judged();
}
