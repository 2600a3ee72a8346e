//! What follows from the definitions alone.

ghost use Rattle.std.specs.Prelude.{◌≡◌, ℕ, List, [], map, None};
ghost use Rattle.script_state.specs.States.{no_state};
ghost use Rattle.smt_terms.specs.declared.node.Node.{Node};
ghost use Rattle.proof_log.specs.declared.entry.Entry.{Entry};
ghost use Rattle.proof_log.specs.Logs.{state_of, IsLog};
ghost use Rattle.accepted_proof.specs.Searching.{Limits, Rise, split_variables};
ghost use Rattle.accepted_proof.specs.Turns.{Turn, AreTurns, turn_of};
ghost use Rattle.accepted_proof.specs.Right.{AreRight, ArePrinted};
ghost use Rattle.accepted_proof.specs.Accepted.{Accepted, StandsBeside, readings_of};

/// Where turns follow one after the other, each `sat` stands beside a model of the assertions that are live there under the
/// assumptions of the check, and where there is an `unsat` they have none.
pub fn answers_are_right()
    ensures { (limits : Limits) (turns : List Turn) → AreTurns limits no_state [] turns
        → AreRight no_state turns }
{}

/// Where turns follow one after the other, what is printed of the check that stands is right. A model and values are those
/// of its record, under which all is true that is live and assumed then. The assertions of a core, with all that have no
/// name and with the assumptions, have no model. The assumptions that are printed have none with all live assertions.
pub fn what_is_printed_is_right()
    ensures { (limits : Limits) (turns : List Turn) → AreTurns limits no_state [] turns
        → ArePrinted no_state [] None turns }
{}

/// What an accepted proof shows is right, whoever wrote it.
pub fn accepted_proofs_are_right()
    ensures { (limits : Limits) (script proof : List ℕ) (turns : List Turn)
        → Accepted limits script proof turns
        → AreRight no_state turns }
{}

/// What stands beside answers is right, also where a run ended early.
pub fn answers_beside_proofs_are_right()
    ensures { (limits : Limits) (script answers proof : List ℕ)
        (beside : StandsBeside limits script answers proof)
        → AreRight no_state (map turn_of beside.parts) }
{}

/// The commands of a script are read in one way: the turns of two accepted proofs begin on the same lines and say the same.
pub fn scripts_are_read_one_way()
    ensures { (limits bounds : Limits) (script proof other : List ℕ) (turns others : List Turn) →
        Accepted limits script proof turns → Accepted bounds script other others
        → readings_of turns ≡ readings_of others }
{}

/// The variables by which a check may be split rise, and are those of the log; variable 1, which is true, is none of them.
pub fn split_variables_rise()
    ensures { (roots : List ℕ) (nodes : List Node) (log : List Entry) → IsLog nodes log
        → Rise 2 (state_of nodes log).next (split_variables roots nodes log) }
{}
