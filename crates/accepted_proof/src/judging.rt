//! What judging a proof line by line comes to.

ghost use Rattle.std.specs.Prelude.{◌≡◌, ℕ, List, [], ◌∷◌, map, false, true, Option, Some, None};
ghost use Rattle.std.specs.List.{flat_map};
ghost use Rattle.smt_text.specs.declared.chunk.Chunk.{Chunk};
ghost use Rattle.script_state.specs.Readings.{Reading};
ghost use Rattle.script_state.specs.Steps.{ends};
ghost use Rattle.proof_text.specs.declared.line.Format.{Format};
ghost use Rattle.proof_text.specs.declared.line.Line.{Line};
ghost use Rattle.accepted_proof.specs.declared.refusal.Refusal.{Refusal};
ghost use Rattle.accepted_proof.specs.Searching.{Limits, AreLimits};
ghost use Rattle.accepted_proof.specs.Turns.{Turn, Part, part_lines, turn_of};
ghost use Rattle.accepted_proof.specs.Answers.{written_of};
ghost use Rattle.accepted_proof.specs.Accepted.{Accepted, AcceptedSoFar, IsFront};
ghost use Rattle.accepted_proof.specs.Judged.{Judging, judging_from, is_idle, commanded, Moves, Judged, JudgedProof, AreReadable, ReadEach, AreAllSaid};

/// An accepted proof is judged to have no bad line.
pub fn accepted_proofs_are_judged()
    ensures { (limits : Limits) (script proof : List ℕ) (turns : List Turn)
        (accepted : Accepted limits script proof turns)
        → Judged (judging_from accepted.format limits)
        (map (λ (t : Turn). t.says) turns)
        (map (λ l. Some l) (flat_map part_lines accepted.parts)) None }
{}

/// A proof without a bad line, whose lines were read, is accepted; what stands in the script behind a command that ends the run need not be read.
pub fn judged_proofs_are_accepted()
    ensures { (format : Format) (limits : Limits) (script : List ℕ)
        (chunks : List Chunk) (says : List Reading) (lines : List (Option Line))
        → AreLimits limits → AreAllSaid script chunks says → ReadEach chunks says
        → AreReadable lines
        → Judged (judging_from format limits) says lines None
        → (parts : List Part) × (lines ≡ map (λ l. Some l) (flat_map part_lines parts))
        × Accepted limits script (written_of format limits parts)
        (map turn_of parts) }
{}

/// The first lines of a proof, where each was read and none is bad with the first commands of a script, are those of turns of these.
pub fn judged_fronts_are_accepted()
    ensures { (format : Format) (limits : Limits) (script : List ℕ)
        (chunks : List Chunk) (says : List Reading) (lines : List (Option Line))
        → AreLimits limits → IsFront script chunks → ReadEach chunks says → AreReadable lines
        → Judged (judging_from format limits) says lines None
        → (parts : List Part) × (lines ≡ map (λ l. Some l) (flat_map part_lines parts))
        × AcceptedSoFar limits script (written_of format limits parts)
        (map turn_of parts) }
{}

/// One thing at most is judged of a proof.
pub fn proofs_are_judged_one_way()
    ensures rest { (judging : Judging) (says : List Reading) (lines : List (Option Line))
        (o p : Option Refusal)
        → Judged judging says lines o → Judged judging says lines p → o ≡ p }
    ensures whole { (says : List Reading) (lines : List (Option Line))
        (o p : Option Refusal)
        → JudgedProof says lines o → JudgedProof says lines p → o ≡ p }
{}

/// What is judged of the rest, behind a line or a command, is judged of the whole. Behind a command that ends the run no
/// commands are left.
pub fn the_rest_is_judged_as_the_whole()
    ensures line { (old new : Judging) (says : List Reading) (line : Option Line)
        (lines : List (Option Line)) (o : Option Refusal)
        → is_idle old.owed ≡ false → Moves old line new → Judged new says lines o
        → Judged old says (line ∷ lines) o }
    ensures command { (old : Judging) (says : List Reading) (first : Reading)
        (lines : List (Option Line)) (o : Option Refusal)
        → is_idle old.owed ≡ true → ends first ≡ false → Judged (commanded old first) says lines o
        → Judged old (first ∷ says) lines o }
    ensures last { (old : Judging) (says : List Reading) (first : Reading)
        (lines : List (Option Line)) (o : Option Refusal)
        → is_idle old.owed ≡ true → ends first ≡ true → Judged (commanded old first) [] lines o
        → Judged old (first ∷ says) lines o }
{}
