// What becomes of accepted turns whose proof file is trimmed.

ghost use Rattle.trimmed_proofs.specs.Laws.{TrimmedLaw};

/// What a trimmed file has for turns that may follow is an accepted proof, with the same commands and the same answers.
pub fn trimmed_proofs_are_accepted()
    ensures { TrimmedLaw }
{}
