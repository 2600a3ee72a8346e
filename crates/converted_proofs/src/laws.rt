// What becomes of an accepted proof that is converted.

ghost use Rattle.converted_proofs.specs.Conversions.{ConvertedLaw, NeverRefusedLaw};

/// What an accepted proof is converted to is accepted, with the same turns.
pub fn converted_proofs_are_accepted()
    ensures { ConvertedLaw }
{}

/// An accepted proof of the first format is never refused.
pub fn accepted_proofs_are_converted()
    ensures { NeverRefusedLaw }
{}
