//! What the definitions of logs promise together.

ghost use Rattle.std.specs.Prelude.{◌++◌, ℕ, Bool, List, Contains};
ghost use Rattle.smt_terms.specs.declared.node.Node.{Node};
ghost use Rattle.smt_terms.specs.Terms.{TermsValue, IsTermList, AreDifferent};
ghost use Rattle.smt_terms.specs.Values.{Interpretation};
ghost use Rattle.smt_terms.specs.Bits.{image_in};
ghost use Rattle.bv_rules.specs.Matches.{AreImages};
ghost use Rattle.proof_log.specs.declared.entry.Entry.{Entry};
ghost use Rattle.proof_log.specs.Logs.{LogState, IsStep, IsLog, state_of};
ghost use Rattle.proof_log.specs.Meanings.{LogIsSound, LogIsOrdered, AreLinked, StaysLog, IsLogOver};
ghost use Rattle.proof_log.specs.Stored.{LogValue, Stands, IsSettled};
ghost use Rattle.proof_log.specs.Assigned.{Satisfies, AreValues};
ghost use Rattle.proof_log.specs.Faults.{IsValid, terms_after};

/// Every clause of every log is true in every interpretation, the bits of a term are those of its value, a term has the
/// value of its image, and the selector of an assertion is the value of its term.
pub fn logs_are_sound()
    ensures { (nodes : List Node) (log : List Entry) → IsTermList nodes → IsLog nodes log
        → LogIsSound nodes log }
{}

/// Each image of a log has the sort and the value of its term, in every evaluation, whatever words witnesses are.
pub fn images_are_images()
    ensures { (nodes : List Node) (log : List Entry) → IsTermList nodes → AreDifferent nodes
        → IsLog nodes log → AreImages nodes (state_of nodes log).images }
{}

/// A term with an image got its bits from a step that names both, behind the image.
pub fn images_are_linked()
    ensures { (nodes : List Node) (log : List Entry) → IsLog nodes log → AreLinked nodes log }
{}

/// What a log names was made before: one step made each variable, and hints are of earlier positions.
pub fn logs_are_ordered()
    ensures { (nodes : List Node) (log : List Entry) → IsTermList nodes → IsLog nodes log
        → LogIsOrdered nodes log }
{}

/// The steps before a place are a log, whose clauses, bits, selectors and meaning stay.
pub fn more_steps_keep_logs()
    ensures { (nodes : List Node) (log more : List Entry) → IsLog nodes (log ++ more)
        → StaysLog nodes log more }
{}

/// A log is one over more terms too, with all that it has.
pub fn more_terms_keep_logs()
    ensures { (nodes more : List Node) (log : List Entry) → IsTermList nodes → IsLog nodes log
        → IsLogOver nodes more log }
{}

/// A step that is valid may stand, over the terms after it.
pub fn valid_steps_stand()
    ensures { (terms : TermsValue) (state : LogState) (entry : Entry) →
        IsValid terms state entry → IsStep (terms_after terms entry).nodes state entry }
{}

/// A stored log stands over more terms too.
pub fn more_terms_keep_stored_logs()
    ensures { (nodes more : List Node) (log : LogValue) → Stands nodes log
        → Stands (nodes ++ more) log }
{}

/// What a stored log has where it stands.
pub fn stored_logs_are_settled()
    ensures { (nodes : List Node) (log : LogValue) → IsTermList nodes → Stands nodes log
        → IsSettled nodes log }
{}

/// The images that a stored log has are images, as those of its steps are.
pub fn stored_images_are_images()
    ensures { (nodes : List Node) (log : LogValue) → IsTermList nodes → AreDifferent nodes
        → Stands nodes log → AreImages nodes (image_in log.bits) }
{}

/// Where an assignment makes true the clauses of the steps that gave some terms bits, and these terms are closed under
/// images and under arguments of terms without one, and the bits of each of them that got them as a leaf are those of its
/// value in an interpretation: then the bits of each of them are those of its value. An assertion of such a term is true, if
/// its selector is and the clauses of the step that made it.
pub fn satisfied_terms_have_values()
    ensures { (M : Interpretation) (nodes : List Node) (reached : List ℕ) (log : LogValue) (v : ℕ
        → Bool) →
        IsTermList nodes → Stands nodes log → Satisfies M nodes (Contains reached) log v
        → AreValues M nodes (Contains reached) log v }
{}
