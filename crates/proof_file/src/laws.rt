//! What follows from the definitions alone.

ghost use Rattle.std.specs.Prelude.{◌≡◌, ◌≢◌, ◌++◌, ℕ, List, Some};
ghost use Rattle.cnf_base.specs.declared.clause.ClauseId.{ClauseId};
ghost use Rattle.cnf_base.specs.Literals.{Literal};
ghost use Rattle.smt_terms.specs.declared.node.Node.{Node};
ghost use Rattle.smt_terms.specs.Terms.{IsTermList};
ghost use Rattle.proof_log.specs.declared.entry.Entry.{Entry};
ghost use Rattle.proof_log.specs.declared.entry.Entry.TheVariants as step;
ghost use Rattle.proof_log.specs.Logs.{IsLog, entry_at};
ghost use Rattle.proof_file.specs.Places.{with_place};
ghost use Rattle.proof_file.specs.Indexed.{StaleIndex, IsIndexOf};
ghost use Rattle.proof_file.specs.Files.{KeptFile, IsFileOf};

/// An index is one of a longer log too, over more terms.
pub fn more_steps_keep_indexes()
    ensures { (index : StaleIndex) (nodes more : List Node) (log steps : List Entry)
        (places : ℕ → ℕ) → IsTermList nodes → IsLog nodes log
        → IsLog (nodes ++ more) (log ++ steps) → IsIndexOf index nodes log places
        → IsIndexOf index (nodes ++ more) (log ++ steps) places }
{}

/// It stays one where a position that has no chain gets a place.
pub fn other_places_keep_indexes()
    ensures { (index : StaleIndex) (nodes : List Node) (log : List Entry) (places : ℕ → ℕ)
        (p q : ℕ) (e : Entry) → entry_at log p ≡ Some e
        → ((c : List Literal) (hints : List ClauseId) → e ≢ step.Chain c hints)
        → IsIndexOf index nodes log places → IsIndexOf index nodes log (with_place places p q) }
{}

/// A file is one over more terms too.
pub fn more_terms_keep_files()
    ensures { (nodes more : List Node) (log : List Entry) (file : KeptFile) →
        IsTermList nodes → IsTermList (nodes ++ more) → IsLog nodes log → IsLog (nodes ++ more) log
        → IsFileOf nodes log file → IsFileOf (nodes ++ more) log file }
{}
