// What follows of well-sorted interpretations.

ghost use Rattle.std.specs.Prelude.{ℕ, List, Option};
ghost use Rattle.smt_terms.specs.Bits.{TermBits};
ghost use Rattle.smt_terms.specs.Terms.{TermsValue, AreTerms};
ghost use Rattle.smt_values.specs.declared.value.Value as held;
ghost use Rattle.smt_eval.specs.Evaluated.{AreSuited};
ghost use Rattle.model_build.specs.Sorted.{IsWellSorted};

/// Terms may be evaluated in an interpretation that is well sorted over some of them: each array that
/// it has for a constant has the widths of the constant's sort.
pub fn well_sorted_interpretations_are_suited()
    ensures { (v : TermsValue) (bits : List TermBits) (terms : List ℕ)
        (values : List (Option held.Value))
        → AreTerms v → IsWellSorted v.nodes bits terms values → AreSuited v.nodes values }
{}
