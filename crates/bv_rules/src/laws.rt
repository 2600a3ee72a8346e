// What the table of rules promises.

ghost use Rattle.std.specs.Prelude.{◌≡◌, ◌++◌, ℕ, List, Option, true};
ghost use Rattle.smt_terms.specs.declared.node.Node.{Node};
ghost use Rattle.smt_terms.specs.Terms.{IsTermList, AreDifferent, sort_of};
ghost use Rattle.smt_terms.specs.Values.{Value, Interpretation, value};
ghost use Rattle.smt_terms.specs.Evaluations.{IsEvaluation};
ghost use Rattle.bv_rules.specs.declared.rule.Rule.{Rule};
ghost use Rattle.bv_rules.specs.Matches.{matches, IsImage, KeepValues, AreImages};

/// Each rule takes a term to one of the same value, in every evaluation, over images that are such terms.
pub fn rules_keep_evaluations()
    ensures { (nodes : List Node) (images : ℕ → Option ℕ) (rule : Rule) (t u : ℕ) → IsTermList nodes
        → AreDifferent nodes
        → AreImages nodes images → matches nodes images rule t u ≡ true
        → (M : Interpretation) (v : ℕ → Value) → IsEvaluation M nodes v → v u ≡ v t }
{}

/// Each rule takes a term to one of the same value in an interpretation, over images of which it is so.
pub fn rules_keep_values()
    ensures { (M : Interpretation) (nodes : List Node) (images : ℕ → Option ℕ) (rule : Rule)
        (t u : ℕ) → IsTermList nodes
        → KeepValues nodes (value M nodes) images → matches nodes images rule t u ≡ true
        → value M nodes u ≡ value M nodes t }
{}

/// Each rule takes a term to one of the same sort.
pub fn rules_keep_sorts()
    ensures { (nodes : List Node) (images : ℕ → Option ℕ) (rule : Rule) (t u : ℕ)
        → matches nodes images rule t u ≡ true → sort_of nodes u ≡ sort_of nodes t }
{}

/// So the two terms of each rule are an image of which the next rules may speak.
pub fn rules_make_images()
    ensures { (nodes : List Node) (images : ℕ → Option ℕ) (rule : Rule) (t u : ℕ) → IsTermList nodes
        → AreDifferent nodes
        → AreImages nodes images → matches nodes images rule t u ≡ true → IsImage nodes t u }
{}

/// More terms change no rule, and no image.
pub fn more_terms_keep_rules()
    ensures rules { (nodes more : List Node) (images : ℕ → Option ℕ) (rule : Rule) (t u : ℕ)
        → IsTermList nodes
        → matches nodes images rule t u ≡ true → matches (nodes ++ more) images rule t u ≡ true }
    ensures images { (nodes more : List Node) (images : ℕ → Option ℕ) → IsTermList nodes
        → AreImages nodes images
        → AreImages (nodes ++ more) images }
{}
