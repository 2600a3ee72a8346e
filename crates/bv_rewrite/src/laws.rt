// What a shape promises.

ghost use Rattle.std.specs.Prelude.{◌≡◌, ◌<◌, ℕ, List, Option, Some, true, length, IsSome, Ok, Err};
ghost use Rattle.smt_terms.specs.declared.sort.Sort.{Sort};
ghost use Rattle.smt_terms.specs.declared.fault.MakeFault.{MakeFault};
ghost use Rattle.smt_terms.specs.declared.fault.MakeFault.TheVariants.{TermLimit};
ghost use Rattle.smt_terms.specs.declared.node.Node.{Node};
ghost use Rattle.smt_terms.specs.Terms.{TermsValue, AreTerms, IsTermList, sort_of};
ghost use Rattle.smt_terms.specs.Ranks.{is_plain};
ghost use Rattle.bv_rules.specs.declared.rule.Rule.{Rule};
ghost use Rattle.bv_rules.specs.declared.rule.Rule.TheVariants.{Inner};
ghost use Rattle.bv_rules.specs.Matches.{matches};
ghost use Rattle.bv_rewrite.specs.declared.shape.Shape.{Shape};
ghost use Rattle.bv_rewrite.specs.Shapes.{has_shape};
ghost use Rattle.bv_rewrite.specs.Becoming.{becomes};
ghost use Rattle.bv_rewrite.specs.Weights.{weight, shape_weight};
ghost use Rattle.bv_rewrite.specs.Making.{made_shape, IsRanked, IsOfShape};

/// Each term of the shape, of the sort of a Bool or a word, is what the rule makes of it.
pub fn shapes_are_made_by_rules()
    ensures { (nodes : List Node) (images : ℕ → Option ℕ) (rule : Rule) (t u : ℕ) (s : Shape)
        → IsTermList nodes
        → t < length nodes → u < length nodes → is_plain (sort_of nodes t) ≡ true
        → sort_of nodes u ≡ sort_of nodes t
        → becomes nodes rule t ≡ Some s → has_shape nodes s u ≡ true
        → matches nodes images rule t u ≡ true }
{}

/// Where a rule but that on arguments takes a term to any other, the term has such a shape.
pub fn rules_have_shapes()
    ensures { (nodes : List Node) (images : ℕ → Option ℕ) (rule : Rule) (t u : ℕ) → IsTermList nodes
        → (rule ≡ Inner → ⊥)
        → matches nodes images rule t u ≡ true → IsSome (becomes nodes rule t) }
{}

/// What a term becomes can be made, and has the sort of the term.
pub fn shapes_have_the_sort_of_the_term()
    ensures { (nodes : List Node) (rule : Rule) (t : ℕ) (s : Shape) → IsTermList nodes
        → t < length nodes
        → becomes nodes rule t ≡ Some s → IsRanked nodes (sort_of nodes t) s }
{}

/// What is made of a shape is of that shape, and nothing but the limit of terms refuses it.
pub fn made_shapes_are_of_their_shape()
    ensures made { (v w : TermsValue) (sort : Sort) (s : Shape) (u : ℕ) → AreTerms v
        → IsRanked v.nodes sort s
        → made_shape v sort s ≡ Ok (u, w) → IsOfShape v w sort s u }
    ensures refused { (v : TermsValue) (sort : Sort) (s : Shape) (f : MakeFault) → AreTerms v
        → IsRanked v.nodes sort s
        → made_shape v sort s ≡ Err f → f ≡ TermLimit }
{}

/// What a term becomes weighs less than the term.
pub fn rules_lower_weights()
    ensures { (nodes : List Node) (rule : Rule) (t : ℕ) (s : Shape) → IsTermList nodes
        → t < length nodes
        → becomes nodes rule t ≡ Some s → shape_weight nodes s < weight nodes t }
{}
