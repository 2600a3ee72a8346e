// What the definitions of terms and values promise together.

ghost use Rattle.std.specs.Prelude.{◌≡◌, ◌<◌, ◌++◌, ◌↔◌, ℕ, List, Ok, length};
ghost use Rattle.smt_terms.specs.declared.node.Node.{Node};
ghost use Rattle.smt_terms.specs.Terms.{TermsValue, AreTerms, Agrees, IsSort, IsTermList, make, sort_of};
ghost use Rattle.smt_terms.specs.Values.{HasSort, Interpretation, value};
ghost use Rattle.smt_terms.specs.Evaluations.{IsEvaluation};

/// Making a node keeps a list of terms one, and two nodes made one after the other have one number exactly where they
/// are equal.
pub fn equal_nodes_have_equal_numbers()
    ensures kept { (v w : TermsValue) (n : Node) (t : ℕ) → AreTerms v → Agrees v.nodes n.op
        → make v n ≡ Ok (t, w) → AreTerms w }
    ensures numbers { (v w x : TermsValue) (n m : Node) (t u : ℕ) → AreTerms w → Agrees w.nodes m.op
        → make v n ≡ Ok (t, w) → make w m ≡ Ok (u, x) → (t ≡ u) ↔ (n ≡ m) }
{}

/// The widths in the sort of each term are 1 to 128.
pub fn widths_are_in_range()
    ensures { (nodes : List Node) (t : ℕ) → IsTermList nodes → t < length nodes
        → IsSort (sort_of nodes t) }
{}

/// The value of each term is of its sort, in every interpretation.
pub fn values_are_of_their_sorts()
    ensures { (M : Interpretation) (nodes : List Node) (t : ℕ) → IsTermList nodes → t < length nodes
        → HasSort (sort_of nodes t) (value M nodes t) }
{}

/// The values of terms are one evaluation among those in which witnesses are any words.
pub fn values_are_an_evaluation()
    ensures { (M : Interpretation) (nodes : List Node) → IsTermList nodes
        → IsEvaluation M nodes (value M nodes) }
{}

/// More terms change neither the sort nor the value of those before.
pub fn more_terms_change_nothing()
    ensures sort { (nodes more : List Node) (t : ℕ) → t < length nodes
        → sort_of (nodes ++ more) t ≡ sort_of nodes t }
    ensures value { (M : Interpretation) (nodes more : List Node) (t : ℕ) → t < length nodes
        → value M (nodes ++ more) t ≡ value M nodes t }
{}
