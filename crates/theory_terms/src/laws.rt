// What the definitions of arrays and of lemmas promise together.

ghost use Rattle.std.specs.Prelude.{◌≡◌, ◌++◌, ◌↔◌, ℕ, List, Bool, Option, true, Some};
ghost use Rattle.std.specs.List.{AllByRecursion};
ghost use Rattle.smt_terms.specs.declared.node.Node.{Node};
ghost use Rattle.smt_terms.specs.declared.sort.Sort.TheVariants as sort;
ghost use Rattle.smt_terms.specs.Terms.{IsTermList};
ghost use Rattle.smt_terms.specs.Values.{Value, HasSort, Interpretation, same_value, select_of, store_of, value};
ghost use Rattle.theory_terms.specs.declared.atom.Atom.{Atom};
ghost use Rattle.theory_terms.specs.declared.lemma.Lemma.{Lemma};
ghost use Rattle.theory_terms.specs.Lemmas.{atoms_of, some_true};
ghost use Rattle.theory_terms.specs.Named.{NamesTruth, AreHeld};

/// Arrays obey the axioms of ArraysEx (SMT-LIB 2.6): what is stored at an index is selected there, every other index has
/// what it had, and arrays are equal exactly where they have the same element at every index.
pub fn arrays_obey_the_axioms()
    ensures stored { (n m : ℕ) (a i x : Value)
        → HasSort (sort.Array n m) a → HasSort (sort.Word n) i → HasSort (sort.Word m) x
        → select_of (store_of a i x) i ≡ x }
    ensures others { (n m : ℕ) (a i j x : Value)
        → HasSort (sort.Array n m) a → HasSort (sort.Word n) i → HasSort (sort.Word n) j
        → HasSort (sort.Word m) x
        → (i ≡ j → ⊥) → select_of (store_of a i x) j ≡ select_of a j }
    ensures equal { (n m : ℕ) (a b : Value)
        → HasSort (sort.Array n m) a → HasSort (sort.Array n m) b
        → (same_value a b ≡ true)
        ↔ ((i : Value) → HasSort (sort.Word n) i → select_of a i ≡ select_of b i) }
{}

/// Some atom of a lemma is true, in every interpretation.
pub fn lemmas_are_sound()
    ensures { (M : Interpretation) (nodes : List Node) (lemma : Lemma) (atoms : List Atom)
        → IsTermList nodes → atoms_of nodes lemma ≡ Some atoms
        → some_true (value M nodes) atoms ≡ true }
{}

/// Each term that a lemma says to be true or false is a Bool.
pub fn lemmas_name_truths()
    ensures { (nodes : List Node) (lemma : Lemma) (atoms : List Atom)
        → IsTermList nodes → atoms_of nodes lemma ≡ Some atoms
        → AllByRecursion (NamesTruth nodes) atoms }
{}

/// The terms that a lemma names are held.
pub fn lemmas_name_held_terms()
    ensures { (nodes : List Node) (lemma : Lemma) (atoms : List Atom)
        → atoms_of nodes lemma ≡ Some atoms → AreHeld nodes lemma }
{}

/// More terms change nothing of what a lemma says.
pub fn more_terms_keep_lemmas()
    ensures { (nodes more : List Node) (lemma : Lemma) (atoms : List Atom)
        → atoms_of nodes lemma ≡ Some atoms → atoms_of (nodes ++ more) lemma ≡ Some atoms }
{}
