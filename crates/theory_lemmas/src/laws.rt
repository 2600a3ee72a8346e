// What the definitions promise together.

ghost use Rattle.std.specs.Prelude.{◌≡◌, ◌<◌, ℕ, List, Bool, Option, true, Some, Ok};
ghost use Rattle.cnf_base.specs.Literals.{Literal};
ghost use Rattle.cnf_base.specs.Clauses.{clause_true};
ghost use Rattle.cnf_base.specs.Assignments.{AreBelow};
ghost use Rattle.smt_terms.specs.declared.node.Node.{Node};
ghost use Rattle.smt_terms.specs.Terms.{IsTermList, sort_of};
ghost use Rattle.smt_terms.specs.Values.{Interpretation, value};
ghost use Rattle.theory_terms.specs.declared.lemma.Lemma.{Lemma};
ghost use Rattle.theory_lemmas.specs.Clauses.{Means, clause_of};

/// A lemma's clause is true where its variables mean what the terms are.
pub fn lemma_clauses_are_sound()
    ensures { (f : ℕ → Bool) (M : Interpretation) (nodes : List Node) (bits : ℕ
        → Option (List Literal)) (equals : ℕ → ℕ → Option Literal) (lemma : Lemma)
        (c : List Literal)
        → IsTermList nodes → Means f (sort_of nodes) (value M nodes) bits equals
        → clause_of nodes bits equals lemma ≡ Ok c → clause_true f c ≡ true }
{}

/// More bits and more variables of equalities leave a lemma's clause as it is.
pub fn more_bits_keep_clauses()
    ensures { (nodes : List Node) (bits more : ℕ → Option (List Literal))
        (equals others : ℕ → ℕ → Option Literal) (lemma : Lemma) (c : List Literal)
        → ((t : ℕ) (b : List Literal) → bits t ≡ Some b → more t ≡ Some b)
        → ((t u : ℕ) (l : Literal) → equals t u ≡ Some l → others t u ≡ Some l)
        → clause_of nodes bits equals lemma ≡ Ok c → clause_of nodes more others lemma ≡ Ok c }
{}

/// Where the variables of bits and of equalities are below a number above 1, those of a lemma's clause are.
pub fn clauses_are_below()
    ensures { (n : ℕ) (nodes : List Node) (bits : ℕ → Option (List Literal))
        (equals : ℕ → ℕ → Option Literal) (lemma : Lemma) (c : List Literal)
        → 1 < n
        → ((t : ℕ) (b : List Literal) → bits t ≡ Some b → AreBelow n b)
        → ((t u : ℕ) (l : Literal) → equals t u ≡ Some l → l.variable < n)
        → clause_of nodes bits equals lemma ≡ Ok c → AreBelow n c }
{}
