// What the rows of a network say of terms.

ghost use Rattle.std.specs.Prelude.{◌≡◌, ◌+◌, ℕ, List, Option, Some, false, length, slice_get, Contains};
ghost use Rattle.smt_terms.specs.declared.node.Node.{Node};
ghost use Rattle.smt_terms.specs.Terms.{IsTermList};
ghost use Rattle.smt_terms.specs.Values.{Value};
ghost use Rattle.theory_terms.specs.declared.lemma.Move.{Move};
ghost use Rattle.theory_terms.specs.declared.lemma.Access.{Access};
ghost use Rattle.theory_terms.specs.declared.lemma.Lemma.TheVariants.{Arrays};
ghost use Rattle.theory_terms.specs.declared.atom.Atom.{Atom};
ghost use Rattle.theory_terms.specs.declared.atom.Landing.{Landing};
ghost use Rattle.theory_terms.specs.Lemmas.{atoms_of, some_true};
ghost use Rattle.access_tables.specs.Tables.{IsClosedTable};
ghost use Rattle.theory_terms.specs.declared.lemma.Start as of;
ghost use Rattle.access_spread.specs.declared.graph.Graph.{Graph};
ghost use Rattle.access_spread.specs.declared.graph.Gate.{Gate};
ghost use Rattle.access_spread.specs.declared.spreading.Start.{Start};
ghost use Rattle.access_spread.specs.declared.spreading.Row.{Row};
ghost use Rattle.access_spread.specs.Spreads.{IsTable, IsClash, IsWayOf};
ghost use Rattle.access_walk.specs.declared.guard.Guard.{Guard};
ghost use Rattle.access_walk.specs.Maps.{IsMap, IsValued};
ghost use Rattle.access_walk.specs.Networks.{IsNetwork, AreApart, AreCongruent, landings_of, IsAccessOf};

/// The rows of a network without a clash are a table that is closed under all moves.
pub fn tables_are_closed()
    ensures { (nodes : List Node) (image : ℕ → Option ℕ) (terms : List ℕ) (val : ℕ → Value)
        (arrays : List ℕ) (moves : List Move) (origins : List of.Start) (landings : List Landing)
        (g : Graph) (gates : List Gate) (starts : List Start) (rows : List Row)
        → IsNetwork nodes image (Contains terms) val arrays moves origins landings g gates starts
        → AreCongruent nodes image (Contains terms) val
        → AreApart nodes image (Contains terms) val → IsTable g gates starts rows
        → IsClosedTable nodes image (Contains terms) val (landings_of arrays landings rows) }
{}

/// The accesses of two rows that clash, by the paths on which they came, are a lemma that is false.
pub fn clashes_are_false()
    ensures { (nodes : List Node) (image : ℕ → Option ℕ) (terms : List ℕ) (val : ℕ → Value)
        (arrays : List ℕ) (moves : List Move) (origins : List of.Start) (landings : List Landing)
        (g : Graph) (gates : List Gate) (starts : List Start) (rows : List Row) (p q : ℕ)
        (left right : Row) (ls rs : List ℕ)
        → IsNetwork nodes image (Contains terms) val arrays moves origins landings g gates starts
        → IsClash g gates starts rows p → slice_get rows p ≡ Some left
        → slice_get rows q ≡ Some right → length rows ≡ q + 1
        → IsWayOf g gates starts rows p ls → IsWayOf g gates starts rows q rs
        → (a b : Access) → IsAccessOf nodes moves landings left ls a
        → IsAccessOf nodes moves landings right rs b
        → (atoms : List Atom) × (atoms_of nodes (Arrays a b) ≡ Some atoms)
        × (some_true val atoms ≡ false) }
{}

/// The map of reached terms is a network under each assignment, with the gates and starts that the
/// assignment gives.
pub fn maps_are_networks()
    ensures { (nodes : List Node) (image : ℕ → Option ℕ) (terms : List ℕ) (val : ℕ → Value)
        (arrays : List ℕ) (moves : List Move) (guards : List Guard) (origins : List of.Start)
        (landings : List Landing) (g : Graph) (gates : List Gate) (starts : List Start)
        → IsMap nodes image (Contains terms) arrays moves guards origins landings g
        → IsValued nodes image (Contains terms) val arrays guards landings gates starts
        → IsNetwork nodes image (Contains terms) val arrays moves origins landings g gates starts }
{}
