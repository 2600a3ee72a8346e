//! What follows from the definition of cores alone.

ghost use Rattle.std.specs.Prelude.{◌≡◌, ◌↔◌, List, true, Contains};
ghost use Rattle.cnf_base.specs.Literals.{Literal};
ghost use Rattle.scope_selectors.specs.Cores.{stands};

/// The test of a literal tells exactly whether it is one of the clause's.
pub fn standing_literals_are_the_clauses()
    ensures { (clause : List Literal) (l : Literal)
        → (stands clause l ≡ true) ↔ (Contains clause l) }
{}
