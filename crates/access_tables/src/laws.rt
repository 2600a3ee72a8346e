// What follows from a closed table.

ghost use Rattle.std.specs.Prelude.{ℕ, Bool, List, None, Contains};
ghost use Rattle.smt_terms.specs.declared.node.Node.{Node};
ghost use Rattle.smt_terms.specs.Bits.{TermBits};
ghost use Rattle.smt_terms.specs.Terms.{IsTermList};
ghost use Rattle.smt_terms.specs.Values.{Interpretation};
ghost use Rattle.term_reach.specs.Reach.{IsAcyclic};
ghost use Rattle.access_tables.specs.Leading.{leads};
ghost use Rattle.access_tables.specs.Encoded.{HaveBits, AreSatisfied};
ghost use Rattle.access_tables.specs.Held.{TableValue, IsClosedUnder};
ghost use Rattle.access_tables.specs.Modeled.{IsFrom, IsModel};

/// In an interpretation that has the values of an assignment for declared constants and
/// applications, and the arrays of a table that is closed under it, every term without a witness
/// has the assignment's value, or the table's words.
pub fn closed_tables_give_models()
    ensures { (nodes : List Node) (bits : List TermBits) (f : ℕ → Bool) (table : TableValue)
        (M : Interpretation)
        → IsTermList nodes → HaveBits nodes bits (Contains table.terms)
        → AreSatisfied nodes bits f (Contains table.terms)
        → IsClosedUnder nodes bits f table → IsFrom nodes bits f table M
        → IsModel nodes bits f table M }
{}

/// Where no term has an image, no way through arguments and witness selects leads back.
pub fn terms_without_images_lead_down()
    ensures { (nodes : List Node) → IsTermList nodes → IsAcyclic (leads nodes (λ t. None)) }
{}
