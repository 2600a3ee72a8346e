//! What a check can rely on that has made its watches.

ghost use Rattle.std.specs.Prelude.{◌≡◌, ◌<◌, ℕ, false, List, All, length};
ghost use Rattle.smt_terms.specs.declared.node.Node.{Node};
ghost use Rattle.smt_terms.specs.Ranks.{is_array};
ghost use Rattle.smt_terms.specs.Terms.{IsTermList, sort_of};
ghost use Rattle.array_watches.specs.Needed.{watched};
ghost use Rattle.array_watches.specs.Watched.{IsWatched, Reached};

/// Each reached equality of arrays has its witness and the selects of its sides there, the index words of each reached constant
/// array are there, and nothing else is new.
pub fn watches_are_made()
    ensures { (nodes : List Node) (roots : List ℕ) → IsTermList nodes
        → All (λ t. t < length nodes) roots → IsWatched nodes (watched nodes roots) roots }
{}

/// Where no array is reached, a check makes nothing before all else.
pub fn words_need_no_watches()
    ensures { (nodes : List Node) (roots : List ℕ) → IsTermList nodes
        → ((t : ℕ) → Reached nodes roots t → is_array (sort_of nodes t) ≡ false)
        → watched nodes roots ≡ nodes }
{}
