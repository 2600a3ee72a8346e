//! What images bring.

ghost use Rattle.std.specs.Prelude.{◌≡◌, ℕ, List, Option, true};
ghost use Rattle.smt_terms.specs.declared.node.Node.{Node};
ghost use Rattle.smt_terms.specs.Bits.{image_in};
ghost use Rattle.smt_terms.specs.Terms.{AreDifferent, IsTermList};
ghost use Rattle.bv_rules.specs.declared.rule.Rule.{Rule};
ghost use Rattle.bv_rules.specs.Matches.{matches, AreImages};
ghost use Rattle.proof_log.specs.Stored.{LogValue, Stands};
ghost use Rattle.array_images.specs.Brought.{AreBrought, IsBrought};
ghost use Rattle.array_images.specs.Covered.{IsCovered, IsLed};
ghost use Rattle.array_images.specs.Walking.{HasWatches, IsRewritten};

/// A rule brings no array, no equality of arrays and no index, over images that bring none.
pub fn rules_bring_no_arrays()
    ensures { (nodes : List Node) (images : ℕ → Option ℕ) (rule : Rule) (t u : ℕ) → IsTermList nodes
        → AreDifferent nodes → AreImages nodes images → AreBrought nodes images
        → matches nodes images rule t u ≡ true → IsBrought nodes images t u }
{}

/// Where images bring no array, each array and each equality of arrays that terms reach by images
/// is reached through arguments; and the index of each select or store is what such an index, or
/// the witness of such an equality, becomes.
pub fn images_reach_no_arrays()
    ensures { (nodes : List Node) (image : ℕ → Option ℕ) (roots : List ℕ) → IsTermList nodes
        → AreBrought nodes image → (t : ℕ) → IsLed nodes image roots t
        → IsCovered nodes image roots t }
{}

/// The images of a log bring no array.
pub fn logs_bring_no_arrays()
    ensures { (nodes : List Node) (log : LogValue) → IsTermList nodes → AreDifferent nodes
        → Stands nodes log → AreBrought nodes (image_in log.bits) }
{}

/// Where a check made its watches and its index words before images were given that bring no
/// array, each equality of arrays that its roots reach by images has its watch, and each constant
/// array has the index words of its width.
pub fn watches_outlast_images()
    ensures { (old nodes : List Node) (image : ℕ → Option ℕ) (roots : List ℕ)
        → IsRewritten old nodes image roots → HasWatches old nodes image roots }
{}
