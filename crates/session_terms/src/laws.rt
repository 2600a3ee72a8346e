//! What the order of a session's terms says, and what keeps it.

ghost use Rattle.std.specs.Prelude.{◌≡◌, ◌++◌, ℕ, List, [], true};
ghost use Rattle.std.specs.List.{AllByRecursion};
ghost use Rattle.smt_terms.specs.declared.node.Node.{Node};
ghost use Rattle.smt_terms.specs.Bits.{TermBits, image_in};
ghost use Rattle.smt_terms.specs.Ranks.{is_plain};
ghost use Rattle.smt_terms.specs.Terms.{AreDifferent, IsTermList, sort_of};
ghost use Rattle.term_reach.specs.Reach.{IsAcyclic, IsReached};
ghost use Rattle.proof_log.specs.declared.entry.Entry.{Entry};
ghost use Rattle.proof_log.specs.Stored.{LogValue, Stands};
ghost use Rattle.reached_images.specs.declared.plan.Planned.{Planned};
ghost use Rattle.reached_images.specs.Plans.{is_known, known_image, IsPlan};
ghost use Rattle.access_tables.specs.Encoded.{HaveBits};
ghost use Rattle.access_tables.specs.Held.{HasRow};
ghost use Rattle.access_tables.specs.Leading.{leads};
ghost use Rattle.array_images.specs.Covered.{IsLed};
ghost use Rattle.array_images.specs.Walking.{IsMadeWord, IsRewritten};
ghost use Rattle.session_terms.specs.Placed.{by_images, has_bits, GivesNoBits, IsComplete, IsInOrder, NeverLeadsBack};
ghost use Rattle.session_terms.specs.Walked.{IsEncoded};

/// From terms with bits, images and arguments lead to no Bool or word without bits, and no way leads
/// back.
pub fn order_is_complete()
    ensures { (nodes : List Node) (log : LogValue) → IsTermList nodes → Stands nodes log
        → IsInOrder nodes log.bits → IsComplete nodes log.bits × NeverLeadsBack nodes log.bits }
{}

/// More terms keep the order.
pub fn more_terms_keep_order()
    ensures { (nodes more : List Node) (bits : List TermBits) → IsInOrder nodes bits
        → IsInOrder (nodes ++ more) bits }
{}

/// The terms of a log without a step are in order.
pub fn empty_logs_are_in_order()
    ensures { (nodes : List Node) (log : LogValue) → Stands nodes log → log.entries ≡ []
        → IsInOrder nodes log.bits }
{}

/// Steps that give no bits keep the order.
pub fn bare_steps_keep_order()
    ensures { (nodes : List Node) (old new : LogValue) (steps : List Entry) → Stands nodes old
        → Stands nodes new → new.entries ≡ old.entries ++ steps
        → AllByRecursion GivesNoBits steps → IsInOrder nodes old.bits → IsInOrder nodes new.bits }
{}

/// A plan keeps the order where it was taken: what is known behind it has bits then, as far as it is
/// a Bool or a word, and has the image that the plan gives it.
pub fn plans_keep_order()
    ensures { (nodes : List Node) (old new : LogValue) (steps : List Planned) → IsTermList nodes
        → Stands nodes old → Stands nodes new → IsInOrder nodes old.bits
        → IsPlan nodes old.bits steps
        → ((t : ℕ) → is_plain (sort_of nodes t) ≡ true
        → is_known old.bits steps t ≡ has_bits new.bits t)
        → ((t : ℕ) → known_image old.bits steps t ≡ image_in new.bits t)
        → IsInOrder nodes new.bits }
{}

/// Where no way through images and arguments leads back, none does through the selects of equalities
/// of arrays at their witness either.
pub fn selects_lead_back_no_more()
    ensures { (nodes : List Node) (log : LogValue) → IsTermList nodes → AreDifferent nodes
        → Stands nodes log → NeverLeadsBack nodes log.bits
        → IsAcyclic (leads nodes (image_in log.bits)) }
{}

/// A check that made its watches and gave bits to what is live can be walked over: images brought no
/// array, and each Bool and each word that its roots reach has bits, with their watches; what they
/// reach is reached by images from what is live. So has each index word that was made.
pub fn encoded_terms_have_bits()
    ensures rewritten { (old nodes : List Node) (log : LogValue) (roots live : List ℕ)
        → IsEncoded old nodes log roots live → IsRewritten old nodes (image_in log.bits) roots }
    ensures bits { (old nodes : List Node) (log : LogValue) (roots live : List ℕ)
        → IsEncoded old nodes log roots live
        → HaveBits nodes log.bits (IsLed nodes (image_in log.bits) roots) }
    ensures reached { (old nodes : List Node) (log : LogValue) (roots live : List ℕ)
        → IsEncoded old nodes log roots live → (t : ℕ) → IsLed nodes (image_in log.bits) roots t
        → IsReached (by_images nodes (image_in log.bits)) live t }
    ensures words { (old nodes : List Node) (log : LogValue) (roots live : List ℕ)
        → IsEncoded old nodes log roots live → (n k w : ℕ) → IsMadeWord old nodes roots n k w
        → HasRow nodes log.bits w }
{}
