//! What a session gives a walk.

ghost use Rattle.std.specs.Prelude.{ℕ, List};
ghost use Rattle.smt_terms.specs.declared.node.Node.{Node};
ghost use Rattle.smt_terms.specs.Bits.{image_in};
ghost use Rattle.access_tables.specs.Encoded.{HaveBits};
ghost use Rattle.access_walk.specs.Walked.{IsWalkable};
ghost use Rattle.proof_log.specs.Stored.{LogValue, Stands};
ghost use Rattle.array_images.specs.Covered.{IsLed};
ghost use Rattle.array_images.specs.Walking.{IsRewritten};
ghost use Rattle.session_walks.specs.Words.{HaveWordBits};

/// Where a check made its watches and its index words before images were given that bring no array,
/// and a log gives bits to what its roots reach by images and to these words, a walk from the roots
/// may be called for.
pub fn sessions_may_walk()
    ensures { (old nodes : List Node) (log : LogValue) (roots : List ℕ) → Stands nodes log
        → IsRewritten old nodes (image_in log.bits) roots
        → HaveBits nodes log.bits (IsLed nodes (image_in log.bits) roots)
        → HaveWordBits old nodes log.bits roots → IsWalkable nodes log.bits roots }
{}
