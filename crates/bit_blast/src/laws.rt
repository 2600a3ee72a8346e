//! What the circuits of terms mean.

ghost use Rattle.bit_blast.specs.Meanings.{BlocksAreCorrect, BlocksAreOrdered, BlocksAreSmall, BlocksExist, BlocksExtendAssignments, ClausesFixValues};

/// In every assignment in which each gate of a term's block has its meaning, the bits of the block are those of the
/// value that the term's operator gives of its arguments' values.
pub fn blocks_are_correct()
    ensures { BlocksAreCorrect }
{}

/// Each gate of a term's block stands after its inputs, so that an assignment of the variables so far goes on over the
/// block in exactly one way (`cnf_base` has this of every such row), and the block's bits are of variables that there are.
pub fn blocks_are_ordered()
    ensures { BlocksAreOrdered }
{}

/// In every assignment that makes variable 1 true and the clauses of a term's block true, the bits of the block are
/// those of the value that the term's operator gives of its arguments' values.
pub fn clauses_fix_values()
    ensures { ClausesFixValues }
{}

/// Every assignment of the variables so far goes on over a term's block in exactly one way, and the bits of the block
/// are then those of the value that the term's operator gives of its arguments' values.
pub fn blocks_extend_assignments()
    ensures { BlocksExtendAssignments }
{}

/// No term whose arguments have at most 128 bits has a block of more than 2^17 gates.
pub fn blocks_are_small()
    ensures { BlocksAreSmall }
{}

/// A term has a block where its operator is no declaration and no parameter and takes arguments of their sorts, and each
/// argument has as many bits as its sort.
pub fn blocks_exist()
    ensures { BlocksExist }
{}
