//! What a refused proof is told.

/// A rule that a line of a proof breaks.
#[derive(Clone, Copy, Debug, PartialEq, Eq)]
pub enum RuleName {
    /// The first line is no whole header.
    Header,
    /// The line is none of a proof, or cannot stand at its place.
    Line,
    /// The term cannot be made.
    Node,
    /// The term gets no variables.
    Leaf,
    /// The term gets no circuit.
    Encode,
    /// The term is not rewritten so.
    Rewrite,
    /// The assertion gets no selector.
    Selector,
    /// The two terms get no equality.
    Equal,
    /// The clause is no lemma.
    Lemma,
    /// The hints are no chain.
    Chain,
    /// The places are not those of lemmas and chains that can be deleted.
    Delete,
    /// The values are no model.
    Sat,
    /// The clause is no refutation.
    Unsat,
    /// The lines are no spent diary.
    Diary,
    /// The text ends before a record does, or goes on behind the last.
    End,
}

/// The first bad line of a proof, and its rule. Lines are counted from 1.
#[derive(Clone, Copy, Debug, PartialEq, Eq)]
pub struct Refusal {
    pub line: u64,
    pub rule: RuleName,
}
