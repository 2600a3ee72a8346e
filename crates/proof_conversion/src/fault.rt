// Why a text is no proof of the first format.

/// A rule that the lines of a proof break, whatever they say.
#[derive(Clone, Copy, Debug, PartialEq, Eq)]
pub enum Rule {
    /// The first line is no whole header of the first format.
    Header,
    /// The line is none of a proof, or cannot stand at its place.
    Line,
    /// The text ends before a record does.
    End,
}

/// The first bad line of a text, and its rule. Lines are counted from 1.
#[derive(Clone, Copy, Debug, PartialEq, Eq)]
pub struct Fault {
    pub line: u64,
    pub rule: Rule,
}
