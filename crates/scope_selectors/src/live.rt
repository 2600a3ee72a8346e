//! Live assertions.

use smt_terms::node::TermId;
use smt_text::text::Text;

/// The number of an assertion, in the order in which assertions were made.
pub type AssertId = u32;

/// An assertion that stands.
#[derive(Debug, Drop)]
pub struct Live {
    pub assertion: AssertId,
    pub term: TermId,
    pub name: Option<Text>,
    /// How many levels stood above the first when it was made.
    pub level: u64,
}
