//! Why levels are refused.

/// More levels would stand than may, or more would go than are held: so many are held.
#[derive(Clone, Copy, Debug, PartialEq, Eq)]
pub struct OutOfRange {
    pub held: u64,
}
