// Where a part of a command stands among its tokens.

/// The tokens from `start` on that stand before `end`.
#[derive(Clone, Copy, Debug, PartialEq, Eq)]
pub struct Span {
    pub start: usize,
    pub end: usize,
}
