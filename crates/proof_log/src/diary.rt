//! Diaries: what a search held and put, from which a checker sees that it spent its budget.

use cnf_base::Pos;
use plain_list::List;

/// A line of a diary. It names a position of a log.
#[derive(Clone, Copy, Debug, PartialEq, Eq)]
pub enum DiaryLine {
    /// All clauses of the position are held from here on.
    Take(Pos),
    /// The chain at the position is put, and held from here on.
    Put(Pos),
    /// The chain at the position is held no longer.
    Drop(Pos),
}

/// Lines of a diary.
pub type DiaryLines = List<DiaryLine>;

/// What a search wrote that spent its budget on a cube of a check.
#[derive(Debug, Drop)]
pub struct Diary {
    /// The number of the cube.
    pub cube: u32,
    /// All that is no chain and stands before this position is held at the start.
    pub start: Pos,
    /// What was held and put from there on.
    pub lines: DiaryLines,
}
