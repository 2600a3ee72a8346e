// What is owed of a check.

use accepted_proof::refusal::Refusal;
use cnf_base::Pos;
use diary_checker::DiaryReader;
use proof_log::diary::DiaryLines;

/// The diary of a cube, of which lines are owed.
#[derive(Drop)]
pub struct Noting {
    pub(crate) cube: u64,
    pub(crate) start: Pos,
    /// How many lines there are behind the next one.
    pub(crate) left: u64,
    /// Those that were read.
    pub(crate) lines: DiaryLines,
    pub(crate) reader: DiaryReader,
}

/// What is owed of the check that stands open, if one does, or the refusal of a line.
#[derive(Drop)]
pub enum Due {
    Nothing,
    /// Its steps and its record.
    Steps,
    /// Further values of a model.
    Values,
    /// Further lines of a diary.
    Noted(Noting),
    Over(Refusal),
}
