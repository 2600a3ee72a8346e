//! What follows from the definitions alone.

ghost use Rattle.cube_search.specs.Later.{MoreStepsKeepSearches, MoreStepsKeepDiaries};

/// A search between two runs is one of a log to which equalities and lemmas were added, and its diary is kept over it.
pub fn more_steps_keep_searches()
    ensures search { MoreStepsKeepSearches }
    ensures diary { MoreStepsKeepDiaries }
{}
