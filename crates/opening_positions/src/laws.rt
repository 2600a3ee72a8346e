//! What follows from the definitions alone.

ghost use Rattle.opening_positions.specs.Reading.{MoreStepsKeepRead};

/// What was read of a log was read of a longer one, also over more terms.
pub fn more_steps_keep_what_was_read()
    ensures { MoreStepsKeepRead }
{}
