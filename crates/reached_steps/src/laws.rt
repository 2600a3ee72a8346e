//! What follows from the definitions alone.

ghost use Rattle.reached_steps.specs.Circuits.{BlocksStandOnArguments};
ghost use Rattle.reached_steps.specs.Reached.{ReachedStepsAreSeparate, StoredStepsAreSeparate};
ghost use Rattle.reached_steps.specs.Opening.{OpeningStepsAreApart, OpeningStepsAreSeparate, StoredOpeningsAreSeparate, TakenStepsAreOpening};

/// The bits and the clauses of a block are of variable 1, of variables of its arguments and of those of its gates, and each
/// clause has one of the last.
pub fn blocks_stand_on_arguments()
    ensures { BlocksStandOnArguments }
{}

/// Where with each term is its image, or its arguments where it has none, and positions are those of the steps that gave these
/// terms bits and of selectors of their assertions, in a log of Bools and words, each clause of another position that is no
/// chain's has a variable that stands in no clause of these.
pub fn reached_steps_are_separate()
    ensures log { ReachedStepsAreSeparate }
    ensures stored { StoredStepsAreSeparate }
{}

/// Where positions are beside these those of equalities of two such terms, and of all lemmas whose variables are of steps at the
/// positions, in a log with functions and arrays too, each clause of another position that is no chain's has a variable that
/// stands in no clause of these.
pub fn opening_steps_are_separate()
    ensures log { OpeningStepsAreSeparate }
    ensures stored { StoredOpeningsAreSeparate }
{}

/// In each clause of another position such a variable is none of the bits of these terms either.
pub fn opening_steps_are_apart()
    ensures { OpeningStepsAreApart }
{}

/// Where a search over such positions takes equalities of reached terms and lemmas over the variables of its positions, while
/// chains come beside them, its positions are such again, in the longer log.
pub fn taken_steps_are_opening()
    ensures { TakenStepsAreOpening }
{}
