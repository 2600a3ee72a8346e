// What the checks of a session leave to the next one.

use cube_workers::KeptSearch;
use opening_positions::TheorySteps;
use proof_log::Log;
use reached_images::Plan;
use term_reach::Reached;

/// The log of the checks, what is kept of its steps, the searches of their cubes, one of each worker, which keep what they
/// learnt, the terms that were reached last, and what the last check planned.
#[derive(Drop)]
pub(crate) struct Workspace {
    pub(crate) log: Log,
    pub(crate) steps: TheorySteps,
    pub(crate) searches: Vec<KeptSearch>,
    pub(crate) reached: Reached,
    pub(crate) plan: Plan,
}
