// What the program's words ask for.

use std::alloc::AllocError;

/// What is to be done.
#[derive(Clone, Copy, Debug, PartialEq, Eq)]
pub enum Command {
    /// To answer a script, and to write its proof into a file.
    Solve,
    /// To check a proof of a script, which stands in a file.
    Check,
    /// To check a refutation of clauses, which stands in a file.
    Lrat,
    /// To search clauses, and to write a refutation of them into a file.
    Cnf,
    /// To read a proof of the first format, which stands in a file, and to write it in the second into another.
    Convert,
    /// To answer a script that is drawn, to write its proof into a file, and to sum up the answers.
    Drill,
}

/// How many workers search, and within which limits.
#[derive(Clone, Copy, Debug, PartialEq, Eq)]
pub struct Options {
    /// How many workers search the cubes of a check, from 1 to 64.
    pub workers: u32,
    /// How many variables split a check into cubes, from 0 to 10.
    pub cubes: u32,
    /// How many clauses the search of a cube may learn, from 0 to 1,000,000,000.
    pub budget: u32,
}

impl Options {
    /// One worker, one cube, a budget of 100000 clauses.
    pub const USUAL: Options = Options {
        workers: 1,
        cubes: 0,
        budget: 100000,
    };
}

/// Which script is drawn.
#[derive(Clone, Copy, Debug, PartialEq, Eq)]
pub struct Draw {
    /// The number that it is drawn from.
    pub seed: u64,
    /// How many words it has, from 1 to 1000.
    pub size: u32,
}

/// A command with its files and numbers.
#[derive(Clone, Copy, Debug)]
pub struct Plan<'a> {
    pub command: Command,
    /// The name of the proof file.
    pub proof: &'a str,
    /// The name of the file that a proof is written into: the same, but where another is named for it.
    pub out: &'a str,
    /// The name of the file of the script, or of the clauses; without one that is read from standard input.
    pub script: Option<&'a str>,
    pub options: Options,
    /// The script that is drawn: of seed 0 and size 0, but for `drill`.
    pub draw: Draw,
}

/// Why there is no plan.
#[derive(Clone, Copy, Debug, PartialEq, Eq)]
pub enum Unplanned {
    /// The words are not taken.
    Usage,
    NoMemory,
}

impl From<AllocError> for Unplanned {
    ghost use Rattle.std.specs.Prelude.{◌≡◌};
    ghost use Rattle.tool_words.specs.declared.words.Unplanned.TheVariants.{NoMemory};

    ghost from_gives = { λ _ s. s ≡ NoMemory };

    fn from(_error: AllocError) -> Unplanned {
        Unplanned::NoMemory
    }
}
