// How checks are searched.

ghost use Rattle.std.specs.Prelude.{◌≡◌};
ghost use Rattle.check_cubes.specs.Searches as check_cubes;
ghost use Rattle.smt_session.specs.Sessions.{limits_of};

use check_cubes::Limits;

/// How checks are searched.
#[derive(Clone, Copy, Debug, PartialEq, Eq)]
pub struct Settings {
    /// How many workers search the cubes of a check, from 1 to 64.
    pub workers: u32,
    /// How many variables split a check into cubes.
    pub cubes: u32,
    /// How many clauses the search of a cube may learn.
    pub budget: u32,
}

impl Settings {
    /// One worker, one cube, a budget of 100000 clauses.
    pub const DEFAULT: Settings = Settings {
        workers: 1,
        cubes: 0,
        budget: 100000,
    };

    /// The limits of a proof's header.
    pub fn limits(&self) -> Limits
        ensures { check_cubes.limits_of result ≡ limits_of self.now }
    {
        Limits {
            cubes: self.cubes,
            budget: u64::from(self.budget),
        }
    }
}
