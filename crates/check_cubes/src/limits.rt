// The limits of a proof's header.

ghost use Rattle.std.specs.Prelude.{◌≡◌, MatchOption};
ghost use Rattle.accepted_proof.specs.Searching as searching;
ghost use Rattle.accepted_proof.specs.Searching.{AreLimits};
ghost use Rattle.check_cubes.specs.Searches.{limits_of};

/// How many variables may split a check, and how many chains the search of a cube may put.
#[derive(Clone, Copy, Debug, PartialEq, Eq)]
pub struct Limits {
    pub cubes: u32,
    pub budget: u64,
}

impl Limits {
    /// The limits with these numbers; nothing where a proof may not begin with them: at most 10 variables may split a check,
    /// and a search may put at most 1,000,000,000 chains.
    pub fn within(cubes: u64, budget: u64) -> Option<Limits>
        ensures { MatchOption result
            (AreLimits (record { cubes = cubes; budget = budget }) → ⊥)
            (λ l. AreLimits (limits_of l)
            × (limits_of l ≡ record { cubes = cubes; budget = budget })) }
    {
        if cubes > 10 || budget > 1_000_000_000 {
            return None;
        }
        Some(Limits {
            cubes: cubes as u32,
            budget,
        })
    }
}
