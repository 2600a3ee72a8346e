//! The cubes of a check.

ghost use Rattle.std.specs.Prelude.{◌≡◌, ◌<◌, ◌≤◌, ◌^◌, IfOk, length, take};
ghost use Rattle.cube_tree.specs.Cubes.{cube_of, AreVariables};

use cnf_base::{Clause, Lit};
use std::alloc::{AllocError, Global};
use std::marker::Model;

/// The greatest number of variables that split a check.
const MOST_VARIABLES: u32 = 10;

/// The variables that split a check, seen by contracts as their list, and the cubes.
#[derive(Debug, Drop)]
pub struct Tree {
    pub(crate) variables: Vec<u64>,
    cubes: Vec<Clause>,
}

impl Model for Tree {
    ghost use Rattle.std.specs.Prelude.{List, ℕ};
    ghost use Rattle.cube_tree.specs.Cubes.{AreCubes};

    ghost Value = { List ℕ };

    ghost view = { λ t. t.variables.items };

    ghost invariant = { λ t. AreCubes t.variables.items t.cubes.items };
}

// The literals of a cube.
fn cube_literals(alloc: Global, variables: &[u64], number: u32) -> Result<Clause, AllocError>
    requires { AreVariables variables.now }
    ensures { IfOk result (λ c. c ≡ cube_of variables.now number) }
{
    let mut literals = Vec::new(alloc);
    let mut rest = number;
    for variable in variables {
        literals.push(Lit::new(*variable, rest % 2 == 0))?;
        rest /= 2;
    }
    Ok(Clause::from_vec(literals))
}

impl Tree {
    /// The cubes over the first `depth` variables, or over all where there are fewer. Each is the variable of a literal,
    /// and `depth` is at most 10.
    pub fn split(alloc: Global, variables: &[u64], depth: u32) -> Result<Tree, AllocError>
        requires variables { AreVariables variables.now }
        requires depth { depth ≤ 10 }
        ensures { IfOk result (λ t. t ≡ take depth variables.now) }
    {
        let depth = variables.len().min(depth as usize);
        let variables = Vec::from_slice(alloc, &variables[..depth])?;
        let mut cubes = Vec::new(alloc);
        for number in 0..1 << depth {
            cubes.push(cube_literals(alloc, variables.as_slice(), number)?)?;
        }
        Ok(Tree { variables, cubes })
    }

    /// The literals of cube `number`, which is below `leaves`; takes no memory.
    pub fn cube(&self, number: u32) -> &[Lit]
        requires { number < 2 ^ length self.now }
        ensures { result.now ≡ cube_of self.now number }
    {
        self.cubes[number as usize].literals()
    }

    /// How many cubes there are; takes no memory.
    pub fn leaves(&self) -> u32
        ensures count { result ≡ 2 ^ length self.now }
        ensures bound { result ≤ 1024 }
    {
        self.cubes.len() as u32
    }

    /// The variables that split the check, the one of the lowest bit first.
    pub fn variables(&self) -> &[u64]
        ensures variables { result.now ≡ self.now }
        ensures each { AreVariables result.now }
    {
        self.variables.as_slice()
    }
}
