// The cubes of a check.

ghost use Rattle.std.specs.Prelude.{◌≡◌, ◌≤◌, ◌<◌, ◌^◌, IfOk, MatchOption, length};
ghost use Rattle.cube_tree.specs.Cubes.{cube_of, AreVariables};
ghost use Rattle.proof_log.specs.Stored.{Stands};
ghost use Rattle.accepted_proof.specs.Searching.{Rise, cube_variables};
ghost use Rattle.check_cubes.specs.Searches.{limits_of};

use crate::leaves::declared_variables;
use crate::limits::Limits;
use cnf_base::Lit;
use proof_log::Log;
use script_state::state::State;
use std::alloc::{AllocError, Global};
use term_reach::{Reached, reach_by_arguments};

/// The variables that split a check, in rising order: those of the declared names that it reaches, as many as the limits
/// allow. Where they allow none, no term is looked at. `reached` is room for the walk, which its owner keeps from check to
/// check; what it had may be forgotten.
pub fn cube_variables(
    alloc: Global,
    state: &State,
    log: &Log,
    limits: Limits,
    reached: &mut Reached,
) -> Result<Vec<u64>, AllocError>
    requires { Stands state.now.terms.nodes log.now }
    ensures variables { IfOk result
        (λ v. v.items
        ≡ cube_variables (limits_of limits) state.now state.now.terms.nodes log.now.entries) }
    ensures rise { IfOk result (λ v. Rise 2 log.now.next v.items) }
    ensures each { IfOk result (λ v. AreVariables v.items) }
{
    if limits.cubes == 0 {
        return Ok(Vec::new(alloc));
    }
    let terms = state.terms();
    let roots = state.roots(alloc)?;
    reach_by_arguments(alloc, terms, roots.as_slice(), reached)?;
    let mut variables = declared_variables(alloc, terms, log, reached.terms())?;
    variables.sort_unstable();
    variables.truncate(limits.cubes as usize);
    Ok(variables)
}

/// The literals of a cube over these variables; nothing where they have none of its number.
pub fn cube_literals(
    alloc: Global,
    variables: &[u64],
    cube: u64,
) -> Result<Option<Vec<Lit>>, AllocError>
    requires { AreVariables variables.now }
    ensures { IfOk result (λ o. MatchOption o
        (2 ^ length variables.now ≤ cube)
        (λ c. (cube < 2 ^ length variables.now) × (c.items ≡ cube_of variables.now cube))) }
{
    let mut literals = Vec::new(alloc);
    let mut rest = cube;
    'variables: for variable in variables {
        literals.push(Lit::new(*variable, rest % 2 == 0))?;
        rest /= 2;
    }
    if rest != 0 {
        return Ok(None);
    }
    Ok(Some(literals))
}
