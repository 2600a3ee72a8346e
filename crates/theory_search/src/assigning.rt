//! The values of the variables on which the values of terms stand.

ghost use Rattle.std.specs.Prelude.{ℕ, ◌≡◌, ◌<◌, ◌==◌, ◌^◌, if◌then◌else◌, IfOk, OnOk, Contains};
ghost use Rattle.variable_list.specs.Variables.{IsVariable};
ghost use Rattle.bit_blast.specs.Assigned.{assigned};
ghost use Rattle.cube_search.specs.Running.{valuation_of};

use bit_blast::Assignment;
use cnf_base::Lit;
use cube_search::Search;
use std::alloc::{AllocError, Global};
use variable_list::VariableList;

// Gives a variable a value.
fn assign(values: &mut Vec<bool>, variable: u64, value: bool) -> Result<(), AllocError>
    requires { IsVariable variable }
    ensures { OnOk result ((x : ℕ) → 0 < x
        → assigned values.new.items x
        ≡ (if x == variable then value else assigned values.old.items x)) }
{
    let place = variable as usize - 1;
    if place >= values.len() {
        values.resize(place + 1, false)?;
    }
    values[place] = value;
    Ok(())
}

/// The values of these variables under the true literals of a search; every other variable is false.
pub(crate) fn assignment_of(
    alloc: Global,
    variables: &VariableList,
    search: &Search,
) -> Result<Assignment, AllocError>
    ensures { IfOk result (λ a. (x : ℕ) → Contains variables.now x
        → assigned a x ≡ valuation_of search.now x) }
{
    let mut values = Vec::new(alloc);
    'variables: for variable in variables.as_slice() {
        let value = search.is_true(Lit::new(*variable, true));
        assign(&mut values, *variable, value)?;
    }
    Ok(Assignment::new(values))
}
