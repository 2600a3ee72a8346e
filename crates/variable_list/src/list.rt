//! Variables in an order.

ghost use Rattle.std.specs.Prelude.{◌≡◌, ◌<◌, ◌^◌, [], ◌∷◌, ◌++◌, MatchBool, MatchOption, IfOk, OnOk, OnErr, Some, All, Contains, length, slice_get, take};
ghost use Rattle.variable_list.specs.Variables.{IsVariable, IsOnce, IsListed, Keeps};

use std::alloc::{AllocError, Global};
use std::marker::Model;

/// Variables in the order in which they came, each once: contracts see that list. To forget them does not visit the table by
/// variable.
#[derive(Debug, Drop)]
pub struct VariableList {
    places: Vec<usize>,
    variables: Vec<u64>,
}

impl Model for VariableList {
    ghost use Rattle.std.specs.Prelude.{ℕ, List};
    ghost use Rattle.variable_list.specs.Variables.{IsTable};

    ghost Value = { List ℕ };

    ghost view = { λ v. v.variables.items };

    ghost invariant = { λ v. IsTable v.places.items v.variables.items };
}

// Makes a table longer, so that it has this row; where it grows, more rows come with it, so that this is seldom.
fn make_room(places: &mut Vec<usize>, row: usize) -> Result<(), AllocError>
    requires { row < 2 ^ 63 }
    ensures room { OnOk result (row < length places.new.items) }
    ensures kept { Keeps places.old.items places.new.items }
{
    if row >= places.len() {
        let rows = row + row / 4 + 64;
        places.resize(rows, 0)?;
    }
    Ok(())
}

impl VariableList {
    /// No variable; takes no memory.
    pub fn new(alloc: Global) -> VariableList
        ensures { result ≡ [] }
    {
        VariableList {
            places: Vec::new(alloc),
            variables: Vec::new(alloc),
        }
    }

    /// The variables in their order; takes no memory.
    pub fn as_slice(&self) -> &[u64]
        ensures items { result.now ≡ self.now }
        ensures variables { All IsVariable self.now }
        ensures once { IsOnce self.now }
    {
        self.variables.as_slice()
    }

    /// The same variables in the same order, in memory of its own.
    pub fn copy(&self, alloc: Global) -> Result<VariableList, AllocError>
        ensures { IfOk result (λ copied. copied ≡ self.now) }
    {
        let places = Vec::from_slice(alloc, self.places.as_slice())?;
        let variables = Vec::from_slice(alloc, self.variables.as_slice())?;
        Ok(VariableList { places, variables })
    }

    /// Whether the variable is listed; takes no memory.
    pub fn has(&self, variable: u64) -> bool
        ensures { MatchBool result (Contains self.now variable) (Contains self.now variable → ⊥) }
    {
        self.place_of(variable).is_some()
    }

    /// Forgets all variables; takes no memory.
    pub fn clear(&mut self)
        ensures { self.new ≡ [] }
    {
        self.variables.clear();
    }

    /// Forgets the variables from this place on; takes no memory.
    pub fn cut(&mut self, count: usize)
        ensures { self.new ≡ take count self.old }
    {
        self.variables.truncate(count);
    }

    /// The variable is listed from here on: it comes behind the others where it was not among them. An error leaves the list as
    /// it was.
    pub fn add(&mut self, variable: u64) -> Result<(), AllocError>
        requires { IsVariable variable }
        ensures listed { OnOk result (IsListed self.old variable self.new) }
        ensures err { OnErr result (self.new ≡ self.old) }
    {
        if self.has(variable) {
            return Ok(());
        }
        self.push(variable)?;
        Ok(())
    }

    // The place of a variable, none exactly where it is not listed.
    fn place_of(&self, variable: u64) -> Option<usize>
        ensures { MatchOption result (Contains self.now variable → ⊥)
            (λ k. slice_get self.now k ≡ Some variable) }
    {
        let Some(place) = self.places.get(variable as usize) else {
            return None
        };
        let Some(found) = self.variables.get(*place) else {
            return None
        };
        if *found == variable {
            Some(*place)
        } else {
            None
        }
    }

    // One variable more, which was not listed.
    fn push(&mut self, variable: u64) -> Result<(), AllocError>
        requires new { Contains self.old variable → ⊥ }
        requires variable { IsVariable variable }
        ensures items { OnOk result (self.new ≡ self.old ++ variable ∷ []) }
        ensures err { OnErr result (self.new ≡ self.old) }
    {
        let place = self.variables.len();
        let row = variable as usize;
        make_room(&mut self.places, row)?;
        self.variables.push(variable)?;
        self.places[row] = place;
        Ok(())
    }
}
