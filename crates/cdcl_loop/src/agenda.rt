//! The variables that are to be decided, in their order.

ghost use Rattle.std.specs.Prelude.{ℕ, ◌≡◌, ◌+◌, ◌<◌, ◌≤◌, [], List, length, filter, nat_le, slice_index, take, Contains, OnOk, MatchBool, MatchOption};
ghost use Rattle.cnf_base.specs.Literals.{Literal};
ghost use Rattle.variable_list.specs.Variables.{IsVariable, IsListed};
ghost use Rattle.cdcl_core.specs.Levels.{Row, IsOpen};
ghost use Rattle.cdcl_core.specs.Search.{literals_of, level_of};
ghost use Rattle.cdcl_core.specs.State.{IsConsistent};
ghost use Rattle.cdcl_loop.specs.Courses.{AreValued};
ghost use Rattle.cdcl_loop.specs.Agendas.{IsValuedBy, IsScanned};

use crate::choices::Choices;
use cdcl_core::Trail;
use cnf_base::Lit;
use std::alloc::{AllocError, Global};
use variable_list::VariableList;

/// The variables of a check in the order in which they are decided where none was bumped, and how far they have values.
#[derive(Drop)]
pub struct Agenda {
    pub(crate) list: VariableList,
    // each variable before this place of the list has a value
    pub(crate) cursor: usize,
    // by level: the cursor at its end
    pub(crate) marks: Vec<usize>,
}

// The place of the first variable from the start on that has no value, the end of the list where there is none.
fn first_open(list: &VariableList, start: usize, trail: &Trail) -> usize
    requires consistent { IsConsistent trail.now }
    requires start { start ≤ length list.now }
    ensures end { result ≤ length list.now }
    ensures valued { (k : ℕ) → start ≤ k → k < result
        → IsValuedBy (literals_of trail.now) (level_of trail.now) (slice_index list.now k) }
    ensures unset { (l : Literal) → result < length list.now
        → l.variable ≡ slice_index list.now result
        → IsOpen (literals_of trail.now) (level_of trail.now) l }
{
    let variables = list.as_slice();
    'places: for place in start..variables.len() {
        let literal = Lit::new(variables[place], true);
        let Some(_) = trail.value(literal) else {
            return place;
        };
    }
    variables.len()
}

impl Agenda {
    /// No variable.
    pub(crate) fn new(alloc: Global) -> Agenda
        ensures list { result.list ≡ [] }
        ensures scanned { (rows : List Row) → IsScanned result rows 0 }
    {
        let marks = Vec::new(alloc);
        Agenda {
            list: VariableList::new(alloc),
            cursor: 0,
            marks,
        }
    }

    /// Begins with the first variable, at level 0.
    pub(crate) fn rewind(&mut self)
        ensures list { self.new.list ≡ self.old.list }
        ensures scanned { (rows : List Row) → IsScanned self.new rows 0 }
    {
        self.cursor = 0;
        self.marks.clear();
    }

    /// Forgets the variables from this place on, at level 0.
    pub(crate) fn cut(&mut self, count: usize)
        ensures list { self.new.list ≡ take count self.old.list }
        ensures scanned { (rows : List Row) → IsScanned self.new rows 0 }
    {
        self.list.cut(count);
        self.rewind();
    }

    /// A variable comes behind the others, where it is not among them.
    pub(crate) fn add(&mut self, variable: u64) -> Result<(), AllocError>
        requires { IsVariable variable }
        ensures listed { OnOk result (IsListed self.old.list variable self.new.list) }
        ensures scanned { (rows : List Row) (level : ℕ) → IsScanned self.old rows level
            → IsScanned self.new rows level }
    {
        self.list.add(variable)?;
        Ok(())
    }

    /// How many variables there are.
    pub(crate) fn len(&self) -> usize
        ensures { result ≡ length self.now.list }
    {
        self.list.as_slice().len()
    }

    /// Whether the variable is listed.
    pub(crate) fn has(&self, variable: u64) -> bool
        ensures { MatchBool result (Contains self.now.list variable)
            (Contains self.now.list variable → ⊥) }
    {
        self.list.has(variable)
    }

    /// Keeps the place of this level, as the next one begins.
    pub(crate) fn mark(&mut self) -> Result<(), AllocError>
        ensures list { self.new.list ≡ self.old.list }
        ensures scanned { OnOk result ((rows : List Row) (level : ℕ) → IsScanned self.old rows level
            → IsScanned self.new rows (level + 1)) }
    {
        self.marks.push(self.cursor)?;
        Ok(())
    }

    /// Goes back to the place of a lower level.
    pub(crate) fn go_back(&mut self, level: u64)
        ensures list { self.new.list ≡ self.old.list }
        ensures scanned { (rows : List Row) (top : ℕ) → level ≤ top → IsScanned self.old rows top
            → IsScanned self.new (filter (λ r. nat_le r.1 level) rows) level }
    {
        let Some(mark) = self.marks.get(level as usize) else {
            return;
        };
        self.cursor = *mark;
        self.marks.truncate(level as usize);
    }

    /// The next open literal of the list, with the sign that its variable had last; none where each listed variable has a value.
    pub(crate) fn next_open(&mut self, choices: &Choices, trail: &Trail) -> Option<Lit>
        requires consistent { IsConsistent trail.now }
        requires scanned { IsScanned self.old (literals_of trail.now) (level_of trail.now) }
        ensures list { self.new.list ≡ self.old.list }
        ensures scanned { IsScanned self.new (literals_of trail.now) (level_of trail.now) }
        ensures next { MatchOption result
            (AreValued self.old.list (literals_of trail.now) (level_of trail.now))
            (λ l. Contains self.old.list l.variable
            × IsOpen (literals_of trail.now) (level_of trail.now) l) }
    {
        let place = first_open(&self.list, self.cursor, trail);
        self.cursor = place;
        let variables = self.list.as_slice();
        let end = variables.len();
        if place >= end {
            return None;
        }
        let variable = variables[place];
        Some(Lit::new(variable, choices.is_positive(variable)))
    }
}
