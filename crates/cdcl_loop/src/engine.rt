//! An engine, and how it begins, propagates and goes back.

ghost use Rattle.std.specs.Prelude.{◌≡◌, ◌⊎◌, ◌≤◌, [], length, take, filter, nat_le, Contains, OnOk, MatchBool, MatchOption};
ghost use Rattle.std.specs.Option.{option_copied};
ghost use Rattle.cnf_base.specs.Clauses.{lit_true};
ghost use Rattle.variable_list.specs.Variables.{IsVariable, IsListed};
ghost use Rattle.cdcl_core.specs.Levels.{IsExtended};
ghost use Rattle.cdcl_core.specs.Search.{literals_of, level_of, clause_of, IsAtRest, IsConflict};
ghost use Rattle.cdcl_core.specs.State.{IsPropagated};
ghost use Rattle.cdcl_loop.specs.Values.{valuation};
ghost use Rattle.cdcl_loop.specs.Engines.{IsTrailOf, IsEngine, IsOnCourse, IsSameTask, IsSameStore};
ghost use Rattle.cdcl_loop.specs.Counts.{no_effort, with_propagations};
ghost use Rattle.cdcl_loop.specs.Efforts.{effort_of, literals_gained};

use crate::agenda::Agenda;
use crate::choices::Choices;
use crate::effort::Effort;
use cdcl_core::{Trail, Watches};
use cnf_base::{Clause, ClauseId, Lit};
use std::alloc::{AllocError, Global};
use variable_list::VariableList;

/// Clauses over a trail, with the choices of a search under given literals.
#[derive(Drop)]
pub struct Engine {
    pub(crate) alloc: Global,
    pub(crate) watches: Watches,
    pub(crate) trail: Trail,
    pub(crate) choices: Choices,
    pub(crate) agenda: Agenda,
    // the decisions up to this level are given literals
    pub(crate) base: u64,
    pub(crate) given: Vec<Lit>,
}

impl Engine {
    /// An engine over these clauses and their trail at level 0, with no given literal and no listed variable.
    pub fn new(alloc: Global, watches: Watches, trail: Trail) -> Engine
        requires trail { IsTrailOf watches trail }
        requires level { level_of trail ≡ 0 }
        ensures watches { result.watches ≡ watches }
        ensures trail { result.trail ≡ trail }
        ensures given { result.given.items ≡ [] }
        ensures listed { result.agenda.list ≡ [] }
        ensures effort { effort_of result ≡ no_effort }
        ensures course { IsOnCourse result }
    {
        Engine {
            alloc,
            watches,
            trail,
            choices: Choices::new(alloc),
            agenda: Agenda::new(alloc),
            base: 0,
            given: Vec::new(alloc),
        }
    }

    /// A variable is listed, behind those that are, where it is not among them.
    pub fn list(&mut self, variable: u64) -> Result<(), AllocError>
        requires { IsVariable variable }
        ensures same { self.new
            ≡ record self.old { choices = self.new.choices; agenda = self.new.agenda } }
        ensures listed { OnOk result (IsListed self.old.agenda.list variable self.new.agenda.list) }
        ensures effort { effort_of self.new ≡ effort_of self.old }
        ensures course { IsOnCourse self.old → IsOnCourse self.new }
    {
        self.choices.reserve(variable)?;
        self.agenda.add(variable)?;
        Ok(())
    }

    /// The variables that are listed.
    pub fn variables(&self) -> &VariableList
        ensures { result.now ≡ self.now.agenda.list }
    {
        &self.agenda.list
    }

    /// How many variables are listed.
    pub fn listed(&self) -> usize
        ensures { result ≡ length self.now.agenda.list }
    {
        self.agenda.len()
    }

    /// Whether the variable is listed.
    pub fn lists(&self, variable: u64) -> bool
        ensures { MatchBool result (Contains self.now.agenda.list variable)
            (Contains self.now.agenda.list variable → ⊥) }
    {
        self.agenda.has(variable)
    }

    /// The trail.
    pub fn trail(&self) -> &Trail
        ensures { result.now ≡ self.now.trail }
    {
        &self.trail
    }

    /// The present decision level.
    pub fn level(&self) -> u64
        ensures { result ≡ level_of self.now.trail }
    {
        self.trail.level()
    }

    /// The level up to which the decisions are given literals.
    pub fn base(&self) -> u64
        ensures { result ≡ self.now.base }
    {
        self.base
    }

    /// What it has done since it was made.
    pub fn effort(&self) -> Effort
        ensures { result ≡ effort_of self.now }
    {
        self.choices.effort
    }

    /// The clause that is kept under this name.
    pub fn clause(&self, id: ClauseId) -> Option<&Clause>
        ensures { option_copied result ≡ clause_of self.now.watches id }
    {
        self.watches.clause(id)
    }

    /// Whether the literal is true where each variable without a value is false.
    pub fn is_true(&self, l: Lit) -> bool
        ensures { result ≡ lit_true (valuation self.now.trail) l }
    {
        let value = self.trail.is_true(Lit::new(l.variable(), true));
        if l.is_positive() { value } else { !value }
    }

    /// Takes back every literal above the level.
    pub fn go_back(&mut self, level: u64)
        requires engine { IsEngine self.old }
        requires lower { level ≤ level_of self.old.trail }
        ensures same { self.new
            ≡ record self.old {
              trail = self.new.trail;
              choices = self.new.choices;
              agenda = self.new.agenda;
              base = self.new.base;
            } }
        ensures task { IsSameTask self.old self.new }
        ensures engine { IsEngine self.new }
        ensures level { level_of self.new.trail ≡ level }
        ensures literals { literals_of self.new.trail
            ≡ filter (λ r. nat_le r.1 level) (literals_of self.old.trail) }
        ensures effort { effort_of self.new ≡ effort_of self.old }
        ensures course { IsOnCourse self.old → IsOnCourse self.new }
    {
        self.choices.take_back(self.trail.literals(), level);
        self.agenda.go_back(level);
        self.watches.backjump(&mut self.trail, level);
        if level < self.base {
            self.base = level;
        }
    }

    /// Begins a search under these literals: every decision is taken back.
    pub fn begin(&mut self, given: Vec<Lit>)
        requires engine { IsEngine self.old }
        ensures watches { self.new.watches ≡ self.old.watches }
        ensures given { self.new.given ≡ given }
        ensures listed { self.new.agenda.list ≡ self.old.agenda.list }
        ensures effort { effort_of self.new ≡ effort_of self.old }
        ensures engine { IsEngine self.new }
        ensures level { level_of self.new.trail ≡ 0 }
        ensures course { IsOnCourse self.new }
    {
        self.go_back(0);
        self.agenda.rewind();
        self.base = 0;
        self.given = given;
    }

    /// Begins another check: every decision is taken back, no literal is given, of the listed variables the first `count` stay, and what
    /// late conflicts had is forgotten. The variables keep their signs.
    pub fn renew(&mut self, count: usize)
        requires engine { IsEngine self.old }
        ensures watches { self.new.watches ≡ self.old.watches }
        ensures given { self.new.given.items ≡ [] }
        ensures listed { self.new.agenda.list ≡ take count self.old.agenda.list }
        ensures effort { effort_of self.new ≡ effort_of self.old }
        ensures engine { IsEngine self.new }
        ensures level { level_of self.new.trail ≡ 0 }
        ensures course { IsOnCourse self.new }
    {
        self.go_back(0);
        self.agenda.cut(count);
        self.choices.renew();
        self.base = 0;
        self.given.clear();
    }

    /// Takes back every decision but those of given literals where it is time to.
    pub fn restart(&mut self)
        requires engine { IsEngine self.old }
        requires course { IsOnCourse self.old }
        ensures same { self.new
            ≡ record self.old {
              trail = self.new.trail;
              choices = self.new.choices;
              agenda = self.new.agenda;
              base = self.new.base;
            } }
        ensures task { IsSameTask self.old self.new }
        ensures effort { effort_of self.new ≡ effort_of self.old }
        ensures engine { IsEngine self.new }
        ensures course { IsOnCourse self.new }
        ensures back { (self.new.trail ≡ self.old.trail)
            ⊎ (literals_of self.new.trail
            ≡ filter (λ r. nat_le r.1 self.old.base) (literals_of self.old.trail)) }
    {
        if self.choices.restarts_now() {
            let base = self.base;
            self.go_back(base);
        }
    }

    /// Brings unit propagation to rest, or to a held clause that is false, at the present level.
    pub fn propagate(&mut self) -> Option<ClauseId>
        requires { IsEngine self.old }
        ensures task { IsSameTask self.old self.new }
        ensures store { IsSameStore self.old.watches self.new.watches }
        ensures engine { IsEngine self.new }
        ensures course { IsOnCourse self.old → IsOnCourse self.new }
        ensures literals { IsExtended (literals_of self.old.trail) (level_of self.old.trail)
            (literals_of self.new.trail) }
        ensures level { level_of self.new.trail ≡ level_of self.old.trail }
        ensures effort { effort_of self.new
            ≡ with_propagations (effort_of self.old) (literals_gained self.old self.new) }
        ensures rest { MatchOption result (IsPropagated self.new.watches self.new.trail
            × IsAtRest self.new.watches self.new.trail)
            (IsConflict self.new.watches self.new.trail) }
    {
        let before = self.trail.literals().len();
        let conflict = self.watches.propagate(&mut self.trail);
        self.choices.effort.count_behind(before, &self.trail);
        conflict
    }
}
