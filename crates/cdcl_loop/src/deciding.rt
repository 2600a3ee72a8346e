//! What an engine decides: the given literals first, and then the listed variables.

ghost use Rattle.std.specs.Prelude.{◌≡◌, true, false, if◌then◌else◌, Contains, IfOk, OnOk, MatchOption};
ghost use Rattle.cdcl_core.specs.Levels.{IsOpen};
ghost use Rattle.cdcl_core.specs.Search.{literals_of, level_of, IsAtRest};
ghost use Rattle.cdcl_core.specs.State.{IsPropagated, IsConsistent};
ghost use Rattle.cdcl_learn.specs.Puts.{IsClash, AreGiven};
ghost use Rattle.cdcl_loop.specs.Agendas.{IsScanned};
ghost use Rattle.cdcl_loop.specs.Courses.{AreValued};
ghost use Rattle.cdcl_loop.specs.Engines.{IsEngine, IsOnCourse, IsSameTask, IsSameStore, IsAssuming, IsAssumed, HasDecided};
ghost use Rattle.cdcl_loop.specs.Counts.{with_decision};
ghost use Rattle.cdcl_loop.specs.Efforts.{effort_of, HasWorked};

use crate::agenda::Agenda;
use crate::choices::Choices;
use crate::engine::Engine;
use cdcl_core::Trail;
use cdcl_learn::Clash;
use cnf_base::Lit;
use std::alloc::AllocError;

// An open literal of a listed variable that was bumped, else the next of the agenda.
fn open_literal(choices: &mut Choices, agenda: &mut Agenda, trail: &Trail) -> Option<Lit>
    requires consistent { IsConsistent trail.now }
    requires scanned { IsScanned agenda.old (literals_of trail.now) (level_of trail.now) }
    ensures list { agenda.new.list ≡ agenda.old.list }
    ensures effort { choices.new.effort ≡ choices.old.effort }
    ensures scanned { IsScanned agenda.new (literals_of trail.now) (level_of trail.now) }
    ensures next { MatchOption result
        (AreValued agenda.old.list (literals_of trail.now) (level_of trail.now))
        (λ l. Contains agenda.old.list l.variable
        × IsOpen (literals_of trail.now) (level_of trail.now) l) }
{
    match choices.pick(&agenda.list, trail) {
        Some(literal) => Some(literal),
        None => agenda.next_open(choices, trail),
    }
}

impl Engine {
    // Decides a given literal that is open; gives the held clause that is false then.
    fn assume_open(&mut self, literal: Lit) -> Result<Option<Clash>, AllocError>
        requires engine { IsEngine self.old }
        requires propagated { IsPropagated self.old.watches self.old.trail }
        requires course { IsOnCourse self.old }
        requires at_base { self.old.base ≡ level_of self.old.trail }
        requires given { Contains self.old.given.items literal }
        requires unset { IsOpen (literals_of self.old.trail) (level_of self.old.trail) literal }
        ensures task { IsSameTask self.old self.new }
        ensures store { IsSameStore self.old.watches self.new.watches }
        ensures work { OnOk result (HasWorked self.old self.new) }
        ensures assuming { OnOk result (IsAssuming self.old self.new literal) }
        ensures clash { IfOk result
            (λ o. MatchOption o (IsPropagated self.new.watches self.new.trail
            × IsAtRest self.new.watches self.new.trail)
            (λ clash. IsClash self.new.watches self.new.trail clash
            × AreGiven self.old.given.items (literals_of self.new.trail) clash)) }
    {
        self.agenda.mark()?;
        self.watches
            .reserve(&mut self.trail, literal.variable() + 1)?;
        self.watches.decide(&mut self.trail, literal);
        self.choices.effort.count_decision();
        self.base = self.trail.level();
        let before = self.trail.literals().len();
        let conflict = self.watches.propagate(&mut self.trail);
        self.choices.effort.count_behind(before, &self.trail);
        match conflict {
            Some(id) => Ok(Some(Clash::Held(id))),
            None => Ok(None),
        }
    }

    // Makes a given literal true; gives what contradicts it.
    fn assume_one(&mut self, literal: Lit) -> Result<Option<Clash>, AllocError>
        requires engine { IsEngine self.old }
        requires propagated { IsPropagated self.old.watches self.old.trail }
        requires rest { IsAtRest self.old.watches self.old.trail }
        requires course { IsOnCourse self.old }
        requires at_base { self.old.base ≡ level_of self.old.trail }
        requires given { Contains self.old.given.items literal }
        ensures task { IsSameTask self.old self.new }
        ensures store { IsSameStore self.old.watches self.new.watches }
        ensures work { OnOk result (HasWorked self.old self.new) }
        ensures clash { IfOk result (λ o. MatchOption o
            (IsAssuming self.old self.new literal × IsPropagated self.new.watches self.new.trail
            × IsAtRest self.new.watches self.new.trail)
            (λ clash. IsEngine self.new × IsOnCourse self.new
            × IsClash self.new.watches self.new.trail clash
            × AreGiven self.old.given.items (literals_of self.new.trail) clash)) }
    {
        match self.trail.value(literal) {
            Some(true) => Ok(None),
            Some(false) => Ok(Some(Clash::Given(literal))),
            None => self.assume_open(literal),
        }
    }

    /// Decides the given literals that are open, the last first; gives what contradicts them. The
    /// last are the assumptions and the newest assertions: what these refute ends before the words
    /// of all older ones are set.
    pub fn assume(&mut self) -> Result<Option<Clash>, AllocError>
        requires engine { IsEngine self.old }
        requires propagated { IsPropagated self.old.watches self.old.trail }
        requires rest { IsAtRest self.old.watches self.old.trail }
        requires course { IsOnCourse self.old }
        ensures task { IsSameTask self.old self.new }
        ensures store { IsSameStore self.old.watches self.new.watches }
        ensures work { OnOk result (HasWorked self.old self.new) }
        ensures engine { OnOk result (IsEngine self.new) }
        ensures course { OnOk result (IsOnCourse self.new) }
        ensures clash { IfOk result
            (λ o. MatchOption o (IsAssumed self.new.watches self.new.trail self.old.given.items)
            (λ clash. IsClash self.new.watches self.new.trail clash
            × AreGiven self.old.given.items (literals_of self.new.trail) clash)) }
    {
        if self.base < self.trail.level() {
            return Ok(None);
        }
        'literals: for i in (0..self.given.len()).rev() {
            let literal = self.given[i];
            if let Some(clash) = self.assume_one(literal)? {
                return Ok(Some(clash));
            }
        }
        Ok(None)
    }

    /// Decides a listed variable: one that was bumped, else the next of the list; false where each listed variable has a value.
    pub fn decide(&mut self) -> Result<bool, AllocError>
        requires engine { IsEngine self.old }
        requires assumed { IsAssumed self.old.watches self.old.trail self.old.given.items }
        requires course { IsOnCourse self.old }
        ensures task { IsSameTask self.old self.new }
        ensures store { IsSameStore self.old.watches self.new.watches }
        ensures effort { IfOk result (λ more. effort_of self.new
            ≡ (if more then with_decision (effort_of self.old) else effort_of self.old)) }
        ensures engine { OnOk result (IsEngine self.new) }
        ensures course { OnOk result (IsOnCourse self.new) }
        ensures decided { IfOk result (λ more. more ≡ true → HasDecided self.old self.new) }
        ensures none { IfOk result (λ more. more ≡ false → (self.new.watches ≡ self.old.watches)
            × (self.new.trail ≡ self.old.trail)
            × AreValued self.old.agenda.list (literals_of self.old.trail)
            (level_of self.old.trail)) }
    {
        let Some(literal) = open_literal(&mut self.choices, &mut self.agenda, &self.trail) else {
            return Ok(false);
        };
        self.agenda.mark()?;
        self.watches
            .reserve(&mut self.trail, literal.variable() + 1)?;
        self.watches.decide(&mut self.trail, literal);
        self.choices.effort.count_decision();
        Ok(true)
    }
}
