// Steps that give terms bits, in an order.

ghost use Rattle.std.specs.Prelude.{◌≡◌, ◌<◌, ◌^◌, [], ◌∷◌, ◌++◌, not, take, length};
ghost use Rattle.std.specs.Prelude.{None, IfOk, OnOk, OnErr};
ghost use Rattle.reached_images.specs.Plans.{is_known, planned_in, with_step};
ghost use Rattle.reached_images.specs.Tables.{Keeps};

use bv_rewrite::simplifying::Use;
use smt_terms::bits::Bits;
use smt_terms::node::TermId;
use std::alloc::{AllocError, Global};
use std::marker::Model;

/// A term that is to get bits: its own, over those of its arguments, or those of the term to which
/// a use of a rule leads.
#[derive(Clone, Copy, Debug)]
pub struct Planned {
    pub term: TermId,
    pub used: Option<Use>,
}

/// Terms that are to get bits, in their order, each once. To forget them does not visit the table
/// by term.
#[derive(Debug, Drop)]
pub struct Plan {
    places: Vec<usize>,
    steps: Vec<Planned>,
}

impl Model for Plan {
    ghost use Rattle.std.specs.Prelude.{List};
    ghost use Rattle.reached_images.specs.declared.plan.Planned.{Planned as PlannedValue};
    ghost use Rattle.reached_images.specs.Tables.{IsTable};

    ghost Value = { List PlannedValue };

    ghost view = { λ p. p.steps.items };

    ghost invariant = { λ p. IsTable p.places.items p.steps.items };
}

/// Makes a table longer, so that it has this row.
fn make_room(places: &mut Vec<usize>, row: usize) -> Result<(), AllocError>
    requires { row < 2 ^ 32 }
    ensures room { OnOk result (row < length places.new.items) }
    ensures kept { Keeps places.old.items places.new.items }
{
    if row >= places.len() {
        places.resize(row + 1, 0)?;
    }
    Ok(())
}

impl Plan {
    /// No term; takes no memory.
    pub fn new(alloc: Global) -> Plan
        ensures { result ≡ [] }
    {
        Plan {
            places: Vec::new(alloc),
            steps: Vec::new(alloc),
        }
    }

    /// The steps in their order; takes no memory.
    pub fn steps(&self) -> &[Planned]
        ensures { result.now ≡ self.now }
    {
        self.steps.as_slice()
    }

    /// The step for a term, none exactly where the term has none; takes no memory.
    pub fn planned(&self, term: TermId) -> Option<Planned>
        ensures { result ≡ planned_in self.now term }
    {
        let Some(place) = self.places.get(term as usize) else {
            return None
        };
        let Some(found) = self.steps.get(*place) else {
            return None
        };
        if found.term == term {
            Some(*found)
        } else {
            None
        }
    }

    /// Forgets all terms; takes no memory.
    pub fn clear(&mut self)
        ensures { self.new ≡ [] }
    {
        self.steps.clear();
    }

    /// Forgets the steps from a place on; takes no memory.
    pub fn cut(&mut self, len: usize)
        ensures { self.new ≡ take len self.old }
    {
        self.steps.truncate(len);
    }

    /// One step more, unless its term has bits or a step; whether there is one more.
    pub fn add(&mut self, bits: &Bits, step: Planned) -> Result<bool, AllocError>
        ensures ok { OnOk result (self.new ≡ with_step bits.now self.old step) }
        ensures added { IfOk result (λ b. b ≡ not (is_known bits.now self.old step.term)) }
        ensures err { OnErr result (self.new ≡ self.old) }
    {
        if bits.of(step.term).is_some() || self.planned(step.term).is_some() {
            return Ok(false);
        }
        self.push(step)?;
        Ok(true)
    }

    /// One step more, whose term has none.
    fn push(&mut self, step: Planned) -> Result<(), AllocError>
        requires new { planned_in self.old step.term ≡ None }
        ensures ok { OnOk result (self.new ≡ self.old ++ step ∷ []) }
        ensures err { OnErr result (self.new ≡ self.old) }
    {
        let place = self.steps.len();
        make_room(&mut self.places, step.term as usize)?;
        self.steps.push(step)?;
        self.places[step.term as usize] = place;
        Ok(())
    }
}
