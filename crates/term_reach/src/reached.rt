// Terms in an order, each with its place.

ghost use Rattle.std.specs.Prelude.{◌≡◌, ◌<◌, ◌^◌, [], ◌∷◌, ◌++◌, MatchBool, MatchOption, OnOk, OnErr, Some, Contains, length, slice_get};
ghost use Rattle.term_reach.specs.Reach.{IsOnce};
ghost use Rattle.term_reach.specs.Tables.{Keeps};

use smt_terms::node::TermId;
use std::alloc::{AllocError, Global};
use std::marker::Model;

/// Terms in an order, each once. To forget them does not visit the table by term.
#[derive(Debug, Drop)]
pub struct Reached {
    places: Vec<usize>,
    terms: Vec<TermId>,
}

impl Model for Reached {
    ghost use Rattle.std.specs.Prelude.{ℕ, List};
    ghost use Rattle.term_reach.specs.Tables.{IsTable};

    ghost Value = { List ℕ };

    ghost view = { λ r. r.terms.items };

    ghost invariant = { λ r. IsTable r.places.items r.terms.items };
}

/// Makes a table longer, so that it has this row.
fn make_room(places: &mut Vec<usize>, row: usize) -> Result<(), AllocError>
    requires { row < 2 ^ 32 }
    ensures room { OnOk result (row < length places.new.items) }
    ensures kept { Keeps places.old.items places.new.items }
{
    if row >= places.len() {
        places.resize(row + 1, 0)?;
    }
    Ok(())
}

impl Reached {
    /// No term; takes no memory.
    pub fn new(alloc: Global) -> Reached
        ensures { result ≡ [] }
    {
        Reached {
            places: Vec::new(alloc),
            terms: Vec::new(alloc),
        }
    }

    /// The terms in their order; takes no memory.
    pub fn terms(&self) -> &[TermId]
        ensures terms { result.now ≡ self.now }
        ensures once { IsOnce self.now }
    {
        self.terms.as_slice()
    }

    /// The place of a term, none exactly where it is not among the terms; takes no memory.
    pub fn place_of(&self, term: TermId) -> Option<usize>
        ensures place { MatchOption result (Contains self.now term → ⊥)
            (λ k. slice_get self.now k ≡ Some term) }
        ensures once { IsOnce self.now }
    {
        let Some(place) = self.places.get(term as usize) else {
            return None
        };
        let Some(found) = self.terms.get(*place) else {
            return None
        };
        if *found == term { Some(*place) } else { None }
    }

    /// Whether a term is among the terms; takes no memory.
    pub fn has(&self, term: TermId) -> bool
        ensures { MatchBool result (Contains self.now term) (Contains self.now term → ⊥) }
    {
        self.place_of(term).is_some()
    }

    /// Forgets all terms; takes no memory.
    pub(crate) fn clear(&mut self)
        ensures { self.new ≡ [] }
    {
        self.terms.clear();
    }

    /// One term more, which was not among them.
    pub(crate) fn add(&mut self, term: TermId) -> Result<(), AllocError>
        requires new { Contains self.old term → ⊥ }
        ensures terms { OnOk result (self.new ≡ self.old ++ term ∷ []) }
    {
        let place = self.terms.len();
        make_room(&mut self.places, term as usize)?;
        self.terms.push(term)?;
        self.places[term as usize] = place;
        Ok(())
    }
}
