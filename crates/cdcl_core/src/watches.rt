//! The clauses and their watches.

ghost use Rattle.std.specs.Prelude.{◌≡◌, None, IfOk};
ghost use Rattle.std.specs.Option.{option_copied};
ghost use Rattle.cnf_base.specs.declared.clause.ClauseId.{ClauseId};
ghost use Rattle.cdcl_core.specs.declared.trail.Trail.{Trail};
ghost use Rattle.cdcl_core.specs.Search.{clause_of, held_of, reason_of};
ghost use Rattle.cdcl_core.specs.Slots.{slot_in};
ghost use Rattle.cdcl_core.specs.State.{IsNew, IsSettled};

use crate::lists::WatchLists;
use crate::row::Name;
use crate::slot_table::SlotTable;
use crate::trail::Trail;
use cnf_base::{Clause, ClauseId};
use std::alloc::{AllocError, Global};

/// What a slot holds.
#[derive(Clone, Copy)]
pub(crate) enum Kind {
    /// No clause.
    Free,
    /// A clause whose value was settled at level 0 when it came: it is not watched.
    Fixed,
    /// A clause that is watched at two different literals.
    Watched,
    /// A clause that is kept, and not held.
    Parked,
}

/// The clauses that are kept. Those of them that are held take part in the search: each of two or more literals is watched at
/// two of them.
#[derive(Drop)]
pub struct Watches {
    pub(crate) alloc: Global,
    pub(crate) lists: WatchLists,
    // by slot
    pub(crate) kinds: Vec<Kind>,
    pub(crate) clauses: Vec<Clause>,
    pub(crate) ids: Vec<Name>,
    pub(crate) slots: SlotTable,
    // whether a clause that is not watched may be false
    pub(crate) refuted: bool,
}

impl Watches {
    /// No clause. With a new trail it is settled.
    pub fn new(alloc: Global) -> Result<Watches, AllocError>
        ensures settled { IfOk result (λ w. (t : Trail) → IsNew t → IsSettled w t) }
        ensures kept { IfOk result (λ w. (id : ClauseId) → clause_of w id ≡ None) }
        ensures held { IfOk result (λ w. (id : ClauseId) → held_of w id ≡ None) }
    {
        let mut lists = WatchLists::new(alloc)?;
        lists.grow_lists(2)?;
        lists.grow_places(2)?;
        let mut clauses = Vec::new(alloc);
        clauses.push(Clause::empty(alloc))?;
        Ok(Watches {
            alloc,
            lists,
            kinds: vec![in alloc; Kind::Free; 1]?,
            clauses,
            ids: vec![in alloc; Name::FIRST; 1]?,
            slots: SlotTable::new(alloc),
            refuted: false,
        })
    }

    // The slot of the clause that is kept under this name.
    pub(crate) fn slot(&self, id: ClauseId) -> Option<usize>
        ensures { result ≡ slot_in self.now.slots id }
    {
        self.slots.get(id)
    }

    /// The clause that is kept under this name, held or not.
    pub fn clause(&self, id: ClauseId) -> Option<&Clause>
        ensures { option_copied result ≡ clause_of self.now id }
    {
        match self.slots.get(id) {
            Some(slot) => self.clauses.get(slot),
            None => None,
        }
    }

    /// The clause that is kept under this name: where it forced the literal at this place of the trail, it is found without a
    /// search.
    pub fn clause_at(&self, trail: &Trail, place: usize, id: ClauseId) -> Option<&Clause>
        requires { IsSettled self.now trail.now }
        ensures { option_copied result ≡ clause_of self.now id }
    {
        if place < trail.len {
            let slot = trail.reasons[place];
            if slot != 0 && self.ids[slot].id() == id {
                return Some(&self.clauses[slot]);
            }
        }
        self.clause(id)
    }

    /// The clause that forced the literal at this place of the trail, None for a decided one and where none stands.
    pub fn reason(&self, trail: &Trail, place: usize) -> Option<&Clause>
        requires { IsSettled self.now trail.now }
        ensures { option_copied result ≡ reason_of self.now trail.now place }
    {
        if place >= trail.len {
            return None;
        }
        let slot = trail.reasons[place];
        if slot == 0 {
            return None;
        }
        Some(&self.clauses[slot])
    }
}
