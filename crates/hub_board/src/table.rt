//! The steps that a board over the hub can read behind the opening log.

ghost use Rattle.std.specs.Prelude.{◌≡◌, ◌≢◌, ◌<◌, ◌≤◌, ◌⊎◌, ◌+◌, ◌||◌, [], ◌∷◌, ℕ, suc, List, Option, Some, None, length, slice_get, OnOk, OnErr};
ghost use Rattle.proof_log.specs.declared.entry.Entry.{Entry as Step};
ghost use Rattle.proof_log.specs.declared.entry.Entry.TheVariants.{Chain};
ghost use Rattle.std.specs.Option.{option_copied};
ghost use Rattle.hub_core.specs.declared.events.Event.{Event as Made};
ghost use Rattle.hub_board.specs.Chains.{AddsChains, chain_of};
ghost use Rattle.hub_board.specs.Filing.{IsThere, AreRight, IsFiled, tells_found};

use cnf_base::Clause;
use hub_core::{Call, Event};
use proof_log::entry::{Entry, Hints};
use std::alloc::{AllocError, Global};

/// Rows of steps by their place behind the opening log. Of the events that were seen the first ones are filed.
#[derive(Drop)]
pub struct Table {
    /// A row for each step behind the opening log, as far as it can be read.
    pub(crate) rows: Vec<Option<Entry>>,
    /// How many steps the filed events added.
    pub(crate) next: u64,
    /// How many events are filed.
    pub(crate) filed: u64,
    /// The filed events tell that a model was found.
    pub(crate) found: bool,
}

// Makes room for so many rows.
fn make_room(rows: &mut Vec<Option<Entry>>, count: usize) -> Result<(), AllocError>
    ensures kept { (i : ℕ) (e : Step) → slice_get rows.old.items i ≡ Some (Some e)
        → slice_get rows.new.items i ≡ Some (Some e) }
    ensures only { (i : ℕ) (e : Step) → slice_get rows.new.items i ≡ Some (Some e)
        → slice_get rows.old.items i ≡ Some (Some e) }
    ensures room { OnOk result (count ≤ length rows.new.items) }
{
    'rows: for _ in rows.len()..count {
        rows.push(None)?;
    }
    Ok(())
}

// Fills a row.
fn fill(rows: &mut Vec<Option<Entry>>, place: usize, step: Entry)
    requires { place < length rows.old.items }
    ensures here { slice_get rows.new.items place ≡ Some (Some step) }
    ensures others { (i : ℕ) → i ≢ place → slice_get rows.new.items i ≡ slice_get rows.old.items i }
{
    rows[place] = Some(step);
}

impl Table {
    /// Nothing is filed.
    pub(crate) fn new(alloc: Global) -> Table
        ensures { (seen : List Made) → IsFiled result seen }
    {
        Table {
            rows: Vec::new(alloc),
            next: 0,
            filed: 0,
            found: false,
        }
    }

    /// The step of a place, if it can be read.
    pub(crate) fn get(&self, place: u64) -> Option<&Entry>
        ensures there { (e : Step) → slice_get self.now.rows.items place ≡ Some (Some e)
            → option_copied result ≡ Some e }
        ensures only { (e : Step) → option_copied result ≡ Some e
            → slice_get self.now.rows.items place ≡ Some (Some e) }
    {
        match self.rows.get(place as usize) {
            Some(Some(step)) => Some(step),
            _ => None,
        }
    }

    /// Fills the row of a place. For want of memory it is as before.
    pub(crate) fn set(&mut self, place: u64, step: Entry) -> Result<(), AllocError>
        ensures same { (self.new.next ≡ self.old.next) × (self.new.filed ≡ self.old.filed)
            × (self.new.found ≡ self.old.found) }
        ensures kept { (i : ℕ) → IsThere self.old.rows.items i → IsThere self.new.rows.items i }
        ensures only { (i : ℕ) → IsThere self.new.rows.items i → IsThere self.old.rows.items i
            ⊎ (i ≡ place) }
        ensures right { (steps : List Step) → slice_get steps place ≡ Some step
            → AreRight self.old.rows.items steps → AreRight self.new.rows.items steps }
        ensures there { OnOk result (IsThere self.new.rows.items place) }
    {
        let place = place as usize;
        let Some(count) = place.checked_add(1) else {
            return Err(AllocError);
        };
        make_room(&mut self.rows, count)?;
        fill(&mut self.rows, place, step);
        Ok(())
    }

    // Fills the row of the next step, if it is not filled.
    fn add_chain(&mut self, alloc: Global, clause: &Clause, hints: &Hints) -> Result<(), AllocError>
        ensures same { (self.new.next ≡ self.old.next) × (self.new.filed ≡ self.old.filed)
            × (self.new.found ≡ self.old.found) }
        ensures kept { (i : ℕ) → IsThere self.old.rows.items i → IsThere self.new.rows.items i }
        ensures right { (steps : List Step)
            → slice_get steps self.old.next ≡ Some (Chain clause.now hints.now)
            → AreRight self.old.rows.items steps → AreRight self.new.rows.items steps }
        ensures there { OnOk result (IsThere self.new.rows.items self.old.next) }
    {
        if let Some(_) = self.get(self.next) {
            return Ok(());
        }
        let step = Entry::Chain(clause.copy(alloc)?, hints.copy(alloc)?);
        self.set(self.next, step)
    }

    // Files what a call tells, if it is the next event's.
    fn add_call(&mut self, alloc: Global, call: &Call) -> Result<(), AllocError>
        requires { AddsChains call.now }
        ensures same { self.new.filed ≡ self.old.filed }
        ensures kept { (i : ℕ) → IsThere self.old.rows.items i → IsThere self.new.rows.items i }
        ensures right { (steps : List Step)
            → ((s : Step) → chain_of call.now ≡ s ∷ [] → slice_get steps self.old.next ≡ Some s)
            → AreRight self.old.rows.items steps → AreRight self.new.rows.items steps }
        ensures next { OnOk result (self.new.next ≡ self.old.next + length (chain_of call.now)) }
        ensures found { OnOk result (self.new.found ≡ (self.old.found || tells_found call.now)) }
        ensures full { OnOk result ((i : ℕ) → i < self.new.next → (i < self.old.next)
            ⊎ IsThere self.new.rows.items i) }
        ensures err { OnErr result ((self.new.next ≡ self.old.next)
            × (self.new.found ≡ self.old.found)) }
    {
        match call {
            Call::PutChain(clause, hints) => {
                let Some(next) = self.next.checked_add(1) else {
                    return Err(AllocError);
                };
                self.add_chain(alloc, clause, hints)?;
                self.next = next;
                Ok(())
            }
            Call::Found(_) => {
                self.found = true;
                Ok(())
            }
            Call::Claim => Ok(()),
            // Excluded by the condition on the call.
            Call::Define(_, _) | Call::PutLemma(_) => unreachable!(),
            Call::Close(_, _) => Ok(()),
            Call::Spend(_) => Ok(()),
        }
    }

    /// Files the next event. For want of memory no more is filed.
    pub(crate) fn add(&mut self, alloc: Global, event: &Event) -> Result<(), AllocError>
        requires { AddsChains event.now.call }
        ensures filed { (seen : List Made) → slice_get seen self.old.filed ≡ Some event.now
            → IsFiled self.old seen → IsFiled self.new seen }
        ensures kept { (i : ℕ) → IsThere self.old.rows.items i → IsThere self.new.rows.items i }
        ensures ok { OnOk result (self.new.filed ≡ suc self.old.filed) }
        ensures err { OnErr result (self.new.filed ≡ self.old.filed) }
    {
        let Some(filed) = self.filed.checked_add(1) else {
            return Err(AllocError);
        };
        self.add_call(alloc, &event.call)?;
        self.filed = filed;
        Ok(())
    }
}
