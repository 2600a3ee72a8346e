//! The steps by their positions: those of a log without chains, and the chains that are not forgotten.

ghost use Rattle.std.specs.Prelude.{◌≡◌, ◌==◌, [], ◌∷◌, suc, ℕ, List, length, IfOk, OnOk, OnErr, slice_get};
ghost use Rattle.std.specs.Option.{option_copied};
ghost use Rattle.smt_terms.specs.declared.node.Node.{Node};
ghost use Rattle.proof_log.specs.Diaries.{is_chain};
ghost use Rattle.proof_log.specs.Logs.{entry_at};
ghost use Rattle.proof_log.specs.Stored.{Stands, clauses_of};
ghost use Rattle.proof_log.specs.Faults.{IsDeclared};
ghost use Rattle.faded_log.specs.Slots.{slot_entry, slot_row, IsTriedPlain};
ghost use Rattle.faded_log.specs.Faded.{IsFaded, IsHeld, IsLonger};

use cnf_base::{Clause, ClauseId, Lit, Pos};
use hint_chain::{Clauses, Hints};
use proof_log::entry::Entry;
use proof_log::{Log, PushError};
use smt_terms::terms::Terms;
use std::alloc::{AllocError, Global};
use std::marker::Model;

/// Where the step of a position is.
#[derive(Drop)]
pub(crate) enum Slot {
    /// It is no chain, and stands at this position of the log without chains.
    Plain(Pos),
    Chain(Box<Entry>),
    /// The chain was forgotten.
    Blank,
}

#[derive(Drop)]
pub(crate) struct Rows {
    base: Log,
    slots: Vec<Slot>,
    // What stands in place of each chain that was forgotten.
    stand_in: Entry,
}

impl Model for Rows {
    ghost use Rattle.std.specs.Prelude.{◌≡◌, ◌∷◌, length, map};
    ghost use Rattle.std.specs.List.{AllByRecursion};
    ghost use Rattle.faded_log.specs.Faded.{FadedValue, blank, first_of};
    ghost use Rattle.faded_log.specs.Slots.{slot_entry, slot_row, IsWithin};

    ghost Value = { FadedValue };

    ghost view = { λ r.
        record {
          base = r.base;
          entries = map (slot_entry r.base.entries) r.slots.items;
          clauses = first_of r.base.clauses ∷ map (slot_row r.base.clauses) r.slots.items;
        } };

    ghost invariant = { λ r. (r.stand_in ≡ blank) × AllByRecursion (IsWithin (length r.base.entries)) r.slots.items };
}

// The clause, if its part is asked for.
fn lone(clause: &Clause, part: u32) -> Option<&Clause>
    ensures { option_copied result ≡ slice_get (clause.now ∷ []) part }
{
    if part == 0 { Some(clause) } else { None }
}

// The clause of a chain.
fn chain_clause(entry: &Entry, part: u32) -> Option<&Clause>
    ensures { option_copied result ≡ slice_get (clauses_of entry.now []) part }
{
    match entry {
        Entry::Chain(clause, _) => lone(clause, part),
        _ => None,
    }
}

impl Clauses for Rows {
    ghost use Rattle.proof_log.specs.Logs.{clause_at};

    ghost look = { λ r. clause_at r.clauses };

    fn clause(&self, id: ClauseId) -> Option<&Clause> {
        if id.pos == 0 {
            return self.base.clause(id);
        }
        match self.slots.get((id.pos - 1) as usize) {
            None => None,
            Some(slot) => self.clause_in(slot, id.part),
        }
    }
}

impl Rows {
    /// No steps.
    pub(crate) fn new(alloc: Global) -> Result<Rows, AllocError>
        ensures entries { IfOk result (λ r. r.entries ≡ []) }
        ensures held { IfOk result (λ r. (nodes : List Node) → IsHeld nodes r) }
    {
        let clause = Clause::of_one(alloc, Lit::TRUE)?;
        let hints = Hints::of(alloc, &[ClauseId { pos: 0, part: 0 }])?;
        let base = Log::new(alloc)?;
        Ok(Rows {
            base,
            slots: Vec::new(alloc),
            stand_in: Entry::Chain(clause, hints),
        })
    }

    /// The log of all steps but the chains.
    pub(crate) fn base(&self) -> &Log
        ensures { result.now ≡ self.now.base }
    {
        &self.base
    }

    /// How many positions there are.
    pub(crate) fn len(&self) -> Pos
        ensures { result ≡ suc (length self.now.entries) }
    {
        self.slots.len() as u64 + 1
    }

    // The clause of this part of a slot.
    fn clause_in<'a>(&'a self, slot: &'a Slot, part: u32) -> Option<&'a Clause>
        ensures { option_copied result ≡ slice_get (slot_row self.now.base.clauses slot.now) part }
    {
        match slot {
            Slot::Plain(at) => self.base.clause(ClauseId { pos: *at, part }),
            Slot::Chain(entry) => chain_clause(entry, part),
            Slot::Blank => chain_clause(&self.stand_in, part),
        }
    }

    // The step of a slot.
    fn entry_in<'a>(&'a self, slot: &'a Slot) -> &'a Entry
        ensures { result.now ≡ slot_entry self.now.base.entries slot.now }
    {
        match slot {
            Slot::Plain(at) => match self.base.entry(*at) {
                Some(entry) => entry,
                None => &self.stand_in,
            },
            Slot::Chain(entry) => entry,
            Slot::Blank => &self.stand_in,
        }
    }

    /// The step at a position.
    pub(crate) fn entry(&self, at: Pos) -> Option<&Entry>
        ensures { option_copied result ≡ entry_at self.now.entries at }
    {
        if at == 0 {
            return None;
        }
        match self.slots.get((at - 1) as usize) {
            None => None,
            Some(slot) => Some(self.entry_in(slot)),
        }
    }

    /// One step more that is no chain, where it is valid behind those that are none; tells whether it is.
    pub(crate) fn try_plain(
        &mut self,
        alloc: Global,
        terms: &mut Terms,
        entry: Entry,
    ) -> Result<bool, AllocError>
        requires stands { Stands terms.old.nodes self.old.base }
        requires declared { IsDeclared terms.old entry }
        ensures ok { IfOk result (IsTriedPlain terms.old terms.new self.old self.new entry) }
        ensures err { OnErr result ((terms.new ≡ terms.old) × (self.new ≡ self.old)) }
    {
        self.slots.reserve(1)?;
        match self.base.try_push(alloc, terms, entry) {
            Ok(at) => {
                self.slots.push_reserved(Slot::Plain(at));
                Ok(true)
            }
            Err(PushError::Fault(_)) => Ok(false),
            Err(PushError::NoMemory) => Err(AllocError),
        }
    }

    /// One chain more.
    pub(crate) fn push_chain(&mut self, alloc: Global, entry: Entry) -> Result<(), AllocError>
        ensures ok { OnOk result (IsLonger self.old self.new entry) }
        ensures err { OnErr result (self.new ≡ self.old) }
    {
        let chain = Box::new(alloc, entry)?;
        self.slots.push(Slot::Chain(chain))?;
        Ok(())
    }

    // Whether a chain stands at a position.
    fn is_chain_at(&self, at: Pos) -> bool
        ensures { result ≡ is_chain (entry_at self.now.entries at) }
    {
        match self.entry(at) {
            Some(Entry::Chain(_, _)) => true,
            _ => false,
        }
    }

    /// Forgets the chain at a position, if a chain stands there.
    pub(crate) fn forget(&mut self, at: Pos)
        ensures { IsFaded (λ p. at == p) self.old self.new }
    {
        if self.is_chain_at(at) {
            self.slots[(at - 1) as usize] = Slot::Blank;
        }
    }
}
