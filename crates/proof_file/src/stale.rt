//! Which chains of a file no later check can use.

ghost use Rattle.std.specs.Prelude.{◌≡◌, ◌<◌, ◌≤◌, ℕ, suc, [], List, IfOk, OnOk, length};
ghost use Rattle.smt_terms.specs.declared.node.Node.{Node};
ghost use Rattle.smt_terms.specs.Terms.{IsTermList};
ghost use Rattle.proof_log.specs.Stored.{Stands};
ghost use Rattle.proof_file.specs.Indexed.{IsIndexOf, IsLearned, IsNoted, IsFound};
ghost use Rattle.proof_file.specs.Noting.{KeepsIndex, Denies, DenyAmong, HasNoted};

use crate::noting::{
    Positions, denied, forget, hold, mark, picked, places_under, read_entry, watch,
};
use crate::places::Place;
use cnf_base::{Clause, Lit, Pos};
use proof_log::Log;
use proof_log::entry::AssertId;
use scope_selectors::live::Live;
use smt_terms::terms::Terms;
use std::alloc::{AllocError, Global};
use std::marker::Model;
use variable_list::VariableList;

/// What is kept to find the chains of a file that are stale: under each assertion those that have its negated selector. The work of a
/// check goes by its live assertions, what was written, and what became stale.
#[derive(Debug, Drop)]
pub struct StaleChains {
    read: u64,
    // By variable, the assertion of which it is the selector.
    selected: Vec<Option<AssertId>>,
    // By assertion.
    noted: Vec<Positions>,
    // The assertions under which there are some.
    watched: Vec<AssertId>,
    // What is live in the check at hand, each number counted from 1.
    live: VariableList,
}

impl Model for StaleChains {
    ghost use Rattle.proof_file.specs.Indexed.{StaleIndex};

    ghost Value = { StaleIndex };

    ghost view = { λ s.
        record {
          read = s.read;
          selected = s.selected.items;
          noted = s.noted.items;
          watched = s.watched.items;
        } };
}

impl StaleChains {
    /// No step was read, and no chain was noted; takes no memory.
    pub fn new(alloc: Global) -> StaleChains
        ensures { (nodes : List Node) → IsIndexOf result nodes [] (λ p. 0) }
    {
        StaleChains {
            read: 0,
            selected: Vec::new(alloc),
            noted: Vec::new(alloc),
            watched: Vec::new(alloc),
            live: VariableList::new(alloc),
        }
    }

    // Reads the next step.
    fn read_step(&mut self, terms: &Terms, log: &Log, at: Pos) -> Result<(), AllocError>
        requires listed { IsTermList terms.now.nodes }
        requires stands { Stands terms.now.nodes log.now }
        requires more { self.old.read < length log.now.entries }
        requires at { at ≡ suc self.old.read }
        ensures keeps { OnOk result
            (KeepsIndex terms.now.nodes log.now.entries self.old self.new) }
        ensures one { OnOk result (self.new.read ≡ at) }
    {
        let Some(entry) = log.entry(at) else {
            return Ok(());
        };
        read_entry(&mut self.selected, terms, log, entry)?;
        self.read = at;
        Ok(())
    }

    /// Reads the steps that came since. For want of memory some of them may have been read.
    pub fn learn(&mut self, terms: &Terms, log: &Log) -> Result<(), AllocError>
        requires listed { IsTermList terms.now.nodes }
        requires stands { Stands terms.now.nodes log.now }
        requires read { self.old.read ≤ length log.now.entries }
        ensures { OnOk result (IsLearned terms.now.nodes log.now.entries self.old self.new) }
    {
        let end = log.len();
        'steps: for at in self.read + 1..end {
            self.read_step(terms, log, at)?;
        }
        Ok(())
    }

    // Notes the position under the assertion.
    fn note_under(
        &mut self,
        alloc: Global,
        position: Pos,
        assertion: AssertId,
    ) -> Result<(), AllocError>
        ensures { OnOk result (HasNoted position (λ a. a ≡ assertion) self.old self.new) }
    {
        watch(&mut self.watched, &self.noted, assertion)?;
        hold(alloc, &mut self.noted, assertion, position)?;
        Ok(())
    }

    // Notes the position under the assertion of which the literal is the negated selector.
    fn note_literal(&mut self, alloc: Global, position: Pos, literal: Lit) -> Result<(), AllocError>
        ensures { OnOk result
            (HasNoted position (Denies self.old.selected literal) self.old self.new) }
    {
        match denied(&self.selected, literal) {
            None => Ok(()),
            Some(assertion) => {
                self.note_under(alloc, position, assertion)?;
                Ok(())
            }
        }
    }

    // Notes the position under the assertions of which these literals have the negated selectors.
    fn note_literals(
        &mut self,
        alloc: Global,
        position: Pos,
        literals: &[Lit],
    ) -> Result<(), AllocError>
        ensures { OnOk result
            (HasNoted position (DenyAmong self.old.selected literals.now) self.old self.new) }
    {
        'literals: for literal in literals {
            self.note_literal(alloc, position, *literal)?;
        }
        Ok(())
    }

    /// The chain of this clause at this position has a place from here on. For want of memory it may be noted in part.
    pub fn note(&mut self, alloc: Global, position: Pos, clause: &Clause) -> Result<(), AllocError>
        ensures { OnOk result (IsNoted position clause.now self.old self.new) }
    {
        self.note_literals(alloc, position, clause.literals())?;
        Ok(())
    }

    /// The places, rising, of the noted chains that rest on assertions that are not live; what was noted under these is kept no longer.
    pub fn stale(
        &mut self,
        alloc: Global,
        live: &[Live],
        places: &[Place],
    ) -> Result<Vec<Place>, AllocError>
        ensures { IfOk result (λ qs. IsFound live.now places.now qs.items self.old self.new) }
    {
        mark(&mut self.live, live)?;
        let gone = picked(alloc, &self.live, &self.watched, false)?;
        let kept = picked(alloc, &self.live, &self.watched, true)?;
        let mut found = places_under(alloc, &self.noted, &gone, places)?;
        found.sort_unstable();
        found.dedup();
        forget(alloc, &mut self.noted, &gone);
        self.watched = kept;
        Ok(found)
    }
}
