//! A log from which chains can be forgotten.

ghost use Rattle.std.specs.Prelude.{◌≡◌, [], suc, length, List, Some, IfOk, OnErr, MatchBool};
ghost use Rattle.std.specs.List.{AllByRecursion};
ghost use Rattle.std.specs.Option.{option_copied};
ghost use Rattle.cnf_base.specs.Literals.{Literal};
ghost use Rattle.cnf_base.specs.Assignments.{AreBelow};
ghost use Rattle.cnf_base.specs.declared.clause.ClauseId.{ClauseId as Name};
ghost use Rattle.smt_terms.specs.declared.node.Node.{Node};
ghost use Rattle.hint_chain.specs.Chains.{IsChain};
ghost use Rattle.proof_log.specs.declared.entry.Entry.TheVariants as step;
ghost use Rattle.proof_log.specs.Logs.{clause_at, entry_at};
ghost use Rattle.proof_log.specs.Faults.{IsDeclared};
ghost use Rattle.faded_log.specs.Faded.{IsFaded, IsHeld, IsTried, is_among};

use crate::rows::Rows;
use cnf_base::{Clause, ClauseId, Lit, Pos};
use hint_chain::{Clauses, Hints, Marks, chains_have_no_fault, follows};
use proof_log::Log;
use proof_log::entry::Entry;
use smt_terms::terms::Terms;
use std::alloc::{AllocError, Global};
use std::marker::Model;

/// The steps of a proof, of which chains can be forgotten, and what they left.
#[derive(Drop)]
pub struct FadedLog {
    rows: Rows,
    marks: Marks,
}

impl Model for FadedLog {
    ghost use Rattle.faded_log.specs.Faded.{FadedValue};

    ghost Value = { FadedValue };

    ghost view = { λ l. l.rows };
}

// Whether each variable of these literals is below this one.
fn are_below(literals: &[Lit], next: u64) -> bool
    ensures { MatchBool result (AreBelow next literals.now) (¬ (AreBelow next literals.now)) }
{
    for l in literals {
        if l.variable() >= next {
            return false;
        }
    }
    true
}

// Whether hints are a chain for a clause, where there are marks for all variables.
fn leads(rows: &Rows, clause: &Clause, hints: &Hints, marks: &mut Marks) -> bool
    requires room { AreBelow marks.old clause.now }
    requires rooms { (id : Name) (h : List Literal) → clause_at rows.now.clauses id ≡ Some h
        → AreBelow marks.old h }
    ensures { MatchBool result
        (IsChain (clause_at rows.now.clauses) clause.now hints.now)
        (¬ (IsChain (clause_at rows.now.clauses) clause.now hints.now)) }
{
    chains_have_no_fault();
    match follows(rows, clause, hints, marks) {
        Ok(()) => true,
        Err(_) => false,
    }
}

impl FadedLog {
    /// The log without a step.
    pub fn new(alloc: Global) -> Result<FadedLog, AllocError>
        ensures entries { IfOk result (λ l. l.entries ≡ []) }
        ensures held { IfOk result (λ l. (nodes : List Node) → IsHeld nodes l) }
    {
        let rows = Rows::new(alloc)?;
        Ok(FadedLog {
            rows,
            marks: Marks::new(alloc),
        })
    }

    /// The log of all steps but the chains, at positions of its own.
    pub fn base(&self) -> &Log
        ensures { result.now ≡ self.now.base }
    {
        self.rows.base()
    }

    /// How many positions there are.
    pub fn len(&self) -> u64
        ensures { result ≡ suc (length self.now.entries) }
    {
        self.rows.len()
    }

    /// The step at a position, `None` exactly where there is none, and the blank chain where one was forgotten; takes no memory.
    pub fn entry(&self, at: Pos) -> Option<&Entry>
        ensures { option_copied result ≡ entry_at self.now.entries at }
    {
        self.rows.entry(at)
    }

    /// The clause of a name, `None` exactly where there is none; takes no memory.
    pub fn clause(&self, id: ClauseId) -> Option<&Clause>
        ensures { option_copied result ≡ clause_at self.now.clauses id }
    {
        self.rows.clause(id)
    }

    /// One step more where it is valid; tells whether it is. A chain is judged by the clauses that are not forgotten, and the blank
    /// one in place of those that are. For want of memory, or of numbers for variables, the log and the terms are as before.
    pub fn try_push(
        &mut self,
        alloc: Global,
        terms: &mut Terms,
        entry: Entry,
    ) -> Result<bool, AllocError>
        requires held { IsHeld terms.old.nodes self.old }
        requires declared { IsDeclared terms.old entry }
        ensures ok { IfOk result (IsTried terms.old terms.new self.old self.new entry) }
        ensures err { OnErr result ((terms.new ≡ terms.old) × (self.new ≡ self.old)) }
    {
        match entry {
            Entry::Chain(clause, hints) => self.try_chain(alloc, terms, clause, hints),
            other => self.rows.try_plain(alloc, terms, other),
        }
    }

    // The same of a chain.
    fn try_chain(
        &mut self,
        alloc: Global,
        terms: &Terms,
        clause: Clause,
        hints: Hints,
    ) -> Result<bool, AllocError>
        requires { IsHeld terms.now.nodes self.old }
        ensures ok { IfOk result
            (IsTried terms.now terms.now self.old self.new (step.Chain clause hints)) }
        ensures err { OnErr result (self.new ≡ self.old) }
    {
        if !self.is_founded(&clause, &hints)? {
            return Ok(false);
        }
        self.rows.push_chain(alloc, Entry::Chain(clause, hints))?;
        Ok(true)
    }

    // Whether hints are a chain for a clause of this log.
    fn is_founded(&mut self, clause: &Clause, hints: &Hints) -> Result<bool, AllocError>
        requires { AllByRecursion (AllByRecursion (AreBelow self.old.base.next)) self.old.clauses }
        ensures ok { IfOk result (λ b. MatchBool b
            (AreBelow self.old.base.next clause.now
            × IsChain (clause_at self.old.clauses) clause.now hints.now)
            (¬ (AreBelow self.old.base.next clause.now
            × IsChain (clause_at self.old.clauses) clause.now hints.now))) }
        ensures same { self.new ≡ self.old }
    {
        let next = self.rows.base().next();
        if !are_below(clause.literals(), next) {
            return Ok(false);
        }
        self.marks.reserve(next)?;
        Ok(leads(&self.rows, clause, hints, &mut self.marks))
    }

    /// Forgets the chains at these positions: their clauses and their hints are let go.
    pub fn forget(&mut self, places: &[Pos])
        ensures faded { IsFaded (is_among places.now) self.old self.new }
        ensures held { (nodes : List Node) → IsHeld nodes self.old → IsHeld nodes self.new }
    {
        for at in places {
            self.rows.forget(*at);
        }
    }
}
