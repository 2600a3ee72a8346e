//! What is kept of a log from check to check.

ghost use Rattle.std.specs.Prelude.{◌≡◌, ◌<◌, ◌++◌, ◌∷◌, [], ℕ, suc, List, IfOk, OnOk, OnErr, IsSome, Some, All, Contains, length, if◌then◌else◌};
ghost use Rattle.smt_terms.specs.declared.node.Node.{Node};
ghost use Rattle.smt_terms.specs.Bits.{image_in};
ghost use Rattle.smt_terms.specs.Terms.{IsTermList};
ghost use Rattle.scope_selectors.specs.declared.live.Live.{Live as LiveValue};
ghost use Rattle.proof_log.specs.declared.entry.Entry.{Entry as Step};
ghost use Rattle.proof_log.specs.declared.entry.Entry.TheVariants as step;
ghost use Rattle.proof_log.specs.Assigned.{AreClosed};
ghost use Rattle.proof_log.specs.Logs.{entry_at};
ghost use Rattle.proof_log.specs.Stored.{Stands, selector_in};
ghost use Rattle.reached_steps.specs.Opening.{AreOpeningSteps};
ghost use Rattle.opening_positions.specs.Reading.{IsRead, adds_equality, adds_lemma};
ghost use Rattle.opening_positions.specs.Holding.{IsHeldAssertion, IsOfReached};

use crate::holding::{hold_equalities, hold_lemmas, hold_selectors, hold_terms};
use crate::next::next_after;
use crate::position_list::PositionList;
use cnf_base::Pos;
use proof_log::Log;
use proof_log::entry::Entry;
use scope_selectors::live::Live;
use smt_terms::node::TermId;
use smt_terms::terms::Terms;
use std::alloc::{AllocError, Global};
use std::marker::Model;

// Whether the step gives an equality its variable.
fn is_equality(entry: &Entry) -> bool
    ensures { result ≡ adds_equality entry.now }
{
    matches!(entry, Entry::Equal(_, _))
}

// Whether the step adds the clause of a lemma.
fn is_lemma(entry: &Entry) -> bool
    ensures { result ≡ adds_lemma entry.now }
{
    matches!(entry, Entry::Lemma(_))
}

// Lists a position where it is wanted.
fn note(positions: &mut Vec<Pos>, wanted: bool, at: Pos) -> Result<(), AllocError>
    ensures ok { OnOk result (positions.new.items
        ≡ (if wanted then positions.old.items ++ at ∷ [] else positions.old.items)) }
    ensures err { OnErr result (positions.new.items ≡ positions.old.items) }
{
    if !wanted {
        return Ok(());
    }
    positions.push(at)?;
    Ok(())
}

/// The equalities and lemmas of a log, and which steps made its variables: what tells at which positions a search begins. Of a log
/// that grows only the new steps are read.
#[derive(Debug, Drop)]
pub struct TheorySteps {
    read: u64,
    // By variable, from 0 on, which is none.
    makers: Vec<Pos>,
    equalities: Vec<Pos>,
    lemmas: Vec<Pos>,
    // What the check at hand holds.
    held: PositionList,
}

impl Model for TheorySteps {
    ghost use Rattle.opening_positions.specs.Reading.{ReadSteps};

    ghost Value = { ReadSteps };

    ghost view = { λ s.
        record {
          read = s.read;
          makers = s.makers.items;
          equalities = s.equalities.items;
          lemmas = s.lemmas.items;
        } };
}

impl TheorySteps {
    /// No step was read yet.
    pub fn new(alloc: Global) -> Result<TheorySteps, AllocError>
        ensures { IfOk result (λ s. (nodes : List Node) (log : List Step) → IsRead nodes log s) }
    {
        Ok(TheorySteps {
            read: 0,
            makers: Vec::from_array(alloc, [0, 0])?,
            equalities: Vec::new(alloc),
            lemmas: Vec::new(alloc),
            held: PositionList::new(alloc),
        })
    }

    // Reads the next step.
    fn read_step(&mut self, terms: &Terms, log: &Log, at: Pos) -> Result<(), AllocError>
        requires listed { IsTermList terms.now.nodes }
        requires stands { Stands terms.now.nodes log.now }
        requires more { self.old.read < length log.now.entries }
        requires at { at ≡ suc self.old.read }
        requires read { IsRead terms.now.nodes log.now.entries self.old }
        ensures read { IsRead terms.now.nodes log.now.entries self.new }
        ensures one { OnOk result (self.new.read ≡ at) }
    {
        let Some(entry) = log.entry(at) else {
            return Ok(());
        };
        let next = next_after(terms, log, entry, at, self.makers.len() as u64)?;
        note(&mut self.equalities, is_equality(entry), at)?;
        note(&mut self.lemmas, is_lemma(entry), at)?;
        self.makers.resize(next as usize, at)?;
        self.read = at;
        Ok(())
    }

    /// Reads the steps that came since. For want of memory some of them may have been read.
    pub fn update(&mut self, terms: &Terms, log: &Log) -> Result<(), AllocError>
        requires listed { IsTermList terms.now.nodes }
        requires stands { Stands terms.now.nodes log.now }
        requires read { IsRead terms.now.nodes log.now.entries self.old }
        ensures read { IsRead terms.now.nodes log.now.entries self.new }
        ensures whole { OnOk result (self.new.read ≡ length log.now.entries) }
    {
        let end = log.len();
        'steps: for at in self.read + 1..end {
            self.read_step(terms, log, at)?;
        }
        Ok(())
    }

    /// The positions that a search with functions and arrays holds from its beginning, position 0 first: those of the steps that gave
    /// the reached terms their bits, of the selectors of the live assertions, of the equalities of two reached terms, and of the
    /// lemmas over the variables that steps at the positions made. The work goes by the reached terms and the live assertions, and by
    /// all equalities and lemmas of the log.
    pub fn positions(
        &mut self,
        alloc: Global,
        terms: &Terms,
        log: &Log,
        reached: &[TermId],
        live: &[Live],
    ) -> Result<Vec<Pos>, AllocError>
        requires listed { IsTermList terms.now.nodes }
        requires stands { Stands terms.now.nodes log.now }
        requires read { IsRead terms.now.nodes log.now.entries self.old }
        requires whole { self.old.read ≡ length log.now.entries }
        requires closed { AreClosed terms.now.nodes (image_in log.now.bits)
            (Contains reached.now) }
        requires selectors { All (λ (a : LiveValue).
            IsSome (selector_in log.now.selectors a.assertion)) live.now }
        requires reached { All (IsOfReached log.now.entries reached.now) live.now }
        ensures same { self.new ≡ self.old }
        ensures opening { IfOk result (λ p.
            AreOpeningSteps terms.now.nodes log.now.entries reached.now p.items) }
        ensures selectors { IfOk result (λ p.
            All (IsHeldAssertion log.now.entries p.items) live.now) }
        ensures equalities { IfOk result (λ p. (at t u : ℕ)
            → entry_at log.now.entries at ≡ Some (step.Equal t u) → Contains reached.now t
            → Contains reached.now u → Contains p.items at) }
    {
        self.held.clear();
        hold_terms(&mut self.held, log, reached)?;
        hold_selectors(&mut self.held, terms, log, live)?;
        hold_equalities(&mut self.held, terms, log, self.equalities.as_slice())?;
        hold_lemmas(
            &mut self.held,
            self.makers.as_slice(),
            log,
            self.lemmas.as_slice(),
        )?;
        self.held.to_vec(alloc)
    }
}
