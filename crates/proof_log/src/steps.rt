//! The steps of a log, each with its clauses.

ghost use Rattle.std.specs.Prelude.{◌≡◌, ℕ, [], ◌∷◌, suc, OnOk, OnErr, IfOk, None, IsSome, length, slice_get};
ghost use Rattle.std.specs.Option.{option_copied};
ghost use Rattle.smt_terms.specs.Bits.{bits_in, with_bits, with_image};
ghost use Rattle.cnf_base.specs.Literals.{true_literal};
ghost use Rattle.smt_terms.specs.Terms.{Agrees, make};
ghost use Rattle.proof_log.specs.declared.entry.Entry.TheVariants as step;
ghost use Rattle.proof_log.specs.Logs.{entry_at, with_value};
ghost use Rattle.proof_log.specs.Pairs.{found, with_pair};
ghost use Rattle.proof_log.specs.Places.{GivesBits, GivesSelector, IsPlaceOf, IsForTerm, IsPlain};
ghost use Rattle.proof_log.specs.Stored.{with_step, selector_in};
ghost use Rattle.proof_log.specs.Faults.{NodeIsMade};

use crate::entry::{AssertId, Entry, RuleUse};
use crate::equals::{EqualRow, Equals};
use crate::{places, selectors};
use cnf_base::{Clause, ClauseId, Lit, Pos};
use hint_chain::Clauses;
use smt_terms::bits::Bits;
use smt_terms::fault::MakeError;
use smt_terms::node::{Node, TermId};
use smt_terms::terms::Terms;
use std::alloc::{AllocError, Global};
use std::marker::Model;

/// A step, and the clauses that were made with it. A chain's clause is the one in the step.
#[derive(Debug, Drop)]
struct Step {
    entry: Entry,
    made: Vec<Clause>,
}

impl Model for Step {
    ghost use Rattle.proof_log.specs.Stored.{StepValue, clauses_of};

    ghost Value = { StepValue };

    ghost view = { λ s. record { entry = s.entry; clauses = clauses_of s.entry s.made.items } };
}

impl Step {
    fn clause(&self, part: u32) -> Option<&Clause>
        ensures { option_copied result ≡ slice_get self.now.clauses part }
    {
        match &self.entry {
            Entry::Chain(clause, _) => lone(clause, part),
            _ => self.made.get(part as usize),
        }
    }

    fn entry(&self) -> &Entry
        ensures { result.now ≡ self.now.entry }
    {
        &self.entry
    }
}

// The clause, if its part is asked for.
fn lone(clause: &Clause, part: u32) -> Option<&Clause>
    ensures { option_copied result ≡ slice_get (clause.now ∷ []) part }
{
    if part == 0 { Some(clause) } else { None }
}

/// The steps, and the clause of position 0, which is no step.
#[derive(Debug, Drop)]
pub(crate) struct Steps {
    first: Clause,
    steps: Vec<Step>,
    // The positions of the steps that gave bits and selectors, by term and by assertion.
    terms: Vec<Option<Pos>>,
    assertions: Vec<Option<Pos>>,
}

impl Model for Steps {
    ghost use Rattle.std.specs.Prelude.{[], ◌∷◌, map};
    ghost use Rattle.proof_log.specs.Places.{ArePlaces};
    ghost use Rattle.proof_log.specs.Stored.{StepsValue};

    ghost Value = { StepsValue };

    ghost view = { λ s.
        record {
          entries = map (λ x. x.entry) s.steps.items;
          clauses = (s.first ∷ []) ∷ map (λ x. x.clauses) s.steps.items;
        } };

    ghost invariant = { λ s. ArePlaces (map (λ x. x.entry) s.steps.items) s.terms.items s.assertions.items };
}

impl Clauses for Steps {
    ghost use Rattle.proof_log.specs.Logs.{clause_at};

    ghost look = { λ s. clause_at s.clauses };

    fn clause(&self, id: ClauseId) -> Option<&Clause> {
        if id.pos == 0 {
            return lone(&self.first, id.part);
        }
        match self.steps.get((id.pos - 1) as usize) {
            None => None,
            Some(step) => step.clause(id.part),
        }
    }
}

impl Steps {
    /// No steps.
    pub(crate) fn new(alloc: Global) -> Result<Steps, AllocError>
        ensures entries { IfOk result (λ s. s.entries ≡ []) }
        ensures clauses { IfOk result (λ s. s.clauses ≡ ((true_literal ∷ []) ∷ []) ∷ []) }
    {
        Ok(Steps {
            first: Clause::of_one(alloc, Lit::TRUE)?,
            steps: Vec::new(alloc),
            terms: Vec::new(alloc),
            assertions: Vec::new(alloc),
        })
    }

    /// How many positions there are.
    pub(crate) fn len(&self) -> Pos
        ensures { result ≡ suc (length self.now.entries) }
    {
        self.steps.len() as u64 + 1
    }

    /// The step at a position.
    pub(crate) fn entry(&self, at: Pos) -> Option<&Entry>
        ensures { option_copied result ≡ entry_at self.now.entries at }
    {
        if at == 0 {
            return None;
        }
        match self.steps.get((at - 1) as usize) {
            None => None,
            Some(step) => Some(step.entry()),
        }
    }

    /// The position of the step that gave a term its bits.
    pub(crate) fn of_term(&self, term: TermId) -> Option<Pos>
        ensures { IsPlaceOf (GivesBits self.now.entries term) result }
    {
        places::place_of(&self.terms, term)
    }

    /// The position of the step that gave an assertion its selector.
    pub(crate) fn of_assertion(&self, assertion: AssertId) -> Option<Pos>
        ensures { IsPlaceOf (GivesSelector self.now.entries assertion) result }
    {
        places::place_of(&self.assertions, assertion)
    }

    /// One step more, with these clauses, which gives neither bits nor a selector.
    pub(crate) fn push(&mut self, entry: Entry, made: Vec<Clause>) -> Result<(), AllocError>
        requires { IsPlain entry }
        ensures ok { OnOk result (self.new ≡ with_step self.old entry made.items) }
        ensures err { OnErr result (self.new ≡ self.old) }
    {
        self.steps.push(Step { entry, made })?;
        Ok(())
    }

    /// One step more, with these clauses, which gives a term bits.
    pub(crate) fn push_bits(
        &mut self,
        bits: &mut Bits,
        term: TermId,
        row: &[Lit],
        entry: Entry,
        made: Vec<Clause>,
    ) -> Result<(), AllocError>
        requires new { bits_in bits.old term ≡ None }
        requires entry { IsForTerm term entry }
        ensures step { OnOk result (self.new ≡ with_step self.old entry made.items) }
        ensures bits { OnOk result (bits.new ≡ with_bits bits.old term row.now) }
        ensures err { OnErr result (self.new ≡ self.old) }
        ensures err_bits { OnErr result (bits.new ≡ bits.old) }
    {
        let at = self.len();
        places::grow(&mut self.terms, term)?;
        self.steps.reserve(1)?;
        bits.set(term, row)?;
        places::set(&mut self.terms, term, at);
        self.steps.push_reserved(Step { entry, made });
        Ok(())
    }

    /// One step more, by which a rule gives a term the bits of another.
    pub(crate) fn push_link(
        &mut self,
        alloc: Global,
        bits: &mut Bits,
        used: RuleUse,
    ) -> Result<(), AllocError>
        requires new { bits_in bits.old used.from ≡ None }
        requires held { IsSome (bits_in bits.old used.to) }
        ensures step { OnOk result (self.new ≡ with_step self.old (step.Rewrite used) []) }
        ensures bits { OnOk result (bits.new ≡ with_image bits.old used.from used.to) }
        ensures err { OnErr result (self.new ≡ self.old) }
        ensures err_bits { OnErr result (bits.new ≡ bits.old) }
    {
        let at = self.len();
        places::grow(&mut self.terms, used.from)?;
        self.steps.reserve(1)?;
        bits.link(used.from, used.to)?;
        places::set(&mut self.terms, used.from, at);
        self.steps.push_reserved(Step {
            entry: Entry::Rewrite(used),
            made: Vec::new(alloc),
        });
        Ok(())
    }

    /// One step more, with these clauses, which gives an equality its variable.
    pub(crate) fn push_pair(
        &mut self,
        equals: &mut Equals,
        lower: TermId,
        upper: TermId,
        literal: Lit,
        made: Vec<Clause>,
    ) -> Result<(), AllocError>
        requires { found equals.old lower upper ≡ None }
        ensures step { OnOk result
            (self.new ≡ with_step self.old (step.Equal lower upper) made.items) }
        ensures equals { OnOk result ((t u : ℕ)
            → found equals.new t u
            ≡ with_pair (found equals.old) lower upper
            (record { literal = literal; place = suc (length self.old.entries) }) t u) }
        ensures err { OnErr result (self.new ≡ self.old) }
        ensures err_equals { OnErr result (equals.new ≡ equals.old) }
    {
        let place = self.len();
        self.steps.reserve(1)?;
        equals.insert(lower, upper, EqualRow { literal, place })?;
        self.steps.push_reserved(Step {
            entry: Entry::Equal(lower, upper),
            made,
        });
        Ok(())
    }

    /// One step more, with these clauses, which gives an assertion its selector.
    pub(crate) fn push_selector(
        &mut self,
        held: &mut Vec<Option<Lit>>,
        assertion: AssertId,
        selector: Lit,
        entry: Entry,
        made: Vec<Clause>,
    ) -> Result<(), AllocError>
        requires { (t : ℕ) × (entry ≡ step.Selector assertion t) }
        ensures step { OnOk result (self.new ≡ with_step self.old entry made.items) }
        ensures held { OnOk result ((a : ℕ)
            → selector_in held.new.items a
            ≡ with_value (selector_in held.old.items) assertion selector a) }
        ensures err { OnErr result (self.new ≡ self.old) }
        ensures err_held { OnErr result (held.new.items ≡ held.old.items) }
    {
        let at = self.len();
        places::grow(&mut self.assertions, assertion)?;
        self.steps.reserve(1)?;
        selectors::grow(held, assertion)?;
        selectors::set(held, assertion, selector);
        places::set(&mut self.assertions, assertion, at);
        self.steps.push_reserved(Step { entry, made });
        Ok(())
    }

    /// One step more, which makes a term.
    pub(crate) fn push_node(
        &mut self,
        alloc: Global,
        terms: &mut Terms,
        node: Node,
    ) -> Result<(), MakeError>
        requires declared { Agrees terms.old.nodes node.op }
        ensures step { OnOk result (self.new ≡ with_step self.old (step.Node node) []) }
        ensures terms { NodeIsMade (make terms.old node) result terms.old terms.new }
        ensures err { OnErr result (self.new ≡ self.old) }
    {
        let kept = node.copy()?;
        self.steps.reserve(1)?;
        terms.make(node)?;
        self.steps.push_reserved(Step {
            entry: Entry::Node(kept),
            made: Vec::new(alloc),
        });
        Ok(())
    }
}
