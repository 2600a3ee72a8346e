//! A log, as it is stored.

ghost use Rattle.std.specs.Prelude.{◌≡◌, [], suc, List, IfOk, OnOk, OnErr, IfSome, MatchOption, length};
ghost use Rattle.std.specs.Option.{option_copied};
ghost use Rattle.smt_terms.specs.declared.node.Node.{Node};
ghost use Rattle.smt_terms.specs.Terms.{IsTermList, Agrees, with_node};
ghost use Rattle.proof_log.specs.declared.entry.Entry.TheVariants as step;
ghost use Rattle.proof_log.specs.Logs.{clause_at, entry_at, state_of};
ghost use Rattle.proof_log.specs.Meanings.{IsSound};
ghost use Rattle.proof_log.specs.Places.{GivesBits, GivesSelector, IsPlaceOf};
ghost use Rattle.proof_log.specs.Stored.{Stands, IsPushed, selector_in};
ghost use Rattle.proof_log.specs.Faults.{IsValid, MakesNoTerm, IsNewNode, IsDeclared, Answers};

use crate::entry::{AssertId, Entry};
use crate::equals::Equals;
use crate::fault::{Kept, PushError, StepFault, StepKind};
use crate::selectors::selector_of;
use crate::steps::Steps;
use crate::trying::is_given;
use cnf_base::{Clause, ClauseId, Lit, Pos};
use hint_chain::{Clauses, Marks};
use smt_terms::bits::Bits;
use smt_terms::fault::MakeError;
use smt_terms::node::{Node, TermId};
use smt_terms::terms::Terms;
use std::alloc::{AllocError, Global};
use std::marker::Model;

/// A log: its steps, and what they left. Position 0 is the clause that variable 1 is true.
#[derive(Debug, Drop)]
pub struct Log {
    pub(crate) next: u64,
    pub(crate) over: u32,
    pub(crate) bits: Bits,
    pub(crate) selectors: Vec<Option<Lit>>,
    pub(crate) equals: Equals,
    pub(crate) steps: Steps,
    pub(crate) marks: Marks,
}

impl Model for Log {
    ghost use Rattle.proof_log.specs.Stored.{LogValue};

    ghost Value = { LogValue };

    ghost view = { λ l.
        record {
          next = l.next;
          over = l.over;
          bits = l.bits;
          selectors = l.selectors.items;
          equals = l.equals;
          entries = l.steps.entries;
          clauses = l.steps.clauses;
        } };
}

impl Clauses for Log {
    ghost use Rattle.proof_log.specs.Logs.{clause_at};

    ghost look = { λ l. clause_at l.clauses };

    fn clause(&self, id: ClauseId) -> Option<&Clause> {
        self.steps.clause(id)
    }
}

impl Log {
    /// The log without a step.
    pub fn new(alloc: Global) -> Result<Log, AllocError>
        ensures entries { IfOk result (λ l. l.entries ≡ []) }
        ensures stands { IfOk result (λ l. (nodes : List Node) → Stands nodes l) }
    {
        let steps = Steps::new(alloc)?;
        Ok(Log {
            next: 2,
            over: 0,
            bits: Bits::new(alloc),
            selectors: Vec::new(alloc),
            equals: Equals::new(alloc),
            steps,
            marks: Marks::new(alloc),
        })
    }

    /// The clause of a name, `None` exactly where there is none; takes no memory. Over all terms that the log stands over
    /// it is true in every interpretation.
    pub fn clause(&self, id: ClauseId) -> Option<&Clause>
        ensures clause { option_copied result ≡ clause_at self.now.clauses id }
        ensures sound { IfSome result (λ c. (nodes : List Node) → IsTermList nodes
            → Stands nodes self.now → IsSound nodes self.now.entries c.now) }
    {
        match self.steps.clause(id) {
            Some(clause) => Some(clause),
            None => None,
        }
    }

    /// The step at a position, `None` exactly where there is none; takes no memory.
    pub fn entry(&self, at: Pos) -> Option<&Entry>
        ensures { option_copied result ≡ entry_at self.now.entries at }
    {
        self.steps.entry(at)
    }

    /// The position of the step that gave a term its bits, a Leaf, an Encode or a Rewrite step; `None` exactly where there
    /// is none.
    pub fn step_of(&self, term: TermId) -> Option<Pos>
        ensures { IsPlaceOf (GivesBits self.now.entries term) result }
    {
        self.steps.of_term(term)
    }

    /// The position of the Selector step of an assertion; `None` exactly where there is none.
    pub fn selector_step_of(&self, assertion: AssertId) -> Option<Pos>
        ensures { IsPlaceOf (GivesSelector self.now.entries assertion) result }
    {
        self.steps.of_assertion(assertion)
    }

    /// The variables of equalities.
    pub fn equals(&self) -> &Equals
        ensures { result.now ≡ self.now.equals }
    {
        &self.equals
    }

    /// The bits of terms.
    pub fn bits(&self) -> &Bits
        ensures { result.now ≡ self.now.bits }
    {
        &self.bits
    }

    /// How many positions there are.
    pub fn len(&self) -> u64
        ensures { result ≡ suc (length self.now.entries) }
    {
        self.steps.len()
    }

    /// The next variable: every variable below it is made.
    pub fn next(&self) -> u64
        ensures { result ≡ self.now.next }
    {
        self.next
    }

    /// How many terms the log stands over.
    pub fn over(&self) -> u32
        ensures { result ≡ self.now.over }
    {
        self.over
    }

    /// The literal that stands for an assertion; `None` exactly where none does.
    pub fn selector(&self, assertion: AssertId) -> Option<Lit>
        ensures { result ≡ selector_in self.now.selectors assertion }
    {
        selector_of(&self.selectors, assertion)
    }

    /// One step more, of any kind but Node, which is valid; gives its position. For want of memory, or of numbers for
    /// variables, the log is as before.
    pub fn push(&mut self, alloc: Global, terms: &Terms, entry: Entry) -> Result<Pos, AllocError>
        requires stands { Stands terms.now.nodes self.old }
        requires kind { MakesNoTerm entry }
        requires valid { IsValid terms.now (state_of terms.now.nodes self.old.entries) entry }
        ensures pushed { IfOk result (IsPushed terms.now.nodes self.old self.new entry) }
        ensures err { OnErr result (self.new ≡ self.old) }
    {
        let at = self.len();
        let over = terms.len();
        match entry {
            Entry::Leaf(term) => {
                self.leaf(alloc, terms, term)?;
            }
            Entry::Encode(term) => {
                self.encode(alloc, terms, term)?;
            }
            Entry::Selector(assertion, term) => {
                self.select(alloc, terms, assertion, term)?;
            }
            Entry::Chain(clause, hints) => {
                self.put_plain(alloc, over, Entry::Chain(clause, hints))?;
            }
            Entry::Equal(lower, upper) => {
                self.equal(alloc, terms, lower, upper)?;
            }
            Entry::Lemma(lemma) => {
                self.lemma(alloc, terms, lemma)?;
            }
            Entry::Rewrite(used) => {
                self.rewrite(alloc, terms, used)?;
            }
            // Excluded by the condition on the kind.
            Entry::Node(_) => unreachable!(),
        }
        Ok(at)
    }

    /// One step more that makes a term, which is valid; gives its position. For want of memory the log and the terms are
    /// as before.
    pub fn push_node(
        &mut self,
        alloc: Global,
        terms: &mut Terms,
        node: Node,
    ) -> Result<Pos, AllocError>
        requires stands { Stands terms.old.nodes self.old }
        requires declared { Agrees terms.old.nodes node.op }
        requires valid { IsNewNode terms.old node }
        ensures terms { OnOk result (terms.new ≡ with_node terms.old node) }
        ensures pushed { IfOk result (IsPushed terms.new.nodes self.old self.new (step.Node node)) }
        ensures err { OnErr result (self.new ≡ self.old) }
        ensures err_terms { OnErr result (terms.new ≡ terms.old) }
    {
        match self.node(alloc, terms, node) {
            Ok(at) => Ok(at),
            Err(_) => Err(AllocError),
        }
    }

    /// One step more where it is valid, else what shows that it is not. After a fault, and for want of memory or of
    /// numbers for variables, the log and the terms are as before.
    pub fn try_push(
        &mut self,
        alloc: Global,
        terms: &mut Terms,
        entry: Entry,
    ) -> Result<Pos, PushError>
        requires stands { Stands terms.old.nodes self.old }
        requires declared { IsDeclared terms.old entry }
        ensures { Answers terms.old terms.new entry self.old self.new result }
    {
        match entry {
            Entry::Node(node) => self.node(alloc, terms, node),
            other => self.try_put(alloc, terms, other),
        }
    }

    /// The same of a step that makes no term.
    pub fn try_put(&mut self, alloc: Global, terms: &Terms, entry: Entry) -> Result<Pos, PushError>
        requires stands { Stands terms.now.nodes self.old }
        requires kind { MakesNoTerm entry }
        ensures { Answers terms.now terms.now entry self.old self.new result }
    {
        let at = self.len();
        match entry {
            Entry::Leaf(term) => told(StepKind::Leaf, at, self.leaf(alloc, terms, term)?),
            Entry::Encode(term) => told(StepKind::Encode, at, self.encode(alloc, terms, term)?),
            Entry::Selector(assertion, term) => told(
                StepKind::Selector,
                at,
                self.select(alloc, terms, assertion, term)?,
            ),
            Entry::Chain(clause, hints) => told(
                StepKind::Chain,
                at,
                self.chain(alloc, terms, clause, hints)?,
            ),
            Entry::Rewrite(used) => told(StepKind::Rewrite, at, self.rewrite(alloc, terms, used)?),
            Entry::Equal(lower, upper) => told(
                StepKind::Equal,
                at,
                self.equal(alloc, terms, lower, upper)?,
            ),
            Entry::Lemma(lemma) => told(StepKind::Lemma, at, self.lemma(alloc, terms, lemma)?),
            // Excluded by the condition on the kind.
            Entry::Node(_) => unreachable!(),
        }
    }

    // A term that is made.
    fn node(&mut self, alloc: Global, terms: &mut Terms, node: Node) -> Result<Pos, PushError>
        requires stands { Stands terms.old.nodes self.old }
        requires declared { Agrees terms.old.nodes node.op }
        ensures { Answers terms.old terms.new (step.Node node) self.old self.new result }
    {
        if is_given(&node.op) {
            return Err(refused(StepKind::Node, Kept::Operator));
        }
        if let Some(term) = terms.find(&node) {
            return Err(refused(StepKind::Node, Kept::Term(term)));
        }
        let at = self.len();
        match self.steps.push_node(alloc, terms, node) {
            Ok(()) => {
                self.over = terms.len();
                Ok(at)
            }
            Err(MakeError::NoMemory) => Err(PushError::NoMemory),
            Err(MakeError::Fault(fault)) => Err(refused(StepKind::Node, Kept::Make(fault))),
        }
    }
}

fn refused(kind: StepKind, kept: Kept) -> PushError
    ensures { result ≡ PushError.Fault (record { kind = kind; kept = kept }) }
{
    PushError::Fault(StepFault { kind, kept })
}

// The position of a step that was added, or the fault that shows that it was not valid.
fn told(kind: StepKind, at: Pos, shown: Option<Kept>) -> Result<Pos, PushError>
    ensures { MatchOption shown (result ≡ Ok at)
        (λ k. result ≡ Err (PushError.Fault (record { kind = kind; kept = k }))) }
{
    match shown {
        None => Ok(at),
        Some(kept) => Err(refused(kind, kept)),
    }
}
