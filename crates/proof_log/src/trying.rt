//! Steps that are tried, kind by kind: what shows that one is not valid, or it is put into the log.

ghost use Rattle.std.specs.Prelude.{◌≡◌, ◌≤◌, ◌<◌, ◌&&◌, ◌≢◌, List, [], ◌∷◌, length, Some, OnErr, IfOk, MatchOption, MatchBool, Contains, is_some};
ghost use Rattle.cnf_base.specs.Literals.{Literal};
ghost use Rattle.cnf_base.specs.Assignments.{AreBelow};
ghost use Rattle.cnf_base.specs.declared.clause.ClauseId.{ClauseId};
ghost use Rattle.smt_terms.specs.Bits.{bits_in};
ghost use Rattle.smt_terms.specs.Terms.{sort_of};
ghost use Rattle.hint_chain.specs.Chains.{IsChain};
ghost use Rattle.proof_log.specs.declared.entry.Entry.TheVariants as step;
ghost use Rattle.proof_log.specs.Logs.{clause_at, state_of, IsRewrite};
ghost use Rattle.proof_log.specs.Pairs.{found};
ghost use Rattle.theory_lemmas.specs.Clauses.{clause_of};
ghost use Rattle.proof_log.specs.Stored.{Stands, equal_in};
ghost use Rattle.proof_log.specs.Faults.{Tried, IsGiven, ShowsChain, ShowsRewrite};

use crate::entry::{AssertId, Entry, Hints, RuleUse};
use crate::equals::EqualRow;
use crate::fault::Kept;
use crate::log::Log;
use crate::pushing::width_of;
use bv_rules::matching::matches;
use bv_rules::rule::Rule;
use cnf_base::{Clause, Lit};
use hint_chain::follows;
use smt_terms::node::{Op, TermId};
use smt_terms::sort::Sort;
use smt_terms::terms::Terms;
use std::alloc::{AllocError, Global};
use theory_lemmas::clauses::clause_of;
use theory_lemmas::fault::{LemmaError, LemmaFault};
use theory_terms::lemma::Lemma;

/// Whether an operator is made by no step.
pub(crate) fn is_given(op: &Op) -> bool
    ensures { MatchBool result (IsGiven op.now) (¬ (IsGiven op.now)) }
{
    matches!(op, Op::Constant { .. } | Op::Param { .. })
}

// Whether a sort is that of the truth values.
fn is_bool(sort: Sort) -> bool
    ensures { MatchBool result (sort ≡ Sort.Bool) (sort ≢ Sort.Bool) }
{
    matches!(sort, Sort::Bool)
}

// Whether two terms of one sort are held, the lower first.
fn is_pair(terms: &Terms, lower: TermId, upper: TermId) -> bool
    ensures { MatchBool result
        ((lower < upper) × (upper < length terms.now.nodes)
        × (sort_of terms.now.nodes lower ≡ sort_of terms.now.nodes upper))
        ((lower < upper) × (upper < length terms.now.nodes)
        × (sort_of terms.now.nodes lower ≡ sort_of terms.now.nodes upper) → ⊥) }
{
    lower < upper && upper < terms.len() && terms.sort(lower) == terms.sort(upper)
}

// The first variable of the literals that is not below this one.
fn first_above(literals: &[Lit], next: u64) -> Option<u64>
    ensures { MatchOption result (AreBelow next literals.now)
        (λ x. (l : Literal) × Contains literals.now l × (l.variable ≡ x) × (next ≤ x)) }
{
    for l in literals {
        if l.variable() >= next {
            return Some(l.variable());
        }
    }
    None
}

impl Log {
    /// New variables for the bits of a term that may be a leaf.
    pub(crate) fn leaf(
        &mut self,
        alloc: Global,
        terms: &Terms,
        term: TermId,
    ) -> Result<Option<Kept>, AllocError>
        requires stands { Stands terms.now.nodes self.old }
        ensures ok { IfOk result (Tried terms.now (step.Leaf term) self.old self.new) }
        ensures err { OnErr result (self.new ≡ self.old) }
    {
        if term >= terms.len() {
            return Ok(Some(Kept::Term(term)));
        }
        if self.has_bits(term) {
            return Ok(Some(Kept::Term(term)));
        }
        match width_of(terms, term) {
            None => Ok(Some(Kept::Term(term))),
            Some(width) => {
                self.put_leaf(alloc, terms, term, width)?;
                Ok(None)
            }
        }
    }

    /// The circuit of a term.
    pub(crate) fn encode(
        &mut self,
        alloc: Global,
        terms: &Terms,
        term: TermId,
    ) -> Result<Option<Kept>, AllocError>
        requires stands { Stands terms.now.nodes self.old }
        ensures ok { IfOk result (Tried terms.now (step.Encode term) self.old self.new) }
        ensures err { OnErr result (self.new ≡ self.old) }
    {
        if term >= terms.len() {
            return Ok(Some(Kept::Term(term)));
        }
        if self.has_bits(term) {
            return Ok(Some(Kept::Term(term)));
        }
        if self.put_encode(alloc, terms, term)? {
            return Ok(None);
        }
        Ok(Some(Kept::Term(term)))
    }

    /// The bits of a term to which a rule takes another, for that other.
    pub(crate) fn rewrite(
        &mut self,
        alloc: Global,
        terms: &Terms,
        used: RuleUse,
    ) -> Result<Option<Kept>, AllocError>
        requires stands { Stands terms.now.nodes self.old }
        ensures ok { IfOk result (Tried terms.now (step.Rewrite used) self.old self.new) }
        ensures err { OnErr result (self.new ≡ self.old) }
    {
        let over = terms.len();
        if let Some(kept) = self.not_rewritten(terms, used) {
            return Ok(Some(kept));
        }
        self.put_rewrite(alloc, over, used)?;
        Ok(None)
    }

    /// A variable for an assertion, and the clause that it implies the bit of its term.
    pub(crate) fn select(
        &mut self,
        alloc: Global,
        terms: &Terms,
        assertion: AssertId,
        term: TermId,
    ) -> Result<Option<Kept>, AllocError>
        requires stands { Stands terms.now.nodes self.old }
        ensures ok { IfOk result
            (Tried terms.now (step.Selector assertion term) self.old self.new) }
        ensures err { OnErr result (self.new ≡ self.old) }
    {
        if let Some(selector) = self.selector(assertion) {
            return Ok(Some(Kept::Variable(selector.variable())));
        }
        if term >= terms.len() {
            return Ok(Some(Kept::Term(term)));
        }
        if !is_bool(terms.sort(term)) {
            return Ok(Some(Kept::Term(term)));
        }
        match self.lone_bit(term) {
            None => Ok(Some(Kept::Term(term))),
            Some(bit) => {
                self.put_selector(alloc, terms, assertion, term, bit)?;
                Ok(None)
            }
        }
    }

    /// A variable for the equality of two terms.
    pub(crate) fn equal(
        &mut self,
        alloc: Global,
        terms: &Terms,
        lower: TermId,
        upper: TermId,
    ) -> Result<Option<Kept>, AllocError>
        requires stands { Stands terms.now.nodes self.old }
        ensures ok { IfOk result (Tried terms.now (step.Equal lower upper) self.old self.new) }
        ensures err { OnErr result (self.new ≡ self.old) }
    {
        let over = terms.len();
        if !is_pair(terms, lower, upper) {
            return Ok(Some(Kept::Terms(lower, upper)));
        }
        if !self.have_bits(lower, upper) {
            return Ok(Some(Kept::Terms(lower, upper)));
        }
        match self.equal_row(lower, upper) {
            Some(row) => Ok(Some(Kept::Variable(row.literal.variable()))),
            None => {
                self.put_equal(alloc, over, lower, upper)?;
                Ok(None)
            }
        }
    }

    /// The clause of a lemma.
    pub(crate) fn lemma(
        &mut self,
        alloc: Global,
        terms: &Terms,
        lemma: Lemma,
    ) -> Result<Option<Kept>, AllocError>
        requires stands { Stands terms.now.nodes self.old }
        ensures ok { IfOk result (Tried terms.now (step.Lemma lemma) self.old self.new) }
        ensures err { OnErr result (self.new ≡ self.old) }
    {
        let over = terms.len();
        match self.lemma_clause(alloc, terms, &lemma)? {
            Err(fault) => Ok(Some(Kept::Lemma(fault))),
            Ok(clause) => {
                self.put_lemma(alloc, over, lemma, clause)?;
                Ok(None)
            }
        }
    }

    // What shows that a term does not get the bits of another by the rule.
    fn not_rewritten(&self, terms: &Terms, used: RuleUse) -> Option<Kept>
        requires stands { Stands terms.now.nodes self.now }
        ensures { MatchOption result
            (IsRewrite terms.now.nodes (state_of terms.now.nodes self.now.entries) used)
            (λ k. (IsRewrite terms.now.nodes (state_of terms.now.nodes self.now.entries) used → ⊥)
            × ShowsRewrite terms.now.nodes (state_of terms.now.nodes self.now.entries) used k) }
    {
        let Some(rule) = Rule::numbered(used.rule as u64) else {
            return Some(Kept::NoRule(used.rule))
        };
        if !matches(rule, terms, &self.bits, used.from, used.to) {
            return Some(Kept::Terms(used.from, used.to));
        }
        if self.has_bits(used.from) {
            return Some(Kept::Term(used.from));
        }
        if !self.has_bits(used.to) {
            return Some(Kept::Term(used.to));
        }
        None
    }

    // Whether a term has bits.
    fn has_bits(&self, term: TermId) -> bool
        ensures { result ≡ is_some (bits_in self.now.bits term) }
    {
        match self.bits.of(term) {
            Some(_) => true,
            None => false,
        }
    }

    // Whether two terms have bits.
    fn have_bits(&self, lower: TermId, upper: TermId) -> bool
        ensures { result
            ≡ (is_some (bits_in self.now.bits lower) && is_some (bits_in self.now.bits upper)) }
    {
        self.has_bits(lower) && self.has_bits(upper)
    }

    // The clause of a lemma over what the log has.
    fn lemma_clause(
        &self,
        alloc: Global,
        terms: &Terms,
        lemma: &Lemma,
    ) -> Result<Result<Clause, LemmaFault>, AllocError>
        ensures { IfOk result
            (λ r. r ≡ clause_of terms.now.nodes (bits_in self.now.bits) (equal_in self.now.equals)
            lemma.now) }
    {
        match clause_of(alloc, terms, &self.bits, &self.equals, lemma) {
            Ok(clause) => Ok(Ok(clause)),
            Err(LemmaError::Fault(fault)) => Ok(Err(fault)),
            Err(LemmaError::NoMemory) => Err(AllocError),
        }
    }

    // The variable of an equality, with the position of its step.
    fn equal_row(&self, lower: TermId, upper: TermId) -> Option<EqualRow>
        ensures { result ≡ found self.now.equals lower upper }
    {
        self.equals.row(lower, upper)
    }

    // The bit of a term that has one.
    fn lone_bit(&self, term: TermId) -> Option<Lit>
        ensures { MatchOption result ((l : Literal) → bits_in self.now.bits term ≡ Some (l ∷ [])
            → ⊥) (λ l. bits_in self.now.bits term ≡ Some (l ∷ [])) }
    {
        match self.bits.of(term) {
            Some([bit]) => Some(*bit),
            _ => None,
        }
    }

    /// A clause that follows by a chain of hints.
    pub(crate) fn chain(
        &mut self,
        alloc: Global,
        terms: &Terms,
        clause: Clause,
        hints: Hints,
    ) -> Result<Option<Kept>, AllocError>
        requires stands { Stands terms.now.nodes self.old }
        ensures ok { IfOk result (Tried terms.now (step.Chain clause hints) self.old self.new) }
        ensures err { OnErr result (self.new ≡ self.old) }
    {
        let over = terms.len();
        match self.unfounded(&clause, &hints)? {
            Some(kept) => Ok(Some(kept)),
            None => {
                self.put_plain(alloc, over, Entry::Chain(clause, hints))?;
                Ok(None)
            }
        }
    }

    // What shows that hints are no chain for a clause of this log.
    fn unfounded(&mut self, clause: &Clause, hints: &Hints) -> Result<Option<Kept>, AllocError>
        requires { (id : ClauseId) (h : List Literal) → clause_at self.old.clauses id ≡ Some h
            → AreBelow self.old.next h }
        ensures ok { IfOk result (λ o. MatchOption o
            (AreBelow self.old.next clause.now
            × IsChain (clause_at self.old.clauses) clause.now hints.now)
            (ShowsChain self.old.next self.old.clauses clause.now hints.now)) }
        ensures same { self.new ≡ self.old }
    {
        if let Some(variable) = first_above(clause.literals(), self.next) {
            return Ok(Some(Kept::Variable(variable)));
        }
        self.marks.reserve(self.next)?;
        match follows(&self.steps, clause, hints, &mut self.marks) {
            Err(fault) => Ok(Some(Kept::Chain(fault))),
            Ok(()) => Ok(None),
        }
    }
}
