//! Steps that are put into a log, kind by kind, with what they leave.

ghost use Rattle.std.specs.Prelude.{◌≡◌, ◌<◌, ◌≤◌, ◌+◌, ◌^◌, ◌&&◌, ltb, if◌then◌else◌, List, [], ◌∷◌, None, Some, OnOk, OnErr, IfOk, IsSome, length};
ghost use Rattle.cnf_base.specs.Literals.{Literal, true_literal};
ghost use Rattle.cnf_base.specs.Choices.{equal_gates, equal_bit};
ghost use Rattle.cnf_base.specs.Circuits.{Gains};
ghost use Rattle.cnf_base.specs.Assignments.{fresh_bits};
ghost use Rattle.smt_terms.specs.Bits.{bits_in};
ghost use Rattle.smt_terms.specs.Nodes.{node_at};
ghost use Rattle.bit_blast.specs.Blocks.{block_of, EachShort};
ghost use Rattle.smt_terms.specs.Ranks.{is_array};
ghost use Rattle.smt_terms.specs.Terms.{sort_of};
ghost use Rattle.proof_log.specs.Logs.{leaf_width, plain_width};
ghost use Rattle.proof_log.specs.Pairs.{found};
ghost use Rattle.proof_log.specs.Places.{IsPlain};
ghost use Rattle.proof_log.specs.Stored.{with_leaf, with_lemma, with_plain, with_rewrite, HaveEqualBits, IsPaired, IsSelected, Encodes};

use crate::entry::{AssertId, Entry, RuleUse};
use crate::log::Log;
use bit_blast::encode;
use cnf_base::{Circuit, Clause, Lit};
use smt_terms::bits::Bits;
use smt_terms::node::TermId;
use smt_terms::sort::Sort;
use smt_terms::terms::Terms;
use std::alloc::{AllocError, Global};
use theory_terms::lemma::Lemma;
use theory_terms::shape::{Shape, shape_at};

/// The greatest next variable from which a step may make variables: no step makes more than 2^17, and variables are
/// below 2^63.
const LAST: u64 = (1 << 63) - (1 << 17);

// The positive literals of so many variables from this one on.
fn fresh_row(alloc: Global, first: u64, count: u64) -> Result<Vec<Lit>, AllocError>
    requires first { 0 < first }
    requires room { first + count < 2 ^ 63 }
    ensures { IfOk result (λ row. row.items ≡ fresh_bits first count) }
{
    let mut row = Vec::new(alloc);
    for k in 0..count {
        row.push(Lit::new(first + k, true))?;
    }
    Ok(row)
}

// How many bits an equality of arrays has.
fn equality_width(terms: &Terms, term: TermId, left: TermId) -> Option<u64>
    requires { term < length terms.now.nodes }
    ensures { result
        ≡ (if ltb left term && is_array (sort_of terms.now.nodes left) then Some 1 else None) }
{
    if left < term && is_array(terms.sort(left)) {
        Some(1)
    } else {
        None
    }
}

/// How many bits a leaf gives a term, if it may be one.
pub(crate) fn width_of(terms: &Terms, term: TermId) -> Option<u64>
    requires { term < length terms.now.nodes }
    ensures { result ≡ leaf_width terms.now.nodes term }
{
    match shape_at(terms, term) {
        Shape::Declaring { sort, .. } => plain_width(sort),
        Shape::Selecting { .. } | Shape::Witnessing { .. } | Shape::Applying { .. } => {
            plain_width(terms.sort(term))
        }
        Shape::Equating { left, .. } => equality_width(terms, term, left),
        _ => None,
    }
}

fn is_array(sort: Sort) -> bool
    ensures { result ≡ is_array sort }
{
    matches!(sort, Sort::Array(_, _))
}

// How many bits a Bool or a word has.
fn plain_width(sort: Sort) -> Option<u64>
    ensures { result ≡ plain_width sort }
{
    match sort {
        Sort::Bool => Some(1),
        Sort::Word(width) => Some(width as u64),
        Sort::Array(_, _) => None,
    }
}

// The literal that is true where the bits of two terms are equal.
fn equality(
    bits: &Bits,
    lower: TermId,
    upper: TermId,
    circuit: &mut Circuit,
) -> Result<Lit, AllocError>
    requires short { EachShort bits.now }
    requires bits { HaveEqualBits bits.now lower upper }
    requires room { circuit.old.next + 2 ^ 17 ≤ 2 ^ 63 }
    ensures ok { IfOk result (λ l. (a b : List Literal) → bits_in bits.now lower ≡ Some a
        → bits_in bits.now upper ≡ Some b →
        (l ≡ equal_bit circuit.old.next true_literal a b)
        × Gains circuit.old circuit.new (equal_gates circuit.old.next true_literal a b)) }
{
    match (bits.of(lower), bits.of(upper)) {
        (Some(a), Some(b)) => circuit.equal(a, b),
        _ => unreachable!(),
    }
}

// One clause alone.
fn one_clause(alloc: Global, clause: Clause) -> Result<Vec<Clause>, AllocError>
    ensures { IfOk result (λ made. made.items ≡ clause ∷ []) }
{
    let mut made = Vec::new(alloc);
    made.push(clause)?;
    Ok(made)
}

impl Log {
    /// New variables for the bits of a term.
    pub(crate) fn put_leaf(
        &mut self,
        alloc: Global,
        terms: &Terms,
        term: TermId,
        width: u64,
    ) -> Result<(), AllocError>
        requires next { 1 < self.old.next }
        requires width { width ≤ 128 }
        requires new { bits_in self.old.bits term ≡ None }
        ensures ok { OnOk result
            (self.new ≡ with_leaf self.old (length terms.now.nodes) term width) }
        ensures err { OnErr result (self.new ≡ self.old) }
    {
        if self.next > LAST {
            return Err(AllocError);
        }
        let row = fresh_row(alloc, self.next, width)?;
        let entry = Entry::Leaf(term);
        self.steps.push_bits(&mut self.bits, term, row.as_slice(), entry, Vec::new(alloc))?;
        self.next += width;
        self.over = terms.len();
        Ok(())
    }

    /// The circuit of a term, if each argument has bits and the operator has a circuit over them: whether it is so.
    pub(crate) fn put_encode(
        &mut self,
        alloc: Global,
        terms: &Terms,
        term: TermId,
    ) -> Result<bool, AllocError>
        requires next { 1 < self.old.next }
        requires held { term < length terms.now.nodes }
        requires short { EachShort self.old.bits }
        requires new { bits_in self.old.bits term ≡ None }
        ensures ok { IfOk result
            (λ done. Encodes
            (block_of self.old.next (bits_in self.old.bits) (node_at terms.now.nodes term))
            done (length terms.now.nodes) term self.old self.new) }
        ensures err { OnErr result (self.new ≡ self.old) }
    {
        if self.next > LAST {
            return Err(AllocError);
        }
        let mut circuit = Circuit::new(alloc, self.next);
        let Some(row) = encode(terms, &self.bits, term, &mut circuit)? else {
            return Ok(false)
        };
        let next = circuit.next();
        let entry = Entry::Encode(term);
        let made = circuit.into_clauses();
        self.steps
            .push_bits(&mut self.bits, term, row.as_slice(), entry, made)?;
        self.next = next;
        self.over = terms.len();
        Ok(true)
    }

    /// A variable for an assertion, which implies the bit of its term.
    pub(crate) fn put_selector(
        &mut self,
        alloc: Global,
        terms: &Terms,
        assertion: AssertId,
        term: TermId,
        bit: Lit,
    ) -> Result<(), AllocError>
        requires next { 1 < self.old.next }
        ensures ok { OnOk result
            (IsSelected self.old self.new (length terms.now.nodes) assertion term bit) }
        ensures err { OnErr result (self.new ≡ self.old) }
    {
        if self.next > LAST {
            return Err(AllocError);
        }
        let selector = Lit::new(self.next, true);
        let mut made = Vec::new(alloc);
        made.push(Clause::of_two(alloc, selector.negated(), bit)?)?;
        let entry = Entry::Selector(assertion, term);
        self.steps
            .push_selector(&mut self.selectors, assertion, selector, entry, made)?;
        self.next += 1;
        self.over = terms.len();
        Ok(())
    }

    /// The variable of the equality of two terms, which have equally many bits.
    pub(crate) fn put_equal(
        &mut self,
        alloc: Global,
        over: u32,
        lower: TermId,
        upper: TermId,
    ) -> Result<(), AllocError>
        requires next { 1 < self.old.next }
        requires short { EachShort self.old.bits }
        requires bits { HaveEqualBits self.old.bits lower upper }
        requires new { found self.old.equals lower upper ≡ None }
        ensures ok { OnOk result (IsPaired self.old self.new over lower upper) }
        ensures err { OnErr result (self.new ≡ self.old) }
    {
        if self.next > LAST {
            return Err(AllocError);
        }
        let mut circuit = Circuit::new(alloc, self.next);
        let literal = equality(&self.bits, lower, upper, &mut circuit)?;
        let next = circuit.next();
        let made = circuit.into_clauses();
        self.steps
            .push_pair(&mut self.equals, lower, upper, literal, made)?;
        self.next = next;
        self.over = over;
        Ok(())
    }

    /// The clause of a lemma.
    pub(crate) fn put_lemma(
        &mut self,
        alloc: Global,
        over: u32,
        lemma: Lemma,
        clause: Clause,
    ) -> Result<(), AllocError>
        ensures ok { OnOk result (self.new ≡ with_lemma self.old over lemma clause) }
        ensures err { OnErr result (self.new ≡ self.old) }
    {
        let made = one_clause(alloc, clause)?;
        self.steps.push(Entry::Lemma(lemma), made)?;
        self.over = over;
        Ok(())
    }

    /// The bits of a term for one that a rule takes to it.
    pub(crate) fn put_rewrite(
        &mut self,
        alloc: Global,
        over: u32,
        used: RuleUse,
    ) -> Result<(), AllocError>
        requires new { bits_in self.old.bits used.from ≡ None }
        requires held { IsSome (bits_in self.old.bits used.to) }
        ensures ok { OnOk result (self.new ≡ with_rewrite self.old over used) }
        ensures err { OnErr result (self.new ≡ self.old) }
    {
        self.steps.push_link(alloc, &mut self.bits, used)?;
        self.over = over;
        Ok(())
    }

    /// A step that makes no variable and no clause but a chain's own, over so many terms.
    pub(crate) fn put_plain(
        &mut self,
        alloc: Global,
        over: u32,
        entry: Entry,
    ) -> Result<(), AllocError>
        requires { IsPlain entry }
        ensures ok { OnOk result (self.new ≡ with_plain self.old over entry) }
        ensures err { OnErr result (self.new ≡ self.old) }
    {
        self.steps.push(entry, Vec::new(alloc))?;
        self.over = over;
        Ok(())
    }
}
