// The steps that lines say.

ghost use Rattle.std.specs.Prelude.{◌≡◌, ◌≤◌, ◌<◌, ◌^◌, ℕ, All, List, map, slice_get, None, length, IfOk, MatchOption, Some};
ghost use Rattle.std.specs.List.{AllByRecursion};
ghost use Rattle.cnf_base.specs.Literals.{Literal};
ghost use Rattle.cnf_base.specs.Assignments.{AreBelow};
ghost use Rattle.cnf_base.specs.declared.clause.ClauseId.{ClauseId as Name};
ghost use Rattle.hint_chain.specs.Chains.{IsChain};
ghost use Rattle.smt_terms.specs.declared.node.Op.{Op as OpValue};
ghost use Rattle.smt_terms.specs.declared.node.Node.{Node as NodeValue};
ghost use Rattle.smt_terms.specs.Nodes.{node_of};
ghost use Rattle.smt_terms.specs.Terms.{TermsValue};
ghost use Rattle.smt_build.specs.Names.{IsDeclared};
ghost use Rattle.proof_log.specs.declared.entry.Entry.TheVariants as step;
ghost use Rattle.proof_log.specs.Faults.{IsNewNode};
ghost use Rattle.proof_checker.specs.Checkers.{IsChainOf};
ghost use Rattle.proof_log.specs.declared.entry.Entry.{Entry as Step};
ghost use Rattle.proof_log.specs.Logs.{clause_at};
ghost use Rattle.faded_log.specs.Faded.{IsHeld};
ghost use Rattle.proof_text.specs.declared.line.Line.TheVariants as line;
ghost use Rattle.proof_text.specs.Lines.{IsLiteral, IsLine};
ghost use Rattle.proof_text.specs.Entries.{head_of, written_literal, written_hint, entry_line};
ghost use Rattle.accepted_proof.specs.Turns.{IsOfScript};
ghost use Rattle.accepted_proof.specs.Judged.{IsStepOf};

use crate::named::{lemma_of, pair_of, term_of, use_of};
use cnf_base::{Clause, ClauseId, Lit, Pos};
use faded_log::FadedLog;
use proof_log::entry::{Entry, Hints};
use proof_text::line::{Head, Line};
use proof_text::list::{WrittenHint, WrittenLiteral};
use script_state::state::State;
use smt_terms::list::Arguments;
use smt_terms::node::{Node, Op, TermId};
use smt_terms::sort::{DeclId, Signature};
use std::alloc::{AllocError, Global};

/// The clause that is written, where each of its variables was made.
fn clause_of(
    alloc: Global,
    log: &FadedLog,
    literals: &[WrittenLiteral],
) -> Result<Option<Clause>, AllocError>
    requires { AllByRecursion IsLiteral literals.now }
    ensures { IfOk result (λ o. MatchOption o
        ((c : List Literal) → map written_literal c ≡ literals.now → AreBelow log.now.base.next c → ⊥)
        (λ c. map written_literal c ≡ literals.now)) }
{
    let next = log.base().next();
    let mut made = Vec::new(alloc);
    for literal in literals {
        if literal.variable >= next {
            return Ok(None);
        }
        if literal.variable >= 1 << 63 {
            return Err(AllocError);
        }
        made.push(Lit::new(literal.variable, literal.positive))?;
    }
    Ok(Some(Clause::from_vec(made)))
}

/// No hints, where a position has fewer than two to the 32 clauses.
fn no_part(log: &FadedLog, pos: Pos) -> Result<Option<Hints>, AllocError>
    ensures { IfOk result (λ o. (o ≡ None)
        × ((part : ℕ) → 2 ^ 32 ≤ part
        → clause_at log.now.clauses (record { pos = pos; part = part }) ≡ None)) }
{
    let last = ClauseId {
        pos,
        part: u32::MAX,
    };
    match log.clause(last) {
        Some(_) => Err(AllocError),
        None => Ok(None),
    }
}

/// The hints that are written, where each of them names a clause that there is or is small.
fn hints_of(
    alloc: Global,
    log: &FadedLog,
    hints: &[WrittenHint],
) -> Result<Option<Hints>, AllocError>
    ensures { IfOk result (λ o. MatchOption o
        ((c : List Literal) (names : List Name) → map written_hint names ≡ hints.now
        → IsChain (clause_at log.now.clauses) c names → ⊥)
        (λ h. map written_hint h ≡ hints.now)) }
{
    let mut made = Vec::new(alloc);
    for hint in hints {
        if hint.part >= 1 << 32 {
            return no_part(log, hint.pos);
        }
        made.push(ClauseId {
            pos: hint.pos,
            part: hint.part as u32,
        })?;
    }
    let named = Hints::of(alloc, made.as_slice())?;
    Ok(Some(named))
}

/// The declaration of this number and its signature, if it was made.
fn signature_of(state: &State, number: u64) -> Result<Option<(DeclId, Signature)>, AllocError>
    ensures { IfOk result (λ o. MatchOption o (slice_get state.now.symbols.signatures number ≡ None)
        (λ p. (p.0 ≡ number) × (slice_get state.now.symbols.signatures number ≡ Some p.1))) }
{
    if number > u32::MAX as u64 {
        return match state.signature(u32::MAX) {
            Some(_) => Err(AllocError),
            None => Ok(None),
        };
    }
    let declaration = number as u32;
    match state.signature(declaration) {
        Some(signature) => Ok(Some((declaration, signature.clone()?))),
        None => Ok(None),
    }
}

/// The application of the declaration of this number, if it was made.
fn application_of(state: &State, number: u64) -> Result<Option<Op>, AllocError>
    ensures { IfOk result (λ o. MatchOption o
        ((op : OpValue) → IsDeclared state.now.symbols.signatures op
        → head_of op ≡ Some (Head.Apply number) → ⊥)
        (λ op. (head_of op ≡ Some (Head.Apply number))
        × IsDeclared state.now.symbols.signatures op)) }
{
    match signature_of(state, number)? {
        Some((declaration, signature)) => Ok(Some(Op::Apply {
            declaration,
            signature,
        })),
        None => Ok(None),
    }
}

/// The operator that is written.
fn op_of(state: &State, head: Head) -> Result<Option<Op>, AllocError>
    ensures { IfOk result (λ o. MatchOption o
        ((op : OpValue) → IsDeclared state.now.symbols.signatures op → head_of op ≡ Some head → ⊥)
        (λ op. (head_of op ≡ Some head) × IsDeclared state.now.symbols.signatures op)) }
{
    let op = match head {
        Head::Plain(operator) => Op::Plain(operator),
        Head::Word { width, value } => Op::Word { width, value },
        Head::Extract { high, low } => Op::Extract { high, low },
        Head::ZeroExtend(by) => Op::ZeroExtend(by),
        Head::SignExtend(by) => Op::SignExtend(by),
        Head::RotateLeft(by) => Op::RotateLeft(by),
        Head::RotateRight(by) => Op::RotateRight(by),
        Head::Repeat(copies) => Op::Repeat(copies),
        Head::ConstantArray(width) => Op::ConstantArray(width),
        Head::Apply(declaration) => return application_of(state, declaration),
    };
    Ok(Some(op))
}

/// The arguments that are written, where each is a held term.
fn args_of(alloc: Global, held: u32, numbers: &[u64]) -> Result<Option<Arguments>, AllocError>
    ensures { IfOk result
        (λ o. MatchOption o (AllByRecursion (λ a. a < held) numbers.now → ⊥)
        (λ a. a ≡ numbers.now)) }
{
    let mut made = Vec::new(alloc);
    for number in numbers {
        if *number >= held as u64 {
            return Ok(None);
        }
        made.push(*number as u32)?;
    }
    Ok(Some(Arguments::from_vec(made)))
}

/// The node that is written, where its arguments are held.
fn node_of(
    alloc: Global,
    state: &State,
    head: Head,
    numbers: &[u64],
) -> Result<Option<Node>, AllocError>
    ensures { IfOk result (λ o. MatchOption o
        ((n : NodeValue) → entry_line (step.Node n) ≡ Some (line.Term head numbers.now)
        → IsDeclared state.now.symbols.signatures n.op → IsNewNode state.now.terms n → ⊥)
        (λ n. (entry_line (step.Node n) ≡ Some (line.Term head numbers.now))
        × IsDeclared state.now.symbols.signatures n.op)) }
{
    let held = state.terms().len();
    let Some(op) = op_of(state, head)? else {
        return Ok(None)
    };
    match args_of(alloc, held, numbers)? {
        Some(args) => Ok(Some(Node { op, args })),
        None => Ok(None),
    }
}

/// The assertion's number and its term, if it was made.
fn asserted(state: &State, number: u64) -> Option<(u32, TermId)>
    ensures { MatchOption result (slice_get state.now.scopes.terms number ≡ None)
        (λ p. (p.0 ≡ number) × (slice_get state.now.scopes.terms number ≡ Some p.1)) }
{
    let _live = state.live();
    if number >= state.scopes().made() as u64 {
        return None;
    }
    let assertion = number as u32;
    match state.scopes().term(assertion) {
        Some(term) => Some((assertion, term)),
        None => None,
    }
}

/// The chain that is written, where its variables and its hints may be.
fn chain_of(
    alloc: Global,
    log: &FadedLog,
    literals: &[WrittenLiteral],
    hints: &[WrittenHint],
) -> Result<Option<Entry>, AllocError>
    requires { AllByRecursion IsLiteral literals.now }
    ensures { IfOk result (λ o. MatchOption o
        ((c : List Literal) (names : List Name)
        → entry_line (step.Chain c names) ≡ Some (line.Chain literals.now hints.now)
        → AreBelow log.now.base.next c → IsChain (clause_at log.now.clauses) c names → ⊥)
        (λ e. IsChainOf literals.now hints.now e)) }
{
    let Some(clause) = clause_of(alloc, log, literals)? else {
        return Ok(None)
    };
    match hints_of(alloc, log, hints)? {
        Some(hints) => Ok(Some(Entry::Chain(clause, hints))),
        None => Ok(None),
    }
}

/// The step that a line says; nothing where no valid step is written so.
pub fn entry_of(
    alloc: Global,
    state: &State,
    log: &FadedLog,
    line: &Line,
) -> Result<Option<Entry>, AllocError>
    requires held { IsHeld state.now.terms.nodes log.now }
    requires written { IsLine line.now }
    ensures { IfOk result (λ o. MatchOption o
        ((deleted : List ℕ) (e : Step)
        → IsStepOf state.now log.now.entries deleted line.now e → ⊥)
        (λ e. (entry_line e ≡ Some line.now) × IsOfScript state.now e)) }
{
    let held = state.terms().len();
    match line {
        Line::Term { head, args } => match node_of(alloc, state, *head, args.as_slice())? {
            Some(node) => Ok(Some(Entry::Node(node))),
            None => Ok(None),
        },
        Line::Leaf(number) => match term_of(held, *number) {
            Some(term) => Ok(Some(Entry::Leaf(term))),
            None => Ok(None),
        },
        Line::Encode(number) => match term_of(held, *number) {
            Some(term) => Ok(Some(Entry::Encode(term))),
            None => Ok(None),
        },
        Line::Rewrite { rule, from, to } => match use_of(held, *rule, *from, *to) {
            Some(used) => Ok(Some(Entry::Rewrite(used))),
            None => Ok(None),
        },
        Line::Selector(number) => match asserted(state, *number) {
            Some((assertion, term)) => Ok(Some(Entry::Selector(assertion, term))),
            None => Ok(None),
        },
        Line::Chain { clause, hints } => chain_of(alloc, log, clause.as_slice(), hints.as_slice()),
        Line::Equal(lower, upper) => match pair_of(held, *lower, *upper) {
            Some((lower, upper)) => Ok(Some(Entry::Equal(lower, upper))),
            None => Ok(None),
        },
        Line::Congruence(_, _) | Line::Witness(_) | Line::Accesses(_, _) => {
            match lemma_of(alloc, held, line)? {
                Some(lemma) => Ok(Some(Entry::Lemma(lemma))),
                None => Ok(None),
            }
        }
        _ => Ok(None),
    }
}
