// Unsatisfiable cores and unsatisfiable assumptions (SMT-LIB 2.6, section 4.2.7).

ghost use Rattle.std.specs.Prelude.{◌≡◌, ◌++◌, List, IfOk, OnOk, Some, map, option_copied, option_to_list};
ghost use Rattle.cnf_base.specs.Literals.{Literal};
ghost use Rattle.smt_text.specs.Printing.{symbol_text};
ghost use Rattle.smt_terms.specs.declared.node.Node.{Node};
ghost use Rattle.script_state.specs.declared.answer.Asked.{Asked as AskedValue};
ghost use Rattle.proof_log.specs.Logs.{state_of};
ghost use Rattle.proof_log.specs.Stored.{Stands};
ghost use Rattle.accepted_proof.specs.Answers.{core_text, assumptions_text};
ghost use Rattle.accepted_proof.specs.Cores.{bit_stands, blamed_assumptions, core_names, is_blamed, is_blamed_assumption, refuting_clause};
ghost use Rattle.smt_session.specs.Blaming.{AreCodes};

use crate::last::Last;
use crate::lists::list_text;
use cnf_base::{Clause, ClauseId, Lit};
use proof_log::Log;
use proof_text::record::Record;
use scope_selectors::live::Live;
use script_state::answer::Asked;
use script_state::state::State;
use smt_text::print::print_symbol;
use smt_text::text::Text;
use std::alloc::{AllocError, Global};
use std::collections::BTreeSet;

/// The codes of literals.
fn codes_of(alloc: Global, literals: &[Lit]) -> Result<BTreeSet<u64>, AllocError>
    ensures { IfOk result (λ codes. AreCodes codes literals.now) }
{
    let mut codes = BTreeSet::new(alloc);
    for literal in literals {
        codes.insert(literal.code())?;
    }
    Ok(codes)
}

/// Whether the clause of these codes has the negated selector of an assertion.
fn is_blamed(log: &Log, codes: &BTreeSet<u64>, assertion: &Live) -> bool
    ensures { (nodes : List Node) (clause : List Literal) → Stands nodes log.now
        → AreCodes codes.now clause
        → result ≡ is_blamed (state_of nodes log.now.entries) clause assertion.now }
{
    match log.selector(assertion.assertion) {
        Some(selector) => codes.contains(&selector.negated().code()),
        None => false,
    }
}

/// Whether there is one bit, and the clause of these codes has its negation.
fn has_negation(codes: &BTreeSet<u64>, bits: &[Lit]) -> bool
    ensures { (clause : List Literal) → AreCodes codes.now clause
        → result ≡ bit_stands clause (Some bits.now) }
{
    if bits.len() == 1 {
        return codes.contains(&bits[0].negated().code());
    }
    false
}

/// Whether the clause of these codes has the negated bit of an assumption.
fn is_blamed_assumption(log: &Log, codes: &BTreeSet<u64>, assumption: &Asked) -> bool
    ensures { (nodes : List Node) (clause : List Literal) → Stands nodes log.now
        → AreCodes codes.now clause
        → result ≡ is_blamed_assumption (state_of nodes log.now.entries) clause assumption.now }
{
    match log.bits().of(assumption.term) {
        Some(bits) => has_negation(codes, bits),
        None => false,
    }
}

/// The clause of the refutation that a record has, where it has one.
fn refuting_clause<'a>(log: &'a Log, shown: &Option<Record>) -> Option<&'a Clause>
    ensures { (nodes : List Node) → Stands nodes log.now
        → option_copied result ≡ refuting_clause (state_of nodes log.now.entries) shown.now }
{
    match shown {
        Some(record) => match record {
            Record::Unsat(pos) => log.clause(ClauseId { pos: *pos, part: 0 }),
            Record::Sat(_) => None,
            Record::Unknown(_) => None,
        },
        None => None,
    }
}

/// Puts a name at the end, as it can be read back, if there is one.
fn push_name(alloc: Global, name: &Option<Text>, items: &mut Vec<Text>) -> Result<(), AllocError>
    ensures { OnOk result
        (items.new.items ≡ items.old.items ++ map symbol_text (option_to_list name.now)) }
{
    if let Some(name) = name {
        let mut item = Text::new(alloc);
        print_symbol(name.as_slice(), &mut item)?;
        items.push(item)?;
    }
    Ok(())
}

/// The names of the live assertions that a clause blames.
fn core_items(
    alloc: Global,
    state: &State,
    log: &Log,
    clause: &Clause,
) -> Result<Vec<Text>, AllocError>
    requires { Stands state.now.terms.nodes log.now }
    ensures { IfOk result
        (λ items. items.items
        ≡ map symbol_text
        (core_names state.now (state_of state.now.terms.nodes log.now.entries) clause.now)) }
{
    let codes = codes_of(alloc, clause.literals())?;
    let mut items = Vec::new(alloc);
    'live: for assertion in state.live() {
        if is_blamed(log, &codes, assertion) {
            push_name(alloc, &assertion.name, &mut items)?;
        }
    }
    Ok(items)
}

/// The assumptions that a clause blames, as they were written.
fn assumption_items(
    alloc: Global,
    state: &State,
    log: &Log,
    clause: &Clause,
) -> Result<Vec<Text>, AllocError>
    requires { Stands state.now.terms.nodes log.now }
    ensures { IfOk result
        (λ items. items.items
        ≡ map (λ (a : AskedValue). a.text)
        (blamed_assumptions state.now (state_of state.now.terms.nodes log.now.entries)
        clause.now)) }
{
    let codes = codes_of(alloc, clause.literals())?;
    let mut items = Vec::new(alloc);
    'assumed: for assumption in state.assumptions() {
        if is_blamed_assumption(log, &codes, assumption) {
            let item = Text::from_slice(alloc, assumption.text.as_slice())?;
            items.push(item)?;
        }
    }
    Ok(items)
}

/// The core that the refutation of the last check tells, where it has one.
pub(crate) fn core_text(
    alloc: Global,
    state: &State,
    log: &Log,
    last: &Last,
) -> Result<Text, AllocError>
    requires { Stands state.now.terms.nodes log.now }
    ensures { IfOk result
        (λ t. t ≡ core_text state.now (state_of state.now.terms.nodes log.now.entries)
        (refuting_clause (state_of state.now.terms.nodes log.now.entries) last.now)) }
{
    match refuting_clause(log, last.shown()) {
        Some(clause) => {
            let items = core_items(alloc, state, log, clause)?;
            list_text(alloc, items.as_slice())
        }
        None => Ok(Text::new(alloc)),
    }
}

/// The assumptions that the refutation of the last check blames, where it has one.
pub(crate) fn assumptions_text(
    alloc: Global,
    state: &State,
    log: &Log,
    last: &Last,
) -> Result<Text, AllocError>
    requires { Stands state.now.terms.nodes log.now }
    ensures { IfOk result
        (λ t. t ≡ assumptions_text state.now (state_of state.now.terms.nodes log.now.entries)
        (refuting_clause (state_of state.now.terms.nodes log.now.entries) last.now)) }
{
    match refuting_clause(log, last.shown()) {
        Some(clause) => {
            let items = assumption_items(alloc, state, log, clause)?;
            list_text(alloc, items.as_slice())
        }
        None => Ok(Text::new(alloc)),
    }
}
