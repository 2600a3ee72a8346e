//! Worked sessions: their steps, and whether a state does them. Each test is a table of steps that is walked over one state.

ghost use Rattle.std.specs.Prelude.{◌≤◌, ◌^◌};

use scope_selectors::scopes::Scopes;
use script_state::answer::{Answer, Asked, Verdict};
use script_state::error_text::ErrorText;
use script_state::options::Options;
use script_state::state::State;
use smt_build::symbols::Symbols;
use smt_terms::node::TermId;
use smt_terms::sort::DeclId;
use smt_terms::terms::Terms;
use smt_text::chunk::{Chunk, ChunkKind};
use smt_text::text::Text;
use std::alloc::{AllocError, Global};
use std::process::Abort;
use std::test::Fail;
use term_reach::Reached;

/// Terms that are asked for, each with its text.
pub(crate) type AskedRows = &'static [(TermId, &'static [u8])];

/// How a command is answered.
#[derive(Clone, Copy)]
pub(crate) enum Told {
    Done,
    Check,
    Model,
    Core,
    Assumptions,
    Exit,
    Says(&'static [u8]),
    Values(AskedRows),
    /// It is told this error, and the state is as before.
    Refused(ErrorText),
}

/// What is seen of a state.
#[derive(Clone, Copy)]
pub(crate) enum Seen {
    /// So many live declarations, live assertions and terms.
    Counts(usize, usize, u32),
    /// The numbers of the live declarations.
    Declared(&'static [DeclId]),
    /// The terms of the live assertions.
    Asserted(&'static [TermId]),
    /// The name of the first live assertion.
    FirstName(&'static [u8]),
    /// What the check assumes.
    Assumed(AskedRows),
    Standing(Option<Verdict>),
    Options(Options),
    /// So many levels above the first.
    Levels(u64),
    /// So many assertions were ever made.
    AssertionsMade(u32),
}

/// A step of a session.
#[derive(Clone, Copy)]
pub(crate) enum Step {
    /// A command is answered so.
    Command(&'static [u8], Told),
    /// Text that is no whole command is answered so.
    Text(ChunkKind, &'static [u8], Told),
    /// The check that was begun last has this verdict.
    Verdict(Verdict),
    /// This is seen of the state.
    See(Seen),
}

/// Whether these terms are asked for, with these texts.
fn are_asked(asked: &[Asked], terms: AskedRows) -> bool {
    if asked.len() != terms.len() {
        return false;
    }
    for i in 0..asked.len() {
        if asked[i].term != terms[i].0 || asked[i].text.as_slice() != terms[i].1 {
            return false;
        }
    }
    true
}

/// Whether the answer is this one.
fn is_told(answer: &Answer, told: Told) -> bool {
    match (answer, told) {
        (Answer::Done, Told::Done) => true,
        (Answer::Check, Told::Check) => true,
        (Answer::Model, Told::Model) => true,
        (Answer::Core, Told::Core) => true,
        (Answer::Assumptions, Told::Assumptions) => true,
        (Answer::Exit, Told::Exit) => true,
        (Answer::Says(text), Told::Says(line)) => text.as_slice() == line,
        (Answer::Values(asked), Told::Values(terms)) => are_asked(asked.as_slice(), terms),
        (Answer::Refused(error), Told::Refused(other)) => *error == other,
        _ => false,
    }
}

/// Whether the live declarations have these numbers.
fn are_declared(state: &State, numbers: &[DeclId]) -> bool {
    let declared = state.declared();
    if declared.len() != numbers.len() {
        return false;
    }
    for i in 0..declared.len() {
        if declared[i].declaration != numbers[i] {
            return false;
        }
    }
    true
}

/// Whether the live assertions are of these terms.
fn are_asserted(state: &State, terms: &[TermId]) -> bool {
    let live = state.live();
    if live.len() != terms.len() {
        return false;
    }
    for i in 0..live.len() {
        if live[i].term != terms[i] {
            return false;
        }
    }
    true
}

/// Whether the first live assertion has this name.
fn has_name(state: &State, name: &[u8]) -> bool {
    match state.live().first() {
        Some(live) => match &live.name {
            Some(text) => text.as_slice() == name,
            None => false,
        },
        None => false,
    }
}

/// How many declarations, assertions and terms there are.
fn counts(state: &State) -> (usize, usize, u32) {
    (
        state.declared().len(),
        state.live().len(),
        state.terms().len(),
    )
}

/// Whether this is seen of the state.
fn is_seen(state: &State, seen: Seen) -> bool {
    match seen {
        Seen::Counts(declared, live, terms) => counts(state) == (declared, live, terms),
        Seen::Declared(numbers) => are_declared(state, numbers),
        Seen::Asserted(terms) => are_asserted(state, terms),
        Seen::FirstName(name) => has_name(state, name),
        Seen::Assumed(terms) => are_asked(state.assumptions(), terms),
        Seen::Standing(verdict) => state.standing() == verdict,
        Seen::Options(options) => state.options() == options,
        Seen::Levels(levels) => state.scopes().levels() == levels,
        Seen::AssertionsMade(made) => state.assertions_made() == made,
    }
}

/// Whether what a chunk of this kind says is answered so.
fn is_answered(
    alloc: Global,
    state: &mut State,
    kind: ChunkKind,
    text: &[u8],
    told: Told,
) -> Result<bool, AllocError> {
    if state.assertions_made() > 1000 {
        return Ok(false);
    }
    let text = Text::from_slice(alloc, text)?;
    let chunk = Chunk {
        line: 1,
        kind,
        text,
    };
    match state.apply(alloc, &chunk) {
        Ok(answer) => Ok(is_told(&answer, told)),
        Err(error) => Err(error),
    }
}

/// Whether what a chunk of this kind says is answered so, and leaves the state as it was where it is refused.
fn is_obeyed(
    alloc: Global,
    state: &mut State,
    kind: ChunkKind,
    text: &[u8],
    told: Told,
) -> Result<bool, AllocError> {
    let before = (counts(state), state.standing(), state.options());
    let answered = is_answered(alloc, state, kind, text, told)?;
    Ok(match told {
        Told::Refused(_) => {
            answered && (counts(state), state.standing(), state.options()) == before
        }
        _ => answered,
    })
}

/// Whether the state does the step.
fn is_done(alloc: Global, state: &mut State, step: Step) -> Result<bool, AllocError> {
    match step {
        Step::Command(text, told) => is_obeyed(alloc, state, ChunkKind::Balanced, text, told),
        Step::Text(kind, text, told) => is_obeyed(alloc, state, kind, text, told),
        Step::Verdict(verdict) => {
            state.conclude(verdict);
            Ok(true)
        }
        Step::See(seen) => Ok(is_seen(state, seen)),
    }
}

/// The number of the first step that the state does not do, counted from 0.
fn first_not_done(
    alloc: Global,
    state: &mut State,
    steps: &[Step],
) -> Result<Option<usize>, AllocError> {
    for at in 0..steps.len() {
        if !is_done(alloc, state, steps[at])? {
            return Ok(Some(at));
        }
    }
    Ok(None)
}

/// A session that begins with this state does each of the steps.
fn walk_from(
    rt: &(impl Abort + AllocGlobal),
    mut state: State,
    steps: &[Step],
) -> Result<(), Fail> {
    let failed = first_not_done(rt.alloc(), &mut state, steps);
    drop(state);
    if let Some(at) = failed? {
        panic!(rt; "step {at}");
    }
    Ok(())
}

/// A session that begins with nothing does each of the steps.
pub(crate) fn walk(rt: &(impl Abort + AllocGlobal), steps: &[Step]) -> Result<(), Fail> {
    walk_from(rt, State::new(rt.alloc()), steps)
}

/// Nothing is declared and nothing asserted, and there is room for so many terms.
fn state_within(alloc: Global, limit: u32) -> State
    requires { limit ≤ 2 ^ 24 }
{
    let (_, rest) = State::new(alloc).into_parts();
    State::from_parts(Terms::with_limit(alloc, limit), rest)
}

/// A session that begins with room for so many terms does each of the steps.
pub(crate) fn walk_within(
    rt: &(impl Abort + AllocGlobal),
    limit: u32,
    steps: &[Step],
) -> Result<(), Fail>
    requires { limit ≤ 2 ^ 24 }
{
    walk_from(rt, state_within(rt.alloc(), limit), steps)
}
