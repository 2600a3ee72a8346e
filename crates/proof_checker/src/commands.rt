// The commands of a script.

ghost use Rattle.std.specs.Prelude.{◌≡◌, ◌+◌, ◌<◌, ◌^◌, ℕ, List, true, not, IfOk, OnErr, MatchBool};
ghost use Rattle.smt_terms.specs.declared.sort.Signature.{Signature};
ghost use Rattle.smt_values.specs.declared.value.Value.{Value as Held};
ghost use Rattle.smt_build.specs.declared.symbols.LiveName.{LiveName as Name};
ghost use Rattle.script_state.specs.Readings.{ReadsAs};
ghost use Rattle.script_state.specs.Steps.{step, settled, ends};
ghost use Rattle.accepted_proof.specs.Searching as searching;
ghost use Rattle.accepted_proof.specs.Judged.{commanded, owed_by, is_idle};
ghost use Rattle.script_state.specs.States.{IsState, StateValue};
ghost use Rattle.proof_log.specs.declared.entry.Entry.{Entry as Step};
ghost use Rattle.proof_checker.specs.Checkers.{Says, judged_so, owed_of, IsOpen, IsNoted, AreKept};

use crate::checker::Checker;
use crate::due::Due;
use script_state::answer::Answer;
use script_state::state::State;
use smt_text::chunk::Chunk;
use std::alloc::{AllocError, Global};

/// What a command owes that is answered so.
fn due_by(answer: Answer) -> Due
    ensures owed { (live : List Name) (values : List (ℕ × Held))
        → owed_of result live values ≡ owed_by answer }
    ensures open { (live : List Name) (values : List (ℕ × Held)) → IsOpen result live values }
    ensures noted { (limits : searching.Limits) (s : StateValue) (log : List Step)
        (deleted : List ℕ) → IsNoted limits s log deleted result }
    ensures kept { (signatures : List Signature) (values : List (ℕ × Held))
        → AreKept result signatures values }
{
    match answer {
        Answer::Check => Due::Steps,
        _ => Due::Nothing,
    }
}

/// Whether a command that is answered so ends the run.
fn is_exit(answer: &Answer) -> bool
    ensures { MatchBool result (answer.now ≡ Answer.Exit) (answer.now ≡ Answer.Exit → ⊥) }
{
    match answer {
        Answer::Exit => true,
        _ => false,
    }
}

/// Does a command of the script. The terms whose values it asks for are forgotten, since no proof has them. For want of
/// memory the state is as before.
fn obey(alloc: Global, state: &mut State, chunk: &Chunk) -> Result<Answer, AllocError>
    requires assertions { state.old.scopes.made + 1 < 2 ^ 32 }
    ensures state { IsState state.old }
    ensures does { IfOk result (λ answer. (says : Says) × ReadsAs chunk.now says
        × (answer ≡ (step state.old says).0)
        × (state.new ≡ settled state.old (step state.old says).0 (step state.old says).1)) }
    ensures err { OnErr result (state.new ≡ state.old) }
{
    let held = state.terms().len();
    let answer = state.apply(alloc, chunk)?;
    if let Answer::Values(_) = &answer {
        state.forget(held);
        return Ok(answer);
    }
    Ok(answer)
}

impl Checker {
    /// Does a command of the script, and tells whether it ends the run: then no command follows. For want of numbers of
    /// assertions the answer is want of memory.
    pub fn apply(self, alloc: Global, chunk: &Chunk) -> Result<(Checker, bool), AllocError>
        requires { is_idle self.judging.owed ≡ true }
        ensures { IfOk result (λ r. (says : Says) × ReadsAs chunk.now says
            × (r.0 ≡ judged_so self (commanded self.judging says)) × (r.1 ≡ ends says)) }
    {
        let mut checker = self;
        if checker.state.assertions_made() == u32::MAX {
            return Err(checker.release());
        }
        let Ok(answer) = obey(alloc, &mut checker.state, chunk) else {
            return Err(checker.release());
        };
        let ended = is_exit(&answer);
        checker.due = due_by(answer);
        Ok((checker, ended))
    }

    /// Does a command of the script, and tells whether it is a check, whose steps and record are owed then. For want of
    /// numbers of assertions the answer is want of memory.
    pub fn command(self, alloc: Global, chunk: &Chunk) -> Result<(Checker, bool), AllocError>
        requires { is_idle self.judging.owed ≡ true }
        ensures command { IfOk result (λ r. (says : Says) × ReadsAs chunk.now says
            × (r.0 ≡ judged_so self (commanded self.judging says))) }
        ensures check { IfOk result (λ r. r.1 ≡ not (is_idle r.0.judging.owed)) }
    {
        let (checker, _) = self.apply(alloc, chunk)?;
        let check = checker.owes();
        Ok((checker, check))
    }
}
