// The values of a model.

ghost use Rattle.std.specs.Prelude.{◌≡◌, ◌+◌, ◌<◌, ◌^◌, [], drop, length, Some, IfOk, MatchBool};
ghost use Rattle.proof_text.specs.declared.line.Line.TheVariants as line;
ghost use Rattle.accepted_proof.specs.Models.{interpretation_of, IsModel};
ghost use Rattle.accepted_proof.specs.Judged.{Goes, AtStep, MovesBy};
ghost use Rattle.proof_checker.specs.Checkers.{GoesTo, IsOwedValues, AreOfSignatures};

use crate::checker::Checker;
use crate::due::Due;
use crate::kept::KeptInterp;
use crate::models::{declared_value, is_model};
use accepted_proof::refusal::RuleName;
use proof_text::line::{Line, WrittenValue};
use script_state::answer::Verdict;
use smt_terms::sort::DeclId;
use smt_values::Value;
use std::alloc::{AllocError, Global};
use std::mem;

impl Checker {
    // Further values of a model are owed.
    fn owe_values(self, values: Vec<(DeclId, Value)>) -> Checker
        requires more { self.judging.line + 1 < 2 ^ 64 }
        requires left { length values.items < length self.judging.state.symbols.live }
        requires kept { AreOfSignatures self.judging.state.symbols.signatures values.items }
        ensures { GoesTo
            (Goes self.judging (drop (length values.items) self.judging.state.symbols.live)
            values.items) self result }
    {
        let mut checker = self;
        checker.values = values;
        checker.due = Due::Values;
        checker.line += 1;
        checker
    }

    // Whether these values are a model; the tables serve the next record too.
    fn holds(&mut self, alloc: Global, values: &[(DeclId, Value)]) -> Result<bool, AllocError>
        requires { AreOfSignatures self.old.judging.state.symbols.signatures values.now }
        ensures same { self.new ≡ self.old }
        ensures holds { IfOk result (λ b. MatchBool b
            (IsModel self.old.judging.state (interpretation_of values.now))
            (IsModel self.old.judging.state (interpretation_of values.now) → ⊥)) }
    {
        let kept = mem::replace(&mut self.kept, KeptInterp::new(alloc));
        let (holds, kept) = is_model(alloc, &self.state, values, &mut self.reached, kept)?;
        self.kept = kept;
        Ok(holds)
    }

    // The values of a model are all there, and are judged.
    fn judge_model(self, alloc: Global, values: &[(DeclId, Value)]) -> Result<Checker, AllocError>
        requires more { self.judging.line + 1 < 2 ^ 64 }
        requires kept { AreOfSignatures self.judging.state.symbols.signatures values.now }
        ensures { IfOk result (λ c. GoesTo (Goes self.judging [] values.now) self c) }
    {
        let mut checker = self;
        let Ok(holds) = checker.holds(alloc, values) else {
            return Err(checker.release());
        };
        if holds {
            checker.close(Verdict::Sat)
        } else {
            Ok(checker.refuse(RuleName::Sat))
        }
    }

    // The next value of a model is owed, or all are there, and are judged.
    fn go_to_values(
        self,
        alloc: Global,
        values: Vec<(DeclId, Value)>,
    ) -> Result<Checker, AllocError>
        requires more { self.judging.line + 1 < 2 ^ 64 }
        requires kept { AreOfSignatures self.judging.state.symbols.signatures values.items }
        ensures { IfOk result
            (λ c. GoesTo (Goes self.judging
            (drop (length values.items) self.judging.state.symbols.live) values.items) self c) }
    {
        if values.len() < self.state.declared().len() {
            Ok(self.owe_values(values))
        } else {
            self.judge_model(alloc, values.as_slice())
        }
    }

    // The line that begins a model.
    pub(crate) fn begin_values(self, alloc: Global, count: u64) -> Result<Checker, AllocError>
        requires more { self.judging.line + 1 < 2 ^ 64 }
        ensures { IfOk result (λ c. GoesTo (AtStep self.judging (line.Sat count)) self c) }
    {
        if self.state.declared().len() as u64 != count {
            return Ok(self.refuse(RuleName::Sat));
        }
        self.go_to_values(alloc, Vec::new(alloc))
    }

    // The value of a declaration, where the values of a model are owed.
    fn value(
        self,
        alloc: Global,
        declaration: u64,
        written: &WrittenValue,
    ) -> Result<Checker, AllocError>
        requires values { IsOwedValues self.judging.owed }
        requires more { self.judging.line + 1 < 2 ^ 64 }
        ensures { IfOk result
            (λ c. GoesTo (MovesBy self.judging.owed self.judging
            (Some (line.Value declaration written.now))) self c) }
    {
        let next = self.state.declared()[self.values.len()].declaration;
        let Ok(found) = declared_value(alloc, &self.state, next, declaration, written) else {
            return Err(self.release());
        };
        let Some(value) = found else {
            return Ok(self.refuse(RuleName::Sat))
        };
        let mut checker = self;
        let mut values = checker.values;
        checker.values = Vec::new(alloc);
        checker.due = Due::Steps;
        let Ok(()) = values.push((next, value)) else {
            return Err(checker.release());
        };
        checker.go_to_values(alloc, values)
    }

    // A line where the values of a model are owed.
    pub(crate) fn at_value(self, alloc: Global, line: &Line) -> Result<Checker, AllocError>
        requires values { IsOwedValues self.judging.owed }
        requires more { self.judging.line + 1 < 2 ^ 64 }
        ensures { IfOk result
            (λ c. GoesTo (MovesBy self.judging.owed self.judging (Some line.now)) self c) }
    {
        match line {
            Line::Value { declaration, value } => self.value(alloc, *declaration, value),
            _ => Ok(self.refuse(RuleName::Line)),
        }
    }
}
