// The lines of steps, and those that begin or are a record.

ghost use Rattle.std.specs.Prelude.{◌≡◌, ◌+◌, ◌<◌, ◌^◌, ℕ, List, IfOk};
ghost use Rattle.proof_text.specs.Lines.{IsLine};
ghost use Rattle.proof_text.specs.declared.line.Line.TheVariants as row;
ghost use Rattle.accepted_proof.specs.Judged as judged;
ghost use Rattle.accepted_proof.specs.Judged.{StepsBy, Deletes, AtStep};
ghost use Rattle.proof_checker.specs.Checkers.{GoesTo};
ghost use Rattle.proof_checker.specs.Deletions.{GoesToLike};

use crate::checker::Checker;
use crate::deletions::{Deleted, delete};
use crate::due::Due;
use crate::refutations::is_refutation;
use crate::steps::take_step;
use accepted_proof::refusal::RuleName;
use cnf_base::Pos;
use diary_checker::DiaryStart;
use proof_text::line::{Format, Line};
use script_state::answer::Verdict;
use std::alloc::{AllocError, Global};

/// The rule of a step's line.
fn rule_of(line: &Line) -> RuleName
    ensures { result ≡ judged.rule_of line.now }
{
    match line {
        Line::Term { head: _, args: _ } => RuleName::Node,
        Line::Leaf(_) => RuleName::Leaf,
        Line::Encode(_) => RuleName::Encode,
        Line::Rewrite {
            rule: _,
            from: _,
            to: _,
        } => RuleName::Rewrite,
        Line::Selector(_) => RuleName::Selector,
        Line::Chain {
            clause: _,
            hints: _,
        } => RuleName::Chain,
        Line::Equal(_, _) => RuleName::Equal,
        Line::Congruence(_, _) | Line::Witness(_) | Line::Accesses(_, _) => RuleName::Lemma,
        _ => RuleName::Line,
    }
}

impl Checker {
    // A step's line.
    fn step(self, alloc: Global, line: &Line) -> Result<Checker, AllocError>
        requires steps { self.judging.owed ≡ judged.Steps }
        requires written { IsLine line.now }
        requires more { self.judging.line + 1 < 2 ^ 64 }
        ensures { IfOk result (λ c. GoesTo (StepsBy self.judging line.now) self c) }
    {
        let mut checker = self;
        let Ok(taken) = take_step(
            alloc,
            &mut checker.state,
            &mut checker.log,
            &checker.deleted,
            line,
        ) else {
            return Err(checker.release());
        };
        checker.due = Due::Steps;
        if taken {
            Ok(checker.go_on())
        } else {
            Ok(checker.refuse(rule_of(line)))
        }
    }

    // The deletion of places, which the first format cannot say; the chains among them are forgotten.
    pub(crate) fn delete(self, alloc: Global, places: &[u64]) -> Result<Checker, AllocError>
        requires steps { self.judging.owed ≡ judged.Steps }
        requires more { self.judging.line + 1 < 2 ^ 64 }
        ensures { IfOk result
            (λ c. GoesToLike (Deletes self.judging.format self.judging places.now) self c) }
    {
        if self.format == Format::One {
            return Ok(self.refuse(RuleName::Line));
        }
        let mut checker = self;
        checker.due = Due::Steps;
        let Ok(done) = delete(alloc, &checker.log, &mut checker.deleted, places) else {
            // Which places are deleted now is not told, so what was held over them is let go.
            checker.deleted = Deleted::none(alloc);
            checker.start = DiaryStart::new(alloc);
            return Err(checker.release());
        };
        if !done {
            return Ok(checker.refuse(RuleName::Delete));
        }
        checker.log.forget(places);
        Ok(checker.go_on())
    }

    // The line of a refutation.
    fn refute(self, alloc: Global, pos: Pos) -> Result<Checker, AllocError>
        requires more { self.judging.line + 1 < 2 ^ 64 }
        ensures { IfOk result (λ c. GoesTo (AtStep self.judging (row.Unsat pos)) self c) }
    {
        if self.deleted.has(pos) {
            return Ok(self.refuse(RuleName::Unsat));
        }
        let Ok(refutes) = is_refutation(alloc, &self.state, &self.log, pos) else {
            return Err(self.release());
        };
        if refutes {
            self.close(Verdict::Unsat)
        } else {
            Ok(self.refuse(RuleName::Unsat))
        }
    }

    // A line where steps and a record are owed, but the deletion of places.
    pub(crate) fn at_step(self, alloc: Global, line: &Line) -> Result<Checker, AllocError>
        requires steps { self.judging.owed ≡ judged.Steps }
        requires other { (places : List ℕ) → line.now ≡ row.Delete places → ⊥ }
        requires written { IsLine line.now }
        requires more { self.judging.line + 1 < 2 ^ 64 }
        ensures { IfOk result (λ c. GoesTo (AtStep self.judging line.now) self c) }
    {
        match line {
            Line::Header {
                format: _,
                cubes: _,
                budget: _,
            } => Ok(self.refuse(RuleName::Line)),
            Line::Term { head: _, args: _ } => self.step(alloc, line),
            Line::Leaf(_) => self.step(alloc, line),
            Line::Encode(_) => self.step(alloc, line),
            Line::Rewrite {
                rule: _,
                from: _,
                to: _,
            } => self.step(alloc, line),
            Line::Selector(_) => self.step(alloc, line),
            Line::Chain {
                clause: _,
                hints: _,
            } => self.step(alloc, line),
            Line::Equal(_, _) => self.step(alloc, line),
            Line::Congruence(_, _) => self.step(alloc, line),
            Line::Witness(_) => self.step(alloc, line),
            Line::Accesses(_, _) => self.step(alloc, line),
            // Excluded by the condition on the line.
            Line::Delete(_) => unreachable!(),
            Line::Sat(count) => self.begin_values(alloc, *count),
            Line::Value {
                declaration: _,
                value: _,
            } => Ok(self.refuse(RuleName::Line)),
            Line::Unsat(pos) => self.refute(alloc, *pos),
            Line::Unknown { cube, start, count } => self.open_diary(alloc, *cube, *start, *count),
            Line::Take(_) => Ok(self.refuse(RuleName::Line)),
            Line::Put(_) => Ok(self.refuse(RuleName::Line)),
            Line::Drop(_) => Ok(self.refuse(RuleName::Line)),
        }
    }
}
