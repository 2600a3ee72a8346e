// The checker.

ghost use Rattle.std.specs.Prelude.{◌≡◌, ◌+◌, ◌<◌, ◌^◌, ℕ, List, true, not, Some, None, IfOk, MatchBool, MatchResult, option_to_list};
ghost use Rattle.proof_text.specs.Lines.{IsLine};
ghost use Rattle.proof_text.specs.declared.line.Line.TheVariants as row;
ghost use Rattle.accepted_proof.specs.Judged as judged;
ghost use Rattle.accepted_proof.specs.Judged.{is_idle, ending, refused, Moves};
ghost use Rattle.check_cubes.specs.Searches.{limits_of};
ghost use Rattle.proof_checker.specs.Checked.{shown_at};
ghost use Rattle.proof_checker.specs.Deletions.{AreChainsForgotten, GoesToLike};
ghost use Rattle.proof_checker.specs.Checkers.{GoesTo, line_in, IsRead, judged_so, answer_by, at_end, closed_with, gone_on, owed_of, IsOpen, IsNoted, AreKept};

use crate::deletions::Deleted;
use crate::due::Due;
use crate::kept::KeptInterp;
use accepted_proof::refusal::{Refusal, RuleName};
use check_cubes::Limits;
use diary_checker::DiaryStart;
use faded_log::FadedLog;
use proof_text::line::{Format, Line};
use proof_text::reader::LineFault;
use script_state::answer::Verdict;
use script_state::state::State;
use smt_terms::sort::DeclId;
use smt_values::Value;
use std::alloc::{AllocError, Global};
use std::marker::Model;
use term_reach::Reached;

/// The format and the limits of a proof's header, the state of a script's commands, the log of its checks, the places that are
/// deleted, what is owed, and the verdicts so far. State and log are large, and boxed, since each line moves the checker from call to call.
#[derive(Drop)]
pub struct Checker {
    pub(crate) format: Format,
    pub(crate) limits: Limits,
    pub(crate) state: Box<State>,
    pub(crate) log: Box<FadedLog>,
    pub(crate) deleted: Deleted,
    pub(crate) due: Due,
    /// The values of a model that is not whole yet.
    pub(crate) values: Vec<(DeclId, Value)>,
    /// The number of the line that is read next.
    pub(crate) line: u64,
    pub(crate) verdicts: Vec<Verdict>,
    /// A table for what a model is about, kept from record to record.
    pub(crate) reached: Reached,
    /// The same for its values.
    pub(crate) kept: KeptInterp,
    /// What diaries hold at their start, kept from one to the next.
    pub(crate) start: DiaryStart,
}

impl Model for Checker {
    ghost use Rattle.check_cubes.specs.Searches.{limits_of};
    ghost use Rattle.proof_checker.specs.Checkers.{CheckerValue, owed_of, IsOpen, IsNoted, AreKept};
    ghost use Rattle.accepted_proof.specs.Searching.{AreLimits};
    ghost use Rattle.faded_log.specs.Faded.{IsHeld};
    ghost use Rattle.proof_checker.specs.Deletions.{AreChainsForgotten};
    ghost use Rattle.diary_checker.specs.Starts.{IsStart};

    ghost Value = { CheckerValue };

    ghost view = { λ c.
        record {
          judging = record {
            format = c.format;
            limits = limits_of c.limits;
            state = c.state.value;
            log = c.log.value.entries;
            deleted = c.deleted;
            owed = owed_of c.due c.state.value.symbols.live c.values.items;
            line = c.line;
          };
          verdicts = c.verdicts.items;
        } };

    ghost invariant = { λ c. IsHeld c.state.value.terms.nodes c.log.value
        × IsOpen c.due c.state.value.symbols.live c.values.items
        × IsNoted (limits_of c.limits) c.state.value c.log.value.entries c.deleted c.due
        × AreLimits (limits_of c.limits)
        × AreKept c.due c.state.value.symbols.signatures c.values.items
        × IsStart c.deleted c.log.value c.start
        × AreChainsForgotten c.deleted c.log.value.entries };
}

impl Checker {
    /// Whether a record is owed, or a line was refused.
    pub fn owes(&self) -> bool
        ensures { result ≡ not (is_idle self.now.judging.owed) }
    {
        match &self.due {
            Due::Nothing => false,
            _ => true,
        }
    }

    /// The verdicts of the records that were accepted, in order.
    pub fn verdicts(&self) -> &[Verdict]
        ensures { result.now ≡ self.now.verdicts }
    {
        self.verdicts.as_slice()
    }

    /// The verdict of the record that ended the check, where one did and nothing is owed since.
    pub(crate) fn shown(&self) -> Option<Verdict>
        ensures { shown_at self.now.judging ≡ option_to_list result }
    {
        match &self.due {
            Due::Nothing => self.state.standing(),
            _ => None,
        }
    }

    // Lets the checker go for want of memory. It is dropped here, and not part by part wherever a function has to stop.
    pub(crate) fn release(self) -> AllocError {
        drop(self);
        AllocError
    }

    // The next line is refused.
    pub(crate) fn refuse(self, rule: RuleName) -> Checker
        ensures { result ≡ judged_so self (refused self.judging rule) }
    {
        let mut checker = self;
        let line = checker.line;
        checker.due = Due::Over(Refusal { line, rule });
        checker
    }

    // The line was one of a proof.
    pub(crate) fn go_on(self) -> Checker
        requires more { self.judging.line + 1 < 2 ^ 64 }
        ensures { result ≡ judged_so self (gone_on self.judging) }
    {
        let mut checker = self;
        checker.line += 1;
        checker
    }

    // The check ends with a record of this verdict.
    pub(crate) fn close(self, verdict: Verdict) -> Result<Checker, AllocError>
        requires more { self.judging.line + 1 < 2 ^ 64 }
        ensures { IfOk result (λ c. c ≡ closed_with self verdict) }
    {
        let mut checker = self;
        let Ok(()) = checker.verdicts.push(verdict) else {
            return Err(checker.release());
        };
        checker.state.conclude(verdict);
        checker.due = Due::Nothing;
        checker.line += 1;
        Ok(checker)
    }

    // Whether steps and a record are owed.
    fn is_at_step(&self) -> bool
        ensures { MatchBool result (self.now.judging.owed ≡ judged.Steps)
            (self.now.judging.owed ≡ judged.Steps → ⊥) }
    {
        match &self.due {
            Due::Steps => true,
            _ => false,
        }
    }

    // A whole line of a proof.
    fn whole_line(self, alloc: Global, line: &Line) -> Result<Checker, AllocError>
        requires written { IsLine line.now }
        requires more { self.judging.line + 1 < 2 ^ 64 }
        ensures { IfOk result (λ c. GoesToLike (Moves self.judging (Some line.now)) self c) }
    {
        match line {
            Line::Delete(places) => {
                if self.is_at_step() {
                    self.delete(alloc, places.as_slice())
                } else {
                    self.other_line(alloc, line)
                }
            }
            _ => self.other_line(alloc, line),
        }
    }

    // The same, where no places can be deleted by it.
    fn other_line(self, alloc: Global, line: &Line) -> Result<Checker, AllocError>
        requires other { self.judging.owed ≡ judged.Steps
            → (places : List ℕ) → line.now ≡ row.Delete places → ⊥ }
        requires written { IsLine line.now }
        requires more { self.judging.line + 1 < 2 ^ 64 }
        ensures { IfOk result (λ c. GoesTo (Moves self.judging (Some line.now)) self c) }
    {
        match &self.due {
            Due::Nothing => Ok(self.refuse(RuleName::End)),
            Due::Steps => self.at_step(alloc, line),
            Due::Values => self.at_value(alloc, line),
            Due::Noted(_) => self.at_diary(line),
            Due::Over(_) => Ok(self),
        }
    }

    // A line that is none of a proof.
    fn bad_line(self) -> Checker
        ensures { GoesTo (Moves self.judging None) self result }
    {
        match &self.due {
            Due::Nothing => self.refuse(RuleName::End),
            Due::Steps => self.refuse(RuleName::Line),
            Due::Values => self.refuse(RuleName::Line),
            Due::Noted(_) => self.refuse(RuleName::Line),
            Due::Over(_) => self,
        }
    }

    // Each chain that is deleted is forgotten.
    fn has_forgotten(&self)
        ensures { AreChainsForgotten self.now.judging.deleted self.now.judging.log }
    {
        let _places = self.deleted.places();
    }

    // The next line, which is one of a proof or none.
    fn any_line(self, alloc: Global, line: &Result<Line, LineFault>) -> Result<Checker, AllocError>
        requires read { IsRead line.now }
        requires more { self.judging.line + 1 < 2 ^ 64 }
        ensures { IfOk result (λ c. GoesToLike (Moves self.judging (line_in line.now)) self c) }
    {
        match line {
            Ok(line) => self.whole_line(alloc, line),
            Err(_) => Ok(self.bad_line()),
        }
    }

    // What a line is answered.
    fn told(&self) -> Result<(), Refusal>
        ensures { result ≡ answer_by self.now.judging.owed }
    {
        match &self.due {
            Due::Over(refusal) => Err(*refusal),
            _ => Ok(()),
        }
    }

    /// Judges the next line. Each chain that is deleted is forgotten; it is judged as if it was not. After a refusal every further line and the end are answered the same. For want of numbers of
    /// lines the answer is want of memory.
    pub fn line(
        self,
        alloc: Global,
        line: &Result<Line, LineFault>,
    ) -> Result<(Checker, Result<(), Refusal>), AllocError>
        requires { IsRead line.now }
        ensures moves { IfOk result
            (λ r. GoesToLike (Moves self.judging (line_in line.now)) self r.0) }
        ensures told { IfOk result (λ r. r.1 ≡ answer_by r.0.judging.owed) }
        ensures forgotten { IfOk result
            (λ r. AreChainsForgotten r.0.judging.deleted r.0.judging.log) }
    {
        if self.line == u64::MAX {
            return Err(self.release());
        }
        let checker = self.any_line(alloc, line)?;
        checker.has_forgotten();
        let told = checker.told();
        Ok((checker, told))
    }

    // Where it stands at the end of the text.
    fn stop(self) -> Checker
        ensures { result ≡ at_end self (ending self.judging.owed self.judging.line) }
    {
        match &self.due {
            Due::Nothing => self,
            Due::Steps => self.refuse(RuleName::End),
            Due::Values => self.refuse(RuleName::End),
            Due::Noted(_) => self.refuse(RuleName::End),
            Due::Over(_) => self,
        }
    }

    /// Judges the end of the text.
    pub fn end(self) -> (Checker, Result<(), Refusal>)
        ensures told { MatchResult result.1 (λ _. ending self.judging.owed self.judging.line ≡ None)
            (λ r. ending self.judging.owed self.judging.line ≡ Some r) }
        ensures end { result.0 ≡ at_end self (ending self.judging.owed self.judging.line) }
    {
        let checker = self.stop();
        let told = checker.told();
        (checker, told)
    }
}
