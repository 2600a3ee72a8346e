// The lines of a diary.

ghost use Rattle.std.specs.Prelude.{◌≡◌, ◌<◌, ◌+◌, ◌^◌, true, ℕ, Some, List, [], IfOk, MatchBool, MatchOption};
ghost use Rattle.proof_log.specs.declared.entry.Entry.{Entry as Step};
ghost use Rattle.faded_log.specs.Faded.{IsHeld};
ghost use Rattle.proof_text.specs.Deletions.{IsSpentWithout};
ghost use Rattle.script_state.specs.States.{StateValue};
ghost use Rattle.accepted_proof.specs.Searching.{Limits, subject_of, given_literals};
ghost use Rattle.accepted_proof.specs.Judged.{noted, Opens, MovesBy};
ghost use Rattle.proof_checker.specs.declared.due.Due.TheVariants.{Noted};
ghost use Rattle.diary_checker.specs.Starts.{IsStart};
ghost use Rattle.proof_checker.specs.Checkers.{closed_with, GoesTo, HasLine, IsNoLine, IsNoted, IsOwedLines, MaySearch, NotesBy, ReadTo, given_in, judged_so};

use crate::checker::Checker;
use crate::deletions::{Deleted, names_deleted};
use crate::due::{Due, Noting};
use crate::searches::search_from;
use accepted_proof::refusal::RuleName;
use cnf_base::{Lit, Pos};
use diary_checker::{DiaryReader, DiaryStart};
use faded_log::FadedLog;
use proof_log::diary::{DiaryLine, DiaryLines};
use proof_text::line::Line;
use script_state::answer::Verdict;
use std::alloc::{AllocError, Global};
use std::mem;

/// A diary without a line, of which one is next and so many are left behind it. What an earlier one held at its start serves it.
fn open(
    alloc: Global,
    log: &FadedLog,
    kept: DiaryStart,
    deleted: &Deleted,
    given: &[Lit],
    cube: u64,
    start: Pos,
    left: u64,
) -> Result<Noting, AllocError>
    requires { IsStart deleted.now log.now kept }
    ensures parts { IfOk result (λ n. (n.cube ≡ cube) × (n.start ≡ start) × (n.left ≡ left)
        × (n.lines ≡ [])) }
    ensures noted { IfOk result (λ n. (limits : Limits) (s : StateValue)
        → IsHeld s.terms.nodes log.now
        → given.now ≡ given_literals limits s s.terms.nodes log.now.entries cube
        → IsNoted limits s log.now.entries deleted.now (Noted n)) }
{
    let reader = DiaryReader::new(
        alloc,
        log,
        kept,
        deleted.bits(),
        deleted.places(),
        given,
        start,
    )?;
    let lines = DiaryLines::none(alloc);
    Ok(Noting {
        cube,
        start,
        left,
        lines,
        reader,
    })
}

/// One line more, and whether it may stand there.
fn with_line(
    log: &FadedLog,
    deleted: &Deleted,
    noting: Noting,
    line: DiaryLine,
) -> Result<(Noting, bool), AllocError>
    ensures { IfOk result (λ r. (limits : Limits) (s : StateValue) → IsHeld s.terms.nodes log.now
        → IsNoted limits s log.now.entries deleted.now (Noted noting)
        → MatchBool r.1 (HasLine limits s log.now.entries deleted.now noting line r.0)
        (IsNoLine limits s log.now.entries deleted.now noting line)) }
{
    if names_deleted(deleted, line) {
        return Ok((noting, false));
    }
    let mut noting = noting;
    let stands = noting.reader.line(log, line)?;
    noting.lines.push(line)?;
    Ok((noting, stands))
}

/// The same lines, where one fewer is left.
fn one_less(noting: Noting) -> Noting
    requires { 0 < noting.left }
    ensures left { result.left + 1 ≡ noting.left }
    ensures same { (result.cube ≡ noting.cube) × (result.start ≡ noting.start)
        × (result.lines ≡ noting.lines) × (result.reader ≡ noting.reader) }
{
    let mut noting = noting;
    noting.left -= 1;
    noting
}

/// Whether the lines so far have spent the budget.
fn is_spent(noting: &Noting, budget: u64) -> bool
    ensures { (limits : Limits) (s : StateValue) (log : List Step) (deleted : List ℕ)
        → IsNoted limits s log deleted (Noted noting.now)
        → MatchBool result
        (IsSpentWithout deleted
        (subject_of limits s s.terms.nodes log noting.now.cube noting.now.start) budget
        noting.now.lines)
        (IsSpentWithout deleted
        (subject_of limits s s.terms.nodes log noting.now.cube noting.now.start) budget
        noting.now.lines → ⊥) }
{
    noting.reader.is_spent(budget)
}

/// What the diary held at its start, for the next one.
fn end(log: &FadedLog, deleted: &Deleted, noting: Noting) -> Result<DiaryStart, AllocError>
    ensures { IfOk result (λ kept. (limits : Limits) (s : StateValue)
        → IsHeld s.terms.nodes log.now
        → IsNoted limits s log.now.entries deleted.now (Noted noting)
        → IsStart deleted.now log.now kept) }
{
    noting.reader.end(log, deleted.places().len())
}

impl Checker {
    // So many lines of a diary are owed behind the next one.
    fn owe_lines(self, noting: Noting) -> Checker
        requires more { self.judging.line + 1 < 2 ^ 64 }
        requires noted { IsNoted self.judging.limits self.judging.state self.judging.log
            self.judging.deleted (Noted noting) }
        ensures { result
            ≡ judged_so self
            (noted self.judging noting.cube noting.start noting.left noting.lines) }
    {
        let mut checker = self;
        checker.due = Due::Noted(noting);
        checker.line += 1;
        checker
    }

    // What the search of a cube takes as true, where it may start at the position; the table of what is reached serves the
    // next record too.
    fn searched(
        &mut self,
        alloc: Global,
        cube: u64,
        start: Pos,
    ) -> Result<Option<Vec<Lit>>, AllocError>
        ensures same { self.new ≡ self.old }
        ensures search { IfOk result (λ o. MatchOption o
            (MaySearch self.old.judging cube start → ⊥)
            (λ g. MaySearch self.old.judging cube start
            × (g.items ≡ given_in self.old.judging cube))) }
    {
        search_from(
            alloc,
            &self.state,
            &self.log,
            self.limits,
            cube,
            start,
            &mut self.reached,
        )
    }

    // The line that begins the diary of a cube.
    pub(crate) fn open_diary(
        self,
        alloc: Global,
        cube: u64,
        start: Pos,
        count: u64,
    ) -> Result<Checker, AllocError>
        requires more { self.judging.line + 1 < 2 ^ 64 }
        ensures { IfOk result (λ c. GoesTo (Opens self.judging cube start count) self c) }
    {
        if count == 0 {
            return Ok(self.refuse(RuleName::Diary));
        }
        let mut checker = self;
        let Ok(given) = checker.searched(alloc, cube, start) else {
            return Err(checker.release());
        };
        match given {
            Some(given) => {
                let kept = mem::replace(&mut checker.start, DiaryStart::new(alloc));
                match open(
                    alloc,
                    &checker.log,
                    kept,
                    &checker.deleted,
                    given.as_slice(),
                    cube,
                    start,
                    count - 1,
                ) {
                    Ok(noting) => Ok(checker.owe_lines(noting)),
                    Err(_) => Err(checker.release()),
                }
            }
            None => Ok(checker.refuse(RuleName::Diary)),
        }
    }

    // One line more of a diary, which stands there or does not.
    fn judge_line(self, noting: Noting, stands: bool) -> Result<Checker, AllocError>
        requires more { self.judging.line + 1 < 2 ^ 64 }
        requires noted { stands ≡ true
            → IsNoted self.judging.limits self.judging.state self.judging.log self.judging.deleted
            (Noted noting) }
        ensures { IfOk result (λ c. GoesTo (ReadTo self.judging noting stands) self c) }
    {
        if !stands {
            return Ok(self.refuse(RuleName::Diary));
        }
        if noting.left > 0 {
            let noting = one_less(noting);
            return Ok(self.owe_lines(noting));
        }
        if is_spent(&noting, self.limits.budget) {
            self.close_diary(noting)
        } else {
            Ok(self.refuse(RuleName::Diary))
        }
    }

    // The check ends with a diary whose lines have spent the budget; what it held at its start is kept.
    fn close_diary(self, noting: Noting) -> Result<Checker, AllocError>
        requires more { self.judging.line + 1 < 2 ^ 64 }
        requires noted { IsNoted self.judging.limits self.judging.state self.judging.log
            self.judging.deleted (Noted noting) }
        ensures { IfOk result (λ c. c ≡ closed_with self Verdict.Unknown) }
    {
        let mut checker = self;
        let Ok(kept) = end(&checker.log, &checker.deleted, noting) else {
            return Err(checker.release());
        };
        checker.start = kept;
        checker.close(Verdict::Unknown)
    }

    // One line more of a diary.
    fn note(self, line: DiaryLine) -> Result<Checker, AllocError>
        requires lines { IsOwedLines self.judging.owed }
        requires more { self.judging.line + 1 < 2 ^ 64 }
        ensures { IfOk result (λ c. GoesTo (NotesBy self.judging.owed self.judging line) self c) }
    {
        let mut checker = self;
        let due = checker.due;
        checker.due = Due::Steps;
        let Due::Noted(noting) = due else {
            unreachable!()
        };
        let Ok((noting, stands)) = with_line(&checker.log, &checker.deleted, noting, line) else {
            return Err(checker.release());
        };
        checker.judge_line(noting, stands)
    }

    // A line where one of a diary is owed.
    pub(crate) fn at_diary(self, line: &Line) -> Result<Checker, AllocError>
        requires lines { IsOwedLines self.judging.owed }
        requires more { self.judging.line + 1 < 2 ^ 64 }
        ensures { IfOk result
            (λ c. GoesTo (MovesBy self.judging.owed self.judging (Some line.now)) self c) }
    {
        match line {
            Line::Take(pos) => self.note(DiaryLine::Take(*pos)),
            Line::Put(pos) => self.note(DiaryLine::Put(*pos)),
            Line::Drop(pos) => self.note(DiaryLine::Drop(*pos)),
            _ => Ok(self.refuse(RuleName::Line)),
        }
    }
}
