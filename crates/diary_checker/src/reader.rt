//! The reader of a diary.

ghost use Rattle.std.specs.Prelude.{◌≡◌, ◌≢◌, ◌+◌, ◌++◌, ◌∷◌, [], suc, length, ℕ, Bool, List, Option, Some, IfOk, IfSome, MatchBool, MatchOption, MatchResult};
ghost use Rattle.cnf_base.specs.Literals.{Literal};
ghost use Rattle.cnf_base.specs.declared.clause.ClauseId.{ClauseId};
ghost use Rattle.proof_log.specs.declared.entry.Entry.TheVariants as step;
ghost use Rattle.proof_log.specs.declared.diary.DiaryLine.{DiaryLine};
ghost use Rattle.proof_log.specs.declared.diary.DiaryLine.TheVariants as row;
ghost use Rattle.proof_log.specs.Logs.{entry_at};
ghost use Rattle.proof_log.specs.Diaries.{Subject, lines_after, count_new, allowed, IsLine};
ghost use Rattle.proof_text.specs.Deletions.{blank_without, is_deleted, IsSpentFrom};
ghost use Rattle.diary_checker.specs.Tables.{bit_in};
ghost use Rattle.diary_checker.specs.Starts.{IsStart};
ghost use Rattle.diary_checker.specs.Readers.{IsAbout, IsSetUp, HasRead, IsDecided, IsUndecided};

use crate::conditions::insert;
use crate::filing::{bring, is_chain_at, take_all_back, unfile};
use crate::goodness::{Scratch, is_good_put};
use crate::positions::Positions;
use crate::start::DiaryStart;
use crate::table::LiteralNumbers;
use crate::watches::Watches;
use cnf_base::{Clause, Lit, Pos};
use faded_log::FadedLog;
use proof_log::diary::DiaryLine;
use proof_log::entry::{Entry, Hints};
use std::alloc::{AllocError, Global};
use std::marker::Model;

/// A reader of the lines of one diary over a log, one after the other: what is held after the lines that it took.
#[derive(Debug, Drop)]
pub struct DiaryReader {
    given: LiteralNumbers,
    held: Positions,
    watches: Watches,
    chains: u64,
    puts: u64,
    drops: u64,
    ended: bool,
    scratch: Scratch,
    from: Pos,
    /// The positions that were not held at the start and came since.
    brought: Vec<Pos>,
}

impl Model for DiaryReader {
    ghost use Rattle.diary_checker.specs.Readers.{ReaderValue};

    ghost Value = { ReaderValue };

    ghost view = { λ r.
        record {
          given = r.given;
          held = r.held;
          chains = r.chains;
          puts = r.puts;
          drops = r.drops;
          ended = r.ended;
          filed = r.watches;
          from = r.from;
          brought = r.brought.items;
        } };
}

impl DiaryReader {
    /// The reader of a diary over this log that starts at a position, where these places were deleted, for a search that
    /// takes the given literals as true. It has read no line. What an earlier diary of the log held at its start serves it.
    pub fn new(
        alloc: Global,
        log: &FadedLog,
        start: DiaryStart,
        deleted: &Positions,
        places: &[u64],
        given: &[Lit],
        from: Pos,
    ) -> Result<DiaryReader, AllocError>
        requires start { IsStart places.now log.now start }
        requires places { (p : ℕ) → bit_in deleted.now p ≡ is_deleted places.now p }
        ensures { IfOk result (λ r. (g : Subject) → IsAbout g log.now → g.given ≡ given.now
            → g.from ≡ from → HasRead (bit_in deleted.now) g [] r) }
    {
        let start = start.moved(log, deleted, places, from)?;
        let DiaryStart {
            held,
            watches,
            from: _,
            known: _,
            given: literals,
            scratch,
        } = start;
        let mut literals = literals;
        insert(&mut literals, given)?;
        Ok(DiaryReader {
            given: literals,
            held,
            watches,
            chains: 0,
            puts: 0,
            drops: 0,
            ended: false,
            scratch,
            from,
            brought: Vec::new(alloc),
        })
    }

    /// What was held at the start, for the next diary. The log and the number of deleted places are those of this one.
    pub fn end(self, log: &FadedLog, known: usize) -> Result<DiaryStart, AllocError>
        ensures { IfOk result (λ s. (places : List ℕ) (g : Subject) (lines : List DiaryLine)
            → IsAbout g log.now → known ≡ length places
            → HasRead (is_deleted places) g lines self → IsStart places log.now s) }
    {
        let DiaryReader {
            given,
            held,
            watches,
            chains: _,
            puts: _,
            drops: _,
            ended: _,
            scratch,
            from,
            brought,
        } = self;
        let mut held = held;
        let mut watches = watches;
        let mut scratch = scratch;
        if from > log.len() {
            return Ok(DiaryStart::new(watches.alloc()));
        }
        take_all_back(
            &mut held,
            &mut watches,
            &mut scratch.own,
            log,
            brought.as_slice(),
        )?;
        Ok(DiaryStart {
            held,
            watches,
            from,
            known,
            given,
            scratch,
        })
    }

    /// Takes one line more and answers true exactly where it may stand after those that were taken, else all is as before.
    /// The log is the one that the reader was made over. For want of memory the lines that were taken are as before.
    pub fn line(&mut self, log: &FadedLog, line: DiaryLine) -> Result<bool, AllocError>
        ensures { (deleted : ℕ → Bool) (g : Subject) (lines : List DiaryLine) → IsAbout g log.now
            → HasRead deleted g lines self.old → MatchResult result
            (λ taken. MatchBool taken
            (IsLine g (lines_after g (blank_without deleted g) lines) line
            × HasRead deleted g (lines ++ line ∷ []) self.new)
            ((¬ (IsLine g (lines_after g (blank_without deleted g) lines) line))
            × (self.new ≡ self.old)))
            (λ e. HasRead deleted g lines self.new) }
    {
        self.decide(log, line)
    }

    /// Whether the lines that were taken have spent the budget.
    pub fn is_spent(&self, budget: u64) -> bool
        ensures { (deleted : ℕ → Bool) (g : Subject) (lines : List DiaryLine)
            → HasRead deleted g lines self.now
            → MatchBool result (IsSpentFrom (blank_without deleted g) g budget lines)
            (¬ (IsSpentFrom (blank_without deleted g) g budget lines)) }
    {
        self.ended && is_one_more(self.puts, budget)
    }

    fn decide(&mut self, log: &FadedLog, line: DiaryLine) -> Result<bool, AllocError>
        ensures { (g : Subject) → IsAbout g log.now → IsSetUp g self.old →
            MatchResult result (IsDecided g self.old self.new line)
            (λ e. IsUndecided g self.old self.new) }
    {
        match line {
            DiaryLine::Take(at) => self.take(log, at),
            DiaryLine::Put(at) => self.put(log, at),
            DiaryLine::Drop(at) => self.give_up(log, at),
        }
    }

    fn take(&mut self, log: &FadedLog, at: Pos) -> Result<bool, AllocError>
        ensures { (g : Subject) → IsAbout g log.now → IsSetUp g self.old →
            MatchResult result (IsDecided g self.old self.new (row.Take at))
            (λ e. IsUndecided g self.old self.new) }
    {
        if log.len() <= at {
            return Ok(false);
        }
        let Some(chains) = counted(self.chains, is_chain_at(log, at), self.held.has(at)) else {
            return Err(AllocError);
        };
        bring(
            &mut self.held,
            &mut self.watches,
            &mut self.brought,
            log,
            at,
        )?;
        self.chains = chains;
        self.drops = 0;
        self.ended = false;
        Ok(true)
    }

    fn put(&mut self, log: &FadedLog, at: Pos) -> Result<bool, AllocError>
        ensures { (g : Subject) → IsAbout g log.now → IsSetUp g self.old →
            MatchResult result (IsDecided g self.old self.new (row.Put at))
            (λ e. IsUndecided g self.old self.new) }
    {
        let Some((clause, hints)) = chain_at(log, at) else {
            return Ok(false);
        };
        if !is_good_put(
            log,
            &self.held,
            &self.given,
            &self.watches,
            &mut self.scratch,
            clause.literals(),
            hints,
        )? {
            return Ok(false);
        }
        let Some(chains) = self.chains.checked_add(1) else {
            return Err(AllocError);
        };
        let Some(puts) = self.puts.checked_add(1) else {
            return Err(AllocError);
        };
        bring(
            &mut self.held,
            &mut self.watches,
            &mut self.brought,
            log,
            at,
        )?;
        self.chains = chains;
        self.puts = puts;
        self.drops = droppable(puts, chains);
        self.ended = true;
        Ok(true)
    }

    fn give_up(&mut self, log: &FadedLog, at: Pos) -> Result<bool, AllocError>
        ensures { (g : Subject) → IsAbout g log.now → IsSetUp g self.old →
            MatchResult result (IsDecided g self.old self.new (row.Drop at))
            (λ e. IsUndecided g self.old self.new) }
    {
        if self.drops == 0 {
            return Ok(false);
        }
        if !self.held.has(at) {
            return Ok(false);
        }
        let Some((clause, _)) = chain_at(log, at) else {
            return Ok(false);
        };
        self.scratch.own.collect(clause.literals())?;
        self.held.set(at, false)?;
        unfile(&mut self.watches, at, self.scratch.own.each.as_slice());
        self.chains = self.chains.saturating_sub(1);
        self.drops -= 1;
        self.ended = false;
        Ok(true)
    }
}

// The clause and the hints of the chain at a position, if a chain stands there.
fn chain_at(log: &FadedLog, at: Pos) -> Option<(&Clause, &Hints)>
    ensures { MatchOption result
        ((c : List Literal) (hints : List ClauseId)
        → entry_at log.now.entries at ≢ Some (step.Chain c hints))
        (λ r. entry_at log.now.entries at ≡ Some (step.Chain r.0.now r.1.now)) }
{
    match log.entry(at) {
        Some(Entry::Chain(clause, hints)) => Some((clause, hints)),
        _ => None,
    }
}

// One chain more, where it is a chain and was not held.
fn counted(chains: u64, is_chain: bool, was_held: bool) -> Option<u64>
    ensures { IfSome result (λ n. n ≡ chains + count_new is_chain was_held) }
{
    if was_held {
        return Some(chains);
    }
    if is_chain {
        return chains.checked_add(1);
    }
    Some(chains)
}

// How many chains may be dropped after so many puts.
fn droppable(puts: u64, chains: u64) -> u64
    ensures { result ≡ allowed puts chains }
{
    if puts % 2000 == 0 { chains / 2 } else { 0 }
}

fn is_one_more(puts: u64, budget: u64) -> bool
    ensures { MatchBool result (puts ≡ suc budget) (puts ≢ suc budget) }
{
    if puts == 0 {
        return false;
    }
    puts - 1 == budget
}
