//! What diaries hold at their start, kept from one to the next.

ghost use Rattle.std.specs.Prelude.{◌≡◌, ◌≤◌, ℕ, List, IfOk};
ghost use Rattle.proof_log.specs.Logs.{clause_at};
ghost use Rattle.faded_log.specs.Faded.{FadedValue};
ghost use Rattle.proof_text.specs.Deletions.{is_deleted};
ghost use Rattle.diary_checker.specs.Tables.{bit_in};
ghost use Rattle.diary_checker.specs.Uses.{AreFiled};
ghost use Rattle.diary_checker.specs.Starts.{is_at_start, IsStart};

use crate::filing::{hold_from, leave_out};
use crate::goodness::Scratch;
use crate::positions::Positions;
use crate::table::LiteralNumbers;
use crate::watches::Watches;
use cnf_base::Pos;
use faded_log::FadedLog;
use std::alloc::{AllocError, Global};
use std::marker::Model;

/// What diaries of a log hold at their start, with its clauses filed, so that the next one has to look at no more than what
/// was added and deleted since; and the tables that each of them fills.
#[derive(Debug, Drop)]
pub struct DiaryStart {
    pub(crate) held: Positions,
    pub(crate) watches: Watches,
    pub(crate) from: Pos,
    /// How many of the deleted places are left out.
    pub(crate) known: usize,
    pub(crate) given: LiteralNumbers,
    pub(crate) scratch: Scratch,
}

impl Model for DiaryStart {
    ghost use Rattle.diary_checker.specs.Starts.{StartValue};

    ghost Value = { StartValue };

    ghost view = { λ s. record { held = s.held; filed = s.watches; from = s.from; known = s.known } };
}

impl DiaryStart {
    /// Nothing is held yet.
    pub fn new(alloc: Global) -> DiaryStart
        ensures start { (deleted : List ℕ) (log : FadedValue) → IsStart deleted log result }
        ensures from { result.from ≡ 0 }
    {
        DiaryStart {
            held: Positions::new(alloc),
            watches: Watches::new(alloc),
            from: 0,
            known: 0,
            given: LiteralNumbers::new(alloc),
            scratch: Scratch::new(alloc),
        }
    }

    // One that is not past a position: this one, or one of nothing.
    fn not_past(self, from: Pos) -> DiaryStart
        ensures order { result.from ≤ from }
        ensures start { (deleted : List ℕ) (log : FadedValue) → IsStart deleted log self
            → IsStart deleted log result }
    {
        if self.from <= from {
            return self;
        }
        let alloc = self.watches.alloc();
        drop(self);
        DiaryStart::new(alloc)
    }

    /// The same at another position, where these places are deleted, each of which has its bit.
    pub(crate) fn moved(
        self,
        log: &FadedLog,
        deleted: &Positions,
        places: &[u64],
        from: Pos,
    ) -> Result<DiaryStart, AllocError>
        requires start { IsStart places.now log.now self }
        requires places { (p : ℕ) → bit_in deleted.now p ≡ is_deleted places.now p }
        ensures held { IfOk result (λ s. (p : ℕ) → bit_in s.held p
            ≡ is_at_start (bit_in deleted.now) log.now.entries from p) }
        ensures filed { IfOk result
            (λ s. AreFiled (clause_at log.now.clauses) (bit_in s.held) s.filed) }
    {
        let mut start = self.not_past(from);
        leave_out(&mut start.held, &places[start.known..])?;
        hold_from(
            &mut start.held,
            &mut start.watches,
            log,
            deleted,
            start.from,
            from,
        )?;
        Ok(start)
    }
}
