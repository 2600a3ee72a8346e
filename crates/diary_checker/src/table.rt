//! Numbers by literal.

ghost use Rattle.std.specs.Prelude.{◌≡◌, ◌≢◌, ◌≤◌, ◌<◌, ℕ, length, OnOk, slice_index_or};
ghost use Rattle.cnf_base.specs.Literals.{Literal};
ghost use Rattle.diary_checker.specs.Tables.{number_of};

use cnf_base::Lit;
use std::alloc::{AllocError, Global};
use std::marker::Model;

/// A number for each literal, 0 where none was set. A stamp is the number past a clock, so that all numbers are 0 again
/// once the clock stands past every stamp, and none has to be set back by itself.
#[derive(Debug, Drop)]
pub(crate) struct LiteralNumbers {
    stamps: Vec<u64>,
    clock: u64,
    top: u64,
}

impl Model for LiteralNumbers {
    ghost use Rattle.std.specs.Prelude.{ℕ, ◌≤◌, slice_index_or};
    ghost use Rattle.diary_checker.specs.Tables.{Stamps};

    ghost Value = { Stamps };

    ghost view = { λ t. record { stamps = t.stamps.items; clock = t.clock } };

    ghost invariant = { λ t. ((row : ℕ) → slice_index_or t.stamps.items row 0 ≤ t.top)
        × (t.clock ≤ t.top) };
}

impl LiteralNumbers {
    /// Each number is 0.
    pub(crate) fn new(alloc: Global) -> LiteralNumbers
        ensures { (l : Literal) → number_of result l ≡ 0 }
    {
        LiteralNumbers {
            stamps: Vec::new(alloc),
            clock: 0,
            top: 0,
        }
    }

    /// Sets every number to 0.
    pub(crate) fn clear(&mut self)
        ensures { (l : Literal) → number_of self.new l ≡ 0 }
    {
        self.clock = self.top;
    }

    /// The number of a literal.
    pub(crate) fn get(&self, l: Lit) -> u64
        ensures { result ≡ number_of self.now l }
    {
        match self.stamps.get(l.code() as usize) {
            Some(stamp) => stamp.saturating_sub(self.clock),
            None => 0,
        }
    }

    /// Sets the number of a literal.
    pub(crate) fn set(&mut self, l: Lit, number: u64) -> Result<(), AllocError>
        ensures here { OnOk result (number_of self.new l ≡ number) }
        ensures others { (k : Literal) → k ≢ l → number_of self.new k ≡ number_of self.old k }
    {
        let Some(stamp) = self.clock.checked_add(number) else {
            return Err(AllocError);
        };
        let row = l.code() as usize;
        grow(&mut self.stamps, row)?;
        self.stamps[row] = stamp;
        self.top = later(self.top, stamp);
        Ok(())
    }
}

fn later(a: u64, b: u64) -> u64
    ensures first { a ≤ result }
    ensures second { b ≤ result }
{
    if a < b { b } else { a }
}

// Makes room for a row.
fn grow(stamps: &mut Vec<u64>, row: usize) -> Result<(), AllocError>
    ensures same { (k : ℕ)
        → slice_index_or stamps.new.items k 0 ≡ slice_index_or stamps.old.items k 0 }
    ensures room { OnOk result (row < length stamps.new.items) }
{
    let Some(wanted) = row.checked_add(1) else {
        return Err(AllocError);
    };
    if stamps.len() < wanted {
        stamps.resize(wanted, 0)?;
    }
    Ok(())
}
