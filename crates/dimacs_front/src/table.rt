//! Clauses by their numbers.

ghost use Rattle.std.specs.Prelude.{◌≡◌, ◌<◌, None, Some, [], true, false, slice_set, IfOk, OnOk, MatchOption, length, map};
ghost use Rattle.dimacs_front.specs.Lrat.{held, without, with_clause, padded, with_number};

use crate::number::Number;
use crate::rows::Rows;
use crate::step::number_at;
use cnf_base::Lit;
use std::alloc::{AllocError, Global};
use std::marker::Model;

/// How many numbers in a row may have no clause.
const MOST_GAP: usize = 1 << 28;

/// The clause of each number from 1 on, and which of them are held. After an error it is only
/// dropped.
#[derive(Debug, Drop)]
pub(crate) struct Table {
    rows: Rows,
    live: Vec<bool>,
}

impl Model for Table {
    ghost use Rattle.std.specs.Prelude.{◌≡◌, ◌≤◌, [], length};
    ghost use Rattle.dimacs_front.specs.Lrat.{TableValue};

    ghost Value = { TableValue };

    ghost view = { λ t. record { clauses = t.rows.clauses; live = t.live.items } };

    ghost invariant = { λ t. (length t.live.items ≤ length t.rows.clauses) × (t.rows.begun ≡ []) };
}

impl Table {
    /// All clauses of these rows, held.
    pub(crate) fn new(alloc: Global, rows: Rows) -> Result<Table, AllocError>
        requires { rows.begun ≡ [] }
        ensures { IfOk result (λ t. t
            ≡ record { clauses = rows.clauses; live = map (λ _. true) rows.clauses }) }
    {
        let live = vec![in alloc; true; rows.len()]?;
        Ok(Table { rows, live })
    }

    /// How many numbers there were so far.
    pub(crate) fn len(&self) -> usize
        ensures { result ≡ length self.now.clauses }
    {
        self.rows.len()
    }

    /// The clause of a number, where it is held.
    pub(crate) fn held(&self, number: u64) -> Option<&[Lit]>
        ensures { MatchOption result (held self.now number ≡ None)
            (λ clause. held self.now number ≡ Some clause.now) }
    {
        let place = number.saturating_sub(1) as usize;
        if place < self.live.len() && self.live[place] {
            return Some(self.rows.clause(place));
        }
        None
    }

    /// Holds these no longer.
    pub(crate) fn remove(&mut self, numbers: &[Number])
        ensures { self.new ≡ without self.old numbers.now }
    {
        for place in 0..numbers.len() {
            let number = number_at(numbers, place);
            self.remove_at(number.size.saturating_sub(1) as usize);
        }
    }

    /// Holds the clause of this place no longer.
    fn remove_at(&mut self, place: usize)
        ensures { self.new
            ≡ record { clauses = self.old.clauses; live = slice_set self.old.live place false } }
    {
        if place < self.live.len() {
            self.live[place] = false;
        }
    }

    /// The next number, with this clause.
    fn push(&mut self, clause: &[Lit], live: bool) -> Result<(), AllocError>
        ensures { OnOk result (self.new ≡ with_clause self.old clause.now live) }
    {
        self.rows.push_clause(clause)?;
        self.live.push(live)?;
        Ok(())
    }

    /// So many numbers that have no clause.
    fn pad(&mut self, count: usize) -> Result<(), AllocError>
        ensures { OnOk result (self.new ≡ padded count self.old) }
    {
        let mut left = count;
        while left > 0 {
            self.push(&[], false)?;
            left -= 1;
        }
        Ok(())
    }

    /// A clause under a number above all so far. Want of memory is also the answer where more than
    /// 2^28 numbers before it have no clause.
    pub(crate) fn add(&mut self, number: u64, clause: &[Lit]) -> Result<(), AllocError>
        requires { length self.old.clauses < number }
        ensures { OnOk result (self.new ≡ with_number self.old number clause.now) }
    {
        let gap = number as usize - 1 - self.len();
        if gap > MOST_GAP {
            return Err(AllocError);
        }
        self.pad(gap)?;
        self.push(clause, true)
    }
}
