//! Clauses in one flat table.

ghost use Rattle.std.specs.Prelude.{◌≡◌, ◌<◌, ◌≤◌, ◌==◌, [], length, Some, OnOk, OnErr, slice_get};
ghost use Rattle.dimacs_front.specs.Rows.{no_rows, with_literal, ended, with_row, rows_from, AreEnds, IsStart};

use cnf_base::Lit;
use std::alloc::{AllocError, Global};
use std::marker::Model;

/// Clauses one behind the other, each a row of one table of literals, and the literals of one that
/// is not ended.
#[derive(Debug, Drop)]
pub struct Rows {
    literals: Vec<Lit>,
    /// Where each clause ends in the table.
    ends: Vec<usize>,
}

impl Model for Rows {
    ghost use Rattle.std.specs.Prelude.{drop, length};
    ghost use Rattle.dimacs_front.specs.Rows.{RowsValue, rows_from, last_end, AreEnds};

    ghost Value = { RowsValue };

    ghost view = { λ r. record {
      clauses = rows_from 0 r.ends.items r.literals.items;
      begun = drop (last_end 0 r.ends.items) r.literals.items;
    } };

    ghost invariant = { λ r. AreEnds 0 (length r.literals.items) r.ends.items };
}

/// Where the row of a place begins, by the ends of the rows.
fn start_of(ends: &[usize], place: usize) -> usize
    requires { place ≤ length ends.now }
    ensures { IsStart 0 ends.now place result }
{
    if place == 0 { 0 } else { ends[place - 1] }
}

/// The row of a place, by the ends of the rows.
fn row_of<'a>(ends: &[usize], table: &'a [Lit], place: usize) -> &'a [Lit]
    requires ends { AreEnds 0 (length table.now) ends.now }
    requires within { place < length ends.now }
    ensures { slice_get (rows_from 0 ends.now table.now) place ≡ Some result.now }
{
    let start = start_of(ends, place);
    let (row, _) = table.split_at(ends[place]);
    row.split_at(start).1
}

impl Rows {
    /// No clause yet.
    pub fn new(alloc: Global) -> Rows
        ensures { result ≡ no_rows }
    {
        Rows {
            literals: Vec::new(alloc),
            ends: Vec::new(alloc),
        }
    }

    /// One literal more of the clause that is not ended.
    pub fn push(&mut self, l: Lit) -> Result<(), AllocError>
        ensures ok { OnOk result (self.new ≡ with_literal self.old l) }
        ensures err { OnErr result (self.new ≡ self.old) }
    {
        self.literals.push(l)?;
        Ok(())
    }

    /// Ends the clause.
    pub fn end(&mut self) -> Result<(), AllocError>
        ensures ok { OnOk result (self.new ≡ ended self.old) }
        ensures err { OnErr result (self.new ≡ self.old) }
    {
        self.ends.push(self.literals.len())?;
        Ok(())
    }

    /// One clause more, where the last is ended.
    pub fn push_clause(&mut self, clause: &[Lit]) -> Result<(), AllocError>
        requires { self.old.begun ≡ [] }
        ensures ok { OnOk result (self.new ≡ with_row self.old clause.now) }
        ensures err { OnErr result (self.new ≡ self.old) }
    {
        let size = self.literals.len();
        self.literals.extend_from_slice(clause)?;
        match self.ends.push(self.literals.len()) {
            Ok(()) => Ok(()),
            Err(_) => {
                self.literals.truncate(size);
                Err(AllocError)
            }
        }
    }

    /// How many clauses were ended.
    pub fn len(&self) -> usize
        ensures { result ≡ length self.now.clauses }
    {
        self.ends.len()
    }

    /// Whether no clause was ended.
    pub fn is_empty(&self) -> bool
        ensures { result ≡ (length self.now.clauses == 0) }
    {
        self.len() == 0
    }

    /// Whether the last clause is ended, or none is begun.
    pub fn is_ended(&self) -> bool
        ensures { result ≡ (length self.now.begun == 0) }
    {
        let ends = self.ends.as_slice();
        start_of(ends, ends.len()) == self.literals.len()
    }

    /// The literals of a clause, by its place, counted from 0.
    pub fn clause(&self, place: usize) -> &[Lit]
        requires { place < length self.now.clauses }
        ensures { slice_get self.now.clauses place ≡ Some result.now }
    {
        row_of(self.ends.as_slice(), self.literals.as_slice(), place)
    }
}
