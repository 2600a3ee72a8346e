//! What is kept for pairs of a lower and an upper term.

ghost use Rattle.std.specs.Prelude.{◌≡◌, ◌≤◌, ◌<◌, ◌+◌, ◌∷◌, ℕ, Option, None, [], length, OnOk, OnErr};
ghost use Rattle.proof_log.specs.Pairs.{kept_for, AreRising, Splits, with_pair, found, flat};

use smt_terms::node::TermId;
use std::alloc::{AllocError, Global};
use std::marker::Model;

/// The lower terms of one upper term, in rising order, each with what is kept for the pair.
#[derive(Debug, Drop)]
struct Row<V> {
    items: Vec<(TermId, V)>,
}

impl<V> Model for Row<V> {
    ghost use Rattle.std.specs.Prelude.{ℕ, List};
    ghost use Rattle.proof_log.specs.Pairs.{AreRising};

    ghost Value = { List (ℕ × V) };

    ghost view = { λ r. r.items.items };

    ghost invariant = { λ r. AreRising r.items.items };
}

// Where a lower term stands, or would stand.
fn place_of<V>(items: &[(TermId, V)], lower: TermId) -> usize
    requires { AreRising items.now }
    ensures splits { Splits items.now lower result }
    ensures within { result ≤ length items.now }
{
    items.partition_point(|item| item.0 < lower)
}

// What is kept for a lower term.
fn kept_in<V: Copy>(items: &[(TermId, V)], lower: TermId) -> Option<V>
    requires { AreRising items.now }
    ensures { result ≡ kept_for items.now lower }
{
    let place = place_of(items, lower);
    match items.get(place) {
        Some(item) => { if item.0 == lower { Some(item.1) } else { None } }
        None => None,
    }
}

impl<V: Copy> Row<V> {
    fn none(alloc: Global) -> Row<V>
        ensures { result ≡ [] }
    {
        Row {
            items: Vec::new(alloc),
        }
    }

    fn get(&self, lower: TermId) -> Option<V>
        ensures { result ≡ kept_for self.now lower }
    {
        kept_in(self.items.as_slice(), lower)
    }

    fn insert(&mut self, lower: TermId, value: V) -> Result<(), AllocError>
        requires new { kept_for self.old lower ≡ None }
        ensures ok { OnOk result ((t : ℕ)
            → kept_for self.new t ≡ kept_for ((lower, value) ∷ self.old) t) }
        ensures err { OnErr result (self.new ≡ self.old) }
    {
        let place = place_of(self.items.as_slice(), lower);
        self.items.insert(place, (lower, value))?;
        Ok(())
    }
}

/// What is kept for pairs of a lower and an upper term.
#[derive(Debug, Drop)]
pub struct Pairs<V> {
    rows: Vec<Row<V>>,
    alloc: Global,
}

impl<V> Model for Pairs<V> {
    ghost use Rattle.std.specs.Prelude.{ℕ, List};
    ghost use Rattle.proof_log.specs.Pairs.{flat};

    ghost Value = { List (ℕ × (ℕ × V)) };

    ghost view = { λ p. flat 0 p.rows.items };
}

// One row more.
fn add_row<V: Copy>(alloc: Global, rows: &mut Vec<Row<V>>) -> Result<(), AllocError>
    ensures same { flat 0 rows.new.items ≡ flat 0 rows.old.items }
    ensures ok { OnOk result (length rows.new.items ≡ length rows.old.items + 1) }
{
    let row = Row::none(alloc);
    rows.push(row)?;
    Ok(())
}

// Makes room for the row of an upper term.
fn grow<V: Copy>(alloc: Global, rows: &mut Vec<Row<V>>, upper: TermId) -> Result<(), AllocError>
    ensures same { flat 0 rows.new.items ≡ flat 0 rows.old.items }
    ensures room { OnOk result (upper < length rows.new.items) }
{
    let wanted = upper as usize + 1;
    for _row in rows.len()..wanted {
        add_row(alloc, rows)?;
    }
    Ok(())
}

impl<V: Copy> Pairs<V> {
    /// Nothing is kept; takes no memory.
    pub fn new(alloc: Global) -> Pairs<V>
        ensures { result ≡ [] }
    {
        Pairs {
            rows: Vec::new(alloc),
            alloc,
        }
    }

    /// What is kept for a pair, if there is something; takes no memory.
    pub fn get(&self, lower: TermId, upper: TermId) -> Option<V>
        ensures { result ≡ found self.now lower upper }
    {
        match self.rows.get(upper as usize) {
            Some(row) => row.get(lower),
            None => None,
        }
    }

    /// Keeps this for a pair for which nothing is kept.
    pub fn insert(&mut self, lower: TermId, upper: TermId, value: V) -> Result<(), AllocError>
        requires new { found self.old lower upper ≡ None }
        ensures ok { OnOk result ((t u : ℕ)
            → found self.new t u ≡ with_pair (found self.old) lower upper value t u) }
        ensures err { OnErr result (self.new ≡ self.old) }
    {
        grow(self.alloc, &mut self.rows, upper)?;
        self.rows[upper as usize].insert(lower, value)
    }
}
