// Tables of functions.

ghost use Rattle.std.specs.Prelude.{◌≡◌, ◌≤◌, map, is_some, length, slice_get, IfOk, OnOk, OnErr};
ghost use Rattle.smt_terms.specs.Scalars.{scalar_value};
ghost use Rattle.smt_terms.specs.Terms.{IsSort};
ghost use Rattle.smt_values.specs.Readings.{table_read};
ghost use Rattle.smt_values.specs.Tables.{AreRowsRising, RowsSplit, row_at, row_matching, value_in, table_value, constant_table, entered_row, with_row};

use crate::order::compare;
use crate::scalars::read_scalar;
use plain_list::List;
use smt_terms::scalar::Scalar;
use smt_terms::sort::Sort;
use std::alloc::{AllocError, Global};
use std::marker::Model;

/// A list of truth values and words.
pub type Scalars = List<Scalar>;

/// The value of a function for a list of arguments.
#[derive(Clone, Debug, Drop)]
pub struct Row {
    pub args: Scalars,
    pub value: Scalar,
}

/// A function: a default, and the values for the lists of arguments that are held, in rising order of the lists.
#[derive(Clone, Debug, Drop)]
pub struct FunTable {
    default: Scalar,
    rows: Vec<Row>,
}

impl Model for FunTable {
    ghost use Rattle.smt_values.specs.Tables.{TableFields, AreRowsRising};

    ghost Value = { TableFields };

    ghost view = { λ t. record { default = t.default; rows = t.rows.items } };

    ghost invariant = { λ t. AreRowsRising t.rows.items };
}

/// Where a list of arguments stands, or would stand, among rising ones.
fn place_of(rows: &[Row], args: &[Scalar]) -> usize
    requires { AreRowsRising rows.now }
    ensures split { RowsSplit rows.now args.now result }
    ensures within { result ≤ length rows.now }
{
    rows.partition_point(|row| compare(row.args.as_slice(), args).is_lt())
}

/// The value in the row of these arguments, or the default.
fn value_of(rows: &[Row], default: Scalar, args: &[Scalar]) -> Scalar
    requires { AreRowsRising rows.now }
    ensures { result ≡ value_in default (row_at rows.now args.now) }
{
    let place = place_of(rows, args);
    match rows.get(place) {
        Some(row) => {
            if compare(row.args.as_slice(), args).is_eq() {
                row.value
            } else {
                default
            }
        }
        None => default,
    }
}

/// Whether the row at a place has these arguments.
fn stands_at(rows: &[Row], place: usize, args: &[Scalar]) -> bool
    ensures { result ≡ is_some (row_matching args.now (slice_get rows.now place)) }
{
    match rows.get(place) {
        Some(row) => compare(row.args.as_slice(), args).is_eq(),
        None => false,
    }
}

/// Puts a row in its place.
fn enter(rows: &mut Vec<Row>, row: Row) -> Result<(), AllocError>
    requires { AreRowsRising rows.old.items }
    ensures ok { OnOk result (rows.new.items ≡ entered_row rows.old.items row) }
    ensures err { OnErr result (rows.new.items ≡ rows.old.items) }
{
    let place = place_of(rows.as_slice(), row.args.as_slice());
    let held = stands_at(rows.as_slice(), place, row.args.as_slice());
    if held {
        rows[place] = row;
        return Ok(());
    }
    rows.insert(place, row)?;
    Ok(())
}

impl FunTable {
    /// The function with this value for all arguments; takes no memory.
    pub fn constant(alloc: Global, default: Scalar) -> FunTable
        ensures { result ≡ constant_table default }
    {
        FunTable {
            default,
            rows: Vec::new(alloc),
        }
    }

    /// The value for arguments that no row has.
    pub fn default(&self) -> Scalar
        ensures { result ≡ self.now.default }
    {
        self.default
    }

    /// The rows, in rising order of their arguments.
    pub fn rows(&self) -> &[Row]
        ensures rows { result.now ≡ self.now.rows }
        ensures rising { AreRowsRising self.now.rows }
    {
        self.rows.as_slice()
    }

    /// The value for these arguments; takes no memory.
    pub fn at(&self, args: &[Scalar]) -> Scalar
        ensures { scalar_value result ≡ table_value self.now (map scalar_value args.now) }
    {
        value_of(self.rows.as_slice(), self.default, args)
    }

    /// Gives a list of arguments a value.
    pub fn set(&mut self, args: Scalars, value: Scalar) -> Result<(), AllocError>
        ensures ok { OnOk result (self.new ≡ with_row self.old args value) }
        ensures err { OnErr result (self.new ≡ self.old) }
    {
        enter(&mut self.rows, Row { args, value })
    }

    /// The table with its values read at a sort.
    pub fn read(&self, alloc: Global, sort: Sort) -> Result<FunTable, AllocError>
        requires { IsSort sort }
        ensures { IfOk result (λ t. t ≡ table_read sort self.now) }
    {
        let default = read_scalar(sort, self.default);
        let mut rows = Vec::new(alloc);
        for row in self.rows.as_slice() {
            let args = Scalars::of(alloc, row.args.as_slice())?;
            let value = read_scalar(sort, row.value);
            rows.push(Row { args, value })?;
        }
        Ok(FunTable { default, rows })
    }

    /// An equal table.
    pub fn copy(&self) -> Result<FunTable, AllocError>
        ensures { IfOk result (λ t. t ≡ self.now) }
    {
        self.clone()
    }
}
