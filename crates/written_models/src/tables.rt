//! Tables of functions, read at a signature.

ghost use Rattle.std.specs.Prelude.{◌≡◌, List, true, map, IfOk, OnOk};
ghost use Rattle.smt_terms.specs.Ranks.{is_plain};
ghost use Rattle.smt_terms.specs.Scalars.{scalar_value};
ghost use Rattle.smt_terms.specs.Terms.{IsSort};
ghost use Rattle.smt_terms.specs.Values.{read_at};
ghost use Rattle.smt_terms.specs.declared.scalar.Scalar.{Scalar as Given};
ghost use Rattle.smt_values.specs.Tables.{table_value};
ghost use Rattle.accepted_proof.specs.Models.{AreOfKinds, IsTableOf};
ghost use Rattle.written_models.specs.Fitting.{IsRowEntered};

use crate::scalars::{are_of, scalar_at};
use smt_terms::sort::Signature;
use smt_values::{FunTable, Row, Scalars};
use std::alloc::{AllocError, Global};

/// Enters a row, if its arguments are of the signature's sorts.
fn enter(
    alloc: Global,
    signature: &Signature,
    row: &Row,
    read: &mut FunTable,
) -> Result<(), AllocError>
    requires sort { IsSort signature.now.value }
    requires plain { is_plain signature.now.value ≡ true }
    ensures { OnOk result (IsRowEntered signature.now row.now read.old read.new) }
{
    let sorts = signature.args.as_slice();
    let own = row.args.as_slice();
    if !are_of(sorts, own) {
        return Ok(());
    }
    let args = Scalars::of(alloc, own)?;
    let value = scalar_at(signature.value, row.value);
    read.set(args, value)?;
    Ok(())
}

/// The table that has for all arguments of a signature's sorts the value of a table, read at the
/// signature's. It has no other rows.
pub(crate) fn table_at(
    alloc: Global,
    signature: &Signature,
    table: &FunTable,
) -> Result<FunTable, AllocError>
    requires sort { IsSort signature.now.value }
    requires plain { is_plain signature.now.value ≡ true }
    ensures table { IfOk result (λ t. IsTableOf signature.now t) }
    ensures values { IfOk result
        (λ t. (args : List Given) → AreOfKinds signature.now.args args
        → read_at signature.now.value (table_value table.now (map scalar_value args))
        ≡ table_value t (map scalar_value args)) }
{
    let first = table.default();
    let default = scalar_at(signature.value, first);
    let mut read = FunTable::constant(alloc, default);
    for row in table.rows() {
        enter(alloc, signature, row, &mut read)?;
    }
    Ok(read)
}
