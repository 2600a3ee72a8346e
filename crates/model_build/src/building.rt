// From a closed table to an interpretation.

ghost use Rattle.std.specs.Prelude.{Contains, IfOk};
ghost use Rattle.bit_blast.specs.Assigned.{assigned};
ghost use Rattle.smt_values.specs.Held.{interpretation_of};
ghost use Rattle.access_tables.specs.Encoded.{HaveBits, AreSatisfied};
ghost use Rattle.access_tables.specs.Held.{IsClosedUnder};
ghost use Rattle.access_tables.specs.Modeled.{IsModel};
ghost use Rattle.model_build.specs.Sorted.{IsWellSorted};

use crate::entering::enter_terms;
use crate::filling::{give_defaults, give_elements};
use access_tables::table::AccessTable;
use bit_blast::Assignment;
use smt_terms::bits::Bits;
use smt_terms::terms::Terms;
use smt_values::interp::Interp;
use std::alloc::{AllocError, Global};

/// An interpretation in which each term of the table in which no witness stands has the
/// assignment's value, or the table's words. A value is set for exactly those declarations that a
/// term of the table without an image names: of a constant one of its sort, of a function a table of
/// its signature, whose rows rise.
pub fn build(
    alloc: Global,
    terms: &Terms,
    bits: &Bits,
    assignment: &Assignment,
    table: &AccessTable,
) -> Result<Interp, AllocError>
    requires bits { HaveBits terms.now.nodes bits.now (Contains table.now.terms) }
    requires satisfied { AreSatisfied terms.now.nodes bits.now (assigned assignment.now)
        (Contains table.now.terms) }
    requires closed { IsClosedUnder terms.now.nodes bits.now (assigned assignment.now) table.now }
    ensures model { IfOk result
        (λ m. IsModel terms.now.nodes bits.now (assigned assignment.now) table.now
        (interpretation_of m)) }
    ensures sorted { IfOk result
        (λ m. IsWellSorted terms.now.nodes bits.now table.now.terms m) }
{
    let _count = terms.len();
    let mut draft = enter_terms(alloc, terms, bits, assignment, table)?;
    give_defaults(alloc, terms, bits, assignment, table, &mut draft)?;
    give_elements(terms, bits, assignment, table, &mut draft)?;
    draft.finish(alloc)
}
