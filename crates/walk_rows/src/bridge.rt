// What stands before and behind a walk.

ghost use Rattle.std.specs.Prelude.{◌<◌, IfOk, length};
ghost use Rattle.smt_terms.specs.Bits.{image_in};
ghost use Rattle.bit_blast.specs.Assigned.{assigned};
ghost use Rattle.smt_values.specs.Held.{interpretation_of};
ghost use Rattle.term_reach.specs.Reach.{IsReach};
ghost use Rattle.access_tables.specs.Leading.{leads};
ghost use Rattle.access_tables.specs.Modeled.{IsModel};
ghost use Rattle.access_walk.specs.Walked.{IsWalkable, IsWalkedTable};
ghost use Rattle.walk_rows.specs.Fitting.{AreUnlinked, IsReady};

use access_tables::links::Links;
use access_tables::table::AccessTable;
use bit_blast::Assignment;
use model_build::build;
use smt_terms::bits::Bits;
use smt_terms::node::TermId;
use smt_terms::terms::Terms;
use smt_values::interp::Interp;
use std::alloc::{AllocError, Global};
use term_reach::{Reached, reach};

/// What these terms reach.
pub fn reached_from(
    alloc: Global,
    terms: &Terms,
    bits: &Bits,
    live: &[TermId],
) -> Result<Reached, AllocError>
    requires unlinked { AreUnlinked bits.now }
    requires walkable { IsWalkable terms.now.nodes bits.now live.now }
    ensures { IfOk result
        (λ r. IsReach (leads terms.now.nodes (image_in bits.now)) live.now r) }
{
    let _count = terms.len();
    let links = Links::new(alloc, bits);
    let mut reached = Reached::new(alloc);
    reach(alloc, terms, &links, live, &mut reached)?;
    Ok(reached)
}

/// The interpretation of a table that a walk from these terms has answered.
pub fn model_of(
    alloc: Global,
    terms: &Terms,
    bits: &Bits,
    assignment: &Assignment,
    live: &[TermId],
    table: &AccessTable,
) -> Result<Interp, AllocError>
    requires unlinked { AreUnlinked bits.now }
    requires walkable { IsWalkable terms.now.nodes bits.now live.now }
    requires ready { IsReady terms.now.nodes bits.now (assigned assignment.now) }
    requires walked { IsWalkedTable terms.now.nodes bits.now (assigned assignment.now) live.now
        table.now }
    ensures { IfOk result
        (λ m. IsModel terms.now.nodes bits.now (assigned assignment.now) table.now
        (interpretation_of m)) }
{
    let _count = terms.len();
    build(alloc, terms, bits, assignment, table)
}
