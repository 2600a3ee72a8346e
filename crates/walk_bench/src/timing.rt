// Walks over terms with bits of their own, under an assignment that makes no lemma false.

ghost use Rattle.std.specs.Prelude.{Contains};
ghost use Rattle.bit_blast.specs.Assigned.{assigned};
ghost use Rattle.smt_terms.specs.Bits.{image_in};
ghost use Rattle.term_reach.specs.Reach.{IsReach};
ghost use Rattle.access_tables.specs.Leading.{leads};
ghost use Rattle.access_tables.specs.Held.{assigned_value};
ghost use Rattle.access_walk.specs.Maps.{AreLinked};
ghost use Rattle.access_walk.specs.Searched.{IsPrepared};
ghost use Rattle.access_walk.specs.Walked.{IsWalkable, HaveWordValues};
ghost use Rattle.walk_rows.specs.Fitting.{AreUnlinked};

use access_walk::walking::{Prepared, Walked, Workspace, prepare, walk};
use bit_blast::Assignment;
use smt_terms::bits::Bits;
use smt_terms::node::TermId;
use smt_terms::terms::Terms;
use std::alloc::{AllocError, Global};
use std::io;
use std::time::{Clock, Duration, Instant};
use term_reach::Reached;
use walk_rows::bridge::reached_from;
use walk_rows::fitting::{is_ready, is_walkable};

/// The rows of a walk. None where it finds false lemmas.
fn rows_of(
    alloc: Global,
    terms: &Terms,
    bits: &Bits,
    assignment: &Assignment,
    live: &[TermId],
    reached: &Reached,
    prepared: &Prepared,
    workspace: &mut Workspace,
) -> Result<Option<u64>, AllocError>
    requires walkable { IsWalkable terms.now.nodes bits.now live.now }
    requires reach { IsReach (leads terms.now.nodes (image_in bits.now)) live.now reached.now }
    requires prepared { IsPrepared terms.now.nodes bits.now reached.now prepared.now }
    requires values { HaveWordValues terms.now.nodes bits.now (assigned assignment.now) }
    requires linked { AreLinked (image_in bits.now)
        (assigned_value terms.now.nodes bits.now (assigned assignment.now)) }
{
    match walk(
        alloc, terms, bits, assignment, live, reached, prepared, workspace,
    )? {
        Walked::Table(table) => Ok(Some(table.rows().len() as u64)),
        Walked::Conflicts(_) => Ok(None),
    }
}

/// The rows of a walk, and the time of so many.
fn walk_times<R: Clock>(
    rt: &R,
    alloc: Global,
    terms: &Terms,
    bits: &Bits,
    assignment: &Assignment,
    live: &[TermId],
    reached: &Reached,
    prepared: &Prepared,
    times: u32,
) -> io::Result<Option<(u64, Duration)>>
    requires walkable { IsWalkable terms.now.nodes bits.now live.now }
    requires reach { IsReach (leads terms.now.nodes (image_in bits.now)) live.now reached.now }
    requires prepared { IsPrepared terms.now.nodes bits.now reached.now prepared.now }
    requires values { HaveWordValues terms.now.nodes bits.now (assigned assignment.now) }
    requires linked { AreLinked (image_in bits.now)
        (assigned_value terms.now.nodes bits.now (assigned assignment.now)) }
{
    let mut workspace = Workspace::new(alloc);
    let mut rows = None;
    let start = Instant::now(rt)?;
    for _time in 0..times {
        rows = rows_of(
            alloc,
            terms,
            bits,
            assignment,
            live,
            reached,
            prepared,
            &mut workspace,
        )?;
    }
    let time = start.elapsed(rt)?;
    Ok(rows.map(|count| (count, time)))
}

/// The rows of a walk, and the time of so many over one preparation. None where a walk cannot be
/// called for, or finds false lemmas.
pub fn walk_often<R: Clock>(
    rt: &R,
    alloc: Global,
    terms: &Terms,
    bits: &Bits,
    assignment: &Assignment,
    live: &[TermId],
    times: u32,
) -> io::Result<Option<(u64, Duration)>>
    requires unlinked { AreUnlinked bits.now }
{
    if !is_walkable(alloc, terms, bits, live)? {
        return Ok(None);
    }
    if !is_ready(terms, bits, assignment) {
        return Ok(None);
    }
    let reached = reached_from(alloc, terms, bits, live)?;
    let prepared = prepare(alloc, terms, bits, live, &reached)?;
    walk_times(
        rt, alloc, terms, bits, assignment, live, &reached, &prepared, times,
    )
}
