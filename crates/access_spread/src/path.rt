// The way by which a row came.

ghost use Rattle.std.specs.Prelude.{◌≡◌, Some, slice_get, IfOk, ◌<◌, ◌≤◌, length};
ghost use Rattle.access_spread.specs.Spreads.{AreDerived, IsWayOf};

use crate::graph::{Gate, Graph};
use crate::spreading::{Row, Start};
use std::alloc::{AllocError, Global};

/// The places of the edges by which a row came from its start, in order.
pub fn path_of(
    alloc: Global,
    graph: &Graph,
    gates: &[Gate],
    starts: &[Start],
    rows: &[Row],
    place: usize,
) -> Result<Vec<usize>, AllocError>
    requires derived { AreDerived graph.now gates.now starts.now rows.now }
    requires place { place < length rows.now }
    ensures { IfOk result
        (λ path. IsWayOf graph.now gates.now starts.now rows.now place path.items) }
{
    let mut path = Vec::new(alloc);
    let mut at = place;
    'rows: while let Some(link) = rows[at].from {
        path.push(link.edge)?;
        at = link.row;
    }
    path.reverse();
    Ok(path)
}
