//! Rows of bits moved by a fixed number of places, which take no gate.

ghost use Rattle.std.specs.Prelude.{◌≡◌, ◌≤◌, IfOk, length};
ghost use Rattle.circ_plain.specs.Shifts.{moved};

use crate::rows::repeated;
use cnf_base::Lit;
use std::alloc::{AllocError, Global};

/// The direction in which bits move.
#[derive(Clone, Copy, Debug, PartialEq, Eq)]
pub enum Direction {
    /// Towards the higher places.
    Up,
    /// Towards the lower places.
    Down,
}

/// The row moved by a distance, with `fill` at the places that are left.
pub(crate) fn moved(
    alloc: Global,
    way: Direction,
    fill: Lit,
    distance: usize,
    row: &[Lit],
) -> Result<Vec<Lit>, AllocError>
    requires { distance ≤ length row.now }
    ensures { IfOk result (λ r. r.items ≡ moved way fill distance row.now) }
{
    match way {
        Direction::Up => {
            let mut shifted = repeated(alloc, fill, distance)?;
            shifted.extend_from_slice(&row[..row.len() - distance])?;
            Ok(shifted)
        }
        Direction::Down => {
            let mut shifted = Vec::from_slice(alloc, &row[distance..])?;
            shifted.resize(row.len(), fill)?;
            Ok(shifted)
        }
    }
}
