//! Which learnt clauses to drop: the worse half by glue, where many are held.

use std::alloc::{AllocError, Global};

/// A learnt clause that forces no literal of the trail.
#[derive(Clone, Copy)]
pub struct Learnt {
    /// The number of decision levels of its literals when it was learnt.
    pub glue: u32,
    /// The number of its literals.
    pub size: u32,
}

/// Whether more learnt clauses are held than so many conflicts ask for.
pub const fn drops_are_due(conflicts: u64, held: u64) -> bool {
    held > 1_000 + conflicts / 2_000 * 60
}

// The worth of a learnt clause, the best first.
#[derive(Clone, Copy, PartialEq, Eq, PartialOrd, Ord)]
struct Rank {
    glue: u32,
    size: u32,
    // how many came after it
    age: usize,
    place: usize,
}

/// The places of the worse half of the row, in which the oldest comes first, rounded down: those of the greatest glue, among
/// equals the longest, and then the oldest. None has a glue of 2 or less, or at most two literals.
pub fn worse_half(alloc: Global, row: &[Learnt]) -> Result<Vec<usize>, AllocError> {
    let mut ranks: Vec<Rank> = Vec::new(alloc);
    for place in 0..row.len() {
        let learnt = row[place];
        if learnt.glue > 2 && learnt.size > 2 {
            ranks.push(Rank {
                glue: learnt.glue,
                size: learnt.size,
                age: row.len() - 1 - place,
                place,
            })?;
        }
    }
    ranks.sort_unstable();
    let kept = ranks.len() - ranks.len() / 2;
    let mut places = Vec::new(alloc);
    for rank in &ranks[kept..] {
        places.push(rank.place)?;
    }
    Ok(places)
}
