//! Entries that were read.
ghost use Rattle.std.specs.Prelude.{◌≡◌, ◌+◌, ◌*◌, ◌==◌, ◌≤◌, length, drop, slice_get, option_copied, IfOk};
ghost use Rattle.shared_history.specs.Filed.{joined, AreWhole};

use crate::entries::{Entries, PIECE};
use crate::law::{Law, NoMemory};
use std::alloc::Global;
use std::marker::Model;
use std::sync::Arc;

/// Entries in their order. Contracts see them as a list.
#[derive(Drop)]
pub struct Pieces<E> {
    // the entries before the first one lie in its piece
    pub(crate) skip: usize,
    pub(crate) entries: Entries<E>,
}

impl<E> Model for Pieces<E> {
    ghost use Rattle.std.specs.Prelude.{◌<◌, ◌≤◌, List, length, drop};

    ghost Value = { List E };

    ghost view = { λ p. drop p.skip p.entries.items };

    ghost invariant = { λ p. (p.skip < 256) × (p.skip ≤ length p.entries.items) };
}

impl<E: Drop> Pieces<E> {
    pub(crate) fn whole(entries: Entries<E>) -> Pieces<E>
        ensures { result ≡ entries.items }
    {
        Pieces { skip: 0, entries }
    }

    /// How many there are.
    pub fn len(&self) -> usize
        ensures { result ≡ length self.now }
    {
        self.entries.len() - self.skip
    }

    /// There are none.
    pub fn is_empty(&self) -> bool
        ensures { result ≡ (length self.now == 0) }
    {
        self.len() == 0
    }

    /// Of how many pieces they come. Each but the first and the last gives 256 of them, and these two at least one. It takes no
    /// memory.
    pub fn parts(&self) -> usize
        ensures none { length self.now ≡ 0 → result ≡ 0 }
        ensures enough { length self.now ≤ result * 256 }
        ensures no_more { result * 256 ≤ length self.now + 510 }
    {
        let count = self.entries.len();
        if count == self.skip {
            0
        } else {
            (count - 1) / PIECE + 1
        }
    }

    /// The entry at this place, or `None` past the end.
    pub fn get(&self, at: usize) -> Option<&E>
        ensures { option_copied result ≡ slice_get self.now at }
    {
        let count = self.entries.len();
        if at < count - self.skip {
            self.entries.get(self.skip + at)
        } else {
            None
        }
    }
}

/// The entries from a place on. It shares frozen pieces, and copies what it needs of the last one.
pub(crate) fn shared_from<L: Law>(
    law: &L,
    alloc: Global,
    entries: &Entries<L::Entry>,
    from: u64,
) -> Result<Pieces<L::Entry>, NoMemory>
    requires { from ≤ length entries.now.items }
    ensures { IfOk result (λ p. p ≡ drop from entries.now.items) }
{
    let from = from as usize;
    let first = from / PIECE;
    let count = entries.frozen.len();
    if first < count {
        let frozen = shares(alloc, entries.frozen.as_slice(), first)?;
        let last = copies(law, alloc, entries.last.as_slice(), 0)?;
        let len = entries.len - first * PIECE;
        Ok(Pieces {
            skip: from % PIECE,
            entries: Entries { frozen, last, len },
        })
    } else {
        let last = copies(law, alloc, entries.last.as_slice(), from - count * PIECE)?;
        let len = entries.len - from;
        let frozen = Vec::new(alloc);
        Ok(Pieces::whole(Entries { frozen, last, len }))
    }
}

// More owners of the pieces from one on.
fn shares<E: Drop>(
    alloc: Global,
    pieces: &[Arc<Vec<E>, Global>],
    first: usize,
) -> Result<Vec<Arc<Vec<E>, Global>>, NoMemory>
    requires { AreWhole pieces.now × (first ≤ length pieces.now) }
    ensures { IfOk result (λ v. (joined v.items ≡ joined (drop first pieces.now))
        × AreWhole v.items) }
{
    let rest = &pieces[first..];
    let mut shares = Vec::new(alloc);
    for piece in rest {
        if shares.reserve(1).is_err() {
            return Err(NoMemory);
        }
        match Arc::try_clone(piece) {
            Ok(share) => shares.push_reserved(share),
            Err(_) => return Err(NoMemory),
        }
    }
    Ok(shares)
}

// Copies of the entries from a place on.
fn copies<L: Law>(
    law: &L,
    alloc: Global,
    entries: &[L::Entry],
    from: usize,
) -> Result<Vec<L::Entry>, NoMemory>
    requires { from ≤ length entries.now }
    ensures { IfOk result (λ v. v.items ≡ drop from entries.now) }
{
    let rest = &entries[from..];
    let mut copies = Vec::new(alloc);
    for entry in rest {
        if copies.reserve(1).is_err() {
            return Err(NoMemory);
        }
        copies.push_reserved(law.copy(alloc, entry)?);
    }
    Ok(copies)
}
