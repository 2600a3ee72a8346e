//! Entries in order, most of them in pieces that never change again and that others may share.
ghost use Rattle.std.specs.Prelude.{◌≡◌, true, [], ◌∷◌, ◌++◌, length, vec_len, slice_get, option_copied, OnOk, OnErr, IfOk};
ghost use Rattle.shared_history.specs.Filed.{AreWhole, joined};

use crate::law::NoMemory;
use std::alloc::Global;
use std::marker::Model;
use std::mem;
use std::sync::Arc;

/// The number of entries in a frozen piece.
pub(crate) const PIECE: usize = 256;

/// Frozen pieces of `PIECE` entries each, and then an open piece of at most as many.
#[derive(Drop)]
pub struct Entries<E> {
    pub(crate) frozen: Vec<Arc<Vec<E>, Global>>,
    pub(crate) last: Vec<E>,
    pub(crate) len: usize,
}

impl<E> Model for Entries<E> {
    ghost use Rattle.shared_history.specs.Filed.{Filed, filed, IsFiled};

    ghost Value = { Filed E };

    ghost view = { λ e. filed e.frozen e.last e.len };

    ghost invariant = { λ e. IsFiled e.frozen e.last e.len };
}

impl<E: Drop> Entries<E> {
    pub fn new(alloc: Global) -> Entries<E>
        ensures { result.items ≡ [] }
    {
        Entries {
            frozen: Vec::new(alloc),
            last: Vec::new(alloc),
            len: 0,
        }
    }

    pub fn len(&self) -> usize
        ensures { result ≡ length self.now.items }
    {
        self.len
    }

    /// The entry at this place, or `None` past the end.
    pub fn get(&self, at: usize) -> Option<&E>
        ensures { option_copied result ≡ slice_get self.now.items at }
    {
        if self.len <= at {
            return None;
        }
        let piece = at / PIECE;
        let count = self.frozen.len();
        if piece < count {
            Some(&self.frozen[piece][at % PIECE])
        } else {
            Some(&self.last[at - count * PIECE])
        }
    }

    /// Takes the memory that one more entry needs.
    pub fn make_room(&mut self, alloc: Global) -> Result<(), NoMemory>
        ensures items { self.new.items ≡ self.old.items }
        ensures room { OnOk result (self.new.room ≡ true) }
    {
        if self.len == usize::MAX {
            return Err(NoMemory);
        }
        if self.last.len() == PIECE {
            freeze(alloc, &mut self.frozen, &mut self.last)?;
        }
        match self.last.reserve(1) {
            Ok(()) => Ok(()),
            Err(_) => Err(NoMemory),
        }
    }

    pub fn push(&mut self, entry: E)
        requires { self.old.room ≡ true }
        ensures { self.new.items ≡ self.old.items ++ entry ∷ [] }
    {
        self.last.push_reserved(entry);
        self.len += 1;
    }
}

// Freezes the last piece, or leaves it.
fn freeze<E: Drop>(
    alloc: Global,
    frozen: &mut Vec<Arc<Vec<E>, Global>>,
    last: &mut Vec<E>,
) -> Result<(), NoMemory>
    requires { (vec_len last.old ≡ 256) × AreWhole frozen.old.items }
    ensures items { joined frozen.new.items ++ last.new.items ≡ joined frozen.old.items
        ++ last.old.items }
    ensures whole { AreWhole frozen.new.items }
    ensures ok { OnOk result (vec_len last.new ≡ 0) }
    ensures err { OnErr result (vec_len last.new ≡ 256) }
{
    if frozen.reserve(1).is_err() {
        return Err(NoMemory);
    }
    let full = mem::replace(last, Vec::new(alloc));
    match Arc::new(alloc, full) {
        Ok(piece) => {
            frozen.push_reserved(piece);
            Ok(())
        }
        Err(failed) => {
            *last = failed.value;
            Err(NoMemory)
        }
    }
}
