//! Marks by place, of which the last before a place is found without a look at each.

ghost use Rattle.std.specs.Prelude.{◌≡◌, ◌<◌, ◌≤◌, true, false, length, replicate, slice_set, slice_index_or, IfOk};
ghost use Rattle.cdcl_learn.specs.Walks.{IsTop};

use std::alloc::{AllocError, Global};
use std::marker::Model;

// So many places are passed over at once where none of them was marked.
const BLOCK: usize = 16;

/// Which places are marked.
#[derive(Drop)]
pub(crate) struct Marks {
    places: Vec<bool>,
    // by block of places: whether one of them was marked
    blocks: Vec<bool>,
}

impl Model for Marks {
    ghost use Rattle.std.specs.Prelude.{Bool, List};

    ghost Value = { List Bool };

    ghost use Rattle.cdcl_learn.specs.Blocks.{HaveBlocks};

    ghost view = { λ s. s.places.items };

    ghost invariant = { λ s. HaveBlocks s.places.items s.blocks.items };
}

impl Marks {
    /// So many places, none of them marked.
    pub(crate) fn new(alloc: Global, count: usize) -> Result<Marks, AllocError>
        ensures { IfOk result (λ m. m ≡ replicate count false) }
    {
        Ok(Marks {
            places: vec![in alloc; false; count]?,
            blocks: vec![in alloc; false; count / BLOCK + 1]?,
        })
    }

    /// Whether a place is marked.
    pub(crate) fn has(&self, place: usize) -> bool
        ensures { result ≡ slice_index_or self.now place false }
    {
        place < self.places.len() && self.places[place]
    }

    /// Marks a place.
    pub(crate) fn set(&mut self, place: usize)
        requires { place < length self.old }
        ensures { self.new ≡ slice_set self.old place true }
    {
        self.places[place] = true;
        self.blocks[place / BLOCK] = true;
    }

    /// Takes a mark away.
    pub(crate) fn unset(&mut self, place: usize)
        requires { place < length self.old }
        ensures { self.new ≡ slice_set self.old place false }
    {
        self.places[place] = false;
    }

    /// The end of the last marked place before `end`, 0 where there is none.
    pub(crate) fn top(&self, end: usize) -> usize
        requires { end ≤ length self.now }
        ensures { IsTop self.now end result }
    {
        let mut top = end;
        'places: while top > 0 {
            let block = (top - 1) / BLOCK;
            if !self.blocks[block] {
                top = block * BLOCK;
            } else {
                if self.places[top - 1] {
                    break;
                }
                top -= 1;
            }
        }
        top
    }
}
