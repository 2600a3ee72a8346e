//! Lists of places, linked through the places themselves, so that moving a place takes no memory.

ghost use Rattle.std.specs.Prelude.{◌≡◌, ◌≢◌, ◌-◌, ◌<◌, ◌≤◌, ℕ, length, slice_set, slice_index, slice_index_or, [], ◌∷◌, ◌++◌, replicate, IfOk, OnOk, OnErr, sum_by};
ghost use Rattle.cdcl_core.specs.Chains.{first_of, rest_of, times};

use std::alloc::{AllocError, Global};
use std::marker::Model;

// There are no more lists than this, and no more places, so that a number of either takes 4 bytes.
const MOST: usize = 0x1_0000_0000;

/// What stands at a place: the literal's code that it watches, and the place that follows in its list.
#[derive(Clone, Copy)]
struct Place {
    literal: u32,
    next: u32,
}

/// Lists of places, and the literal of each place. A place stands in at most one list.
#[derive(Drop)]
pub(crate) struct WatchLists {
    places: Vec<Place>,
    heads: Vec<u32>,
    // by clause, two places to each: where the last scan of its literals ended; a scan is right wherever it starts
    starts: Vec<u32>,
}

impl Model for WatchLists {
    ghost use Rattle.cdcl_core.specs.Lists.{Lists};

    ghost Value = { Lists };

    ghost use Rattle.cdcl_core.specs.Tables.{shown, IsWell, AreFew, HaveStarts};

    ghost view = { λ s. shown s.places.items s.heads.items };

    ghost invariant = { λ s. IsWell s.places.items s.heads.items
        × (AreFew s.places.items s.heads.items × HaveStarts s.places.items s.starts.items) };
}

// Has at least `count` elements, and none fewer than before.
fn lengthen_starts(starts: &mut Vec<u32>, count: usize) -> Result<(), AllocError>
    ensures more { length starts.old.items ≤ length starts.new.items }
    ensures enough { OnOk result (count ≤ length starts.new.items) }
{
    if starts.len() < count {
        starts.resize(count, 0)?;
    }
    Ok(())
}

impl WatchLists {
    /// No list, and no place but the first, which stands for none.
    pub(crate) fn new(alloc: Global) -> Result<WatchLists, AllocError>
        ensures lists { IfOk result (λ w. w.lists ≡ []) }
        ensures literals { IfOk result (λ w. w.literals ≡ []) }
    {
        Ok(WatchLists {
            places: Vec::new(alloc),
            heads: Vec::new(alloc),
            starts: Vec::new(alloc),
        })
    }

    /// The literal of a place.
    #[inline(always)]
    pub(crate) fn literal(&self, place: usize) -> usize
        requires { place < length self.now.literals }
        ensures { result ≡ slice_index self.now.literals place }
    {
        self.places[place].literal as usize
    }

    /// Gives a place another literal.
    #[inline(always)]
    pub(crate) fn set_literal(&mut self, place: usize, literal: usize)
        requires place { place < length self.old.literals }
        requires literal { literal < length self.old.lists }
        ensures { self.new
            ≡ record {
              lists = self.old.lists;
              literals = slice_set self.old.literals place literal;
            } }
    {
        let next = self.places[place].next;
        self.places[place] = Place {
            literal: literal as u32,
            next,
        };
    }

    /// The first place of a list, or 0 where it is empty.
    #[inline(always)]
    pub(crate) fn first(&self, list: usize) -> usize
        requires { list < length self.now.lists }
        ensures value { result ≡ first_of (slice_index_or self.now.lists list []) }
        ensures once { (q : ℕ) → sum_by (times q) self.now.lists ≤ 1 }
        ensures empty { result ≡ 0 → slice_index_or self.now.lists list [] ≡ [] }
    {
        self.heads[list] as usize
    }

    /// Moves the first place of the list `from` to the front of the list `to`.
    #[inline(always)]
    pub(crate) fn move_first(&mut self, from: usize, to: usize)
        requires from { from < length self.old.lists }
        requires to { to < length self.old.lists }
        requires apart { from ≢ to }
        requires pending { 0 < first_of (slice_index_or self.old.lists from []) }
        ensures { self.new
            ≡ record {
              lists = slice_set
                  (slice_set self.old.lists from (rest_of (slice_index_or self.old.lists from []))) to
                  (first_of (slice_index_or self.old.lists from [])
                  ∷ slice_index_or self.old.lists to []);
              literals = self.old.literals;
            } }
    {
        let place = self.heads[from];
        let after = self.places[place as usize].next;
        self.places[place as usize].next = self.heads[to];
        self.heads[from] = after;
        self.heads[to] = place;
    }

    /// Moves `place`, the first of the list `from`, to the front of the list `to`: the place that is the first of `from`
    /// now, or 0.
    #[inline(always)]
    pub(crate) fn pass(&mut self, from: usize, to: usize, place: usize) -> usize
        requires from { from < length self.old.lists }
        requires to { to < length self.old.lists }
        requires apart { from ≢ to }
        requires pending { 0 < first_of (slice_index_or self.old.lists from []) }
        requires first { place ≡ first_of (slice_index_or self.old.lists from []) }
        ensures moved { self.new
            ≡ record {
              lists = slice_set
                  (slice_set self.old.lists from (rest_of (slice_index_or self.old.lists from []))) to
                  (first_of (slice_index_or self.old.lists from [])
                  ∷ slice_index_or self.old.lists to []);
              literals = self.old.literals;
            } }
        ensures next { result ≡ first_of (slice_index_or self.new.lists from []) }
        ensures once { (q : ℕ) → sum_by (times q) self.old.lists ≤ 1 }
    {
        let after = self.places[place].next;
        self.places[place].next = self.heads[to];
        self.heads[from] = after;
        self.heads[to] = place as u32;
        after as usize
    }

    /// Where the last scan of the clause of this place ended.
    #[inline(always)]
    pub(crate) fn start(&self, place: usize) -> usize
        requires { place < length self.now.literals }
    {
        self.starts[place / 2] as usize
    }

    // Keeps where a scan of the clause of this place ended.
    #[inline(always)]
    fn set_start(&mut self, place: usize, start: usize)
        requires { place < length self.old.literals }
        ensures { self.new ≡ self.old }
    {
        self.starts[place / 2] = (start % MOST) as u32;
    }

    /// Gives a place another literal, which a scan of its clause found at `start`.
    #[inline(always)]
    pub(crate) fn rewatch(&mut self, place: usize, literal: usize, start: usize)
        requires place { place < length self.old.literals }
        requires literal { literal < length self.old.lists }
        ensures { self.new
            ≡ record {
              lists = self.old.lists;
              literals = slice_set self.old.literals place literal;
            } }
    {
        self.set_start(place, start);
        self.set_literal(place, literal);
    }

    /// Exchanges two lists.
    #[inline(always)]
    pub(crate) fn exchange(&mut self, a: usize, b: usize)
        requires a { a < length self.old.lists }
        requires b { b < length self.old.lists }
        ensures { self.new
            ≡ record {
              lists = slice_set
                  (slice_set self.old.lists a (slice_index_or self.old.lists b [])) b
                  (slice_index_or self.old.lists a []);
              literals = self.old.literals;
            } }
    {
        let first = self.heads[a];
        self.heads[a] = self.heads[b];
        self.heads[b] = first;
    }

    /// Takes the first place out of a list.
    pub(crate) fn pop_first(&mut self, list: usize)
        requires list { list < length self.old.lists }
        requires pending { 0 < first_of (slice_index_or self.old.lists list []) }
        ensures { self.new
            ≡ record {
              lists = slice_set self.old.lists list
                  (rest_of (slice_index_or self.old.lists list []));
              literals = self.old.literals;
            } }
    {
        let place = self.heads[list];
        self.heads[list] = self.places[place as usize].next;
    }

    /// Puts a place that stands in no list to the front of one.
    pub(crate) fn push_first(&mut self, list: usize, place: usize)
        requires list { list < length self.old.lists }
        requires place { place < length self.old.literals }
        requires named { 0 < place }
        requires idle { sum_by (times place) self.old.lists ≡ 0 }
        ensures pushed { self.new
            ≡ record {
              lists = slice_set self.old.lists list
                  (place ∷ slice_index_or self.old.lists list []);
              literals = self.old.literals;
            } }
        ensures once { (q : ℕ) → sum_by (times q) self.new.lists ≤ 1 }
    {
        self.places[place].next = self.heads[list];
        self.heads[list] = place as u32;
    }

    /// Empties a list: its places stand in none.
    pub(crate) fn empty(&mut self, list: usize)
        requires { list < length self.old.lists }
        ensures { self.new
            ≡ record { lists = slice_set self.old.lists list []; literals = self.old.literals } }
    {
        self.heads[list] = 0;
    }

    /// Has at least `count` lists: the new ones are empty.
    pub(crate) fn grow_lists(&mut self, count: usize) -> Result<(), AllocError>
        ensures ok { OnOk result
            (self.new ≡ record {
              lists = self.old.lists
                  ++ replicate (count - length self.old.lists) [];
              literals = self.old.literals;
            }) }
        ensures err { OnErr result (self.new ≡ self.old) }
    {
        if self.heads.len() < count {
            if count > MOST {
                return Err(AllocError);
            }
            self.heads.resize(count, 0)?;
        }
        Ok(())
    }

    /// Has at least `count` places: the new ones stand in no list and have the literal 0.
    pub(crate) fn grow_places(&mut self, count: usize) -> Result<(), AllocError>
        ensures ok { OnOk result
            (self.new ≡ record {
              lists = self.old.lists;
              literals = self.old.literals
                  ++ replicate (count - length self.old.literals) 0;
            }) }
        ensures err { OnErr result (self.new ≡ self.old) }
    {
        if self.places.len() < count {
            if count > MOST {
                return Err(AllocError);
            }
            lengthen_starts(&mut self.starts, count / 2 + 1)?;
            self.places.resize(
                count,
                Place {
                    literal: 0,
                    next: 0,
                },
            )?;
        }
        Ok(())
    }
}
