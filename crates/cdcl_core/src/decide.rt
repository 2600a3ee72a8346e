//! Decisions, and the way back to a lower decision level.

ghost use Rattle.std.specs.Prelude.{ℕ, ◌≡◌, ◌+◌, ◌<◌, ◌≤◌, ◌++◌, [], ◌∷◌, length, filter, nat_le, slice_index_or, None};
ghost use Rattle.cdcl_core.specs.Levels.{IsOpen};
ghost use Rattle.cdcl_core.specs.Search.{literals_of, level_of, rows_of, IsKnown, IsAtRest};
ghost use Rattle.cdcl_core.specs.State.{IsSettled, IsPropagated, no_row};

use crate::trail::{Trail, enqueue};
use crate::watches::Watches;
use cnf_base::Lit;

impl Watches {
    /// Makes an open literal true at a new decision level.
    pub fn decide(&self, trail: &mut Trail, l: Lit)
        requires settled { IsSettled self.now trail.old }
        requires propagated { IsPropagated self.now trail.old }
        requires known { IsKnown trail.old l }
        requires unset { IsOpen (literals_of trail.old) (level_of trail.old) l }
        ensures settled { IsSettled self.now trail.new }
        ensures level { level_of trail.new ≡ level_of trail.old + 1 }
        ensures literals { literals_of trail.new ≡ literals_of trail.old
            ++ (record { 0 = l; 1 = level_of trail.old + 1; 2 = None }) ∷ [] }
        ensures rows { rows_of trail.new ≡ rows_of trail.old }
    {
        trail.level += 1;
        enqueue(trail, l.code() as usize, 0, None);
    }

    /// Takes back every literal above the level.
    pub fn backjump(&self, trail: &mut Trail, level: u64)
        requires settled { IsSettled self.now trail.old }
        requires lower { level ≤ level_of trail.old }
        ensures settled { IsSettled self.now trail.new }
        ensures level { level_of trail.new ≡ level }
        ensures literals { literals_of trail.new
            ≡ filter (λ r. nat_le r.1 level) (literals_of trail.old) }
        ensures propagated { level < level_of trail.old → IsPropagated self.now trail.new }
        ensures rest { level < level_of trail.old → IsAtRest self.now trail.new }
        ensures same { level ≡ level_of trail.old → trail.new ≡ trail.old }
        ensures rows { rows_of trail.new ≡ rows_of trail.old }
    {
        if level < trail.level {
            cut_back(self, trail, level);
        }
    }
}

// Takes back every literal above a level that is below the present one.
fn cut_back(w: &Watches, t: &mut Trail, level: u64)
    requires settled { IsSettled w.now t.old }
    requires lower { level < t.old.level }
    ensures settled { IsSettled w.now t.new }
    ensures level { t.new.level ≡ level }
    ensures head { t.new.head ≡ t.new.len }
    ensures fewer { t.new.len ≤ t.old.len }
    ensures rows { t.new.rows.items ≡ t.old.rows.items }
    ensures kept { (i : ℕ) → i < t.new.len → (slice_index_or t.old.rows.items i no_row).1 ≤ level }
    ensures gone { (i : ℕ) → t.new.len ≤ i → i < t.old.len
        → level < (slice_index_or t.old.rows.items i no_row).1 }
    ensures size { length t.new.stamps.items ≡ length t.old.stamps.items }
{
    'entries: while t.len > 0 {
        let code = t.codes[t.len - 1];
        if t.stamps[code as usize] as u64 <= level + 1 {
            break;
        }
        t.stamps[code as usize] = 0;
        t.len -= 1;
    }
    t.head = t.len;
    t.level = level;
}
