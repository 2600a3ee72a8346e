//! Variables by activity (N. Eén and N. Sörensson, "An extensible SAT-solver", 2003).

use crate::table::{MOST, at, number_at, put, put_number};
use std::alloc::{AllocError, Global};

// At this activity, all are made smaller.
const HIGHEST: u64 = 1 << 62;
// What a conflict weighs at the start.
const FIRST: u64 = 1 << 16;
// A heap has no longer way down than this.
const DEEPEST: u64 = 64;

/// The variables that were bumped and may be open, those first that stood in many late conflicts.
#[derive(Drop)]
pub struct VariableOrder {
    // by variable, 0 where it was not bumped
    activities: Vec<u64>,
    // the heap, and by variable one more than its place there, 0 where it has none
    heap: Vec<u32>,
    places: Vec<u32>,
    len: u64,
    // the variables that were bumped, each once
    bumped: Vec<u32>,
    count: u64,
    increment: u64,
}

impl VariableOrder {
    /// No variable.
    pub fn new(alloc: Global) -> VariableOrder {
        VariableOrder {
            activities: Vec::new(alloc),
            heap: Vec::new(alloc),
            places: Vec::new(alloc),
            len: 0,
            bumped: Vec::new(alloc),
            count: 0,
            increment: FIRST,
        }
    }

    /// Has the variables below the bound, the new ones with no activity.
    pub fn reserve(&mut self, bound: usize) -> Result<(), AllocError> {
        if bound > MOST {
            return Err(AllocError);
        }
        if self.places.len() < bound {
            self.activities.resize(bound, 0)?;
            self.heap.resize(bound, 0)?;
            self.bumped.resize(bound, 0)?;
            self.places.resize(bound, 0)?;
        }
        Ok(())
    }

    /// Forgets all activities. It visits the variables that were bumped alone.
    pub fn forget(&mut self) {
        for i in 0..self.count {
            let variable = number_at(&self.bumped, i);
            put(&mut self.activities, variable, 0);
            put_number(&mut self.places, variable, 0);
        }
        self.len = 0;
        self.count = 0;
        self.increment = FIRST;
    }

    /// Puts a variable back that is open again, where it was bumped.
    pub fn insert(&mut self, variable: u64) {
        if at(&self.activities, variable) == 0 || number_at(&self.places, variable) != 0 {
            return;
        }
        let place = self.len;
        self.len = place.wrapping_add(1);
        self.settle(place, variable);
        self.rise(place);
    }

    /// Takes the variable of the greatest activity out.
    pub fn pop(&mut self) -> Option<u64> {
        if self.len == 0 {
            return None;
        }
        let variable = number_at(&self.heap, 0);
        put_number(&mut self.places, variable, 0);
        self.len -= 1;
        if self.len > 0 {
            let last = number_at(&self.heap, self.len);
            self.settle(0, last);
            self.sink(0);
        }
        Some(variable)
    }

    /// Raises the activity of a variable that stands in a conflict.
    pub fn bump(&mut self, variable: u64) {
        if variable as usize >= self.places.len() {
            return;
        }
        let before = at(&self.activities, variable);
        if before == 0 {
            put_number(&mut self.bumped, self.count, variable);
            self.count = self.count.wrapping_add(1);
        }
        let activity = before.wrapping_add(self.increment);
        put(&mut self.activities, variable, activity);
        let place = number_at(&self.places, variable);
        if place != 0 {
            self.rise(place - 1);
        }
        if activity >= HIGHEST {
            self.shrink();
        }
    }

    /// Makes later conflicts weigh more: by a twenty-fourth.
    pub fn decay(&mut self) {
        self.increment = self.increment.wrapping_add(self.increment / 24);
        if self.increment >= HIGHEST / 4 {
            self.shrink();
        }
    }

    // Makes all activities smaller in the same measure; none becomes 0.
    fn shrink(&mut self) {
        for i in 0..self.count {
            let variable = number_at(&self.bumped, i);
            let activity = at(&self.activities, variable);
            put(&mut self.activities, variable, (activity >> 40) | 1);
        }
        self.increment = (self.increment >> 40) | 1;
    }

    fn activity_at(&self, place: u64) -> u64 {
        at(&self.activities, number_at(&self.heap, place))
    }

    fn settle(&mut self, place: u64, variable: u64) {
        put_number(&mut self.heap, place, variable);
        put_number(&mut self.places, variable, place.wrapping_add(1));
    }

    // Moves the variable of this place up to where the one above is at least as active.
    fn rise(&mut self, start: u64) {
        let variable = number_at(&self.heap, start);
        let activity = at(&self.activities, variable);
        let mut place = start;
        for _ in 0..DEEPEST {
            if place == 0 {
                break;
            }
            let up = (place - 1) / 2;
            if self.activity_at(up) >= activity {
                break;
            }
            let above = number_at(&self.heap, up);
            self.settle(place, above);
            place = up;
        }
        self.settle(place, variable);
    }

    // Moves the variable of this place down to where those below are at most as active.
    fn sink(&mut self, start: u64) {
        let variable = number_at(&self.heap, start);
        let activity = at(&self.activities, variable);
        let mut place = start;
        for _ in 0..DEEPEST {
            let left = place.wrapping_mul(2).wrapping_add(1);
            if left >= self.len {
                break;
            }
            let right = left.wrapping_add(1);
            let higher = right < self.len && self.activity_at(right) > self.activity_at(left);
            let child = if higher { right } else { left };
            if self.activity_at(child) <= activity {
                break;
            }
            let below = number_at(&self.heap, child);
            self.settle(place, below);
            place = child;
        }
        self.settle(place, variable);
    }
}
