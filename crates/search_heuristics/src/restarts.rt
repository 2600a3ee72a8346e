//! Restarts by two means of glue (A. Biere and A. Fröhlich, "Evaluating CDCL restart schemes", 2015).

// Means are kept in this many parts of one.
const PARTS: u64 = 1 << 20;
// The slow mean starts as a plain mean of this many values.
const START: u64 = 1 << 14;
// Two restarts have at least this many conflicts between them.
const PAUSE: u64 = 50;

/// When to restart: where the glue of late clauses lies over its long mean.
#[derive(Clone, Copy)]
pub struct Restarts {
    fast: u64,
    slow: u64,
    conflicts: u64,
    since: u64,
}

impl Restarts {
    /// No conflict.
    pub const fn new() -> Restarts {
        Restarts {
            fast: 0,
            slow: 0,
            conflicts: 0,
            since: 0,
        }
    }

    /// Counts a conflict whose learnt clause has this glue.
    pub fn meet(&mut self, glue: u64) {
        let glue = glue.wrapping_mul(PARTS);
        self.conflicts = self.conflicts.wrapping_add(1);
        self.since = self.since.wrapping_add(1);
        self.fast = moved(self.fast, glue, 32);
        let weight = if self.conflicts < START {
            self.conflicts
        } else {
            START
        };
        self.slow = moved(self.slow, glue, weight);
    }

    /// Whether the fast mean is more than five fourths of the slow one, and the last restart long ago.
    pub fn is_due(&self) -> bool {
        self.since > PAUSE && self.fast.wrapping_mul(4) > self.slow.wrapping_mul(5)
    }

    /// Counts a restart.
    pub fn restart(&mut self) {
        self.since = 0;
    }
}

// The mean, moved towards the value by one part of so many.
fn moved(mean: u64, value: u64, parts: u64) -> u64 {
    if parts == 0 {
        return value;
    }
    if value >= mean {
        mean.wrapping_add((value - mean) / parts)
    } else {
        mean - (mean - value) / parts
    }
}
