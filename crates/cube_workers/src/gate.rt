//! Gates: what a worker passes at points of its work. No contract says anything of a gate.

use std::sync::atomic::{AtomicU64, Ordering};

/// A point of a worker's work.
#[derive(Clone, Copy, Debug, PartialEq, Eq)]
pub enum Point {
    /// It begins.
    Begin,
    /// It has claimed a cube.
    Claimed,
    /// It has told what became of a cube.
    Put,
    /// It ends.
    End,
}

/// What workers pass. A worker that works alone passes no gate.
pub trait Gate {
    /// The worker of this number, from 1 on, is at this point.
    fn pass(&self, worker: u32, point: Point);
}

/// A gate that does nothing.
#[derive(Clone, Copy, Debug)]
pub struct NoGate;

impl Gate for NoGate {
    fn pass(&self, worker: u32, point: Point) {
        let _ = (worker, point);
    }
}

/// How often a worker looks whether another stands beside it.
const TURNS: u64 = 50_000_000;

/// A gate that holds each worker at its first claimed cube until two stand there, or `TURNS` looks are spent.
#[derive(Drop)]
pub struct PairGate {
    // the workers that have stood at the gate, a bit of each
    stood: AtomicU64,
    // not 0 where looks were spent
    spent: AtomicU64,
}

impl PairGate {
    /// No worker has stood at the gate.
    pub fn new() -> PairGate {
        PairGate {
            stood: AtomicU64::new(0),
            spent: AtomicU64::new(0),
        }
    }

    /// Some worker went on alone.
    pub fn gave_up(&self) -> bool {
        self.spent.load(Ordering::SeqCst) != 0
    }
}

impl Gate for PairGate {
    fn pass(&self, worker: u32, point: Point) {
        if point != Point::Claimed || worker > 64 {
            return;
        }
        let own = 1u64 << (worker % 64);
        let before = self.stood.fetch_or(own, Ordering::SeqCst);
        if before & own != 0 {
            return;
        }
        for _ in 0..TURNS {
            if self.stood.load(Ordering::SeqCst) & !own != 0 {
                return;
            }
            std::thread::yield_now();
        }
        self.spent.store(1, Ordering::SeqCst);
    }
}
