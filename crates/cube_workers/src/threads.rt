//! Work that is done in threads.

ghost use Rattle.std.specs.Prelude.{◌≡◌, ◌<◌, ℕ, All, length, IfOk, slice_index_or};

use crate::gate::Gate;
use std::alloc::AllocError;
use std::sync::Wait;
use std::thread;
use std::thread::Threads;

/// One who works.
pub(crate) trait Work {
    /// It may begin.
    ghost may_work: { Self → Type 0 };

    /// It before its work, and after.
    ghost has_worked: { Self → Self → Type 0 };

    /// It after its work.
    fn worked<G: Gate>(self, gate: &G) -> Self
        requires { may_work self }
        ensures { has_worked self result };
}

/// Each works in a thread of its own, and all have ended when this returns. For want of memory they are dropped.
pub(crate) fn in_threads<R: Threads + Wait + Sync, G: Gate + Sync, W: Work + Send + Drop>(
    rt: &R,
    gate: &G,
    workers: Vec<W>,
) -> Result<Vec<W>, AllocError>
    requires { All W.may_work workers.items }
    ensures count { IfOk result (λ v. length v.items ≡ length workers.items) }
    ensures each { IfOk result (λ v. (k : ℕ) (d : W) → k < length workers.items
        → W.has_worked (slice_index_or workers.items k d) (slice_index_or v.items k d)) }
{
    match thread::map_vec(
        rt,
        workers,
        &|worker: W| -> W
            requires { W.may_work worker }
            ensures { W.has_worked worker result }
        { worker.worked(gate) },
    ) {
        Ok(worked) => Ok(worked),
        Err(_) => Err(AllocError),
    }
}
