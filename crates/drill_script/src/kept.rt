// Responses that are kept in memory.

ghost use Rattle.std.specs.Prelude.{◌≡◌, ◌<◌, ◌≤◌, Some, [], length, IfOk};
ghost use Rattle.std.specs.Io.KnownBytes.{WriteAppends};
ghost use Rattle.smt_desk.specs.Faults.{HasCause};

use smt_desk::stream::{Failed, Sink};
use std::alloc::Global;
use std::marker::Model;

/// Bytes that are kept as they come. A call fails for want of memory alone, and that is counted.
#[derive(Drop)]
pub struct Kept {
    bytes: Vec<u8>,
    refused: u64,
}

impl Model for Kept {
    ghost use Rattle.std.specs.Prelude.{◌≤◌};
    ghost use Rattle.drill_script.specs.Keeping.{Keeping};

    ghost Value = { Keeping };

    ghost view = { λ s. record { bytes = s.bytes.items; refused = s.refused } };

    ghost invariant = { λ s. s.refused ≤ 18446744073709551615 };
}

impl Kept {
    /// Nothing is kept.
    pub fn new(alloc: Global) -> Kept
        ensures { result ≡ record { bytes = []; refused = 0 } }
    {
        Kept {
            bytes: Vec::new(alloc),
            refused: 0,
        }
    }

    /// What is kept.
    pub fn bytes(&self) -> &[u8]
        ensures { result.now ≡ self.now.bytes }
    {
        self.bytes.as_slice()
    }

    /// How often memory was wanting.
    pub fn refused(&self) -> u64
        ensures { result ≡ self.now.refused }
    {
        self.refused
    }
}

impl Sink for Kept {
    ghost use Rattle.std.specs.Prelude.{Some};

    ghost written = { λ s. Some s.bytes };

    ghost faults = { λ s. s.refused };

    fn write(&mut self, piece: &[u8]) -> Result<usize, Failed>
        ensures bound { IfOk result (λ n. n ≤ length piece.now) }
        ensures progress { IfOk result (λ n. 0 < length piece.now → 0 < n) }
        ensures bytes { WriteAppends (Some self.old.bytes) (Some self.new.bytes) result piece.now }
        ensures cause { HasCause self.old.refused self.new.refused result }
    {
        match self.bytes.extend_from_slice(piece) {
            Ok(()) => Ok(piece.len()),
            Err(_) => {
                self.refused = self.refused.saturating_add(1);
                Err(Failed)
            }
        }
    }
}
