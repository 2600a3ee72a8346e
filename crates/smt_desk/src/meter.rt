// A count of bytes that ends at a limit.

ghost use Rattle.std.specs.Prelude.{◌≡◌, ◌+◌, ◌<◌, ◌≤◌, IfOk, IfErr};
ghost use Rattle.smt_desk.specs.Meters.{room, counting};

use std::marker::Model;

/// A meter was asked to count further than to its limit: how many bytes it held, and holds.
#[derive(Clone, Copy, Debug, PartialEq, Eq)]
pub struct Over {
    pub held: u64,
}

/// A count of bytes up to a limit. It takes no memory.
#[derive(Debug, Drop)]
pub struct Meter {
    limit: u64,
    held: u64,
}

impl Model for Meter {
    ghost use Rattle.std.specs.Prelude.{◌≤◌};
    ghost use Rattle.smt_desk.specs.Meters.{Metered};

    ghost Value = { Metered };

    ghost view = { λ s. record { limit = s.limit; held = s.held } };

    ghost invariant = { λ s. s.held ≤ s.limit };
}

impl Meter {
    /// Counts up to so many bytes, and none yet.
    pub fn new(limit: u64) -> Meter
        ensures { result ≡ record { limit = limit; held = 0 } }
    {
        Meter { limit, held: 0 }
    }

    /// How many bytes may still be counted.
    pub fn left(&self) -> u64
        ensures { result ≡ room self.now }
    {
        self.limit - self.held
    }

    /// Counts so many bytes more. Where that were more than the limit, none of them is counted.
    pub fn take(&mut self, n: usize) -> Result<(), Over>
        ensures ok { IfOk result (λ _. (self.old.held + n ≤ self.old.limit)
            × (self.new ≡ counting self.old n)) }
        ensures over { IfErr result (λ o. (self.old.limit < self.old.held + n)
            × (o.held ≡ self.old.held) × (self.new ≡ self.old)) }
    {
        let size = n as u64;
        if size > self.left() {
            return Err(Over { held: self.held });
        }
        self.held += size;
        Ok(())
    }
}
