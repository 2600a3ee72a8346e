//! Sets of positions.

ghost use Rattle.std.specs.Prelude.{◌≡◌, ◌<◌, ℕ, false, length, OnOk, OnErr};
ghost use Rattle.proof_log.specs.Diaries.{with_held};
ghost use Rattle.diary_checker.specs.Tables.{bit_in};

use cnf_base::Pos;
use std::alloc::{AllocError, Global};
use std::marker::Model;

/// A set of positions, by a bit for each: those that are held, or those that were deleted.
#[derive(Debug, Drop)]
pub struct Positions {
    bits: Vec<bool>,
}

impl Model for Positions {
    ghost use Rattle.std.specs.Prelude.{List, Bool};

    ghost Value = { List Bool };

    ghost view = { λ p. p.bits.items };
}

impl Positions {
    /// No position.
    pub fn new(alloc: Global) -> Positions
        ensures { (at : ℕ) → bit_in result at ≡ false }
    {
        Positions {
            bits: Vec::new(alloc),
        }
    }

    /// Whether the position is in the set.
    pub fn has(&self, at: Pos) -> bool
        ensures { result ≡ bit_in self.now at }
    {
        match self.bits.get(at as usize) {
            Some(bit) => *bit,
            None => false,
        }
    }

    /// Takes a position into the set, or out of it.
    pub fn set(&mut self, at: Pos, held: bool) -> Result<(), AllocError>
        ensures ok { OnOk result ((p : ℕ)
            → bit_in self.new p ≡ with_held (bit_in self.old) at held p) }
        ensures err { OnErr result ((p : ℕ) → bit_in self.new p ≡ bit_in self.old p) }
    {
        let place = at as usize;
        grow(&mut self.bits, place)?;
        self.bits[place] = held;
        Ok(())
    }
}

// Makes room for a place.
fn grow(bits: &mut Vec<bool>, place: usize) -> Result<(), AllocError>
    ensures same { (p : ℕ) → bit_in bits.new.items p ≡ bit_in bits.old.items p }
    ensures room { OnOk result (place < length bits.new.items) }
{
    let Some(wanted) = place.checked_add(1) else {
        return Err(AllocError);
    };
    if bits.len() < wanted {
        bits.resize(wanted, false)?;
    }
    Ok(())
}
