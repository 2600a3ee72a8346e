//! Marks on literals, so that a chain is read without taking memory.

ghost use Rattle.std.specs.Prelude.{◌≡◌, ◌↔◌, ◌<◌, ◌≤◌, ◌*◌, [], IsTrue, OnOk, OnErr, length, slice_set};
ghost use Rattle.cnf_base.specs.Literals.{code_of};
ghost use Rattle.hint_chain.specs.Marks.{IsMarked, Agrees, HasPlace};

use cnf_base::Lit;
use std::alloc::{AllocError, Global};
use std::marker::Model;

/// Which literals are true while a chain is read: room for the literals of the variables below a number.
#[derive(Debug, Drop)]
pub struct Marks {
    pub(crate) rounds: Rounds,
}

impl Model for Marks {
    ghost use Rattle.std.specs.Prelude.{ℕ, ◌/◌, length};

    ghost Value = { ℕ };

    ghost view = { λ m. length m.rounds.stamps / 2 };
}

impl Marks {
    /// Without room.
    pub fn new(alloc: Global) -> Marks
        ensures { result ≡ 0 }
    {
        Marks {
            rounds: Rounds {
                stamps: Vec::new(alloc),
                round: 0,
            },
        }
    }

    /// Room for the variables below this number, at least.
    pub fn reserve(&mut self, variables: u64) -> Result<(), AllocError>
        ensures room { OnOk result (variables ≤ self.new) }
        ensures kept { self.old ≤ self.new }
        ensures err { OnErr result (self.new ≡ self.old) }
    {
        self.rounds.reserve(variables)
    }
}

/// A stamp for each literal, by its code; a literal is marked where its stamp is the number of the
/// round. So a new round takes all marks away at once, and no mark has to be taken away by itself.
#[derive(Debug, Drop)]
pub(crate) struct Rounds {
    stamps: Vec<u32>,
    round: u32,
}

impl Model for Rounds {
    ghost use Rattle.std.specs.Prelude.{◌≤◌, All};
    ghost use Rattle.hint_chain.specs.Marks.{Stamps};

    ghost Value = { Stamps };

    ghost view = { λ r. record { stamps = r.stamps.items; round = r.round } };

    ghost invariant = { λ r. All (λ s. s ≤ r.round) r.stamps.items };
}

impl Rounds {
    // Room for the literals of the variables below this number, at least.
    fn reserve(&mut self, variables: u64) -> Result<(), AllocError>
        ensures room { OnOk result (2 * variables ≤ length self.new.stamps) }
        ensures kept { length self.old.stamps ≤ length self.new.stamps }
        ensures err { OnErr result (self.new ≡ self.old) }
    {
        let Some(literals) = variables.checked_mul(2) else {
            return Err(AllocError);
        };
        if (literals as usize) > self.stamps.len() {
            self.stamps.resize(literals as usize, 0)?;
        }
        Ok(())
    }

    /// Takes all marks away.
    pub(crate) fn begin(&mut self)
        ensures room { length self.new.stamps ≡ length self.old.stamps }
        ensures none { Agrees self.new [] }
    {
        if self.round == u32::MAX {
            self.forget();
        }
        self.round += 1;
    }

    // Begins to count the rounds anew.
    fn forget(&mut self)
        ensures room { length self.new.stamps ≡ length self.old.stamps }
        ensures round { self.new.round ≡ 0 }
    {
        for stamp in self.stamps.iter_mut() {
            *stamp = 0;
        }
        self.round = 0;
    }

    /// Whether the literal is marked.
    pub(crate) fn is_marked(&self, l: Lit) -> bool
        requires { HasPlace self.now l }
        ensures { IsTrue result ↔ IsMarked self.now l }
    {
        self.stamps[l.code() as usize] == self.round
    }

    /// Marks the literal.
    pub(crate) fn mark(&mut self, l: Lit)
        requires { HasPlace self.old l }
        ensures { self.new
            ≡ record {
              stamps = slice_set self.old.stamps (code_of l) self.old.round;
              round = self.old.round;
            } }
    {
        self.stamps[l.code() as usize] = self.round;
    }
}
