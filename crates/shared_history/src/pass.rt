//! A pass: the right to add to a history, and what its holder knows of it.
ghost use Rattle.std.specs.Prelude.{◌≡◌, ◌<◌, ◌≤◌, length, nat_eq};
ghost use Rattle.std.specs.List.{AllByRecursion, IsDistinct};
ghost use Rattle.shared_history.specs.Events.{of_pass, numbers};

use crate::law::Law;
use crate::view::Place;
use std::marker::Model;

/// A pass of a history. Contracts see what it knows:
/// its `number`; what it has `seen`, a beginning of the history; up to which place its reads have `got` entries;
/// its own events, `mine`, each once, in order; `ended`, the number and the events of each pass that was merged into it, directly or not;
/// and of the first pass how many were `made`, itself among them.
#[derive(Drop)]
pub struct Pass<L: Law> {
    pub(crate) number: u32,
    pub(crate) got: u64,
    pub(crate) made: u64,
    pub(crate) seat: Place<L>,
}

impl<L: Law> Model for Pass<L> {
    ghost use Rattle.shared_history.specs.Known.{Known};
    ghost use Rattle.shared_history.specs.Seated.{known, IsPass};

    ghost Value = { Known L L.Entry };

    ghost view = { λ p. known p.seat p.got };

    ghost invariant = { λ p. IsPass L.by p.number p.got p.made p.seat };
}

impl<L: Law> Pass<L> {
    /// The number of the pass, which its events have. The first pass has 0.
    pub fn number(&self) -> u32
        ensures { result ≡ self.now.number }
    {
        self.number
    }

    /// How many entries reads have given it, or the pass that it was split off from.
    pub fn got(&self) -> u64
        ensures value { result ≡ self.now.got }
        ensures within { result ≤ length self.now.seen }
    {
        self.got
    }

    /// What holds of each pass. It does nothing.
    pub fn facts(&self)
        // In what the pass has seen the events of its number are its own, and those of a pass merged into it are the ones kept.
        ensures mine { of_pass L.by self.now.number self.now.seen ≡ self.now.mine }
        ensures ended { AllByRecursion (λ p. of_pass L.by p.0 self.now.seen ≡ p.1) self.now.ended }

        // No two of these passes had one number.
        ensures differ { IsDistinct nat_eq (numbers self.now.number self.now.ended) }

        // The first pass knows of each number.
        ensures below { self.now.number ≡ 0
            → AllByRecursion (λ e. L.by e < self.now.made) self.now.seen }
    {
        let _ = &self.number;
    }
}
