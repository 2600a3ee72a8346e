//! Marks on literals.

ghost use Rattle.std.specs.Prelude.{◌≡◌, ◌<◌, ◌∷◌, ◌++◌, [], None, Some, List, slice_set, MatchBool, OnOk, IfOk, length};
ghost use Rattle.cnf_base.specs.Literals.{Literal};
ghost use Rattle.dimacs_front.specs.Lrat.{opposites};
ghost use Rattle.dimacs_front.specs.Marks.{AreMarked, is_marked};

use cnf_base::Lit;
use std::alloc::{AllocError, Global};
use std::marker::Model;

/// A stamp for each literal, by its code, up to the greatest that was marked. A literal is marked
/// where its stamp is the number of the round, so a new round takes all marks away at once.
#[derive(Debug, Drop)]
pub(crate) struct Marks {
    stamps: Vec<u32>,
    round: u32,
}

impl Model for Marks {
    ghost use Rattle.std.specs.Prelude.{◌<◌, ◌≤◌, All};
    ghost use Rattle.dimacs_front.specs.Marks.{MarksValue};

    ghost Value = { MarksValue };

    ghost view = { λ m. record { stamps = m.stamps.items; round = m.round } };

    ghost invariant = { λ m. (0 < m.round) × All (λ s. s ≤ m.round) m.stamps.items };
}

impl Marks {
    /// No mark.
    pub(crate) fn new(alloc: Global) -> Marks {
        Marks {
            stamps: Vec::new(alloc),
            round: 1,
        }
    }

    /// Takes all marks away.
    pub(crate) fn begin(&mut self)
        ensures { AreMarked self.new [] }
    {
        if self.round == u32::MAX {
            self.stamps.clear();
            self.round = 0;
        }
        self.round += 1;
    }

    /// Whether the literal is marked.
    pub(crate) fn is_marked(&self, l: Lit) -> bool
        ensures { result ≡ is_marked self.now l }
    {
        let place = l.code() as usize;
        place < self.stamps.len() && self.stamps[place] == self.round
    }

    /// A stamp for each code up to this one.
    fn reserve(&mut self, place: usize) -> Result<(), AllocError>
        ensures room { OnOk result (place < length self.new.stamps) }
        ensures same { (known : List Literal) → AreMarked self.old known
            → OnOk result (AreMarked self.new known) }
    {
        'stamps: while self.len() <= place {
            self.push()?;
        }
        Ok(())
    }

    /// How many stamps there are.
    fn len(&self) -> usize
        ensures { result ≡ length self.now.stamps }
    {
        self.stamps.as_slice().len()
    }

    /// One stamp more, of no round.
    fn push(&mut self) -> Result<(), AllocError>
        ensures { OnOk result (self.new
            ≡ record { stamps = self.old.stamps ++ 0 ∷ []; round = self.old.round }) }
    {
        self.stamps.push(0)?;
        Ok(())
    }

    /// Stamps a place with the number of the round.
    fn stamp(&mut self, place: usize)
        requires { place < length self.old.stamps }
        ensures { self.new
            ≡ record {
              stamps = slice_set self.old.stamps place self.old.round;
              round = self.old.round;
            } }
    {
        self.stamps[place] = self.round;
    }

    /// Marks the literal.
    pub(crate) fn mark(&mut self, l: Lit) -> Result<(), AllocError>
        ensures { (known : List Literal) → AreMarked self.old known
            → OnOk result (AreMarked self.new (known ++ l ∷ [])) }
    {
        let place = l.code() as usize;
        self.reserve(place)?;
        self.stamp(place);
        Ok(())
    }

    /// Marks the opposites of a clause's literals, as far as none of them stands beside its
    /// opposite: true where one does.
    pub(crate) fn mark_opposites(&mut self, clause: &[Lit]) -> Result<bool, AllocError>
        ensures { IfOk result (λ b. MatchBool b (opposites [] clause.now ≡ None)
            ((trues : List Literal) × (opposites [] clause.now ≡ Some trues)
            × AreMarked self.new trues)) }
    {
        self.begin();
        for l in clause {
            if self.is_marked(*l) {
                return Ok(true);
            }
            self.mark(l.negated())?;
        }
        Ok(false)
    }
}
