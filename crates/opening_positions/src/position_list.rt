//! Positions of a log, each once.

ghost use Rattle.std.specs.Prelude.{◌≡◌, [], ◌∷◌, MatchBool, IfOk, OnOk, OnErr, Contains};
ghost use Rattle.opening_positions.specs.Positions.{IsWith};

use cnf_base::Pos;
use std::alloc::{AllocError, Global};
use std::marker::Model;
use variable_list::VariableList;

/// No table by position is so long.
const TOO_FAR: Pos = 1 << 63;

/// Position 0, and others in the order in which they came, each once. To forget them does not visit them.
#[derive(Debug, Drop)]
pub(crate) struct PositionList {
    steps: VariableList,
}

impl Model for PositionList {
    ghost use Rattle.std.specs.Prelude.{ℕ, List, ◌∷◌};

    ghost Value = { List ℕ };

    ghost view = { λ p. 0 ∷ p.steps };
}

impl PositionList {
    /// Position 0 alone; takes no memory.
    pub(crate) fn new(alloc: Global) -> PositionList
        ensures { result ≡ 0 ∷ [] }
    {
        PositionList {
            steps: VariableList::new(alloc),
        }
    }

    /// Whether the position is listed; takes no memory.
    pub(crate) fn has(&self, at: Pos) -> bool
        ensures { MatchBool result (Contains self.now at) (Contains self.now at → ⊥) }
    {
        at == 0 || self.steps.has(at)
    }

    /// Forgets all positions but 0; takes no memory.
    pub(crate) fn clear(&mut self)
        ensures { self.new ≡ 0 ∷ [] }
    {
        self.steps.clear();
    }

    /// The position is listed from here on.
    pub(crate) fn add(&mut self, at: Pos) -> Result<(), AllocError>
        ensures with { OnOk result (IsWith self.old at self.new) }
        ensures err { OnErr result (self.new ≡ self.old) }
    {
        if self.has(at) {
            return Ok(());
        }
        if at >= TOO_FAR {
            return Err(AllocError);
        }
        self.steps.add(at)?;
        Ok(())
    }

    /// The positions in their order.
    pub(crate) fn to_vec(&self, alloc: Global) -> Result<Vec<Pos>, AllocError>
        ensures { IfOk result (λ p. p.items ≡ self.now) }
    {
        let mut all = Vec::new(alloc);
        all.push(0)?;
        all.extend_from_slice(self.steps.as_slice())?;
        Ok(all)
    }
}
