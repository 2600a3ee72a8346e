//! The state of the hub.

ghost use Rattle.std.specs.Prelude.{◌≡◌, ◌≢◌, ◌<◌, ℕ, [], ◌∷◌, ◌++◌, length, Some, slice_get, OnOk, OnErr};

use cnf_base::Pos;
use proof_log::Pairs;
use std::alloc::{AllocError, Global};
use std::marker::Model;

/// What became of a cube that was claimed.
#[derive(Clone, Copy, Debug)]
pub struct CubeStage {
    /// The number of the pass that claimed it.
    pub holder: u32,
    /// The pass has not told what became of it.
    pub active: bool,
    /// The position whose first clause closes it.
    pub closed: Option<Pos>,
    /// Its budget is spent.
    pub spent: bool,
}

/// What became of each cube that was claimed, in the order of the cubes' numbers.
#[derive(Debug, Drop)]
pub struct Stages {
    items: Vec<CubeStage>,
}

impl Model for Stages {
    ghost use Rattle.std.specs.Prelude.{List};
    ghost use Rattle.hub_core.specs.declared.state.CubeStage.{CubeStage};

    ghost Value = { List CubeStage };

    ghost view = { λ s. s.items.items };
}

impl Stages {
    /// No cube was claimed.
    pub fn new(alloc: Global) -> Stages
        ensures { result ≡ [] }
    {
        Stages {
            items: Vec::new(alloc),
        }
    }

    /// How many cubes were claimed.
    pub fn len(&self) -> usize
        ensures { result ≡ length self.now }
    {
        self.items.len()
    }

    /// What became of the cube; `None` exactly where it was not claimed.
    pub fn get(&self, cube: u32) -> Option<CubeStage>
        ensures { result ≡ slice_get self.now cube }
    {
        let place = cube as usize;
        if place < self.items.len() {
            Some(self.items[place])
        } else {
            None
        }
    }

    /// Another thing became of the cube.
    pub(crate) fn set(&mut self, cube: u32, stage: CubeStage)
        requires { cube < length self.old }
        ensures here { slice_get self.new cube ≡ Some stage }
        ensures others { (d : ℕ) → d ≢ cube → slice_get self.new d ≡ slice_get self.old d }
        ensures len { length self.new ≡ length self.old }
    {
        self.items[cube as usize] = stage;
    }

    /// One cube more was claimed.
    pub(crate) fn push(&mut self, stage: CubeStage) -> Result<(), AllocError>
        ensures ok { OnOk result (self.new ≡ self.old ++ stage ∷ []) }
        ensures same { OnErr result (self.new ≡ self.old) }
    {
        self.items.push(stage)?;
        Ok(())
    }
}

/// How many positions the log has, the positions of the pairs of terms that were given variables since the opening, what
/// became of the claimed cubes, and whether a model was found.
#[derive(Debug, Drop)]
pub struct HubState {
    pub count: Pos,
    pub pairs: Pairs<Pos>,
    pub stages: Stages,
    pub found: bool,
}
