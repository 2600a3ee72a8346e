// Edges between arrays.

ghost use Rattle.std.specs.Prelude.{◌≡◌, ◌<◌, ◌↔◌, ◌∷◌, ◌++◌, [], IsTrue, length, true, IfOk, OnOk, OnErr};
ghost use Rattle.access_spread.specs.Graphs.{passes, IsGraph};

use std::alloc::{AllocError, Global};
use std::marker::Model;

/// A step from one array to another, and the place of the gate that it goes through.
#[derive(Clone, Copy, Debug)]
pub struct Edge {
    pub from: usize,
    pub to: usize,
    pub gate: usize,
}

/// What may pass: accesses of every index, of none, or of all but one.
#[derive(Clone, Copy, Debug)]
pub enum Gate {
    Open,
    Shut,
    Except(u128),
}

impl Gate {
    /// Whether accesses of this index pass.
    pub fn passes(self, index: u128) -> bool
        ensures { result ≡ passes self index }
    {
        match self {
            Gate::Open => true,
            Gate::Shut => false,
            Gate::Except(number) => index != number,
        }
    }
}

/// The places of the edges from one array.
#[derive(Debug, Drop)]
pub struct Fan {
    places: Vec<usize>,
}

impl Model for Fan {
    ghost use Rattle.std.specs.Prelude.{List, ℕ};

    ghost Value = { List ℕ };

    ghost view = { λ f. f.places.items };
}

impl Fan {
    fn none(alloc: Global) -> Fan
        ensures { result ≡ [] }
    {
        Fan {
            places: Vec::new(alloc),
        }
    }

    /// The places.
    pub fn places(&self) -> &[usize]
        ensures { result.now ≡ self.now }
    {
        self.places.as_slice()
    }

    fn push(&mut self, place: usize) -> Result<(), AllocError>
        ensures ok { OnOk result (self.new ≡ self.old ++ place ∷ []) }
        ensures err { OnErr result (self.new ≡ self.old) }
    {
        self.places.push(place)?;
        Ok(())
    }
}

/// Edges between so many arrays, by the arrays that they are from.
#[derive(Debug, Drop)]
pub struct Graph {
    pub edges: Vec<Edge>,
    pub fans: Vec<Fan>,
}

impl Graph {
    /// No edges between so many arrays.
    pub fn new(alloc: Global, count: usize) -> Result<Graph, AllocError>
        ensures graph { IfOk result IsGraph }
        ensures count { IfOk result (λ g. length g.fans.items ≡ count) }
        ensures edges { IfOk result (λ g. g.edges.items ≡ []) }
    {
        let mut fans = Vec::new(alloc);
        for _ in 0..count {
            fans.push(Fan::none(alloc))?;
        }
        Ok(Graph {
            edges: Vec::new(alloc),
            fans,
        })
    }

    /// One edge more.
    pub fn add(&mut self, edge: Edge) -> Result<(), AllocError>
        requires graph { IsGraph self.old }
        requires from { edge.from < length self.old.fans.items }
        requires to { edge.to < length self.old.fans.items }
        ensures graph { OnOk result (IsGraph self.new) }
        ensures edges { OnOk result (self.new.edges.items ≡ self.old.edges.items ++ edge ∷ []) }
        ensures count { OnOk result (length self.new.fans.items ≡ length self.old.fans.items) }
    {
        let place = self.edges.len();
        self.edges.push(edge)?;
        self.fans[edge.from].push(place)?;
        Ok(())
    }
}
