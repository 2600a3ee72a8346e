// The edges that accesses take while clashes are looked for.

ghost use Rattle.std.specs.Prelude.{◌≡◌, ◌<◌, length, OnOk};
ghost use Rattle.access_walk.specs.Building.{IsSound};
ghost use Rattle.access_walk.specs.Lanes.{is_down, lane_of, AreMarks, AreLanes};

use crate::network::Network;
use access_spread::{Gate, Lane};
use smt_terms::node::TermId;
use smt_terms::terms::Terms;
use std::alloc::{AllocError, Global};
use term_reach::Reached;
use theory_terms::lemma::Move;

/// Which accesses take the edges of a network on the way down: from a store or a choice to what it
/// is of, and over an equality, all do. Up they go only under the sides of an equality that is
/// true; those of stores go up over stores besides.
#[derive(Drop)]
pub struct Lanes {
    pub lanes: Vec<Lane>,
    /// Whether the array at a place is under the side of a true equality.
    under: Vec<bool>,
    /// The places of these arrays.
    marked: Vec<usize>,
}

/// Whether a move from an array leads down, to a part of its term.
fn is_down(array: TermId, by: Move) -> bool
    ensures { result ≡ is_down array by }
{
    match by {
        Move::Store(store) => array == store,
        Move::Then(choice) => array == choice,
        Move::Else(choice) => array == choice,
        Move::Sides(_) => false,
    }
}

/// The lane of a move from an array, by whether it leads to one under a true equality.
fn lane_of(array: TermId, by: Move, under: bool) -> Lane
    ensures { result ≡ lane_of array by under }
{
    if under || is_down(array, by) {
        return Lane::Open;
    }
    match by {
        Move::Store(_) => Lane::Wide,
        Move::Then(_) => Lane::Shut,
        Move::Else(_) => Lane::Shut,
        Move::Sides(_) => Lane::Open,
    }
}

/// Whether a move is over an equality that is true.
fn is_passed(by: Move, gate: Gate) -> bool {
    matches!((by, gate), (Move::Sides(_), Gate::Open))
}

impl Lanes {
    /// No lanes; takes no memory.
    pub fn new(alloc: Global) -> Lanes {
        Lanes {
            lanes: Vec::new(alloc),
            under: Vec::new(alloc),
            marked: Vec::new(alloc),
        }
    }

    /// Marks an array.
    fn mark(&mut self, array: usize) -> Result<(), AllocError>
        requires array { array < length self.old.under.items }
        requires marks { AreMarks self.old.under.items self.old.marked.items }
        ensures marks { OnOk result (AreMarks self.new.under.items self.new.marked.items) }
        ensures count { OnOk result
            (length self.new.under.items ≡ length self.old.under.items) }
    {
        if self.under[array] {
            return Ok(());
        }
        self.under[array] = true;
        self.marked.push(array)?;
        Ok(())
    }

    /// Marks the sides of equalities that are true, and no other array.
    fn mark_sides(
        &mut self,
        terms: &Terms,
        reached: &Reached,
        network: &Network,
        gates: &[Gate],
    ) -> Result<(), AllocError>
        requires sound { IsSound terms.now.nodes reached.now network.now }
        requires gates { length gates.now ≡ length network.now.graph.edges.items }
        ensures marks { OnOk result (AreMarks self.new.under.items self.new.marked.items) }
        ensures count { OnOk result (length self.new.under.items ≡ length reached.now) }
    {
        self.under.clear();
        self.under.resize(reached.terms().len(), false)?;
        self.marked.clear();
        for place in 0..network.graph.edges.len() {
            let edge = network.graph.edges[place];
            if is_passed(network.moves[place], gates[place]) {
                self.mark(edge.from)?;
            }
        }
        Ok(())
    }

    /// Marks what is right below an array.
    fn mark_below(
        &mut self,
        terms: &Terms,
        reached: &Reached,
        network: &Network,
        array: usize,
    ) -> Result<(), AllocError>
        requires sound { IsSound terms.now.nodes reached.now network.now }
        requires array { array < length reached.now }
        requires marks { AreMarks self.old.under.items self.old.marked.items }
        requires count { length self.old.under.items ≡ length reached.now }
        ensures marks { OnOk result (AreMarks self.new.under.items self.new.marked.items) }
        ensures count { OnOk result (length self.new.under.items ≡ length reached.now) }
    {
        let here = reached.terms()[array];
        for place in network.graph.fans[array].places() {
            let edge = network.graph.edges[*place];
            if is_down(here, network.moves[*place]) {
                self.mark(edge.to)?;
            }
        }
        Ok(())
    }

    /// Marks the arrays under the sides of equalities that are true.
    fn mark_all(
        &mut self,
        terms: &Terms,
        reached: &Reached,
        network: &Network,
        gates: &[Gate],
    ) -> Result<(), AllocError>
        requires sound { IsSound terms.now.nodes reached.now network.now }
        requires gates { length gates.now ≡ length network.now.graph.edges.items }
        ensures { OnOk result (length self.new.under.items ≡ length reached.now) }
    {
        self.mark_sides(terms, reached, network, gates)?;
        for at in 0..usize::MAX {
            if at >= self.marked.len() {
                break;
            }
            let array = self.marked[at];
            self.mark_below(terms, reached, network, array)?;
        }
        Ok(())
    }

    /// The lanes of a network's edges, whose gates these are.
    pub fn fill(
        &mut self,
        terms: &Terms,
        reached: &Reached,
        network: &Network,
        gates: &[Gate],
    ) -> Result<(), AllocError>
        requires sound { IsSound terms.now.nodes reached.now network.now }
        requires gates { length gates.now ≡ length network.now.graph.edges.items }
        ensures { OnOk result (AreLanes reached.now network.now self.new.under.items
            self.new.lanes.items) }
    {
        self.mark_all(terms, reached, network, gates)?;
        let arrays = reached.terms();
        self.lanes.clear();
        for place in 0..network.graph.edges.len() {
            let edge = network.graph.edges[place];
            let under = self.under[edge.to];
            let lane = lane_of(arrays[edge.from], network.moves[place], under);
            self.lanes.push(lane)?;
        }
        Ok(())
    }
}
