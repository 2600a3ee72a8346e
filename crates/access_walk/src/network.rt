// The arrays, moves and starts of reached terms, before any assignment.

ghost use Rattle.std.specs.Prelude.{◌≡◌, ◌<◌, ◌++◌, ◌∷◌, [], ℕ, Contains, IfOk, OnOk, None, Some, length};
ghost use Rattle.access_spread.specs.Graphs.{IsGraph};
ghost use Rattle.theory_terms.specs.Lemmas.{landing_of};
ghost use Rattle.theory_terms.specs.Named.{mover};
ghost use Rattle.smt_terms.specs.Nodes.{node_at};
ghost use Rattle.smt_terms.specs.Ranks.{is_array};
ghost use Rattle.smt_terms.specs.Terms.{sort_of};
ghost use Rattle.theory_terms.specs.Shapes.{shape_at};
ghost use Rattle.theory_terms.specs.declared.shape.Shape.TheVariants.{Selecting, Storing, Choosing, Equating};
ghost use Rattle.smt_terms.specs.Bits.{image_in};
ghost use Rattle.term_reach.specs.Reach.{IsClosed};
ghost use Rattle.access_tables.specs.Leading.{leads};
ghost use Rattle.access_tables.specs.Ready.{IsOwn};
ghost use Rattle.access_tables.specs.Encoded.{HaveBits};
ghost use Rattle.access_walk.specs.Maps.{AreIndexes};
ghost use Rattle.access_walk.specs.Building.{IsWhole, BeginsWhole, IsEntered, IsMoveOf, Grows, HasTerm};

use crate::guard::Guard;
use access_spread::{Edge, Graph};
use smt_terms::bits::Bits;
use smt_terms::node::TermId;
use smt_terms::sort::Sort;
use smt_terms::terms::Terms;
use std::alloc::{AllocError, Global};
use term_reach::Reached;
use theory_terms::atom::Landing;
use theory_terms::lemma::{Move, Start};
use theory_terms::shape::{Shape, shape_at};

/// Edges between arrays, which stand under the places of their terms among those that are reached,
/// each with its move and guard; and the accesses that begin.
#[derive(Drop)]
pub struct Network {
    pub graph: Graph,
    pub moves: Vec<Move>,
    pub guards: Vec<Guard>,
    pub origins: Vec<Start>,
    pub landings: Vec<Landing>,
}

impl Network {
    /// One edge more.
    fn add_edge(&mut self, from: usize, to: usize, by: Move, guard: Guard) -> Result<(), AllocError>
        requires graph { IsGraph self.old.graph }
        requires from { from < length self.old.graph.fans.items }
        requires to { to < length self.old.graph.fans.items }
        ensures graph { OnOk result (IsGraph self.new.graph) }
        ensures count { OnOk result
            (length self.new.graph.fans.items ≡ length self.old.graph.fans.items) }
        ensures edges { OnOk result (self.new.graph.edges.items ≡ self.old.graph.edges.items
            ++ record { from = from; to = to; gate = length self.old.graph.edges.items } ∷ []) }
        ensures moves { OnOk result (self.new.moves.items ≡ self.old.moves.items ++ by ∷ []) }
        ensures guards { OnOk result (self.new.guards.items ≡ self.old.guards.items ++ guard ∷ []) }
        ensures origins { OnOk result (self.new.origins.items ≡ self.old.origins.items) }
        ensures landings { OnOk result (self.new.landings.items ≡ self.old.landings.items) }
    {
        let gate = self.graph.edges.len();
        self.graph.add(Edge { from, to, gate })?;
        self.moves.push(by)?;
        self.guards.push(guard)?;
        Ok(())
    }

    /// An edge each way.
    fn add_move(
        &mut self,
        terms: &Terms,
        reached: &Reached,
        a: usize,
        b: usize,
        by: Move,
        guard: Guard,
    ) -> Result<(), AllocError>
        requires sound { IsEntered terms.now.nodes reached.now self.old }
        requires whole { IsWhole terms.now.nodes reached.now (mover by) }
        requires is { IsMoveOf terms.now.nodes reached.now a b by guard }
        ensures sound { OnOk result (IsEntered terms.now.nodes reached.now self.new) }
        ensures grows { OnOk result (Grows self.old self.new) }
        ensures has { OnOk result (Contains self.new.moves.items by) }
    {
        let _once = reached.terms();
        self.add_edge(a, b, by, guard)?;
        self.add_edge(b, a, by, guard)?;
        Ok(())
    }

    /// An access that begins.
    fn add_start(
        &mut self,
        terms: &Terms,
        reached: &Reached,
        origin: Start,
        landing: Landing,
    ) -> Result<(), AllocError>
        requires sound { IsEntered terms.now.nodes reached.now self.old }
        requires begun { BeginsWhole terms.now.nodes reached.now origin }
        requires lands { landing_of terms.now.nodes origin ≡ Some landing }
        requires index { AreIndexes terms.now.nodes landing.array landing.index }
        ensures sound { OnOk result (IsEntered terms.now.nodes reached.now self.new) }
        ensures grows { OnOk result (Grows self.old self.new) }
        ensures has { OnOk result (Contains self.new.landings.items landing) }
    {
        self.origins.push(origin)?;
        self.landings.push(landing)?;
        Ok(())
    }

    /// The access and the move of a store.
    fn enter_store(
        &mut self,
        terms: &Terms,
        reached: &Reached,
        term: TermId,
        array: TermId,
        index: TermId,
        value: TermId,
    ) -> Result<(), AllocError>
        requires sound { IsEntered terms.now.nodes reached.now self.old }
        requires shape { shape_at terms.now.nodes term ≡ Storing array index value }
        requires whole { IsWhole terms.now.nodes reached.now term }
        requires here { Contains reached.now term }
        requires there { Contains reached.now array }
        ensures sound { OnOk result (IsEntered terms.now.nodes reached.now self.new) }
        ensures grows { OnOk result (Grows self.old self.new) }
        ensures has { OnOk result (HasTerm terms.now.nodes self.new term) }
    {
        let _count = terms.len();
        let here = reached.place_of(term).unwrap();
        let there = reached.place_of(array).unwrap();
        let landing = Landing {
            array: term,
            index,
            value,
        };
        self.add_start(terms, reached, Start::Term(term), landing)?;
        self.add_move(
            terms,
            reached,
            here,
            there,
            Move::Store(term),
            Guard::Differs(index),
        )?;
        Ok(())
    }

    /// The access that a select is.
    fn enter_select(
        &mut self,
        terms: &Terms,
        reached: &Reached,
        term: TermId,
        array: TermId,
        index: TermId,
    ) -> Result<(), AllocError>
        requires sound { IsEntered terms.now.nodes reached.now self.old }
        requires shape { shape_at terms.now.nodes term ≡ Selecting array index }
        requires whole { IsWhole terms.now.nodes reached.now term }
        ensures sound { OnOk result (IsEntered terms.now.nodes reached.now self.new) }
        ensures grows { OnOk result (Grows self.old self.new) }
        ensures has { OnOk result (HasTerm terms.now.nodes self.new term) }
    {
        let _count = terms.len();
        let landing = Landing {
            array,
            index,
            value: term,
        };
        self.add_start(terms, reached, Start::Term(term), landing)?;
        Ok(())
    }

    /// The moves of a choice.
    fn enter_choice(
        &mut self,
        terms: &Terms,
        reached: &Reached,
        term: TermId,
        condition: TermId,
        yes: TermId,
        no: TermId,
    ) -> Result<(), AllocError>
        requires sound { IsEntered terms.now.nodes reached.now self.old }
        requires shape { shape_at terms.now.nodes term ≡ Choosing condition yes no }
        requires whole { IsWhole terms.now.nodes reached.now term }
        requires here { Contains reached.now term }
        requires first { Contains reached.now yes }
        requires second { Contains reached.now no }
        ensures sound { OnOk result (IsEntered terms.now.nodes reached.now self.new) }
        ensures grows { OnOk result (Grows self.old self.new) }
        ensures has { OnOk result (HasTerm terms.now.nodes self.new term) }
    {
        let _count = terms.len();
        let here = reached.place_of(term).unwrap();
        let first = reached.place_of(yes).unwrap();
        let second = reached.place_of(no).unwrap();
        let holds = Guard::Holds(condition);
        self.add_move(terms, reached, here, first, Move::Then(term), holds)?;
        let fails = Guard::Fails(condition);
        self.add_move(terms, reached, here, second, Move::Else(term), fails)?;
        Ok(())
    }

    /// The move of an equality.
    fn enter_equality(
        &mut self,
        terms: &Terms,
        reached: &Reached,
        term: TermId,
        left: TermId,
        right: TermId,
    ) -> Result<(), AllocError>
        requires sound { IsEntered terms.now.nodes reached.now self.old }
        requires shape { shape_at terms.now.nodes term ≡ Equating left right }
        requires whole { IsWhole terms.now.nodes reached.now term }
        requires first { Contains reached.now left }
        requires second { Contains reached.now right }
        ensures sound { OnOk result (IsEntered terms.now.nodes reached.now self.new) }
        ensures grows { OnOk result (Grows self.old self.new) }
        ensures has { OnOk result (HasTerm terms.now.nodes self.new term) }
    {
        let _count = terms.len();
        let first = reached.place_of(left).unwrap();
        let second = reached.place_of(right).unwrap();
        let guard = Guard::Holds(term);
        self.add_move(terms, reached, first, second, Move::Sides(term), guard)?;
        Ok(())
    }

    /// The access and the moves of a term.
    fn enter(&mut self, terms: &Terms, reached: &Reached, term: TermId) -> Result<(), AllocError>
        requires sound { IsEntered terms.now.nodes reached.now self.old }
        requires here { Contains reached.now term }
        requires held { (u : ℕ) → Contains reached.now u → u < length terms.now.nodes }
        requires args { (u : ℕ) → Contains (node_at terms.now.nodes term).args u
            → Contains reached.now u }
        ensures sound { OnOk result (IsEntered terms.now.nodes reached.now self.new) }
        ensures grows { OnOk result (Grows self.old self.new) }
        ensures has { OnOk result (HasTerm terms.now.nodes self.new term) }
    {
        let _count = terms.len();
        match shape_at(terms, term) {
            Shape::Selecting { array, index } => {
                self.enter_select(terms, reached, term, array, index)
            }
            Shape::Storing {
                array,
                index,
                value,
            } => self.enter_store(terms, reached, term, array, index, value),
            Shape::Choosing { condition, yes, no } => {
                if is_array(terms, term) {
                    self.enter_choice(terms, reached, term, condition, yes, no)
                } else {
                    Ok(())
                }
            }
            Shape::Equating { left, right } => {
                if is_array(terms, left) {
                    self.enter_equality(terms, reached, term, left, right)
                } else {
                    Ok(())
                }
            }
            Shape::Filling { .. } => Ok(()),
            Shape::Witnessing { .. } => Ok(()),
            Shape::Applying { .. } => Ok(()),
            Shape::Declaring { .. } => Ok(()),
            Shape::Other => Ok(()),
        }
    }

    /// The access and the moves of a term, if it has no image.
    fn enter_term(
        &mut self,
        terms: &Terms,
        bits: &Bits,
        reached: &Reached,
        term: TermId,
    ) -> Result<(), AllocError>
        requires bits { HaveBits terms.now.nodes bits.now (Contains reached.now) }
        requires closed { IsClosed (leads terms.now.nodes (image_in bits.now))
            (Contains reached.now) }
        requires sound { IsEntered terms.now.nodes reached.now self.old }
        requires here { Contains reached.now term }
        ensures sound { OnOk result (IsEntered terms.now.nodes reached.now self.new) }
        ensures grows { OnOk result (Grows self.old self.new) }
        ensures has { OnOk result (image_in bits.now term ≡ None
            → HasTerm terms.now.nodes self.new term) }
    {
        match bits.image(term) {
            Some(_) => Ok(()),
            None => self.enter(terms, reached, term),
        }
    }

    /// No edges and no accesses.
    fn new(alloc: Global, terms: &Terms, reached: &Reached) -> Result<Network, AllocError>
        ensures { IfOk result (λ n. IsEntered terms.now.nodes reached.now n) }
    {
        Ok(Network {
            graph: Graph::new(alloc, reached.terms().len())?,
            moves: Vec::new(alloc),
            guards: Vec::new(alloc),
            origins: Vec::new(alloc),
            landings: Vec::new(alloc),
        })
    }

    /// The accesses and the moves of all terms without images.
    pub fn of_terms(
        alloc: Global,
        terms: &Terms,
        bits: &Bits,
        reached: &Reached,
    ) -> Result<Network, AllocError>
        requires bits { HaveBits terms.now.nodes bits.now (Contains reached.now) }
        requires closed { IsClosed (leads terms.now.nodes (image_in bits.now))
            (Contains reached.now) }
        ensures sound { IfOk result (λ n. IsEntered terms.now.nodes reached.now n) }
        ensures has { IfOk result (λ n. (t : ℕ) → IsOwn (Contains reached.now) (image_in bits.now) t
            → HasTerm terms.now.nodes n t) }
    {
        let mut network = Network::new(alloc, terms, reached)?;
        for term in reached.terms() {
            network.enter_term(terms, bits, reached, *term)?;
        }
        Ok(network)
    }
}

/// Whether a term is an array.
fn is_array(terms: &Terms, term: TermId) -> bool
    requires { term < length terms.now.nodes }
    ensures { result ≡ is_array (sort_of terms.now.nodes term) }
{
    matches!(terms.sort(term), Sort::Array(..))
}
