// What the accesses of a network come to under an assignment.

ghost use Rattle.std.specs.Prelude.{◌≡◌, ◌<◌, ℕ, [], length, Contains, IfOk, OnOk};
ghost use Rattle.smt_terms.specs.declared.sort.Sort.TheVariants as sort;
ghost use Rattle.smt_terms.specs.Bits.{image_in};
ghost use Rattle.smt_terms.specs.Terms.{sort_of};
ghost use Rattle.theory_terms.specs.declared.shape.Shape.TheVariants.{Filling};
ghost use Rattle.theory_terms.specs.Shapes.{shape_at};
ghost use Rattle.access_spread.specs.Graphs.{IsGraph, AreGated};
ghost use Rattle.access_spread.specs.Spreads.{AreRising, AreTold, IsSpread, start_at};
ghost use Rattle.bit_blast.specs.Assigned.{assigned};
ghost use Rattle.access_tables.specs.Encoded.{HaveBits};
ghost use Rattle.access_tables.specs.Held.{assigned_value};
ghost use Rattle.access_tables.specs.Ready.{IsOwn};
ghost use Rattle.access_walk.specs.Maps.{AreLinked};
ghost use Rattle.access_walk.specs.Spread.{IsSpreading};
ghost use Rattle.access_walk.specs.Told.{IsAllTold};
ghost use Rattle.access_walk.specs.Valuing.{IsNetworkOf};
ghost use Rattle.access_walk.specs.Walked.{HasHeldWords, HaveWordValues};

use crate::accesses::{landings_of, lemmas_of};
use crate::lanes::Lanes;
use crate::network::Network;
use crate::siblings::siblings_of;
use crate::values::Values;
use access_spread::{Lane, State, spread};
use bit_blast::Assignment;
use smt_terms::bits::Bits;
use smt_terms::terms::Terms;
use std::alloc::{AllocError, Global};
use term_reach::Reached;
use theory_terms::atom::Landing;
use theory_terms::lemma::Lemma;

/// Tables that are kept from one assignment to the next.
#[derive(Drop)]
pub struct Workspace {
    values: Values,
    lanes: Lanes,
    state: State,
}

/// Lemmas on accesses of one array with equal indexes and different values: false ones, one for
/// each array and index, and further ones that are like them, over the other branch of a choice.
#[derive(Debug, Drop)]
pub struct Clashes {
    pub falses: Vec<Lemma>,
    pub siblings: Vec<Lemma>,
}

/// What the accesses come to.
#[derive(Debug, Drop)]
pub enum Spreading {
    /// A table.
    Table(Vec<Landing>),
    /// Some clash.
    Clashes(Clashes),
}

impl Workspace {
    /// Takes no memory.
    pub fn new(alloc: Global) -> Workspace {
        Workspace {
            values: Values::new(alloc),
            lanes: Lanes::new(alloc),
            state: State::new(alloc),
        }
    }
}

/// Spreads accesses over the edges of their lanes; where none is refused, over all.
fn spread_down_first(
    network: &Network,
    values: &Values,
    lanes: &[Lane],
    state: &mut State,
) -> Result<(), AllocError>
    requires graph { IsGraph network.now.graph }
    requires gated { AreGated network.now.graph values.now.gates.items }
    requires within { (s : ℕ) → s < length values.now.starts.items
        → (start_at values.now.starts.items s).array < length network.now.graph.fans.items }
    requires rising { AreRising values.now.starts.items }
    ensures spread { OnOk result
        (IsSpread network.now.graph values.now.gates.items [] values.now.starts.items
        state.new.rows.items state.new.refused.items) }
    ensures told { OnOk result
        (AreTold network.now.graph values.now.gates.items lanes.now values.now.starts.items
        state.new.rows.items state.new.refused.items) }
{
    spread(state, &network.graph, &values.gates, lanes, &values.starts)?;
    if state.refused.is_empty() {
        return spread(state, &network.graph, &values.gates, &[], &values.starts);
    }
    Ok(())
}

/// Where accesses clash, lemmas of which the first ones are false under the assignment, at most 30;
/// else all accesses, which are closed. Where fewer lemmas are told, each array at which accesses
/// on the way down clash with one index has its lemma, or they are stopped on their way by one that
/// has.
pub fn find_clashes(
    alloc: Global,
    terms: &Terms,
    bits: &Bits,
    assignment: &Assignment,
    reached: &Reached,
    network: &Network,
    workspace: &mut Workspace,
) -> Result<Spreading, AllocError>
    requires bits { HaveBits terms.now.nodes bits.now (Contains reached.now) }
    requires network { IsNetworkOf terms.now.nodes bits.now reached.now network.now }
    requires words { (t x n m : ℕ) → IsOwn (Contains reached.now) (image_in bits.now) t
        → shape_at terms.now.nodes t ≡ Filling x → sort_of terms.now.nodes t ≡ sort.Array n m
        → HasHeldWords terms.now.nodes bits.now (Contains reached.now) n }
    requires values { HaveWordValues terms.now.nodes bits.now (assigned assignment.now) }
    requires linked { AreLinked (image_in bits.now)
        (assigned_value terms.now.nodes bits.now (assigned assignment.now)) }
    ensures found { IfOk result
        (IsSpreading terms.now.nodes bits.now (assigned assignment.now) reached.now) }
    ensures told { IfOk result
        (IsAllTold terms.now.nodes bits.now (assigned assignment.now) reached.now) }
{
    let _count = terms.len();
    workspace
        .values
        .fill(terms, bits, assignment, reached, network)?;
    workspace
        .lanes
        .fill(terms, reached, network, &workspace.values.gates)?;
    spread_down_first(
        network,
        &workspace.values,
        &workspace.lanes.lanes,
        &mut workspace.state,
    )?;
    if workspace.state.refused.is_empty() {
        let entries = &workspace.values.entries;
        let rows = landings_of(alloc, reached.terms(), entries, &workspace.state.rows)?;
        return Ok(Spreading::Table(rows));
    }
    let falses = lemmas_of(alloc, network, &workspace.values, &mut workspace.state)?;
    let siblings = siblings_of(alloc, terms, bits, &falses)?;
    Ok(Spreading::Clashes(Clashes { falses, siblings }))
}
